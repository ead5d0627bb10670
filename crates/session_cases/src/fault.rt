use crate::case::Part;
use std::alloc::{AllocError, AllocFailed};
use std::io;
use thiserror::Error;

/// Why a case could not be run.
#[derive(Debug, Drop, Error)]
pub(crate) enum CaseError {
    /// This file of it cannot be read.
    #[error("its file .{0} cannot be read: {1}")]
    Unreadable(Part, io::Error),
    /// The line of this number says nothing that this file of it may say.
    #[error("line {1} of its file .{0} is not as it must be")]
    BadLine(Part, usize),
    /// Nothing says how its run must end.
    #[error("it has neither a report nor a refusal")]
    NoExpectation,
    /// Its run wrote bytes that are not UTF-8.
    #[error("what it wrote is no text")]
    NotText,
    /// Memory ran out.
    #[error("out of memory")]
    NoMemory,
}

impl From<pk_base::NoMemory> for CaseError {
    fn from(_: pk_base::NoMemory) -> Self {
        CaseError::NoMemory
    }
}

impl From<AllocError> for CaseError {
    fn from(_: AllocError) -> Self {
        CaseError::NoMemory
    }
}

impl<T: Drop> From<AllocFailed<T>> for CaseError {
    fn from(_: AllocFailed<T>) -> Self {
        CaseError::NoMemory
    }
}
