//! Why there is no script, or no line of one.
ghost use Rattle.std.specs.Prelude.{◌≡◌};
ghost use Rattle.script_text.specs.Reading.{fault_at};
ghost use Rattle.script_text.specs.declared.reading.fault.LineFault.TheVariants as fault;
ghost use Rattle.script_text.specs.declared.reading.fault.ScriptNo.TheVariants as no;

use crate::Cause;
use pk_base::NoMemory;
use std::alloc::{AllocError, AllocFailed};
use thiserror::Error;

/// Why bytes gave no script.
#[derive(Clone, Copy, Debug, PartialEq, Eq, Error)]
pub enum ScriptNo {
    /// The line, from 1, is the first that offends, and this is the first cause that applies to it.
    /// What offends at the end of the input has the number of lines plus 1.
    #[error("line {line}: {cause}")]
    Bad { line: u32, cause: Cause },
    /// Memory ran out.
    #[error("no memory")]
    NoMemory,
}

impl From<NoMemory> for ScriptNo {
    ghost from_gives = { λ _ e. e ≡ no.NoMemory };

    fn from(_: NoMemory) -> Self {
        ScriptNo::NoMemory
    }
}

impl From<AllocError> for ScriptNo {
    ghost from_gives = { λ _ e. e ≡ no.NoMemory };

    fn from(_: AllocError) -> Self {
        ScriptNo::NoMemory
    }
}

impl<T: Drop> From<AllocFailed<T>> for ScriptNo {
    ghost from_gives = { λ _ e. e ≡ no.NoMemory };

    fn from(_: AllocFailed<T>) -> Self {
        ScriptNo::NoMemory
    }
}

/// Why a line was not read.
#[derive(Clone, Copy, Debug, PartialEq, Eq)]
pub(crate) enum LineFault {
    /// The first cause that applies to it.
    Bad(Cause),
    /// Memory ran out.
    NoMemory,
}

impl From<Cause> for LineFault {
    ghost from_gives = { λ cause e. e ≡ fault.Bad cause };

    fn from(cause: Cause) -> Self {
        LineFault::Bad(cause)
    }
}

impl From<NoMemory> for LineFault {
    ghost from_gives = { λ _ e. e ≡ fault.NoMemory };

    fn from(_: NoMemory) -> Self {
        LineFault::NoMemory
    }
}

impl From<AllocError> for LineFault {
    ghost from_gives = { λ _ e. e ≡ fault.NoMemory };

    fn from(_: AllocError) -> Self {
        LineFault::NoMemory
    }
}

impl<T: Drop> From<AllocFailed<T>> for LineFault {
    ghost from_gives = { λ _ e. e ≡ fault.NoMemory };

    fn from(_: AllocFailed<T>) -> Self {
        LineFault::NoMemory
    }
}

impl LineFault {
    /// The fault of this line.
    pub(crate) fn at(self, line: u32) -> ScriptNo
        ensures { result ≡ fault_at line self }
    {
        match self {
            LineFault::Bad(cause) => ScriptNo::Bad { line, cause },
            LineFault::NoMemory => ScriptNo::NoMemory,
        }
    }
}
