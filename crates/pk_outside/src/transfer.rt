ghost use Rattle.std.specs.Prelude.{◌≡◌, ℕ, ◌+◌, ◌≤◌, length, take, IfOk, OnOk, OnErr, IsErrOf, vec_len};
ghost use Rattle.pk_outside.specs.Outside.{Takes, Took, IsAtEnd, Grows, HasFailed};
ghost use Rattle.pk_outside.specs.declared.transfer.ReadNo.TheVariants as no;

use crate::{Failed, Sink, Source};
use std::alloc::{AllocError, Global};
use thiserror::Error;

/// The most bytes that an input may have.
pub const MOST_INPUT: usize = 4_194_304;

/// Why an input was not read.
#[derive(Clone, Copy, Debug, PartialEq, Eq, Error)]
pub enum ReadNo {
    /// It has more than `MOST_INPUT` bytes.
    #[error("the input has more than {MOST_INPUT} bytes")]
    TooLong,
    /// A read failed.
    #[error("a read failed")]
    Fault,
    /// Memory ran out.
    #[error("no memory")]
    NoMemory,
}

impl From<Failed> for ReadNo {
    ghost from_gives = { λ _ e. e ≡ no.Fault };

    fn from(_: Failed) -> Self {
        ReadNo::Fault
    }
}

impl From<AllocError> for ReadNo {
    ghost from_gives = { λ _ e. e ≡ no.NoMemory };

    fn from(_: AllocError) -> Self {
        ReadNo::NoMemory
    }
}

// How many bytes are asked for at a time.
const PIECE: usize = 4096;

/// Reads to the end. It stops at the first read that fails with `Fault`, and at the first byte
/// above `MOST_INPUT` with `TooLong`; the bytes read before are let go. Each read but the last
/// gives a byte at least.
pub fn read_all<S: Source>(alloc: Global, source: &mut S) -> Result<Vec<u8>, ReadNo>
    ensures bytes { IfOk result (λ v. Takes (S.left source.old) (S.left source.new) v.items) }
    ensures ended { OnOk result (IsAtEnd (S.left source.new)) }
    ensures within { IfOk result (λ v. vec_len v ≤ MOST_INPUT) }
    ensures too_long { IsErrOf result ReadNo.TooLong
        → Took (λ n. n ≡ MOST_INPUT + 1) (S.left source.old) (S.left source.new) }
    ensures cut { IsErrOf result ReadNo.Fault
        → Took (λ n. n ≤ MOST_INPUT) (S.left source.old) (S.left source.new) }
    ensures fault { IsErrOf result ReadNo.Fault
        → HasFailed (S.faults source.old) (S.faults source.new) }
    ensures no_fault { ¬ (IsErrOf result ReadNo.Fault) → S.faults source.new ≡ S.faults source.old }
    ensures counted { S.faults source.old ≤ S.faults source.new }
    ensures calls { S.calls source.new ≤ S.calls source.old + (MOST_INPUT + 1) }
    ensures calls_by_bytes { Took (λ n. S.calls source.new ≤ S.calls source.old + (n + 1))
        (S.left source.old) (S.left source.new) }
{
    let mut piece = [0; PIECE];
    let mut bytes = Vec::new(alloc);
    while bytes.len() <= MOST_INPUT {
        let room = PIECE.min(MOST_INPUT + 1 - bytes.len());
        let count = source.read(&mut piece[..room])?;
        if count == 0 {
            return Ok(bytes);
        }
        bytes.extend_from_slice(&piece[..count])?;
    }
    Err(ReadNo::TooLong)
}

/// Writes all the bytes, and stops at the first write that fails: a prefix of them is then written.
/// Each other write takes a byte at least.
pub fn write_all<K: Sink>(sink: &mut K, bytes: &[u8]) -> Result<(), Failed>
    ensures ok { OnOk result (Grows (K.held sink.old) (K.held sink.new) bytes.now) }
    ensures prefix { OnErr result ((n : ℕ) × (n ≤ length bytes.now)
        × Grows (K.held sink.old) (K.held sink.new) (take n bytes.now)) }
    ensures failed { OnErr result (HasFailed (K.faults sink.old) (K.faults sink.new)) }
    ensures unfailed { OnOk result (K.faults sink.new ≡ K.faults sink.old) }
    ensures counted { K.faults sink.old ≤ K.faults sink.new }
    ensures calls { K.calls sink.new ≤ K.calls sink.old + length bytes.now }
{
    let mut done = 0;
    while done < bytes.len() {
        done += sink.write(&bytes[done..])?;
    }
    Ok(())
}
