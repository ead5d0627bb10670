ghost use Rattle.std.specs.Prelude.{◌≡◌, ◌<◌, ◌≤◌, length, IfOk};
ghost use Rattle.std.specs.Io.KnownBytes.{ReadConsumes, WriteAppends};
ghost use Rattle.pk_outside.specs.Outside.{TellsAllOrNone};

use crate::{Failed, Sink, Source};
use std::io::{ErrorKind, Read, Write};

// How many times a call is made that signals interrupt.
const TRIES: u32 = 64;

// One read, made again where a signal interrupts it.
fn read_once<R: Read>(reader: &mut R, into: &mut [u8]) -> Result<usize, Failed>
    ensures within { IfOk result (λ k. k ≤ length into.old) }
    ensures bytes { ReadConsumes (R.remaining reader.old) (R.remaining reader.new) result into.new }
{
    for _ in 0..TRIES {
        match reader.read(into) {
            Ok(count) => return Ok(count),
            Err(error) if error.kind() == ErrorKind::Interrupted => {}
            Err(_) => return Err(Failed),
        }
    }
    Err(Failed)
}

// One write, made again where a signal interrupts it. A write that takes nothing has failed.
fn write_once<W: Write>(writer: &mut W, piece: &[u8]) -> Result<usize, Failed>
    ensures within { IfOk result (λ k. k ≤ length piece.now) }
    ensures some { IfOk result (λ k. 0 < k) }
    ensures bytes { WriteAppends (W.contents writer.old) (W.contents writer.new) result piece.now }
{
    for _ in 0..TRIES {
        match writer.write(piece) {
            Ok(0) => return Err(Failed),
            Ok(count) => return Ok(count),
            Err(error) if error.kind() == ErrorKind::Interrupted => {}
            Err(_) => return Err(Failed),
        }
    }
    Err(Failed)
}

/// Reads from a reader of std, as the process's input. It tells the bytes that its reader tells,
/// and takes no memory. A read that a signal interrupts is made again, up to 64 times in all.
#[derive(Drop)]
pub struct StdinSource<R: Read> {
    reader: R,
    calls: u64,
    failed: u64,
    ghost steady: { TellsAllOrNone R.remaining },
}

impl<R: Read + Drop> StdinSource<R> {
    /// What the reader gives from here on. The reader's type tells the bytes of each of its values,
    /// as one in memory does, or of none, as the process's input does.
    pub fn new(reader: R) -> StdinSource<R>
        requires { TellsAllOrNone R.remaining }
        ensures left { ⟦<StdinSource<R> as Source>⟧.left result ≡ R.remaining reader }
        ensures calls { ⟦<StdinSource<R> as Source>⟧.calls result ≡ 0 }
        ensures faults { ⟦<StdinSource<R> as Source>⟧.faults result ≡ 0 }
    {
        StdinSource {
            reader,
            calls: 0,
            failed: 0,
        }
    }
}

impl<R: Read + Drop> Source for StdinSource<R> {
    ghost left = { λ s. R.remaining s.reader };

    ghost calls = { λ s. s.calls };

    ghost faults = { λ s. s.failed };

    fn read(&mut self, into: &mut [u8]) -> Result<usize, Failed> {
        if into.is_empty() {
            return Ok(0);
        }
        self.calls = self.calls.saturating_add(1);
        let result = read_once(&mut self.reader, into);
        if result.is_err() {
            self.failed = self.failed.saturating_add(1);
        }
        result
    }
}

/// Writes to a writer of std, as the process's output. It tells the bytes that its writer tells,
/// and takes no memory. Hand in a writer that keeps no buffer, as `rt.stdout()`: what it took has
/// then left the process. A write that a signal interrupts is made again, up to 64 times in all,
/// and one that takes nothing has failed.
#[derive(Drop)]
pub struct StdoutSink<W: Write> {
    writer: W,
    calls: u64,
    failed: u64,
    ghost steady: { TellsAllOrNone W.contents },
}

impl<W: Write + Drop> StdoutSink<W> {
    /// Writes behind what the writer holds. The writer's type tells the bytes of each of its
    /// values, as one in memory does, or of none, as the process's output does.
    pub fn new(writer: W) -> StdoutSink<W>
        requires { TellsAllOrNone W.contents }
        ensures held { ⟦<StdoutSink<W> as Sink>⟧.held result ≡ W.contents writer }
        ensures calls { ⟦<StdoutSink<W> as Sink>⟧.calls result ≡ 0 }
        ensures faults { ⟦<StdoutSink<W> as Sink>⟧.faults result ≡ 0 }
    {
        StdoutSink {
            writer,
            calls: 0,
            failed: 0,
        }
    }
}

impl<W: Write + Drop> Sink for StdoutSink<W> {
    ghost held = { λ s. W.contents s.writer };

    ghost calls = { λ s. s.calls };

    ghost faults = { λ s. s.failed };

    fn write(&mut self, piece: &[u8]) -> Result<usize, Failed> {
        if piece.is_empty() {
            return Ok(0);
        }
        self.calls = self.calls.saturating_add(1);
        let result = write_once(&mut self.writer, piece);
        if result.is_err() {
            self.failed = self.failed.saturating_add(1);
        }
        result
    }
}
