ghost use Rattle.std.specs.Prelude.{◌≡◌, map, string_bytes, IfOk};
ghost use Rattle.script_runner.specs.Line.{text_of_line};
ghost use Rattle.session_cases.specs.Shown.{ShowsARun, or_nothing};

use crate::case::Case;
use crate::fault::CaseError;
use pk_outside::{MemSink, MemSource};
use script_runner::{Status, line_of, run_serial};
use std::alloc::{AllocError, Global};

/// What a run shows to those who started it.
#[derive(Debug, Drop)]
pub(crate) struct Shown {
    /// The number with which it ends.
    pub(crate) number: u8,
    /// What it says on standard error, without its line break. Mostly nothing.
    pub(crate) message: String,
    /// What it writes.
    pub(crate) written: String,
}

/// Runs a case, as the program runs a script.
pub(crate) fn run(alloc: Global, case: &Case) -> Result<Shown, CaseError>
    ensures { IfOk result (λ shown.
        ShowsARun (map string_bytes case.now.words.items) case.now.script.items shown) }
{
    let outside = &case.outside;
    let gives = outside.gives.get();
    let takes = outside.takes.get();
    let mut source = MemSource::new(alloc, &case.script, gives, &outside.failing_reads)?;
    let mut sink = MemSink::new(alloc, outside.room, takes, &outside.failing_writes)?;
    let outcome = run_serial(alloc, &case.words, &mut source, &mut sink);
    let Ok(written) = str::from_utf8(sink.as_slice()) else {
        return Err(CaseError::NotText);
    };
    Ok(Shown {
        number: outcome.status.number(),
        message: message_of(alloc, outcome.status)?,
        written: String::from_str(alloc, written)?,
    })
}

/// The line for standard error of a status, and an empty text where it has none.
fn message_of(alloc: Global, status: Status) -> Result<String, AllocError>
    ensures { IfOk result (λ text. string_bytes text ≡ or_nothing (text_of_line status)) }
{
    match line_of(status) {
        Some(line) => format!(in alloc; "{line}"),
        None => Ok(String::new(alloc)),
    }
}
