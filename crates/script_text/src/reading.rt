//! The reading of a script.
ghost use Rattle.std.specs.Prelude.{◌≡◌, ℕ, IfOk, Ok, Err};
ghost use Rattle.script_text.specs.Lines.{raw_lines, text_lines};
ghost use Rattle.script_text.specs.Form.{script_from, script_of};
ghost use Rattle.script_text.specs.Reading.{draft_now, Reads};
ghost use Rattle.script_text.specs.declared.reading.fault.ScriptNo.TheVariants.{Bad};

use crate::{Cause, Script};
use draft::Draft;
pub use fault::ScriptNo;
use lines::{is_newline, without_last};
use std::alloc::Global;

mod draft;
mod fault;
mod fields;
mod lines;
mod names;
mod numbers;
mod orders;

/// The script that the bytes are, or the first line that offends, from 1, with the first cause that
/// applies to it. What offends at the end of the input has the number of lines plus 1. `NoMemory`
/// comes only where memory ran out.
pub fn read_script(alloc: Global, bytes: &[u8]) -> Result<Script, ScriptNo>
    ensures script { IfOk result (λ script. script_of bytes.now ≡ Ok script) }
    ensures bad { (line : ℕ) (cause : Cause) → result ≡ Err (Bad line cause)
        → script_of bytes.now ≡ Err (record { line = line; cause = cause }) }
{
    read_lines(alloc, bytes)
}

/// The script of the lines, or the first of them that offends.
fn read_lines(alloc: Global, bytes: &[u8]) -> Result<Script, ScriptNo>
    ensures { Reads (λ script. script) result (script_of bytes.now) }
{
    let mut number = 0;
    let mut draft = Draft::new(alloc);
    if bytes.is_empty() {
        return draft.finish(1);
    }
    for line in without_last(bytes, b'\n').split(|b| is_newline(*b)) {
        number += 1;
        draft = draft.take(alloc, number, without_last(line, b'\r'))?;
    }
    draft.finish(number + 1)
}
