//! Carries out the script that standard input holds, and writes its report to standard output.
#![tactic(auto)]

ghost use Rattle.std.specs.Prelude.{◌≡◌, map, string_bytes, IsErr, IfErr, IfOk};
ghost use Rattle.std.specs.Process.{exit_status};
ghost use Rattle.script_runner.specs.Statuses.{number_of_status};
ghost use Rattle.script_runner.specs.declared.run.Outcome.{Outcome};
ghost use Rattle.session_script.specs.Ending.{EndsWith, IsRun};

use crate::words::words_of;
use pk_outside::{Sink, Source, StdinSource, StdoutSink};
use script_runner::{Status, line_of, run_serial};
use std::env::{self, Env};
use std::io;
use std::process::ExitCode;

mod words;

fn main(rt: HostRuntime) -> ExitCode {
    let mut source = StdinSource::new(rt.stdin());
    let mut sink = StdoutSink::new(rt.stdout());
    program(&rt, &mut source, &mut sink)
}

/// All that the program does: it runs the words that it was started with.
fn program<R: Env + Eprint + AllocGlobal, S: Source, K: Sink>(
    rt: &R,
    source: &mut S,
    sink: &mut K,
) -> ExitCode
    ensures ended { EndsWith S.left S.calls S.faults K.held K.calls K.faults
        source.old source.new sink.old sink.new (exit_status result) }
{
    let words = words_of(rt.alloc(), env::args(rt));
    run(rt, words, source, sink)
}

/// Runs these words, says on standard error why there is no whole report, and ends with the number
/// of the run's status. Where the words could not be had, it ends with the number of the status
/// that says so, and reads and writes nothing.
fn run<R: Eprint + AllocGlobal, S: Source, K: Sink>(
    rt: &R,
    words: Result<Vec<String>, Status>,
    source: &mut S,
    sink: &mut K,
) -> ExitCode
    ensures run { IfOk words (λ words. (outcome : Outcome)
        × (exit_status result ≡ number_of_status outcome.status)
        × IsRun S.left S.calls S.faults K.held K.calls K.faults
        (map string_bytes words.items) source.old source.new sink.old sink.new outcome) }
    ensures wordless { IfErr words (λ status. exit_status result ≡ number_of_status status) }
    ensures unread { IsErr words → source.new ≡ source.old }
    ensures unwritten { IsErr words → sink.new ≡ sink.old }
{
    let status = match words {
        Ok(words) => run_serial(rt.alloc(), words.as_slice(), source, sink).status,
        Err(status) => status,
    };
    // There is nowhere left to say that standard error takes nothing.
    let _ = tell(rt, status);
    exit_code(status)
}

/// Writes the line of a status to standard error, where it has one.
fn tell<R: Eprint>(rt: &R, status: Status) -> io::Result<()> {
    match line_of(status) {
        Some(line) => eprintln!(rt; "{line}"),
        None => Ok(()),
    }
}

/// The process ends with the number of the status.
fn exit_code(status: Status) -> ExitCode
    ensures { exit_status result ≡ number_of_status status }
{
    ExitCode::from(status.number())
}
