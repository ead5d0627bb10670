ghost use Rattle.std.specs.Prelude.{◌≡◌, ℕ, ◌+◌, ◌≤◌, ◌⊎◌, ◌↔◌, length, map, take, string_bytes, option_map, IfOk, IfErr, IsTrue, None, Some};
ghost use Rattle.std.specs.List.{list_any};
ghost use Rattle.modeller.specs.Euler.{euler};
ghost use Rattle.pk_outside.specs.Outside.{Grows, HasFailed};
ghost use Rattle.script_text.specs.Form.{script_of};
ghost use Rattle.script_text.specs.Text.{text_of};
ghost use Rattle.session_words.specs.Words.{AreReadable};
ghost use Rattle.script_runner.specs.Statuses.{is_refused, number_of_status, status_of, status_of_no, status_of_words};
ghost use Rattle.script_runner.specs.Headline.{HasCause, IsLawful, IsReported, IsReportOf, IsSerial, IsSerialReportOf, JudgesAs, WasRead, WasWritten};

use modeller::Euler;
use pk_outside::{Failed, ReadNo, Sink, Source, read_all, write_all};
use script_text::{Cause, LineSaid, Report, SaidList, ScriptNo, Text, read_script, report_text};
use serial_run::run_by_turns;
use session_words::{WordsNo, read_words};
use std::alloc::Global;

/// How a run ended.
#[derive(Clone, Copy, Debug, PartialEq, Eq)]
pub enum Status {
    /// No line was refused.
    Done,
    /// Some line was refused.
    SomeRefused,
    /// The words are not those of this program.
    BadWords,
    /// The input is no script: its first line that offends, and why.
    BadScript { line: u32, cause: Cause },
    /// A read failed.
    ReadFault,
    /// A write failed.
    WriteFault,
    /// Memory ran out.
    NoMemory,
    /// The input has more than 4,194,304 bytes.
    TooLong,
}

impl Status {
    /// The number with which the program ends.
    pub fn number(self) -> u8
        ensures { result ≡ number_of_status self }
    {
        match self {
            Status::Done => 0,
            Status::SomeRefused => 1,
            Status::BadWords => 2,
            Status::BadScript { .. } => 3,
            Status::ReadFault => 4,
            Status::WriteFault => 5,
            Status::NoMemory => 6,
            Status::TooLong => 7,
        }
    }
}

/// How a run ended, and its report, which it has exactly where it ended with `Done`, `SomeRefused`
/// or `WriteFault`.
#[derive(Debug, Drop)]
pub struct Outcome {
    pub status: Status,
    pub report: Option<Report>,
}

/// Reads a script, carries it out by turns of its threads, and writes the report. `words` has no
/// program name in it; whether `--serial` is among them makes no difference.
///
/// The words are read first, then the input is read to its end, then it is run, and nothing is
/// written before the whole text is in memory. The first read or write that fails ends it. It waits
/// for nobody, and returns where the source and the sink do.
pub fn run_serial<S: Source, K: Sink>(
    alloc: Global,
    words: &[String],
    source: &mut S,
    sink: &mut K,
) -> Outcome
    // What was read of the source; the report, which is the headline; that it is the serial one;
    // what was written to the sink; and the cause of each status. `specs/Headline.antt` has the
    // parts of each, by name.
    ensures read { WasRead S.left S.calls S.faults source.old source.new result.status }
    ensures report { IsReported euler (S.left source.old) result.status result.report }
    ensures serial { IsSerial euler (S.left source.old) result.report }
    ensures written { WasWritten K.held K.calls K.faults sink.old sink.new result.status
        result.report }
    ensures cause { HasCause (AreReadable (map string_bytes words.now))
        (S.left source.old) (S.faults source.old) (S.faults source.new)
        (K.faults sink.old) (K.faults sink.new) result.status }
{
    if let Err(no) = read_words(alloc, words) {
        return without_report(ended_by_words(no));
    }
    let bytes = match read_all(alloc, source) {
        Ok(bytes) => bytes,
        Err(no) => return without_report(ended_by(no)),
    };
    match report_of(alloc, &bytes) {
        Ok((report, text)) => write_report(report, &text, sink),
        Err(ScriptNo::Bad { line, cause }) => without_report(Status::BadScript { line, cause }),
        Err(ScriptNo::NoMemory) => without_report(Status::NoMemory),
    }
}

fn ended_by_words(no: WordsNo) -> Status
    ensures { result ≡ status_of_words no }
{
    match no {
        WordsNo::Bad => Status::BadWords,
        WordsNo::NoMemory => Status::NoMemory,
    }
}

fn without_report(status: Status) -> Outcome
    ensures { result ≡ record { status = status; report = None } }
{
    Outcome {
        status,
        report: None,
    }
}

fn ended_by(no: ReadNo) -> Status
    ensures { result ≡ status_of_no no }
{
    match no {
        ReadNo::TooLong => Status::TooLong,
        ReadNo::Fault => Status::ReadFault,
        ReadNo::NoMemory => Status::NoMemory,
    }
}

/// The report of the script that the bytes are, and its text. Where they are none, the error has
/// the first line that offends.
fn report_of(alloc: Global, bytes: &[u8]) -> Result<(Report, Text), ScriptNo>
    ensures lawful { IfOk result (λ r. IsLawful euler r.0) }
    ensures legal { IfOk result (λ r. IsReportOf euler bytes.now r.0) }
    ensures serial { IfOk result (λ r. IsSerialReportOf euler bytes.now r.0) }
    ensures text { IfOk result (λ r. r.1 ≡ text_of r.0) }
    ensures judged { JudgesAs bytes.now result }
{
    let script = read_script(alloc, bytes)?;
    let report = run_by_turns(alloc, &script, Euler)?;
    let text = report_text(alloc, &report)?;
    Ok((report, text))
}

/// Writes the text of a report, and says how that ended.
fn write_report<K: Sink>(report: Report, text: &Text, sink: &mut K) -> Outcome
    requires { text.now ≡ text_of report }
    ensures report { result.report ≡ Some report }
    ensures whole { result.status ≡ status_of report
        → Grows (K.held sink.old) (K.held sink.new) (text_of report) }
    ensures prefix { (result.status ≡ status_of report) ⊎ ((result.status ≡ Status.WriteFault)
        × ((n : ℕ) × (n ≤ length (text_of report))
        × Grows (K.held sink.old) (K.held sink.new) (take n (text_of report)))) }
    ensures fault { result.status ≡ Status.WriteFault
        → HasFailed (K.faults sink.old) (K.faults sink.new) }
    ensures no_fault { ¬ (result.status ≡ Status.WriteFault)
        → K.faults sink.new ≡ K.faults sink.old }
    ensures counted { K.faults sink.old ≤ K.faults sink.new }
    ensures calls { K.calls sink.new ≤ K.calls sink.old + length (text_of report) }
{
    let status = match write_all(sink, text.as_slice()) {
        Ok(()) => status_after(&report),
        Err(Failed) => Status::WriteFault,
    };
    Outcome {
        status,
        report: Some(report),
    }
}

/// How a run ends whose text was written whole.
fn status_after(report: &Report) -> Status
    ensures { result ≡ status_of report.now }
{
    if report.threads.as_slice().iter().any(has_refused) {
        Status::SomeRefused
    } else {
        Status::Done
    }
}

/// Whether a line of the transcript is a refusal.
fn has_refused(said: &SaidList) -> bool
    ensures { result ≡ list_any (λ l. is_refused l.said) said.now }
{
    said.as_slice()
        .iter()
        .any(|line| matches!(line.said, LineSaid::Refused(_)))
}
