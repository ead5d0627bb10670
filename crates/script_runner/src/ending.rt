ghost use Rattle.std.specs.Prelude.{◌≡◌, ◌↔◌, IfSome, IsSome};
ghost use Rattle.script_runner.specs.Line.{name_of, text_of_line};

use crate::run::Status;
use script_text::Cause;
use std::fmt;

/// The line for standard error that says why there is no whole report. It prints without a line
/// break at its end.
#[derive(Clone, Copy, Debug)]
pub struct Line {
    /// How the run ended. Of `Done` and `SomeRefused` nothing is printed.
    pub status: Status,
}

/// The line of a status. `Done` and `SomeRefused` have none, since their report is whole.
pub fn line_of(status: Status) -> Option<Line>
    ensures some { IsSome result ↔ IsSome (text_of_line status) }
    ensures line { IfSome result (λ line. line ≡ record { status = status }) }
{
    match status {
        Status::Done | Status::SomeRefused => None,
        Status::BadWords
        | Status::BadScript { .. }
        | Status::ReadFault
        | Status::WriteFault
        | Status::NoMemory
        | Status::TooLong => Some(Line { status }),
    }
}

impl fmt::Display for Line {
    ghost output = { λ line. text_of_line line.status };

    fn fmt<W: fmt::Write>(&self, f: &mut fmt::Formatter<W>) -> fmt::Result {
        match self.status {
            Status::Done | Status::SomeRefused => Ok(()),
            Status::BadWords => write!(f, "bad words"),
            Status::BadScript { line, cause } => {
                let name = name_of(cause);
                write!(f, "bad script: line {line}: {name}")
            }
            Status::ReadFault => write!(f, "read fault"),
            Status::WriteFault => write!(f, "write fault"),
            Status::NoMemory => write!(f, "no memory"),
            Status::TooLong => write!(f, "too long"),
        }
    }
}

/// The name of a cause, as the line of `BadScript` has it.
pub fn name_of(cause: Cause) -> &'static str
    ensures { result.now ≡ name_of cause }
{
    match cause {
        Cause::TooManyLines => "TooManyLines",
        Cause::LongLine => "LongLine",
        Cause::BadByte => "BadByte",
        Cause::NoSession => "NoSession",
        Cause::NoThread => "NoThread",
        Cause::TooManyThreads => "TooManyThreads",
        Cause::Unended => "Unended",
        Cause::UnknownCommand => "UnknownCommand",
        Cause::WordCount => "WordCount",
        Cause::BadNumber => "BadNumber",
        Cause::BadName => "BadName",
        Cause::BadSession => "BadSession",
    }
}
