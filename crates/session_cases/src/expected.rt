ghost use Rattle.std.specs.Prelude.{◌≡◌, ◌↔◌, codes, IsTrue};
ghost use Rattle.std.specs.Str.Iter.{HasSubslice};
ghost use Rattle.session_cases.specs.Expected.{IsNumberOfReport, message_expected, written_expected, IsNumberExpected};

use crate::case::Part;
use crate::fault::CaseError;
use std::alloc::Global;

/// What the run of a case must show.
#[derive(Debug, Drop)]
pub(crate) enum Expected {
    /// This whole report, from which the status follows, and nothing on standard error.
    Report(String),
    /// This status and this line on standard error, and what must be written before.
    Refusal {
        number: u8,
        message: String,
        written: String,
    },
}

impl Expected {
    /// What the files `.report` and `.refusal` of a case say, where it has them.
    pub(crate) fn of_texts(
        alloc: Global,
        report: Option<String>,
        refusal: Option<&str>,
    ) -> Result<Expected, CaseError> {
        match (report, refusal) {
            (None, None) => Err(CaseError::NoExpectation),
            (Some(report), None) => Ok(Expected::Report(report)),
            (report, Some(refusal)) => {
                let written = report.unwrap_or(String::new(alloc));
                refusal_of(alloc, refusal, written)
            }
        }
    }

    /// The number with which the run must end.
    pub(crate) fn number(&self) -> u8
        ensures { IsNumberExpected self.now result }
    {
        match self {
            Expected::Report(report) => number_of_report(report.as_str()),
            Expected::Refusal { number, .. } => *number,
        }
    }

    /// What must be said on standard error, without its line break.
    pub(crate) fn message(&self) -> &str
        ensures { result.now ≡ message_expected self.now }
    {
        match self {
            Expected::Report(_) => "",
            Expected::Refusal { message, .. } => message.as_str(),
        }
    }

    /// What must be written.
    pub(crate) fn written(&self) -> &str
        ensures { result.now ≡ written_expected self.now }
    {
        match self {
            Expected::Report(report) => report.as_str(),
            Expected::Refusal { written, .. } => written.as_str(),
        }
    }
}

/// A refusal, by the two lines of its text.
fn refusal_of(alloc: Global, text: &str, written: String) -> Result<Expected, CaseError> {
    let mut lines = text.lines();
    let Some(Ok(number)) = lines.next().map(|line| line.parse::<u8>()) else {
        return Err(CaseError::BadLine(Part::Refusal, 1));
    };
    let Some(message) = lines.next() else {
        return Err(CaseError::BadLine(Part::Refusal, 2));
    };
    if lines.next().is_some() {
        return Err(CaseError::BadLine(Part::Refusal, 3));
    }
    Ok(Expected::Refusal {
        number,
        message: String::from_str(alloc, message)?,
        written,
    })
}

/// The number with which a run ends that writes this report: 1 where some line was refused, else 0.
fn number_of_report(report: &str) -> u8
    ensures { IsNumberOfReport report.now result }
{
    if says_refused(report) { 1 } else { 0 }
}

/// Whether the text says of a line that it was refused.
fn says_refused(report: &str) -> bool
    ensures { IsTrue result ↔ HasSubslice report.now (codes " refused ") }
{
    report.contains(" refused ")
}
