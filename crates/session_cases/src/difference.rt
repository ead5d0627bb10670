ghost use Rattle.std.specs.Prelude.{◌≡◌, ◌↔◌, IsNone};
ghost use Rattle.session_cases.specs.Expected.{IsAsExpected};

use crate::expected::Expected;
use crate::shown::Shown;
use std::fmt;

/// Where a run first differs from what is expected of it.
#[derive(Debug, Drop)]
pub(crate) enum Difference<'a> {
    /// It ends with another number.
    Number { expected: u8, came: u8 },
    /// It says something else on standard error.
    Message { expected: &'a str, came: &'a str },
    /// It writes something else, from this line on.
    Written(LinePair<'a>),
}

/// Two lines of one number, from 1, the first of two texts that differ. A text that ends before has
/// none.
#[derive(Clone, Copy, Debug)]
pub(crate) struct LinePair<'a> {
    number: usize,
    expected: Option<&'a str>,
    came: Option<&'a str>,
}

/// Where what a run shows first differs from what is expected.
#[tactic(auto, using(crate::proofs::Numbers::number_unique))]
pub(crate) fn first_difference<'a>(
    expected: &'a Expected,
    shown: &'a Shown,
) -> Option<Difference<'a>>
    ensures { IsNone result ↔ IsAsExpected expected.now shown.now }
{
    let number = expected.number();
    if number != shown.number {
        return Some(Difference::Number {
            expected: number,
            came: shown.number,
        });
    }
    let message = expected.message();
    if message != shown.message.as_str() {
        return Some(Difference::Message {
            expected: message,
            came: shown.message.as_str(),
        });
    }
    let written = expected.written();
    if written != shown.written.as_str() {
        return Some(Difference::Written(line_pair(written, shown.written.as_str())));
    }
    None
}

/// The first lines in which two texts differ.
fn line_pair<'a>(expected: &'a str, came: &'a str) -> LinePair<'a> {
    let lines = expected.split('\n').zip(came.split('\n'));
    let same = lines.take_while(|(one, other)| one == other).count();
    LinePair {
        number: same.saturating_add(1),
        expected: expected.split('\n').nth(same),
        came: came.split('\n').nth(same),
    }
}

impl fmt::Display for Difference<'_> {
    fn fmt<W: fmt::Write>(&self, f: &mut fmt::Formatter<W>) -> fmt::Result {
        match self {
            Difference::Number { expected, came } => {
                write!(f, "expected the status {expected}, and {came} came")
            }
            Difference::Message { expected, came } => write!(
                f,
                "expected {expected:?} on standard error, and {came:?} came"
            ),
            Difference::Written(pair) => write!(f, "{pair}"),
        }
    }
}

impl fmt::Display for LinePair<'_> {
    fn fmt<W: fmt::Write>(&self, f: &mut fmt::Formatter<W>) -> fmt::Result {
        let number = self.number;
        match (self.expected, self.came) {
            (Some(expected), Some(came)) => {
                write!(f, "line {number}: expected {expected:?}, and {came:?} came")
            }
            (Some(expected), None) => {
                write!(f, "line {number}: expected {expected:?}, and no line came")
            }
            (None, Some(came)) => write!(f, "line {number}: expected no line, and {came:?} came"),
            (None, None) => write!(f, "line {number}"),
        }
    }
}
