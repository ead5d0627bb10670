//! Scripts and reports as data and as text: a script is read from bytes, and a report is printed.
//! `specs/` says besides when a report is a legal one of a script.
#![tactic(auto)]

pub use laws::a_text_is_of_one_report;
pub use limits::{MOST_LINE_BYTES, MOST_LINES, MOST_NAME_BYTES, MOST_PARTITIONS, MOST_THREADS};
pub use printing::{Text, report_text};
pub use reading::{ScriptNo, read_script};
pub use report::{
    EntryList, JournalList, Line, LineSaid, PartList, Report, SaidList, TranscriptList,
};
pub use script::{
    Cause, LineList, Operand, OperandList, Order, Script, ScriptLine, ThreadList, TurnList,
};

mod laws;
mod limits;
mod printing;
mod reading;
mod report;
mod script;
