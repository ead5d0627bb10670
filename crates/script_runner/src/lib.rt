//! The runner: reads a script, carries it out, and writes the report. `run_serial` is all that the
//! program does.
#![tactic(auto)]

pub use ending::{Line, line_of, name_of};
pub use run::{Outcome, Status, run_serial};

mod ending;
mod run;
