//! The serial run: the threads of a script take turns, over a world, for any modeller.
#![tactic(auto)]

pub use laws::{every_script_ends, some_thread_goes_on};
pub use run::run_by_turns;

mod acts;
mod laws;
mod orders;
mod run;
