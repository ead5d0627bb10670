//! The words of the program: `session_script [--serial]`, read with `clap`.
#![tactic(auto)]

pub use laws::{what_the_program_takes, worked_words};
pub use reading::{Words, WordsNo, read_words};

mod laws;
mod reading;
