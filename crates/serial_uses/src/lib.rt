//! Scripts whose threads take turns: worked examples that the checker computes. Nothing stands on
//! this crate.
#![tactic(auto)]

pub use worked::{worked_blocked_lock, worked_names, worked_spent_tags};

mod worked;
