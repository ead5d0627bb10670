//! Worlds in use: worked examples that the checker computes. Nothing stands on this crate.
#![tactic(auto)]

pub use worked::{worked_small_world, worked_wide_world};

mod worked;
