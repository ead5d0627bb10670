//! Sessions in use, over a modeller without bodies: visits of seats to partitions, and the
//! tests of what no clause of `pk_session` says.
#![tactic(auto)]

pub use no_bodies::NoBodies;
pub use visits::{mark, visit};

mod no_bodies;
#[cfg(test)]
mod tests;
mod visits;
