//! Partitions in use, over modellers that stand above `partition`. Here is the smallest modeller,
//! `PairBodies`, and the tests of what no clause of `partition` says.
#![tactic(auto)]

pub use laws::{a_goto_brings_the_map_back, no_tag_names_two_entities};
pub use pair_bodies::PairBodies;
pub use worked::{a_mark_begins_anew, work_to_the_current_mark, worked_load, worked_work};

mod laws;
mod pair_bodies;
#[cfg(test)]
mod tests;
mod worked;
