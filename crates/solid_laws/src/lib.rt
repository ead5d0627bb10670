//! Laws about solids, and worked examples that the checker computes. No running code stands on
//! them: they show that the definitions mean what they should. The functions here have no code.
#![tactic(auto)]

pub use sound::what_is_not_sound;
pub use worked::{
    worked_block, worked_hole, worked_largest_prism, worked_limits, worked_plate, worked_queries,
    worked_rings, worked_room, worked_triangle,
};

mod sound;
mod worked;
