//! Motions of a solid: a body is moved by a vector, or turned about an axis by quarter turns, and a
//! face is swept by a vector (`euler_make`). For each, what it needs or why it is refused, and what
//! it does.
#![tactic(auto)]

pub use euler_make::{sweep_do, sweep_need};
pub use moves::{move_do, move_need};
pub use turns::{turn_do, turn_need};

mod moves;
mod points;
mod turns;
mod vertices;
