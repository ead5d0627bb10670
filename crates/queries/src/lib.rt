//! The calls that ask of solids and change nothing: an entity, what it owns, the fins of a loop, the
//! counts of a body, and all bodies. For each, what it needs or why it is refused, and its answer.
#![tactic(auto)]

pub use bodies::{bodies_do, bodies_need};
pub use counts::{counts_do, counts_need};
pub use entities::{ask_do, ask_need, kids_do, kids_need};
pub use rings::{first_fin, ring_do, ring_need};

mod bodies;
mod counts;
mod entities;
mod listing;
mod rings;
