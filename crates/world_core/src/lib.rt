//! The world: partitions with their journals, over which threads act by events.
#![tactic(auto)]

pub use event::{Event, Said, WorldNo};
pub use laws::{events_that_may_happen_do, worlds_are_sessions};
pub use world::World;

mod doing;
mod event;
mod laws;
mod world;
