//! Child lists over slots with numbers, linked in place: which slot is the child of which.
#![tactic(auto)]

pub use children::Children;
pub use links::{Links, NoMemory};

mod children;
mod links;
mod slot;
