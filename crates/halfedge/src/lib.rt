//! Rings of linked fins, in the store's map of entities: a fin is a half-edge, and names the fin
//! that comes next in its loop and the one before (Mäntylä, An Introduction to Solid Modeling,
//! 1988). Each call changes the rings that it names and nothing else, and takes no memory. The map
//! need not be that of a sound solid between two calls.
#![tactic(auto)]

pub use labels::relabel;
pub use read::{least_fin, ring_len, ring_next};
pub use rings::{cut_ring, insert_pair, join_rings, split_ring};

mod labels;
mod links;
mod read;
mod rings;
