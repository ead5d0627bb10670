//! Exact arithmetic of points and polygons: the products of vectors, quarter turns, and whether a
//! polygon is simple. No call takes memory.
#![tactic(auto)]

pub use polygon::is_simple_ccw;
pub use sides::side;
pub use turns::quarter;
pub use vectors::{cross, dot};

mod polygon;
mod segment;
mod sides;
mod turns;
mod vectors;
