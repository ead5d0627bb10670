//! What an operand of a call on solids is, and what stands around it, read in a store: a body, a
//! face, a loop, a fin, or an end for a new edge (Mäntylä, An Introduction to Solid Modeling,
//! 1988). Each call refuses a tag that is not live or not of the class that is asked for, and takes
//! no memory. And the numbers of points: whether they are in range, and their sums with a vector.
#![tactic(auto)]

pub use ends::{End, end_at};
pub use faces::{PlacedFace, body_at, face_at};
pub use fins::{PlacedFin, fin_at};
pub use loops::{PlacedLoop, loop_at};
pub use parts::{has_more_parts, has_rings};
pub use points::{is_outside, moved, outside, point_of, too_far};

mod ends;
mod faces;
mod fins;
mod live;
mod loops;
mod parts;
mod points;
