//! Views of a body, a face and a loop of a sound store, and walks over what they have. They borrow
//! the store, copy nothing and take no memory: what they lend is the store's own.
#![tactic(auto)]

pub use bodies::BodyView;
pub use faces::FaceView;
pub use fins::FinIter;
pub use kids::KidIter;
pub use loops::LoopView;

mod bodies;
mod faces;
mod fins;
mod kids;
mod loops;
