//! A partition: solids that roll back and forward between marks, with the journal of all that was
//! done.
#![tactic(auto)]

pub use partition::Partition;

mod contents;
mod goes;
mod marks;
mod partition;
mod perform;
mod unsaved;
