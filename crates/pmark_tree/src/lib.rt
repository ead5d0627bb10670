//! The marks of a partition as a tree, with the difference of each from its parent.
#![tactic(auto)]

pub use mark::TreeMark;
pub use path::Path;
pub use tree::MarkTree;

mod find;
mod mark;
mod path;
mod remove;
mod tree;
