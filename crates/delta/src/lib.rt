//! The difference of two states of a store, as a list of changes that is lent, composed, turned
//! round and applied.
#![tactic(auto)]

pub use changes::Delta;
pub use laws::{following_changes_fit, net_changes_lead};

mod apply;
mod changes;
mod compose;
mod inverse;
mod laws;
mod lists;
