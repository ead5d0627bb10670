//! The attributes of an entity: names with values that it owns, at most one of a name. They are
//! counted, set, dropped one by one, and dropped all where their owner dies. No call takes memory.
#![tactic(auto)]

pub use calls::{drop_do, drop_need, set_do, set_need};
pub use drops::drop_all;
pub use reads::count_attributes;

mod calls;
mod drops;
mod reads;
