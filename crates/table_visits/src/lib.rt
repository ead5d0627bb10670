//! The table at work for a small value: a seat visits a partition, writes its entries there, and
//! leaves it with them.
#![tactic(auto)]

mod sheet;
#[cfg(test)]
mod tests;
mod visits;

pub use sheet::Sheet;
pub use visits::{leave, visit};
