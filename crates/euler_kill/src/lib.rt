//! The Euler operators that kill, and the one that moves a ring (Mäntylä, An Introduction to
//! Solid Modeling, 1988): for each, what it needs or why it is refused, and what it does.
#![tactic(auto)]

pub use delete::{delete_do, delete_need};
pub use kef::{kef_do, kef_need};
pub use kemr::{kemr_do, kemr_need};
pub use kev::{kev_do, kev_need};
pub use kfmrh::{kfmrh_do, kfmrh_need};
pub use kvfs::{kvfs_do, kvfs_need};
pub use ringmove::{ringmove_do, ringmove_need};

mod delete;
mod kef;
mod kemr;
mod kev;
mod kfmrh;
mod kvfs;
mod parted;
mod ringmove;
