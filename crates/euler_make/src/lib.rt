//! The Euler operators that make (Mäntylä, An Introduction to Solid Modeling, 1988): for each,
//! what it needs or why it is refused, and what it does.
#![tactic(auto)]

pub use mef::{mef_do, mef_need};
pub use mekr::{mekr_do, mekr_need};
pub use mev::{mev_do, mev_need};
pub use mfkrh::{mfkrh_do, mfkrh_need};
pub use mvfs::{mvfs_do, mvfs_need};
pub use raise::raise_face;
pub use sweep::{sweep_do, sweep_need};

mod beside;
mod mef;
mod mekr;
mod mev;
mod mfkrh;
mod mvfs;
mod outline;
mod raise;
mod sweep;
