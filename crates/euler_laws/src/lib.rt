//! Which Euler operator undoes which (Mäntylä, An Introduction to Solid Modeling, 1988): laws of
//! every sound solid, each with a call that carries both operators out.
#![tactic(auto)]

pub use anew::{kef_mef, kemr_mekr, kev_mev, kfmrh_mfkrh, kvfs_mvfs, mekr_kemr};
pub use names::{names_are_an_equivalence, worked_names};
pub use undone::{mef_kef, mev_kev, mfkrh_kfmrh, mvfs_kvfs};

mod anew;
mod names;
mod operator;
mod reading;
mod undone;
