//! Laws of solids that no running code carries out: what a sound map's shape is, what a refusal
//! leaves, and that each call keeps soundness. The functions here have no code.
#![tactic(auto)]

pub use keeping::{
    attributes_keep_soundness, bodies_keep_soundness, folds_keep_soundness, kills_keep_soundness,
    makes_keep_soundness, motions_keep_soundness, queries_change_nothing, queries_keep_soundness,
    rings_keep_soundness,
};
pub use laws::{a_refusal_takes_nothing, euler_is_a_modeller, the_shape_is_the_only_one};

mod keeping;
mod laws;
