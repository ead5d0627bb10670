//! What the functions promise that carry the calls on solids out over a store: attributes, and the
//! two functions of each call (`specs/`, in the order of its `Lib.antt`).
#![tactic(auto)]

pub use tags::take_tag;

mod tags;
