//! `Euler`, the modeller that carries the calls on solids out (Mäntylä, An Introduction to Solid
//! Modeling, 1988).
#![tactic(auto)]

pub use euler::Euler;

mod euler;
