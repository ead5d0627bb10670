//! Tests of the calls that carry out an Euler operator and the one that undoes it. Nothing stands
//! on this crate.
#![tactic(auto)]

#[cfg(test)]
mod tests;
