//! Tests of the crates at the bottom: messages, texts, streams and stores. Nothing stands on this crate.
#![tactic(auto)]

#[cfg(test)]
mod tests;
