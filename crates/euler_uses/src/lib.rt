//! Tests of the Euler operators on partitions. Nothing stands on this crate.
#![tactic(auto)]

#[cfg(test)]
mod tests;
