//! Facts about lists alone, which proofs of several crates cite: `proofs/`. There is no running
//! code.
#![tactic(auto)]
