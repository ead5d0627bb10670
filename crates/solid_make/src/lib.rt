//! Solids that are made at once: a lamina, a prism and a block. For each, what it needs or why it
//! is refused, and what it does: Euler operators, one after another.
#![tactic(auto)]

pub use block::{block_do, block_need};
pub use lamina::{lamina_do, lamina_need};
pub use prism::{prism_do, prism_need};

mod block;
mod checks;
mod lamina;
mod prism;
