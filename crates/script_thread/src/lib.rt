//! What a thread of a script does with a line before it reaches a partition, and what it remembers
//! of its lines. Over what the partitions stand, a world or a session, is no matter of this crate.
#![tactic(auto)]

pub use laws::a_walk_is_one_of_longer_journals;
pub use thread::ScriptThread;

mod held;
mod laws;
mod names;
mod thread;
