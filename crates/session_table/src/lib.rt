//! The words and slots through which threads share partitions, and the rule that they keep.
#![tactic(auto)]

mod beginning;
mod claims;
mod closing;
mod draws;
mod holding;
mod moves;
mod naming;
mod plays;
mod rule;
mod seat;
mod seats;
mod session_name;
mod table;
mod view;

pub use claims::Claim;
pub use draws::{Drawn, Next};
pub use naming::Naming;
pub use seat::Seat;
pub use session_name::OfSession;
pub use table::SessionTable;
pub use view::{Bounds, Joined, Line, Look, Note, View};
