//! The session that threads share: each lock gives a partition whose journal begins with all that
//! its thread has seen.
#![tactic(auto)]

pub use draws::DrawNo;
pub use held::Held;
pub use laws::an_entry_has_one_thread;
pub use locks::LockNo;
pub use seat::Seat;
pub use session::Session;

mod beginning;
mod closing;
mod draws;
mod held;
mod kept;
mod laws;
mod locks;
mod seat;
mod seats;
mod session;
mod slots;
