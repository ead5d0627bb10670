//! The run of a script whose threads run at once, over a session that they share.
#![tactic(auto)]

pub use laws::what_the_seats_leave_is_a_legal_report;

mod laws;
