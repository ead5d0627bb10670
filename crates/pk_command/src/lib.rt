//! The text of a command as data: an act is a verb and fields. Scripts and reports are read and
//! printed by it alone.
#![tactic(auto)]

pub use act::{fields_of, verb_of};
pub use field::{Field, Kind};
pub use laws::what_a_command_is;
pub use make::act_of;
pub use operands::act_on;
pub use verb::Verb;

mod act;
mod field;
mod laws;
mod make;
mod operands;
mod verb;
