//! Laws about the definitions, and worked examples that the checker computes. No running
//! code stands on them: they show that the definitions mean what they should. The functions here
//! have no code.
#![tactic(auto)]

pub use commands::what_the_operands_are;
pub use maps::{what_the_lists_are, worked_difference};
pub use marks::{a_goto_brings_the_mark_back, live_marks_ascend, worked_mark};
pub use orders::{what_a_name_is_bound_to, what_is_turned_away};
pub use partitions::{
    blocks_short_is_least, what_is_not_apart, what_is_not_legal, what_is_within_bounds,
    worked_blocks, worked_deleted_mark, worked_refusals, worked_there_and_back,
    worked_two_branches,
};
pub use reports::{
    what_a_full_block_reports, what_is_a_legal_report, what_is_out_of_order, what_is_printable,
    what_two_threads_report,
};

mod commands;
mod maps;
mod marks;
mod orders;
mod partitions;
mod reports;
