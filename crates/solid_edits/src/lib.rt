//! Steps that several operators on solids share: an edge is made or killed with its fins, entities
//! are killed with their attributes, a loop is put anew or given to another face, a ring is given to
//! a loop.
#![tactic(auto)]

pub use bare_parts::BareParts;
pub use deaths::{count_dead, kill, kill_all};
pub use faces::{add_q, give_loop};
pub use loop_edits::{give_ring, least_of_any, loop_from};
pub use new_edges::{NewEdge, NewFin, put_edge};
pub use removed_edges::remove_edge;
pub use ring_loops::put_loop;

mod bare_parts;
mod deaths;
mod faces;
mod loop_edits;
mod new_edges;
mod removed_edges;
mod ring_loops;
