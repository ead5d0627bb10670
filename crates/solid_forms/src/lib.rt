//! Laws of solids: that each solid is its closed form, for every number of corners, that its faces
//! are plane, and that a motion changes points alone. No running code stands on them. The functions
//! here have no code.
#![tactic(auto)]

pub use forms::{block_form, lamina_form, prism_form, sweep_form};
pub use motions::motions_change_points;
pub use of_maps::calls_reach_their_shapes;
pub use planes::{solid_planes, sweep_planes};
pub use worked::{worked_lamina, worked_prism};

mod forms;
mod motions;
mod of_maps;
mod planes;
mod worked;
