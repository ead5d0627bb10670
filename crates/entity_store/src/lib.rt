//! The store of a partition's entities: a finite map over the tags of the blocks that it owns. It
//! is lent to a recorder, which gives the net change; and the trait of what changes it.
#![tactic(auto)]

pub use changes::{Change, ChangeList, ChangeListBuilder, ListsBuilder};
pub use kids::KidWalk;
pub use modeller::{Modeller, Need};
pub use record::RecordRoom;
pub use recorder::Recorder;
pub use steps::Steps;
pub use store::Store;
pub use tags::Tags;

mod changes;
mod kids;
mod modeller;
mod record;
mod recorder;
mod steps;
mod store;
mod tags;
