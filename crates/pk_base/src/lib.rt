//! The data that every layer speaks of: tags and their blocks, entities, calls and acts, replies,
//! refusals and journal entries.
//!
//! A list is made by an `ItemsBuilder`, in room taken before, and is finished as `Items`, which
//! contracts see as its items. So no reply, call or entry speaks of room.
#![tactic(auto)]

pub use act::{Act, Entry, Reply};
pub use call::Call;
pub use entity::{Axis, Class, Counted, Entity, Name, Pair, Point, Triple};
pub use list::{
    CornerList, CornerListBuilder, Items, ItemsBuilder, Lists, MarkList, MarkListBuilder, MarkRow,
    TagList, TagListBuilder,
};
pub use refusal::{Fault, NoMemory, Refusal};
pub use tag::{LAST_BLOCK, TAGS_OF_A_BLOCK, Tag};

mod act;
mod call;
mod entity;
mod list;
mod refusal;
mod tag;
