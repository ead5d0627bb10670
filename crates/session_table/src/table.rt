//! The table of a session, and how it begins.
ghost use Rattle.std.specs.Prelude.{◌≡◌, ◌+◌, ◌<◌, ◌≤◌, ◌^◌, ◌∷◌, [], Some, None, IfOk, map, replicate, vec_len, length};
ghost use Rattle.session_table.specs.Named.{openings};

use crate::naming::Naming;
use crate::rule::Shares;
use crate::view::{Bounds, View};
use atomic_table::Table;
use std::alloc::{AllocError, Global};

/// The words and slots of a session, which all its threads share.
#[derive(Drop)]
pub struct SessionTable<X: Naming> {
    pub(crate) table: Table<Option<X>, View, Bounds, Shares<X>, Global>,
    pub(crate) bounds: Bounds,
    pub(crate) alloc: Global,
    ghost words: { table.shared.table_id.words ≡ bounds.partitions + 1 },
    ghost slots: { table.shared.table_id.slots ≡ bounds.partitions + 1 },
    ghost partitions: { table.shared.key.partitions ≡ bounds.partitions },
    ghost last: { table.shared.key.last ≡ bounds.last },
}
