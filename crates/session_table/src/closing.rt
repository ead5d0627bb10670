//! How a session ends.
ghost use Rattle.std.specs.Prelude.{◌≡◌, ◌+◌, ◌≤◌, [], Some, IfOk, List, map, drop, vec_capacity};
ghost use Rattle.std.specs.Mem.Slots.{slots_items, slots_len, IsFull};
ghost use Rattle.session_table.specs.Faces.{view_of, IsSeatOf};
ghost use Rattle.session_table.specs.Ends.{HoldsNothing, HasJoinedAll, Leaves};

use crate::naming::Naming;
use crate::seat::Seat;
use crate::table::SessionTable;
use atomic_table::Closed;
use std::alloc::{AllocError, Global};

// Takes the values out of all slots but the first, in order.
fn take_all<X: Drop>(mut closed: Closed<Option<X>, Global>, count: usize, mut all: Vec<X>) -> Vec<X>
    requires slots { (slots_len closed.slots ≡ count + 1) × IsFull closed.slots }
    requires values { (xs : List X) × (drop 1 (slots_items closed.slots) ≡ map Some xs) }
    requires room { (all.items ≡ []) × (count ≤ vec_capacity all) }
    ensures { drop 1 (slots_items closed.slots) ≡ map Some result.items }
{
    drop(closed.take(0));
    for i in 0..count {
        match closed.take(i + 1) {
            Some(value) => all.push_reserved(value),
            None => unreachable!(),
        }
    }
    closed.free();
    all
}

impl<X: Naming> SessionTable<X> {
    /// Ends the session, and gives its partitions, in order. `AllocError` comes only where an
    /// allocation fails.
    pub fn close(self, root: Seat<X>) -> Result<Vec<X>, AllocError>
        requires seat { IsSeatOf X.named self root }
        requires root { (view_of root).number ≡ 0 }
        requires idle { HoldsNothing (view_of root) }
        requires alone { HasJoinedAll (view_of root) }
        ensures { IfOk result (λ all. Leaves X.named (view_of root) all.items) }
    {
        let count = self.bounds.partitions as usize;
        let all = Vec::with_capacity(self.alloc, count)?;
        let SessionTable {
            table,
            bounds: _,
            alloc: _,
        } = self;
        let Seat {
            place,
            number: _,
            made: _,
            held: _,
        } = root;
        Ok(take_all(table.close_with(place), count, all))
    }
}
