//! Looks at the next block, and draws.
ghost use Rattle.std.specs.Prelude.{◌≡◌, false, true};
ghost use Rattle.session_table.specs.Faces.{view_of, face, IsSeatOf};
ghost use Rattle.session_table.specs.Calls.{IsEmpty, Looks as Looked, Draws as Drew};

use crate::naming::Naming;
use crate::plays::{Draws, Looks};
use crate::seat::Seat;
use crate::table::SessionTable;

/// What a look at the next block has found.
#[derive(Clone, Copy, Debug, Drop, PartialEq)]
pub enum Next {
    /// A block may be drawn.
    Free,
    /// The next block is this one, which is above the last.
    Past(u64),
}

/// What a draw has found.
#[derive(Clone, Copy, Debug, Drop, PartialEq)]
pub enum Drawn {
    /// This block is the partition's now.
    Block(u32),
    /// The next block was this one, which is above the last.
    Past(u64),
}

impl<X: Naming> SessionTable<X> {
    /// Looks at the next block, by one load. Where it may be drawn, the seat may draw once. Takes
    /// no memory.
    pub fn look(&self, seat: &mut Seat<X>) -> Next
        requires seat { IsSeatOf X.named self.now seat.old }
        requires calm { (view_of seat.old).pending ≡ false }
        ensures seat { IsSeatOf X.named self.now seat.new }
        ensures step { Looked (face X.named seat.old) result (face X.named seat.new) }
    {
        let found = self.table.shared.load::<Looks>(&mut seat.place, 0);
        if found <= u64::from(self.bounds.last) {
            Next::Free
        } else {
            Next::Past(found)
        }
    }

    /// Draws the next block for a partition that the seat holds and has out of its slot, by one
    /// fetch and add. Takes no memory.
    pub fn draw(&self, seat: &mut Seat<X>, p: u32) -> Drawn
        requires seat { IsSeatOf X.named self.now seat.old }
        requires looked { (view_of seat.old).pending ≡ true }
        requires empty { IsEmpty (face X.named seat.old) p }
        ensures seat { IsSeatOf X.named self.now seat.new }
        ensures step { Drew (face X.named seat.old) p result (face X.named seat.new) }
    {
        seat.bring(p);
        let found = self.table.shared.fetch_add::<Draws>(&mut seat.place, 0, 1);
        if found <= u64::from(self.bounds.last) {
            Drawn::Block(found as u32)
        } else {
            Drawn::Past(found)
        }
    }
}
