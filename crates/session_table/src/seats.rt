//! How root makes seats, and joins them.
ghost use Rattle.std.specs.Prelude.{◌≡◌, ◌≢◌, ◌<◌, false};
ghost use Rattle.session_table.specs.Calls.{Makes, IsNew, Joins};
ghost use Rattle.session_table.specs.Ends.{HoldsNothing};
ghost use Rattle.session_table.specs.Faces.{view_of, face, IsSeatOf};

use crate::naming::Naming;
use crate::plays::{Joining, Making, Meets};
use crate::seat::Seat;
use crate::table::SessionTable;

impl<X: Naming> SessionTable<X> {
    /// Makes a seat, which has seen what root has seen and holds nothing. Its number is one more
    /// than the number that root had made. Takes no memory.
    pub fn split(&self, root: &mut Seat<X>) -> Seat<X>
        requires seat { IsSeatOf X.named self.now root.old }
        requires root { (view_of root.old).number ≡ 0 }
        requires few { (view_of root.old).made < 65534 }
        ensures seats { IsSeatOf X.named self.now root.new × IsSeatOf X.named self.now result }
        ensures root { Makes (face X.named root.old) (face X.named root.new) }
        ensures new { IsNew (view_of root.old) (face X.named result) }
    {
        let place = self.table.shared.split_seat::<Making>(&mut root.place);
        root.made += 1;
        Seat {
            place,
            number: root.made,
            made: 0,
            held: Vec::new(self.alloc),
        }
    }

    /// Joins a seat that holds nothing to root, which has then seen what either has seen, and keeps
    /// what the seat did. Takes no memory.
    pub fn join(&self, root: &mut Seat<X>, child: Seat<X>)
        requires seats { IsSeatOf X.named self.now root.old × IsSeatOf X.named self.now child }
        requires root { (view_of root.old).number ≡ 0 }
        requires child { (view_of child).number ≢ 0 }
        requires idle { HoldsNothing (view_of child) }
        requires calm { (view_of child).pending ≡ false }
        ensures seat { IsSeatOf X.named self.now root.new }
        ensures joined { Joins (face X.named root.old) (view_of child) (face X.named root.new) }
    {
        let Seat {
            place,
            number: _,
            made: _,
            held: _,
        } = child;
        self.table
            .shared
            .join_seat::<Joining>(&mut root.place, place);
        // That both had seen beginnings of one journal is learned from the rule.
        self.table.shared.load::<Meets>(&mut root.place, 0);
    }
}
