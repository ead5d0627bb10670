//! A claim of a partition.
ghost use Rattle.std.specs.Prelude.{◌≡◌, ◌+◌, ◌<◌, None};
ghost use Rattle.session_table.specs.Seats.{note_of};
ghost use Rattle.session_table.specs.Faces.{view_of, face, room_of, IsSeatOf, IsPartition};
ghost use Rattle.session_table.specs.Calls.{Claims as Claimed, slots_taken};

use crate::naming::Naming;
use crate::plays::Claims;
use crate::seat::Seat;
use crate::table::SessionTable;

/// What a claim has found.
#[derive(Clone, Copy, Debug, Drop, PartialEq)]
pub enum Claim {
    /// The partition was free, and is the seat's now.
    Won,
    /// The seat with this number held it.
    HeldBy(u32),
}

impl<X: Naming> SessionTable<X> {
    /// Claims a partition, by one compare and exchange. Where it wins, the partition is in the
    /// seat's slot. Takes no memory.
    pub fn claim(&self, seat: &mut Seat<X>, p: u32) -> Claim
        requires seat { IsSeatOf X.named self.now seat.old }
        requires partition { IsPartition self.now p }
        requires free { note_of (view_of seat.old) p ≡ None }
        requires room { 0 < room_of seat.old }
        ensures seat { IsSeatOf X.named self.now seat.new }
        ensures step { Claimed (face X.named seat.old) p result (face X.named seat.new) }
        ensures room { room_of seat.old ≡ room_of seat.new + slots_taken result }
    {
        let mine = u64::from(seat.number) + 1;
        let found = self
            .table
            .shared
            .compare_exchange::<Claims<X>>(&mut seat.place, p as usize, 0, mine);
        if found == 0 {
            seat.place.turn();
            seat.held.push_reserved(p);
            Claim::Won
        } else {
            Claim::HeldBy((found - 1) as u32)
        }
    }
}
