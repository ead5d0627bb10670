//! How a partition leaves its slot, comes back into it, and is let go.
ghost use Rattle.session_table.specs.Faces.{view_of, face, IsSeatOf};
ghost use Rattle.session_table.specs.Calls.{IsFilled, IsEmpty, IsNotedBy, TakesOut, PutsIn, LetsGo};

use crate::naming::Naming;
use crate::plays::Frees;
use crate::seat::Seat;
use crate::table::SessionTable;

impl<X: Naming> SessionTable<X> {
    /// Takes a partition that the seat holds out of its slot. Takes no memory.
    pub fn take_out(&self, seat: &mut Seat<X>, p: u32) -> X
        requires seat { IsSeatOf X.named self.now seat.old }
        requires filled { IsFilled (face X.named seat.old) p }
        ensures seat { IsSeatOf X.named self.now seat.new }
        ensures step { TakesOut (face X.named seat.old) p (X.named result) (face X.named seat.new) }
    {
        seat.bring(p);
        match self
            .table
            .shared
            .exchange(&mut seat.place, p as usize, None)
        {
            Some(value) => value,
            None => unreachable!(),
        }
    }

    /// Puts a partition that the seat holds into its slot. Since its claim the seat alone has gone
    /// on with it. Takes no memory.
    pub fn put_in(&self, seat: &mut Seat<X>, p: u32, value: X)
        requires seat { IsSeatOf X.named self.now seat.old }
        requires empty { IsEmpty (face X.named seat.old) p }
        requires value { IsNotedBy (view_of seat.old) p (X.named value) }
        ensures seat { IsSeatOf X.named self.now seat.new }
        ensures step { PutsIn (face X.named seat.old) p (X.named value) (face X.named seat.new) }
    {
        seat.bring(p);
        match self
            .table
            .shared
            .exchange(&mut seat.place, p as usize, Some(value))
        {
            None => {}
            Some(_) => unreachable!(),
        }
    }

    /// Lets a partition go that is in its slot, by one store. Takes no memory.
    pub fn release(&self, seat: &mut Seat<X>, p: u32)
        requires seat { IsSeatOf X.named self.now seat.old }
        requires filled { IsFilled (face X.named seat.old) p }
        ensures seat { IsSeatOf X.named self.now seat.new }
        ensures step { LetsGo (face X.named seat.old) p (face X.named seat.new) }
    {
        seat.bring(p);
        self.table
            .shared
            .store::<Frees<X>>(&mut seat.place, p as usize, 0);
        seat.held.remove(0);
    }
}
