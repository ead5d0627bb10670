//! How root makes seats, and joins them.
ghost use Rattle.std.specs.Prelude.{◌≡◌, ◌≢◌, ◌<◌};
ghost use Rattle.session_table.specs.Ends.{HoldsNothing};
ghost use Rattle.pk_session.specs.Seats.{Makes, IsNew, Joins};

use crate::seat::Seat;
use crate::session::Session;
use entity_store::Modeller;

impl<K: Modeller> Session<K> {
    /// Makes a seat, which has seen what root has seen and holds nothing. Its number is one more
    /// than the number that root had made. It takes no memory, and waits for nobody.
    pub fn split(&self, root: &mut Seat<K>) -> Seat<K>
        requires seat { root.old.session ≡ self.now }
        requires root { root.old.view.number ≡ 0 }
        requires few { root.old.view.made < 65534 }
        ensures seats { (root.new.session ≡ self.now) × (result.session ≡ self.now) }
        ensures root { Makes root.old root.new }
        ensures new { IsNew root.old result }
    {
        let place = self.table.split(&mut root.place);
        Seat { place }
    }

    /// Joins a seat that holds nothing to root, which has then seen what either has seen, and keeps
    /// what the seat did. It takes no memory, and waits for nobody.
    pub fn join(&self, root: &mut Seat<K>, child: Seat<K>)
        requires seats { (root.old.session ≡ self.now) × (child.session ≡ self.now) }
        requires root { root.old.view.number ≡ 0 }
        requires child { child.view.number ≢ 0 }
        requires idle { HoldsNothing child.view }
        ensures seat { root.new.session ≡ self.now }
        ensures joined { Joins root.old child root.new }
    {
        let Seat { place } = child;
        self.table.join(&mut root.place, place);
    }
}
