//! A seat of a session.
ghost use Rattle.std.specs.Prelude.{◌≡◌, is_some};
ghost use Rattle.session_table.specs.Seats.{note_of};

use crate::kept::Kept;
use entity_store::Modeller;
use std::marker::Model;

/// A seat: by it one thread, and one at a time, shares in the session. It may be moved between
/// threads. Contracts see its session and what it keeps.
#[derive(Drop)]
pub struct Seat<K: Modeller> {
    pub(crate) place: session_table::Seat<Kept<K>>,
}

impl<K: Modeller> Model for Seat<K> {
    ghost use Rattle.pk_session.specs.Views.{SeatView, seat_code};

    ghost Value = { SeatView };

    ghost coded = { seat_code };

    ghost use Rattle.session_table.specs.Faces.{session_of, view_of};
    ghost use Rattle.pk_session.specs.Inside.{IsBetweenCalls};

    ghost view = { λ s. record { session = session_of s.place; view = view_of s.place } };

    ghost invariant = { λ s. IsBetweenCalls s.place.place.me.0 s.place.place.me.1 };
}

impl<K: Modeller> Seat<K> {
    /// Its number: 0 for root, and 1, 2 and so on for the seats that root has made.
    pub fn number(&self) -> u32
        ensures { result ≡ self.now.view.number }
    {
        self.place.number()
    }

    /// How many seats it has made.
    pub fn made(&self) -> u32
        ensures { result ≡ self.now.view.made }
    {
        self.place.made()
    }

    /// Whether it holds the partition.
    pub fn holds(&self, p: u32) -> bool
        ensures { result ≡ is_some (note_of self.now.view p) }
    {
        self.place.holds(p)
    }
}
