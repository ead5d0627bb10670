//! Which session a seat is of, as a value.
ghost use Rattle.std.specs.Prelude.{◌≡◌};
ghost use Rattle.session_table.specs.Faces.{session_of};

use crate::seat::{Place, Seat};
use std::marker::Model;
use std::snapshot::Snapshot;

/// Which session it is. It has no bytes, and contracts see it as the session's name. By it a value
/// above the table says of which session it is.
#[derive(Drop)]
pub struct OfSession<X> {
    seat: Snapshot<Place<X>>,
}

impl<X> Model for OfSession<X> {
    ghost use Rattle.session_table.specs.Names.{SessionName, name_code};

    ghost Value = { SessionName };

    ghost coded = { name_code };

    ghost view = { λ m. record {
      table = m.seat.value.table_id;
      bounds = m.seat.value.me.0.bounds;
    } };
}

impl<X> Seat<X> {
    /// Which session it is of.
    pub fn session(&self) -> OfSession<X>
        ensures { result ≡ session_of self.now }
    {
        OfSession {
            seat: Snapshot::of(&self.place),
        }
    }
}
