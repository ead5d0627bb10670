//! A seat: by it one thread shares in a session.
ghost use Rattle.std.specs.Prelude.{◌≡◌, ℕ, ◌+◌, ◌<◌, ◌≤◌, ◌==◌, ◌∷◌, false, is_some, length, slice_index, vec_len, vec_capacity, OnOk, IsTrue, IsSome};
ghost use Rattle.std.specs.List.{list_any};
ghost use Rattle.atomic_table.specs.Table.{rest};
ghost use Rattle.session_table.specs.Seats.{note_of};
ghost use Rattle.session_table.specs.Slots.{numbers};

use crate::view::View;

/// A seat as the table has it. It has no bytes.
pub type Place<X> = atomic_table::Seat<Option<X>, View>;

/// A seat of a session: by it one thread, and one at a time, shares in the session.
#[derive(Drop)]
pub struct Seat<X> {
    pub(crate) place: Place<X>,
    pub(crate) number: u32,
    pub(crate) made: u32,
    // The slots that it holds, in the order of the place's.
    pub(crate) held: Vec<u32>,
    ghost live: { place.me.0.spent ≡ false },
    ghost numbered: { place.me.0.number ≡ number },
    ghost counted: { place.me.0.made ≡ made },
    ghost listed: { numbers place.me.1 ≡ held.items },
    ghost matched: { (p : ℕ) → is_some (note_of place.me.0 p) ≡ list_any (λ q. q == p) held.items },
}
