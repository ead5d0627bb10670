//! What a seat answers of itself, and how it finds a slot that it holds.
ghost use Rattle.std.specs.Prelude.{◌≡◌, ◌+◌, ◌<◌, ◌≤◌, ◌==◌, ◌++◌, is_some, length, vec_capacity, take, drop, slice_index, OnOk, IsTrue, IsSome};
ghost use Rattle.std.specs.List.{list_any};
ghost use Rattle.session_table.specs.Seats.{note_of};
ghost use Rattle.session_table.specs.Turns.{IsTurned, IsInFront};
ghost use Rattle.session_table.specs.Faces.{view_of, room_of, IsSameSeat};

use crate::seat::{Place, Seat};
use std::alloc::AllocError;

// Where the slot stands among those that are held.
fn place_of(held: &[u32], p: u32) -> usize
    requires { IsTrue (list_any (λ q. q == p) held.now) }
    ensures { (result < length held.now) × (slice_index held.now result ≡ p) }
{
    let mut i = 0;
    while held[i] != p {
        i += 1;
    }
    i
}

// Turns so many slots to the end.
fn turn_by<X>(place: &mut Place<X>, count: usize)
    requires { count ≤ length place.old.me.1 }
    ensures seat { (place.new.table_id ≡ place.old.table_id) × (place.new.id ≡ place.old.id) }
    ensures view { place.new.me.0 ≡ place.old.me.0 }
    ensures row { place.new.me.1 ≡ drop count place.old.me.1 ++ take count place.old.me.1 }
{
    for _ in 0..count {
        place.turn();
    }
}

// Turns so many numbers to the end.
fn rotate(held: &mut Vec<u32>, count: usize)
    requires { count ≤ length held.old.items }
    ensures row { held.new.items ≡ drop count held.old.items ++ take count held.old.items }
    ensures capacity { vec_capacity held.new ≡ vec_capacity held.old }
{
    held.as_mut_slice().rotate_left(count);
}

impl<X> Seat<X> {
    /// Its number: 0 for root, and 1, 2 and so on for the seats that root has made.
    pub fn number(&self) -> u32
        ensures { result ≡ (view_of self.now).number }
    {
        self.number
    }

    /// How many seats it has made.
    pub fn made(&self) -> u32
        ensures { result ≡ (view_of self.now).made }
    {
        self.made
    }

    /// Whether it holds the partition.
    pub fn holds(&self, p: u32) -> bool
        ensures { result ≡ is_some (note_of (view_of self.now) p) }
    {
        self.held.contains(&p)
    }

    /// Takes memory, so that the seat may hold one partition more. `AllocError` comes only where an
    /// allocation fails.
    pub fn reserve(&mut self) -> Result<(), AllocError>
        ensures room { OnOk result (0 < room_of self.new) }
        ensures same { IsSameSeat self.old self.new }
    {
        self.held.reserve(1)
    }

    // Turns the slots until slot p is in front.
    pub(crate) fn bring(&mut self, p: u32)
        requires { IsSome (note_of (view_of self.old) p) }
        ensures turned { IsTurned self.old.place.me self.new.place.me }
        ensures front { IsInFront p self.new.place.me }
        ensures seat { (self.new.place.table_id ≡ self.old.place.table_id)
            × (self.new.place.id ≡ self.old.place.id) }
    {
        let count = place_of(self.held.as_slice(), p);
        turn_by(&mut self.place, count);
        rotate(&mut self.held, count);
    }
}
