//! How a session begins.
ghost use Rattle.std.specs.Prelude.{◌≡◌, ◌+◌, ◌<◌, ◌≤◌, ◌∷◌, [], Some, None, IfOk, map, replicate, vec_len};
ghost use Rattle.session_table.specs.Named.{openings};
ghost use Rattle.session_table.specs.Faces.{bounds_of, face, IsSeatOf, IsRoot};

use crate::naming::Naming;
use crate::seat::Seat;
use crate::table::SessionTable;
use crate::view::Bounds;
use atomic_table::{Refused, Table};
use std::alloc::{AllocError, Global};

// The next block, and then a word for each partition, which is free.
fn opening_words(alloc: Global, partitions: usize) -> Result<Vec<u64>, AllocError>
    requires { partitions < 4294967296 }
    ensures { IfOk result (λ v. v.items ≡ (partitions + 1) ∷ replicate partitions 0) }
{
    let mut words = Vec::from_elem(alloc, 0, partitions + 1)?;
    words[0] = partitions as u64 + 1;
    Ok(words)
}

// An empty slot, and then each partition in its own.
fn opening_slots<X: Drop>(alloc: Global, partitions: Vec<X>) -> Result<Vec<Option<X>>, AllocError>
    requires { vec_len partitions < 4294967296 }
    ensures { IfOk result (λ v. v.items ≡ None ∷ map Some partitions.items) }
{
    let mut slots = Vec::with_capacity(alloc, partitions.len() + 1)?;
    slots.push_reserved(None);
    for value in partitions {
        slots.push_reserved(Some(value));
    }
    Ok(slots)
}

impl<X: Naming> SessionTable<X> {
    /// A session of these partitions, of which nothing was done yet, and its root. Blocks are drawn
    /// up to `last`. `AllocError` comes only where an allocation fails.
    pub fn begin(
        alloc: Global,
        partitions: Vec<X>,
        last: u32,
    ) -> Result<(SessionTable<X>, Seat<X>), AllocError>
        requires opening { map X.named partitions.items ≡ openings 1 (vec_len partitions) }
        requires last { vec_len partitions ≤ last }
        ensures partitions { IfOk result (λ s. (bounds_of s.0).partitions ≡ vec_len partitions) }
        ensures last { IfOk result (λ s. (bounds_of s.0).last ≡ last) }
        ensures seat { IfOk result (λ s. IsSeatOf X.named s.0 s.1) }
        ensures root { IfOk result (λ s. IsRoot (bounds_of s.0) (face X.named s.1)) }
    {
        let bounds = Bounds {
            partitions: partitions.len() as u32,
            last,
        };
        let words = opening_words(alloc, partitions.len())?;
        let slots = opening_slots(alloc, partitions)?;
        match Table::new(alloc, words.as_slice(), slots, &bounds) {
            Ok((table, place)) => {
                let seat = Seat {
                    place,
                    number: 0,
                    made: 0,
                    held: Vec::new(alloc),
                };
                let table = SessionTable {
                    table,
                    bounds,
                    alloc,
                };
                Ok((table, seat))
            }
            Err(Refused { slots: _ }) => Err(AllocError),
        }
    }
}
