//! How a session begins.
ghost use Rattle.std.specs.Prelude.{◌≡◌, ◌≤◌, IfOk, map, vec_len};
ghost use Rattle.pk_base.specs.declared.tag.TheConstants.{LAST_BLOCK};
ghost use Rattle.session_table.specs.Named.{openings};
ghost use Rattle.pk_session.specs.Views.{first_seat};
ghost use Rattle.pk_session.specs.Inside.{named_of};

use crate::kept::Kept;
use crate::seat::Seat;
use crate::session::Session;
use entity_store::Modeller;
use partition::Partition;
use pk_base::NoMemory;
use session_table::SessionTable;
use std::alloc::Global;

// Partitions 1 to n at their beginning.
fn begin_all<K: Modeller>(alloc: Global, n: u32, kind: K) -> Result<Vec<Kept<K>>, NoMemory>
    requires { n ≤ 32 }
    ensures opening { IfOk result (λ all. map named_of all.items ≡ openings 1 n) }
    ensures count { IfOk result (λ all. vec_len all ≡ n) }
{
    let mut all = Vec::with_capacity(alloc, n as usize)?;
    for p in 1..n + 1 {
        all.push_reserved(Kept {
            partition: Partition::begin(alloc, p, kind)?,
        });
    }
    Ok(all)
}

impl<K: Modeller> Session<K> {
    /// A session of n partitions, from 1 to 32, in which nothing was done yet, and its root, the
    /// seat with the number 0. Blocks are drawn up to `last`. `kind` carries the calls on their
    /// solids out.
    pub fn begin(
        alloc: Global,
        n: u32,
        last: u32,
        kind: K,
    ) -> Result<(Session<K>, Seat<K>), NoMemory>
        requires some { 1 ≤ n }
        requires few { n ≤ 32 }
        requires first { n ≤ last }
        requires last { last ≤ LAST_BLOCK }
        ensures partitions { IfOk result (λ s. s.0.bounds.partitions ≡ n) }
        ensures last { IfOk result (λ s. s.0.bounds.last ≡ last) }
        ensures root { IfOk result (λ s. s.1 ≡ first_seat s.0) }
    {
        let partitions = begin_all(alloc, n, kind)?;
        let (table, place) = SessionTable::begin(alloc, partitions, last)?;
        let session = Session {
            table,
            alloc,
            partitions: n,
        };
        Ok((session, Seat { place }))
    }
}
