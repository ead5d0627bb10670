//! The world, and its step.
ghost use Rattle.std.specs.Prelude.{◌≡◌, ◌≢◌, ℕ, ◌+◌, ◌≤◌, IfOk, Ok, length, map};
ghost use Rattle.std.specs.List.{range_with_len};
ghost use Rattle.pk_base.specs.declared.tag.TheConstants.{LAST_BLOCK};
ghost use Rattle.pk_model.specs.Apart.{Apart};
ghost use Rattle.world_core.specs.Event.{partition_of};
ghost use Rattle.world_core.specs.World.{Happens, IsAsLarge, MayHappen, beginning, opened, partition_at};
ghost use Rattle.world_core.specs.Session.{IsSession, journals_of};
ghost use Rattle.world_core.specs.Inside.{seen_as};
ghost use Rattle.world_core.specs.declared.event.Event.TheVariants as events;
ghost use Rattle.world_core.specs.declared.event.Said.TheVariants as said;

use crate::doing::{do_event, next_after, release};
use crate::{Event, Said, WorldNo};
use entity_store::{Modeller, Steps};
use partition::Partition;
use pk_base::NoMemory;
use pk_model::journals_are_apart;
use std::alloc::Global;
use std::marker::Model;
use std::sync::ledger::Ledger;

/// Partitions 1 to n with their journals, the blocks that they draw from, and the number of
/// threads, for any modeller.
#[derive(Drop)]
pub struct World<K: Modeller> {
    partitions: Vec<Partition<K>>,
    next: u32,
    last: u32,
    threads: u32,
}

impl<K: Modeller> Model for World<K> {
    ghost use Rattle.world_core.specs.Event.{supply};
    ghost use Rattle.world_core.specs.World.{WorldState, world_code};
    ghost use Rattle.world_core.specs.Inside.{IsWorld, world_of};

    ghost Value = { WorldState };

    ghost coded = { world_code };

    ghost view = { λ w. world_of w.partitions.items (supply w.next w.last) w.threads };

    ghost invariant = { λ w.
        IsWorld K.modelling w.partitions.items (supply w.next w.last) w.threads };
}

impl<K: Modeller> World<K> {
    /// The world of n partitions at its beginning, for blocks up to `last` and so many threads:
    /// partition p owns block p, and the next block is n + 1. `kind` carries the calls on their
    /// solids out.
    pub fn begin(
        alloc: Global,
        n: u32,
        last: u32,
        threads: u32,
        kind: K,
    ) -> Result<World<K>, NoMemory>
        requires some { 1 ≤ n }
        requires few { n ≤ 32 }
        requires first { n ≤ last }
        requires last { last ≤ LAST_BLOCK }
        requires thread { 1 ≤ threads }
        requires threads { threads ≤ 16 }
        ensures { IfOk result (λ w. w ≡ beginning n last threads) }
    {
        Ok(World {
            partitions: begin_all(alloc, n, kind)?,
            next: n + 1,
            last,
            threads,
        })
    }

    /// Partition p, from 1 to n.
    pub fn partition(&self, p: u32) -> &Partition<K>
        requires first { 1 ≤ p }
        requires last { p ≤ length self.now.partitions }
        ensures number { result.now.number ≡ p }
        ensures state { result.now.state ≡ (partition_at self.now p).state }
        ensures journal { result.now.journal ≡ (partition_at self.now p).journal }
    {
        &self.partitions[p as usize - 1]
    }

    /// The next block that may be drawn; above the last where none is left.
    pub fn next_block(&self) -> u64
        ensures { result ≡ self.now.blocks.next }
    {
        u64::from(self.next)
    }

    /// Makes an event of a thread happen, which changes its partition alone. Without memory nothing
    /// changes. A release takes no memory.
    pub fn step<L: Ledger>(
        &mut self,
        thread: u32,
        event: Event,
        steps: &mut Steps<L>,
    ) -> Result<Said, WorldNo>
        requires { MayHappen K.modelling self.old thread event }
        ensures happens { Happens K.modelling self.old thread event result self.new }
        ensures release { (p : ℕ) → event ≡ events.Release p → result ≡ Ok said.Done }
        ensures others { (q : ℕ) → 1 ≤ q → q ≢ partition_of event
            → partition_at self.new q ≡ partition_at self.old q }
        ensures large { IsAsLarge self.old self.new }
        ensures session { IsSession K.modelling self.new }
    {
        let place = event.partition() as usize - 1;
        let (next, last) = (self.next, self.last);
        let partition = &mut self.partitions[place];
        let answer = do_event(partition, next, last, thread, event, steps);
        self.next = next_after(next, &answer);
        answer
    }

    /// Makes a thread let partition p go, which it holds: the event `Release`. It takes no memory,
    /// and cannot fail.
    pub fn release(&mut self, thread: u32, p: u32)
        requires { MayHappen K.modelling self.old thread (events.Release p) }
        ensures happens { Happens K.modelling self.old thread (events.Release p)
            (Ok said.Done) self.new }
        ensures others { (q : ℕ) → 1 ≤ q → q ≢ p
            → partition_at self.new q ≡ partition_at self.old q }
        ensures large { IsAsLarge self.old self.new }
        ensures session { IsSession K.modelling self.new }
    {
        release(&mut self.partitions[p as usize - 1]);
    }

    /// All its partitions, in the order of their numbers.
    pub fn into_partitions(self) -> Vec<Partition<K>>
        ensures numbers { map (λ v. v.number) result.items
            ≡ range_with_len 1 (length self.partitions) }
        ensures partitions { map seen_as result.items ≡ self.partitions }
        ensures session { IsSession K.modelling self }
        ensures apart { Apart K.modelling (journals_of self) }
    {
        journals_are_apart::<K>();
        self.partitions
    }
}

/// Partitions 1 to n at their beginning.
fn begin_all<K: Modeller>(alloc: Global, n: u32, kind: K) -> Result<Vec<Partition<K>>, NoMemory>
    requires few { n ≤ 32 }
    ensures numbers { IfOk result (λ all.
        map (λ v. v.number) all.items ≡ range_with_len 1 n) }
    ensures opened { IfOk result (λ all.
        map seen_as all.items ≡ map opened (range_with_len 1 n)) }
{
    let mut all = Vec::new(alloc);
    for p in 1..n + 1 {
        all.push(Partition::begin(alloc, p, kind)?)?;
    }
    Ok(all)
}
