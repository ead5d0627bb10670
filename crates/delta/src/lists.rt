//! The lists of a difference.
ghost use Rattle.std.specs.Prelude.{◌≡◌, ◌+◌, ◌<◌, ◌≤◌, ◌∷◌, [], ◌++◌, length, IfOk};
ghost use Rattle.pk_model.specs.Maps.{EntityMap, diff};
ghost use Rattle.entity_store.specs.Changes.{lists_among};
ghost use Rattle.delta.specs.Deltas.{StartsAt, after};

use crate::Delta;
use entity_store::{Change, ListsBuilder, Steps};
use pk_base::{Lists, NoMemory, TagListBuilder};
use std::alloc::Global;
use std::sync::ledger::Ledger;

impl Delta {
    /// The tags of the changes: of those that came, of those that went, and of those in between.
    /// One step for each change.
    pub fn lists<L: Ledger>(&self, alloc: Global, steps: &mut Steps<L>) -> Result<Lists, NoMemory>
        ensures among { IfOk result (λ l. l ≡ lists_among self.now) }
        // From whatever map it leads, they are the difference to where it leads.
        ensures difference { IfOk result (λ l. (m : EntityMap) → StartsAt m self.now
            → l ≡ diff m (after m self.now)) }
        ensures cost { steps.new ≤ steps.old + length self.now }
    {
        let mut out = ListsBuilder {
            fresh: TagListBuilder::with_room(alloc, self.len())?,
            gone: TagListBuilder::with_room(alloc, self.len())?,
            changed: TagListBuilder::with_room(alloc, self.len())?,
        };
        for i in 0..self.len() {
            list(*self.entry(i, steps), &mut out);
        }
        Ok(Lists {
            fresh: out.fresh.finish(),
            gone: out.gone.finish(),
            changed: out.changed.finish(),
        })
    }
}

/// Adds the tag of a change to the list that it belongs to. It takes no memory.
fn list(change: Change, out: &mut ListsBuilder)
    requires fresh { 0 < out.old.fresh.spare }
    requires gone { 0 < out.old.gone.spare }
    requires changed { 0 < out.old.changed.spare }
    ensures fresh { out.new.fresh.items
        ≡ out.old.fresh.items ++ (lists_among (change ∷ [])).fresh }
    ensures gone { out.new.gone.items ≡ out.old.gone.items ++ (lists_among (change ∷ [])).gone }
    ensures changed { out.new.changed.items
        ≡ out.old.changed.items ++ (lists_among (change ∷ [])).changed }
    ensures fresh_room { out.old.fresh.spare ≤ out.new.fresh.spare + 1 }
    ensures gone_room { out.old.gone.spare ≤ out.new.gone.spare + 1 }
    ensures changed_room { out.old.changed.spare ≤ out.new.changed.spare + 1 }
{
    match (change.before, change.after) {
        (None, _) => out.fresh.push(change.tag),
        (Some(_), None) => out.gone.push(change.tag),
        (Some(_), Some(_)) => out.changed.push(change.tag),
    }
}
