//! What changed since the current mark.
ghost use Rattle.std.specs.Prelude.{◌≡◌, ◌≢◌, ◌+◌, ◌<◌, ◌≤◌, [], length, vec_capacity, IfOk, OnOk, IsPermutation};
ghost use Rattle.std.specs.FinMap.{get};
ghost use Rattle.std.specs.List.Sorted.{IsNonDecreasingBy};
ghost use Rattle.std.specs.Map.{values_of};
ghost use Rattle.indexmap.specs.IndexMap.{spare};
ghost use Rattle.pk_model.specs.Maps.{EntityMap, with_entity};
ghost use Rattle.entity_store.specs.declared.changes.Change.{Change};
ghost use Rattle.entity_store.specs.Changes.{AreChanges, net_changes, same_value};
ghost use Rattle.delta.specs.Deltas.{StartsAt, after};
ghost use Rattle.partition.specs.Unsaved.{AreNet, IsUnsaved, joined_to};

use delta::Delta;
use entity_store::{Change, ChangeListBuilder, Steps};
use indexmap::IndexMap;
use pk_base::{Entity, NoMemory};
use std::alloc::Global;
use std::sync::ledger::Ledger;

/// How the store differs from what the current mark stands for: each tag that differs has its
/// change, by the tag's number, in an open order.
#[derive(Drop)]
pub(crate) struct Unsaved {
    changes: IndexMap<u32, Change>,
}

impl Unsaved {
    /// Nothing. It takes no memory.
    pub(crate) fn new(alloc: Global) -> Unsaved
        ensures { result.changes.entries ≡ [] }
    {
        Unsaved {
            changes: IndexMap::new(alloc),
        }
    }

    /// The changes of a delta.
    pub(crate) fn of_delta<L: Ledger>(
        alloc: Global,
        delta: &Delta,
        steps: &mut Steps<L>,
    ) -> Result<Unsaved, NoMemory>
        ensures { IfOk result (λ u. (base now : EntityMap) → delta.now ≡ net_changes base now
            → IsUnsaved base now u.changes.entries) }
    {
        let mut unsaved = Unsaved::new(alloc);
        unsaved.reserve(delta.len())?;
        unsaved.join(delta, steps);
        Ok(unsaved)
    }

    /// Takes room for the changes of `k` tags more.
    pub(crate) fn reserve(&mut self, k: usize) -> Result<(), NoMemory>
        ensures room { OnOk result (k ≤ spare self.new.changes) }
        ensures same { self.new.changes.entries ≡ self.old.changes.entries }
    {
        self.changes.reserve(k)?;
        Ok(())
    }

    /// Adds a delta that begins where these changes end. It takes no memory.
    pub(crate) fn join<L: Ledger>(&mut self, delta: &Delta, steps: &mut Steps<L>)
        requires { length delta.now ≤ spare self.old.changes }
        ensures joined { (base now : EntityMap) → IsUnsaved base now self.old.changes.entries
            → StartsAt now delta.now
            → IsUnsaved base (after now delta.now) self.new.changes.entries }
        ensures cost { steps.new ≡ steps.old + length delta.now }
    {
        for i in 0..delta.len() {
            self.note(*delta.entry(i, steps));
        }
    }

    /// Adds a change that begins where its tag's change ends, which is gone where the tag comes
    /// back. It takes no memory.
    fn note(&mut self, change: Change)
        requires room { 0 < spare self.old.changes }
        requires differ { change.before ≢ change.after }
        ensures net { (base now : EntityMap) → IsUnsaved base now self.old.changes.entries
            → get now change.tag ≡ change.before
            → IsUnsaved base (with_entity now change.tag change.after) self.new.changes.entries }
        ensures room { spare self.old.changes ≤ spare self.new.changes + 1 }
    {
        let tag = change.tag.0;
        match join_to(self.changes.get(&tag).copied(), change) {
            Some(joined) => {
                self.changes.insert(tag, joined).unwrap();
            }
            None => {
                self.changes.swap_remove(&tag);
            }
        }
    }

    /// The changes, ascending by their tags.
    pub(crate) fn to_delta(&self, alloc: Global) -> Result<Delta, NoMemory>
        requires { AreNet self.now.changes.entries }
        ensures { IfOk result (λ d. (base now : EntityMap)
            → IsUnsaved base now self.now.changes.entries → d ≡ net_changes base now) }
    {
        let mut sorted = Vec::with_capacity(alloc, self.changes.len())?;
        let out = ChangeListBuilder::with_room(alloc, self.changes.len())?;
        list(&self.changes, &mut sorted);
        sort_by_tag(&mut sorted);
        Ok(listed(&sorted, out))
    }
}

/// What a tag's change becomes with one more. There is none where the tag comes back.
fn join_to(first: Option<Change>, change: Change) -> Option<Change>
    ensures { result ≡ joined_to first change }
{
    match first {
        Some(first) => {
            if is_same(&first.before, &change.after) {
                None
            } else {
                Some(Change {
                    tag: first.tag,
                    before: first.before,
                    after: change.after,
                })
            }
        }
        None => Some(change),
    }
}

fn is_same(a: &Option<Entity>, b: &Option<Entity>) -> bool
    ensures { result ≡ same_value a.now b.now }
{
    match (a, b) {
        (Some(a), Some(b)) => a.is_same(b),
        (None, None) => true,
        (Some(_), None) | (None, Some(_)) => false,
    }
}

/// Lists the changes, in room taken before.
fn list(changes: &IndexMap<u32, Change>, out: &mut Vec<Change>)
    requires empty { out.old.items ≡ [] }
    requires room { length changes.now.entries ≤ vec_capacity out.old }
    ensures { out.new.items ≡ values_of changes.now.entries }
{
    for change in changes.values() {
        out.push_reserved(*change);
    }
}

/// Puts the changes in the ascending order of their tags.
fn sort_by_tag(changes: &mut Vec<Change>)
    ensures ascending { IsNonDecreasingBy (λ (c : Change). c.tag.0) changes.new.items }
    ensures same { IsPermutation changes.old.items changes.new.items }
{
    changes.sort_unstable_by_key(|change| change.tag.0);
}

/// The delta of these changes, in an empty list with room for them.
fn listed(changes: &[Change], mut out: ChangeListBuilder) -> Delta
    requires changes { AreChanges changes.now }
    requires empty { out.items ≡ [] }
    requires room { length changes.now ≤ out.spare }
    ensures { result ≡ changes.now }
{
    for i in 0..changes.len() {
        out.push(changes[i]);
    }
    Delta::from_changes(out.finish())
}
