//! Changes of a store's map, and lists of them.
ghost use Rattle.std.specs.Prelude.{◌≡◌, ◌≢◌, ◌+◌, ◌<◌, [], ◌∷◌, ◌++◌, IfOk, length, slice_get, Some};
ghost use Rattle.std.specs.List.{AllByRecursion};
ghost use Rattle.entity_store.specs.Changes.{AreChanges, lists_among};
ghost use Rattle.entity_store.specs.Lists.{HasRoomForAll};

use crate::Steps;
use pk_base::{Entity, Lists, NoMemory, Tag, TagListBuilder};
use std::alloc::Global;
use std::marker::Model;
use std::sync::ledger::Ledger;

/// What a tag named before and what it names after, which differ.
#[derive(Clone, Copy, Debug, PartialEq, Eq)]
pub struct Change {
    pub tag: Tag,
    pub before: Option<Entity>,
    pub after: Option<Entity>,
}

/// A finished list of changes, ascending by their tags. Contracts see it as the list.
#[derive(Drop)]
pub struct ChangeList {
    changes: Vec<Change>,
}

impl Model for ChangeList {
    ghost use Rattle.std.specs.Prelude.{List};
    ghost use Rattle.entity_store.specs.declared.changes.Change.{Change};
    ghost use Rattle.entity_store.specs.Changes.{AreChanges};

    ghost Value = { List Change };

    ghost view = { λ l. l.changes.items };

    ghost invariant = { λ l. AreChanges l.changes.items };
}

impl ChangeList {
    /// The list of these changes.
    pub(crate) fn of(changes: Vec<Change>) -> ChangeList
        requires { AreChanges changes.items }
        ensures { result ≡ changes.items }
    {
        ChangeList { changes }
    }

    /// How many changes there are.
    pub fn len(&self) -> usize
        ensures value { result ≡ length self.now }
        // They ascend by their tags, and each is a change.
        ensures changes { AreChanges self.now }
    {
        self.changes.len()
    }

    /// The change at a place, from 0. One step.
    pub fn entry<L: Ledger>(&self, i: usize, steps: &mut Steps<L>) -> &Change
        requires { i < length self.now }
        ensures value { slice_get self.now i ≡ Some result.now }
        ensures cost { steps.new ≡ steps.old + 1 }
    {
        steps.tick();
        &self.changes[i]
    }
}

/// A list of changes that is being made, in room taken before. Contracts see the changes, and how
/// many more there is room for.
#[derive(Drop)]
pub struct ChangeListBuilder {
    changes: Vec<Change>,
}

impl Model for ChangeListBuilder {
    ghost use Rattle.std.specs.Prelude.{◌-◌, vec_capacity, vec_len};
    ghost use Rattle.pk_base.specs.Building.{Building};
    ghost use Rattle.entity_store.specs.declared.changes.Change.{Change};
    ghost use Rattle.entity_store.specs.Changes.{AreChanges};

    ghost Value = { Building Change };

    ghost view = { λ l. record {
      items = l.changes.items;
      spare = vec_capacity l.changes - vec_len l.changes;
    } };

    ghost invariant = { λ l. AreChanges l.changes.items };
}

impl ChangeListBuilder {
    /// An empty list with room for `k` changes.
    pub fn with_room(alloc: Global, k: usize) -> Result<ChangeListBuilder, NoMemory>
        ensures empty { IfOk result (λ l. l.items ≡ []) }
        ensures room { IfOk result (λ l. l.spare ≡ k) }
    {
        Ok(ChangeListBuilder {
            changes: Vec::with_capacity(alloc, k)?,
        })
    }

    /// Adds a change at the end, whose tag is above those before. It takes no memory.
    pub fn push(&mut self, change: Change)
        requires room { 0 < self.old.spare }
        requires differ { change.before ≢ change.after }
        requires above { AllByRecursion (λ c. c.tag.0 < change.tag.0) self.old.items }
        ensures items { self.new.items ≡ self.old.items ++ change ∷ [] }
        ensures spare { self.new.spare + 1 ≡ self.old.spare }
    {
        self.changes.push_reserved(change);
    }

    /// The finished list. It takes no memory.
    pub fn finish(self) -> ChangeList
        ensures { result ≡ self.items }
    {
        let ChangeListBuilder { changes } = self;
        ChangeList { changes }
    }
}

/// The three lists of a difference, while they are being made.
#[derive(Drop)]
pub struct ListsBuilder {
    pub fresh: TagListBuilder,
    pub gone: TagListBuilder,
    pub changed: TagListBuilder,
}

/// The tags of the changes, in the list that each belongs to.
pub(crate) fn lists_of(changes: ChangeList, out: ListsBuilder) -> Lists
    requires { HasRoomForAll (length changes) out }
    ensures { result ≡ lists_among changes }
{
    let ChangeList { changes } = changes;
    let ListsBuilder {
        mut fresh,
        mut gone,
        mut changed,
    } = out;
    for change in &changes {
        match (change.before, change.after) {
            (None, _) => fresh.push(change.tag),
            (Some(_), None) => gone.push(change.tag),
            (Some(_), Some(_)) => changed.push(change.tag),
        }
    }
    Lists {
        fresh: fresh.finish(),
        gone: gone.finish(),
        changed: changed.finish(),
    }
}
