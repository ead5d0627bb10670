ghost use Rattle.std.specs.Prelude.{◌≡◌, ◌+◌, ◌≤◌, ◌++◌, [], length, vec_capacity, vec_len, IfOk, IsPermutation};
ghost use Rattle.std.specs.List.{filter_map};
ghost use Rattle.std.specs.List.Sorted.{IsNonDecreasingBy};
ghost use Rattle.entity_store.specs.declared.changes.Change.{Change};
ghost use Rattle.entity_store.specs.Changes.{net_changes, same_value};
ghost use Rattle.entity_store.specs.Recording.{change_of, first_values, put_back, recorded_put, HasRoomFor};

use crate::{Change, ChangeList, Steps, Store};
use indexmap::IndexMap;
use pk_base::{Entity, NoMemory, Tag};
use std::alloc::Global;
use std::marker::Model;
use std::sync::ledger::Ledger;

/// The memory of a recorder: room for the first values of so many tags, and for their changes.
/// Contracts see what it has recorded, and of how many tags it may.
#[derive(Drop)]
pub struct RecordRoom {
    room: usize,
    // What each tag that was put named first, by the tags' numbers in the order of the puts.
    first: IndexMap<u32, Option<Entity>>,
    // Empty until the changes are listed, with room for all of them.
    changes: Vec<Change>,
}

impl Model for RecordRoom {
    ghost use Rattle.std.specs.Prelude.{vec_capacity};
    ghost use Rattle.indexmap.specs.IndexMap.{spare};
    ghost use Rattle.entity_store.specs.Recording.{Recording, recording_code, first_values, IsRecording};

    ghost Value = { Recording };

    ghost coded = { recording_code };

    ghost view = { λ r. record { first = first_values r.first.entries; room = r.room } };

    ghost invariant = { λ r.
        IsRecording r.room r.first.entries (spare r.first) r.changes.items
        (vec_capacity r.changes) };
}

impl RecordRoom {
    /// Room for the changes of `k` tags.
    pub fn new(alloc: Global, k: usize) -> Result<RecordRoom, NoMemory>
        ensures { IfOk result (λ r. r ≡ record { first = []; room = k }) }
    {
        Ok(RecordRoom {
            room: k,
            first: IndexMap::with_capacity(alloc, k)?,
            changes: Vec::with_capacity(alloc, k)?,
        })
    }

    /// Records what the tag named, where it was not put before. It takes no memory.
    pub(crate) fn note(&mut self, tag: Tag, before: Option<Entity>)
        requires { HasRoomFor self.old tag }
        ensures { self.new ≡ record self.old { first = recorded_put self.old.first tag before } }
    {
        if !self.first.contains_key(&tag.0) {
            self.first.insert(tag.0, before).unwrap();
        }
    }

    /// How the store has changed since the record began. It takes no memory.
    pub(crate) fn into_changes<L: Ledger>(self, store: &Store, steps: &mut Steps<L>) -> ChangeList
        ensures changes { result
            ≡ net_changes (put_back store.now.state.map self.first) store.now.state.map }
        ensures length { length result ≤ length self.first }
        ensures cost { steps.new ≡ steps.old + length self.first }
    {
        let RecordRoom {
            first,
            mut changes,
            ..
        } = self;
        list_changes(&first, store, &mut changes, steps);
        sort_by_tag(&mut changes);
        ChangeList::of(changes)
    }
}

/// Lists those of the recorded tags that name something else now.
fn list_changes<L: Ledger>(
    first: &IndexMap<u32, Option<Entity>>,
    store: &Store,
    changes: &mut Vec<Change>,
    steps: &mut Steps<L>,
)
    requires { vec_len changes.old + length first.now.entries ≤ vec_capacity changes.old }
    ensures items { changes.new.items ≡ changes.old.items
        ++ filter_map (change_of store.now.state.map) (first_values first.now.entries) }
    ensures cost { steps.new ≡ steps.old + length first.now.entries }
{
    for (tag, before) in first.iter() {
        let after = store.get(Tag(*tag), steps).copied();
        if !is_same(before, &after) {
            changes.push_reserved(Change {
                tag: Tag(*tag),
                before: *before,
                after,
            });
        }
    }
}

/// Puts the changes in the ascending order of their tags.
fn sort_by_tag(changes: &mut Vec<Change>)
    ensures ascending { IsNonDecreasingBy (λ (c : Change). c.tag.0) changes.new.items }
    ensures same { IsPermutation changes.old.items changes.new.items }
{
    changes.sort_unstable_by_key(|change| change.tag.0);
}

fn is_same(a: &Option<Entity>, b: &Option<Entity>) -> bool
    ensures { result ≡ same_value a.now b.now }
{
    match (a, b) {
        (Some(a), Some(b)) => a.is_same(b),
        (None, None) => true,
        (Some(_), None) | (None, Some(_)) => false,
    }
}
