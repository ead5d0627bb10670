//! Deltas, and what they are made of.
ghost use Rattle.std.specs.Prelude.{◌≡◌, ◌+◌, ◌<◌, [], length, slice_get, Some};
ghost use Rattle.entity_store.specs.Changes.{AreChanges};

use entity_store::{Change, ChangeList, Steps};
use std::alloc::Global;
use std::marker::Model;
use std::sync::ledger::Ledger;

/// How one state of a store differs from another. Contracts see it as its changes, ascending by
/// their tags.
#[derive(Drop)]
pub struct Delta {
    // None where nothing changes, since a list would take memory.
    changes: Option<ChangeList>,
}

impl Model for Delta {
    ghost use Rattle.std.specs.Prelude.{List, [], unwrap_or};
    ghost use Rattle.entity_store.specs.declared.changes.Change.{Change};

    ghost Value = { List Change };

    ghost view = { λ d. unwrap_or d.changes [] };
}

impl Delta {
    /// No change. It takes no memory.
    pub fn empty(_alloc: Global) -> Delta
        ensures { result ≡ [] }
    {
        Delta { changes: None }
    }

    /// These changes. It takes no memory.
    pub fn from_changes(changes: ChangeList) -> Delta
        ensures { result ≡ changes }
    {
        Delta {
            changes: Some(changes),
        }
    }

    /// How many changes there are.
    pub fn len(&self) -> usize
        ensures value { result ≡ length self.now }
        // They ascend by their tags, and each is a change.
        ensures changes { AreChanges self.now }
    {
        match &self.changes {
            Some(changes) => changes.len(),
            None => 0,
        }
    }

    /// The change at a place, from 0. One step.
    pub fn entry<L: Ledger>(&self, i: usize, steps: &mut Steps<L>) -> &Change
        requires { i < length self.now }
        ensures value { slice_get self.now i ≡ Some result.now }
        ensures cost { steps.new ≡ steps.old + 1 }
    {
        let Some(changes) = &self.changes else {
            unreachable!()
        };
        changes.entry(i, steps)
    }
}
