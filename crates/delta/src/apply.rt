//! A delta put into a store.
ghost use Rattle.std.specs.Prelude.{◌≡◌, ◌+◌, ◌*◌, ◌≤◌, [], ◌∷◌, IsTrue, length, if◌then◌else◌};
ghost use Rattle.std.specs.List.{AllByRecursion};
ghost use Rattle.pk_model.specs.Tags.{owns};
ghost use Rattle.pk_model.specs.Maps.{with_entity};
ghost use Rattle.entity_store.specs.Store.{IfHosted};
ghost use Rattle.entity_store.specs.Room.{HasRoomForThese, PutsAmong};
ghost use Rattle.delta.specs.Deltas.{StartsAt, after, in_direction, tags_in};

use crate::Delta;
use entity_store::{Change, Recorder, Steps};
use pk_base::Entity;
use std::sync::ledger::Ledger;

impl Delta {
    /// Puts what the changes say is after, or, backward, what they say was before. The store stands
    /// where the delta begins, or backward where it ends; the tags are owned, and so are the owners
    /// of what is put; and there is room to record the tags. It puts these tags alone. It adds at
    /// most three steps for each change. It takes no memory.
    pub fn apply<L: Ledger>(&self, rec: &mut Recorder<'_>, forward: bool, steps: &mut Steps<L>)
        requires starts { StartsAt rec.old.store.now.state.map (in_direction forward self.now) }
        requires owned { AllByRecursion (λ t. IsTrue (owns rec.old.store.now.state.blocks t))
            (tags_in self.now) }
        requires hosted { AllByRecursion
            (λ c. IfHosted rec.old.store.now.state.blocks c.tag c.after)
            (in_direction forward self.now) }
        requires room { HasRoomForThese rec.old.store.now.recording (tags_in self.now) }
        ensures state { rec.new.store.now.state ≡ record rec.old.store.now.state
            { map = after rec.old.store.now.state.map (in_direction forward self.now) } }
        ensures puts { PutsAmong (tags_in self.now) rec.old.store.now rec.new.store.now }
        ensures same_store { rec.new.store.ghost_name ≡ rec.old.store.ghost_name }
        ensures cost { steps.new ≤ steps.old + 3 * length self.now }
    {
        for i in 0..self.len() {
            let change = *self.entry(i, steps);
            rec.put(change.tag, put_for(change, forward), steps);
        }
    }
}

/// What the change puts at its tag.
fn put_for(change: Change, forward: bool) -> Option<Entity>
    ensures { result ≡ (if forward then change.after else change.before) }
{
    if forward { change.after } else { change.before }
}
