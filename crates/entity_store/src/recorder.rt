ghost use Rattle.std.specs.Prelude.{◌≡◌, ◌+◌, ◌≤◌, IsTrue, length, option_copied};
ghost use Rattle.std.specs.FinMap as map;
ghost use Rattle.pk_model.specs.Tags.{owns};
ghost use Rattle.pk_model.specs.Maps.{diff, with_entity};
ghost use Rattle.entity_store.specs.Store.{IfHosted};
ghost use Rattle.entity_store.specs.Changes.{net_changes};
ghost use Rattle.entity_store.specs.Recording.{recorded_put, HasRoomFor};
ghost use Rattle.entity_store.specs.Recorder.{began};
ghost use Rattle.entity_store.specs.Lists.{HasRoomForAll};

use crate::changes::lists_of;
use crate::{ChangeList, ListsBuilder, Steps, Store};
use pk_base::{Entity, Lists, Tag};
use std::sync::ledger::Ledger;

/// A store that is lent to be changed, and of which the net change is recorded. It records the
/// first value of each tag that is put, in room taken before.
#[derive(Drop)]
pub struct Recorder<'a> {
    pub(crate) store: &'a mut Store,
}

impl<'a> Recorder<'a> {
    /// The entity at a tag. One step.
    pub fn get<L: Ledger>(&self, tag: Tag, steps: &mut Steps<L>) -> Option<&Entity>
        ensures value { option_copied result ≡ map.get self.now.store.now.state.map tag }
        ensures cost { steps.new ≡ steps.old + 1 }
    {
        self.store.get(tag, steps)
    }

    /// The store as it is now, to walk it.
    pub fn view(&self) -> &Store
        ensures { result.now ≡ self.now.store.now }
    {
        self.store
    }

    /// Sets the entity at a tag, or takes it away. The tag was put before, or there is room to
    /// record one more. At most two steps. It takes no memory.
    pub fn put<L: Ledger>(&mut self, tag: Tag, to: Option<Entity>, steps: &mut Steps<L>)
        requires owned { IsTrue (owns self.old.store.now.state.blocks tag) }
        requires hosted { IfHosted self.old.store.now.state.blocks tag to }
        requires room { HasRoomFor self.old.store.now.recording tag }
        ensures state { self.new.store.now.state ≡ record self.old.store.now.state
            { map = with_entity self.old.store.now.state.map tag to } }
        ensures recorded { self.new.store.now.recording ≡ record self.old.store.now.recording {
          first = recorded_put self.old.store.now.recording.first tag
              (map.get self.old.store.now.state.map tag);
        } }
        // The map that it began with stays the same.
        ensures began { began self.new.store.now ≡ began self.old.store.now }
        ensures same_store { self.new.store.ghost_name ≡ self.old.store.ghost_name }
        ensures cost { steps.new ≤ steps.old + 2 }
    {
        self.store.put_recorded(tag, to, steps);
    }

    /// The net change since the store was lent, ascending by the tags. The store is left as it is.
    /// At most one step for each tag that was put. It takes no memory.
    pub fn finish<L: Ledger>(self, steps: &mut Steps<L>) -> ChangeList
        ensures changes { result ≡ net_changes (began self.entry.store.now)
            self.entry.store.now.state.map }
        ensures left { self.exit.0.now.state ≡ self.entry.store.now.state }
        ensures cost { steps.new ≤ steps.old + length self.entry.store.now.recording.first }
    {
        let Recorder { store } = self;
        store.take_changes(steps)
    }

    /// The tags of the net change since the store was lent: those that are live only now, those
    /// that were live only before, and those of both whose entities differ. The store is left as it
    /// is. At most one step for each tag that was put. It takes no memory.
    pub fn finish_lists<L: Ledger>(self, out: ListsBuilder, steps: &mut Steps<L>) -> Lists
        requires { HasRoomForAll (length self.store.now.recording.first) out }
        ensures lists { result ≡ diff (began self.entry.store.now)
            self.entry.store.now.state.map }
        ensures left { self.exit.0.now.state ≡ self.entry.store.now.state }
        ensures cost { steps.new ≤ steps.old + length self.entry.store.now.recording.first }
    {
        let Recorder { store } = self;
        let changes = store.take_changes(steps);
        lists_of(changes, out)
    }
}
