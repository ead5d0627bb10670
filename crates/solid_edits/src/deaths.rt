//! Entities that die with their attributes.
ghost use Rattle.std.specs.Prelude.{◌≡◌, ◌≤◌, ◌*◌, ◌∷◌, length, IsTrue};
ghost use Rattle.std.specs.List.{AllByRecursion};
ghost use Rattle.pk_model.specs.Tags.{owns};
ghost use Rattle.solid_calls.specs.Attributes.{attributes_on};
ghost use Rattle.entity_store.specs.Room.{HasRoomForThese, PutsAmong};
ghost use Rattle.solid_edits.specs.Deaths.{Dies, Kills, with_attributes};

use attributes::{count_attributes, drop_all};
use entity_store::{Recorder, Steps, Store};
use pk_base::Tag;
use std::sync::ledger::Ledger;

/// Kills an entity with its attributes. It takes no memory.
pub fn kill<L: Ledger>(rec: &mut Recorder<'_>, tag: Tag, steps: &mut Steps<L>)
    requires owned { IsTrue (owns rec.old.store.now.state.blocks tag) }
    requires room { HasRoomForThese rec.old.store.now.recording
        (tag ∷ attributes_on rec.old.store.now.state.map tag) }
    ensures dies { Dies rec.old.store.now.state.map tag rec.new.store.now.state.map }
    ensures state { rec.new.store.now.state ≡ record rec.old.store.now.state
        { map = rec.new.store.now.state.map } }
    ensures puts { PutsAmong (tag ∷ attributes_on rec.old.store.now.state.map tag)
        rec.old.store.now rec.new.store.now }
    ensures same_store { rec.new.store.ghost_name ≡ rec.old.store.ghost_name }
{
    drop_all(rec, tag, steps);
    rec.put(tag, None, steps);
}

/// Kills these, each with its attributes. It takes no memory.
pub fn kill_all<L: Ledger>(rec: &mut Recorder<'_>, tags: &[Tag], steps: &mut Steps<L>)
    requires owned { AllByRecursion (λ t. IsTrue (owns rec.old.store.now.state.blocks t)) tags.now }
    requires room { HasRoomForThese rec.old.store.now.recording
        (with_attributes rec.old.store.now.state.map tags.now) }
    ensures kills { Kills rec.old.store.now.state.map tags.now rec.new.store.now.state.map }
    ensures state { rec.new.store.now.state ≡ record rec.old.store.now.state
        { map = rec.new.store.now.state.map } }
    ensures puts { PutsAmong (with_attributes rec.old.store.now.state.map tags.now)
        rec.old.store.now rec.new.store.now }
    ensures same_store { rec.new.store.ghost_name ≡ rec.old.store.ghost_name }
{
    for tag in tags {
        kill(rec, *tag, steps);
    }
}

/// How many die with these, of which there are at most 16: they themselves, and their attributes.
pub fn count_dead<L: Ledger>(store: &Store, tags: &[Tag], steps: &mut Steps<L>) -> usize
    requires { length tags.now ≤ 16 }
    ensures dead { result ≡ length (with_attributes store.now.state.map tags.now) }
    ensures few { result ≤ 16 * 16777153 }
{
    // The blocks bound how many attributes there are.
    let _blocks = store.blocks();
    let mut count = tags.len();
    for tag in tags {
        count += count_attributes(store, *tag, steps);
    }
    count
}
