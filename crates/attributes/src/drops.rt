//! The attributes that die with their owner.
ghost use Rattle.std.specs.Prelude.{◌≡◌};
ghost use Rattle.solid_calls.specs.Attributes.{DropsAttributes, attributes_on};
ghost use Rattle.entity_store.specs.Room.{HasRoomForThese, PutsAmong};

use crate::reads::one_attribute;
use entity_store::{Recorder, Steps};
use pk_base::Tag;
use std::sync::ledger::Ledger;

/// Kills every attribute of one owner, and changes nothing else. It takes no memory.
pub fn drop_all<L: Ledger>(rec: &mut Recorder<'_>, owner: Tag, steps: &mut Steps<L>)
    requires { HasRoomForThese rec.old.store.now.recording
        (attributes_on rec.old.store.now.state.map owner) }
    ensures drops { DropsAttributes rec.old.store.now.state.map owner
        rec.new.store.now.state.map }
    ensures state { rec.new.store.now.state ≡ record rec.old.store.now.state
        { map = rec.new.store.now.state.map } }
    ensures puts { PutsAmong (attributes_on rec.old.store.now.state.map owner)
        rec.old.store.now rec.new.store.now }
    ensures same_store { rec.new.store.ghost_name ≡ rec.old.store.ghost_name }
{
    while let Some(tag) = one_attribute(rec.view(), owner, steps) {
        // Each live entity stands in an owned block.
        let _blocks = rec.view().blocks();
        rec.put(tag, None, steps);
    }
}
