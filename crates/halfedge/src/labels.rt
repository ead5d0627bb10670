//! The loop that the fins of a ring name.
ghost use Rattle.std.specs.Prelude.{◌≡◌, ◌≢◌, [], ◌∷◌, Contains, IsSome, IsTrue};
ghost use Rattle.pk_model.specs.Tags.{owns};
ghost use Rattle.halfedge.specs.LinkedRings.{IsInRing, Relabels, next_at, ring_at};
ghost use Rattle.entity_store.specs.Room.{HasRoomForThese, PutsAmong};

use entity_store::{Recorder, Steps};
use pk_base::{Entity, Tag};
use std::sync::ledger::Ledger;

/// Sets the loop of every fin of a ring. The loop's block is owned, and the loop is none of the
/// fins.
pub fn relabel<L: Ledger>(rec: &mut Recorder<'_>, fin: Tag, to: Tag, steps: &mut Steps<L>)
    requires ring { IsInRing rec.old.store.now.state.map fin }
    requires owned { IsTrue (owns rec.old.store.now.state.blocks to) }
    requires other { ¬ (Contains (ring_at rec.old.store.now.state.map fin) to) }
    requires room { HasRoomForThese rec.old.store.now.recording
        (ring_at rec.old.store.now.state.map fin) }
    ensures labels { Relabels rec.old.store.now.state.map
        (ring_at rec.old.store.now.state.map fin) to rec.new.store.now.state.map }
    ensures state { rec.new.store.now.state ≡ record rec.old.store.now.state
        { map = rec.new.store.now.state.map } }
    ensures puts { PutsAmong (ring_at rec.old.store.now.state.map fin)
        rec.old.store.now rec.new.store.now }
    ensures same_store { rec.new.store.ghost_name ≡ rec.old.store.ghost_name }
{
    let mut here = set_loop(rec, fin, to, steps);
    while here != fin {
        here = set_loop(rec, here, to, steps);
    }
}

/// Sets the loop of one fin, and says which fin comes next.
fn set_loop<L: Ledger>(rec: &mut Recorder<'_>, fin: Tag, to: Tag, steps: &mut Steps<L>) -> Tag
    requires fin { IsSome (next_at rec.old.store.now.state.map fin) }
    requires owned { IsTrue (owns rec.old.store.now.state.blocks to) }
    requires other { to ≢ fin }
    requires room { HasRoomForThese rec.old.store.now.recording (fin ∷ []) }
    ensures next { next_at rec.old.store.now.state.map fin ≡ Some result }
    ensures label { Relabels rec.old.store.now.state.map (fin ∷ []) to
        rec.new.store.now.state.map }
    ensures state { rec.new.store.now.state ≡ record rec.old.store.now.state
        { map = rec.new.store.now.state.map } }
    ensures puts { PutsAmong (fin ∷ []) rec.old.store.now rec.new.store.now }
    ensures same_store { rec.new.store.ghost_name ≡ rec.old.store.ghost_name }
{
    // A fin stands in an owned block.
    let _blocks = rec.view().blocks();
    let Some(
        Entity::Fin {
            next,
            prev,
            mate,
            edge,
            vertex,
            ..
        },
    ) = rec.get(fin, steps).copied()
    else {
        unreachable!()
    };
    let labelled = Entity::Fin {
        loop_: to,
        next,
        prev,
        mate,
        edge,
        vertex,
    };
    rec.put(fin, Some(labelled), steps);
    next
}
