//! What operators do to loops: give the ring of one to another, and put it anew.
ghost use Rattle.std.specs.Prelude.{◌≡◌, ◌∷◌, [], IfSome, IsTrue, Contains};
ghost use Rattle.pk_model.specs.Tags.{owns};
ghost use Rattle.solid_model.specs.Rings.{first_tag, from_least};
ghost use Rattle.halfedge.specs.LinkedRings.{IsInRing, Relabels, ring_of_any};
ghost use Rattle.entity_store.specs.Room.{HasRoomForThese, PutsAmong};
ghost use Rattle.solid_edits.specs.EditedLoops.{loop_from as the_loop_from};

use entity_store::{Recorder, Steps};
use halfedge::{least_fin, relabel};
use pk_base::{Entity, Tag};
use std::sync::ledger::Ledger;

/// Gives the ring from this fin on, where there is one, to a loop. It takes no memory.
pub fn give_ring<L: Ledger>(
    rec: &mut Recorder<'_>,
    first: Option<Tag>,
    to: Tag,
    steps: &mut Steps<L>,
)
    requires ring { IfSome first (IsInRing rec.old.store.now.state.map) }
    requires owned { IsTrue (owns rec.old.store.now.state.blocks to) }
    requires other { ¬ (Contains (ring_of_any rec.old.store.now.state.map first) to) }
    requires room { HasRoomForThese rec.old.store.now.recording
        (ring_of_any rec.old.store.now.state.map first) }
    ensures labels { Relabels rec.old.store.now.state.map
        (ring_of_any rec.old.store.now.state.map first) to rec.new.store.now.state.map }
    ensures state { rec.new.store.now.state ≡ record rec.old.store.now.state
        { map = rec.new.store.now.state.map } }
    ensures puts { PutsAmong (ring_of_any rec.old.store.now.state.map first)
        rec.old.store.now rec.new.store.now }
    ensures same_store { rec.new.store.ghost_name ≡ rec.old.store.ghost_name }
{
    if let Some(fin) = first {
        relabel(rec, fin, to, steps);
    }
}

/// The least fin of the ring from this one on, where there is one.
pub fn least_of_any<L: Ledger>(
    rec: &Recorder<'_>,
    first: Option<Tag>,
    steps: &mut Steps<L>,
) -> Option<Tag>
    requires { IfSome first (IsInRing rec.now.store.now.state.map) }
    ensures { result ≡ first_tag (from_least (ring_of_any rec.now.store.now.state.map first)) }
{
    match first {
        Some(fin) => Some(least_fin(rec, fin, steps)),
        None => None,
    }
}

/// A loop of this least fin, or with the lone vertex where there is none.
pub fn loop_from(face: Tag, first: Option<Tag>, vertex: Tag) -> Entity
    ensures { result ≡ the_loop_from face first vertex }
{
    let lone = match first {
        Some(_) => None,
        None => Some(vertex),
    };
    Entity::Loop { face, first, lone }
}
