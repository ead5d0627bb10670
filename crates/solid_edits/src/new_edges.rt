//! An edge that is made.
ghost use Rattle.std.specs.Prelude.{◌≡◌, ◌≢◌, ◌∷◌, [], IsTrue};
ghost use Rattle.std.specs.List.{AllByRecursion};
ghost use Rattle.pk_model.specs.Tags.{owns};
ghost use Rattle.entity_store.specs.Room.{HasRoomForThese, PutsAmong};
ghost use Rattle.solid_edits.specs.NewEdges.{fin_alone as the_fin_alone, tags_of_edge, with_edge};

use entity_store::{Recorder, Steps};
use pk_base::{Entity, Tag};
use std::sync::ledger::Ledger;

/// A fin that is made: its tag, its loop, and the vertex where it starts.
#[derive(Clone, Copy)]
pub struct NewFin {
    pub tag: Tag,
    pub loop_: Tag,
    pub vertex: Tag,
}

/// An edge that is made: its tag, its body, and its fins. It names `fin`, so that one is to have the
/// lesser tag.
#[derive(Clone, Copy)]
pub struct NewEdge {
    pub tag: Tag,
    pub body: Tag,
    pub fin: NewFin,
    pub mate: NewFin,
}

/// Puts an edge and its two fins, which are mates, each a ring alone. It takes no memory.
pub fn put_edge<L: Ledger>(rec: &mut Recorder<'_>, edge: &NewEdge, steps: &mut Steps<L>)
    requires owned { AllByRecursion (λ t. IsTrue (owns rec.old.store.now.state.blocks t))
        (edge.now.tag ∷ edge.now.fin.tag ∷ edge.now.mate.tag
        ∷ edge.now.body ∷ edge.now.fin.loop_ ∷ edge.now.mate.loop_ ∷ []) }
    requires edge { edge.now.body ≢ edge.now.tag }
    requires fin { edge.now.fin.loop_ ≢ edge.now.fin.tag }
    requires mate { edge.now.mate.loop_ ≢ edge.now.mate.tag }
    requires room { HasRoomForThese rec.old.store.now.recording (tags_of_edge edge.now) }
    ensures state { rec.new.store.now.state ≡ record rec.old.store.now.state
        { map = with_edge rec.old.store.now.state.map edge.now } }
    ensures puts { PutsAmong (tags_of_edge edge.now) rec.old.store.now rec.new.store.now }
    ensures same_store { rec.new.store.ghost_name ≡ rec.old.store.ghost_name }
{
    let NewEdge {
        tag,
        body,
        fin,
        mate,
    } = *edge;
    let between = Entity::Edge { body, fin: fin.tag };
    rec.put(tag, Some(between), steps);
    rec.put(fin.tag, Some(fin_alone(fin, mate.tag, tag)), steps);
    rec.put(mate.tag, Some(fin_alone(mate, fin.tag, tag)), steps);
}

/// A fin with this mate and edge, as a ring alone.
fn fin_alone(fin: NewFin, mate: Tag, edge: Tag) -> Entity
    ensures { result ≡ the_fin_alone fin mate edge }
{
    Entity::Fin {
        loop_: fin.loop_,
        next: fin.tag,
        prev: fin.tag,
        mate,
        edge,
        vertex: fin.vertex,
    }
}
