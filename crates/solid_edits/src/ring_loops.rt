//! A loop that is put where its fins are linked.
ghost use Rattle.std.specs.Prelude.{◌≡◌, ◌≢◌, [], ◌∷◌, IsTrue, None, Some};
ghost use Rattle.pk_base.specs.declared.entity.Entity.TheVariants as entity;
ghost use Rattle.pk_model.specs.Maps.{with_entity};
ghost use Rattle.pk_model.specs.Tags.{owns};
ghost use Rattle.entity_store.specs.Recording.{HasRoomFor};
ghost use Rattle.solid_model.specs.Rings.{first_tag, from_least};
ghost use Rattle.halfedge.specs.LinkedRings.{IsInRing, ring_at};
ghost use Rattle.entity_store.specs.Room.{PutsAmong};

use entity_store::{Recorder, Steps};
use halfedge::least_fin;
use pk_base::{Entity, Tag};
use std::sync::ledger::Ledger;

/// Puts the loop of the fin's ring, as one of this face.
pub fn put_loop<L: Ledger>(
    rec: &mut Recorder<'_>,
    loop_: Tag,
    face: Tag,
    fin: Tag,
    steps: &mut Steps<L>,
)
    requires ring { IsInRing rec.old.store.now.state.map fin }
    requires owned { IsTrue (owns rec.old.store.now.state.blocks loop_) }
    requires face_owned { IsTrue (owns rec.old.store.now.state.blocks face) }
    requires other { face ≢ loop_ }
    requires room { HasRoomFor rec.old.store.now.recording loop_ }
    ensures state { let first = first_tag (from_least (ring_at rec.old.store.now.state.map fin)) in
        rec.new.store.now.state ≡ record rec.old.store.now.state {
          map =
              with_entity rec.old.store.now.state.map loop_ (Some (entity.Loop face first None));
        } }
    ensures puts { PutsAmong (loop_ ∷ []) rec.old.store.now rec.new.store.now }
    ensures same_store { rec.new.store.ghost_name ≡ rec.old.store.ghost_name }
{
    let first = least_fin(rec, fin, steps);
    let made = Entity::Loop {
        face,
        first: Some(first),
        lone: None,
    };
    rec.put(loop_, Some(made), steps);
}
