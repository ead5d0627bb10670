//! A ring that is cut in two: an edge's fin and its mate are cut out of it.
ghost use Rattle.std.specs.Prelude.{◌≡◌, ◌≢◌, ◌∷◌, ◌++◌, [], IfSome, Contains};
ghost use Rattle.entity_store.specs.Room.{HasRoomForThese, PutsAmong};
ghost use Rattle.solid_model.specs.Rings.{ends_of};
ghost use Rattle.halfedge.specs.LinkedRings.{IsInRing, Relinks, mate_in, ring_at, ring_of_any};
ghost use Rattle.solid_edits.specs.EditedLoops.{fins_behind, fins_between, other_than as the_other_than};

use entity_store::{Recorder, Steps};
use halfedge::{cut_ring, ring_next};
use pk_base::Tag;
use std::sync::ledger::Ledger;

/// A fin of each part of a ring that was cut, where it is not empty.
#[derive(Clone, Copy, Drop)]
pub(crate) struct Parts {
    pub(crate) kept: Option<Tag>,
    pub(crate) off: Option<Tag>,
}

/// The tag, unless it is this one.
fn other_than(tag: Tag, one: Tag) -> Option<Tag>
    ensures { result ≡ the_other_than tag one }
{
    if tag == one { None } else { Some(tag) }
}

/// Cuts a fin and its mate out of their ring. Its result is a fin of each part. It takes no memory.
pub(crate) fn cut_out<L: Ledger>(
    rec: &mut Recorder<'_>,
    fin: Tag,
    mate: Tag,
    steps: &mut Steps<L>,
) -> Parts
    requires ring { IsInRing rec.old.store.now.state.map fin }
    requires mate { mate_in rec.old.store.now.state.map fin ≡ mate }
    requires among { Contains (ring_at rec.old.store.now.state.map fin) mate }
    requires other { mate ≢ fin }
    requires room { let m = rec.old.store.now.state.map in
        HasRoomForThese rec.old.store.now.recording
        (fin ∷ mate ∷ ends_of (fins_between m fin mate) ++ ends_of (fins_behind m fin mate)) }
    ensures links { let m = rec.old.store.now.state.map in
        Relinks m (ring_at m fin ∷ []) rec.new.store.now.state.map
        (fins_between m fin mate ∷ fins_behind m fin mate ∷ (fin ∷ []) ∷ (mate ∷ []) ∷ []) }
    ensures kept { ring_of_any rec.new.store.now.state.map result.kept
        ≡ fins_behind rec.old.store.now.state.map fin mate }
    ensures kept_ring { IfSome result.kept (IsInRing rec.new.store.now.state.map) }
    ensures off { ring_of_any rec.new.store.now.state.map result.off
        ≡ fins_between rec.old.store.now.state.map fin mate }
    ensures off_ring { IfSome result.off (IsInRing rec.new.store.now.state.map) }
    ensures state { rec.new.store.now.state ≡ record rec.old.store.now.state
        { map = rec.new.store.now.state.map } }
    ensures puts { let m = rec.old.store.now.state.map in
        PutsAmong
        (fin ∷ mate ∷ ends_of (fins_between m fin mate) ++ ends_of (fins_behind m fin mate))
        rec.old.store.now rec.new.store.now }
    ensures same_store { rec.new.store.ghost_name ≡ rec.old.store.ghost_name }
{
    let after_fin = ring_next(rec.view(), fin, steps);
    let after_mate = ring_next(rec.view(), mate, steps);
    cut_ring(rec, fin, steps);
    Parts {
        kept: other_than(after_mate, fin),
        off: other_than(after_fin, mate),
    }
}
