//! How rings are made of rings. Small letters are fins, capital letters are runs of fins, maybe
//! empty; a ring is written from any of its fins.
ghost use Rattle.std.specs.Prelude.{◌≡◌, ◌≢◌, ◌++◌, ◌∷◌, [], drop, IfSome, Contains};
ghost use Rattle.pk_model.specs.Apart.{NoRepeats};
ghost use Rattle.solid_model.specs.Rings.{before, from as from_fin, ends_of};
ghost use Rattle.halfedge.specs.LinkedRings.{IsInRing, IsRing, Relinks, mate_in, ring_at, ring_of_any};
ghost use Rattle.entity_store.specs.Room.{HasRoomForThese, PutsAmong};

use crate::links::{append, mate_of, splice, unhook};
use entity_store::{Recorder, Steps};
use pk_base::Tag;
use std::sync::ledger::Ledger;

/// Puts a fin and its mate, each a ring alone, between two rings, which become one. With B the ring
/// from `at` on and A the ring from `ring` on, each empty where there is no such fin, it is `out A
/// back B`. It takes no memory.
pub fn insert_pair<L: Ledger>(
    rec: &mut Recorder<'_>,
    at: Option<Tag>,
    ring: Option<Tag>,
    out: Tag,
    back: Tag,
    steps: &mut Steps<L>,
)
    requires at { IfSome at (IsInRing rec.old.store.now.state.map) }
    requires ring { IfSome ring (IsInRing rec.old.store.now.state.map) }
    requires out { IsRing rec.old.store.now.state.map (out ∷ []) }
    requires back { IsRing rec.old.store.now.state.map (back ∷ []) }
    requires apart { let a = ring_of_any rec.old.store.now.state.map ring in
        let b = ring_of_any rec.old.store.now.state.map at in
        NoRepeats (out ∷ a ++ back ∷ b) }
    requires room { let a = ring_of_any rec.old.store.now.state.map ring in
        let b = ring_of_any rec.old.store.now.state.map at in
        HasRoomForThese rec.old.store.now.recording (out ∷ back ∷ ends_of a ++ ends_of b) }
    ensures links { let a = ring_of_any rec.old.store.now.state.map ring in
        let b = ring_of_any rec.old.store.now.state.map at in
        Relinks rec.old.store.now.state.map (a ∷ b ∷ (out ∷ []) ∷ (back ∷ []) ∷ [])
        rec.new.store.now.state.map ((out ∷ a ++ back ∷ b) ∷ []) }
    ensures state { rec.new.store.now.state ≡ record rec.old.store.now.state
        { map = rec.new.store.now.state.map } }
    ensures puts { let a = ring_of_any rec.old.store.now.state.map ring in
        let b = ring_of_any rec.old.store.now.state.map at in
        PutsAmong (out ∷ back ∷ ends_of a ++ ends_of b)
        rec.old.store.now rec.new.store.now }
    ensures same_store { rec.new.store.ghost_name ≡ rec.old.store.ghost_name }
{
    append(rec, out, ring, steps);
    append(rec, back, at, steps);
    splice(rec, out, back, steps);
}

/// Parts a ring at two of its fins. `from A to B` becomes the rings `from A x` and `to B y`, where
/// x and y are each a ring alone before. It takes no memory.
pub fn split_ring<L: Ledger>(
    rec: &mut Recorder<'_>,
    from: Tag,
    to: Tag,
    x: Tag,
    y: Tag,
    steps: &mut Steps<L>,
)
    requires ring { IsInRing rec.old.store.now.state.map from }
    requires among { Contains (ring_at rec.old.store.now.state.map from) to }
    requires other { from ≢ to }
    requires x { IsRing rec.old.store.now.state.map (x ∷ []) }
    requires y { IsRing rec.old.store.now.state.map (y ∷ []) }
    requires apart { NoRepeats (ring_at rec.old.store.now.state.map from ++ x ∷ y ∷ []) }
    requires room { let ring = ring_at rec.old.store.now.state.map from in
        HasRoomForThese rec.old.store.now.recording
        (x ∷ y ∷ ends_of (before to ring) ++ ends_of (from_fin to ring)) }
    ensures links { let ring = ring_at rec.old.store.now.state.map from in
        Relinks rec.old.store.now.state.map (ring ∷ (x ∷ []) ∷ (y ∷ []) ∷ [])
        rec.new.store.now.state.map
        ((before to ring ++ x ∷ []) ∷ (from_fin to ring ++ y ∷ []) ∷ []) }
    ensures state { rec.new.store.now.state ≡ record rec.old.store.now.state
        { map = rec.new.store.now.state.map } }
    ensures puts { let ring = ring_at rec.old.store.now.state.map from in
        PutsAmong (x ∷ y ∷ ends_of (before to ring) ++ ends_of (from_fin to ring))
        rec.old.store.now rec.new.store.now }
    ensures same_store { rec.new.store.ghost_name ≡ rec.old.store.ghost_name }
{
    splice(rec, from, to, steps);
    splice(rec, from, x, steps);
    splice(rec, to, y, steps);
}

/// Joins the rings of a fin x and of its mate y, which are two. `x P` and `y Q` become `P Q`, where
/// that is not empty, and x and y are each a ring alone. It takes no memory.
pub fn join_rings<L: Ledger>(rec: &mut Recorder<'_>, x: Tag, steps: &mut Steps<L>)
    requires x { IsInRing rec.old.store.now.state.map x }
    requires y { IsInRing rec.old.store.now.state.map (mate_in rec.old.store.now.state.map x) }
    requires apart { let m = rec.old.store.now.state.map in
        NoRepeats (ring_at m x ++ ring_at m (mate_in m x)) }
    requires room { let m = rec.old.store.now.state.map in
        let y = mate_in m x in
        HasRoomForThese rec.old.store.now.recording
        (x ∷ y ∷ ends_of (drop 1 (ring_at m x)) ++ ends_of (drop 1 (ring_at m y))) }
    ensures links { let m = rec.old.store.now.state.map in
        let y = mate_in m x in
        Relinks m (ring_at m x ∷ ring_at m y ∷ []) rec.new.store.now.state.map
        ((drop 1 (ring_at m x) ++ drop 1 (ring_at m y)) ∷ (x ∷ []) ∷ (y ∷ []) ∷ []) }
    ensures state { rec.new.store.now.state ≡ record rec.old.store.now.state
        { map = rec.new.store.now.state.map } }
    ensures puts { let m = rec.old.store.now.state.map in
        let y = mate_in m x in
        PutsAmong (x ∷ y ∷ ends_of (drop 1 (ring_at m x)) ++ ends_of (drop 1 (ring_at m y)))
        rec.old.store.now rec.new.store.now }
    ensures same_store { rec.new.store.ghost_name ≡ rec.old.store.ghost_name }
{
    let y = mate_of(rec.view(), x, steps);
    splice(rec, x, y, steps);
    unhook(rec, x, steps);
    unhook(rec, y, steps);
}

/// Cuts a fin and its mate m out of their ring. `fin A m B` becomes the rings A and B, each where
/// it is not empty, and the fin and m are each a ring alone. It takes no memory.
pub fn cut_ring<L: Ledger>(rec: &mut Recorder<'_>, fin: Tag, steps: &mut Steps<L>)
    requires ring { IsInRing rec.old.store.now.state.map fin }
    requires among { let m = rec.old.store.now.state.map in
        Contains (ring_at m fin) (mate_in m fin) }
    requires other { mate_in rec.old.store.now.state.map fin ≢ fin }
    requires room { let m = rec.old.store.now.state.map in
        let mate = mate_in m fin in
        HasRoomForThese rec.old.store.now.recording
        (fin ∷ mate ∷ ends_of (drop 1 (before mate (ring_at m fin)))
        ++ ends_of (drop 1 (from_fin mate (ring_at m fin)))) }
    ensures links { let m = rec.old.store.now.state.map in
        let mate = mate_in m fin in
        Relinks m (ring_at m fin ∷ []) rec.new.store.now.state.map
        (drop 1 (before mate (ring_at m fin)) ∷ drop 1 (from_fin mate (ring_at m fin))
        ∷ (fin ∷ []) ∷ (mate ∷ []) ∷ []) }
    ensures state { rec.new.store.now.state ≡ record rec.old.store.now.state
        { map = rec.new.store.now.state.map } }
    ensures puts { let m = rec.old.store.now.state.map in
        let mate = mate_in m fin in
        PutsAmong (fin ∷ mate ∷ ends_of (drop 1 (before mate (ring_at m fin)))
        ++ ends_of (drop 1 (from_fin mate (ring_at m fin))))
        rec.old.store.now rec.new.store.now }
    ensures same_store { rec.new.store.ghost_name ≡ rec.old.store.ghost_name }
{
    let mate = mate_of(rec.view(), fin, steps);
    splice(rec, fin, mate, steps);
    unhook(rec, fin, steps);
    unhook(rec, mate, steps);
}
