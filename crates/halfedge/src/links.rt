//! The links between fins, and the one step of which each change of rings is made: what comes
//! before two fins changes places.
ghost use Rattle.std.specs.Prelude.{◌≡◌, IsSome, IfSome, IfNone, ◌∷◌, []};
ghost use Rattle.halfedge.specs.Splices.{Joins, SetsNext, SetsPrev, Splices, spliced};
ghost use Rattle.halfedge.specs.LinkedRings.{IsInRing, next_at, prev_at, mate_in};
ghost use Rattle.entity_store.specs.Room.{HasRoomForThese, PutsAmong};

use crate::read::ring_next;
use entity_store::{Recorder, Steps, Store};
use pk_base::{Entity, Tag};
use std::sync::ledger::Ledger;

/// The fin before this one.
fn ring_prev<L: Ledger>(store: &Store, fin: Tag, steps: &mut Steps<L>) -> Tag
    requires { IsSome (prev_at store.now.state.map fin) }
    ensures { prev_at store.now.state.map fin ≡ Some result }
{
    let Some(Entity::Fin { prev, .. }) = store.get(fin, steps) else {
        unreachable!()
    };
    *prev
}

/// The fin's mate.
pub(crate) fn mate_of<L: Ledger>(store: &Store, fin: Tag, steps: &mut Steps<L>) -> Tag
    requires { IsSome (next_at store.now.state.map fin) }
    ensures { result ≡ mate_in store.now.state.map fin }
{
    let Some(Entity::Fin { mate, .. }) = store.get(fin, steps) else {
        unreachable!()
    };
    *mate
}

/// Names the fin that comes after this one.
fn set_next<L: Ledger>(rec: &mut Recorder<'_>, fin: Tag, to: Tag, steps: &mut Steps<L>)
    requires fin { IsSome (next_at rec.old.store.now.state.map fin) }
    requires room { HasRoomForThese rec.old.store.now.recording (fin ∷ []) }
    ensures links { SetsNext rec.old.store.now.state.map fin to rec.new.store.now.state.map }
    ensures state { rec.new.store.now.state ≡ record rec.old.store.now.state
        { map = rec.new.store.now.state.map } }
    ensures puts { PutsAmong (fin ∷ []) rec.old.store.now rec.new.store.now }
    ensures same_store { rec.new.store.ghost_name ≡ rec.old.store.ghost_name }
{
    // A fin and its loop stand in owned blocks.
    let _blocks = rec.view().blocks();
    let Some(
        Entity::Fin {
            loop_,
            prev,
            mate,
            edge,
            vertex,
            ..
        },
    ) = rec.get(fin, steps).copied()
    else {
        unreachable!()
    };
    let linked = Entity::Fin {
        loop_,
        next: to,
        prev,
        mate,
        edge,
        vertex,
    };
    rec.put(fin, Some(linked), steps);
}

/// Names the fin that comes before this one.
fn set_prev<L: Ledger>(rec: &mut Recorder<'_>, fin: Tag, to: Tag, steps: &mut Steps<L>)
    requires fin { IsSome (next_at rec.old.store.now.state.map fin) }
    requires room { HasRoomForThese rec.old.store.now.recording (fin ∷ []) }
    ensures links { SetsPrev rec.old.store.now.state.map fin to rec.new.store.now.state.map }
    ensures state { rec.new.store.now.state ≡ record rec.old.store.now.state
        { map = rec.new.store.now.state.map } }
    ensures puts { PutsAmong (fin ∷ []) rec.old.store.now rec.new.store.now }
    ensures same_store { rec.new.store.ghost_name ≡ rec.old.store.ghost_name }
{
    // A fin and its loop stand in owned blocks.
    let _blocks = rec.view().blocks();
    let Some(
        Entity::Fin {
            loop_,
            next,
            mate,
            edge,
            vertex,
            ..
        },
    ) = rec.get(fin, steps).copied()
    else {
        unreachable!()
    };
    let linked = Entity::Fin {
        loop_,
        next,
        prev: to,
        mate,
        edge,
        vertex,
    };
    rec.put(fin, Some(linked), steps);
}

/// Makes g the fin after f.
fn link<L: Ledger>(rec: &mut Recorder<'_>, f: Tag, g: Tag, steps: &mut Steps<L>)
    requires f { IsSome (next_at rec.old.store.now.state.map f) }
    requires g { IsSome (next_at rec.old.store.now.state.map g) }
    requires room { HasRoomForThese rec.old.store.now.recording (f ∷ g ∷ []) }
    ensures links { Joins rec.old.store.now.state.map f g rec.new.store.now.state.map }
    ensures state { rec.new.store.now.state ≡ record rec.old.store.now.state
        { map = rec.new.store.now.state.map } }
    ensures puts { PutsAmong (f ∷ g ∷ []) rec.old.store.now rec.new.store.now }
    ensures same_store { rec.new.store.ghost_name ≡ rec.old.store.ghost_name }
{
    set_next(rec, f, g, steps);
    set_prev(rec, g, f, steps);
}

/// What comes before f and what comes before g change places. The rings `f A` and `g B` become
/// `f A g B`, and the ring `f A g B` becomes `f A` and `g B`. Where f is g nothing changes.
pub(crate) fn splice<L: Ledger>(rec: &mut Recorder<'_>, f: Tag, g: Tag, steps: &mut Steps<L>)
    requires f { IsInRing rec.old.store.now.state.map f }
    requires g { IsInRing rec.old.store.now.state.map g }
    requires room { HasRoomForThese rec.old.store.now.recording
        (spliced rec.old.store.now.state.map f g) }
    ensures links { Splices rec.old.store.now.state.map f g rec.new.store.now.state.map }
    ensures state { rec.new.store.now.state ≡ record rec.old.store.now.state
        { map = rec.new.store.now.state.map } }
    ensures puts { PutsAmong (spliced rec.old.store.now.state.map f g)
        rec.old.store.now rec.new.store.now }
    ensures same_store { rec.new.store.ghost_name ≡ rec.old.store.ghost_name }
{
    let before_f = ring_prev(rec.view(), f, steps);
    let before_g = ring_prev(rec.view(), g, steps);
    link(rec, before_f, g, steps);
    link(rec, before_g, f, steps);
}

/// Takes a fin out of its ring. `f A` becomes A, where that is not empty, and f is a ring alone.
pub(crate) fn unhook<L: Ledger>(rec: &mut Recorder<'_>, f: Tag, steps: &mut Steps<L>)
    requires f { IsInRing rec.old.store.now.state.map f }
    requires room { IfSome (next_at rec.old.store.now.state.map f) (λ g.
        HasRoomForThese rec.old.store.now.recording
        (spliced rec.old.store.now.state.map f g)) }
    ensures links { IfSome (next_at rec.old.store.now.state.map f) (λ g.
        Splices rec.old.store.now.state.map f g rec.new.store.now.state.map) }
    ensures state { rec.new.store.now.state ≡ record rec.old.store.now.state
        { map = rec.new.store.now.state.map } }
    ensures puts { IfSome (next_at rec.old.store.now.state.map f) (λ g.
        PutsAmong (spliced rec.old.store.now.state.map f g)
        rec.old.store.now rec.new.store.now) }
    ensures same_store { rec.new.store.ghost_name ≡ rec.old.store.ghost_name }
{
    let next = ring_next(rec.view(), f, steps);
    splice(rec, f, next, steps);
}

/// Puts a ring, where there is one, behind a fin that is a ring alone. `f` and A become `f A`.
pub(crate) fn append<L: Ledger>(
    rec: &mut Recorder<'_>,
    f: Tag,
    ring: Option<Tag>,
    steps: &mut Steps<L>,
)
    requires f { IsInRing rec.old.store.now.state.map f }
    requires ring { IfSome ring (IsInRing rec.old.store.now.state.map) }
    requires room { IfSome ring (λ g. HasRoomForThese rec.old.store.now.recording
        (spliced rec.old.store.now.state.map f g)) }
    ensures links { IfSome ring (λ g.
        Splices rec.old.store.now.state.map f g rec.new.store.now.state.map) }
    ensures nothing { IfNone ring (rec.new.store.now ≡ rec.old.store.now) }
    ensures state { rec.new.store.now.state ≡ record rec.old.store.now.state
        { map = rec.new.store.now.state.map } }
    ensures puts { IfSome ring (λ g. PutsAmong (spliced rec.old.store.now.state.map f g)
        rec.old.store.now rec.new.store.now) }
    ensures same_store { rec.new.store.ghost_name ≡ rec.old.store.ghost_name }
{
    if let Some(first) = ring {
        splice(rec, f, first, steps);
    }
}
