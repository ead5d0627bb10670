//! What the second operator needs, read from the store before the first.
ghost use Rattle.std.specs.Prelude.{◌≡◌, IsOk, Some, option_copied, unwrap_or};
ghost use Rattle.std.specs.FinMap.{get};
ghost use Rattle.pk_base.specs.declared.entity.Entity.TheVariants as entity;
ghost use Rattle.pk_base.specs.declared.entity.Point.{Point};
ghost use Rattle.pk_base.specs.declared.tag.Tag.{Tag};
ghost use Rattle.solid_model.specs.Kemr.{kemr};
ghost use Rattle.solid_model.specs.Kev.{kev};
ghost use Rattle.solid_model.specs.Kfmrh.{kfmrh};
ghost use Rattle.solid_model.specs.Kvfs.{kvfs};
ghost use Rattle.solid_model.specs.Mfkrh.{mfkrh};
ghost use Rattle.solid_model.specs.Owners.{owner_in};
ghost use Rattle.solid_model.specs.Places.{fin_at as the_fin_at, mate_at, outer_at};
ghost use Rattle.solid_model.specs.Rings.{first_tag};
ghost use Rattle.solid_model.specs.Shapes.{shape_of};
ghost use Rattle.solid_model.specs.Sound.{IsSound};
ghost use Rattle.euler_laws.specs.Operands.{end_left as the_end_left};
ghost use Rattle.euler_laws.specs.Operands.{point_beyond as the_point_beyond};
ghost use Rattle.euler_laws.specs.Operands.{fin_after as the_fin_after, kept_end as the_kept_end};
ghost use Rattle.euler_laws.specs.Operands.{point_of_body as the_point_of_body};
ghost use Rattle.euler_laws.specs.Operands.{fins_between, point_read, triple_of};

use entity_store::{Steps, Store};
use halfedge::ring_next;
use pk_base::{Entity, Point, Tag, Triple};
use solid_places::{face_at, fin_at, loop_at};
use std::sync::ledger::Ledger;

/// The face of a ring that mfkrh does not refuse.
pub(crate) fn face_of<L: Ledger>(store: &Store, ring: Tag, steps: &mut Steps<L>) -> Tag
    requires sound { IsSound store.now.state.map }
    requires goes { IsOk (mfkrh (shape_of store.now.state.map) ring) }
    ensures { result ≡ owner_in (shape_of store.now.state.map) ring }
{
    let Ok(placed) = loop_at(store, ring, steps) else {
        unreachable!()
    };
    placed.face
}

/// The outer loop of a face that kfmrh does not refuse to kill.
pub(crate) fn outer_of<L: Ledger>(store: &Store, keep: Tag, kill: Tag, steps: &mut Steps<L>) -> Tag
    requires sound { IsSound store.now.state.map }
    requires goes { IsOk (kfmrh (shape_of store.now.state.map) keep kill) }
    ensures { result ≡ outer_at (shape_of store.now.state.map) kill }
{
    let Ok(placed) = face_at(store, kill, steps) else {
        unreachable!()
    };
    placed.outer
}

/// The end that is left where kev kills the edge of the fin: the fin after the edge, or the loop.
pub(crate) fn end_left<L: Ledger>(store: &Store, fin: Tag, steps: &mut Steps<L>) -> Tag
    requires sound { IsSound store.now.state.map }
    requires goes { IsOk (kev (shape_of store.now.state.map) fin) }
    ensures { result ≡ the_end_left (shape_of store.now.state.map) fin }
{
    let Ok(placed) = fin_at(store, fin, steps) else {
        unreachable!()
    };
    let next = ring_next(store, placed.mate, steps);
    if next == fin { placed.loop_ } else { next }
}

/// The point where the mate of the fin starts.
pub(crate) fn point_beyond<L: Ledger>(store: &Store, fin: Tag, steps: &mut Steps<L>) -> Triple
    requires sound { IsSound store.now.state.map }
    requires goes { IsOk (kev (shape_of store.now.state.map) fin) }
    ensures { result ≡ the_point_beyond (shape_of store.now.state.map) fin }
{
    let Ok(placed) = fin_at(store, fin, steps) else {
        unreachable!()
    };
    let Ok(beyond) = fin_at(store, placed.mate, steps) else {
        unreachable!()
    };
    let point = point_of(store.get(beyond.vertex, steps)).unwrap();
    as_triple(point)
}

/// The point of a vertex.
fn point_of(entity: Option<&Entity>) -> Option<Point>
    ensures { result ≡ point_read (option_copied entity.entry) }
{
    match entity? {
        Entity::Vertex { point, .. } => Some(*point),
        Entity::Body { .. }
        | Entity::Shell { .. }
        | Entity::Face { .. }
        | Entity::Loop { .. }
        | Entity::Fin { .. }
        | Entity::Edge { .. }
        | Entity::Attr { .. } => None,
    }
}

/// A point, as it is given to a call.
fn as_triple(point: Point) -> Triple
    ensures { result ≡ triple_of point }
{
    Triple {
        x: i64::from(point.x),
        y: i64::from(point.y),
        z: i64::from(point.z),
    }
}

/// The mate of a fin.
pub(crate) fn mate_of<L: Ledger>(store: &Store, fin: Tag, steps: &mut Steps<L>) -> Tag
    requires sound { IsSound store.now.state.map }
    requires live { IsOk (the_fin_at (shape_of store.now.state.map) fin) }
    ensures { result ≡ mate_at (shape_of store.now.state.map) fin }
{
    let Ok(placed) = fin_at(store, fin, steps) else {
        unreachable!()
    };
    placed.mate
}

/// The fin after a fin in its loop.
pub(crate) fn fin_after<L: Ledger>(store: &Store, fin: Tag, steps: &mut Steps<L>) -> Tag
    requires sound { IsSound store.now.state.map }
    requires live { IsOk (the_fin_at (shape_of store.now.state.map) fin) }
    ensures { result ≡ the_fin_after (shape_of store.now.state.map) fin }
{
    let Ok(_placed) = fin_at(store, fin, steps) else {
        unreachable!()
    };
    ring_next(store, fin, steps)
}

/// The end that stays in the loop where kemr kills the edge of the fin: the fin after its mate, or
/// the loop.
pub(crate) fn kept_end<L: Ledger>(store: &Store, fin: Tag, steps: &mut Steps<L>) -> Tag
    requires sound { IsSound store.now.state.map }
    requires goes { IsOk (kemr (shape_of store.now.state.map) fin) }
    ensures { result ≡ the_kept_end (shape_of store.now.state.map) fin }
{
    let Ok(placed) = fin_at(store, fin, steps) else {
        unreachable!()
    };
    let next = ring_next(store, placed.mate, steps);
    if next == fin { placed.loop_ } else { next }
}

/// The fin after a fin that kemr kills, where that is not its mate.
pub(crate) fn first_between<L: Ledger>(store: &Store, fin: Tag, steps: &mut Steps<L>) -> Option<Tag>
    requires sound { IsSound store.now.state.map }
    requires goes { IsOk (kemr (shape_of store.now.state.map) fin) }
    ensures { result ≡ first_tag (fins_between (shape_of store.now.state.map) fin) }
{
    let Ok(placed) = fin_at(store, fin, steps) else {
        unreachable!()
    };
    let next = ring_next(store, fin, steps);
    if next == placed.mate {
        None
    } else {
        Some(next)
    }
}

/// The first of some fins, or the ring where there is none.
pub(crate) fn or_ring(first: Option<Tag>, ring: Tag) -> Tag
    ensures { result ≡ unwrap_or first ring }
{
    match first {
        Some(fin) => fin,
        None => ring,
    }
}

/// The point of the one vertex of a body that kvfs does not refuse to kill.
pub(crate) fn point_of_body<L: Ledger>(store: &Store, body: Tag, steps: &mut Steps<L>) -> Triple
    requires sound { IsSound store.now.state.map }
    requires goes { IsOk (kvfs (shape_of store.now.state.map) body) }
    ensures { result ≡ the_point_of_body (shape_of store.now.state.map) body }
{
    let vertex = vertex_of(store, body, steps);
    let point = point_of(store.get(vertex, steps)).unwrap();
    as_triple(point)
}

/// A vertex of a body that has one.
fn vertex_of<L: Ledger>(store: &Store, body: Tag, steps: &mut Steps<L>) -> Tag
    requires { (vertex : Tag) × (point : Point)
        × (get store.now.state.map vertex ≡ Some (entity.Vertex body point)) }
    ensures { (point : Point) × (get store.now.state.map result ≡ Some (entity.Vertex body point)) }
{
    let mut walk = store.kids(body);
    while let Some((tag, kid)) = walk.next(steps) {
        if let Entity::Vertex { .. } = kid {
            return tag;
        }
    }
    unreachable!()
}
