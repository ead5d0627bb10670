//! The outer loop of a face, read: its fins, and the points where they start.
ghost use Rattle.std.specs.Prelude.{◌≡◌, IfSome, Some, length};
ghost use Rattle.pk_base.specs.declared.entity.Class.TheVariants as class;
ghost use Rattle.solid_model.specs.Places.{fins_at, outer_at, point_at, start_at};
ghost use Rattle.solid_model.specs.Rings.{first_tag};
ghost use Rattle.solid_model.specs.Shapes.{shape_of};
ghost use Rattle.solid_model.specs.Sound.{IsSound, class_at};
ghost use Rattle.halfedge.specs.LinkedRings.{IsInRing, ring_of_any};
ghost use Rattle.euler_make.specs.Raising.{outer_fins};

use entity_store::{Steps, Store};
use halfedge::ring_len;
use pk_base::{Entity, Point, Tag};
use std::sync::ledger::Ledger;

/// How many fins the outer loop of a face has.
pub(crate) fn count_fins<L: Ledger>(store: &Store, face: Tag, steps: &mut Steps<L>) -> usize
    requires sound { IsSound store.now.state.map }
    requires face { class_at (shape_of store.now.state.map) face ≡ Some class.Face }
    ensures { result ≡ length (outer_fins (shape_of store.now.state.map) face) }
{
    match first_of_outer(store, face, steps) {
        Some(first) => ring_len(store, first, steps),
        None => 0,
    }
}

/// The first fin of the outer loop of a face, where it has fins.
pub(crate) fn first_of_outer<L: Ledger>(
    store: &Store,
    face: Tag,
    steps: &mut Steps<L>,
) -> Option<Tag>
    requires sound { IsSound store.now.state.map }
    requires face { class_at (shape_of store.now.state.map) face ≡ Some class.Face }
    ensures first { first_tag (outer_fins (shape_of store.now.state.map) face) ≡ result }
    ensures ring { IfSome result (IsInRing store.now.state.map) }
    ensures fins { ring_of_any store.now.state.map result
        ≡ outer_fins (shape_of store.now.state.map) face }
{
    let outer = outer_of(store, face, steps);
    first_of_loop(store, outer, steps)
}

/// The outer loop of a face.
fn outer_of<L: Ledger>(store: &Store, face: Tag, steps: &mut Steps<L>) -> Tag
    requires sound { IsSound store.now.state.map }
    requires face { class_at (shape_of store.now.state.map) face ≡ Some class.Face }
    ensures outer { result ≡ outer_at (shape_of store.now.state.map) face }
    ensures class { class_at (shape_of store.now.state.map) result ≡ Some class.Loop }
{
    let entity = store.get(face, steps).unwrap();
    let Entity::Face { outer, .. } = entity else {
        unreachable!()
    };
    *outer
}

/// The first fin of a loop, where it has fins.
fn first_of_loop<L: Ledger>(store: &Store, loop_: Tag, steps: &mut Steps<L>) -> Option<Tag>
    requires sound { IsSound store.now.state.map }
    requires loop_ { class_at (shape_of store.now.state.map) loop_ ≡ Some class.Loop }
    ensures first { first_tag (fins_at (shape_of store.now.state.map) loop_) ≡ result }
    ensures ring { IfSome result (IsInRing store.now.state.map) }
    ensures fins { ring_of_any store.now.state.map result
        ≡ fins_at (shape_of store.now.state.map) loop_ }
{
    let entity = store.get(loop_, steps).unwrap();
    let Entity::Loop { first, .. } = entity else {
        unreachable!()
    };
    *first
}

/// The point where a fin starts.
pub(crate) fn start_of<L: Ledger>(store: &Store, fin: Tag, steps: &mut Steps<L>) -> Point
    requires sound { IsSound store.now.state.map }
    requires fin { class_at (shape_of store.now.state.map) fin ≡ Some class.Fin }
    ensures { result ≡ point_at (shape_of store.now.state.map)
        (start_at (shape_of store.now.state.map) fin) }
{
    let vertex = vertex_of(store, fin, steps);
    point_of_vertex(store, vertex, steps)
}

/// The vertex where a fin starts.
fn vertex_of<L: Ledger>(store: &Store, fin: Tag, steps: &mut Steps<L>) -> Tag
    requires sound { IsSound store.now.state.map }
    requires fin { class_at (shape_of store.now.state.map) fin ≡ Some class.Fin }
    ensures vertex { result ≡ start_at (shape_of store.now.state.map) fin }
    ensures class { class_at (shape_of store.now.state.map) result ≡ Some class.Vertex }
{
    let entity = store.get(fin, steps).unwrap();
    let Entity::Fin { vertex, .. } = entity else {
        unreachable!()
    };
    *vertex
}

/// The point of a vertex.
fn point_of_vertex<L: Ledger>(store: &Store, vertex: Tag, steps: &mut Steps<L>) -> Point
    requires sound { IsSound store.now.state.map }
    requires vertex { class_at (shape_of store.now.state.map) vertex ≡ Some class.Vertex }
    ensures { result ≡ point_at (shape_of store.now.state.map) vertex }
{
    let entity = store.get(vertex, steps).unwrap();
    let Entity::Vertex { point, .. } = entity else {
        unreachable!()
    };
    *point
}
