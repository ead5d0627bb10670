//! The vertices of a body: counted, found, and moved.
ghost use Rattle.std.specs.Prelude.{◌≡◌, ◌+◌, ◌≤◌, ◌^◌, IfNone, IfSome, Some, false, find, length, not};
ghost use Rattle.std.specs.Option.{option_map_or};
ghost use Rattle.std.specs.FinMap.{get};
ghost use Rattle.pk_base.specs.declared.entity.Entity.TheVariants.{Vertex};
ghost use Rattle.std.specs.List.{flat_map};
ghost use Rattle.entity_store.specs.Room.{HasRoomForThese, PutsAmong};
ghost use Rattle.pk_plane.specs.Turns.{moved as the_moved};
ghost use Rattle.solid_model.specs.Motions.{points_of};
ghost use Rattle.solid_model.specs.Ranges.{coordinates_of, is_coordinate};
ghost use Rattle.solid_model.specs.Room.{vertices_in_body};
ghost use Rattle.solid_model.specs.Shapes.{shape_of};
ghost use Rattle.solid_model.specs.Sound.{IsSound};
ghost use Rattle.solid_places.specs.Points.{AreComponents, AreCoordinates};
ghost use Rattle.solid_motion.specs.Points.{IsMotion, point_by};
ghost use Rattle.solid_motion.specs.Vertices.{AreWithin, IsLeastWanted, MayBeWanted, MovesRun, MovesVertices, is_vertex_of, is_wanted as the_test, lesser as the_lesser, vertices_on};

use crate::points::{Motion, point_after};
use entity_store::{Recorder, Steps, Store};
use pk_base::{Class, Entity, Point, Tag, Triple};
use solid_places::{moved, outside};
use std::sync::ledger::Ledger;

/// How many numbers a tag may have.
const TAG_NUMBERS: u64 = 1 << 32;

/// Which vertices of a body are looked for.
#[derive(Clone, Copy)]
pub(crate) enum Wanted {
    /// Those whose tag has this number or a greater one.
    From(u64),
    /// Those that this vector would bring out of range.
    Outside(Triple),
}

/// How many vertices the body has. It takes no memory.
pub(crate) fn count_vertices<L: Ledger>(store: &Store, body: Tag, steps: &mut Steps<L>) -> usize
    requires { IsSound store.now.state.map }
    ensures { result ≡ length (vertices_in_body (shape_of store.now.state.map) body) }
{
    // Its clauses say that the blocks own the tag of each entity, so there are few.
    let _blocks = store.blocks();
    let mut kids = store.kids(body);
    let mut count: usize = 0;
    while let Some((_, kid)) = kids.next(steps) {
        if kid.class() == Class::Vertex {
            count += 1;
        }
    }
    count
}

/// The first sum of the vector and a vertex of the body that is no coordinate, vertices ascending
/// by their tags, x, y and z of each. It takes no memory.
pub(crate) fn sum_outside<L: Ledger>(
    store: &Store,
    body: Tag,
    by: Triple,
    steps: &mut Steps<L>,
) -> Option<i64>
    requires sound { IsSound store.now.state.map }
    requires vector { AreComponents by }
    ensures { result ≡ find (λ v. not (is_coordinate v)) (flat_map
        (λ p. coordinates_of (the_moved by p)) (points_of (shape_of store.now.state.map) body)) }
{
    let (_, point) = least_vertex(store, body, Wanted::Outside(by), steps)?;
    outside(moved(by, point))
}

/// Of the vertices of the body that are looked for the one with the least tag, with its point. It
/// takes no memory.
pub(crate) fn least_vertex<L: Ledger>(
    store: &Store,
    body: Tag,
    wanted: Wanted,
    steps: &mut Steps<L>,
) -> Option<(Tag, Point)>
    requires { MayBeWanted wanted }
    ensures { IsLeastWanted store.now.state.map body wanted result }
{
    let mut kids = store.kids(body);
    let mut least = None;
    while let Some((tag, kid)) = kids.next(steps) {
        if let Entity::Vertex { point, .. } = kid {
            if is_wanted(wanted, tag, *point) {
                least = lesser(least, tag, *point);
            }
        }
    }
    least
}

/// Whether a vertex with this tag and point is looked for.
fn is_wanted(wanted: Wanted, tag: Tag, point: Point) -> bool
    requires { MayBeWanted wanted }
    ensures { result ≡ the_test wanted tag point }
{
    match wanted {
        Wanted::From(least) => least <= u64::from(tag.0),
        Wanted::Outside(by) => outside(moved(by, point)).is_some(),
    }
}

/// The one of the two that has the lesser tag.
fn lesser(least: Option<(Tag, Point)>, tag: Tag, point: Point) -> Option<(Tag, Point)>
    ensures { result ≡ the_lesser least (tag, point) }
{
    match least {
        Some((least_tag, _)) if least_tag.0 < tag.0 => least,
        Some(_) | None => Some((tag, point)),
    }
}

/// Moves every vertex of the body, and changes nothing else. It takes no memory.
pub(crate) fn move_vertices<L: Ledger>(
    rec: &mut Recorder<'_>,
    body: Tag,
    motion: Motion,
    steps: &mut Steps<L>,
)
    requires sound { IsSound rec.old.store.now.state.map }
    requires motion { IsMotion motion }
    requires within { AreWithin (point_by motion) body rec.old.store.now.state.map }
    requires room { HasRoomForThese rec.old.store.now.recording
        (vertices_in_body (shape_of rec.old.store.now.state.map) body) }
    ensures moves { MovesVertices (point_by motion) body rec.old.store.now.state.map
        rec.new.store.now.state.map }
    ensures state { rec.new.store.now.state ≡ record rec.old.store.now.state
        { map = rec.new.store.now.state.map } }
    ensures puts { PutsAmong (vertices_in_body (shape_of rec.old.store.now.state.map) body)
        rec.old.store.now rec.new.store.now }
    ensures same_store { rec.new.store.ghost_name ≡ rec.old.store.ghost_name }
{
    // A walk over the body's kids cannot go on while the store changes. So it finds the next vertex
    // alone, and the tags behind it are tried one by one. As many are tried as there are vertices,
    // so that the walks take about as long as the tries.
    let run = (count_vertices(rec.view(), body, steps) as u64).saturating_add(1);
    let mut from = 0;
    while let Some((tag, _)) = least_vertex(rec.view(), body, Wanted::From(from), steps) {
        let first = u64::from(tag.0);
        let end = first.saturating_add(run).min(TAG_NUMBERS);
        move_run(rec, body, motion, first, end, steps);
        from = end;
    }
}

/// Moves the vertices of the body whose tags have numbers from the first to below the end.
fn move_run<L: Ledger>(
    rec: &mut Recorder<'_>,
    body: Tag,
    motion: Motion,
    first: u64,
    end: u64,
    steps: &mut Steps<L>,
)
    requires motion { IsMotion motion }
    requires numbers { end ≤ 2 ^ 32 }
    requires order { first ≤ end }
    requires within { (t : Tag) (p : Point) → first ≤ t.0
        → get rec.old.store.now.state.map t ≡ Some (Vertex body p)
        → AreCoordinates p × AreCoordinates (point_by motion p) }
    requires room { HasRoomForThese rec.old.store.now.recording
        (vertices_on rec.old.store.now.state.map body) }
    ensures moves { MovesRun (point_by motion) body first end rec.old.store.now
        rec.new.store.now }
    ensures same_store { rec.new.store.ghost_name ≡ rec.old.store.ghost_name }
{
    for number in first..end {
        move_at(rec, body, motion, Tag(number as u32), steps);
    }
}

/// Moves what stands under a tag, where it is a vertex of the body.
fn move_at<L: Ledger>(
    rec: &mut Recorder<'_>,
    body: Tag,
    motion: Motion,
    tag: Tag,
    steps: &mut Steps<L>,
)
    requires motion { IsMotion motion }
    requires within { (p : Point) → get rec.old.store.now.state.map tag ≡ Some (Vertex body p)
        → AreCoordinates p × AreCoordinates (point_by motion p) }
    requires room { HasRoomForThese rec.old.store.now.recording
        (vertices_on rec.old.store.now.state.map body) }
    ensures moves { MovesRun (point_by motion) body tag.0 (tag.0 + 1) rec.old.store.now
        rec.new.store.now }
    ensures same_store { rec.new.store.ghost_name ≡ rec.old.store.ghost_name }
{
    if let Some(point) = vertex_at(rec.view(), body, tag, steps) {
        // Each live entity stands in an owned block.
        let _blocks = rec.view().blocks();
        let point = point_after(motion, point);
        rec.put(tag, Some(Entity::Vertex { body, point }), steps);
    }
}

/// The point of a vertex of the body.
fn vertex_at<L: Ledger>(store: &Store, body: Tag, tag: Tag, steps: &mut Steps<L>) -> Option<Point>
    ensures some { IfSome result (λ p. get store.now.state.map tag ≡ Some (Vertex body p)) }
    ensures none { IfNone result (option_map_or (is_vertex_of body)
        (get store.now.state.map tag) false ≡ false) }
{
    match store.get(tag, steps) {
        Some(Entity::Vertex { body: of, point }) if *of == body => Some(*point),
        Some(_) | None => None,
    }
}
