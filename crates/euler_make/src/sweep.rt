//! A sweep.
ghost use Rattle.std.specs.Prelude.{◌≡◌, ◌^◌, Some, find, int_lt, not, pos};
ghost use Rattle.std.specs.List.{flat_map};
ghost use Rattle.pk_base.specs.declared.call.Call.TheVariants.{Sweep};
ghost use Rattle.pk_base.specs.declared.entity.Class.TheVariants as class;
ghost use Rattle.pk_plane.specs.Sizes.{IsTripleWithin};
ghost use Rattle.pk_plane.specs.Turns.{moved as the_moved};
ghost use Rattle.pk_plane.specs.Vectors.{dot as the_dot, plus as the_plus, vector};
ghost use Rattle.entity_store.specs.NextTags.{left};
ghost use Rattle.solid_model.specs.Newell.{newell as the_newell, starts_of};
ghost use Rattle.solid_model.specs.Places.{outer_at};
ghost use Rattle.solid_model.specs.Ranges.{coordinates_of, is_coordinate};
ghost use Rattle.solid_model.specs.Rows.{cost_of};
ghost use Rattle.solid_model.specs.Shapes.{shape_of};
ghost use Rattle.solid_model.specs.Sound.{IsSound, class_at};
ghost use Rattle.solid_places.specs.Points.{AreComponents};
ghost use Rattle.solid_calls.specs.Pairs.{HasDone, HasTags, MayDo, NeedsAsRow, Takes, row_on};

use crate::outline::{count_fins, first_of_outer, start_of};
use crate::raise::raise_face;
use entity_store::{Need, Recorder, Steps, Store, Tags};
use halfedge::ring_next;
use pk_base::{Refusal, Tag, TagListBuilder, Triple};
use pk_plane::{cross, dot};
use solid_places::{face_at, has_rings, moved, outside, too_far};
use std::sync::ledger::Ledger;

/// How many tags are taken for each fin.
const TAGS_OF_A_FIN: usize = 9;

/// What `sweep_do` needs, or why it is refused. It takes no memory.
pub fn sweep_need<L: Ledger>(
    store: &Store,
    face: Tag,
    by: Triple,
    steps: &mut Steps<L>,
) -> Result<Need, Refusal>
    requires { IsSound store.now.state.map }
    ensures { NeedsAsRow store.now.state.map (Sweep face by) result }
{
    // The blocks bound how many fins there are.
    let _blocks = store.blocks();
    face_at(store, face, steps)?;
    if has_rings(store, face, steps) {
        return Err(Refusal::HasRings(face));
    }
    if let Some(component) = too_far(by) {
        return Err(Refusal::OutOfRange(component));
    }
    if let Some(sum) = sum_outside(store, face, by, steps) {
        return Err(Refusal::OutOfRange(sum));
    }
    if !points_out(store, face, by, steps) {
        return Err(Refusal::FlatSweep);
    }
    let fins = count_fins(store, face, steps);
    let tags = TAGS_OF_A_FIN * fins;
    Ok(Need {
        tags: tags as u64,
        changes: tags + 1 + fins,
        list: tags,
    })
}

/// Sweeps a face without rings by a vector that points out of it: the face moves along the vector,
/// and leaves a side face behind each edge of its outer loop.
///
/// Before, the loop is `f1 .. fn`, from its first fin. After, it is `y1 .. yn`, in the same face,
/// which starts where the starts of f1 to fn are moved by the vector. Side face i has the loop
/// `bi fi o(i+1) xi`, the last one `bn fn o1 xn`; oi starts where fi does, and bi at its moved
/// start.
///
/// Takes, for i from 1 to n, four tags: vertex, edge, oi, bi; and then, for i from 1 to n, five:
/// face, loop, edge, xi, yi. It takes no memory.
///
/// Refuses, in this order: a tag that is not live (`NoSuchTag`); one that is no face
/// (`WrongClass`); a face with more than one loop (`HasRings` with the face); the first of x, y and
/// z of the vector that is not from -2,097,152 to 2,097,152 (`OutOfRange` with it); the first sum
/// that is out of the range of coordinates, starts in the loop's order, x, y and z of each
/// (`OutOfRange` with the sum); a vector that does not point out of the face (`FlatSweep`): its
/// product with the Newell vector of the loop, which is the sum of the products of each start with
/// the next one, is not positive. A refusal changes nothing: `sweep_need` tells it.
pub fn sweep_do<L: Ledger>(
    rec: &mut Recorder<'_>,
    face: Tag,
    by: Triple,
    tags: &mut Tags<'_>,
    out: &mut TagListBuilder,
    steps: &mut Steps<L>,
)
    requires may { MayDo rec.old.store.now (Sweep face by) (left tags.old) }
    requires tags { HasTags rec.old.store.now
        (cost_of (row_on rec.old.store.now.state.map (Sweep face by))) tags.old out.old }
    ensures done { HasDone rec.old.store.now (Sweep face by) (left tags.old) rec.new.store.now }
    ensures takes { Takes (cost_of (row_on rec.old.store.now.state.map (Sweep face by)))
        tags.old out.old tags.new out.new }
    ensures same_store { rec.new.store.ghost_name ≡ rec.old.store.ghost_name }
{
    raise_face(rec, face, by, tags, out, steps);
}

/// The first sum of the vector and a start of the outer loop of a face that is no coordinate, from
/// the first fin on, x, y and z of each.
fn sum_outside<L: Ledger>(store: &Store, face: Tag, by: Triple, steps: &mut Steps<L>) -> Option<i64>
    requires sound { IsSound store.now.state.map }
    requires face { class_at (shape_of store.now.state.map) face ≡ Some class.Face }
    requires vector { AreComponents by }
    ensures { result ≡ find (λ v. not (is_coordinate v)) (flat_map
        (λ p. coordinates_of (the_moved by p))
        (starts_of (shape_of store.now.state.map)
        (outer_at (shape_of store.now.state.map) face))) }
{
    let fins = count_fins(store, face, steps);
    let mut fin = first_of_outer(store, face, steps)?;
    for _ in 0..fins {
        let sum = outside(moved(by, start_of(store, fin, steps)));
        if sum.is_some() {
            return sum;
        }
        fin = ring_next(store, fin, steps);
    }
    None
}

/// Whether the vector points out of a face.
fn points_out<L: Ledger>(store: &Store, face: Tag, by: Triple, steps: &mut Steps<L>) -> bool
    requires sound { IsSound store.now.state.map }
    requires face { class_at (shape_of store.now.state.map) face ≡ Some class.Face }
    requires vector { AreComponents by }
    ensures { result ≡ int_lt (pos 0) (the_dot (the_newell (shape_of store.now.state.map)
        (outer_at (shape_of store.now.state.map) face)) by) }
{
    let out = newell(store, face, steps);
    let along = (i128::from(by.x), i128::from(by.y), i128::from(by.z));
    0 < dot(out, along)
}

/// The Newell vector of the outer loop of a face: the sum of the products of each start with the
/// next one.
fn newell<L: Ledger>(store: &Store, face: Tag, steps: &mut Steps<L>) -> (i128, i128, i128)
    requires sound { IsSound store.now.state.map }
    requires face { class_at (shape_of store.now.state.map) face ≡ Some class.Face }
    ensures sum { vector result.0 result.1 result.2 ≡ the_newell (shape_of store.now.state.map)
        (outer_at (shape_of store.now.state.map) face) }
    ensures size { IsTripleWithin (2 ^ 70) (vector result.0 result.1 result.2) }
{
    // The blocks bound how many fins there are.
    let _blocks = store.blocks();
    let mut sum = (0, 0, 0);
    let Some(first) = first_of_outer(store, face, steps) else {
        return sum;
    };
    let fins = count_fins(store, face, steps);
    let mut fin = first;
    for _ in 0..fins {
        let next = ring_next(store, fin, steps);
        let product = cross(start_of(store, fin, steps), start_of(store, next, steps));
        sum = plus(sum, product);
        fin = next;
    }
    sum
}

/// The sum of two vectors, which are small enough.
fn plus(a: (i128, i128, i128), b: (i128, i128, i128)) -> (i128, i128, i128)
    requires first { IsTripleWithin (2 ^ 70) (vector a.0 a.1 a.2) }
    requires second { IsTripleWithin (2 ^ 70) (vector b.0 b.1 b.2) }
    ensures { vector result.0 result.1 result.2
        ≡ the_plus (vector a.0 a.1 a.2) (vector b.0 b.1 b.2) }
{
    (a.0 + b.0, a.1 + b.1, a.2 + b.2)
}
