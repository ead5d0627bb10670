//! The operator mev.
ghost use Rattle.std.specs.Prelude.{◌≡◌, ◌≤◌, ◌∷◌, length};
ghost use Rattle.std.specs.Option.{option_map_or};
ghost use Rattle.std.specs.FinMap.{get};
ghost use Rattle.pk_base.specs.declared.call.Call.TheVariants.{Mev};
ghost use Rattle.entity_store.specs.NextTags.{left};
ghost use Rattle.solid_model.specs.Rows.{cost_of};
ghost use Rattle.solid_model.specs.Rings.{lesser};
ghost use Rattle.solid_model.specs.Sound.{IsSound};
ghost use Rattle.solid_calls.specs.Pairs.{HasDone, HasTags, MayDo, NeedsAsRow, Takes, row_on};
ghost use Rattle.solid_edits.specs.Faces.{IsLoop};
ghost use Rattle.euler_make.specs.FirstFins.{first_named};

use crate::beside::number_beside;
use entity_store::{Need, Recorder, Steps, Store, Tags};
use halfedge::insert_pair;
use pk_base::{Entity, Refusal, Tag, TagListBuilder, Triple};
use solid_calls::take_tag;
use solid_edits::{NewEdge, NewFin, put_edge};
use solid_places::{end_at, outside, point_of};
use std::sync::ledger::Ledger;

/// An edge to a new vertex: the fin out starts at the other end, the fin back at the new vertex.
#[derive(Clone, Copy)]
struct Strut {
    vertex: Tag,
    edge: Tag,
    out: Tag,
    back: Tag,
}

/// What `mev_do` needs, or why it is refused. It takes no memory.
pub fn mev_need<L: Ledger>(
    store: &Store,
    end: Tag,
    at: Triple,
    steps: &mut Steps<L>,
) -> Result<Need, Refusal>
    requires { IsSound store.now.state.map }
    ensures { NeedsAsRow store.now.state.map (Mev end at) result }
{
    let place = end_at(store, end, steps)?;
    match outside(at) {
        Some(v) => Err(Refusal::OutOfRange(v)),
        None => Ok(Need {
            tags: 4,
            changes: 5 + number_beside(place.first),
            list: 4,
        }),
    }
}

/// Makes an edge to a new vertex w at the point, from an end t: where a fin t starts, or the lone
/// vertex of a loop t.
///
/// Before, the loop is `t A`, or has a lone vertex. After, it is `out back t A`, or `out back`. out
/// starts where t starts, or at the vertex that was alone, and back at w; they are mates.
///
/// Takes, in this order: the vertex, the edge, out, back. It takes no memory.
///
/// Refuses, in this order: for t, a tag that is not live (`NoSuchTag`), one that is neither a fin
/// nor a loop (`WrongClass`), and a loop with fins (`NotBare`); the first of x, y and z that is
/// outside the range of coordinates (`OutOfRange` with it). A refusal changes nothing: `mev_need`
/// tells it.
///
/// `Kev { fin: out }` undoes it.
///
/// In a loop 68 with the lone vertex 69, `Mev { end: 68, .. }` with 70 as the next tag takes 70 to
/// 73. Then loop 68 is `72 73`.
///
/// Source: Mäntylä, An Introduction to Solid Modeling, 1988; the form is this project's own.
pub fn mev_do<L: Ledger>(
    rec: &mut Recorder<'_>,
    end: Tag,
    at: Triple,
    tags: &mut Tags<'_>,
    out: &mut TagListBuilder,
    steps: &mut Steps<L>,
)
    requires may { MayDo rec.old.store.now (Mev end at) (left tags.old) }
    requires tags { HasTags rec.old.store.now
        (cost_of (row_on rec.old.store.now.state.map (Mev end at))) tags.old out.old }
    ensures done { HasDone rec.old.store.now (Mev end at) (left tags.old) rec.new.store.now }
    ensures takes { Takes (cost_of (row_on rec.old.store.now.state.map (Mev end at)))
        tags.old out.old tags.new out.new }
    ensures same_store { rec.new.store.ghost_name ≡ rec.old.store.ghost_name }
{
    // Each live entity and its owner stand in owned blocks.
    let _blocks = rec.view().blocks();
    let Ok(place) = end_at(rec.view(), end, steps) else {
        unreachable!()
    };
    let strut = take_strut(tags, out);
    let first = first_fin(rec.view(), place.loop_, steps);
    let end_vertex = Entity::Vertex {
        body: place.body,
        point: point_of(at),
    };
    rec.put(strut.vertex, Some(end_vertex), steps);
    // out was taken before back, and so has the lesser tag.
    let edge = NewEdge {
        tag: strut.edge,
        body: place.body,
        fin: NewFin {
            tag: strut.out,
            loop_: place.loop_,
            vertex: place.vertex,
        },
        mate: NewFin {
            tag: strut.back,
            loop_: place.loop_,
            vertex: strut.vertex,
        },
    };
    put_edge(rec, &edge, steps);
    insert_pair(rec, place.first, None, strut.out, strut.back, steps);
    let longer = Entity::Loop {
        face: place.face,
        first: Some(lesser_of(first, strut.out)),
        lone: None,
    };
    rec.put(place.loop_, Some(longer), steps);
}

/// The first fin of a loop, where it has fins.
fn first_fin<L: Ledger>(store: &Store, loop_: Tag, steps: &mut Steps<L>) -> Option<Tag>
    requires { IsLoop (get store.now.state.map loop_) }
    ensures { result ≡ first_named (get store.now.state.map loop_) }
{
    let Some(Entity::Loop { first, .. }) = store.get(loop_, steps) else {
        unreachable!()
    };
    *first
}

/// The lesser of the fin and the first one, where there is one.
fn lesser_of(first: Option<Tag>, fin: Tag) -> Tag
    ensures { result ≡ option_map_or (λ t. lesser t fin) first fin }
{
    let Some(first) = first else {
        return fin;
    };
    if fin.0 < first.0 { fin } else { first }
}

/// Takes the next four tags for a strut, and lists them.
fn take_strut(tags: &mut Tags<'_>, out: &mut TagListBuilder) -> Strut
    requires enough { 4 ≤ length (left tags.old) }
    requires spare { 4 ≤ out.old.spare }
    ensures tags { left tags.old
        ≡ result.vertex ∷ result.edge ∷ result.out ∷ result.back ∷ left tags.new }
    ensures takes { Takes 4 tags.old out.old tags.new out.new }
{
    let vertex = take_tag(tags, out);
    let edge = take_tag(tags, out);
    let first = take_tag(tags, out);
    let back = take_tag(tags, out);
    Strut {
        vertex,
        edge,
        out: first,
        back,
    }
}
