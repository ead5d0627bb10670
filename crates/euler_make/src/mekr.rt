//! The operator mekr.
ghost use Rattle.std.specs.Prelude.{◌≡◌, ◌≤◌, ◌∷◌, IfSome, length};
ghost use Rattle.pk_base.specs.declared.call.Call.TheVariants.{Mekr};
ghost use Rattle.entity_store.specs.NextTags.{left};
ghost use Rattle.solid_model.specs.Rows.{cost_of};
ghost use Rattle.solid_model.specs.Sound.{IsSound};
ghost use Rattle.halfedge.specs.LinkedRings.{IsInRing, ring_of_any};
ghost use Rattle.solid_calls.specs.Pairs.{HasDone, HasTags, MayDo, NeedsAsRow, Takes, row_on};

use crate::beside::number_beside;
use attributes::count_attributes;
use entity_store::{Need, Recorder, Steps, Store, Tags};
use halfedge::{insert_pair, least_fin, ring_len};
use pk_base::{Entity, Refusal, Tag, TagListBuilder};
use solid_calls::take_tag;
use solid_edits::{NewEdge, NewFin, give_ring, kill, put_edge};
use solid_places::end_at;
use std::sync::ledger::Ledger;

/// What `mekr_do` needs, or why it is refused. It takes no memory.
pub fn mekr_need<L: Ledger>(
    store: &Store,
    keep: Tag,
    ring: Tag,
    steps: &mut Steps<L>,
) -> Result<Need, Refusal>
    requires { IsSound store.now.state.map }
    ensures { NeedsAsRow store.now.state.map (Mekr keep ring) result }
{
    // There are few enough entities to count them.
    let _blocks = store.blocks();
    let u = end_at(store, keep, steps)?;
    let v = end_at(store, ring, steps)?;
    if u.face != v.face {
        return Err(Refusal::NotOneFace(u.face, v.face));
    }
    if u.loop_ == v.loop_ {
        return Err(Refusal::OneLoop(u.loop_));
    }
    if v.loop_ == v.outer {
        return Err(Refusal::IsOuter(v.loop_));
    }
    if u.vertex == v.vertex {
        return Err(Refusal::SameVertex(u.vertex));
    }
    let beside = number_beside(u.first);
    let joined = len_of_any(store, v.first, steps);
    let dead = count_attributes(store, v.loop_, steps);
    Ok(Need {
        tags: 3,
        changes: 5 + beside + joined + dead,
        list: 3,
    })
}

/// Makes an edge between an end k in a loop L and an end r in a ring of the same face, which it
/// kills.
///
/// An end is a fin, or a loop with a lone vertex. Before, L is `B` from k, and the ring is `A` from
/// r, each empty where the end is a lone vertex. After, L is `f A m B`. f starts at the vertex of
/// k, m at that of r, and they are mates. The ring dies with its attributes.
///
/// Takes, in this order: the edge, f, m.
///
/// Refuses, in this order: for k and then for r, a tag that is not live (`NoSuchTag`), one that is
/// neither a fin nor a loop (`WrongClass`), and a loop with fins (`NotBare`); loops of different
/// faces (`NotOneFace` with k's face and r's); ends in one loop (`OneLoop`); a ring that is the
/// outer loop of the face (`IsOuter`); ends at one vertex (`SameVertex` with it). A refusal changes
/// nothing.
///
/// `Kemr { fin: f }` undoes it, but for the tag of the ring and its attributes.
///
/// In a face with the outer loop 70 of the fins `76` and `77`, and a ring 80 with the lone vertex
/// 75, `Mekr { keep: 76, ring: 80 }` with 81 as the next tag takes 81 to 83. Then loop 70 is
/// `76 77 82 83`.
///
/// Source: Mäntylä, An Introduction to Solid Modeling, 1988; the form is this project's own.
pub fn mekr_do<L: Ledger>(
    rec: &mut Recorder<'_>,
    keep: Tag,
    ring: Tag,
    tags: &mut Tags<'_>,
    out: &mut TagListBuilder,
    steps: &mut Steps<L>,
)
    requires may { MayDo rec.old.store.now (Mekr keep ring) (left tags.old) }
    requires tags { HasTags rec.old.store.now
        (cost_of (row_on rec.old.store.now.state.map (Mekr keep ring))) tags.old out.old }
    ensures done { HasDone rec.old.store.now (Mekr keep ring) (left tags.old) rec.new.store.now }
    ensures takes { Takes (cost_of (row_on rec.old.store.now.state.map (Mekr keep ring)))
        tags.old out.old tags.new out.new }
    ensures same_store { rec.new.store.ghost_name ≡ rec.old.store.ghost_name }
{
    // Each live entity stands in an owned block.
    let _blocks = rec.view().blocks();
    let Ok(u) = end_at(rec.view(), keep, steps) else {
        unreachable!()
    };
    let Ok(v) = end_at(rec.view(), ring, steps) else {
        unreachable!()
    };
    let new = take_edge(tags, out);
    give_ring(rec, v.first, u.loop_, steps);
    let edge = NewEdge {
        tag: new.edge,
        body: u.body,
        fin: NewFin {
            tag: new.fin,
            loop_: u.loop_,
            vertex: u.vertex,
        },
        mate: NewFin {
            tag: new.mate,
            loop_: u.loop_,
            vertex: v.vertex,
        },
    };
    put_edge(rec, &edge, steps);
    insert_pair(rec, u.first, v.first, new.fin, new.mate, steps);
    let first = least_fin(rec, new.fin, steps);
    let joined = Entity::Loop {
        face: u.face,
        first: Some(first),
        lone: None,
    };
    rec.put(u.loop_, Some(joined), steps);
    kill(rec, v.loop_, steps);
}

/// The tags of an edge and its fins.
#[derive(Clone, Copy, Drop)]
struct EdgeTags {
    edge: Tag,
    fin: Tag,
    mate: Tag,
}

/// How many fins the ring from this one on has, where there is one.
fn len_of_any<L: Ledger>(store: &Store, first: Option<Tag>, steps: &mut Steps<L>) -> usize
    requires { IfSome first (IsInRing store.now.state.map) }
    ensures { result ≡ length (ring_of_any store.now.state.map first) }
{
    match first {
        Some(fin) => ring_len(store, fin, steps),
        None => 0,
    }
}

/// Takes the next three tags, and lists them.
fn take_edge(tags: &mut Tags<'_>, out: &mut TagListBuilder) -> EdgeTags
    requires enough { 3 ≤ length (left tags.old) }
    requires spare { 3 ≤ out.old.spare }
    ensures tags { left tags.old ≡ result.edge ∷ result.fin ∷ result.mate ∷ left tags.new }
    ensures takes { Takes 3 tags.old out.old tags.new out.new }
{
    let edge = take_tag(tags, out);
    let fin = take_tag(tags, out);
    let mate = take_tag(tags, out);
    EdgeTags { edge, fin, mate }
}
