//! The operator mef.
ghost use Rattle.std.specs.Prelude.{◌≡◌, ◌≤◌, ◌∷◌, length};
ghost use Rattle.pk_base.specs.declared.call.Call.TheVariants.{Mef};
ghost use Rattle.entity_store.specs.NextTags.{left};
ghost use Rattle.solid_model.specs.Rows.{cost_of};
ghost use Rattle.solid_model.specs.Sound.{IsSound};
ghost use Rattle.solid_calls.specs.Pairs.{HasDone, HasTags, MayDo, NeedsAsRow, Takes, row_on};

use entity_store::{Need, Recorder, Steps, Store, Tags};
use halfedge::{relabel, ring_len, split_ring};
use pk_base::{Entity, Refusal, Tag, TagListBuilder};
use solid_calls::take_tag;
use solid_edits::{NewEdge, NewFin, put_edge, put_loop};
use solid_places::fin_at;
use std::sync::ledger::Ledger;

/// How many entities the call makes.
const PARTS: u64 = 5;

/// The tags of what the call makes.
#[derive(Clone, Copy)]
struct MefParts {
    face: Tag,
    loop_: Tag,
    edge: Tag,
    x: Tag,
    y: Tag,
}

/// What `mef_do` needs, or why it is refused. It takes no memory.
pub fn mef_need<L: Ledger>(
    store: &Store,
    from: Tag,
    to: Tag,
    steps: &mut Steps<L>,
) -> Result<Need, Refusal>
    requires { IsSound store.now.state.map }
    ensures { NeedsAsRow store.now.state.map (Mef from to) result }
{
    // The blocks bound how many fins there are.
    let _blocks = store.blocks();
    let u = fin_at(store, from, steps)?;
    let v = fin_at(store, to, steps)?;
    if u.loop_ != v.loop_ {
        return Err(Refusal::NotOneLoop(u.loop_, v.loop_));
    }
    if u.vertex == v.vertex {
        return Err(Refusal::SameVertex(u.vertex));
    }
    Ok(Need {
        tags: PARTS,
        changes: 6 + ring_len(store, from, steps),
        list: PARTS as usize,
    })
}

/// Makes an edge between the starts of two fins f and g of one loop L, and so cuts a new face off.
///
/// Before, L is `f A g B`. After, L is `g B y`, and the new loop is `f A x`: the outer loop of the
/// new face, which is in the shell of L's face. x starts where g starts, y where f starts, and they
/// are mates.
///
/// Takes, in this order: the face, the loop, the edge, x, y. It takes no memory.
///
/// Refuses, in this order: for f and then for g, a tag that is not live (`NoSuchTag`) and one that
/// is no fin (`WrongClass`); fins of different loops (`NotOneLoop` with f's loop and g's); fins
/// that start at one vertex (`SameVertex` with it). A refusal changes nothing: `mef_need` tells it.
///
/// `Kef { fin: x }` undoes it.
///
/// In a loop 68 of the fins `72 76 77 73`, where 72 and 77 start at different vertices,
/// `Mef { from: 72, to: 77 }` with 78 as the next tag takes 78 to 82. Then loop 79 of the face 78
/// is `72 76 81`, and loop 68 is `73 82 77`.
///
/// Source: Mäntylä, An Introduction to Solid Modeling, 1988; the form is this project's own.
pub fn mef_do<L: Ledger>(
    rec: &mut Recorder<'_>,
    from: Tag,
    to: Tag,
    tags: &mut Tags<'_>,
    out: &mut TagListBuilder,
    steps: &mut Steps<L>,
)
    requires may { MayDo rec.old.store.now (Mef from to) (left tags.old) }
    requires tags { HasTags rec.old.store.now
        (cost_of (row_on rec.old.store.now.state.map (Mef from to))) tags.old out.old }
    ensures done { HasDone rec.old.store.now (Mef from to) (left tags.old) rec.new.store.now }
    ensures takes { Takes (cost_of (row_on rec.old.store.now.state.map (Mef from to)))
        tags.old out.old tags.new out.new }
    ensures same_store { rec.new.store.ghost_name ≡ rec.old.store.ghost_name }
{
    let store = rec.view();
    // Each live entity stands in an owned block.
    let _blocks = store.blocks();
    let Ok(u) = fin_at(store, from, steps) else {
        unreachable!()
    };
    let Ok(v) = fin_at(store, to, steps) else {
        unreachable!()
    };
    let parts = take_parts(tags, out);
    let made = Entity::Face {
        shell: u.shell,
        outer: parts.loop_,
    };
    rec.put(parts.face, Some(made), steps);
    // x was taken first, and so has the lesser tag.
    let edge = NewEdge {
        tag: parts.edge,
        body: u.body,
        fin: NewFin {
            tag: parts.x,
            loop_: parts.loop_,
            vertex: v.vertex,
        },
        mate: NewFin {
            tag: parts.y,
            loop_: u.loop_,
            vertex: u.vertex,
        },
    };
    put_edge(rec, &edge, steps);
    split_ring(rec, from, to, parts.x, parts.y, steps);
    relabel(rec, from, parts.loop_, steps);
    put_loop(rec, parts.loop_, parts.face, from, steps);
    put_loop(rec, u.loop_, u.face, to, steps);
}

/// Takes the tags of what is made, and lists them.
fn take_parts(tags: &mut Tags<'_>, out: &mut TagListBuilder) -> MefParts
    requires enough { 5 ≤ length (left tags.old) }
    requires spare { 5 ≤ out.old.spare }
    ensures parts { left tags.old ≡ result.face ∷ result.loop_ ∷ result.edge ∷ result.x ∷ result.y
        ∷ left tags.new }
    ensures takes { Takes 5 tags.old out.old tags.new out.new }
{
    let face = take_tag(tags, out);
    let loop_ = take_tag(tags, out);
    let edge = take_tag(tags, out);
    let x = take_tag(tags, out);
    let y = take_tag(tags, out);
    MefParts {
        face,
        loop_,
        edge,
        x,
        y,
    }
}
