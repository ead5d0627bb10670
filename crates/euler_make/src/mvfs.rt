//! The operator mvfs.
ghost use Rattle.std.specs.Prelude.{◌≡◌, ◌+◌, ◌≤◌, ◌∷◌, [], Some, length};
ghost use Rattle.std.specs.FinMap.{get};
ghost use Rattle.entity_store.specs.NextTags.{left};
ghost use Rattle.pk_base.specs.declared.call.Call.TheVariants.{Mvfs};
ghost use Rattle.solid_model.specs.Rows.{cost_of};
ghost use Rattle.solid_model.specs.Sound.{IsSound};
ghost use Rattle.solid_calls.specs.Pairs.{HasDone, HasTags, MayDo, NeedsAsRow, Takes, row_on};
ghost use Rattle.entity_store.specs.Room.{HasRoomForThese, PutsAmong};
ghost use Rattle.solid_edits.specs.BareParts.{AreHostedBy, IsMadeOf, tags_of_parts, with_bare_body};

use entity_store::{Need, Recorder, Steps, Store, Tags};
use pk_base::{Entity, Point, Refusal, TagListBuilder, Triple};
use solid_calls::take_tag;
use solid_edits::BareParts;
use solid_places::{outside, point_of};
use std::sync::ledger::Ledger;

/// How many entities a body of one vertex has.
const PARTS: u64 = 5;

/// What `mvfs_do` needs, or why it is refused. It adds no steps and takes no memory.
pub fn mvfs_need<L: Ledger>(
    store: &Store,
    at: Triple,
    steps: &mut Steps<L>,
) -> Result<Need, Refusal>
    requires { IsSound store.now.state.map }
    ensures needs { NeedsAsRow store.now.state.map (Mvfs at) result }
    ensures cost { steps.new ≡ steps.old }
{
    match outside(at) {
        Some(v) => Err(Refusal::OutOfRange(v)),
        None => Ok(Need {
            tags: PARTS,
            changes: PARTS as usize,
            list: PARTS as usize,
        }),
    }
}

/// Makes a body of one vertex.
///
/// Before, nothing. After, a body and its shell, whose q is 1 and whose one face has one loop,
/// without fins and with a lone vertex at the point.
///
/// Takes, in this order: the body, the shell, the face, the loop, the vertex.
///
/// Refuses the first of x, y and z that is outside the range of coordinates (`OutOfRange` with it).
/// A refusal changes nothing.
///
/// It adds at most ten steps, two for each part. `Kvfs` of the body undoes it.
///
/// Source: Mäntylä, An Introduction to Solid Modeling, 1988 (make vertex, face, solid); the form
/// is this project's own.
pub fn mvfs_do<L: Ledger>(
    rec: &mut Recorder<'_>,
    at: Triple,
    tags: &mut Tags<'_>,
    out: &mut TagListBuilder,
    steps: &mut Steps<L>,
)
    requires may { MayDo rec.old.store.now (Mvfs at) (left tags.old) }
    requires tags { HasTags rec.old.store.now
        (cost_of (row_on rec.old.store.now.state.map (Mvfs at))) tags.old out.old }
    ensures done { HasDone rec.old.store.now (Mvfs at) (left tags.old) rec.new.store.now }
    ensures takes { Takes (cost_of (row_on rec.old.store.now.state.map (Mvfs at)))
        tags.old out.old tags.new out.new }
    ensures same_store { rec.new.store.ghost_name ≡ rec.old.store.ghost_name }
    ensures cost { steps.new ≤ steps.old + 10 }
{
    let parts = take_parts(tags, out);
    put_parts(rec, &parts, point_of(at), steps);
}

/// Takes the next five tags for the parts of a body, and lists them.
fn take_parts(tags: &mut Tags<'_>, out: &mut TagListBuilder) -> BareParts
    requires tags { 5 ≤ length (left tags.old) }
    requires spare { 5 ≤ out.old.spare }
    ensures parts { IsMadeOf (left tags.old) result (left tags.new) }
    ensures takes { Takes 5 tags.old out.old tags.new out.new }
{
    let body = take_tag(tags, out);
    let shell = take_tag(tags, out);
    let face = take_tag(tags, out);
    let loop_ = take_tag(tags, out);
    let vertex = take_tag(tags, out);
    BareParts {
        body,
        shell,
        face,
        loop_,
        vertex,
    }
}

/// Puts the five parts of a body. It takes no memory.
fn put_parts<L: Ledger>(
    rec: &mut Recorder<'_>,
    parts: &BareParts,
    point: Point,
    steps: &mut Steps<L>,
)
    requires hosted { AreHostedBy rec.old.store.now.state.blocks parts.now }
    requires room { HasRoomForThese rec.old.store.now.recording (tags_of_parts parts.now) }
    ensures state { rec.new.store.now.state ≡ record rec.old.store.now.state {
      map = with_bare_body rec.old.store.now.state.map parts.now point;
    } }
    ensures puts { PutsAmong (tags_of_parts parts.now) rec.old.store.now rec.new.store.now }
    ensures same_store { rec.new.store.ghost_name ≡ rec.old.store.ghost_name }
    ensures cost { steps.new ≤ steps.old + 10 }
{
    let BareParts {
        body,
        shell,
        face,
        loop_,
        vertex,
    } = *parts;
    rec.put(body, Some(Entity::Body { shell }), steps);
    rec.put(shell, Some(Entity::Shell { body, q: 1 }), steps);
    rec.put(
        face,
        Some(Entity::Face {
            shell,
            outer: loop_,
        }),
        steps,
    );
    let bare = Entity::Loop {
        face,
        first: None,
        lone: Some(vertex),
    };
    rec.put(loop_, Some(bare), steps);
    rec.put(vertex, Some(Entity::Vertex { body, point }), steps);
}
