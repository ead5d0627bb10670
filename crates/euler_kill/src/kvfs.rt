//! The operator kvfs.
ghost use Rattle.std.specs.Prelude.{◌≡◌, ◌∷◌, [], Some, Ok, IsOk, IsTrue, option_copied};
ghost use Rattle.std.specs.FinMap.{get};
ghost use Rattle.pk_base.specs.declared.call.Call.TheVariants.{Kvfs};
ghost use Rattle.pk_base.specs.declared.entity.Entity.TheVariants as entity;
ghost use Rattle.pk_base.specs.declared.tag.Tag.{Tag};
ghost use Rattle.solid_model.specs.Kvfs.{has_more_than_a_vertex, kvfs};
ghost use Rattle.solid_model.specs.Places.{body_at as the_body_at};
ghost use Rattle.solid_model.specs.Shapes.{shape_of};
ghost use Rattle.solid_model.specs.Sound.{IsSound};
ghost use Rattle.solid_calls.specs.Pairs.{HasDone, MayDo, NeedsAsRow};
ghost use Rattle.solid_edits.specs.BareParts.{AreBareParts, lone_vertex as the_lone_vertex, tags_of_parts};

use entity_store::{Need, Recorder, Steps, Store};
use pk_base::{Class, Entity, Refusal, Tag};
use solid_edits::{BareParts, count_dead, kill_all};
use solid_places::{body_at, has_more_parts};
use std::sync::ledger::Ledger;

/// What `kvfs_do` needs, or why it is refused. It takes no memory.
pub fn kvfs_need<L: Ledger>(store: &Store, body: Tag, steps: &mut Steps<L>) -> Result<Need, Refusal>
    requires { IsSound store.now.state.map }
    ensures { NeedsAsRow store.now.state.map (Kvfs body) result }
{
    let shell = body_at(store, body, steps)?;
    if has_more(store, body, shell, steps) {
        return Err(Refusal::NotBare(body));
    }
    let parts = parts_of(store, body, steps);
    Ok(Need {
        tags: 0,
        changes: count_dead(store, tags_of(&parts).as_slice(), steps),
        list: 0,
    })
}

/// Kills a body of one vertex.
///
/// Before, a body with one face, whose one loop has no fins and a lone vertex. After, nothing of
/// it. The attributes of its parts die with them.
///
/// Takes no tags.
///
/// Refuses, in this order: a tag that is not live (`NoSuchTag`); one that is no body
/// (`WrongClass`); a body with an edge, a second face or a second loop (`NotBare` with it). A
/// refusal changes nothing.
///
/// `Mvfs` at the point of the vertex undoes it, but for the tags and the attributes.
///
/// Source: Mäntylä, An Introduction to Solid Modeling, 1988 (kill vertex, face, solid); the form
/// is this project's own.
pub fn kvfs_do<L: Ledger>(rec: &mut Recorder<'_>, body: Tag, steps: &mut Steps<L>)
    requires { MayDo rec.old.store.now (Kvfs body) [] }
    ensures done { HasDone rec.old.store.now (Kvfs body) [] rec.new.store.now }
    ensures same_store { rec.new.store.ghost_name ≡ rec.old.store.ghost_name }
{
    // Its clauses say that the blocks of what is live are owned.
    let _blocks = rec.view().blocks();
    let parts = parts_of(rec.view(), body, steps);
    kill_all(rec, tags_of(&parts).as_slice(), steps);
}

/// The tags of the parts.
fn tags_of(parts: &BareParts) -> [Tag; 5]
    ensures { result ≡ tags_of_parts parts.now }
{
    [
        parts.body,
        parts.shell,
        parts.face,
        parts.loop_,
        parts.vertex,
    ]
}

/// Whether a body has an edge, a second face or a second loop.
fn has_more<L: Ledger>(store: &Store, body: Tag, shell: Tag, steps: &mut Steps<L>) -> bool
    requires sound { IsSound store.now.state.map }
    requires shell { the_body_at (shape_of store.now.state.map) body ≡ Ok shell }
    ensures { result ≡ has_more_than_a_vertex (shape_of store.now.state.map) body }
{
    if has_more_parts(store, Class::Edge, body, 0, steps) {
        return true;
    }
    if has_more_parts(store, Class::Face, shell, 1, steps) {
        return true;
    }
    let face = face_of(store, shell, steps);
    has_more_parts(store, Class::Loop, face, 1, steps)
}

/// A face of a shell that has one.
fn face_of<L: Ledger>(store: &Store, shell: Tag, steps: &mut Steps<L>) -> Tag
    requires { (face : Tag) × (outer : Tag)
        × (get store.now.state.map face ≡ Some (entity.Face shell outer)) }
    ensures { (outer : Tag) × (get store.now.state.map result ≡ Some (entity.Face shell outer)) }
{
    let mut walk = store.kids(shell);
    while let Some((tag, kid)) = walk.next(steps) {
        if let Entity::Face { .. } = kid {
            return tag;
        }
    }
    unreachable!()
}

/// The parts of a body of one vertex.
fn parts_of<L: Ledger>(store: &Store, body: Tag, steps: &mut Steps<L>) -> BareParts
    requires sound { IsSound store.now.state.map }
    requires goes { IsOk (kvfs (shape_of store.now.state.map) body) }
    ensures body { result.body ≡ body }
    ensures parts { AreBareParts (shape_of store.now.state.map) result }
{
    let Ok(shell) = body_at(store, body, steps) else {
        unreachable!()
    };
    let face = face_of(store, shell, steps);
    let Some(Entity::Face { outer, .. }) = store.get(face, steps) else {
        unreachable!()
    };
    let vertex = lone_vertex(store.get(*outer, steps)).unwrap();
    BareParts {
        body,
        shell,
        face,
        loop_: *outer,
        vertex,
    }
}

/// The lone vertex of a loop that has one.
fn lone_vertex(entity: Option<&Entity>) -> Option<Tag>
    ensures { result ≡ the_lone_vertex (option_copied entity.entry) }
{
    match entity? {
        Entity::Loop { lone, .. } => *lone,
        Entity::Body { .. }
        | Entity::Shell { .. }
        | Entity::Face { .. }
        | Entity::Fin { .. }
        | Entity::Edge { .. }
        | Entity::Vertex { .. }
        | Entity::Attr { .. } => None,
    }
}
