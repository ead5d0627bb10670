//! The operator ringmove.
ghost use Rattle.std.specs.Prelude.{◌≡◌, []};
ghost use Rattle.pk_base.specs.declared.call.Call.TheVariants.{RingMove};
ghost use Rattle.solid_model.specs.Sound.{IsSound};
ghost use Rattle.solid_calls.specs.Pairs.{HasDone, MayDo, NeedsAsRow};

use entity_store::{Need, Recorder, Steps, Store};
use pk_base::{Refusal, Tag};
use solid_edits::give_loop;
use solid_places::{face_at, loop_at};
use std::sync::ledger::Ledger;

/// What `ringmove_do` needs, or why it is refused. It takes no memory.
pub fn ringmove_need<L: Ledger>(
    store: &Store,
    ring: Tag,
    to: Tag,
    steps: &mut Steps<L>,
) -> Result<Need, Refusal>
    requires { IsSound store.now.state.map }
    ensures { NeedsAsRow store.now.state.map (RingMove ring to) result }
{
    let moved = loop_at(store, ring, steps)?;
    let face = face_at(store, to, steps)?;
    if ring == moved.outer {
        return Err(Refusal::IsOuter(ring));
    }
    if moved.body != face.body {
        return Err(Refusal::NotOneBody(moved.body, face.body));
    }
    if moved.face == to {
        return Err(Refusal::SameFace(to));
    }
    Ok(Need {
        tags: 0,
        changes: 1,
        list: 0,
    })
}

/// Moves a ring to another face of its body.
///
/// Before, the loop is a ring of a face, which has another outer loop. After, it is a ring of the
/// other face. The fins of the loop stay in their order, and so does its lone vertex.
///
/// Takes no tags.
///
/// Refuses, in this order: for the ring, a tag that is not live (`NoSuchTag`) and one that is no
/// loop (`WrongClass`); for the face, a tag that is not live and one that is no face; its face's
/// outer loop (`IsOuter` with it); a face of another body (`NotOneBody` with the ring's body and
/// the face's); the face that has the ring (`SameFace` with it). A refusal changes nothing.
///
/// `RingMove` to the face that had the ring undoes it.
///
/// Source: Mäntylä, An Introduction to Solid Modeling, 1988 (move ring); the form is this
/// project's own.
pub fn ringmove_do<L: Ledger>(rec: &mut Recorder<'_>, ring: Tag, to: Tag, steps: &mut Steps<L>)
    requires { MayDo rec.old.store.now (RingMove ring to) [] }
    ensures done { HasDone rec.old.store.now (RingMove ring to) [] rec.new.store.now }
    ensures same_store { rec.new.store.ghost_name ≡ rec.old.store.ghost_name }
{
    // Its clauses say that the blocks of the ring and of the face are owned.
    let _blocks = rec.view().blocks();
    give_loop(rec, ring, to, steps);
}
