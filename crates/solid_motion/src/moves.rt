//! A body is moved.
ghost use Rattle.std.specs.Prelude.{◌≡◌, []};
ghost use Rattle.pk_base.specs.declared.call.Call.TheVariants.{Move};
ghost use Rattle.solid_model.specs.Sound.{IsSound};
ghost use Rattle.solid_calls.specs.Pairs.{HasDone, MayDo, NeedsAsRow};

use crate::points::Motion;
use crate::vertices::{count_vertices, move_vertices, sum_outside};
use entity_store::{Need, Recorder, Steps, Store};
use pk_base::{Refusal, Tag, Triple};
use solid_places::{body_at, too_far};
use std::sync::ledger::Ledger;

/// What `move_do` needs, or why it is refused. It takes no memory.
pub fn move_need<L: Ledger>(
    store: &Store,
    body: Tag,
    by: Triple,
    steps: &mut Steps<L>,
) -> Result<Need, Refusal>
    requires { IsSound store.now.state.map }
    ensures { NeedsAsRow store.now.state.map (Move body by) result }
{
    body_at(store, body, steps)?;
    if let Some(component) = too_far(by) {
        return Err(Refusal::OutOfRange(component));
    }
    if let Some(sum) = sum_outside(store, body, by, steps) {
        return Err(Refusal::OutOfRange(sum));
    }
    Ok(Need {
        tags: 0,
        changes: count_vertices(store, body, steps),
        list: 0,
    })
}

/// Moves every vertex of a body by a vector.
///
/// Before, a body. After, each x, y and z of its vertices is the sum of what it was and that of the
/// vector. Nothing else changes.
///
/// Takes no tags.
///
/// Refuses, in this order: a tag that is not live (`NoSuchTag`) and one that is no body's
/// (`WrongClass`); the first of x, y and z of the vector that is not from -2,097,152 to 2,097,152
/// (`OutOfRange` with it); the first sum that is out of the range of coordinates, vertices
/// ascending by their tags, x, y and z of each (`OutOfRange` with the sum). A refusal changes
/// nothing.
///
/// `Move` by the opposite vector undoes it.
pub fn move_do<L: Ledger>(rec: &mut Recorder<'_>, body: Tag, by: Triple, steps: &mut Steps<L>)
    requires { MayDo rec.old.store.now (Move body by) [] }
    ensures done { HasDone rec.old.store.now (Move body by) [] rec.new.store.now }
    ensures same_store { rec.new.store.ghost_name ≡ rec.old.store.ghost_name }
{
    move_vertices(rec, body, Motion::By(by), steps);
}
