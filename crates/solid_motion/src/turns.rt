//! A body is turned.
ghost use Rattle.std.specs.Prelude.{◌≡◌, []};
ghost use Rattle.pk_base.specs.declared.call.Call.TheVariants.{Turn};
ghost use Rattle.solid_model.specs.Sound.{IsSound};
ghost use Rattle.solid_calls.specs.Pairs.{HasDone, MayDo, NeedsAsRow};

use crate::points::Motion;
use crate::vertices::{count_vertices, move_vertices};
use entity_store::{Need, Recorder, Steps, Store};
use pk_base::{Axis, Refusal, Tag};
use solid_places::body_at;
use std::sync::ledger::Ledger;

/// The most quarter turns.
const MOST_TURNS: i64 = 3;

/// What `turn_do` needs, or why it is refused. It takes no memory.
pub fn turn_need<L: Ledger>(
    store: &Store,
    body: Tag,
    axis: Axis,
    turns: i64,
    steps: &mut Steps<L>,
) -> Result<Need, Refusal>
    requires { IsSound store.now.state.map }
    ensures { NeedsAsRow store.now.state.map (Turn body axis turns) result }
{
    body_at(store, body, steps)?;
    if turns < 1 || MOST_TURNS < turns {
        return Err(Refusal::OutOfRange(turns));
    }
    Ok(Need {
        tags: 0,
        changes: count_vertices(store, body, steps),
        list: 0,
    })
}

/// Turns every vertex of a body about an axis by 1, 2 or 3 quarter turns.
///
/// Before, a body. After, each of its vertices is where so many quarter turns bring it, each
/// counter-clockwise as seen from the positive end of the axis: one about z takes (x, y, z) to
/// (-y, x, z), one about x to (x, -z, y), and one about y to (z, y, -x). Nothing else changes.
///
/// Takes no tags.
///
/// Refuses, in this order: a tag that is not live (`NoSuchTag`) and one that is no body's
/// (`WrongClass`); a number of turns that is not 1, 2 or 3 (`OutOfRange` with it). A refusal
/// changes nothing.
///
/// `Turn` about the same axis by 4 less so many turns undoes it.
pub fn turn_do<L: Ledger>(
    rec: &mut Recorder<'_>,
    body: Tag,
    axis: Axis,
    turns: i64,
    steps: &mut Steps<L>,
)
    requires { MayDo rec.old.store.now (Turn body axis turns) [] }
    ensures done { HasDone rec.old.store.now (Turn body axis turns) [] rec.new.store.now }
    ensures same_store { rec.new.store.ghost_name ≡ rec.old.store.ghost_name }
{
    move_vertices(rec, body, Motion::About(axis, turns as u8), steps);
}
