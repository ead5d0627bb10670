//! The fins of a loop.
ghost use Rattle.std.specs.Prelude.{◌≡◌, ◌≤◌, length, [], IsOk, IfSome};
ghost use Rattle.pk_base.specs.declared.act.Reply.TheVariants.{List as Listed};
ghost use Rattle.pk_base.specs.declared.call.Call.TheVariants.{Ring};
ghost use Rattle.halfedge.specs.LinkedRings.{IsInRing, ring_at, ring_of_any};
ghost use Rattle.solid_model.specs.Euler.{list_of};
ghost use Rattle.solid_model.specs.Places.{fins_at, loop_at as the_loop_at};
ghost use Rattle.solid_model.specs.Rows.{tells};
ghost use Rattle.solid_model.specs.Shapes.{shape_of};
ghost use Rattle.solid_model.specs.Sound.{IsSound};
ghost use Rattle.solid_calls.specs.Pairs.{NeedsAsRow, row_on};

use entity_store::{Need, Steps, Store};
use halfedge::{ring_len, ring_next};
use pk_base::{Entity, Refusal, Tag, TagListBuilder};
use solid_places::loop_at;
use std::sync::ledger::Ledger;

/// What `ring_do` needs, or why it is refused. It takes no memory.
pub fn ring_need<L: Ledger>(store: &Store, ring: Tag, steps: &mut Steps<L>) -> Result<Need, Refusal>
    requires { IsSound store.now.state.map }
    ensures { NeedsAsRow store.now.state.map (Ring ring) result }
{
    loop_at(store, ring, steps)?;
    let first = first_fin(store, ring, steps);
    let list = count_ring(store, first, steps);
    Ok(Need {
        tags: 0,
        changes: 0,
        list,
    })
}

/// Lists in `out`, which is empty, the fins of a loop: the one with the least tag, and behind each
/// the next one of the loop. There are none where the loop has a lone vertex.
///
/// Refuses, in this order: a tag that is not live (`NoSuchTag`), and one that is no loop's
/// (`WrongClass`).
pub fn ring_do<L: Ledger>(store: &Store, ring: Tag, out: &mut TagListBuilder, steps: &mut Steps<L>)
    requires sound { IsSound store.now.state.map }
    requires goes { IsOk (row_on store.now.state.map (Ring ring)) }
    requires empty { out.old.items ≡ [] }
    requires spare { list_of (row_on store.now.state.map (Ring ring)) ≤ out.old.spare }
    ensures { row_on store.now.state.map (Ring ring) ≡ tells (Listed out.new.items) }
{
    if let Some(first) = first_fin(store, ring, steps) {
        list_ring(store, first, out, steps);
    }
}

/// The first fin of a loop, from which on the ring is that of its fins; none where it has a lone
/// vertex. It takes no memory.
pub fn first_fin<L: Ledger>(store: &Store, ring: Tag, steps: &mut Steps<L>) -> Option<Tag>
    requires sound { IsSound store.now.state.map }
    requires ring { IsOk (the_loop_at (shape_of store.now.state.map) ring) }
    ensures fins { fins_at (shape_of store.now.state.map) ring
        ≡ ring_of_any store.now.state.map result }
    ensures ring { IfSome result (IsInRing store.now.state.map) }
{
    let entity = store.get(ring, steps).unwrap();
    let Entity::Loop { first, .. } = entity else {
        unreachable!()
    };
    *first
}

/// How many fins the ring of this fin has; none where there is no fin.
fn count_ring<L: Ledger>(store: &Store, first: Option<Tag>, steps: &mut Steps<L>) -> usize
    requires { IfSome first (IsInRing store.now.state.map) }
    ensures { result ≡ length (ring_of_any store.now.state.map first) }
{
    match first {
        Some(first) => ring_len(store, first, steps),
        None => 0,
    }
}

/// Lists the fins of a ring, from this one on.
fn list_ring<L: Ledger>(store: &Store, first: Tag, out: &mut TagListBuilder, steps: &mut Steps<L>)
    requires ring { IsInRing store.now.state.map first }
    requires empty { out.old.items ≡ [] }
    requires spare { length (ring_at store.now.state.map first) ≤ out.old.spare }
    ensures { out.new.items ≡ ring_at store.now.state.map first }
{
    out.push(first);
    let mut here = ring_next(store, first, steps);
    while here != first {
        out.push(here);
        here = ring_next(store, here, steps);
    }
}
