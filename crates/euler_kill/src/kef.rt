//! The operator kef.
ghost use Rattle.std.specs.Prelude.{◌≡◌, [], ◌∷◌};
ghost use Rattle.pk_base.specs.declared.call.Call.TheVariants.{Kef};
ghost use Rattle.solid_model.specs.Sound.{IsSound};
ghost use Rattle.solid_calls.specs.Pairs.{HasDone, MayDo, NeedsAsRow};

use entity_store::{Need, Recorder, Steps, Store};
use halfedge::{join_rings, relabel, ring_len, ring_next};
use pk_base::{Refusal, Tag};
use solid_edits::{count_dead, kill_all, put_loop, remove_edge};
use solid_places::{PlacedFin, fin_at, has_rings};
use std::sync::ledger::Ledger;

/// What `kef_do` needs, or why it is refused. It takes no memory.
pub fn kef_need<L: Ledger>(store: &Store, fin: Tag, steps: &mut Steps<L>) -> Result<Need, Refusal>
    requires { IsSound store.now.state.map }
    ensures { NeedsAsRow store.now.state.map (Kef fin) result }
{
    // The blocks bound how many fins there are.
    let _blocks = store.blocks();
    let u = fin_at(store, fin, steps)?;
    let v = fin_at(store, u.mate, steps)?;
    if u.loop_ == v.loop_ {
        return Err(Refusal::OneLoop(u.loop_));
    }
    if has_rings(store, u.face, steps) {
        return Err(Refusal::HasRings(u.face));
    }
    let dead = count_dead(store, side_of(fin, &u).as_slice(), steps);
    let fins = ring_len(store, fin, steps);
    Ok(Need {
        tags: 0,
        changes: dead + 3 + fins,
        list: 0,
    })
}

/// Kills the edge between two faces, and the face of its fin x, which has no rings.
///
/// Before, the loop of x is `P x`, and the loop of its mate y is `Q y`. After, the loop of y is `P
/// Q`, and the loop of x, its face, x, y and the edge are gone, with the attributes of each.
///
/// Takes no tags and no memory.
///
/// Refuses, in this order: a tag that is not live (`NoSuchTag`); one that is no fin (`WrongClass`);
/// an edge that has one loop on both sides (`OneLoop` with it); a face of x with more than one loop
/// (`HasRings` with the face). A refusal changes nothing: `kef_need` tells it.
///
/// `Mef { from: f, to: g }` undoes it, where f is the first fin of P and g the first of Q, but for
/// the tags and the attributes.
///
/// Where loop 79 of the face 78 is `72 76 81`, and loop 68 is `73 82 77`, with the mates 81 and 82,
/// `Kef { fin: 81 }` kills 78 to 82. Then loop 68 is `72 76 77 73`.
///
/// Source: Mäntylä, An Introduction to Solid Modeling, 1988; the form is this project's own.
pub fn kef_do<L: Ledger>(rec: &mut Recorder<'_>, fin: Tag, steps: &mut Steps<L>)
    requires { MayDo rec.old.store.now (Kef fin) [] }
    ensures done { HasDone rec.old.store.now (Kef fin) [] rec.new.store.now }
    ensures same_store { rec.new.store.ghost_name ≡ rec.old.store.ghost_name }
{
    let store = rec.view();
    // Each live entity stands in an owned block.
    let _blocks = store.blocks();
    let Ok(u) = fin_at(store, fin, steps) else {
        unreachable!()
    };
    let Ok(v) = fin_at(store, u.mate, steps) else {
        unreachable!()
    };
    // No edge ends where it starts, so the ring has another fin.
    let first = ring_next(store, fin, steps);
    relabel(rec, fin, v.loop_, steps);
    join_rings(rec, fin, steps);
    put_loop(rec, v.loop_, v.face, first, steps);
    kill_all(rec, [u.loop_, u.face].as_slice(), steps);
    remove_edge(rec, fin, &u, steps);
}

/// What dies with the face of the fin: its loop, it itself, the fin, its mate and the edge.
fn side_of(fin: Tag, u: &PlacedFin) -> [Tag; 5]
    ensures { result ≡ u.now.loop_ ∷ u.now.face ∷ fin ∷ u.now.mate ∷ u.now.edge ∷ [] }
{
    [u.loop_, u.face, fin, u.mate, u.edge]
}
