//! The operator kemr.
ghost use Rattle.std.specs.Prelude.{◌≡◌, ◌≢◌, ◌∷◌, [], None, IfSome, IsTrue, Contains};
ghost use Rattle.std.specs.FinMap as map;
ghost use Rattle.pk_base.specs.declared.call.Call.TheVariants.{Kemr};
ghost use Rattle.pk_model.specs.Tags.{owns};
ghost use Rattle.entity_store.specs.NextTags.{left};
ghost use Rattle.solid_model.specs.Rows.{cost_of};
ghost use Rattle.solid_model.specs.Sound.{IsSound};
ghost use Rattle.halfedge.specs.LinkedRings.{IsInRing, Relinks, mate_in, ring_at, ring_of_any};
ghost use Rattle.solid_calls.specs.Pairs.{HasDone, HasTags, MayDo, NeedsAsRow, Takes, row_on};
ghost use Rattle.entity_store.specs.Room.{HasRoomForThese, PutsAmong};
ghost use Rattle.solid_edits.specs.EditedLoops.{HasParted, fins_behind, fins_between, other_than as the_other_than};

use crate::parted::{Parts, cut_out};
use entity_store::{Need, Recorder, Steps, Store, Tags};
use halfedge::ring_len;
use pk_base::{Refusal, Tag, TagListBuilder};
use solid_calls::take_tag;
use solid_edits::{count_dead, give_ring, least_of_any, loop_from, remove_edge};
use solid_places::{PlacedFin, fin_at};
use std::sync::ledger::Ledger;

/// What `kemr_do` needs, or why it is refused. It takes no memory.
pub fn kemr_need<L: Ledger>(store: &Store, fin: Tag, steps: &mut Steps<L>) -> Result<Need, Refusal>
    requires { IsSound store.now.state.map }
    ensures { NeedsAsRow store.now.state.map (Kemr fin) result }
{
    // There are few enough entities to count them.
    let _blocks = store.blocks();
    let u = fin_at(store, fin, steps)?;
    let w = fin_at(store, u.mate, steps)?;
    if u.loop_ != w.loop_ {
        return Err(Refusal::TwoLoops(u.loop_, w.loop_));
    }
    let ring = ring_len(store, fin, steps);
    let dead = count_dead(store, edge_of(fin, &u).as_slice(), steps);
    Ok(Need {
        tags: 1,
        changes: 2 + ring + dead,
        list: 1,
    })
}

/// Kills the edge of a fin f and its mate m, which has one loop L on both sides, and so cuts a ring
/// off.
///
/// Before, L is `f A m B`. After, L is `B`, or has the vertex where f started, alone, where B is
/// empty. The new loop, of L's face, is `A`, or has the vertex where m started, alone, where A is
/// empty. The edge, f and m die with their attributes.
///
/// Takes the new loop.
///
/// Refuses, in this order: a tag that is not live (`NoSuchTag`) and one that is no fin
/// (`WrongClass`); an edge with two loops (`TwoLoops` with f's loop and m's). A refusal changes
/// nothing.
///
/// `Mekr` undoes it, from the first fin of B or from L, to the first fin of A or to the new loop,
/// but for the tags and the attributes.
///
/// In a loop 70 of the fins `73 75 76 74`, where 73 and 74 are mates, `Kemr { fin: 73 }` with 80 as
/// the next tag takes 80. Then loop 80 is `75 76`, and loop 70 has the vertex where 73 started.
///
/// Source: Mäntylä, An Introduction to Solid Modeling, 1988; the form is this project's own.
pub fn kemr_do<L: Ledger>(
    rec: &mut Recorder<'_>,
    fin: Tag,
    tags: &mut Tags<'_>,
    out: &mut TagListBuilder,
    steps: &mut Steps<L>,
)
    requires may { MayDo rec.old.store.now (Kemr fin) (left tags.old) }
    requires tags { HasTags rec.old.store.now
        (cost_of (row_on rec.old.store.now.state.map (Kemr fin))) tags.old out.old }
    ensures done { HasDone rec.old.store.now (Kemr fin) (left tags.old) rec.new.store.now }
    ensures takes { Takes (cost_of (row_on rec.old.store.now.state.map (Kemr fin)))
        tags.old out.old tags.new out.new }
    ensures same_store { rec.new.store.ghost_name ≡ rec.old.store.ghost_name }
{
    // Each live entity stands in an owned block.
    let _blocks = rec.view().blocks();
    let Ok(u) = fin_at(rec.view(), fin, steps) else {
        unreachable!()
    };
    let Ok(w) = fin_at(rec.view(), u.mate, steps) else {
        unreachable!()
    };
    let ring = take_tag(tags, out);
    let least = part_ring(rec, fin, u.mate, ring, steps);
    rec.put(
        u.loop_,
        Some(loop_from(u.face, least.kept, u.vertex)),
        steps,
    );
    rec.put(ring, Some(loop_from(u.face, least.off, w.vertex)), steps);
    remove_edge(rec, fin, &u, steps);
}

/// What dies with an edge: the fin, its mate and the edge.
fn edge_of(fin: Tag, u: &PlacedFin) -> [Tag; 3]
    ensures { result ≡ fin ∷ u.now.mate ∷ u.now.edge ∷ [] }
{
    [fin, u.mate, u.edge]
}

/// Cuts a fin and its mate out of their ring, and gives the fins between them to a loop. Its result
/// is the least fin of each part. It takes no memory.
fn part_ring<L: Ledger>(
    rec: &mut Recorder<'_>,
    fin: Tag,
    mate: Tag,
    to: Tag,
    steps: &mut Steps<L>,
) -> Parts
    requires ring { IsInRing rec.old.store.now.state.map fin }
    requires mate { mate_in rec.old.store.now.state.map fin ≡ mate }
    requires among { Contains (ring_at rec.old.store.now.state.map fin) mate }
    requires other { mate ≢ fin }
    requires free { map.get rec.old.store.now.state.map to ≡ None }
    requires owned { IsTrue (owns rec.old.store.now.state.blocks to) }
    requires room { HasRoomForThese rec.old.store.now.recording
        (ring_at rec.old.store.now.state.map fin) }
    ensures parts { HasParted rec.old.store.now.state.map fin mate to result.kept result.off
        rec.new.store.now.state.map }
    ensures state { rec.new.store.now.state ≡ record rec.old.store.now.state
        { map = rec.new.store.now.state.map } }
    ensures puts { PutsAmong (ring_at rec.old.store.now.state.map fin)
        rec.old.store.now rec.new.store.now }
    ensures same_store { rec.new.store.ghost_name ≡ rec.old.store.ghost_name }
{
    let parts = cut_out(rec, fin, mate, steps);
    let kept = least_of_any(rec, parts.kept, steps);
    let off = least_of_any(rec, parts.off, steps);
    give_ring(rec, parts.off, to, steps);
    Parts { kept, off }
}
