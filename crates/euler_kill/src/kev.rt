//! The operator kev.
ghost use Rattle.std.specs.Prelude.{◌≡◌, ◌≢◌, ◌∷◌, [], None, Some, IfSome};
ghost use Rattle.std.specs.FinMap as map;
ghost use Rattle.pk_base.specs.declared.call.Call.TheVariants.{Kev};
ghost use Rattle.pk_base.specs.declared.entity.Entity.TheVariants as entity;
ghost use Rattle.pk_base.specs.declared.tag.Tag.{Tag};
ghost use Rattle.solid_model.specs.Rings.{first_tag, from_least};
ghost use Rattle.solid_model.specs.Sound.{IsSound};
ghost use Rattle.halfedge.specs.LinkedRings.{IsInRing, ring_of_any};
ghost use Rattle.solid_calls.specs.Pairs.{HasDone, MayDo, NeedsAsRow};

use crate::parted::cut_out;
use entity_store::{Need, Recorder, Steps, Store};
use halfedge::ring_next;
use pk_base::{Entity, Refusal, Tag};
use solid_edits::{count_dead, kill, least_of_any, loop_from, remove_edge};
use solid_places::{PlacedFin, fin_at};
use std::sync::ledger::Ledger;

/// What `kev_do` needs, or why it is refused. It takes no memory.
pub fn kev_need<L: Ledger>(store: &Store, fin: Tag, steps: &mut Steps<L>) -> Result<Need, Refusal>
    requires { IsSound store.now.state.map }
    ensures { NeedsAsRow store.now.state.map (Kev fin) result }
{
    // No store has so many entities that the sum below could wrap.
    let _blocks = store.blocks();
    let placed = fin_at(store, fin, steps)?;
    let mate = fin_at(store, placed.mate, steps)?;
    if ring_next(store, fin, steps) != placed.mate {
        return Err(Refusal::NotStrut(fin));
    }
    let dead = count_dead(store, strut_of(fin, &placed, &mate).as_slice(), steps);
    Ok(Need {
        tags: 0,
        changes: 3 + dead,
        list: 0,
    })
}

/// Kills the edge of a fin f after which its mate m comes at once, and the vertex where m starts,
/// which has no other edge.
///
/// Before, the loop is `f m A`. After, it is `A`; where that is empty, the vertex where f starts is
/// its lone vertex. f, m, the edge and the vertex where m started are gone, with the attributes of
/// each.
///
/// Takes no tags and no memory.
///
/// Refuses, in this order: a tag that is not live (`NoSuchTag`); one that is no fin (`WrongClass`);
/// a fin after which its mate does not come at once (`NotStrut` with it). A refusal changes
/// nothing: `kev_need` tells it.
///
/// `Mev` at the first fin of A, or at the loop, undoes it, but for the tags and the attributes.
///
/// In a loop 68 of the fins `72 73`, where 72 starts at 69, `Kev { fin: 72 }` kills 72, 73, their
/// edge, and the vertex where 73 starts. Then loop 68 has no fins, and the lone vertex 69.
///
/// Source: Mäntylä, An Introduction to Solid Modeling, 1988; the form is this project's own.
pub fn kev_do<L: Ledger>(rec: &mut Recorder<'_>, fin: Tag, steps: &mut Steps<L>)
    requires { MayDo rec.old.store.now (Kev fin) [] }
    ensures done { HasDone rec.old.store.now (Kev fin) [] rec.new.store.now }
    ensures same_store { rec.new.store.ghost_name ≡ rec.old.store.ghost_name }
{
    // Each live entity and its owner stand in owned blocks.
    let _blocks = rec.view().blocks();
    let Ok(placed) = fin_at(rec.view(), fin, steps) else {
        unreachable!()
    };
    let Ok(mate) = fin_at(rec.view(), placed.mate, steps) else {
        unreachable!()
    };
    let parts = cut_out(rec, fin, placed.mate, steps);
    let first = least_left(rec, fin, &placed, parts.kept, steps);
    let rest = loop_from(placed.face, first, placed.vertex);
    rec.put(placed.loop_, Some(rest), steps);
    remove_edge(rec, fin, &placed, steps);
    kill(rec, mate.vertex, steps);
}

/// What dies with a strut: the fin, its mate, the edge, and the vertex where the mate starts.
fn strut_of(fin: Tag, placed: &PlacedFin, mate: &PlacedFin) -> [Tag; 4]
    ensures { result ≡ fin ∷ placed.now.mate ∷ placed.now.edge ∷ mate.now.vertex ∷ [] }
{
    [fin, placed.mate, placed.edge, mate.vertex]
}

/// The least fin of what is left of a ring without an edge's fin and its mate, where there is any.
/// The ring is walked only where one of the two was the least, which is the loop's first.
fn least_left<L: Ledger>(
    rec: &Recorder<'_>,
    fin: Tag,
    placed: &PlacedFin,
    rest: Option<Tag>,
    steps: &mut Steps<L>,
) -> Option<Tag>
    requires ring { IfSome rest (IsInRing rec.now.store.now.state.map) }
    requires first { let m = rec.now.store.now.state.map in
        (face : Tag) × (first : Tag)
        × (map.get m placed.now.loop_ ≡ Some (entity.Loop face (Some first) None))
        × (first ≢ fin → first ≢ placed.now.mate
        → first_tag (from_least (ring_of_any m rest)) ≡ Some first) }
    ensures { result ≡ first_tag (from_least (ring_of_any rec.now.store.now.state.map rest)) }
{
    let Some(
        Entity::Loop {
            first: Some(first),
            ..
        },
    ) = rec.get(placed.loop_, steps).copied()
    else {
        unreachable!()
    };
    if first == fin || first == placed.mate {
        least_of_any(rec, rest, steps)
    } else {
        Some(first)
    }
}
