//! The operator mfkrh.
ghost use Rattle.std.specs.Prelude.{◌≡◌};
ghost use Rattle.entity_store.specs.NextTags.{left};
ghost use Rattle.pk_base.specs.declared.call.Call.TheVariants.{Mfkrh};
ghost use Rattle.solid_model.specs.Rows.{cost_of};
ghost use Rattle.solid_model.specs.Sound.{IsSound};
ghost use Rattle.solid_calls.specs.Pairs.{HasDone, HasTags, MayDo, NeedsAsRow, Takes, row_on};

use entity_store::{Need, Recorder, Steps, Store, Tags};
use pk_base::{Entity, Refusal, Tag, TagListBuilder};
use solid_calls::take_tag;
use solid_edits::{add_q, give_loop};
use solid_places::loop_at;
use std::sync::ledger::Ledger;

/// What `mfkrh_do` needs, or why it is refused. It takes no memory.
pub fn mfkrh_need<L: Ledger>(
    store: &Store,
    ring: Tag,
    steps: &mut Steps<L>,
) -> Result<Need, Refusal>
    requires { IsSound store.now.state.map }
    ensures { NeedsAsRow store.now.state.map (Mfkrh ring) result }
{
    let placed = loop_at(store, ring, steps)?;
    if ring == placed.outer {
        return Err(Refusal::IsOuter(ring));
    }
    Ok(Need {
        tags: 1,
        changes: 3,
        list: 1,
    })
}

/// Makes a face whose outer loop is a ring of another face, and so fills a hole.
///
/// Before, the loop is a ring of a face, which has another outer loop. After, it is the one loop of
/// a new face in the same shell, whose q is one more. The fins of the loop stay in their order, and
/// so does its lone vertex.
///
/// Takes one tag: the face.
///
/// Refuses, in this order: a tag that is not live (`NoSuchTag`); one that is no loop
/// (`WrongClass`); its face's outer loop (`IsOuter` with it). A refusal changes nothing.
///
/// `Kfmrh` undoes it, with the face that had the ring as the one to keep and the new face as the
/// one to kill.
///
/// Source: Mäntylä, An Introduction to Solid Modeling, 1988 (make face, kill ring, hole); the
/// form is this project's own.
pub fn mfkrh_do<L: Ledger>(
    rec: &mut Recorder<'_>,
    ring: Tag,
    tags: &mut Tags<'_>,
    out: &mut TagListBuilder,
    steps: &mut Steps<L>,
)
    requires may { MayDo rec.old.store.now (Mfkrh ring) (left tags.old) }
    requires tags { HasTags rec.old.store.now
        (cost_of (row_on rec.old.store.now.state.map (Mfkrh ring))) tags.old out.old }
    ensures done { HasDone rec.old.store.now (Mfkrh ring) (left tags.old) rec.new.store.now }
    ensures takes { Takes (cost_of (row_on rec.old.store.now.state.map (Mfkrh ring)))
        tags.old out.old tags.new out.new }
    ensures same_store { rec.new.store.ghost_name ≡ rec.old.store.ghost_name }
{
    // Its clauses say that the blocks of what is live are owned.
    let _blocks = rec.view().blocks();
    let Ok(placed) = loop_at(rec.view(), ring, steps) else {
        unreachable!()
    };
    let face = take_tag(tags, out);
    let made = Entity::Face {
        shell: placed.shell,
        outer: ring,
    };
    rec.put(face, Some(made), steps);
    give_loop(rec, ring, face, steps);
    add_q(rec, placed.shell, 1, steps);
}
