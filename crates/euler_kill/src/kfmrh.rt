//! The operator kfmrh.
ghost use Rattle.std.specs.Prelude.{◌≡◌, []};
ghost use Rattle.pk_base.specs.declared.call.Call.TheVariants.{Kfmrh};
ghost use Rattle.solid_model.specs.Sound.{IsSound};
ghost use Rattle.solid_calls.specs.Pairs.{HasDone, MayDo, NeedsAsRow};

use attributes::count_attributes;
use entity_store::{Need, Recorder, Steps, Store};
use pk_base::{Refusal, Tag};
use solid_edits::{add_q, give_loop};
use solid_places::{face_at, has_rings};
use std::sync::ledger::Ledger;

/// What `kfmrh_do` needs, or why it is refused. It takes no memory.
pub fn kfmrh_need<L: Ledger>(
    store: &Store,
    keep: Tag,
    kill: Tag,
    steps: &mut Steps<L>,
) -> Result<Need, Refusal>
    requires { IsSound store.now.state.map }
    ensures { NeedsAsRow store.now.state.map (Kfmrh keep kill) result }
{
    let kept = face_at(store, keep, steps)?;
    let killed = face_at(store, kill, steps)?;
    if keep == kill {
        return Err(Refusal::SameFace(keep));
    }
    if kept.body != killed.body {
        return Err(Refusal::NotOneBody(kept.body, killed.body));
    }
    if has_rings(store, kill, steps) {
        return Err(Refusal::HasRings(kill));
    }
    // Its clauses say that there are few blocks, and so few attributes.
    let _blocks = store.blocks();
    let attributes = count_attributes(store, kill, steps);
    Ok(Need {
        tags: 0,
        changes: attributes + 3,
        list: 0,
    })
}

/// Kills a face without rings, whose loop becomes a ring of another face of its body, and so makes
/// a hole.
///
/// Before, the loop is the one loop of the face to kill. After, it is a ring of the face to keep,
/// and the q of the shell is one less. The fins of the loop stay in their order, and so does its
/// lone vertex. The attributes of the killed face die with it.
///
/// Takes no tags.
///
/// Refuses, in this order: for the face to keep and then for the one to kill, a tag that is not
/// live (`NoSuchTag`) and one that is no face (`WrongClass`); one face twice (`SameFace` with it);
/// faces of different bodies (`NotOneBody` with both); a face to kill that has more than one loop
/// (`HasRings` with it). A refusal changes nothing.
///
/// `Mfkrh` of the ring undoes it, but for the tag of the face and its attributes.
///
/// Source: Mäntylä, An Introduction to Solid Modeling, 1988 (kill face, make ring, hole); the
/// form is this project's own.
pub fn kfmrh_do<L: Ledger>(rec: &mut Recorder<'_>, keep: Tag, kill: Tag, steps: &mut Steps<L>)
    requires { MayDo rec.old.store.now (Kfmrh keep kill) [] }
    ensures done { HasDone rec.old.store.now (Kfmrh keep kill) [] rec.new.store.now }
    ensures same_store { rec.new.store.ghost_name ≡ rec.old.store.ghost_name }
{
    // Its clauses say that the blocks of what is live are owned.
    let _blocks = rec.view().blocks();
    let Ok(killed) = face_at(rec.view(), kill, steps) else {
        unreachable!()
    };
    solid_edits::kill(rec, kill, steps);
    give_loop(rec, killed.outer, keep, steps);
    add_q(rec, killed.shell, -1, steps);
}
