//! An operator that makes, and then the one that kills what it made: the map is the very map
//! before.
ghost use Rattle.std.specs.Prelude.{◌≡◌, ◌⊎◌, List, OnOk, OnErr};
ghost use Rattle.pk_base.specs.declared.tag.Tag.{Tag};
ghost use Rattle.pk_base.specs.declared.entity.Triple.{Triple};
ghost use Rattle.pk_base.specs.declared.call.Call.TheVariants.{Mvfs, Kvfs, Mev, Kev, Mef, Kef};
ghost use Rattle.pk_base.specs.declared.call.Call.TheVariants.{Mfkrh, Kfmrh};
ghost use Rattle.pk_model.specs.Maps.{EntityMap};
ghost use Rattle.pk_model.specs.Tags.{tag_at};
ghost use Rattle.solid_model.specs.Owners.{owner_in};
ghost use Rattle.solid_model.specs.Shapes.{shape_of};
ghost use Rattle.solid_model.specs.Sound.{IsSound};
ghost use Rattle.euler_laws.specs.Both.{GivesBack, IsBetween, IsUntouched, MayFollow, MayTake};
ghost use Rattle.euler_laws.specs.Both.{taken};

use crate::operator::{Operator, carry_out, nth};
use crate::reading::face_of;
use entity_store::{Steps, Store, Tags};
use pk_base::{NoMemory, Tag, Triple};
use std::alloc::Global;
use std::sync::ledger::Ledger;

/// Makes a body of one vertex (`mvfs`), and kills it again (`kvfs`): the map is the very map
/// before.
///
/// Takes the five tags of `mvfs`. Without memory the map is the one before, or the one with the
/// body.
pub fn mvfs_kvfs<L: Ledger>(
    alloc: Global,
    store: &mut Store,
    at: Triple,
    tags: &mut Tags<'_>,
    steps: &mut Steps<L>,
) -> Result<(), NoMemory>
    requires { MayTake store.old.state (Mvfs at) 5 tags.old }
    ensures law { (m : EntityMap) (at : Triple) (tags : List Tag) → MayFollow m (Mvfs at) 5 tags
        → GivesBack m (Mvfs at) (Kvfs (tag_at tags 0)) tags }
    ensures map { OnOk result (store.new.state.map ≡ store.old.state.map) }
    ensures blocks { store.new.state.blocks ≡ store.old.state.blocks }
    ensures sound { IsSound store.new.state.map }
    ensures taken { OnOk result (tags.new ≡ taken 5 tags.old) }
    ensures err { OnErr result
        (IsUntouched store.old.state.map tags.old store.new.state.map tags.new
        ⊎ IsBetween store.old.state.map (Mvfs at) tags.old store.new.state.map tags.new) }
{
    let made = carry_out(alloc, store, Operator::Mvfs { at }, tags, steps)?;
    let body = nth(&made, 0);
    carry_out(alloc, store, Operator::Kvfs { body }, tags, steps)?;
    Ok(())
}

/// Makes an edge to a new vertex (`mev`), and kills both again (`kev` of the fin out): the map is
/// the very map before.
///
/// Takes the four tags of `mev`. Without memory the map is the one before, or the one with the
/// edge.
pub fn mev_kev<L: Ledger>(
    alloc: Global,
    store: &mut Store,
    end: Tag,
    at: Triple,
    tags: &mut Tags<'_>,
    steps: &mut Steps<L>,
) -> Result<(), NoMemory>
    requires { MayTake store.old.state (Mev end at) 4 tags.old }
    ensures law { (m : EntityMap) (end : Tag) (at : Triple) (tags : List Tag)
        → MayFollow m (Mev end at) 4 tags
        → GivesBack m (Mev end at) (Kev (tag_at tags 2)) tags }
    ensures map { OnOk result (store.new.state.map ≡ store.old.state.map) }
    ensures blocks { store.new.state.blocks ≡ store.old.state.blocks }
    ensures sound { IsSound store.new.state.map }
    ensures taken { OnOk result (tags.new ≡ taken 4 tags.old) }
    ensures err { OnErr result
        (IsUntouched store.old.state.map tags.old store.new.state.map tags.new
        ⊎ IsBetween store.old.state.map (Mev end at) tags.old store.new.state.map tags.new) }
{
    let made = carry_out(alloc, store, Operator::Mev { end, at }, tags, steps)?;
    let fin = nth(&made, 2);
    carry_out(alloc, store, Operator::Kev { fin }, tags, steps)?;
    Ok(())
}

/// Makes an edge between two fins of one loop, and so cuts a new face off (`mef`), and kills both
/// again (`kef` of the fin in the new loop): the map is the very map before.
///
/// Takes the five tags of `mef`. Without memory the map is the one before, or the one with the
/// face.
pub fn mef_kef<L: Ledger>(
    alloc: Global,
    store: &mut Store,
    from: Tag,
    to: Tag,
    tags: &mut Tags<'_>,
    steps: &mut Steps<L>,
) -> Result<(), NoMemory>
    requires { MayTake store.old.state (Mef from to) 5 tags.old }
    ensures law { (m : EntityMap) (from to : Tag) (tags : List Tag)
        → MayFollow m (Mef from to) 5 tags
        → GivesBack m (Mef from to) (Kef (tag_at tags 3)) tags }
    ensures map { OnOk result (store.new.state.map ≡ store.old.state.map) }
    ensures blocks { store.new.state.blocks ≡ store.old.state.blocks }
    ensures sound { IsSound store.new.state.map }
    ensures taken { OnOk result (tags.new ≡ taken 5 tags.old) }
    ensures err { OnErr result
        (IsUntouched store.old.state.map tags.old store.new.state.map tags.new
        ⊎ IsBetween store.old.state.map (Mef from to) tags.old store.new.state.map tags.new) }
{
    let made = carry_out(alloc, store, Operator::Mef { from, to }, tags, steps)?;
    let fin = nth(&made, 3);
    carry_out(alloc, store, Operator::Kef { fin }, tags, steps)?;
    Ok(())
}

/// Makes a face of a ring (`mfkrh`), and kills it again (`kfmrh`, with the face that had the ring
/// as the one to keep): the map is the very map before.
///
/// Takes the one tag of `mfkrh`. Without memory the map is the one before, or the one with the
/// face.
pub fn mfkrh_kfmrh<L: Ledger>(
    alloc: Global,
    store: &mut Store,
    ring: Tag,
    tags: &mut Tags<'_>,
    steps: &mut Steps<L>,
) -> Result<(), NoMemory>
    requires { MayTake store.old.state (Mfkrh ring) 1 tags.old }
    // The ring's owner is the face that has it.
    ensures law { (m : EntityMap) (ring : Tag) (tags : List Tag) → MayFollow m (Mfkrh ring) 1 tags
        → GivesBack m (Mfkrh ring) (Kfmrh (owner_in (shape_of m) ring) (tag_at tags 0)) tags }
    ensures map { OnOk result (store.new.state.map ≡ store.old.state.map) }
    ensures blocks { store.new.state.blocks ≡ store.old.state.blocks }
    ensures sound { IsSound store.new.state.map }
    ensures taken { OnOk result (tags.new ≡ taken 1 tags.old) }
    ensures err { OnErr result
        (IsUntouched store.old.state.map tags.old store.new.state.map tags.new
        ⊎ IsBetween store.old.state.map (Mfkrh ring) tags.old store.new.state.map tags.new) }
{
    let keep = face_of(store, ring, steps);
    let made = carry_out(alloc, store, Operator::Mfkrh { ring }, tags, steps)?;
    let kill = nth(&made, 0);
    carry_out(alloc, store, Operator::Kfmrh { keep, kill }, tags, steps)?;
    Ok(())
}
