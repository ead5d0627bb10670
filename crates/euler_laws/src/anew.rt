//! An operator that kills, and then the one that makes what was killed anew: the map is the same
//! but for names.
ghost use Rattle.std.specs.Prelude.{◌≡◌, ◌⊎◌, [], ◌∷◌, List, OnOk, OnErr, drop, take};
ghost use Rattle.pk_base.specs.declared.tag.Tag.{Tag};
ghost use Rattle.pk_base.specs.declared.call.Call.TheVariants.{Kef, Kemr, Kev, Kfmrh, Kvfs};
ghost use Rattle.pk_base.specs.declared.call.Call.TheVariants.{Mef, Mekr, Mev, Mfkrh, Mvfs};
ghost use Rattle.pk_model.specs.Maps.{EntityMap};
ghost use Rattle.pk_model.specs.Tags.{tag_at};
ghost use Rattle.entity_store.specs.NextTags.{left};
ghost use Rattle.solid_model.specs.Places.{mate_at, outer_at};
ghost use Rattle.solid_model.specs.Shapes.{shape_of};
ghost use Rattle.solid_model.specs.Sound.{IsSound};
ghost use Rattle.euler_laws.specs.Both.{GivesBackButNames, IsBetween, IsUntouched, MayFollow};
ghost use Rattle.euler_laws.specs.Both.{MayTake, map_after_both, taken};
ghost use Rattle.solid_model.specs.SameButNames.{SameButNames};
ghost use Rattle.euler_laws.specs.Operands.{end_left as the_end_left};
ghost use Rattle.euler_laws.specs.Operands.{point_beyond as the_point_beyond};
ghost use Rattle.euler_laws.specs.Operands.{bare_body, bridge, cut_end, face_and_edge};
ghost use Rattle.euler_laws.specs.Operands.{fin_after as the_fin_after, loop_at_end, strut};
ghost use Rattle.euler_laws.specs.Operands.{kept_end as the_kept_end};
ghost use Rattle.euler_laws.specs.Operands.{point_of_body as the_point_of_body};

use crate::operator::{Operator, carry_out, nth};
use crate::reading::{
    end_left, fin_after, first_between, kept_end, mate_of, or_ring, outer_of, point_beyond,
    point_of_body,
};
use entity_store::{Steps, Store, Tags};
use pk_base::{NoMemory, Tag};
use std::alloc::Global;
use std::sync::ledger::Ledger;

/// Kills a body of one vertex (`kvfs`), and makes one anew (`mvfs` at the same point): the map is
/// the same but for the names of the body, its shell, its face, its loop and its vertex.
///
/// Takes the five tags of `mvfs`. Without memory the map is the one before, or the one without the
/// body.
pub fn kvfs_mvfs<L: Ledger>(
    alloc: Global,
    store: &mut Store,
    body: Tag,
    tags: &mut Tags<'_>,
    steps: &mut Steps<L>,
) -> Result<(), NoMemory>
    requires { MayTake store.old.state (Kvfs body) 5 tags.old }
    ensures law { (m : EntityMap) (body : Tag) (tags : List Tag) → MayFollow m (Kvfs body) 5 tags
        → GivesBackButNames m (Kvfs body) (Mvfs (the_point_of_body (shape_of m) body)) tags
        (bare_body (shape_of m) body) (take 5 tags) }
    ensures map { OnOk result (SameButNames
        (bare_body (shape_of store.old.state.map) body) (take 5 (left tags.old))
        (shape_of store.old.state.map) (shape_of store.new.state.map)) }
    ensures carried { OnOk result (store.new.state.map ≡ map_after_both store.old.state.map
        (Kvfs body)
        (Mvfs (the_point_of_body (shape_of store.old.state.map) body))
        (left tags.old)) }
    ensures blocks { store.new.state.blocks ≡ store.old.state.blocks }
    ensures sound { IsSound store.new.state.map }
    ensures taken { OnOk result (tags.new ≡ taken 5 tags.old) }
    ensures err { OnErr result
        (IsUntouched store.old.state.map tags.old store.new.state.map tags.new
        ⊎ IsBetween store.old.state.map (Kvfs body) tags.old store.new.state.map tags.new) }
{
    let at = point_of_body(store, body, steps);
    carry_out(alloc, store, Operator::Kvfs { body }, tags, steps)?;
    carry_out(alloc, store, Operator::Mvfs { at }, tags, steps)?;
    Ok(())
}

/// Makes an edge between two loops of one face, and kills the one that is a ring (`mekr`), and
/// kills the edge again (`kemr` of the fin at the loop that was kept): the map is the same but for
/// the name of the ring.
///
/// Takes the three tags of `mekr`, and the one of `kemr`. Without memory the map is the one before,
/// or the one with the edge.
pub fn mekr_kemr<L: Ledger>(
    alloc: Global,
    store: &mut Store,
    keep: Tag,
    ring: Tag,
    tags: &mut Tags<'_>,
    steps: &mut Steps<L>,
) -> Result<(), NoMemory>
    requires { MayTake store.old.state (Mekr keep ring) 4 tags.old }
    ensures law { (m : EntityMap) (keep ring : Tag) (tags : List Tag)
        → MayFollow m (Mekr keep ring) 4 tags
        → GivesBackButNames m (Mekr keep ring) (Kemr (tag_at tags 1)) tags
        (loop_at_end (shape_of m) ring ∷ []) (tag_at tags 3 ∷ []) }
    ensures map { OnOk result (SameButNames
        (loop_at_end (shape_of store.old.state.map) ring ∷ []) (tag_at (left tags.old) 3 ∷ [])
        (shape_of store.old.state.map) (shape_of store.new.state.map)) }
    ensures carried { OnOk result (store.new.state.map ≡ map_after_both store.old.state.map
        (Mekr keep ring)
        (Kemr (tag_at (left tags.old) 1))
        (left tags.old)) }
    ensures blocks { store.new.state.blocks ≡ store.old.state.blocks }
    ensures sound { IsSound store.new.state.map }
    ensures taken { OnOk result (tags.new ≡ taken 4 tags.old) }
    ensures err { OnErr result
        (IsUntouched store.old.state.map tags.old store.new.state.map tags.new
        ⊎ IsBetween store.old.state.map (Mekr keep ring) tags.old store.new.state.map tags.new) }
{
    let made = carry_out(alloc, store, Operator::Mekr { keep, ring }, tags, steps)?;
    let fin = nth(&made, 1);
    carry_out(alloc, store, Operator::Kemr { fin }, tags, steps)?;
    Ok(())
}

/// Kills an edge that ends at a vertex with no other edge, and that vertex (`kev`), and makes both
/// anew (`mev` from the same place to the same point): the map is the same but for the names of the
/// vertex, the edge and its two fins.
///
/// Takes the four tags of `mev`. Without memory the map is the one before, or the one without the
/// edge.
pub fn kev_mev<L: Ledger>(
    alloc: Global,
    store: &mut Store,
    fin: Tag,
    tags: &mut Tags<'_>,
    steps: &mut Steps<L>,
) -> Result<(), NoMemory>
    requires { MayTake store.old.state (Kev fin) 4 tags.old }
    ensures law { (m : EntityMap) (fin : Tag) (tags : List Tag) → MayFollow m (Kev fin) 4 tags
        → GivesBackButNames m (Kev fin)
        (Mev (the_end_left (shape_of m) fin) (the_point_beyond (shape_of m) fin)) tags
        (strut (shape_of m) fin) (take 4 tags) }
    ensures map { OnOk result (SameButNames
        (strut (shape_of store.old.state.map) fin) (take 4 (left tags.old))
        (shape_of store.old.state.map) (shape_of store.new.state.map)) }
    ensures carried { OnOk result (store.new.state.map ≡ map_after_both store.old.state.map
        (Kev fin)
        (Mev (the_end_left (shape_of store.old.state.map) fin)
        (the_point_beyond (shape_of store.old.state.map) fin))
        (left tags.old)) }
    ensures blocks { store.new.state.blocks ≡ store.old.state.blocks }
    ensures sound { IsSound store.new.state.map }
    ensures taken { OnOk result (tags.new ≡ taken 4 tags.old) }
    ensures err { OnErr result
        (IsUntouched store.old.state.map tags.old store.new.state.map tags.new
        ⊎ IsBetween store.old.state.map (Kev fin) tags.old store.new.state.map tags.new) }
{
    let end = end_left(store, fin, steps);
    let at = point_beyond(store, fin, steps);
    carry_out(alloc, store, Operator::Kev { fin }, tags, steps)?;
    carry_out(alloc, store, Operator::Mev { end, at }, tags, steps)?;
    Ok(())
}

/// Kills an edge between two faces, and the face of its fin (`kef`), and makes both anew (`mef`
/// between the fins that came after the two): the map is the same but for the names of the face,
/// its loop, the edge and its two fins.
///
/// Takes the five tags of `mef`. Without memory the map is the one before, or the one without the
/// edge.
pub fn kef_mef<L: Ledger>(
    alloc: Global,
    store: &mut Store,
    fin: Tag,
    tags: &mut Tags<'_>,
    steps: &mut Steps<L>,
) -> Result<(), NoMemory>
    requires { MayTake store.old.state (Kef fin) 5 tags.old }
    ensures law { (m : EntityMap) (fin : Tag) (tags : List Tag) → MayFollow m (Kef fin) 5 tags
        → GivesBackButNames m (Kef fin)
        (Mef (the_fin_after (shape_of m) fin)
        (the_fin_after (shape_of m) (mate_at (shape_of m) fin))) tags
        (face_and_edge (shape_of m) fin) (take 5 tags) }
    ensures map { OnOk result (SameButNames
        (face_and_edge (shape_of store.old.state.map) fin) (take 5 (left tags.old))
        (shape_of store.old.state.map) (shape_of store.new.state.map)) }
    ensures carried { OnOk result (store.new.state.map ≡ map_after_both store.old.state.map
        (Kef fin)
        (Mef (the_fin_after (shape_of store.old.state.map) fin)
        (the_fin_after (shape_of store.old.state.map) (mate_at (shape_of store.old.state.map) fin)))
        (left tags.old)) }
    ensures blocks { store.new.state.blocks ≡ store.old.state.blocks }
    ensures sound { IsSound store.new.state.map }
    ensures taken { OnOk result (tags.new ≡ taken 5 tags.old) }
    ensures err { OnErr result
        (IsUntouched store.old.state.map tags.old store.new.state.map tags.new
        ⊎ IsBetween store.old.state.map (Kef fin) tags.old store.new.state.map tags.new) }
{
    let mate = mate_of(store, fin, steps);
    let from = fin_after(store, fin, steps);
    let to = fin_after(store, mate, steps);
    carry_out(alloc, store, Operator::Kef { fin }, tags, steps)?;
    carry_out(alloc, store, Operator::Mef { from, to }, tags, steps)?;
    Ok(())
}

/// Kills an edge that has one loop on both sides, and so cuts a ring off (`kemr`), and makes the
/// edge anew between the two (`mekr`): the map is the same but for the names of the edge and its
/// two fins.
///
/// Takes the one tag of `kemr`, and the three of `mekr`. Without memory the map is the one before,
/// or the one with the ring.
pub fn kemr_mekr<L: Ledger>(
    alloc: Global,
    store: &mut Store,
    fin: Tag,
    tags: &mut Tags<'_>,
    steps: &mut Steps<L>,
) -> Result<(), NoMemory>
    requires { MayTake store.old.state (Kemr fin) 4 tags.old }
    ensures law { (m : EntityMap) (fin : Tag) (tags : List Tag) → MayFollow m (Kemr fin) 4 tags
        → GivesBackButNames m (Kemr fin)
        (Mekr (the_kept_end (shape_of m) fin) (cut_end (shape_of m) fin (tag_at tags 0))) tags
        (bridge (shape_of m) fin) (drop 1 (take 4 tags)) }
    ensures map { OnOk result (SameButNames
        (bridge (shape_of store.old.state.map) fin) (drop 1 (take 4 (left tags.old)))
        (shape_of store.old.state.map) (shape_of store.new.state.map)) }
    ensures carried { OnOk result (store.new.state.map ≡ map_after_both store.old.state.map
        (Kemr fin)
        (Mekr (the_kept_end (shape_of store.old.state.map) fin)
        (cut_end (shape_of store.old.state.map) fin (tag_at (left tags.old) 0)))
        (left tags.old)) }
    ensures blocks { store.new.state.blocks ≡ store.old.state.blocks }
    ensures sound { IsSound store.new.state.map }
    ensures taken { OnOk result (tags.new ≡ taken 4 tags.old) }
    ensures err { OnErr result
        (IsUntouched store.old.state.map tags.old store.new.state.map tags.new
        ⊎ IsBetween store.old.state.map (Kemr fin) tags.old store.new.state.map tags.new) }
{
    let keep = kept_end(store, fin, steps);
    let between = first_between(store, fin, steps);
    let made = carry_out(alloc, store, Operator::Kemr { fin }, tags, steps)?;
    let cut = nth(&made, 0);
    let ring = or_ring(between, cut);
    carry_out(alloc, store, Operator::Mekr { keep, ring }, tags, steps)?;
    Ok(())
}

/// Kills a face, whose loop becomes a ring of another face (`kfmrh`), and makes a face of that ring
/// anew (`mfkrh`): the map is the same but for the name of the face.
///
/// Takes the one tag of `mfkrh`. Without memory the map is the one before, or the one with the
/// ring.
pub fn kfmrh_mfkrh<L: Ledger>(
    alloc: Global,
    store: &mut Store,
    keep: Tag,
    kill: Tag,
    tags: &mut Tags<'_>,
    steps: &mut Steps<L>,
) -> Result<(), NoMemory>
    requires { MayTake store.old.state (Kfmrh keep kill) 1 tags.old }
    ensures law { (m : EntityMap) (keep kill : Tag) (tags : List Tag)
        → MayFollow m (Kfmrh keep kill) 1 tags
        → GivesBackButNames m (Kfmrh keep kill) (Mfkrh (outer_at (shape_of m) kill)) tags
        (kill ∷ []) (take 1 tags) }
    ensures map { OnOk result (SameButNames (kill ∷ []) (take 1 (left tags.old))
        (shape_of store.old.state.map) (shape_of store.new.state.map)) }
    ensures carried { OnOk result (store.new.state.map ≡ map_after_both store.old.state.map
        (Kfmrh keep kill)
        (Mfkrh (outer_at (shape_of store.old.state.map) kill))
        (left tags.old)) }
    ensures blocks { store.new.state.blocks ≡ store.old.state.blocks }
    ensures sound { IsSound store.new.state.map }
    ensures taken { OnOk result (tags.new ≡ taken 1 tags.old) }
    ensures err { OnErr result
        (IsUntouched store.old.state.map tags.old store.new.state.map tags.new
        ⊎ IsBetween store.old.state.map (Kfmrh keep kill) tags.old store.new.state.map tags.new) }
{
    let ring = outer_of(store, keep, kill, steps);
    carry_out(alloc, store, Operator::Kfmrh { keep, kill }, tags, steps)?;
    carry_out(alloc, store, Operator::Mfkrh { ring }, tags, steps)?;
    Ok(())
}
