//! The call delete.
ghost use Rattle.std.specs.Prelude.{◌≡◌, [], IfNone, IfSome, IsSome};
ghost use Rattle.std.specs.FinMap.{get};
ghost use Rattle.pk_base.specs.declared.call.Call.TheVariants.{Delete};
ghost use Rattle.pk_model.specs.Maps.{EntityMap};
ghost use Rattle.solid_model.specs.Sound.{IsSound};
ghost use Rattle.solid_calls.specs.Pairs.{HasDone, MayDo, NeedsAsRow};
ghost use Rattle.euler_kill.specs.Below.{CountsBelow, IsBelowAny, IsOwned, IsPartOf, OwnsNone};

use entity_store::{Need, Recorder, Steps, Store};
use pk_base::{Refusal, Tag};
use solid_places::body_at;
use std::sync::ledger::Ledger;

/// The most owners that stand above an entity of a body: those of an attribute of a fin.
const MOST_OWNERS: u32 = 5;

/// What `delete_do` needs, or why it is refused. It takes no memory.
pub fn delete_need<L: Ledger>(
    store: &Store,
    body: Tag,
    steps: &mut Steps<L>,
) -> Result<Need, Refusal>
    requires { IsSound store.now.state.map }
    ensures { NeedsAsRow store.now.state.map (Delete body) result }
{
    body_at(store, body, steps)?;
    let changes = count_below(store, body, MOST_OWNERS, steps);
    Ok(Need {
        tags: 0,
        changes,
        list: 0,
    })
}

/// Kills a body with all that it owns, directly or not: its shell, faces, loops, fins, edges and
/// vertices, and the attributes of each. Nothing else changes.
///
/// What dies is found from the body on, by what each entity owns: so how many steps are counted
/// depends on the body alone.
///
/// Takes no tags.
///
/// Refuses, in this order: a tag that is not live (`NoSuchTag`), and one that is no body's
/// (`WrongClass`). A refusal changes nothing.
pub fn delete_do<L: Ledger>(rec: &mut Recorder<'_>, body: Tag, steps: &mut Steps<L>)
    requires { MayDo rec.old.store.now (Delete body) [] }
    ensures done { HasDone rec.old.store.now (Delete body) [] rec.new.store.now }
    ensures same_store { rec.new.store.ghost_name ≡ rec.old.store.ghost_name }
{
    while let Some(_entity) = rec.get(body, steps) {
        let leaf = leaf_below(rec.view(), body, steps);
        // Each live entity stands in an owned block.
        let _blocks = rec.view().blocks();
        rec.put(leaf, None, steps);
    }
}

/// An entity that owns none: this one, or one that it owns, directly or not.
fn leaf_below<L: Ledger>(store: &Store, tag: Tag, steps: &mut Steps<L>) -> Tag
    requires of { (m : EntityMap) × IsSound m × IsPartOf m store.now.state.map }
    requires live { IsSome (get store.now.state.map tag) }
    ensures live { IsSome (get store.now.state.map result) }
    ensures below { IsBelowAny store.now.state.map tag result }
    ensures leaf { OwnsNone store.now.state.map result }
{
    let mut here = tag;
    while let Some(kid) = one_kid(store, here, steps) {
        here = kid;
    }
    here
}

/// One of the entities that this one owns, where there is any.
fn one_kid<L: Ledger>(store: &Store, owner: Tag, steps: &mut Steps<L>) -> Option<Tag>
    ensures some { IfSome result (IsOwned store.now.state.map owner) }
    ensures none { IfNone result (OwnsNone store.now.state.map owner) }
{
    let mut kids = store.kids(owner);
    let (kid, _) = kids.next(steps)?;
    Some(kid)
}

/// How many entities stand so many owners below this one or fewer, itself included.
fn count_below<L: Ledger>(store: &Store, tag: Tag, levels: u32, steps: &mut Steps<L>) -> usize
    requires sound { IsSound store.now.state.map }
    requires live { IsSome (get store.now.state.map tag) }
    ensures { CountsBelow levels store.now.state.map tag result }
{
    if levels == 0 {
        return 1;
    }
    // Its clauses say that the blocks own the tag of each entity, so there are few.
    let _blocks = store.blocks();
    let mut kids = store.kids(tag);
    let mut count = 1;
    while let Some((kid, _)) = kids.next(steps) {
        count += count_below(store, kid, levels - 1, steps);
    }
    count
}
