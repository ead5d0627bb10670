//! An entity, and what it owns.
ghost use Rattle.std.specs.Prelude.{◌≡◌, ◌≤◌, [], IsOk};
ghost use Rattle.pk_base.specs.declared.act.Reply.TheVariants.{Is, List as Listed};
ghost use Rattle.pk_base.specs.declared.call.Call.TheVariants.{Ask, Kids};
ghost use Rattle.solid_model.specs.Euler.{list_of};
ghost use Rattle.solid_model.specs.Rows.{tells};
ghost use Rattle.solid_model.specs.Sound.{IsSound};
ghost use Rattle.solid_calls.specs.Pairs.{NeedsAsRow, row_on};

use crate::listing::{count_all, list_all};
use entity_store::{Need, Steps, Store};
use pk_base::{Entity, Refusal, Tag, TagListBuilder};
use std::sync::ledger::Ledger;

/// What `ask_do` needs, or why it is refused. It takes no memory.
pub fn ask_need<L: Ledger>(store: &Store, tag: Tag, steps: &mut Steps<L>) -> Result<Need, Refusal>
    ensures { NeedsAsRow store.now.state.map (Ask tag) result }
{
    let Some(_entity) = store.get(tag, steps) else {
        return Err(Refusal::NoSuchTag(tag));
    };
    Ok(Need {
        tags: 0,
        changes: 0,
        list: 0,
    })
}

/// The entity under a tag.
///
/// Refuses a tag that is not live (`NoSuchTag`).
pub fn ask_do<L: Ledger>(store: &Store, tag: Tag, steps: &mut Steps<L>) -> Entity
    requires sound { IsSound store.now.state.map }
    requires goes { IsOk (row_on store.now.state.map (Ask tag)) }
    ensures { row_on store.now.state.map (Ask tag) ≡ tells (Is result) }
{
    let entity = store.get(tag, steps).unwrap();
    *entity
}

/// What `kids_do` needs, or why it is refused. It takes no memory.
pub fn kids_need<L: Ledger>(store: &Store, tag: Tag, steps: &mut Steps<L>) -> Result<Need, Refusal>
    requires { IsSound store.now.state.map }
    ensures { NeedsAsRow store.now.state.map (Kids tag) result }
{
    let Some(_entity) = store.get(tag, steps) else {
        return Err(Refusal::NoSuchTag(tag));
    };
    // Its clauses say that the blocks own the tag of each entity, so there are few.
    let _blocks = store.blocks();
    let walk = store.kids(tag);
    let list = count_all(walk, steps);
    Ok(Need {
        tags: 0,
        changes: 0,
        list,
    })
}

/// Lists in `out`, which is empty, the entities that an entity owns, ascending by their tags:
/// attributes too.
///
/// Refuses a tag that is not live (`NoSuchTag`).
pub fn kids_do<L: Ledger>(store: &Store, tag: Tag, out: &mut TagListBuilder, steps: &mut Steps<L>)
    requires sound { IsSound store.now.state.map }
    requires goes { IsOk (row_on store.now.state.map (Kids tag)) }
    requires empty { out.old.items ≡ [] }
    requires spare { list_of (row_on store.now.state.map (Kids tag)) ≤ out.old.spare }
    ensures { row_on store.now.state.map (Kids tag) ≡ tells (Listed out.new.items) }
{
    let walk = store.kids(tag);
    list_all(walk, out, steps);
}
