//! The two calls on attributes.
ghost use Rattle.std.specs.Prelude.{◌≡◌, []};
ghost use Rattle.pk_base.specs.declared.call.Call.TheVariants.{SetAttr, DropAttr};
ghost use Rattle.entity_store.specs.NextTags.{left};
ghost use Rattle.solid_model.specs.Rows.{cost_of};
ghost use Rattle.solid_model.specs.Sound.{IsSound};
ghost use Rattle.solid_calls.specs.Pairs.{HasDone, HasTags, MayDo, NeedsAsRow, Takes, row_on};

use crate::reads::{attribute_named, may_own};
use entity_store::{Need, Recorder, Steps, Store, Tags};
use pk_base::{Entity, Name, Refusal, Tag, TagListBuilder};
use solid_calls::take_tag;
use std::sync::ledger::Ledger;

/// What it needs to set an attribute, or why that is refused. It takes no memory.
pub fn set_need<L: Ledger>(
    store: &Store,
    owner: Tag,
    name: Name,
    value: i64,
    steps: &mut Steps<L>,
) -> Result<Need, Refusal>
    requires { IsSound store.now.state.map }
    ensures { NeedsAsRow store.now.state.map (SetAttr owner name value) result }
{
    may_own(store, owner, steps)?;
    let made = match attribute_named(store, owner, name, steps) {
        Some(_) => 0,
        None => 1,
    };
    Ok(Need {
        tags: made,
        changes: 1,
        list: made as usize,
    })
}

/// Gives an entity an attribute of this name with this value.
///
/// Before, the owner may have an attribute of the name. After, that one has the value; where there
/// was none, the owner has one more attribute. Nothing else changes.
///
/// Takes the attribute where the owner had none of the name, and else nothing.
///
/// Refuses an owner that is not live (`NoSuchTag`) and one that is an attribute itself
/// (`WrongClass`). A refusal changes nothing.
///
/// `drop_do` undoes it where it made the attribute.
pub fn set_do<L: Ledger>(
    rec: &mut Recorder<'_>,
    owner: Tag,
    name: Name,
    value: i64,
    tags: &mut Tags<'_>,
    out: &mut TagListBuilder,
    steps: &mut Steps<L>,
)
    requires may { MayDo rec.old.store.now (SetAttr owner name value) (left tags.old) }
    requires tags { HasTags rec.old.store.now
        (cost_of (row_on rec.old.store.now.state.map (SetAttr owner name value)))
        tags.old out.old }
    ensures done { HasDone rec.old.store.now (SetAttr owner name value) (left tags.old)
        rec.new.store.now }
    ensures takes { Takes
        (cost_of (row_on rec.old.store.now.state.map (SetAttr owner name value)))
        tags.old out.old tags.new out.new }
    ensures same_store { rec.new.store.ghost_name ≡ rec.old.store.ghost_name }
{
    // The owner stands in an owned block.
    let _blocks = rec.view().blocks();
    let tag = match attribute_named(rec.view(), owner, name, steps) {
        Some(tag) => tag,
        None => take_tag(tags, out),
    };
    rec.put(tag, Some(Entity::Attr { owner, name, value }), steps);
}

/// What it needs to drop an attribute, or why that is refused. It takes no memory.
pub fn drop_need<L: Ledger>(
    store: &Store,
    owner: Tag,
    name: Name,
    steps: &mut Steps<L>,
) -> Result<Need, Refusal>
    requires { IsSound store.now.state.map }
    ensures { NeedsAsRow store.now.state.map (DropAttr owner name) result }
{
    may_own(store, owner, steps)?;
    if attribute_named(store, owner, name, steps).is_none() {
        return Err(Refusal::NoAttribute(owner));
    }
    Ok(Need {
        tags: 0,
        changes: 1,
        list: 0,
    })
}

/// Kills the attribute that an entity has of this name.
///
/// Before, the owner has an attribute of the name. After, it has none. Nothing else changes.
///
/// Takes no tags.
///
/// Refuses, in this order: an owner that is not live (`NoSuchTag`), one that is an attribute itself
/// (`WrongClass`), and one without an attribute of the name (`NoAttribute`). A refusal changes
/// nothing.
///
/// `set_do` undoes it, but for the attribute's tag.
pub fn drop_do<L: Ledger>(rec: &mut Recorder<'_>, owner: Tag, name: Name, steps: &mut Steps<L>)
    requires { MayDo rec.old.store.now (DropAttr owner name) [] }
    ensures done { HasDone rec.old.store.now (DropAttr owner name) [] rec.new.store.now }
    ensures same_store { rec.new.store.ghost_name ≡ rec.old.store.ghost_name }
{
    // Each live entity stands in an owned block.
    let _blocks = rec.view().blocks();
    let tag = attribute_named(rec.view(), owner, name, steps).unwrap();
    rec.put(tag, None, steps);
}
