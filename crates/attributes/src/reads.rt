//! What attributes an entity has: read, and not changed.
ghost use Rattle.std.specs.Prelude.{◌≡◌, [], length, Contains, IfNone, IfSome, IsOk, MatchResult};
ghost use Rattle.solid_model.specs.Attributes.{attribute_named as the_attribute_named, owner_of_attributes_at};
ghost use Rattle.solid_model.specs.Shapes.{shape_of};
ghost use Rattle.solid_model.specs.Sound.{IsSound};
ghost use Rattle.solid_calls.specs.Attributes.{attributes_on};
ghost use Rattle.attributes.specs.Entities.{is_attribute as the_test_of_attributes, is_named as the_test_of_names};

use entity_store::{Steps, Store};
use pk_base::{Class, Entity, Name, Refusal, Tag};
use std::sync::ledger::Ledger;

/// How many attributes the owner has.
pub fn count_attributes<L: Ledger>(store: &Store, owner: Tag, steps: &mut Steps<L>) -> usize
    ensures { result ≡ length (attributes_on store.now.state.map owner) }
{
    // Its clauses say that the blocks own the tag of each entity, so there are few.
    let _blocks = store.blocks();
    let mut kids = store.kids(owner);
    let mut count = 0;
    while let Some((_, entity)) = kids.next(steps) {
        if is_attribute(entity) {
            count += 1;
        }
    }
    count
}

/// One of the owner's attributes, where it has any.
pub(crate) fn one_attribute<L: Ledger>(
    store: &Store,
    owner: Tag,
    steps: &mut Steps<L>,
) -> Option<Tag>
    ensures some { IfSome result (Contains (attributes_on store.now.state.map owner)) }
    ensures none { IfNone result (attributes_on store.now.state.map owner ≡ []) }
{
    let mut kids = store.kids(owner);
    while let Some((tag, kid)) = kids.next(steps) {
        if is_attribute(kid) {
            return Some(tag);
        }
    }
    None
}

/// The attribute that the owner has of this name.
pub(crate) fn attribute_named<L: Ledger>(
    store: &Store,
    owner: Tag,
    name: Name,
    steps: &mut Steps<L>,
) -> Option<Tag>
    requires { IsSound store.now.state.map }
    ensures { result ≡ the_attribute_named (shape_of store.now.state.map) owner name }
{
    let mut kids = store.kids(owner);
    while let Some((tag, entity)) = kids.next(steps) {
        if is_named(entity, name) {
            return Some(tag);
        }
    }
    None
}

/// Why the entity may have no attributes: it is not live, or is an attribute itself.
pub(crate) fn may_own<L: Ledger>(
    store: &Store,
    owner: Tag,
    steps: &mut Steps<L>,
) -> Result<(), Refusal>
    ensures { MatchResult result
        (λ _. IsOk (owner_of_attributes_at (shape_of store.now.state.map) owner))
        (λ e. owner_of_attributes_at (shape_of store.now.state.map) owner ≡ Err e) }
{
    let Some(entity) = store.get(owner, steps) else {
        return Err(Refusal::NoSuchTag(owner));
    };
    if is_attribute(entity) {
        return Err(Refusal::WrongClass(owner, Class::Attr));
    }
    Ok(())
}

/// Whether it is an attribute.
fn is_attribute(entity: &Entity) -> bool
    ensures { result ≡ the_test_of_attributes entity.now }
{
    match entity {
        Entity::Attr { .. } => true,
        Entity::Body { .. }
        | Entity::Shell { .. }
        | Entity::Face { .. }
        | Entity::Loop { .. }
        | Entity::Fin { .. }
        | Entity::Edge { .. }
        | Entity::Vertex { .. } => false,
    }
}

/// Whether it is an attribute of this name.
fn is_named(entity: &Entity, name: Name) -> bool
    ensures { result ≡ the_test_of_names name entity.now }
{
    match entity {
        Entity::Attr { name: other, .. } => *other == name,
        Entity::Body { .. }
        | Entity::Shell { .. }
        | Entity::Face { .. }
        | Entity::Loop { .. }
        | Entity::Fin { .. }
        | Entity::Edge { .. }
        | Entity::Vertex { .. } => false,
    }
}
