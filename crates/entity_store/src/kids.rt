ghost use Rattle.std.specs.Prelude.{◌≡◌, ◌+◌, ◌∷◌, [], IfSome, IfNone};
ghost use Rattle.std.specs.List.{AllByRecursion};
ghost use Rattle.entity_store.specs.Kids.{kids_at, IsLinkOfLive};

use crate::tags::tag_in;
use crate::{Steps, Store};
use owner_links::Children;
use pk_base::{Entity, TAGS_OF_A_BLOCK, Tag};
use std::marker::Model;
use std::sync::ledger::Ledger;

/// A walk over the live entities with one owner, or over those with none. Contracts see those that
/// are left, with their tags.
#[derive(Drop)]
pub struct KidWalk<'a> {
    store: &'a Store,
    links: Children<'a>,
}

impl<'a> Model for KidWalk<'a> {
    ghost use Rattle.std.specs.Prelude.{List};
    ghost use Rattle.std.specs.List.{AllByRecursion};
    ghost use Rattle.pk_base.specs.declared.tag.Tag.{Tag};
    ghost use Rattle.pk_base.specs.declared.entity.Entity.{Entity};
    ghost use Rattle.entity_store.specs.Kids.{kids_at, kids_code, IsLinkOfLive};

    ghost Value = { List (Tag × Entity) };

    ghost coded = { kids_code };

    ghost view = { λ w. kids_at w.store.now.state w.links };

    ghost invariant = { λ w. AllByRecursion (IsLinkOfLive w.store.now.state) w.links };
}

impl<'a> KidWalk<'a> {
    /// A walk over the entities in the slots of these links.
    pub(crate) fn over(store: &'a Store, links: Children<'a>) -> KidWalk<'a>
        requires { AllByRecursion (IsLinkOfLive store.now.state) links }
        ensures { result ≡ kids_at store.now.state links.entry }
    {
        KidWalk { store, links }
    }

    /// The next one, with its tag; `None` exactly where each was given. One step for each that is
    /// given, and none at the end. It takes no memory.
    pub fn next<L: Ledger>(&mut self, steps: &mut Steps<L>) -> Option<(Tag, &'a Entity)>
        ensures some { IfSome result (λ kid. self.old ≡ (kid.0, kid.1.now) ∷ self.new) }
        ensures none { IfNone result (self.old ≡ []) }
        ensures ended { IfNone result (self.new ≡ []) }
        ensures given { IfSome result (λ _. steps.new ≡ steps.old + 1) }
        ensures end { IfNone result (steps.new ≡ steps.old) }
    {
        let link = self.links.next()?;
        steps.tick();
        let slot = link - TAGS_OF_A_BLOCK;
        let store = self.store;
        let tag = tag_in(store.blocks(), u64::from(slot));
        Some((tag, store.entity_in(slot as usize).unwrap()))
    }
}
