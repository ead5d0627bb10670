ghost use Rattle.std.specs.Prelude.{◌≡◌, ◌+◌, ◌∷◌, [], IfSome, IfNone};
ghost use Rattle.halfedge.specs.LinkedRings.{IsInRing, ring_of_any};
ghost use Rattle.entity_store.specs.Kids.{live_of};
ghost use Rattle.views.specs.Fins.{unless_first as the_next};

use entity_store::{Steps, Store};
use pk_base::{Entity, Tag};
use std::marker::Model;
use std::sync::ledger::Ledger;

/// A walk over the fins of a loop, from its first one on, each with the next one of the loop behind
/// it. Contracts see those that are left, with their tags.
#[derive(Drop)]
pub struct FinIter<'a> {
    store: &'a Store,
    // The fin with which the ring begins, and the one that is given next.
    first: Tag,
    next: Option<Tag>,
}

impl<'a> Model for FinIter<'a> {
    ghost use Rattle.std.specs.Prelude.{List};
    ghost use Rattle.pk_base.specs.declared.tag.Tag.{Tag};
    ghost use Rattle.pk_base.specs.declared.entity.Entity.{Entity};
    ghost use Rattle.entity_store.specs.Kids.{kids_code};
    ghost use Rattle.views.specs.Fins.{fins_left, IsWalk};

    ghost Value = { List (Tag × Entity) };

    ghost coded = { kids_code };

    ghost view = { λ i. fins_left i.store.now.state.map i.first i.next };

    ghost invariant = { λ i. IsWalk i.store.now.state.map i.first i.next };
}

impl<'a> FinIter<'a> {
    /// A walk over the ring of this fin, from it on; over none where there is no fin.
    pub(crate) fn over(store: &'a Store, first: Option<Tag>) -> FinIter<'a>
        requires { IfSome first (IsInRing store.now.state.map) }
        ensures { result ≡ live_of store.now.state.map (ring_of_any store.now.state.map first) }
    {
        FinIter {
            store,
            first: first.unwrap_or(Tag(0)),
            next: first,
        }
    }

    /// The next one, with its tag; `None` exactly where each was given. One step for each that is
    /// given, and none at the end. It takes no memory.
    pub fn next<L: Ledger>(&mut self, steps: &mut Steps<L>) -> Option<(Tag, &'a Entity)>
        ensures some { IfSome result (λ fin. self.old ≡ (fin.0, fin.1.now) ∷ self.new) }
        ensures none { IfNone result (self.old ≡ []) }
        ensures ended { IfNone result (self.new ≡ []) }
        ensures given { IfSome result (λ _. steps.new ≡ steps.old + 1) }
        ensures end { IfNone result (steps.new ≡ steps.old) }
    {
        let here = self.next?;
        let store = self.store;
        let fin = store.get(here, steps).unwrap();
        let Entity::Fin { next, .. } = fin else {
            unreachable!()
        };
        self.next = unless_first(self.first, *next);
        Some((here, fin))
    }
}

/// The fin that comes next, where it is not the first one again.
fn unless_first(first: Tag, next: Tag) -> Option<Tag>
    ensures { result ≡ the_next first next }
{
    if next == first { None } else { Some(next) }
}
