ghost use Rattle.std.specs.Prelude.{◌≡◌, Err, IfOk, IfErr};
ghost use Rattle.entity_store.specs.Kids.{live_of};
ghost use Rattle.solid_model.specs.Places.{fins_at, loop_at as the_loop_at};
ghost use Rattle.solid_model.specs.Shapes.{shape_of};
ghost use Rattle.solid_model.specs.Sound.{IsSound};

use crate::FinIter;
use entity_store::{Steps, Store};
use pk_base::{Refusal, Tag};
use queries::first_fin;
use solid_places::loop_at;
use std::marker::Model;
use std::sync::ledger::Ledger;

/// A loop of a sound store. Contracts see the map of the store, and the loop.
#[derive(Drop)]
pub struct LoopView<'a> {
    store: &'a Store,
    ring: Tag,
    first: Option<Tag>,
}

impl<'a> Model for LoopView<'a> {
    ghost use Rattle.views.specs.Views.{LoopSeen, loop_code, HasFirst};

    ghost Value = { LoopSeen };

    ghost coded = { loop_code };

    ghost view = { λ v. record { map = v.store.now.state.map; ring = v.ring } };

    ghost invariant = { λ v. HasFirst v.store.now.state.map v.ring v.first };
}

impl<'a> LoopView<'a> {
    /// The loop under a tag. Refuses, in this order: a tag that is not live (`NoSuchTag`), and one
    /// that is no loop's (`WrongClass`). It takes no memory.
    pub fn at<L: Ledger>(
        store: &'a Store,
        ring: Tag,
        steps: &mut Steps<L>,
    ) -> Result<LoopView<'a>, Refusal>
        requires { IsSound store.now.state.map }
        ensures found { IfOk result (λ v. v ≡ record { map = store.now.state.map; ring = ring }) }
        ensures refused { IfErr result (λ e.
            the_loop_at (shape_of store.now.state.map) ring ≡ Err e) }
    {
        loop_at(store, ring, steps)?;
        Ok(LoopView {
            store,
            ring,
            first: first_fin(store, ring, steps),
        })
    }

    /// A walk over the fins of the loop, from its first one on.
    pub fn fins(&self) -> FinIter<'a>
        ensures { result ≡ live_of self.now.map (fins_at (shape_of self.now.map) self.now.ring) }
    {
        FinIter::over(self.store, self.first)
    }
}
