ghost use Rattle.std.specs.Prelude.{◌≡◌, ℕ, Option};
ghost use Rattle.pk_base.specs.declared.call.Call.{Call};
ghost use Rattle.pk_model.specs.Modelling.{IsModeller};
ghost use Rattle.entity_store.specs.Modeller.{AddsAtMost, Needs, MayPerform, Performs};

use crate::{Recorder, Steps, Store, Tags};
use pk_base::{Call, Refusal, Reply, TagListBuilder};
use pk_model::Meaning;
use std::sync::ledger::Ledger;

/// What a call needs: how many tags it takes, of how many tags at most the entities are put, and
/// how many tags at most it lists.
#[derive(Clone, Copy, Debug, PartialEq, Eq)]
pub struct Need {
    pub tags: u64,
    pub changes: usize,
    pub list: usize,
}

/// What carries calls out on the solids of a store. Its meaning is the supertrait's `modelling`,
/// and both calls ask that the store's map is sound by it.
pub trait Modeller: Meaning + Copy + Send + Sync {
    /// How many steps at most each of the two calls adds; `None` where it names no bound.
    ghost step_limit: { Call → Option ℕ };

    /// What the call needs; or why it is refused, exactly where `step` refuses it. It takes no
    /// memory.
    fn need<L: Ledger>(
        &self,
        store: &Store,
        call: &Call,
        steps: &mut Steps<L>,
    ) -> Result<Need, Refusal>
        requires sound { Self.modelling.sound store.now.state.map }
        ensures needs { Needs Self.modelling store.now.state.map call.now result }
        ensures cost { AddsAtMost (Self.step_limit call.now) steps.old steps.new };

    /// Carries out a call that is not refused, with the next tags, and replies with a list made in
    /// `out`. It gives the map and the reply of `step`, takes just `cost` tags, and puts at most
    /// `changes` tags that were not put before. It takes no memory.
    fn perform<L: Ledger>(
        &self,
        rec: &mut Recorder<'_>,
        call: &Call,
        tags: &mut Tags<'_>,
        out: TagListBuilder,
        steps: &mut Steps<L>,
    ) -> Reply
        requires { MayPerform Self.modelling rec.old.store.now call.now tags.old out }
        ensures performs { Performs Self.modelling rec.old.store.now call.now tags.old
            result rec.new.store.now tags.new }
        ensures same_store { rec.new.store.ghost_name ≡ rec.old.store.ghost_name }
        ensures cost { AddsAtMost (Self.step_limit call.now) steps.old steps.new };

    /// The meaning is what is asked of a modeller.
    ghost lawful: { IsModeller Self.modelling };
}
