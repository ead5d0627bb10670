//! The way back.
ghost use Rattle.std.specs.Prelude.{◌≡◌, ◌+◌, ◌≤◌, length, IfOk};
ghost use Rattle.pk_model.specs.Maps.{EntityMap};
ghost use Rattle.delta.specs.Deltas.{StartsAt, after, inverse};

use crate::Delta;
use entity_store::{Change, ChangeListBuilder, Steps};
use pk_base::NoMemory;
use std::alloc::Global;
use std::sync::ledger::Ledger;

impl Delta {
    /// The delta that leads back: its changes have before and after swapped. One step for each
    /// change.
    pub fn inverse_of<L: Ledger>(
        alloc: Global,
        a: &Delta,
        steps: &mut Steps<L>,
    ) -> Result<Delta, NoMemory>
        ensures inverse { IfOk result (λ d. d ≡ inverse a.now) }
        // From where the delta leads it leads back.
        ensures starts { IfOk result (λ d. (m : EntityMap) → StartsAt m a.now
            → StartsAt (after m a.now) d) }
        ensures back { IfOk result (λ d. (m : EntityMap) → StartsAt m a.now
            → after (after m a.now) d ≡ m) }
        ensures cost { steps.new ≤ steps.old + length a.now }
    {
        let mut out = ChangeListBuilder::with_room(alloc, a.len())?;
        for i in 0..a.len() {
            let Change { tag, before, after } = *a.entry(i, steps);
            out.push(Change {
                tag,
                before: after,
                after: before,
            });
        }
        Ok(Delta::from_changes(out.finish()))
    }
}
