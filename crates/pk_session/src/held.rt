//! A partition that a seat holds.
ghost use Rattle.std.specs.Prelude.{◌≡◌, ◌<◌, Some, Err, OnOk, OnErr};
ghost use Rattle.pk_base.specs.declared.act.Entry.TheVariants as entry;
ghost use Rattle.pk_base.specs.declared.refusal.Refusal.TheVariants as refusal;
ghost use Rattle.pk_model.specs.Step.{short};
ghost use Rattle.partition.specs.Partition.{Appends, Answers, Stays};
ghost use Rattle.partition.specs.Work.{StepsWithin};
ghost use Rattle.pk_session.specs.Views.{SeatView};
ghost use Rattle.pk_session.specs.Holding.{IsHeldBy};

use crate::kept::Kept;
use crate::seat::Seat;
use entity_store::{Modeller, Steps};
use partition::Partition;
use pk_base::{Act, Fault, NoMemory, Reply};
use session_table::OfSession;
use std::marker::Model;
use std::sync::ledger::Ledger;

/// A partition that a seat holds, until it is unlocked. It may be moved between threads. Contracts
/// see the partition and its session, which never changes.
#[derive(Drop)]
pub struct Held<K: Modeller> {
    pub(crate) partition: Partition<K>,
    pub(crate) session: OfSession<Kept<K>>,
}

impl<K: Modeller> Model for Held<K> {
    ghost use Rattle.std.specs.Prelude.{IsSome};
    ghost use Rattle.pk_session.specs.Views.{HeldView, held_code};

    ghost Value = { HeldView };

    ghost coded = { held_code };

    ghost view = { λ h. record { session = h.session; partition = h.partition } };

    ghost invariant = { λ h. IsSome h.partition.state.holder };
}

impl<K: Modeller> Held<K> {
    /// The partition.
    pub fn partition(&self) -> &Partition<K>
        ensures { result.now ≡ self.now.partition }
    {
        &self.partition
    }

    /// The call on the partition that the act names, under the partition's condition. It takes no
    /// atomic step, and reads and writes no more entities than the partition's `act` may.
    pub fn act<L: Ledger>(&mut self, act: Act, steps: &mut Steps<L>) -> Result<Reply, Fault>
        requires enough { short K.modelling self.old.partition.state act ≡ 0 }
        ensures answers { Answers K.modelling self.old.partition act result self.new.partition }
        ensures session { self.new.session ≡ self.old.session }
        ensures holds { (s : SeatView) → IsHeldBy s self.old → IsHeldBy s self.new }
        ensures cost { StepsWithin K.modelling K.step_limit self.old.partition act result
            steps.old steps.new }
    {
        self.partition.act(act, steps)
    }

    /// Writes down that the act was short of tags and that no block was left: the seat has read the
    /// number `next`, above the last block. Without memory nothing changes.
    pub fn spent(&mut self, seat: &Seat<K>, act: Act, next: u64) -> Result<(), NoMemory>
        requires short { 0 < short K.modelling self.old.partition.state act }
        requires held { IsHeldBy seat.now self.old }
        requires keeps { seat.now.view.past ≡ Some next }
        ensures ok { OnOk result (Appends K.modelling self.old.partition
            (entry.Spent seat.now.view.number next act) (Some (Err (refusal.TagsSpent next)))
            self.new.partition) }
        ensures err { OnErr result (Stays self.old.partition self.new.partition) }
        ensures session { self.new.session ≡ self.old.session }
        ensures holds { IsHeldBy seat.now self.new }
    {
        let _ = seat;
        self.partition.spent(act, next)
    }
}
