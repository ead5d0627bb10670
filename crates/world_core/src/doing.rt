//! The events, each done to its partition.
ghost use Rattle.std.specs.Prelude.{◌≡◌, ℕ, ◌+◌, ◌<◌, ◌≤◌, IsSome, IsTrue, Ok, nat_lt};
ghost use Rattle.std.specs.List.{list_all};
ghost use Rattle.pk_base.specs.declared.act.Entry.TheVariants as entry;
ghost use Rattle.pk_model.specs.Step.{short};
ghost use Rattle.partition.specs.Partition.{holder_of};
ghost use Rattle.world_core.specs.Event.{MayDo, claim_of, draw_of, entry_of, supply};
ghost use Rattle.world_core.specs.Doing.{Does};
ghost use Rattle.world_core.specs.declared.event.Event.TheVariants as events;
ghost use Rattle.world_core.specs.declared.event.Said.TheVariants as said;
ghost use Rattle.world_core.specs.Doing.{next_after as next_block_after};

use crate::{Event, Said, WorldNo};
use entity_store::{Modeller, Steps};
use partition::Partition;
use pk_base::{Act, LAST_BLOCK};
use std::sync::ledger::Ledger;

/// Does the event of the thread to its partition. `next` is the next block that may be drawn, and
/// `last` is the last one.
pub(crate) fn do_event<K: Modeller, L: Ledger>(
    partition: &mut Partition<K>,
    next: u32,
    last: u32,
    thread: u32,
    event: Event,
    steps: &mut Steps<L>,
) -> Result<Said, WorldNo>
    requires may { MayDo K.modelling partition.old.state (supply next last) thread event }
    requires above { IsTrue (list_all (λ o. nat_lt o next) partition.old.state.blocks) }
    requires last { last ≤ LAST_BLOCK }
    ensures does { Does K.modelling partition.old
        (entry_of partition.old.state (supply next last) thread event) result partition.new }
    ensures release { (p : ℕ) → event ≡ events.Release p → result ≡ Ok said.Done }
{
    match event {
        Event::Claim(_) => claim(partition, thread),
        Event::Release(_) => {
            release(partition);
            Ok(Said::Done)
        }
        Event::Draw(_) => draw(partition, next, last),
        Event::Act(_, act) => do_act(partition, act, steps),
        Event::GiveUp(_, act, number) => give_up(partition, act, number),
    }
}

/// The thread claims the partition, or is blocked by its holder.
fn claim<K: Modeller>(partition: &mut Partition<K>, thread: u32) -> Result<Said, WorldNo>
    ensures { Does K.modelling partition.old
        (claim_of partition.old.state thread) result partition.new }
{
    if let Some(holder) = partition.holder() {
        return Err(WorldNo::Blocked(holder));
    }
    partition.claim(thread)?;
    Ok(Said::Done)
}

/// The thread lets the partition go. It takes no memory.
pub(crate) fn release<K: Modeller>(partition: &mut Partition<K>)
    requires { IsSome partition.old.state.holder }
    ensures { Does K.modelling partition.old
        (Ok (entry.Released (holder_of partition.old))) (Ok said.Done) partition.new }
{
    partition.release();
}

/// The thread draws the next block for the partition, where it is not above the last.
fn draw<K: Modeller>(partition: &mut Partition<K>, next: u32, last: u32) -> Result<Said, WorldNo>
    requires held { IsSome partition.old.state.holder }
    requires above { IsTrue (list_all (λ o. nat_lt o next) partition.old.state.blocks) }
    requires last { last ≤ LAST_BLOCK }
    ensures { Does K.modelling partition.old
        (draw_of (supply next last) (holder_of partition.old)) result partition.new }
{
    if next > last {
        return Err(WorldNo::Spent(u64::from(next)));
    }
    partition.reserve_block()?;
    partition.take_block(next);
    Ok(Said::Drew(next))
}

/// The thread does the act.
fn do_act<K: Modeller, L: Ledger>(
    partition: &mut Partition<K>,
    act: Act,
    steps: &mut Steps<L>,
) -> Result<Said, WorldNo>
    requires held { IsSome partition.old.state.holder }
    requires enough { short K.modelling partition.old.state act ≡ 0 }
    ensures { Does K.modelling partition.old
        (Ok (entry.Did (holder_of partition.old) act)) result partition.new }
{
    let reply = partition.act(act, steps)?;
    Ok(Said::Reply(reply))
}

/// The thread gives the act up, for which no block was left.
fn give_up<K: Modeller>(
    partition: &mut Partition<K>,
    act: Act,
    number: u64,
) -> Result<Said, WorldNo>
    requires held { IsSome partition.old.state.holder }
    requires short { 0 < short K.modelling partition.old.state act }
    ensures { Does K.modelling partition.old
        (Ok (entry.Spent (holder_of partition.old) number act)) result partition.new }
{
    partition.spent(act, number)?;
    Ok(Said::Done)
}

/// The next block after this answer.
pub(crate) fn next_after(next: u32, answer: &Result<Said, WorldNo>) -> u32
    requires { next ≤ LAST_BLOCK + 1 }
    ensures { result ≡ next_block_after next answer.now }
{
    match answer {
        Ok(Said::Drew(_)) => next + 1,
        Ok(Said::Done | Said::Reply(_)) | Err(_) => next,
    }
}
