//! The orders of a thread, carried out over a world.
ghost use Rattle.std.specs.Prelude.{◌≡◌, ◌≤◌, IfOk, OnOk, None, Some, Ok, length, option_map};
ghost use Rattle.std.specs.List.{AllByRecursion};
ghost use Rattle.world_core.specs.Session.{IsSession};
ghost use Rattle.script_text.specs.declared.script.Order.TheVariants as order;
ghost use Rattle.script_thread.specs.WellFormed.{operand_count};
ghost use Rattle.serial_run.specs.Serial.{obey};
ghost use Rattle.serial_run.specs.Reached.{IsHeldBy};
ghost use Rattle.serial_run.specs.Orders.{IsTurnIn, Obeys, carried};

use crate::acts::{claim, do_act, release, release_all};
use entity_store::{Modeller, Steps};
use pk_base::{Act, Fault, Items, Name, NoMemory};
use script_text::{LineSaid, Operand, Order};
use script_thread::ScriptThread;
use std::alloc::Global;
use std::sync::ledger::Ledger;
use world_core::World;

/// A turn of a thread, in a session of so many partitions.
#[derive(Clone, Copy)]
pub(crate) struct Turn {
    pub(crate) alloc: Global,
    pub(crate) number: u32,
    pub(crate) partitions: u32,
}

/// Carries an order of the thread out, and says what is said to it; nothing, where it waits.
pub(crate) fn obey<K: Modeller, L: Ledger>(
    world: &mut World<K>,
    thread: &mut ScriptThread,
    turn: Turn,
    order: &Order,
    steps: &mut Steps<L>,
) -> Result<Option<LineSaid>, NoMemory>
    requires session { IsSession K.modelling world.old }
    requires turn { IsTurnIn world.old turn }
    requires held { AllByRecursion (IsHeldBy world.old turn.number) thread.old.held }
    requires few { operand_count order.now ≤ 3 }
    ensures obeys { IfOk result (λ said. obey K.modelling turn.number world.old thread.old order.now
        ≡ option_map (carried world.new thread.new) said) }
    ensures world { result ≡ Ok None → world.new ≡ world.old }
    ensures thread { result ≡ Ok None → thread.new ≡ thread.old }
    ensures said { OnOk result (thread.new.said ≡ thread.old.said) }
{
    match order {
        Order::Lock(p) => lock(world, thread, turn, *p, steps),
        Order::Unlock(p) => Ok(Some(unlock(world, thread, turn, *p))),
        Order::End => Ok(Some(end(world, thread, turn)?)),
        Order::On {
            partition,
            act,
            operands,
            bind,
        } => {
            let operands = operands.as_slice();
            match on(world, thread, turn, *partition, act, operands, *bind, steps) {
                Ok(said) => Ok(Some(said)),
                Err(Fault::Refused(refusal)) => Ok(Some(LineSaid::Refused(refusal))),
                Err(Fault::NoMemory) => Err(NoMemory),
            }
        }
    }
}

/// `lock p`, which waits where a thread holds the partition.
fn lock<K: Modeller, L: Ledger>(
    world: &mut World<K>,
    thread: &mut ScriptThread,
    turn: Turn,
    p: u32,
    steps: &mut Steps<L>,
) -> Result<Option<LineSaid>, NoMemory>
    requires turn { IsTurnIn world.old turn }
    ensures obeys { IfOk result (λ said. obey K.modelling turn.number world.old thread.old
        (order.Lock p) ≡ option_map (carried world.new thread.new) said) }
    ensures world { result ≡ Ok None → world.new ≡ world.old }
    ensures thread { result ≡ Ok None → thread.new ≡ thread.old }
    ensures said { OnOk result (thread.new.said ≡ thread.old.said) }
{
    if let Some(refusal) = thread.refusal_of_lock(turn.partitions, p) {
        return Ok(Some(LineSaid::Refused(refusal)));
    }
    if !claim(world, turn.number, p, steps)? {
        return Ok(None);
    }
    thread.hold(p);
    Ok(Some(LineSaid::Locked))
}

/// `unlock p`. It takes no memory.
fn unlock<K: Modeller>(
    world: &mut World<K>,
    thread: &mut ScriptThread,
    turn: Turn,
    p: u32,
) -> LineSaid
    requires turn { IsTurnIn world.old turn }
    requires held { AllByRecursion (IsHeldBy world.old turn.number) thread.old.held }
    ensures obeys { obey K.modelling turn.number world.old thread.old (order.Unlock p)
        ≡ Some (carried world.new thread.new result) }
    ensures said { thread.new.said ≡ thread.old.said }
{
    if let Some(refusal) = thread.refusal_of_unlock(turn.partitions, p) {
        return LineSaid::Refused(refusal);
    }
    release(world, turn.number, p);
    thread.let_go(p);
    LineSaid::Unlocked
}

/// `end`.
fn end<K: Modeller>(
    world: &mut World<K>,
    thread: &mut ScriptThread,
    turn: Turn,
) -> Result<LineSaid, NoMemory>
    requires turn { IsTurnIn world.old turn }
    requires held { AllByRecursion (IsHeldBy world.old turn.number) thread.old.held }
    ensures obeys { IfOk result (λ said. obey K.modelling turn.number world.old thread.old order.End
        ≡ Some (carried world.new thread.new said)) }
    ensures said { OnOk result (thread.new.said ≡ thread.old.said) }
{
    let parts = Vec::from_slice(turn.alloc, thread.held())?;
    release_all(world, turn.number, &parts);
    thread.let_all_go();
    Ok(LineSaid::Ended(Items::of(parts)))
}

/// An act on partition p.
fn on<K: Modeller, L: Ledger>(
    world: &mut World<K>,
    thread: &mut ScriptThread,
    turn: Turn,
    p: u32,
    act: &Act,
    operands: &[Operand],
    bind: Option<Name>,
    steps: &mut Steps<L>,
) -> Result<LineSaid, Fault>
    requires session { IsSession K.modelling world.old }
    requires turn { IsTurnIn world.old turn }
    requires held { AllByRecursion (IsHeldBy world.old turn.number) thread.old.held }
    requires few { length operands.now ≤ 3 }
    ensures obeys { Obeys (obey K.modelling turn.number world.old thread.old
        (order.On p act.now operands.now bind)) world.new thread.new result }
    ensures said { thread.new.said ≡ thread.old.said }
{
    let act = thread.resolve(turn.alloc, turn.partitions, p, act, operands)?;
    let reply = do_act(world, turn.number, p, act, steps)?;
    thread.bind(turn.alloc, bind, &reply)?;
    Ok(LineSaid::Answer(reply))
}
