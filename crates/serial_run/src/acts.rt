//! Events of a thread, and acts with their draws.
ghost use Rattle.std.specs.Prelude.{◌≡◌, ◌≢◌, ℕ, ◌≤◌, ◌<◌, IfOk, IsSome, OnOk, None, Some, length, true, false};
ghost use Rattle.std.specs.List.{AllByRecursion};
ghost use Rattle.pk_model.specs.Tags.{Ascends};
ghost use Rattle.pk_model.specs.Step.{short};
ghost use Rattle.world_core.specs.World.{IsAsLarge, partition_at};
ghost use Rattle.world_core.specs.Session.{IsSession};
ghost use Rattle.world_core.specs.Runs.{after_event};
ghost use Rattle.world_core.specs.declared.event.Event.TheVariants as event;
ghost use Rattle.serial_run.specs.Serial.{act_after, acts, by, draws, released};
ghost use Rattle.serial_run.specs.Orders.{IsDone};
ghost use Rattle.serial_run.specs.Reached.{IsHeldBy, IsThreadOf};

use entity_store::{Modeller, Steps};
use pk_base::{Act, Fault, NoMemory, Refusal, Reply};
use std::sync::ledger::Ledger;
use world_core::{Event, Said, World, WorldNo};

/// Thread t claims partition p, where no thread holds it; else it waits.
pub(crate) fn claim<K: Modeller, L: Ledger>(
    world: &mut World<K>,
    t: u32,
    p: u32,
    steps: &mut Steps<L>,
) -> Result<bool, NoMemory>
    requires thread { IsThreadOf world.old t }
    requires first { 1 ≤ p }
    requires last { p ≤ length world.old.partitions }
    ensures claimed { IfOk result (λ done. done ≡ true
        → ((partition_at world.old p).state.holder ≡ None)
        × (world.new ≡ after_event K.modelling world.old (by t (event.Claim p)))) }
    ensures waits { IfOk result (λ done. done ≡ false
        → IsSome (partition_at world.old p).state.holder × (world.new ≡ world.old)) }
{
    match world.step(t, Event::Claim(p), steps) {
        Ok(_) => Ok(true),
        Err(WorldNo::Blocked(_)) => Ok(false),
        Err(WorldNo::NoMemory) => Err(NoMemory),
        Err(WorldNo::Refused(_) | WorldNo::Spent(_)) => unreachable!(),
    }
}

/// Thread t lets partition p go. It takes no memory.
pub(crate) fn release<K: Modeller>(world: &mut World<K>, t: u32, p: u32)
    requires thread { IsThreadOf world.old t }
    requires held { IsHeldBy world.old t p }
    ensures released { world.new ≡ after_event K.modelling world.old (by t (event.Release p)) }
    ensures others { (q : ℕ) → 1 ≤ q → q ≢ p → partition_at world.new q ≡ partition_at world.old q }
    ensures large { IsAsLarge world.old world.new }
{
    world.release(t, p);
}

/// Thread t lets these partitions go, one after another. It takes no memory.
pub(crate) fn release_all<K: Modeller>(world: &mut World<K>, t: u32, parts: &[u32])
    requires thread { IsThreadOf world.old t }
    requires held { AllByRecursion (IsHeldBy world.old t) parts.now }
    requires ascend { Ascends parts.now }
    ensures { world.new ≡ released K.modelling t parts.now world.old }
{
    for p in parts {
        release(world, t, *p);
    }
}

/// Thread t draws so many blocks for partition p, one by one, until none is left; then the number
/// that the draw found is told.
fn draw<K: Modeller, L: Ledger>(
    world: &mut World<K>,
    t: u32,
    p: u32,
    count: u64,
    steps: &mut Steps<L>,
) -> Result<Option<u64>, NoMemory>
    requires thread { IsThreadOf world.old t }
    requires held { IsHeldBy world.old t p }
    ensures drawn { IfOk result (λ spent. draws K.modelling t p count world.old
        ≡ record { world = world.new; spent = spent }) }
    ensures thread { OnOk result (IsThreadOf world.new t) }
{
    for _ in 0..count {
        if let Some(next) = draw_one(world, t, p, steps)? {
            return Ok(Some(next));
        }
    }
    Ok(None)
}

/// Thread t draws a block for partition p, or finds that the next one is this number, above the
/// last.
fn draw_one<K: Modeller, L: Ledger>(
    world: &mut World<K>,
    t: u32,
    p: u32,
    steps: &mut Steps<L>,
) -> Result<Option<u64>, NoMemory>
    requires thread { IsThreadOf world.old t }
    requires held { IsHeldBy world.old t p }
    ensures drew { IfOk result (λ spent. draws K.modelling t p 1 world.old
        ≡ record { world = world.new; spent = spent }) }
    ensures held { OnOk result (IsHeldBy world.new t p) }
    ensures thread { OnOk result (IsThreadOf world.new t) }
{
    match world.step(t, Event::Draw(p), steps) {
        Ok(_) => Ok(None),
        Err(WorldNo::Spent(next)) => Ok(Some(next)),
        Err(WorldNo::NoMemory) => Err(NoMemory),
        Err(WorldNo::Refused(_) | WorldNo::Blocked(_)) => unreachable!(),
    }
}

/// Thread t does an act on partition p, for which it draws as many blocks as it is short of; or
/// gives it up, where no block is left.
pub(crate) fn do_act<K: Modeller, L: Ledger>(
    world: &mut World<K>,
    t: u32,
    p: u32,
    act: Act,
    steps: &mut Steps<L>,
) -> Result<Reply, Fault>
    requires session { IsSession K.modelling world.old }
    requires thread { IsThreadOf world.old t }
    requires held { IsHeldBy world.old t p }
    ensures { IsDone (acts K.modelling t p act world.old) result world.new }
{
    let count = world.partition(p).short(&act, steps);
    match draw(world, t, p, count, steps)? {
        None => perform(world, t, p, act, steps),
        Some(next) => give_up(world, t, p, act, next, steps),
    }
}

/// Thread t does an act on partition p, for which there are tags enough.
fn perform<K: Modeller, L: Ledger>(
    world: &mut World<K>,
    t: u32,
    p: u32,
    act: Act,
    steps: &mut Steps<L>,
) -> Result<Reply, Fault>
    requires thread { IsThreadOf world.old t }
    requires held { IsHeldBy world.old t p }
    requires enough { short K.modelling (partition_at world.old p).state act ≡ 0 }
    ensures { IsDone (act_after K.modelling t p act (record { world = world.old; spent = None }))
        result world.new }
{
    match world.step(t, Event::Act(p, act), steps) {
        Ok(Said::Reply(reply)) => Ok(reply),
        Err(WorldNo::Refused(refusal)) => Err(Fault::Refused(refusal)),
        Err(WorldNo::NoMemory) => Err(Fault::NoMemory),
        Ok(Said::Done | Said::Drew(_)) | Err(WorldNo::Blocked(_) | WorldNo::Spent(_)) =>
            unreachable!(),
    }
}

/// Thread t gives up an act on partition p, which is short, once a draw found this number.
fn give_up<K: Modeller, L: Ledger>(
    world: &mut World<K>,
    t: u32,
    p: u32,
    act: Act,
    next: u64,
    steps: &mut Steps<L>,
) -> Result<Reply, Fault>
    requires thread { IsThreadOf world.old t }
    requires held { IsHeldBy world.old t p }
    requires short { 0 < short K.modelling (partition_at world.old p).state act }
    requires above { world.old.blocks.last < next }
    requires spent { world.old.blocks.last < world.old.blocks.next }
    ensures { IsDone (act_after K.modelling t p act
        (record { world = world.old; spent = Some next })) result world.new }
{
    match world.step(t, Event::GiveUp(p, act, next), steps) {
        Ok(_) => Err(Fault::Refused(Refusal::TagsSpent(next))),
        Err(WorldNo::NoMemory) => Err(Fault::NoMemory),
        Err(WorldNo::Refused(_) | WorldNo::Blocked(_) | WorldNo::Spent(_)) => unreachable!(),
    }
}
