//! Visits of seats to partitions.
ghost use Rattle.std.specs.Prelude.{◌≡◌, ◌<◌, Ok, Err};
ghost use Rattle.pk_model.specs.Step.{short};
ghost use Rattle.pk_session.specs.Views.{SeatView};
ghost use Rattle.pk_session.specs.Holding.{IsHeldBy};

use entity_store::{Modeller, Steps};
use pk_base::{Act, Call, Fault, NoMemory, Triple};
use pk_session::{DrawNo, Held, Seat, Session};
use std::sync::Wait;
use std::sync::ledger::Ledger;

// Writes down that the act is short of tags, if no block is left that could be drawn for it.
fn give_up<K: Modeller>(
    session: &Session<K>,
    seat: &mut Seat<K>,
    held: &mut Held<K>,
    act: Act,
) -> Result<(), NoMemory>
    requires session { seat.old.session ≡ session.now }
    requires held { IsHeldBy seat.old held.old }
    requires short { 0 < short K.modelling held.old.partition.state act }
    ensures session { seat.new.session ≡ session.now }
    ensures held { IsHeldBy seat.new held.new }
{
    match session.draw(seat, held) {
        Ok(_) => Ok(()),
        Err(DrawNo::Spent(next)) => held.spent(seat, act, next),
        Err(DrawNo::NoMemory) => Err(NoMemory),
    }
}

/// Makes a mark in a partition that the seat holds, and draws a block where tags are missing. Where
/// no block is left, it is written down that the mark was short of tags.
pub fn mark<K: Modeller, L: Ledger>(
    session: &Session<K>,
    seat: &mut Seat<K>,
    held: &mut Held<K>,
    steps: &mut Steps<L>,
) -> Result<(), NoMemory>
    requires session { seat.old.session ≡ session.now }
    requires held { IsHeldBy seat.old held.old }
    ensures session { seat.new.session ≡ session.now }
    ensures held { IsHeldBy seat.new held.new }
{
    if held.partition().short(&Act::Mark, steps) != 0 {
        give_up(session, seat, held, Act::Mark)?;
    }
    if held.partition().short(&Act::Mark, steps) != 0 {
        return Ok(());
    }
    act(held, Act::Mark, steps)
}

// Does the act, be it refused or not.
fn act<K: Modeller, L: Ledger>(
    held: &mut Held<K>,
    act: Act,
    steps: &mut Steps<L>,
) -> Result<(), NoMemory>
    requires enough { short K.modelling held.old.partition.state act ≡ 0 }
    ensures holds { (s : SeatView) → IsHeldBy s held.old → IsHeldBy s held.new }
{
    match held.act(act, steps) {
        Err(Fault::NoMemory) => Err(NoMemory),
        Err(Fault::Refused(_)) | Ok(_) => Ok(()),
    }
}

// Asks for a body at (x, 0, 0), if there are tags enough for one.
fn ask<K: Modeller, L: Ledger>(
    held: &mut Held<K>,
    x: i64,
    steps: &mut Steps<L>,
) -> Result<(), NoMemory>
    ensures holds { (s : SeatView) → IsHeldBy s held.old → IsHeldBy s held.new }
{
    let at = Triple { x, y: 0, z: 0 };
    let body = Act::Call(Call::Mvfs { at });
    if held.partition().short(&body, steps) != 0 {
        return Ok(());
    }
    act(held, body, steps)
}

/// Locks a partition, asks for a body at (x, 0, 0) in it, makes a mark, and unlocks it.
pub fn visit<K: Modeller, R: Wait, L: Ledger>(
    rt: &R,
    session: &Session<K>,
    seat: &mut Seat<K>,
    p: u32,
    x: i64,
    steps: &mut Steps<L>,
) -> Result<(), NoMemory>
    requires session { seat.old.session ≡ session.now }
    ensures session { seat.new.session ≡ session.now }
{
    match session.lock(rt, seat, p) {
        Err(_) => Err(NoMemory),
        Ok(mut held) => {
            let asked = ask(&mut held, x, steps);
            let marked = mark(session, seat, &mut held, steps);
            session.unlock(seat, held);
            asked.and(marked)
        }
    }
}
