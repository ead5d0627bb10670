//! The work that is timed.
ghost use Rattle.std.specs.Prelude.{◌≡◌, ◌<◌};
ghost use Rattle.pk_session.specs.Views.{SeatView};
ghost use Rattle.pk_session.specs.Holding.{IsHeldBy};

use entity_store::Steps;
use modeller::Euler;
use pk_base::{Act, Call, Fault, NoMemory, Tag, Triple};
use pk_session::{Held, Seat, Session};
use std::alloc::Global;
use std::marker::Brand;
use std::sync::ledger::{Blank, Ledger};
use std::thread;
use std::thread::Threads;

/// Does a call, for which there are tags, be it refused or not.
fn call<L: Ledger>(held: &mut Held<Euler>, call: Call, steps: &mut Steps<L>) -> Result<(), NoMemory>
    ensures holds { (s : SeatView) → IsHeldBy s held.old → IsHeldBy s held.new }
{
    let act = Act::Call(call);
    if held.partition().short(&act, steps) != 0 {
        return Ok(());
    }
    match held.act(act, steps) {
        Ok(_) | Err(Fault::Refused(_)) => Ok(()),
        Err(Fault::NoMemory) => Err(NoMemory),
    }
}

/// Moves a body to and fro.
fn shake<L: Ledger>(
    held: &mut Held<Euler>,
    body: Tag,
    acts: u32,
    steps: &mut Steps<L>,
) -> Result<(), NoMemory>
    ensures holds { (s : SeatView) → IsHeldBy s held.old → IsHeldBy s held.new }
{
    for done in 0..acts {
        let x = if done % 2 == 0 { 1 } else { -1 };
        let by = Triple { x, y: 0, z: 0 };
        call(held, Call::Move { body, by }, steps)?;
    }
    Ok(())
}

// Locks a partition, makes a block with the body of this tag, moves it so many times, and unlocks
// the partition. Answers how long its journal is.
fn work<L: Ledger>(
    session: &Session<Euler>,
    seat: &mut Seat<Euler>,
    p: u32,
    body: Tag,
    acts: u32,
    blank: Blank,
) -> Result<usize, NoMemory>
    requires session { seat.old.session ≡ session.now }
    requires name { blank.name ≡ L.name }
    requires parts { blank.parts ≡ L.parts }
    requires some { 0 < blank.parts }
{
    let mut steps = Steps::<L>::new(blank);
    let Ok(mut held) = session.try_lock(seat, p) else {
        return Err(NoMemory);
    };
    let at = Triple { x: 0, y: 0, z: 0 };
    let size = Triple { x: 1, y: 1, z: 1 };
    call(&mut held, Call::Block { at, size }, &mut steps)?;
    shake(&mut held, body, acts, &mut steps)?;
    let length = held.partition().journal().len();
    session.unlock(seat, held);
    Ok(length)
}

fn work_on(
    session: &Session<Euler>,
    mut seat: Seat<Euler>,
    p: u32,
    body: Tag,
    acts: u32,
) -> Result<usize, NoMemory>
    requires { seat.session ≡ session.now }
{
    work::<Brand>(session, &mut seat, p, body, acts, Blank::new(1))
}

/// Has two seats do so many acts each, on a partition each, at once or one after the other. Answers
/// how long the journals are.
pub fn pace<R: Threads + Sync>(
    rt: &R,
    alloc: Global,
    acts: u32,
    at_once: bool,
) -> Result<(usize, usize), NoMemory> {
    let (session, mut root) = Session::begin(alloc, 2, 2, Euler)?;
    let seat = session.split(&mut root);
    let session = &session;
    let (first, second) = if at_once {
        thread::join(
            rt,
            move || -> Result<usize, NoMemory>
                requires { root.session ≡ session.now }
            { work_on(session, root, 1, Tag(65), acts) },
            move || -> Result<usize, NoMemory>
                requires { seat.session ≡ session.now }
            { work_on(session, seat, 2, Tag(129), acts) },
        )
    } else {
        (
            work_on(session, root, 1, Tag(65), acts),
            work_on(session, seat, 2, Tag(129), acts),
        )
    };
    Ok((first?, second?))
}
