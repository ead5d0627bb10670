//! Two seats that want one partition.
ghost use Rattle.std.specs.Prelude.{◌≡◌, ◌≢◌, IfOk, OnOk};
ghost use Rattle.session_uses.specs.Idle.{IsIdle, HoldsOnly, KeepsNotes};

use crate::no_bodies::NoBodies;
use partition::Partition;
use pk_base::NoMemory;
use pk_session::{DrawNo, Held, LockNo, Seat, Session};
use std::alloc::Global;
use std::process::Abort;
use std::sync::Wait;
use std::test::Fail;
use std::thread;
use std::thread::Threads;

// Locks a partition.
fn lock(
    session: &Session<NoBodies>,
    seat: &mut Seat<NoBodies>,
    p: u32,
) -> Result<Held<NoBodies>, LockNo>
    requires idle { IsIdle session.now seat.old }
    ensures held { IfOk result (HoldsOnly session.now seat.new) }
    ensures number { seat.new.view.number ≡ seat.old.view.number }
{
    session.try_lock(seat, p)
}

// Draws for the partition that the seat holds.
fn draw(
    session: &Session<NoBodies>,
    seat: &mut Seat<NoBodies>,
    held: &mut Held<NoBodies>,
) -> Result<u32, DrawNo>
    requires held { HoldsOnly session.now seat.old held.old }
    ensures held { HoldsOnly session.now seat.new held.new }
    ensures number { seat.new.view.number ≡ seat.old.view.number }
{
    session.draw(seat, held)
}

// Unlocks the partition that the seat holds.
fn unlock(session: &Session<NoBodies>, seat: &mut Seat<NoBodies>, held: Held<NoBodies>)
    requires held { HoldsOnly session.now seat.old held }
    ensures idle { IsIdle session.now seat.new }
    ensures number { seat.new.view.number ≡ seat.old.view.number }
{
    session.unlock(seat, held);
}

// A lock that is refused.
fn refused(
    rt: &impl Abort,
    session: &Session<NoBodies>,
    seat: &mut Seat<NoBodies>,
    p: u32,
) -> LockNo
    requires session { seat.old.session ≡ session.now }
    ensures keeps { KeepsNotes seat.old seat.new }
{
    let Err(no) = session.try_lock(seat, p) else {
        panic!(rt; "it was locked");
    };
    no
}

// The first seat, which holds the partition, draws the one block that is left.
fn draw_twice(
    rt: &impl Abort,
    session: &Session<NoBodies>,
    seat: &mut Seat<NoBodies>,
    held: &mut Held<NoBodies>,
)
    requires held { HoldsOnly session.now seat.old held.old }
    ensures held { HoldsOnly session.now seat.new held.new }
    ensures number { seat.new.view.number ≡ seat.old.view.number }
{
    assert_eq!(rt; draw(session, seat, held), Ok(3));
    assert_eq!(rt; draw(session, seat, held), Err(DrawNo::Spent(4)));
}

// The first seat holds partition 1 and draws, and the second one is refused.
fn share(
    rt: &impl Abort,
    session: &Session<NoBodies>,
    first: &mut Seat<NoBodies>,
    second: &mut Seat<NoBodies>,
) -> Result<Held<NoBodies>, Fail>
    requires first { IsIdle session.now first.old }
    requires second { IsIdle session.now second.old }
    ensures first { IfOk result (HoldsOnly session.now first.new) }
    ensures second { IsIdle session.now second.new }
    ensures numbers { (first.new.view.number ≡ first.old.view.number)
        × (second.new.view.number ≡ second.old.view.number) }
{
    let mut held = lock(session, first, 1)?;
    assert!(rt; first.holds(1) && !second.holds(1));
    assert_eq!(rt; refused(rt, session, second, 1), LockNo::HeldBy(1));
    assert_eq!(rt; refused(rt, session, first, 1), LockNo::AlreadyYours(1));
    assert_eq!(rt; refused(rt, session, second, 3), LockNo::NoPartition(3));
    draw_twice(rt, session, first, &mut held);
    assert_eq!(rt; held.partition().number(), 1);
    Ok(held)
}

// Root joins both seats, and closes the session.
fn end(
    session: Session<NoBodies>,
    mut root: Seat<NoBodies>,
    first: Seat<NoBodies>,
    second: Seat<NoBodies>,
) -> Result<Vec<Partition<NoBodies>>, NoMemory>
    requires root { IsIdle session root }
    requires seats { IsIdle session first × IsIdle session second }
    requires numbers { (root.view.number ≡ 0) × (first.view.number ≡ 1)
        × (second.view.number ≡ 2) }
    requires made { root.view.made ≡ 2 }
{
    session.join(&mut root, first);
    session.join(&mut root, second);
    session.close(root)
}

/// What a session of two partitions leaves, whose last block is 3: its seat 1 locks the first one,
/// draws and unlocks it, and its seat 2 is refused meanwhile.
pub fn two_seats(rt: &impl Abort, alloc: Global) -> Result<Vec<Partition<NoBodies>>, Fail> {
    let (session, mut root) = Session::begin(alloc, 2, 3, NoBodies)?;
    let mut first = session.split(&mut root);
    let mut second = session.split(&mut root);
    assert_eq!(rt; (root.number(), root.made()), (0, 2));
    assert_eq!(rt; (first.number(), second.number()), (1, 2));
    let held = share(rt, &session, &mut first, &mut second)?;
    unlock(&session, &mut first, held);
    Ok(end(session, root, first, second)?)
}

// Waits for a partition, and prints its journal.
fn wait_for(
    rt: &impl Wait,
    alloc: Global,
    session: &Session<NoBodies>,
    seat: &mut Seat<NoBodies>,
) -> Result<Vec<String>, Fail>
    requires { IsIdle session.now seat.old }
{
    let held = session.lock(rt, seat, 1)?;
    let mut journal = Vec::new(alloc);
    for entry in held.partition().journal() {
        journal.push(format!(in alloc; "{entry:?}")?)?;
    }
    session.unlock(seat, held);
    Ok(journal)
}

/// The journal that seat 2 finds, which waits for partition 1 in a thread of its own, while seat 1
/// holds it.
pub fn lock_after_unlock<R: Threads + Wait + Abort + Sync>(
    rt: &R,
    alloc: Global,
) -> Result<Vec<String>, Fail> {
    let (session, mut root) = Session::begin(alloc, 2, 3, NoBodies)?;
    let mut first = session.split(&mut root);
    let mut second = session.split(&mut root);
    let held = share(rt, &session, &mut first, &mut second)?;
    let session = &session;
    let (journal, ()) = thread::join(
        rt,
        move || -> Result<Vec<String>, Fail>
            requires { IsIdle session.now second }
        { wait_for(rt, alloc, session, &mut second) },
        move || -> ()
            requires { HoldsOnly session.now first held }
        {
            for _ in 0..1000 {
                thread::yield_now();
            }
            unlock(session, &mut first, held)
        },
    );
    journal
}
