//! A session between threads, and seats and held partitions that move.
ghost use Rattle.std.specs.Prelude.{◌≡◌};
ghost use Rattle.session_uses.specs.Idle.{IsIdle};

use crate::no_bodies::NoBodies;
use pk_session::{Seat, Session};
use std::alloc::Global;
use std::test::Fail;
use std::thread;
use std::thread::Threads;

// Locks a partition and unlocks it, and answers its number; 0 where it was not locked.
fn touch(session: &Session<NoBodies>, seat: &mut Seat<NoBodies>, p: u32) -> u32
    requires { seat.old.session ≡ session.now }
{
    match session.try_lock(seat, p) {
        Ok(held) => {
            let number = held.partition().number();
            session.unlock(seat, held);
            number
        }
        Err(_) => 0,
    }
}

/// The numbers of two partitions that two threads lock, which share the session.
pub fn share<R: Threads + Sync>(rt: &R, alloc: Global) -> Result<(u32, u32), Fail> {
    let (session, mut root) = Session::begin(alloc, 2, 2, NoBodies)?;
    let mut seat = session.split(&mut root);
    let session = &session;
    Ok(thread::join(
        rt,
        move || -> u32
            requires { root.session ≡ session.now }
        { touch(session, &mut root, 1) },
        move || -> u32
            requires { seat.session ≡ session.now }
        { touch(session, &mut seat, 2) },
    ))
}

/// The value, once another thread had it.
fn lend<T: Send + Drop, R: Threads + Sync>(rt: &R, value: T) -> T
    ensures { result ≡ value }
{
    thread::join(
        rt,
        move || -> T
            ensures { result ≡ value }
        { value },
        || (),
    )
    .0
}

/// The number of a seat that another thread had.
pub fn move_seat<R: Threads + Sync>(rt: &R, alloc: Global) -> Result<u32, Fail> {
    let (session, mut root) = Session::begin(alloc, 2, 2, NoBodies)?;
    let seat = session.split(&mut root);
    Ok(lend(rt, seat).number())
}

/// The number of a held partition that another thread had.
pub fn move_held<R: Threads + Sync>(rt: &R, alloc: Global) -> Result<u32, Fail> {
    let (session, mut root) = Session::begin(alloc, 2, 2, NoBodies)?;
    let held = session.try_lock(&mut root, 2)?;
    Ok(lend(rt, held).partition().number())
}
