//! Eight threads that share eight partitions.
ghost use Rattle.std.specs.Prelude.{◌≡◌, ◌<◌, All, IfOk};

use crate::no_bodies::NoBodies;
use crate::visits::visit;
use entity_store::Steps;
use pk_base::{Act, Call, Entry, NoMemory, Triple};
use pk_session::{Seat, Session};
use std::alloc::Global;
use std::marker::Brand;
use std::process::Abort;
use std::sync::Wait;
use std::sync::ledger::{Blank, Ledger};
use std::test::Fail;
use std::thread;
use std::thread::Threads;

/// How often each thread visits a partition.
const VISITS: u32 = 1000;

/// The last block. So many blocks have fewer tags than the visits want.
const LAST: u32 = 100;

// Visits the partitions in turn, and asks on each visit for a body at the visit's number.
fn visit_many<R: Wait, L: Ledger>(
    rt: &R,
    session: &Session<NoBodies>,
    seat: &mut Seat<NoBodies>,
    blank: Blank,
)
    requires session { seat.old.session ≡ session.now }
    requires name { blank.name ≡ L.name }
    requires parts { blank.parts ≡ L.parts }
    requires some { 0 < blank.parts }
{
    let mut steps = Steps::<L>::new(blank);
    let first = seat.number();
    for turn in 0..VISITS {
        let p = first.wrapping_add(turn) % 8 + 1;
        let _done = visit(rt, session, seat, p, i64::from(turn), &mut steps);
    }
}

fn visit_as<R: Wait>(rt: &R, session: &Session<NoBodies>, seat: &mut Seat<NoBodies>)
    requires { seat.old.session ≡ session.now }
{
    visit_many::<R, Brand>(rt, session, seat, Blank::new(1));
}

// Each seat in a thread of its own.
fn visit_all<R: Threads + Wait + Sync>(
    rt: &R,
    session: &Session<NoBodies>,
    seats: &mut [Seat<NoBodies>],
)
    requires { All (λ s. s.session ≡ session.now) seats.old }
{
    thread::for_each_mut(
        rt,
        seats,
        8,
        &|_, seat: &mut Seat<NoBodies>|
            requires { seat.old.session ≡ session.now }
        { visit_as(rt, session, seat) },
    );
}

// Eight seats.
fn eight(
    alloc: Global,
    session: &Session<NoBodies>,
    root: &mut Seat<NoBodies>,
) -> Result<Vec<Seat<NoBodies>>, NoMemory>
    requires session { root.old.session ≡ session.now }
    requires number { root.old.view.number ≡ 0 }
    requires made { root.old.view.made ≡ 0 }
    ensures root { root.new.session ≡ session.now }
    ensures seats { IfOk result (λ v. All (λ s. s.session ≡ session.now) v.items) }
{
    let mut seats = Vec::with_capacity(alloc, 8)?;
    for _ in 0..8u32 {
        seats.push_reserved(session.split(root));
    }
    Ok(seats)
}

/// What is found in the journals, one after another: how many blocks were drawn of each number, how
/// many bodies each thread wanted, the last that it wanted in this journal, and how many marks were
/// made or were short of tags.
#[derive(Drop)]
struct Found {
    drawn: Vec<u32>,
    wanted: [u32; 8],
    latest: [i64; 8],
    marks: u32,
}

// Notes a body that a thread wanted, which is a later one than the one before.
fn note(rt: &impl Abort, found: &mut Found, thread: u32, x: i64) {
    let place = (thread as usize).wrapping_sub(1);
    let Some(latest) = found.latest.get_mut(place) else {
        panic!(rt; "there is no thread {thread}");
    };
    assert!(rt; *latest < x, "thread {thread} is out of its order");
    *latest = x;
    let Some(wanted) = found.wanted.get_mut(place) else {
        panic!(rt; "there is no thread {thread}");
    };
    *wanted = wanted.saturating_add(1);
}

// Notes an entry.
fn look_at(rt: &impl Abort, found: &mut Found, entry: &Entry) {
    match entry {
        Entry::Drew { block, .. } => {
            let Some(count) = found.drawn.get_mut(*block as usize) else {
                panic!(rt; "block {block} is above the last");
            };
            *count = count.saturating_add(1);
        }
        Entry::Did {
            thread,
            act: Act::Call(
                Call::Mvfs {
                    at: Triple { x, .. },
                },
            ),
        } => note(rt, found, *thread, *x),
        Entry::Did { act: Act::Mark, .. } | Entry::Spent { act: Act::Mark, .. } => {
            found.marks = found.marks.saturating_add(1);
        }
        Entry::Claimed(_) | Entry::Released(_) => {}
        Entry::Did { .. } | Entry::Spent { .. } => panic!(rt; "no thread does this"),
    }
}

// Looks at the journal of a partition.
fn inspect(
    rt: &impl Abort,
    session: &Session<NoBodies>,
    root: &mut Seat<NoBodies>,
    p: u32,
    found: &mut Found,
) -> Result<(), Fail>
    requires { root.old.session ≡ session.now }
    ensures { root.new.session ≡ session.now }
{
    let held = session.try_lock(root, p)?;
    found.latest = [-1; 8];
    for entry in held.partition().journal() {
        look_at(rt, found, entry);
    }
    session.unlock(root, held);
    Ok(())
}

// Looks at the journals of all partitions.
fn inspect_all(
    rt: &impl Abort,
    alloc: Global,
    session: &Session<NoBodies>,
    root: &mut Seat<NoBodies>,
) -> Result<Found, Fail>
    requires { root.old.session ≡ session.now }
{
    let mut found = Found {
        drawn: Vec::from_elem(alloc, 0, LAST as usize + 1)?,
        wanted: [0; 8],
        latest: [-1; 8],
        marks: 0,
    };
    for p in 1..9 {
        inspect(rt, session, root, p, &mut found)?;
    }
    Ok(found)
}

// Each thread wanted as many bodies as it made visits, each visit has its mark, and each block
// behind the partitions was drawn once.
fn check(rt: &impl Abort, found: &Found) {
    assert_eq!(rt; found.marks, 8 * VISITS);
    for wanted in &found.wanted {
        assert_eq!(rt; *wanted, VISITS);
    }
    for (block, count) in found.drawn.iter().enumerate() {
        assert_eq!(rt; *count, u32::from(block > 8));
    }
}

/// Eight seats in threads of their own visit eight partitions often, and what is then in the
/// journals is looked at.
pub fn share<R: Threads + Wait + Abort + Sync>(rt: &R, alloc: Global) -> Result<(), Fail> {
    let (session, mut root) = Session::begin(alloc, 8, LAST, NoBodies)?;
    let mut seats = eight(alloc, &session, &mut root)?;
    visit_all(rt, &session, seats.as_mut_slice());
    let found = inspect_all(rt, alloc, &session, &mut root)?;
    check(rt, &found);
    Ok(())
}
