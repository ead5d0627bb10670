//! Seats that share a session.
mod crowd;
mod moved;
mod row;

use crate::no_bodies::NoBodies;
use partition::Partition;
use pk_base::Entry;
use pk_session::{DrawNo, LockNo};
use std::alloc::Global;
use std::process::Abort;
use std::test::Fail;

/// The journal has these entries, as they are printed.
fn check_journal(
    rt: &impl Abort,
    alloc: Global,
    journal: &[Entry],
    expected: &[&str],
) -> Result<(), Fail> {
    assert_eq!(rt; journal.len(), expected.len());
    for (entry, line) in journal.iter().zip(expected) {
        let printed = format!(in alloc; "{entry:?}")?;
        assert_eq!(rt; printed.as_str(), *line);
    }
    Ok(())
}

#[test]
fn two_seats_share_a_session(rt: HostRuntime) -> Result<(), Fail> {
    let partitions = row::two_seats(&rt, rt.alloc())?;
    assert_eq!(rt; partitions.len(), 2);
    let first: &Partition<NoBodies> = &partitions[0];
    assert_eq!(rt; first.number(), 1);
    assert_eq!(rt; first.holder(), None);
    assert_eq!(rt; first.blocks(), [1, 3].as_slice());
    let expected = ["Claimed(1)", "Drew { thread: 1, block: 3 }", "Released(1)"];
    check_journal(&rt, rt.alloc(), first.journal(), expected.as_slice())?;
    let second: &Partition<NoBodies> = &partitions[1];
    assert_eq!(rt; second.number(), 2);
    assert_eq!(rt; second.journal().len(), 0);
    Ok(())
}

#[test]
fn a_lock_waits_until_the_unlock(rt: HostRuntime) -> Result<(), Fail> {
    let journal = row::lock_after_unlock(&rt, rt.alloc())?;
    assert_eq!(rt; journal.len(), 4);
    assert_eq!(rt; journal[0].as_str(), "Claimed(1)");
    assert_eq!(rt; journal[1].as_str(), "Drew { thread: 1, block: 3 }");
    assert_eq!(rt; journal[2].as_str(), "Released(1)");
    assert_eq!(rt; journal[3].as_str(), "Claimed(2)");
    Ok(())
}

#[test]
fn each_refusal_says_why(rt: HostRuntime) -> Result<(), Fail> {
    let alloc: Global = rt.alloc();
    let none = format!(in alloc; "{}", LockNo::NoPartition(3))?;
    assert_eq!(rt; none.as_str(), "there is no partition 3");
    let yours = format!(in alloc; "{}", LockNo::AlreadyYours(1))?;
    assert_eq!(rt; yours.as_str(), "this seat holds the partition 1 already");
    let held = format!(in alloc; "{}", LockNo::HeldBy(2))?;
    assert_eq!(rt; held.as_str(), "seat 2 holds the partition");
    let memory = format!(in alloc; "{}", LockNo::NoMemory)?;
    assert_eq!(rt; memory.as_str(), "no memory");
    let spent = format!(in alloc; "{}", DrawNo::Spent(4))?;
    assert_eq!(rt;
        spent.as_str(),
        "the next tag block would be 4, above the last"
    );
    let memory = format!(in alloc; "{}", DrawNo::NoMemory)?;
    assert_eq!(rt; memory.as_str(), "no memory");
    Ok(())
}

#[test]
fn a_session_is_shared_between_threads(rt: HostRuntime) -> Result<(), Fail> {
    assert_eq!(rt; moved::share(&rt, rt.alloc())?, (1, 2));
    Ok(())
}

#[test]
fn a_seat_is_moved_to_another_thread(rt: HostRuntime) -> Result<(), Fail> {
    assert_eq!(rt; moved::move_seat(&rt, rt.alloc())?, 1);
    Ok(())
}

#[test]
fn a_held_partition_is_moved_to_another_thread(rt: HostRuntime) -> Result<(), Fail> {
    assert_eq!(rt; moved::move_held(&rt, rt.alloc())?, 2);
    Ok(())
}

#[test]
fn eight_threads_visit_eight_partitions(rt: HostRuntime) -> Result<(), Fail> {
    crowd::share(&rt, rt.alloc())
}
