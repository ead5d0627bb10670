//! Partitions, driven by hand. Replies, states and journals are compared with text that was written
//! by hand.
use entity_store::{Modeller, Steps};
use partition::Partition;
use pk_base::{Act, Call, Entity, Entry, Fault, Refusal, Reply, Tag, Triple};
use std::alloc::Global;
use std::process::Abort;
use std::sync::ledger::Ledger;
use std::test::Fail;

mod pairs;
mod worlds;

/// Makes a body at (x, 0, 0).
fn make<K: Modeller, L: Ledger>(
    rt: &impl Abort,
    partition: &mut Partition<K>,
    x: i64,
    steps: &mut Steps<L>,
) -> Result<Reply, Fault> {
    let at = Triple { x, y: 0, z: 0 };
    assert!(rt; partition.holder().is_some());
    assert_eq!(rt; partition.short(&Act::Call(Call::Mvfs { at }), steps), 0);
    partition.call(Call::Mvfs { at }, steps)
}

/// A call that is not done yet.
fn bodies<K: Modeller, L: Ledger>(
    rt: &impl Abort,
    partition: &mut Partition<K>,
    steps: &mut Steps<L>,
) -> Result<Reply, Fault> {
    assert!(rt; partition.holder().is_some());
    assert_eq!(rt; partition.short(&Act::Call(Call::Bodies), steps), 0);
    partition.call(Call::Bodies, steps)
}

fn mark<K: Modeller, L: Ledger>(
    rt: &impl Abort,
    partition: &mut Partition<K>,
    steps: &mut Steps<L>,
) -> Result<Reply, Fault> {
    assert!(rt; partition.holder().is_some());
    assert!(rt; partition.spare() >= 1);
    partition.mark(steps)
}

fn goto<K: Modeller, L: Ledger>(
    rt: &impl Abort,
    partition: &mut Partition<K>,
    m: u32,
    steps: &mut Steps<L>,
) -> Result<Reply, Fault> {
    assert!(rt; partition.holder().is_some());
    partition.goto(Tag(m), steps)
}

/// The state in short: the current mark, the tags taken, those left, and the entities that are
/// live.
fn check_state<K: Modeller>(
    rt: &impl Abort,
    partition: &Partition<K>,
    at: u32,
    used: u64,
    spare: u64,
    live: usize,
) {
    assert_eq!(rt; partition.number(), 1);
    assert_eq!(rt; partition.blocks(), [1].as_slice());
    assert_eq!(rt; partition.at(), Tag(at));
    assert_eq!(rt; partition.used(), used);
    assert_eq!(rt; partition.spare(), spare);
    assert_eq!(rt; partition.store().len(), live);
}

/// The act made these tags.
fn check_made(rt: &impl Abort, reply: Result<Reply, Fault>, expected: &[Tag]) {
    let Ok(Reply::Made(made)) = reply else {
        panic!(rt; "no tags were made");
    };
    assert_eq!(rt; made.as_slice(), expected);
}

/// The goto brought these tags back and took those away, and changed no entity.
fn check_went(rt: &impl Abort, reply: Result<Reply, Fault>, fresh: &[Tag], gone: &[Tag]) {
    let Ok(Reply::Went(lists)) = reply else {
        panic!(rt; "it went nowhere");
    };
    assert_eq!(rt; lists.fresh.as_slice(), fresh);
    assert_eq!(rt; lists.gone.as_slice(), gone);
    assert!(rt; lists.changed.as_slice().is_empty());
}

fn check_refused(rt: &impl Abort, reply: Result<Reply, Fault>, expected: Refusal) {
    let Err(fault) = reply else {
        panic!(rt; "it was not refused");
    };
    assert_eq!(rt; fault, Fault::Refused(expected));
}

fn check_entity<K: Modeller, L: Ledger>(
    rt: &impl Abort,
    partition: &Partition<K>,
    tag: u32,
    expected: Entity,
    steps: &mut Steps<L>,
) {
    assert_eq!(rt;
        partition.store().get(Tag(tag), steps).copied(),
        Some(expected)
    );
}

fn check_journal(
    rt: &impl Abort,
    alloc: Global,
    journal: &[Entry],
    expected: &[&str],
) -> Result<(), Fail> {
    assert_eq!(rt; journal.len(), expected.len());
    for (entry, text) in journal.iter().zip(expected.iter()) {
        assert_eq!(rt; format!(in alloc; "{entry:?}")?.as_str(), *text);
    }
    Ok(())
}
