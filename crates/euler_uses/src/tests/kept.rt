//! Copies of all that is live, taken where marks are made.
use super::act;
use super::reading::read_live;
use entity_store::Steps;
use modeller::Euler;
use partition::Partition;
use pk_base::{Act, Entity, Reply, Tag};
use std::alloc::Global;
use std::process::Abort;
use std::sync::ledger::Ledger;
use std::test::Fail;

/// A mark, and what was live when it was made.
#[derive(Drop)]
pub struct Kept {
    mark: Tag,
    live: Vec<(Tag, Entity)>,
}

/// The current mark, with a copy of what is live.
pub fn keep<L: Ledger>(
    alloc: Global,
    partition: &Partition<Euler>,
    steps: &mut Steps<L>,
) -> Result<Kept, Fail> {
    let mut live = Vec::new(alloc);
    read_live(partition.store(), &mut live, steps)?;
    Ok(Kept {
        mark: partition.at(),
        live,
    })
}

/// Makes a mark, with a copy.
pub fn mark<L: Ledger>(
    rt: &impl Abort,
    alloc: Global,
    partition: &mut Partition<Euler>,
    steps: &mut Steps<L>,
) -> Result<Kept, Fail> {
    let Ok(Reply::Made(made)) = act(rt, partition, Act::Mark, steps) else {
        panic!(rt; "no mark was made");
    };
    assert_eq!(rt; made.as_slice(), [partition.at()].as_slice());
    keep(alloc, partition, steps)
}

/// Goes to a mark, after which all is as the copy says.
pub fn go_back<L: Ledger>(
    rt: &impl Abort,
    alloc: Global,
    partition: &mut Partition<Euler>,
    kept: &Kept,
    steps: &mut Steps<L>,
) -> Result<(), Fail> {
    let reply = act(rt, partition, Act::Goto(kept.mark), steps);
    assert!(rt; matches!(reply, Ok(Reply::Went(_))));
    let now = keep(alloc, partition, steps)?;
    check_same(rt, &now, kept);
    Ok(())
}

/// Unmarks a mark, after which all that is live is as before.
pub fn leave<L: Ledger>(
    rt: &impl Abort,
    alloc: Global,
    partition: &mut Partition<Euler>,
    kept: &Kept,
    steps: &mut Steps<L>,
) -> Result<(), Fail> {
    let before = keep(alloc, partition, steps)?;
    let reply = act(rt, partition, Act::Unmark(kept.mark), steps);
    assert!(rt; matches!(reply, Ok(Reply::Done)));
    let now = keep(alloc, partition, steps)?;
    check_live(rt, &now, &before);
    Ok(())
}

fn check_same(rt: &impl Abort, now: &Kept, kept: &Kept) {
    assert_eq!(rt; now.mark, kept.mark);
    check_live(rt, now, kept);
}

fn check_live(rt: &impl Abort, now: &Kept, kept: &Kept) {
    let mark = kept.mark;
    assert_eq!(rt; now.live.len(), kept.live.len(), "live at {mark}");
    for (one, other) in now.live.iter().zip(kept.live.iter()) {
        assert_eq!(rt; one.0, other.0, "live at {mark}");
        assert_eq!(rt; one.1, other.1, "live at {mark}");
    }
}
