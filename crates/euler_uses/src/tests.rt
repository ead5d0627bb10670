//! The Euler operators on partitions. What is expected was written by hand.
ghost use Rattle.std.specs.Prelude.{◌≡◌, nat_lt};
ghost use Rattle.std.specs.List.{list_all};

use entity_store::Steps;
use modeller::Euler;
use partition::Partition;
use pk_base::{Act, Call, Fault, LAST_BLOCK, NoMemory, Reply, Tag};
use std::alloc::Global;
use std::process::Abort;
use std::sync::ledger::Ledger;

mod answers;
mod calls;
mod check;
mod dice;
mod kept;
mod marks;
mod operands;
mod reading;
mod shapes;
mod thousand;
mod walk;
mod walks;

/// A new partition 1, which thread 1 holds.
fn begin(alloc: Global) -> Result<Partition<Euler>, NoMemory> {
    let mut partition = Partition::begin(alloc, 1, Euler)?;
    partition.claim(1)?;
    Ok(partition)
}

/// Whether the blocks are all below this one.
fn are_below(blocks: &[u32], next: u32) -> bool
    ensures { result ≡ list_all (λ o. nat_lt o next) blocks.now }
{
    blocks.iter().all(|owned| *owned < next)
}

/// Draws the next block.
fn draw(rt: &impl Abort, partition: &mut Partition<Euler>) -> Result<(), NoMemory> {
    let last = partition.blocks().last().copied().unwrap_or(0);
    assert!(rt; last < LAST_BLOCK);
    let next = last + 1;
    partition.reserve_block()?;
    assert!(rt; partition.holder().is_some());
    assert!(rt; are_below(partition.blocks(), next));
    partition.take_block(next);
    Ok(())
}

/// Does an act, for which blocks are drawn as long as it is short of tags.
fn act<L: Ledger>(
    rt: &impl Abort,
    partition: &mut Partition<Euler>,
    act: Act,
    steps: &mut Steps<L>,
) -> Result<Reply, Fault> {
    for _ in 0..partition.short(&act, steps) {
        draw(rt, partition)?;
    }
    assert!(rt; partition.holder().is_some());
    assert_eq!(rt; partition.short(&act, steps), 0);
    partition.act(act, steps)
}

/// The act makes the tags from this first one to this last one.
fn makes<L: Ledger>(
    rt: &impl Abort,
    partition: &mut Partition<Euler>,
    asked: Act,
    tags: (u32, u32),
    steps: &mut Steps<L>,
) {
    let Ok(Reply::Made(made)) = act(rt, partition, asked, steps) else {
        panic!(rt; "no tags were made");
    };
    let (first, last) = tags;
    assert_eq!(rt; made.as_slice().first().copied(), Some(Tag(first)));
    assert_eq!(rt; made.as_slice().last().copied(), Some(Tag(last)));
    for (tag, expected) in made.as_slice().iter().zip(first..=last) {
        assert_eq!(rt; tag.0, expected);
    }
}

/// The call is done, and takes no tag.
fn does<L: Ledger>(
    rt: &impl Abort,
    partition: &mut Partition<Euler>,
    call: Call,
    steps: &mut Steps<L>,
) {
    let reply = act(rt, partition, Act::Call(call), steps);
    assert!(rt; matches!(reply, Ok(Reply::Done)));
}
