//! A thousand bodies with a mark behind each, and one goto to the beginning. How many steps a body
//! and a mark add at most is proved.
ghost use Rattle.std.specs.Prelude.{◌≡◌, ◌+◌, ◌*◌, ◌<◌, ◌≤◌, IfOk, OnOk, IsSome};
ghost use Rattle.pk_model.specs.Tags.{spare_of};
ghost use Rattle.modeller.specs.Euler.{euler};
ghost use Rattle.partition.specs.Work.{load};

use super::{act, are_below};
use entity_store::Steps;
use modeller::Euler;
use partition::Partition;
use pk_base::{Act, Call, Fault, Lists, NoMemory, Reply, Tag, Triple};
use std::alloc::Global;
use std::marker::Brand;
use std::process::Abort;
use std::sync::ledger::{Blank, Ledger};
use std::test::Fail;

/// A new partition 1, which thread 1 holds, with nothing done.
fn begin(alloc: Global) -> Result<Partition<Euler>, NoMemory>
    ensures { IfOk result (λ p. load euler p.number p.journal ≡ 0) }
{
    let mut partition = Partition::begin(alloc, 1, Euler)?;
    partition.claim(1)?;
    Ok(partition)
}

/// Draws a block, which is above all that are owned. That does not add to the load.
fn draw(rt: &impl Abort, p: &mut Partition<Euler>, block: u32) -> Result<(), NoMemory>
    requires { block ≤ 94 }
    ensures { OnOk result (load euler p.new.number p.new.journal
        ≡ load euler p.old.number p.old.journal) }
{
    p.reserve_block()?;
    assert!(rt; p.holder().is_some());
    assert!(rt; are_below(p.blocks(), block));
    // Its clauses say that the state is the replay of the journal.
    let _journal = p.journal();
    p.take_block(block);
    Ok(())
}

/// Draws the blocks 2 to 94.
fn draw_all(rt: &impl Abort, p: &mut Partition<Euler>) -> Result<(), NoMemory>
    ensures { OnOk result (load euler p.new.number p.new.journal
        ≡ load euler p.old.number p.old.journal) }
{
    for block in 2..95 {
        draw(rt, p, block)?;
    }
    Ok(())
}

/// Makes a body of one vertex, by at most 100 steps, and adds at most five tags to the load.
fn make_body<L: Ledger>(p: &mut Partition<Euler>, steps: &mut Steps<L>) -> Result<Reply, Fault>
    requires held { IsSome p.old.state.holder }
    requires spare { 5 ≤ spare_of p.old.state.blocks p.old.state.used }
    ensures load { load euler p.new.number p.new.journal
        ≤ load euler p.old.number p.old.journal + 5 }
    ensures cost { steps.new ≤ steps.old + 100 }
{
    let at = Triple { x: 0, y: 0, z: 0 };
    p.call(Call::Mvfs { at }, steps)
}

/// Marks the state, by at most ten steps where at most five tags were changed.
fn mark<L: Ledger>(p: &mut Partition<Euler>, steps: &mut Steps<L>) -> Result<Reply, Fault>
    requires held { IsSome p.old.state.holder }
    requires spare { 0 < spare_of p.old.state.blocks p.old.state.used }
    requires few { load euler p.old.number p.old.journal ≤ 5 }
    ensures anew { IfOk result (λ _. load euler p.new.number p.new.journal ≡ 0) }
    ensures cost { steps.new ≤ steps.old + 10 }
{
    p.mark(steps)
}

/// The reply lists so many new tags, of which this is the first.
fn lists_made(rt: &impl Abort, reply: Reply, first: u32, many: usize) {
    let Reply::Made(made) = reply else {
        panic!(rt; "no tags were made");
    };
    assert_eq!(rt; made.as_slice().len(), many);
    assert_eq!(rt; made.as_slice().first().copied(), Some(Tag(first)));
}

/// Makes a body and the mark behind it, where the tags from `first` on are the next ones.
fn body_and_mark<L: Ledger>(
    rt: &impl Abort,
    p: &mut Partition<Euler>,
    first: u32,
    steps: &mut Steps<L>,
) -> Result<(), Fault>
    requires first { first ≤ 10000 }
    requires begins { load euler p.old.number p.old.journal ≡ 0 }
    ensures begins { OnOk result (load euler p.new.number p.new.journal ≡ 0) }
    ensures cost { steps.new ≤ steps.old + 110 }
{
    assert!(rt; p.holder().is_some());
    assert!(rt; p.spare() >= 5);
    lists_made(rt, make_body(p, steps)?, first, 5);
    assert!(rt; p.holder().is_some());
    assert!(rt; p.spare() >= 1);
    lists_made(rt, mark(p, steps)?, first + 5, 1);
    Ok(())
}

/// How many tags differ.
fn size(lists: &Lists) -> usize {
    let fresh = lists.fresh.as_slice().len();
    let gone = lists.gone.as_slice().len();
    let changed = lists.changed.as_slice().len();
    fresh.saturating_add(gone).saturating_add(changed)
}

/// How many tags differ between a mark and its parent.
fn edge_size<L: Ledger>(
    rt: &impl Abort,
    p: &mut Partition<Euler>,
    mark: Tag,
    steps: &mut Steps<L>,
) -> Result<usize, Fault> {
    let Reply::Delta(lists) = act(rt, p, Act::Delta(mark), steps)? else {
        panic!(rt; "no difference was told");
    };
    Ok(size(&lists))
}

/// The work from the last mark of a line of marks to the first, where nothing is unsaved: what
/// differs at each edge, with the number of the edges, and one.
fn work_over_all<L: Ledger>(
    rt: &impl Abort,
    p: &mut Partition<Euler>,
    steps: &mut Steps<L>,
) -> Result<usize, Fault> {
    let Reply::Marks { rows, .. } = act(rt, p, Act::Marks, steps)? else {
        panic!(rt; "no marks were told");
    };
    let mut work: usize = 1;
    for row in rows.as_slice() {
        if row.parent.is_some() {
            let edge = edge_size(rt, p, row.tag, steps)?;
            work = work.saturating_add(edge).saturating_add(1);
        }
    }
    Ok(work)
}

/// Goes to the initial mark.
fn go_back<L: Ledger>(
    rt: &impl Abort,
    p: &mut Partition<Euler>,
    steps: &mut Steps<L>,
) -> Result<(), Fault> {
    // The goto adds at most four times the work, so at most 24,004 steps.
    assert_eq!(rt; work_over_all(rt, p, steps)?, 6001);
    let Reply::Went(lists) = act(rt, p, Act::Goto(Tag(64)), steps)? else {
        panic!(rt; "the goto was refused");
    };
    assert_eq!(rt; lists.fresh.as_slice().len(), 0);
    assert_eq!(rt; lists.gone.as_slice().len(), 5000);
    assert_eq!(rt; lists.changed.as_slice().len(), 0);
    assert_eq!(rt; p.store().len(), 0);
    assert_eq!(rt; p.at(), Tag(64));
    Ok(())
}

/// Makes a thousand bodies with marks, each by at most 110 steps, and goes back.
fn go_there_and_back<L: Ledger, R: Abort>(rt: &R, alloc: Global, blank: Blank) -> Result<(), Fault>
    requires name { blank.name ≡ L.name }
    requires parts { blank.parts ≡ L.parts }
    requires some { 0 < blank.parts }
{
    let steps = &mut Steps::<L>::new(blank);
    let mut partition = begin(alloc)?;
    let p = &mut partition;
    draw_all(rt, p)?;
    for body in 0..1000 {
        body_and_mark(rt, p, 65 + 6 * body, steps)?;
    }
    assert_eq!(rt; p.blocks().len(), 94);
    assert_eq!(rt; p.live_marks(), 1001);
    assert_eq!(rt; p.store().len(), 5000);
    go_back(rt, p, steps)
}

#[test]
fn a_thousand_marks_are_left_at_once(rt: HostRuntime) -> Result<(), Fail> {
    let went = go_there_and_back::<Brand, HostRuntime>(&rt, rt.alloc(), Blank::new(1));
    assert_eq!(rt; went, Ok(()));
    Ok(())
}
