//! Goto brings the fins back of rings that were cut off, filled and made holes.
ghost use Rattle.std.specs.Prelude.{◌≡◌, ◌<◌};

use super::calls::{kemr, kfmrh, mef, mev, mfkrh, mvfs, ringmove};
use super::kept::{Kept, go_back, keep, mark};
use super::reading::{check_lone, check_q, check_ring};
use super::{begin, does, makes};
use entity_store::Steps;
use modeller::Euler;
use partition::Partition;
use pk_base::{Act, Tag};
use std::alloc::Global;
use std::marker::Brand;
use std::process::Abort;
use std::sync::ledger::{Blank, Ledger};
use std::test::Fail;

/// A triangle.
fn build<L: Ledger>(rt: &impl Abort, p: &mut Partition<Euler>, steps: &mut Steps<L>) {
    makes(rt, p, Act::Call(mvfs(0, 0, 0)), (65, 69), steps);
    makes(rt, p, Act::Call(mev(68, 8, 0, 0)), (70, 73), steps);
    makes(rt, p, Act::Call(mev(73, 8, 8, 0)), (74, 77), steps);
    makes(rt, p, Act::Call(mef(72, 77)), (78, 82), steps);
}

/// An edge into the face 78 is cut off, of which its far vertex is left as the ring 88; that is
/// made a triangle, in which the face 97 is.
fn cut<L: Ledger>(rt: &impl Abort, p: &mut Partition<Euler>, steps: &mut Steps<L>) {
    makes(rt, p, Act::Call(mev(72, 4, 1, 0)), (84, 87), steps);
    check_ring(rt, p, 79, [72, 76, 81, 86, 87].as_slice(), steps);
    makes(rt, p, Act::Call(kemr(86)), (88, 88), steps);
    check_ring(rt, p, 79, [72, 76, 81].as_slice(), steps);
    check_lone(rt, p, 88, 84, steps);
    makes(rt, p, Act::Call(mev(88, 5, 1, 0)), (89, 92), steps);
    makes(rt, p, Act::Call(mev(92, 5, 2, 0)), (93, 96), steps);
    check_ring(rt, p, 88, [91, 95, 96, 92].as_slice(), steps);
    makes(rt, p, Act::Call(mef(91, 96)), (97, 101), steps);
    check_ring(rt, p, 98, [91, 95, 100].as_slice(), steps);
    check_ring(rt, p, 88, [92, 101, 96].as_slice(), steps);
}

/// The triangle, the ring in it, the ring filled, the face inside it made a hole of the outer
/// triangle's one face, and the fill one of the other: each with a mark.
fn play_on<L: Ledger>(
    rt: &impl Abort,
    alloc: Global,
    p: &mut Partition<Euler>,
    steps: &mut Steps<L>,
) -> Result<[Kept; 6], Fail> {
    let first = keep(alloc, p, steps)?;
    build(rt, p, steps);
    let triangle = mark(rt, alloc, p, steps)?;
    assert_eq!(rt; p.at(), Tag(83));
    cut(rt, p, steps);
    let ring = mark(rt, alloc, p, steps)?;
    assert_eq!(rt; p.at(), Tag(102));
    makes(rt, p, Act::Call(mfkrh(88)), (103, 103), steps);
    check_q(rt, p, 66, 2, steps);
    let filled = mark(rt, alloc, p, steps)?;
    assert_eq!(rt; p.at(), Tag(104));
    does(rt, p, kfmrh(78, 97), steps);
    does(rt, p, kfmrh(67, 103), steps);
    check_q(rt, p, 66, 0, steps);
    let hole = mark(rt, alloc, p, steps)?;
    assert_eq!(rt; p.at(), Tag(105));
    does(rt, p, ringmove(88, 78), steps);
    makes(rt, p, Act::Call(mfkrh(98)), (106, 106), steps);
    check_q(rt, p, 66, 1, steps);
    let moved = mark(rt, alloc, p, steps)?;
    assert_eq!(rt; p.at(), Tag(107));
    Ok([first, triangle, ring, filled, hole, moved])
}

/// From one mark to each of them.
fn go_to_each<L: Ledger>(
    rt: &impl Abort,
    alloc: Global,
    p: &mut Partition<Euler>,
    from: &Kept,
    kept: &[Kept],
    steps: &mut Steps<L>,
) -> Result<(), Fail> {
    for to in kept {
        go_back(rt, alloc, p, from, steps)?;
        go_back(rt, alloc, p, to, steps)?;
    }
    Ok(())
}

fn play<L: Ledger, R: Abort>(rt: &R, alloc: Global, blank: Blank) -> Result<(), Fail>
    requires name { blank.name ≡ L.name }
    requires parts { blank.parts ≡ L.parts }
    requires some { 0 < blank.parts }
{
    let steps = &mut Steps::<L>::new(blank);
    let mut partition = begin(alloc)?;
    let p = &mut partition;
    let kept = play_on(rt, alloc, p, steps)?;
    for from in &kept {
        go_to_each(rt, alloc, p, from, &kept, steps)?;
    }
    Ok(())
}

#[test]
fn marks_bring_fins_back(rt: HostRuntime) -> Result<(), Fail> {
    play::<Brand, HostRuntime>(&rt, rt.alloc(), Blank::new(1))
}
