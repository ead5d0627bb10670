//! A make and the kill that undoes it: all that is live is just as it was.
ghost use Rattle.std.specs.Prelude.{◌≡◌, ◌<◌};
ghost use Rattle.solid_model.specs.Sound.{IsSound};

use super::live::{check_live, read_live};
use super::row::{OPERATORS, after, next_after};
use super::store::{FIRST, goes, ready};
use entity_store::{Steps, Store};
use euler_laws::{mef_kef, mev_kev, mfkrh_kfmrh, mvfs_kvfs};
use pk_base::{Call, Tag, Triple};
use std::alloc::Global;
use std::marker::Brand;
use std::process::Abort;
use std::sync::ledger::{Blank, Ledger};
use std::test::Fail;

const AT: Triple = Triple { x: 1, y: 2, z: 3 };

/// A body is made, and killed.
fn try_mvfs<L: Ledger>(
    rt: &impl Abort,
    alloc: Global,
    store: &mut Store,
    first: u32,
    steps: &mut Steps<L>,
) -> Result<(), Fail>
    requires { IsSound store.old.state.map }
    ensures { IsSound store.new.state.map }
{
    let at = AT;
    let before = read_live(alloc, store, steps)?;
    let mut tags = ready(rt, store, &Call::Mvfs { at }, first, 5, steps);
    mvfs_kvfs(alloc, store, at, &mut tags, steps)?;
    check_live(rt, alloc, store, &before, steps)?;
    Ok(())
}

/// An edge is made at this end, and killed, where it is not refused.
fn try_mev<L: Ledger>(
    rt: &impl Abort,
    alloc: Global,
    store: &mut Store,
    end: Tag,
    first: u32,
    steps: &mut Steps<L>,
) -> Result<bool, Fail>
    requires { IsSound store.old.state.map }
    ensures { IsSound store.new.state.map }
{
    let at = AT;
    if !goes(store, &Call::Mev { end, at }, steps) {
        return Ok(false);
    }
    let before = read_live(alloc, store, steps)?;
    let mut tags = ready(rt, store, &Call::Mev { end, at }, first, 4, steps);
    mev_kev(alloc, store, end, at, &mut tags, steps)?;
    check_live(rt, alloc, store, &before, steps)?;
    Ok(true)
}

/// A face is cut off between these fins, and killed, where it is not refused.
fn try_mef<L: Ledger>(
    rt: &impl Abort,
    alloc: Global,
    store: &mut Store,
    from: Tag,
    to: Tag,
    first: u32,
    steps: &mut Steps<L>,
) -> Result<bool, Fail>
    requires { IsSound store.old.state.map }
    ensures { IsSound store.new.state.map }
{
    if !goes(store, &Call::Mef { from, to }, steps) {
        return Ok(false);
    }
    let before = read_live(alloc, store, steps)?;
    let mut tags = ready(rt, store, &Call::Mef { from, to }, first, 5, steps);
    mef_kef(alloc, store, from, to, &mut tags, steps)?;
    check_live(rt, alloc, store, &before, steps)?;
    Ok(true)
}

/// A face is made of this ring, and killed, where it is not refused.
fn try_mfkrh<L: Ledger>(
    rt: &impl Abort,
    alloc: Global,
    store: &mut Store,
    ring: Tag,
    first: u32,
    steps: &mut Steps<L>,
) -> Result<bool, Fail>
    requires { IsSound store.old.state.map }
    ensures { IsSound store.new.state.map }
{
    if !goes(store, &Call::Mfkrh { ring }, steps) {
        return Ok(false);
    }
    let before = read_live(alloc, store, steps)?;
    let mut tags = ready(rt, store, &Call::Mfkrh { ring }, first, 1, steps);
    mfkrh_kfmrh(alloc, store, ring, &mut tags, steps)?;
    check_live(rt, alloc, store, &before, steps)?;
    Ok(true)
}

/// What the operators that make are not refused on a state.
#[derive(Clone, Copy)]
struct Makes<'a> {
    /// Ends for `mev`.
    ends: &'a [u32],
    /// Pairs of fins for `mef`.
    pairs: &'a [(u32, u32)],
    /// Rings for `mfkrh`.
    rings: &'a [u32],
}

/// At just these ends an edge is made, and killed.
fn check_ends<L: Ledger>(
    rt: &impl Abort,
    alloc: Global,
    store: &mut Store,
    ends: &[u32],
    first: u32,
    steps: &mut Steps<L>,
) -> Result<(), Fail>
    requires { IsSound store.old.state.map }
    ensures { IsSound store.new.state.map }
{
    for end in FIRST..first {
        let went = try_mev(rt, alloc, store, Tag(end), first, steps)?;
        assert_eq!(rt; went, ends.contains(&end), "mev {end}");
    }
    Ok(())
}

/// Between just these pairs of fins, of those that begin with this one, a face is cut off, and
/// killed.
fn check_pairs_from<L: Ledger>(
    rt: &impl Abort,
    alloc: Global,
    store: &mut Store,
    from: u32,
    pairs: &[(u32, u32)],
    first: u32,
    steps: &mut Steps<L>,
) -> Result<(), Fail>
    requires { IsSound store.old.state.map }
    ensures { IsSound store.new.state.map }
{
    for to in FIRST..first {
        let went = try_mef(rt, alloc, store, Tag(from), Tag(to), first, steps)?;
        assert_eq!(rt; went, pairs.contains(&(from, to)), "mef {from} {to}");
    }
    Ok(())
}

/// Between just these pairs of fins a face is cut off, and killed.
fn check_pairs<L: Ledger>(
    rt: &impl Abort,
    alloc: Global,
    store: &mut Store,
    pairs: &[(u32, u32)],
    first: u32,
    steps: &mut Steps<L>,
) -> Result<(), Fail>
    requires { IsSound store.old.state.map }
    ensures { IsSound store.new.state.map }
{
    for from in FIRST..first {
        check_pairs_from(rt, alloc, store, from, pairs, first, steps)?;
    }
    Ok(())
}

/// Of just these rings a face is made, and killed.
fn check_rings<L: Ledger>(
    rt: &impl Abort,
    alloc: Global,
    store: &mut Store,
    rings: &[u32],
    first: u32,
    steps: &mut Steps<L>,
) -> Result<(), Fail>
    requires { IsSound store.old.state.map }
    ensures { IsSound store.new.state.map }
{
    for ring in FIRST..first {
        let went = try_mfkrh(rt, alloc, store, Tag(ring), first, steps)?;
        assert_eq!(rt; went, rings.contains(&ring), "mfkrh {ring}");
    }
    Ok(())
}

/// On the state after so many operators of the row, the operators that make are not refused just
/// these operands, and are undone.
fn check_state<L: Ledger>(
    rt: &impl Abort,
    alloc: Global,
    count: u32,
    makes: Makes<'_>,
    steps: &mut Steps<L>,
) -> Result<(), Fail> {
    let mut store = after(rt, alloc, count, steps)?;
    let first = next_after(count);
    try_mvfs(rt, alloc, &mut store, first, steps)?;
    check_ends(rt, alloc, &mut store, makes.ends, first, steps)?;
    check_pairs(rt, alloc, &mut store, makes.pairs, first, steps)?;
    check_rings(rt, alloc, &mut store, makes.rings, first, steps)
}

/// What is not refused after so many operators of the row.
fn makes_after(count: u32) -> Makes<'static> {
    match count {
        0 => Makes {
            ends: &[],
            pairs: &[],
            rings: &[],
        },
        1 => Makes {
            ends: &[68],
            pairs: &[],
            rings: &[],
        },
        2 => Makes {
            ends: &[72, 73],
            pairs: &[(72, 73), (73, 72)],
            rings: &[],
        },
        3 => Makes {
            ends: &[68, 74],
            pairs: &[],
            rings: &[74],
        },
        4 => Makes {
            ends: &[76, 77],
            pairs: &[(76, 77), (77, 76)],
            rings: &[],
        },
        6 => Makes {
            ends: &[68, 78],
            pairs: &[],
            rings: &[],
        },
        _ => Makes {
            ends: &[68, 78],
            pairs: &[],
            rings: &[78],
        },
    }
}

fn play<L: Ledger, R: Abort>(rt: &R, alloc: Global, blank: Blank) -> Result<(), Fail>
    requires name { blank.name ≡ L.name }
    requires parts { blank.parts ≡ L.parts }
    requires some { 0 < blank.parts }
{
    let steps = &mut Steps::<L>::new(blank);
    for count in 0..=OPERATORS {
        check_state(rt, alloc, count, makes_after(count), steps)?;
    }
    Ok(())
}

#[test]
fn a_make_and_its_kill_leave_all_as_it_was(rt: HostRuntime) -> Result<(), Fail> {
    play::<Brand, HostRuntime>(&rt, rt.alloc(), Blank::new(1))
}
