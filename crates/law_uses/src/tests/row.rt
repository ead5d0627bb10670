//! The row of operators, and the store after so many of them.
ghost use Rattle.std.specs.Prelude.{◌≡◌, ◌<◌, IfOk};
ghost use Rattle.solid_model.specs.Sound.{IsSound};

use super::store::{begin, carry_out};
use entity_store::{Modeller, Steps, Store};
use modeller::Euler;
use pk_base::{Call, NoMemory, Refusal, Reply, Tag, Triple};
use std::alloc::Global;
use std::marker::Brand;
use std::process::Abort;
use std::sync::ledger::{Blank, Ledger};
use std::test::Fail;

/// How many operators the row has.
pub const OPERATORS: u32 = 7;

/// The next tag after so many operators of the row, in a partition that has made no other mark
/// than its first.
pub fn next_after(count: u32) -> u32 {
    match count {
        0 => 65,
        1 => 70,
        2 => 74,
        3 => 75,
        4 => 78,
        5 => 79,
        _ => 80,
    }
}

/// The operator at a place of the row.
fn operator_at(place: u32) -> Call {
    match place {
        0 => Call::Mvfs {
            at: Triple { x: 0, y: 0, z: 0 },
        },
        1 => Call::Mev {
            end: Tag(68),
            at: Triple { x: 1, y: 0, z: 0 },
        },
        2 => Call::Kemr { fin: Tag(72) },
        3 => Call::Mekr {
            keep: Tag(68),
            ring: Tag(74),
        },
        4 => Call::Kemr { fin: Tag(76) },
        5 => Call::Mfkrh { ring: Tag(78) },
        _ => Call::Kfmrh {
            keep: Tag(67),
            kill: Tag(79),
        },
    }
}

/// The reply names the tags from the first one up to the next one, or none where these are the
/// same.
fn check_reply(rt: &impl Abort, reply: &Reply, first: u32, next: u32) {
    if first == next {
        assert!(rt; matches!(reply, Reply::Done));
        return;
    }
    let Reply::Made(made) = reply else {
        panic!(rt; "no tags were made from {first} on");
    };
    assert!(rt; made.as_slice().iter().map(|tag| tag.0).eq(first..next));
}

/// Carries out the operator at a place of the row.
fn step<L: Ledger>(
    rt: &impl Abort,
    alloc: Global,
    store: &mut Store,
    place: u32,
    steps: &mut Steps<L>,
) -> Result<(), NoMemory>
    requires place { place < 7 }
    requires sound { IsSound store.old.state.map }
    ensures { IsSound store.new.state.map }
{
    let first = next_after(place);
    let reply = carry_out(rt, alloc, store, &operator_at(place), first, steps)?;
    check_reply(rt, &reply, first, next_after(place + 1));
    Ok(())
}

/// The store after so many operators of the row.
pub fn after<L: Ledger>(
    rt: &impl Abort,
    alloc: Global,
    count: u32,
    steps: &mut Steps<L>,
) -> Result<Store, NoMemory>
    ensures { IfOk result (λ s. IsSound s.state.map) }
{
    assert!(rt; count <= OPERATORS);
    let mut store = begin(alloc)?;
    for place in 0..count {
        step(rt, alloc, &mut store, place, steps)?;
    }
    Ok(store)
}

/// After the row `mekr` and `mfkrh` of its outer loop are refused, and a ring is moved to no face
/// that has it.
fn play<L: Ledger, R: Abort>(rt: &R, alloc: Global, blank: Blank) -> Result<(), Fail>
    requires name { blank.name ≡ L.name }
    requires parts { blank.parts ≡ L.parts }
    requires some { 0 < blank.parts }
{
    let steps = &mut Steps::<L>::new(blank);
    let store = after(rt, alloc, OPERATORS, steps)?;
    let (keep, ring, to) = (Tag(78), Tag(68), Tag(67));
    let mekr = Euler.need(&store, &Call::Mekr { keep, ring }, steps);
    assert_eq!(rt; mekr, Err(Refusal::IsOuter(ring)));
    let ringmove = Euler.need(&store, &Call::RingMove { ring: keep, to }, steps);
    assert_eq!(rt; ringmove, Err(Refusal::SameFace(to)));
    let mfkrh = Euler.need(&store, &Call::Mfkrh { ring }, steps);
    assert_eq!(rt; mfkrh, Err(Refusal::IsOuter(ring)));
    Ok(())
}

#[test]
fn the_row_ends_in_refusals(rt: HostRuntime) -> Result<(), Fail> {
    play::<Brand, HostRuntime>(&rt, rt.alloc(), Blank::new(1))
}
