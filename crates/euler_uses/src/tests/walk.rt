//! Thousands of calls, drawn at random, after each of which the solids are sound.
ghost use Rattle.std.specs.Prelude.{◌≡◌, ◌<◌};

use super::answers::{check_answer, query_of};
use super::check::{Solids, check};
use super::dice::Dice;
use super::kept::{Kept, go_back, keep, leave, mark};
use super::operands::{DRAWN, Drawn, draw, draw_call};
use super::reading::{are_same, read_live};
use super::{act, begin};
use entity_store::Steps;
use modeller::Euler;
use partition::Partition;
use pk_base::{Act, Entity, Fault, Reply, Tag};
use std::alloc::Global;
use std::marker::Brand;
use std::mem::swap;
use std::process::Abort;
use std::sync::ledger::{Blank, Ledger};
use std::test::Fail;

/// How many steps are done: calls, marks and gotos.
const STEPS: u32 = 4000;

/// The number of entities above which an earlier mark is gone to.
const TOO_MANY: usize = 240;

/// Where the walk is: the numbers at random, the live entities and those before the last step, a
/// copy of them for each mark, how often each call was done, and how many calls were done and
/// refused.
#[derive(Drop)]
struct Walk {
    dice: Dice,
    live: Vec<(Tag, Entity)>,
    before: Vec<(Tag, Entity)>,
    kept: Vec<Kept>,
    each: [u32; DRAWN],
    done: u32,
    refused: u32,
}

/// One more such call was answered so.
fn note(rt: &impl Abort, walk: &mut Walk, drawn: Drawn, reply: Result<Reply, Fault>) {
    match reply {
        Ok(Reply::Made(_))
        | Ok(Reply::Done)
        | Ok(Reply::Is(_))
        | Ok(Reply::List(_))
        | Ok(Reply::Counts(_)) => {
            walk.done = walk.done.saturating_add(1);
            if let Some(count) = walk.each.get_mut(drawn as usize) {
                *count = count.saturating_add(1);
            }
        }
        Err(Fault::Refused(_)) => walk.refused = walk.refused.saturating_add(1),
        Ok(Reply::Went(_)) | Ok(Reply::Marks { .. }) | Ok(Reply::Delta(_)) | Err(Fault::NoMemory) =>
            panic!(rt; "{drawn:?} has another answer"),
    }
}

/// Draws a call and does it. What is asked is answered as the entities say.
fn call<L: Ledger>(
    rt: &impl Abort,
    alloc: Global,
    partition: &mut Partition<Euler>,
    walk: &mut Walk,
    steps: &mut Steps<L>,
) -> Result<(), Fail> {
    let drawn = draw(&mut walk.dice, walk.live.len());
    let solids = Solids {
        store: partition.store(),
        live: walk.live.as_slice(),
    };
    let call = draw_call(drawn, &mut walk.dice, alloc, solids, steps)?;
    let query = query_of(&call);
    let reply = act(rt, partition, Act::Call(call), steps);
    if let Some(query) = query {
        let solids = Solids {
            store: partition.store(),
            live: walk.live.as_slice(),
        };
        check_answer(rt, solids, query, &reply, steps);
    }
    note(rt, walk, drawn, reply);
    Ok(())
}

/// Goes to one of the marks.
fn go<L: Ledger>(
    rt: &impl Abort,
    alloc: Global,
    partition: &mut Partition<Euler>,
    walk: &mut Walk,
    steps: &mut Steps<L>,
) -> Result<(), Fail> {
    let place = walk.dice.below(walk.kept.len() as u64) as usize;
    match walk.kept.get(place) {
        Some(kept) => go_back(rt, alloc, partition, kept, steps),
        None => Ok(()),
    }
}

/// Unmarks one of the marks but the initial one, which is the first that was kept. What is live is
/// as before.
fn unmark<L: Ledger>(
    rt: &impl Abort,
    alloc: Global,
    partition: &mut Partition<Euler>,
    walk: &mut Walk,
    steps: &mut Steps<L>,
) -> Result<(), Fail> {
    let drawn = walk.dice.below(walk.kept.len() as u64) as usize;
    let place = drawn.saturating_add(1);
    if place < walk.kept.len() {
        let kept = walk.kept.remove(place);
        leave(rt, alloc, partition, &kept, steps)?;
    }
    Ok(())
}

/// A call; now and then a mark is made, or one is gone to, or one is unmarked.
fn step<L: Ledger>(
    rt: &impl Abort,
    alloc: Global,
    partition: &mut Partition<Euler>,
    walk: &mut Walk,
    steps: &mut Steps<L>,
) -> Result<(), Fail> {
    let turn = walk.dice.below(60);
    if turn == 0 || walk.live.len() > TOO_MANY {
        go(rt, alloc, partition, walk, steps)?;
    } else if turn == 1 {
        let kept = mark(rt, alloc, partition, steps)?;
        walk.kept.push(kept)?;
    } else if turn == 2 && walk.dice.below(2) == 0 {
        unmark(rt, alloc, partition, walk, steps)?;
    } else {
        call(rt, alloc, partition, walk, steps)?;
    }
    swap(&mut walk.live, &mut walk.before);
    read_live(partition.store(), &mut walk.live, steps)?;
    Ok(())
}

/// The steps, each with the check of the ten facts, unless nothing has changed.
fn take_steps<L: Ledger>(
    rt: &impl Abort,
    alloc: Global,
    partition: &mut Partition<Euler>,
    walk: &mut Walk,
    steps: &mut Steps<L>,
) -> Result<(), Fail> {
    for at in 0..STEPS {
        step(rt, alloc, partition, walk, steps)?;
        if !are_same(&walk.live, &walk.before) {
            let solids = Solids {
                store: partition.store(),
                live: walk.live.as_slice(),
            };
            check(rt, solids, at, steps);
        }
    }
    Ok(())
}

/// There were thousands of calls, of which a third were done at least, and of each kind some.
fn check_counts(rt: &impl Abort, each: &[u32], done: u32, refused: u32) {
    let calls = done.saturating_add(refused);
    assert!(rt; calls >= 3000, "there were {calls} calls");
    assert!(rt;
        done >= calls / 3,
        "{done} calls were done, and {refused} refused"
    );
    assert!(rt;
        each.iter().all(|count| *count >= 10),
        "the calls were done {each:?} times"
    );
}

fn play<L: Ledger, R: Abort>(rt: &R, alloc: Global, blank: Blank) -> Result<(), Fail>
    requires name { blank.name ≡ L.name }
    requires parts { blank.parts ≡ L.parts }
    requires some { 0 < blank.parts }
{
    let steps = &mut Steps::<L>::new(blank);
    let mut partition = begin(alloc)?;
    let mut walk = Walk {
        dice: Dice::new(1988),
        live: Vec::new(alloc),
        before: Vec::new(alloc),
        kept: Vec::new(alloc),
        each: [0; DRAWN],
        done: 0,
        refused: 0,
    };
    let first = keep(alloc, &partition, steps)?;
    walk.kept.push(first)?;
    take_steps(rt, alloc, &mut partition, &mut walk, steps)?;
    check_counts(rt, walk.each.as_slice(), walk.done, walk.refused);
    Ok(())
}

#[test]
fn random_walk(rt: HostRuntime) -> Result<(), Fail> {
    play::<Brand, HostRuntime>(&rt, rt.alloc(), Blank::new(1))
}
