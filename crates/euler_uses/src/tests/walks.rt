//! A walk over what an entity owns, or over what has no owner, passes nothing else.
ghost use Rattle.std.specs.Prelude.{◌≡◌, ◌+◌, ◌<◌};

use super::calls::mvfs;
use super::{begin, makes};
use entity_store::{KidWalk, Steps};
use modeller::Euler;
use partition::Partition;
use pk_base::{Act, Entity, Tag};
use std::alloc::Global;
use std::marker::Brand;
use std::process::Abort;
use std::sync::ledger::{Blank, Ledger};
use std::test::Fail;

/// How many bodies are made.
const BODIES: u32 = 1000;

/// More than a walk is expected to give.
const MANY: u32 = 2000;

/// How many entities a walk gives, of which those past the first 2,000 are left. It adds as many
/// steps.
fn count<L: Ledger>(mut walk: KidWalk<'_>, steps: &mut Steps<L>) -> u32
    ensures { steps.new ≡ steps.old + result }
{
    for count in 0..MANY {
        if walk.next(steps).is_none() {
            return count;
        }
    }
    MANY
}

/// A body of one vertex, and then a mark, a thousand times.
fn make_bodies<L: Ledger>(rt: &impl Abort, p: &mut Partition<Euler>, steps: &mut Steps<L>) {
    for body in 0..BODIES {
        let first = 65 + 6 * body;
        makes(rt, p, Act::Call(mvfs(0, 0, 0)), (first, first + 4), steps);
        makes(rt, p, Act::Mark, (first + 5, first + 5), steps);
    }
}

fn play<L: Ledger, R: Abort>(rt: &R, alloc: Global, blank: Blank) -> Result<(), Fail>
    requires name { blank.name ≡ L.name }
    requires parts { blank.parts ≡ L.parts }
    requires some { 0 < blank.parts }
{
    let steps = &mut Steps::<L>::new(blank);
    let mut p = begin(alloc)?;
    make_bodies(rt, &mut p, steps);
    assert_eq!(rt; p.blocks().len(), 94);
    let store = p.store();
    let Some((face, Entity::Face { .. })) = store.kids(Tag(66)).next(steps) else {
        panic!(rt; "the shell has no face");
    };
    assert_eq!(rt; face, Tag(67));
    assert_eq!(rt; count(store.kids(Tag(66)), steps), 1);
    assert_eq!(rt; count(store.roots(), steps), BODIES);
    Ok(())
}

#[test]
fn walks_pass_what_they_give(rt: HostRuntime) -> Result<(), Fail> {
    play::<Brand, HostRuntime>(&rt, rt.alloc(), Blank::new(1))
}
