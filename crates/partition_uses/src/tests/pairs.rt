ghost use Rattle.std.specs.Prelude.{◌≡◌, ◌<◌};

use super::{
    bodies, check_entity, check_journal, check_made, check_refused, check_state, check_went, goto,
    make, mark,
};
use crate::PairBodies;
use entity_store::Steps;
use partition::Partition;
use pk_base::{Entity, Entry, Refusal, Tag};
use std::alloc::Global;
use std::marker::Brand;
use std::process::Abort;
use std::sync::ledger::{Blank, Ledger};
use std::test::Fail;

/// Two pairs with a mark between them.
fn build<L: Ledger>(rt: &impl Abort, partition: &mut Partition<PairBodies>, steps: &mut Steps<L>) {
    let reply = make(rt, partition, 0, steps);
    check_made(rt, reply, [Tag(65), Tag(66)].as_slice());
    check_state(rt, partition, 64, 3, 61, 2);
    let reply = mark(rt, partition, steps);
    check_made(rt, reply, [Tag(67)].as_slice());
    check_state(rt, partition, 67, 4, 60, 2);
    let reply = make(rt, partition, 1, steps);
    check_made(rt, reply, [Tag(68), Tag(69)].as_slice());
    check_state(rt, partition, 67, 6, 58, 4);
    check_entity(rt, partition, 68, Entity::Body { shell: Tag(69) }, steps);
    let shell = Entity::Shell {
        body: Tag(68),
        q: 1,
    };
    check_entity(rt, partition, 69, shell, steps);
}

/// Back over both marks, and forward to the later one.
fn roll<L: Ledger>(rt: &impl Abort, partition: &mut Partition<PairBodies>, steps: &mut Steps<L>) {
    let reply = goto(rt, partition, 67, steps);
    check_went(rt, reply, [].as_slice(), [Tag(68), Tag(69)].as_slice());
    check_state(rt, partition, 67, 6, 58, 2);
    let reply = goto(rt, partition, 64, steps);
    check_went(rt, reply, [].as_slice(), [Tag(65), Tag(66)].as_slice());
    check_state(rt, partition, 64, 6, 58, 0);
    let reply = goto(rt, partition, 67, steps);
    check_went(rt, reply, [Tag(65), Tag(66)].as_slice(), [].as_slice());
    check_state(rt, partition, 67, 6, 58, 2);
    check_entity(rt, partition, 65, Entity::Body { shell: Tag(66) }, steps);
}

/// What is refused, which leaves all but the journal.
fn refusals<L: Ledger>(
    rt: &impl Abort,
    partition: &mut Partition<PairBodies>,
    steps: &mut Steps<L>,
) {
    let reply = bodies(rt, partition, steps);
    check_refused(rt, reply, Refusal::NoSuchTag(Tag(0)));
    let reply = goto(rt, partition, 128, steps);
    check_refused(rt, reply, Refusal::NotOurs(Tag(128)));
    let reply = goto(rt, partition, 65, steps);
    check_refused(rt, reply, Refusal::NotAMark(Tag(65)));
    check_state(rt, partition, 67, 6, 58, 2);
}

fn play<L: Ledger, R: Abort>(rt: &R, alloc: Global, blank: Blank) -> Result<Vec<Entry>, Fail>
    requires name { blank.name ≡ L.name }
    requires parts { blank.parts ≡ L.parts }
    requires some { 0 < blank.parts }
{
    let mut steps = Steps::<L>::new(blank);
    let mut partition = Partition::begin(alloc, 1, PairBodies)?;
    check_state(rt, &partition, 64, 1, 63, 0);
    assert_eq!(rt; partition.holder(), None);
    partition.claim(1)?;
    assert_eq!(rt; partition.holder(), Some(1));
    build(rt, &mut partition, &mut steps);
    roll(rt, &mut partition, &mut steps);
    refusals(rt, &mut partition, &mut steps);
    assert!(rt; partition.holder().is_some());
    partition.release();
    assert_eq!(rt; partition.holder(), None);
    assert_eq!(rt; partition.journal().len(), 11);
    assert_eq!(rt; partition.live_marks(), 2);
    Ok(partition.into_journal())
}

#[test]
fn pairs_roll_back_and_forward(rt: HostRuntime) -> Result<(), Fail> {
    let journal = play::<Brand, HostRuntime>(&rt, rt.alloc(), Blank::new(1))?;
    let expected = [
        "Claimed(1)",
        "Did { thread: 1, act: Call(Mvfs { at: Triple { x: 0, y: 0, z: 0 } }) }",
        "Did { thread: 1, act: Mark }",
        "Did { thread: 1, act: Call(Mvfs { at: Triple { x: 1, y: 0, z: 0 } }) }",
        "Did { thread: 1, act: Goto(Tag(67)) }",
        "Did { thread: 1, act: Goto(Tag(64)) }",
        "Did { thread: 1, act: Goto(Tag(67)) }",
        "Did { thread: 1, act: Call(Bodies) }",
        "Did { thread: 1, act: Goto(Tag(128)) }",
        "Did { thread: 1, act: Goto(Tag(65)) }",
        "Released(1)",
    ];
    check_journal(&rt, rt.alloc(), &journal, expected.as_slice())
}
