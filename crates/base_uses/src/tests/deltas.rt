ghost use Rattle.std.specs.Prelude.{◌≡◌, ◌≢◌, ◌<◌, ◌∷◌, [], IfOk};

use delta::Delta;
use entity_store::{Change, ChangeListBuilder, RecordRoom, Steps, Store};
use pk_base::{Entity, NoMemory, Point, Tag};
use std::alloc::Global;
use std::marker::Brand;
use std::process::Abort;
use std::sync::ledger::{Blank, Ledger};
use std::test::Fail;

/// A delta of one change.
fn delta_of(alloc: Global, change: Change) -> Result<Delta, NoMemory>
    requires { change.before ≢ change.after }
    ensures { IfOk result (λ d. d ≡ change ∷ []) }
{
    let mut list = ChangeListBuilder::with_room(alloc, 1)?;
    list.push(change);
    Ok(Delta::from_changes(list.finish()))
}

fn compose<L: Ledger, R: Abort>(rt: &R, alloc: Global, blank: Blank) -> Result<(), Fail>
    requires name { blank.name ≡ L.name }
    requires parts { blank.parts ≡ L.parts }
    requires some { 0 < blank.parts }
{
    let mut steps = Steps::<L>::new(blank);
    let tag = Tag(69);
    let body = Entity::Body { shell: Tag(70) };
    let came = Change {
        tag,
        before: None,
        after: Some(body),
    };
    let went = Change {
        tag,
        before: Some(body),
        after: None,
    };
    let make = delta_of(alloc, came)?;
    let kill = delta_of(alloc, went)?;
    let killed = Delta::compose(alloc, &make, &kill, &mut steps)?;
    assert_eq!(rt; killed.len(), 0);
    let back = Delta::inverse_of(alloc, &make, &mut steps)?;
    assert_eq!(rt; *back.entry(0, &mut steps), went);
    let undone = Delta::compose(alloc, &make, &back, &mut steps)?;
    assert_eq!(rt; undone.len(), 0);
    let still = Delta::compose(alloc, &Delta::empty(alloc), &make, &mut steps)?;
    assert_eq!(rt; still.len(), 1);
    assert_eq!(rt; *still.entry(0, &mut steps), came);
    let lists = make.lists(alloc, &mut steps)?;
    assert_eq!(rt; lists.fresh.as_slice(), [tag].as_slice());
    assert!(rt; lists.gone.as_slice().is_empty());
    assert!(rt; lists.changed.as_slice().is_empty());
    Ok(())
}

#[test]
fn what_came_and_went_is_no_change(rt: HostRuntime) -> Result<(), Fail> {
    compose::<Brand, HostRuntime>(&rt, rt.alloc(), Blank::new(1))
}

fn apply<L: Ledger, R: Abort>(rt: &R, alloc: Global, blank: Blank) -> Result<(), Fail>
    requires name { blank.name ≡ L.name }
    requires parts { blank.parts ≡ L.parts }
    requires some { 0 < blank.parts }
{
    let mut steps = Steps::<L>::new(blank);
    let tag = Tag(69);
    let body = Tag(65);
    let came = Change {
        tag,
        before: None,
        after: Some(Entity::Vertex {
            body,
            point: Point { x: 1, y: 0, z: 0 },
        }),
    };
    let make = delta_of(alloc, came)?;
    let room = RecordRoom::new(alloc, 1)?;
    let mut store = Store::new(alloc);
    store.add_block(1)?;
    let mut rec = store.recorder_with(room);
    make.apply(&mut rec, true, &mut steps);
    assert_eq!(rt; rec.get(tag, &mut steps).copied(), came.after);
    make.apply(&mut rec, false, &mut steps);
    assert!(rt; rec.get(tag, &mut steps).is_none());
    assert_eq!(rt; rec.finish(&mut steps).len(), 0);
    Ok(())
}

#[test]
fn a_delta_is_applied_and_undone(rt: HostRuntime) -> Result<(), Fail> {
    apply::<Brand, HostRuntime>(&rt, rt.alloc(), Blank::new(1))
}
