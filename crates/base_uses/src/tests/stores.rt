ghost use Rattle.std.specs.Prelude.{◌≡◌, ◌<◌, ◌≤◌, [], IsTrue, IfOk, OnOk, OnErr, length};
ghost use Rattle.std.specs.FinMap as map;
ghost use Rattle.pk_model.specs.Tags.{owns};
ghost use Rattle.pk_model.specs.Maps.{with_entity};
ghost use Rattle.entity_store.specs.Store.{IfHosted};
ghost use Rattle.entity_store.specs.Changes.{net_changes};
ghost use Rattle.entity_store.specs.Recording.{recorded_put, HasRoomFor};

use entity_store::{Change, ChangeList, ChangeListBuilder, ListsBuilder, Recorder, Steps, Store};
use pk_base::{Entity, NoMemory, Point, Tag, TagListBuilder};
use std::alloc::Global;
use std::marker::Brand;
use std::process::Abort;
use std::sync::ledger::{Blank, Ledger};
use std::test::Fail;

fn vertex(x: i32) -> Entity {
    Entity::Vertex {
        body: Tag(65),
        point: Point { x, y: 0, z: 0 },
    }
}

/// Puts a vertex of the body 65 at a tag.
fn put_vertex<L: Ledger>(
    rt: &impl Abort,
    store: &mut Store,
    tag: u32,
    x: i32,
    steps: &mut Steps<L>,
) {
    let tag = Tag(tag);
    let body = Tag(65);
    assert!(rt; store.owns(tag));
    assert!(rt; store.owns(body));
    assert!(rt; tag != body);
    let point = Point { x, y: 0, z: 0 };
    store.put(tag, Some(Entity::Vertex { body, point }), steps);
}

/// Puts once, by a recorder. Here one learns what the store is after its recorder has finished.
fn put_once<L: Ledger>(
    alloc: Global,
    store: &mut Store,
    tag: Tag,
    to: Option<Entity>,
    steps: &mut Steps<L>,
) -> Result<ChangeList, NoMemory>
    requires owned { IsTrue (owns store.old.state.blocks tag) }
    requires hosted { IfHosted store.old.state.blocks tag to }
    ensures ok { OnOk result (store.new.state ≡ record store.old.state
        { map = with_entity store.old.state.map tag to }) }
    ensures changes { IfOk result (λ l. l ≡ net_changes store.old.state.map store.new.state.map) }
    ensures err { OnErr result (store.new.state ≡ store.old.state) }
{
    let mut rec = store.recorder(alloc, 1)?;
    rec.put(tag, to, steps);
    Ok(rec.finish(steps))
}

/// Puts a vertex of the body 65 at a tag of a lent store, or takes away what is there.
fn put_lent<L: Ledger>(
    rt: &impl Abort,
    rec: &mut Recorder<'_>,
    tag: Tag,
    to: Option<i32>,
    steps: &mut Steps<L>,
)
    requires room { HasRoomFor rec.old.store.now.recording tag }
    ensures recorded { rec.new.store.now.recording ≡ record rec.old.store.now.recording {
      first = recorded_put rec.old.store.now.recording.first tag
          (map.get rec.old.store.now.state.map tag);
    } }
    ensures same_store { rec.new.store.ghost_name ≡ rec.old.store.ghost_name }
{
    let body = Tag(65);
    assert!(rt; rec.view().owns(tag));
    assert!(rt; rec.view().owns(body));
    assert!(rt; tag != body);
    let to = match to {
        Some(x) => Some(Entity::Vertex {
            body,
            point: Point { x, y: 0, z: 0 },
        }),
        None => None,
    };
    rec.put(tag, to, steps);
}

/// A store of the blocks 1 and 2, with the body 65 and its vertices 70 and 71.
fn two_vertices<L: Ledger>(
    rt: &impl Abort,
    alloc: Global,
    steps: &mut Steps<L>,
) -> Result<Store, NoMemory> {
    let mut store = Store::new(alloc);
    store.add_block(1)?;
    store.reserve_block()?;
    store.add_reserved(2);
    let body = Tag(65);
    assert!(rt; store.owns(body));
    store.put(body, Some(Entity::Body { shell: Tag(66) }), steps);
    put_vertex(rt, &mut store, 70, 1, steps);
    put_vertex(rt, &mut store, 71, 2, steps);
    Ok(store)
}

/// One vertex is new, one is taken away, and one changed, by descending tags.
fn put_three<L: Ledger>(rt: &impl Abort, rec: &mut Recorder<'_>, steps: &mut Steps<L>)
    requires { rec.old.store.now.recording ≡ record { first = []; room = 3 } }
    ensures puts { length rec.new.store.now.recording.first ≤ 3 }
    ensures same_store { rec.new.store.ghost_name ≡ rec.old.store.ghost_name }
{
    put_lent(rt, rec, Tag(130), Some(3), steps);
    put_lent(rt, rec, Tag(71), None, steps);
    put_lent(rt, rec, Tag(70), Some(4), steps);
}

fn put_back<L: Ledger, R: Abort>(rt: &R, alloc: Global, blank: Blank) -> Result<(), Fail>
    requires name { blank.name ≡ L.name }
    requires parts { blank.parts ≡ L.parts }
    requires some { 0 < blank.parts }
{
    let mut steps = Steps::<L>::new(blank);
    let mut store = two_vertices(rt, alloc, &mut steps)?;
    let mut rec = store.recorder(alloc, 1)?;
    put_lent(rt, &mut rec, Tag(69), Some(1), &mut steps);
    assert_eq!(rt; rec.get(Tag(69), &mut steps).copied(), Some(vertex(1)));
    put_lent(rt, &mut rec, Tag(69), None, &mut steps);
    assert_eq!(rt; rec.finish(&mut steps).len(), 0);
    let none = Tag(72);
    assert!(rt; store.owns(none));
    assert_eq!(rt;
        put_once(alloc, &mut store, none, None, &mut steps)?.len(),
        0
    );
    Ok(())
}

#[test]
fn a_tag_put_back_is_no_change(rt: HostRuntime) -> Result<(), Fail> {
    put_back::<Brand, HostRuntime>(&rt, rt.alloc(), Blank::new(1))
}

fn list_three<L: Ledger, R: Abort>(rt: &R, alloc: Global, blank: Blank) -> Result<(), Fail>
    requires name { blank.name ≡ L.name }
    requires parts { blank.parts ≡ L.parts }
    requires some { 0 < blank.parts }
{
    let mut steps = Steps::<L>::new(blank);
    let mut store = two_vertices(rt, alloc, &mut steps)?;
    let mut roots = store.roots();
    assert_eq!(rt; roots.next(&mut steps).map(|kid| kid.0), Some(Tag(65)));
    assert!(rt; roots.next(&mut steps).is_none());
    let mut rec = store.recorder(alloc, 3)?;
    put_three(rt, &mut rec, &mut steps);
    let changes = rec.finish(&mut steps);
    assert_eq!(rt; changes.len(), 3);
    let expected = [
        (70, Some(vertex(1)), Some(vertex(4))),
        (71, Some(vertex(2)), None),
        (130, None, Some(vertex(3))),
    ];
    for (i, (tag, before, after)) in expected.into_iter().enumerate() {
        let tag = Tag(tag);
        let change = Change { tag, before, after };
        assert_eq!(rt; *changes.entry(i, &mut steps), change, "{i}");
    }
    Ok(())
}

#[test]
fn net_changes_ascend(rt: HostRuntime) -> Result<(), Fail> {
    list_three::<Brand, HostRuntime>(&rt, rt.alloc(), Blank::new(1))
}

fn list_tags<L: Ledger, R: Abort>(rt: &R, alloc: Global, blank: Blank) -> Result<(), Fail>
    requires name { blank.name ≡ L.name }
    requires parts { blank.parts ≡ L.parts }
    requires some { 0 < blank.parts }
{
    let mut steps = Steps::<L>::new(blank);
    let mut store = two_vertices(rt, alloc, &mut steps)?;
    let out = ListsBuilder {
        fresh: TagListBuilder::with_room(alloc, 3)?,
        gone: TagListBuilder::with_room(alloc, 3)?,
        changed: TagListBuilder::with_room(alloc, 3)?,
    };
    let mut rec = store.recorder(alloc, 3)?;
    put_three(rt, &mut rec, &mut steps);
    let lists = rec.finish_lists(out, &mut steps);
    assert_eq!(rt; lists.fresh.as_slice(), [Tag(130)].as_slice());
    assert_eq!(rt; lists.gone.as_slice(), [Tag(71)].as_slice());
    assert_eq!(rt; lists.changed.as_slice(), [Tag(70)].as_slice());
    Ok(())
}

#[test]
fn lists_say_what_came_and_went(rt: HostRuntime) -> Result<(), Fail> {
    list_tags::<Brand, HostRuntime>(&rt, rt.alloc(), Blank::new(1))
}

fn build<L: Ledger, R: Abort>(rt: &R, alloc: Global, blank: Blank) -> Result<(), Fail>
    requires name { blank.name ≡ L.name }
    requires parts { blank.parts ≡ L.parts }
    requires some { 0 < blank.parts }
{
    let mut steps = Steps::<L>::new(blank);
    let came = Change {
        tag: Tag(69),
        before: None,
        after: Some(vertex(1)),
    };
    let went = Change {
        tag: Tag(70),
        before: Some(vertex(2)),
        after: None,
    };
    let mut list = ChangeListBuilder::with_room(alloc, 2)?;
    list.push(came);
    list.push(went);
    let changes = list.finish();
    assert_eq!(rt; changes.len(), 2);
    assert_eq!(rt; *changes.entry(0, &mut steps), came);
    assert_eq!(rt; *changes.entry(1, &mut steps), went);
    Ok(())
}

#[test]
fn changes_are_built_in_room(rt: HostRuntime) -> Result<(), Fail> {
    build::<Brand, HostRuntime>(&rt, rt.alloc(), Blank::new(1))
}
