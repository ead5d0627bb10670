//! A goto, along the differences on its way.
ghost use Rattle.std.specs.Prelude.{◌≡◌, ◌+◌, ◌*◌, ◌≤◌, true, length, IfOk, IfSome, IsSome};
ghost use Rattle.std.specs.List.{AllByRecursion};
ghost use Rattle.pk_model.specs.State.{Mark};
ghost use Rattle.entity_store.specs.Changes.{net_changes};
ghost use Rattle.entity_store.specs.Lists.{HasRoomForAll};
ghost use Rattle.entity_store.specs.Recorder.{Records};
ghost use Rattle.pmark_tree.specs.Marks.{is_live, parent_in};
ghost use Rattle.pmark_tree.specs.Maps.{map_of, whole_marks};
ghost use Rattle.pmark_tree.specs.Trees.{IsTree};
ghost use Rattle.partition.specs.Contents.{AreHosted};
ghost use Rattle.partition.specs.Goes.{Goes, MayWalk, entries_between, entries_in, walked};

use delta::Delta;
use entity_store::{ListsBuilder, RecordRoom, Recorder, Steps, Store};
use pk_base::{Lists, NoMemory, Tag, TagListBuilder};
use pmark_tree::{MarkTree, Path};
use std::alloc::Global;
use std::sync::ledger::Ledger;

/// Brings the store from what is unsaved behind the live mark `at` to what the live mark m stands
/// for, and answers how that differs from what it left. Each change on the way is read once. All
/// memory is taken before the first change, and without it the store is left as it is.
pub(crate) fn go<L: Ledger>(
    alloc: Global,
    store: &mut Store,
    tree: &MarkTree,
    unsaved: &Delta,
    at: Tag,
    m: Tag,
    steps: &mut Steps<L>,
) -> Result<Lists, NoMemory>
    requires tree { IsTree tree.now.marks }
    requires at { is_live tree.now.marks at ≡ true }
    requires to { is_live tree.now.marks m ≡ true }
    requires hosted { AllByRecursion (λ (k : Mark). AreHosted store.old.state.blocks k.map)
        (whole_marks tree.now.marks) }
    requires net { unsaved.now ≡ net_changes (map_of tree.now.marks at) store.old.state.map }
    ensures goes { Goes store.old.state tree.now.marks m result store.new.state }
    ensures cost { steps.new ≤ steps.old
        + 4 * (length unsaved.now + entries_between tree.now.marks at m) }
{
    let path = tree.path(alloc, at, m)?;
    let most = entries_on(tree, unsaved, &path).ok_or(NoMemory)?;
    let lists = lists_with_room(alloc, most)?;
    let room = RecordRoom::new(alloc, most)?;
    // Its clauses say that the entities are hosted in the blocks.
    let _blocks = store.blocks();
    let mut rec = store.recorder_with(room);
    unsaved.apply(&mut rec, false, steps);
    walk(&mut rec, tree, path.up(), false, steps);
    walk(&mut rec, tree, path.down(), true, steps);
    Ok(rec.finish_lists(lists, steps))
}

/// How many changes there are on the way; none where they are more than are counted.
fn entries_on(tree: &MarkTree, unsaved: &Delta, path: &Path) -> Option<usize>
    requires up { AllByRecursion (λ t. IsSome (parent_in tree.now.marks t)) path.now.up }
    requires down { AllByRecursion (λ t. IsSome (parent_in tree.now.marks t)) path.now.down }
    ensures { IfSome result (λ n. n ≡ length unsaved.now + entries_in tree.now.marks path.now.up
        + entries_in tree.now.marks path.now.down) }
{
    let up = add_entries(tree, path.up(), unsaved.len())?;
    add_entries(tree, path.down(), up)
}

/// Adds how many changes these marks have from their parents.
fn add_entries(tree: &MarkTree, marks: &[Tag], start: usize) -> Option<usize>
    requires { AllByRecursion (λ t. IsSome (parent_in tree.now.marks t)) marks.now }
    ensures { IfSome result (λ n. n ≡ start + entries_in tree.now.marks marks.now) }
{
    let mut entries = start;
    for mark in marks {
        entries = entries.checked_add(tree.delta(*mark).len())?;
    }
    Some(entries)
}

/// Three empty lists, each with room for so many tags.
fn lists_with_room(alloc: Global, most: usize) -> Result<ListsBuilder, NoMemory>
    ensures { IfOk result (HasRoomForAll most) }
{
    Ok(ListsBuilder {
        fresh: TagListBuilder::with_room(alloc, most)?,
        gone: TagListBuilder::with_room(alloc, most)?,
        changed: TagListBuilder::with_room(alloc, most)?,
    })
}

/// Applies the changes from their parents of marks, or backward undoes them, one behind the other.
/// At most three steps for each change. It takes no memory.
fn walk<L: Ledger>(
    rec: &mut Recorder<'_>,
    tree: &MarkTree,
    marks: &[Tag],
    forward: bool,
    steps: &mut Steps<L>,
)
    requires walks { MayWalk rec.old.store.now.state.blocks tree.now.marks forward
        rec.old.store.now.state.map marks.now }
    requires room { length rec.old.store.now.recording.first + entries_in tree.now.marks marks.now
        ≤ rec.old.store.now.recording.room }
    ensures state { rec.new.store.now.state ≡ record rec.old.store.now.state
        { map = walked tree.now.marks forward rec.old.store.now.state.map marks.now } }
    ensures records { Records (entries_in tree.now.marks marks.now)
        rec.old.store.now rec.new.store.now }
    ensures same_store { rec.new.store.ghost_name ≡ rec.old.store.ghost_name }
    ensures cost { steps.new ≤ steps.old + 3 * entries_in tree.now.marks marks.now }
{
    for mark in marks {
        tree.delta(*mark).apply(rec, forward, steps);
    }
}
