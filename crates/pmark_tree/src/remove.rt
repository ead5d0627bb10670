//! A mark is removed.
ghost use Rattle.std.specs.Prelude.{◌≡◌, ◌+◌, ◌<◌, ◌≤◌, IsSome, IfOk, OnOk, OnErr, Contains, None, Some, length, map, set, not, filter};
ghost use Rattle.std.specs.List.{AllByRecursion};
ghost use Rattle.pk_base.specs.Entity.{same_tag};
ghost use Rattle.pk_base.specs.declared.tag.Tag.{Tag};
ghost use Rattle.pk_model.specs.Tags.{TagsAscend};
ghost use Rattle.pk_model.specs.Step.{after_deletion};
ghost use Rattle.delta.specs.Composed.{composed};
ghost use Rattle.owner_links.specs.Links.{owner_at};
ghost use Rattle.pmark_tree.specs.declared.remove.Moved.{Moved};
ghost use Rattle.pmark_tree.specs.Marks.{after_removal, dead_mark, parent_in, removal_steps};
ghost use Rattle.pmark_tree.specs.Maps.{whole_marks};
ghost use Rattle.pmark_tree.specs.Trees.{IsTree};
ghost use Rattle.pmark_tree.specs.Rows.{AreLinked, IsChildRow, row_at};
ghost use Rattle.pmark_tree.specs.Removal.{AreMoved, IsMoved, MayMove, child_steps, handed_over, owned_by, rows_in, with_moved};

use crate::find::slot_in;
use crate::path::parent_of;
use crate::{MarkTree, TreeMark};
use delta::Delta;
use entity_store::Steps;
use owner_links::Links;
use pk_base::{NoMemory, Tag};
use std::alloc::Global;
use std::sync::ledger::Ledger;

impl MarkTree {
    /// Removes a live mark, which is not the initial one. Its children become those of its parent,
    /// each with its changes behind those of the mark. What any other mark stands for stays the
    /// same. All memory is taken before the first change, and without it nothing has changed. At
    /// most two steps for each change of a child, and of the mark for each child.
    pub fn remove<L: Ledger>(&mut self, t: Tag, steps: &mut Steps<L>) -> Result<(), NoMemory>
        requires { IsSome (parent_in self.old.marks t) }
        ensures marks { OnOk result
            (self.new.marks ≡ map (after_removal self.old.marks t) self.old.marks) }
        ensures whole { OnOk result ((p : Tag) → parent_in self.old.marks t ≡ Some p
            → whole_marks self.new.marks ≡ map (after_deletion t p) (whole_marks self.old.marks)) }
        ensures kept { OnErr result (self.new ≡ self.old) }
        ensures cost { steps.new ≤ steps.old + removal_steps self.old.marks t }
    {
        let parent = parent_of(&self.rows, t);
        let row = slot_in(&self.rows, t);
        let owner = slot_in(&self.rows, parent);
        let moved = moved_children(self.alloc, &self.rows, &self.links, row, steps)?;
        hand_over(&mut self.rows, &mut self.links, moved, parent, owner);
        end_mark(self.alloc, &mut self.rows, &mut self.links, row);
        drop_tag(&mut self.live, t);
        Ok(())
    }
}

/// The row of a mark that gets a new parent, and its changes from there.
#[derive(Drop)]
struct Moved {
    row: u32,
    delta: Delta,
}

/// The children of the mark in a row, as they are below its parent.
fn moved_children<L: Ledger>(
    alloc: Global,
    rows: &[TreeMark],
    links: &Links,
    at: u32,
    steps: &mut Steps<L>,
) -> Result<Vec<Moved>, NoMemory>
    requires tree { IsTree rows.now }
    requires linked { AreLinked rows.now links.now.owners }
    requires at { at < length rows.now }
    ensures moved { IfOk result (λ moved. AreMoved rows.now at moved.items) }
    ensures cost { steps.new ≤ steps.old + removal_steps rows.now (row_at rows.now at).tag }
{
    let mut moved = Vec::new(alloc);
    for child in links.children(at) {
        moved.push(moved_child(alloc, rows, at, child, steps)?)?;
    }
    Ok(moved)
}

/// A child of the mark in a row, as it is below its parent.
fn moved_child<L: Ledger>(
    alloc: Global,
    rows: &[TreeMark],
    at: u32,
    child: u32,
    steps: &mut Steps<L>,
) -> Result<Moved, NoMemory>
    requires tree { IsTree rows.now }
    requires child { IsChildRow rows.now child at }
    ensures row { IfOk result (λ m. m.row ≡ child) }
    ensures moved { IfOk result (IsMoved rows.now at) }
    ensures cost { steps.new ≤ steps.old + child_steps rows.now at child }
{
    let above = &rows[at as usize].delta;
    let below = &rows[child as usize].delta;
    Ok(Moved {
        row: child,
        delta: Delta::compose(alloc, above, below, steps)?,
    })
}

/// Gives these marks this parent, whose row is the owner.
fn hand_over(
    rows: &mut Vec<TreeMark>,
    links: &mut Links,
    mut moved: Vec<Moved>,
    parent: Tag,
    owner: u32,
)
    requires may { AllByRecursion (MayMove (length rows.old.items) owner links.old.owners)
        (rows_in moved.items) }
    requires owner { owner < length links.old.owners }
    ensures rows { rows.new.items ≡ handed_over parent moved.items rows.old.items }
    ensures owners { links.new.owners ≡ owned_by owner (rows_in moved.items) links.old.owners }
{
    while let Some(child) = moved.pop() {
        move_to(rows, links, child, parent, owner);
    }
}

/// Gives a mark this parent, whose row is the owner.
fn move_to(rows: &mut Vec<TreeMark>, links: &mut Links, child: Moved, parent: Tag, owner: u32)
    requires may { MayMove (length rows.old.items) owner links.old.owners child.row }
    requires owner { owner < length links.old.owners }
    ensures rows { rows.new.items ≡ with_moved parent child rows.old.items }
    ensures owners { links.new.owners ≡ set links.old.owners child.row (Some owner) }
{
    let Moved { row, delta } = child;
    let mark = &mut rows[row as usize];
    mark.parent = Some(parent);
    mark.delta = delta;
    links.detach(row);
    links.attach(row, owner);
}

/// Makes the mark in a row a dead one. It takes no memory.
fn end_mark(alloc: Global, rows: &mut Vec<TreeMark>, links: &mut Links, row: u32)
    requires within { row < length rows.old.items }
    requires owned { IsSome (owner_at links.old.owners row) }
    ensures rows { rows.new.items
        ≡ set rows.old.items row (dead_mark (row_at rows.old.items row).tag) }
    ensures owners { links.new.owners ≡ set links.old.owners row None }
{
    let mark = &mut rows[row as usize];
    mark.parent = None;
    mark.live = false;
    mark.delta = Delta::empty(alloc);
    links.detach(row);
}

/// Takes a tag out of tags that ascend. It takes no memory.
fn drop_tag(tags: &mut Vec<Tag>, t: Tag)
    requires ascend { TagsAscend tags.old.items }
    requires there { Contains tags.old.items t }
    ensures { tags.new.items ≡ filter (λ u. not (same_tag u t)) tags.old.items }
{
    if let Ok(place) = tags.binary_search_by_key(&t.0, |tag| tag.0) {
        tags.remove(place);
    }
}
