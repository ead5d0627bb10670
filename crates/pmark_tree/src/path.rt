//! The way from one mark to another.
ghost use Rattle.std.specs.Prelude.{◌≡◌, ◌≢◌, ◌+◌, ◌<◌, IsTrue, IsSome, IfOk, OnOk, Some, reverse};
ghost use Rattle.pk_base.specs.declared.tag.Tag.{Tag};
ghost use Rattle.pmark_tree.specs.Marks.{is_live, parent_in};
ghost use Rattle.pmark_tree.specs.Trees.{IsTree};
ghost use Rattle.pmark_tree.specs.Paths.{Leads, apart_of};
ghost use Rattle.pmark_tree.specs.Walks.{IsWalk};

use crate::find::find_mark;
use crate::{MarkTree, TreeMark};
use pk_base::{NoMemory, Tag, TagList};
use std::alloc::Global;

/// The way from one mark to another: the marks whose edges are left upwards, and those whose edges
/// are entered downwards. The edge of a mark is the one to its parent.
#[derive(Drop)]
pub struct Path {
    up: TagList,
    down: TagList,
}

impl Path {
    /// The marks whose edges are left upwards, in the order of the walk.
    pub fn up(&self) -> &[Tag]
        ensures { result.now ≡ self.now.up }
    {
        self.up.as_slice()
    }

    /// The marks whose edges are entered downwards, in the order of the walk.
    pub fn down(&self) -> &[Tag]
        ensures { result.now ≡ self.now.down }
    {
        self.down.as_slice()
    }
}

impl MarkTree {
    /// The way from one live mark to another: up to where their ways up meet, and from there down.
    /// Each edge is in it at most once.
    pub fn path(&self, alloc: Global, from: Tag, to: Tag) -> Result<Path, NoMemory>
        requires from { IsTrue (is_live self.now.marks from) }
        requires to { IsTrue (is_live self.now.marks to) }
        ensures up { IfOk result (λ p. p.up ≡ apart_of (parent_in self.now.marks) from to) }
        ensures down { IfOk result (λ p.
            p.down ≡ reverse (apart_of (parent_in self.now.marks) to from)) }
        ensures leads { IfOk result (λ p.
            Leads (parent_in self.now.marks) from to p.up p.down) }
    {
        let mut walk = Walk {
            from,
            to,
            up: Vec::new(alloc),
            down: Vec::new(alloc),
        };
        while walk.from.0 != walk.to.0 {
            step(&self.rows, &mut walk)?;
        }
        walk.down.reverse();
        Ok(Path {
            up: TagList::of(walk.up),
            down: TagList::of(walk.down),
        })
    }
}

/// A walk up from both ends of a way, which are still to meet.
#[derive(Drop)]
struct Walk {
    from: Tag,
    to: Tag,
    // What was left on the way up from the one end, and from the other.
    up: Vec<Tag>,
    down: Vec<Tag>,
}

/// Goes up from the newer one of the two marks, which cannot be above the other.
fn step(rows: &[TreeMark], walk: &mut Walk) -> Result<(), NoMemory>
    requires tree { IsTree rows.now }
    requires from { IsTrue (is_live rows.now walk.old.from) }
    requires to { IsTrue (is_live rows.now walk.old.to) }
    requires apart { walk.old.from.0 ≢ walk.old.to.0 }
    ensures walk { OnOk result ((from to : Tag)
        → IsWalk rows.now from to walk.old.from walk.old.to walk.old.up.items walk.old.down.items
        → IsWalk rows.now from to walk.new.from walk.new.to
        walk.new.up.items walk.new.down.items) }
    ensures closer { OnOk result
        (walk.new.from.0 + walk.new.to.0 < walk.old.from.0 + walk.old.to.0) }
{
    if walk.to.0 < walk.from.0 {
        walk.up.push(walk.from)?;
        walk.from = parent_of(rows, walk.from);
    } else {
        walk.down.push(walk.to)?;
        walk.to = parent_of(rows, walk.to);
    }
    Ok(())
}

/// The parent of a mark that has one.
pub(crate) fn parent_of(rows: &[TreeMark], t: Tag) -> Tag
    requires tree { IsTree rows.now }
    requires child { IsSome (parent_in rows.now t) }
    ensures { parent_in rows.now t ≡ Some result }
{
    let Some(mark) = find_mark(rows, t) else {
        unreachable!()
    };
    mark.parent.unwrap()
}
