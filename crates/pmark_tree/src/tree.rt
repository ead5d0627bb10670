//! The tree, and the marks that are made in it.
ghost use Rattle.std.specs.Prelude.{◌≡◌, ◌+◌, ◌<◌, ◌≤◌, [], ◌∷◌, ◌++◌, IsTrue, IsSome, ◌⊎◌, ◌↔◌, true, false, IfOk, OnErr, OnOk, None, Some, length, replicate, slice_get, is_some};
ghost use Rattle.std.specs.List.{AllByRecursion};
ghost use Rattle.std.specs.FinMap.{empty};
ghost use Rattle.entity_store.specs.Changes.{AreChanges};
ghost use Rattle.delta.specs.Deltas.{StartsAt, after};
ghost use Rattle.pmark_tree.specs.Marks.{child_mark, delta_in, initial_mark, initial_of, is_live, live_tags, mark_at, parent_in};
ghost use Rattle.pmark_tree.specs.Maps.{map_of, whole_marks};
ghost use Rattle.pmark_tree.specs.Trees.{IsEdge, IsTree};

use crate::TreeMark;
use crate::find::{find_mark, slot_in, slot_of};
use delta::Delta;
use owner_links::Links;
use pk_base::{NoMemory, Tag};
use std::alloc::Global;
use std::marker::Model;

/// How many slots are added to the links at once.
const SLOTS_ADDED: usize = 64;

/// The marks of a partition, each with the changes from its parent. Contracts see the list of those
/// ever made, ascending by their tags, and for how many more there is room.
#[derive(Drop)]
pub struct MarkTree {
    pub(crate) alloc: Global,
    pub(crate) rows: Vec<TreeMark>,
    // The tags of the live marks, ascending.
    pub(crate) live: Vec<Tag>,
    // The slot of a mark has the number of its row, and is the child of its parent's.
    pub(crate) links: Links,
    // How many slots there are.
    pub(crate) slots: usize,
}

impl Model for MarkTree {
    ghost use Rattle.std.specs.Prelude.{◌-◌, length, vec_capacity, vec_len};
    ghost use Rattle.pmark_tree.specs.Marks.{TreeView, view_code};
    ghost use Rattle.pmark_tree.specs.Rows.{AreKept, room_for};

    ghost Value = { TreeView };

    ghost coded = { view_code };

    ghost view = { λ t. record {
      marks = t.rows.items;
      spare = room_for (vec_capacity t.rows - vec_len t.rows)
          (vec_capacity t.live - vec_len t.live) (t.slots - vec_len t.rows);
    } };

    ghost invariant = { λ t. AreKept t.rows.items t.live.items t.links.owners t.slots };
}

impl MarkTree {
    /// A tree of an initial mark alone, which stands for the empty map.
    pub fn begin(alloc: Global, initial: Tag) -> Result<MarkTree, NoMemory>
        ensures marks { IfOk result (λ t. t.marks ≡ initial_mark initial ∷ []) }
        ensures whole { IfOk result (λ t. whole_marks t.marks
            ≡ record { tag = initial; parent = None; map = empty; live = true } ∷ []) }
    {
        let mut rows = Vec::new(alloc);
        rows.push(TreeMark {
            tag: initial,
            parent: None,
            live: true,
            delta: Delta::empty(alloc),
        })?;
        let mut live = Vec::new(alloc);
        live.push(initial)?;
        let mut links = Links::new(alloc);
        add_slots(&mut links)?;
        Ok(MarkTree {
            alloc,
            rows,
            live,
            links,
            slots: SLOTS_ADDED,
        })
    }

    /// Whether there is a live mark with this tag. It takes no memory.
    pub fn live(&self, t: Tag) -> bool
        ensures value { result ≡ is_live self.now.marks t }
        ensures tree { IsTree self.now.marks }
    {
        match find_mark(&self.rows, t) {
            Some(mark) => mark.live,
            None => false,
        }
    }

    /// Whether there is a mark with this tag, or was one. It takes no memory.
    pub fn ever(&self, t: Tag) -> bool
        ensures { result ≡ is_some (mark_at self.now.marks t) }
    {
        find_mark(&self.rows, t).is_some()
    }

    /// The parent of a live mark; `None` exactly for the initial mark, and where there is no such
    /// live mark. It takes no memory.
    pub fn parent(&self, t: Tag) -> Option<Tag>
        ensures value { result ≡ parent_in self.now.marks t }
        // From its map the mark's changes lead to the mark's.
        ensures edge { (p : Tag) → result ≡ Some p → IsEdge self.now.marks p t }
        ensures none { result ≡ None ↔ ((is_live self.now.marks t ≡ false)
            ⊎ (initial_of self.now.marks ≡ Some t)) }
    {
        find_mark(&self.rows, t)?.parent
    }

    /// The changes from the parent of a live mark, which is not the initial one. It takes no
    /// memory.
    pub fn delta(&self, t: Tag) -> &Delta
        requires { IsSome (parent_in self.now.marks t) }
        ensures { result.now ≡ delta_in self.now.marks t }
    {
        let Some(mark) = find_mark(&self.rows, t) else {
            unreachable!()
        };
        &mark.delta
    }

    /// How many marks are live. It takes no memory.
    pub fn live_len(&self) -> usize
        ensures { result ≡ length (live_tags self.now.marks) }
    {
        self.live.len()
    }

    /// The live mark at a place, from 0, in ascending order. It takes no memory.
    pub fn live_at(&self, i: usize) -> Tag
        requires { i < length (live_tags self.now.marks) }
        ensures value { slice_get (live_tags self.now.marks) i ≡ Some result }
        ensures lives { is_live self.now.marks result ≡ true }
    {
        self.live[i]
    }

    /// Makes sure that there is room for one mark more. The marks are as they were, also without
    /// memory.
    pub fn reserve(&mut self) -> Result<(), NoMemory>
        ensures room { OnOk result (1 ≤ self.new.spare) }
        ensures marks { self.new.marks ≡ self.old.marks }
    {
        self.rows.reserve(1)?;
        self.live.reserve(1)?;
        if self.slots == self.rows.len() {
            let slots = self.slots.checked_add(SLOTS_ADDED).ok_or(NoMemory)?;
            add_slots(&mut self.links)?;
            self.slots = slots;
        }
        Ok(())
    }

    /// Adds a mark below a live one. Its tag is above those of all marks ever made, and its changes
    /// start at what its parent stands for. It takes no memory.
    pub fn add(&mut self, tag: Tag, parent: Tag, delta: Delta)
        requires room { 0 < self.old.spare }
        requires newest { AllByRecursion (λ k. k.tag.0 < tag.0) self.old.marks }
        requires parent { IsTrue (is_live self.old.marks parent) }
        requires starts { StartsAt (map_of self.old.marks parent) delta }
        ensures marks { self.new.marks ≡ self.old.marks ++ child_mark tag parent delta ∷ [] }
        ensures whole { whole_marks self.new.marks ≡ whole_marks self.old.marks
            ++ record {
              tag = tag;
              parent = Some parent;
              map = after (map_of self.old.marks parent) delta;
              live = true;
            } ∷ [] }
        ensures room { self.new.spare + 1 ≡ self.old.spare }
    {
        let owner = slot_in(&self.rows, parent);
        let child = slot_of(self.rows.len(), tag.0);
        // What is known of each delta is known of one that is kept.
        let _changes = delta.len();
        self.rows.push_reserved(TreeMark {
            tag,
            parent: Some(parent),
            live: true,
            delta,
        });
        self.live.push_reserved(tag);
        self.links.attach(child, owner);
    }
}

/// Adds 64 slots without links. Without memory the owners are as they were.
fn add_slots(links: &mut Links) -> Result<(), NoMemory>
    ensures ok { OnOk result (links.new.owners ≡ links.old.owners ++ replicate 64 None) }
    ensures err { OnErr result (links.new.owners ≡ links.old.owners) }
{
    match links.grow() {
        Ok(()) => Ok(()),
        Err(_) => Err(NoMemory),
    }
}
