//! What a partition's state stands for.
ghost use Rattle.std.specs.Prelude.{◌≡◌, ◌+◌, ◌*◌, ◌<◌, ◌≤◌, ◌++◌, ◌∷◌, [], length, map, nat_lt, true, IfErr, IfOk, OnOk, OnErr, IsSome, IsTrue, None, Some, Ok};
ghost use Rattle.std.specs.List.{list_all};
ghost use Rattle.pk_base.specs.declared.act.Reply.TheVariants as reply;
ghost use Rattle.pk_base.specs.declared.act.Act.TheVariants as act;
ghost use Rattle.pk_model.specs.Tags.{next_tags, spare_of};
ghost use Rattle.pk_model.specs.State.{opening};
ghost use Rattle.pk_model.specs.Modelling.{MayBeAsked};
ghost use Rattle.pk_base.specs.declared.tag.Tag.{Tag};
ghost use Rattle.pk_model.specs.Maps.{EntityMap, diff};
ghost use Rattle.pk_model.specs.Step.{act_cost, after_deletion, live_rows};
ghost use Rattle.entity_store.specs.Changes.{net_changes};
ghost use Rattle.delta.specs.Deltas.{StartsAt};
ghost use Rattle.pmark_tree.specs.Marks.{is_live, parent_in};
ghost use Rattle.pmark_tree.specs.Maps.{map_of, whole_marks};
ghost use Rattle.partition.specs.Work.{CallsWithin, size, work};
ghost use Rattle.partition.specs.Contents.{Does};
ghost use Rattle.partition.specs.Unsaved.{IsUnsaved};

use crate::goes::go;
use crate::marks::{check_live, list_live, parent_of};
use crate::perform::perform;
use crate::unsaved::Unsaved;
use delta::Delta;
use entity_store::{Modeller, Steps, Store, Tags};
use pk_base::{
    Act, Call, LAST_BLOCK, MarkListBuilder, NoMemory, Refusal, Reply, TAGS_OF_A_BLOCK, Tag,
    TagListBuilder,
};
use pmark_tree::MarkTree;
use std::alloc::Global;
use std::marker::Model;
use std::sync::ledger::Ledger;

/// The entities that are live, the marks with the current one, how many tags were taken, and the
/// holder; and what carries calls out. Contracts see the state of a
/// partition, and for how many more blocks there is room.
#[derive(Drop)]
pub(crate) struct Contents<K: Modeller> {
    alloc: Global,
    kind: K,
    store: Store,
    // The store's blocks, for while the store is lent to a recorder.
    blocks: Vec<u32>,
    tree: MarkTree,
    at: Tag,
    unsaved: Unsaved,
    used: u64,
    holder: Option<u32>,
}

impl<K: Modeller> Model for Contents<K> {
    ghost use Rattle.std.specs.Prelude.{◌-◌, min, vec_capacity, vec_len};
    ghost use Rattle.partition.specs.Contents.{ContentsView, contents_code};

    ghost Value = { ContentsView };

    ghost coded = { contents_code };

    ghost use Rattle.partition.specs.Contents.{AreContents, state_of};

    ghost view = { λ c. record {
      state = state_of c.store c.tree.marks c.at c.used c.holder;
      reserved = min c.store.reserved (vec_capacity c.blocks - vec_len c.blocks);
    } };

    ghost invariant = { λ c.
        AreContents c.store.state.blocks c.blocks.items c.store.state.map c.tree.marks
        c.unsaved.changes.entries c.at c.used };
}

impl<K: Modeller> Contents<K> {
    /// Those of partition p at its beginning.
    pub(crate) fn begin(alloc: Global, p: u32, kind: K) -> Result<Contents<K>, NoMemory>
        requires first { 1 ≤ p }
        requires last { p ≤ 32 }
        ensures { IfOk result (λ begun. begun.state ≡ opening p) }
    {
        let mut store = Store::new(alloc);
        store.add_block(p)?;
        let mut blocks = Vec::new(alloc);
        blocks.push(p)?;
        let initial = Tag::first_of(p);
        let tree = MarkTree::begin(alloc, initial)?;
        let unsaved = Unsaved::new(alloc);
        Ok(Contents {
            alloc,
            kind,
            store,
            blocks,
            tree,
            at: initial,
            unsaved,
            used: 1,
            holder: None,
        })
    }

    pub(crate) fn store(&self) -> &Store
        ensures blocks { result.now.state.blocks ≡ self.now.state.blocks }
        ensures map { result.now.state.map ≡ self.now.state.now }
    {
        &self.store
    }

    pub(crate) fn at(&self) -> Tag
        ensures { result ≡ self.now.state.at }
    {
        self.at
    }

    pub(crate) fn used(&self) -> u64
        ensures { result ≡ self.now.state.used }
    {
        self.used
    }

    pub(crate) fn holder(&self) -> Option<u32>
        ensures { result ≡ self.now.state.holder }
    {
        self.holder
    }

    /// How many tags of the blocks are left.
    pub(crate) fn spare(&self) -> u64
        ensures { result ≡ spare_of self.now.state.blocks self.now.state.used }
    {
        u64::from(TAGS_OF_A_BLOCK) * self.blocks.len() as u64 - self.used
    }

    pub(crate) fn set_holder(&mut self, holder: Option<u32>)
        ensures state { self.new.state ≡ record self.old.state { holder = holder } }
        ensures reserved { self.new.reserved ≡ self.old.reserved }
    {
        self.holder = holder;
    }

    /// How many tags an act takes.
    pub(crate) fn cost<L: Ledger>(&self, act: &Act, steps: &mut Steps<L>) -> u64
        requires { K.modelling.sound self.now.state.now }
        ensures { result ≡ act_cost K.modelling self.now.state act.now }
    {
        match act {
            Act::Call(call) => match self.kind.need(&self.store, call, steps) {
                Ok(need) => need.tags,
                Err(_) => 0,
            },
            Act::Mark => 1,
            Act::Goto(_) | Act::Unmark(_) | Act::Marks | Act::Delta(_) => 0,
        }
    }

    /// Carries a call out.
    pub(crate) fn call<L: Ledger>(
        &mut self,
        call: &Call,
        steps: &mut Steps<L>,
    ) -> Result<Result<Reply, Refusal>, NoMemory>
        requires { MayBeAsked K.modelling self.old.state.now call.now
            (next_tags self.old.state.blocks self.old.state.used) }
        ensures does { Does K.modelling self.old.state (act.Call call.now) result self.new.state }
        ensures few { IfOk result (λ _. size (diff self.old.state.now self.new.state.now)
            ≤ K.modelling.changes self.old.state.now call.now) }
        ensures cost { CallsWithin (K.step_limit call.now)
            (K.modelling.changes self.old.state.now call.now) steps.old steps.new }
    {
        match perform(
            self.alloc,
            &self.kind,
            &mut self.store,
            &mut self.unsaved,
            &self.blocks,
            self.used,
            call,
            steps,
        )? {
            Ok((reply, taken)) => {
                self.used += taken;
                Ok(Ok(reply))
            }
            Err(refusal) => Ok(Err(refusal)),
        }
    }

    /// Keeps the state as a new mark with the next tag, below the current mark, and makes it the
    /// current one. What is unsaved is its difference from the current mark, so no entity is read.
    pub(crate) fn mark(&mut self) -> Result<Result<Reply, Refusal>, NoMemory>
        requires { 0 < spare_of self.old.state.blocks self.old.state.used }
        ensures { Does K.modelling self.old.state act.Mark result self.new.state }
    {
        let changes = self.unsaved.to_delta(self.alloc)?;
        let nothing = Unsaved::new(self.alloc);
        self.tree.reserve()?;
        let mut made = TagListBuilder::with_room(self.alloc, 1)?;
        // Its clauses say that the blocks ascend.
        let _blocks = self.store.blocks();
        let tag = Tags::of(&self.blocks, self.used).take();
        made.push(tag);
        self.tree.add(tag, self.at, changes);
        self.unsaved = nothing;
        self.at = tag;
        self.used += 1;
        Ok(Ok(Reply::Made(made.finish())))
    }

    /// Brings the state back that the mark m stands for, and makes m the current mark.
    pub(crate) fn goto<L: Ledger>(
        &mut self,
        m: Tag,
        steps: &mut Steps<L>,
    ) -> Result<Result<Reply, Refusal>, NoMemory>
        ensures does { Does K.modelling self.old.state (act.Goto m) result self.new.state }
        ensures cost { steps.new ≤ steps.old + 4 * work self.old.state m }
        ensures refused { IfOk result (λ r. IfErr r (λ _. steps.new ≡ steps.old)) }
    {
        if let Err(refusal) = check_live(&self.store, &self.tree, m) {
            return Ok(Err(refusal));
        }
        let unsaved = self.unsaved.to_delta(self.alloc)?;
        let lists = go(
            self.alloc,
            &mut self.store,
            &self.tree,
            &unsaved,
            self.at,
            m,
            steps,
        )?;
        self.unsaved = Unsaved::new(self.alloc);
        self.at = m;
        Ok(Ok(Reply::Went(lists)))
    }

    /// Deletes the mark m, whose children become its parent's, and so does the current place where
    /// it was m.
    pub(crate) fn unmark<L: Ledger>(
        &mut self,
        m: Tag,
        steps: &mut Steps<L>,
    ) -> Result<Result<Reply, Refusal>, NoMemory>
        ensures { Does K.modelling self.old.state (act.Unmark m) result self.new.state }
    {
        let parent = match parent_of(&self.store, &self.tree, m) {
            Ok(parent) => parent,
            Err(refusal) => return Ok(Err(refusal)),
        };
        if self.at == m {
            let unsaved = self.unsaved.to_delta(self.alloc)?;
            self.unsaved = remove_current(self.alloc, &mut self.tree, m, &unsaved, steps)?;
            self.at = parent;
            return Ok(Ok(Reply::Done));
        }
        self.tree.remove(m, steps)?;
        Ok(Ok(Reply::Done))
    }

    /// Lists the live marks, with the current one.
    pub(crate) fn list_marks(&self) -> Result<Reply, NoMemory>
        ensures { IfOk result (λ r. r
            ≡ reply.Marks self.now.state.at (live_rows self.now.state.marks)) }
    {
        // Its clauses say that each mark is the only one with its tag.
        let _lives = self.tree.live(self.at);
        let mut rows = MarkListBuilder::with_room(self.alloc, self.tree.live_len())?;
        list_live(&self.tree, &mut rows);
        Ok(Reply::Marks {
            at: self.at,
            rows: rows.finish(),
        })
    }

    /// How many marks are live.
    pub(crate) fn live_marks(&self) -> usize
        ensures { result ≡ length (live_rows self.now.state.marks) }
    {
        self.tree.live_len()
    }

    /// Compares what the mark m stands for with what its parent stands for.
    pub(crate) fn delta_of<L: Ledger>(
        &self,
        m: Tag,
        steps: &mut Steps<L>,
    ) -> Result<Result<Reply, Refusal>, NoMemory>
        ensures { Does K.modelling self.now.state (act.Delta m) result self.now.state }
    {
        let parent = match parent_of(&self.store, &self.tree, m) {
            Ok(parent) => parent,
            Err(refusal) => return Ok(Err(refusal)),
        };
        if let Err(refusal) = check_live(&self.store, &self.tree, parent) {
            return Ok(Err(refusal));
        }
        let lists = self.tree.delta(m).lists(self.alloc, steps)?;
        Ok(Ok(Reply::Delta(lists)))
    }

    /// Takes the room for one block at least.
    pub(crate) fn reserve_block(&mut self) -> Result<(), NoMemory>
        ensures room { OnOk result (1 ≤ self.new.reserved) }
        ensures state { self.new.state ≡ self.old.state }
    {
        self.store.reserve_block()?;
        self.blocks.reserve(1)?;
        Ok(())
    }

    /// Owns one block more, in room taken before.
    pub(crate) fn take_block(&mut self, b: u32)
        requires room { 1 ≤ self.old.reserved }
        requires above { IsTrue (list_all (λ o. nat_lt o b) self.old.state.blocks) }
        requires first { 1 ≤ b }
        requires last { b ≤ LAST_BLOCK }
        ensures state { self.new.state ≡ record self.old.state
            { blocks = self.old.state.blocks ++ b ∷ [] } }
        ensures room { self.new.reserved + 1 ≡ self.old.reserved }
    {
        self.store.add_reserved(b);
        self.blocks.push_reserved(b);
        // Its clauses say that the blocks ascend in their range, so they are few.
        let _blocks = self.store.blocks();
    }
}

/// Removes the mark m, which is not the initial one, and gives what is unsaved behind its parent,
/// where so much is unsaved behind m. Without memory the tree is as it was.
fn remove_current<L: Ledger>(
    alloc: Global,
    tree: &mut MarkTree,
    m: Tag,
    unsaved: &Delta,
    steps: &mut Steps<L>,
) -> Result<Unsaved, NoMemory>
    requires lives { is_live tree.old.marks m ≡ true }
    requires parent { IsSome (parent_in tree.old.marks m) }
    requires starts { StartsAt (map_of tree.old.marks m) unsaved.now }
    ensures whole { OnOk result ((p : Tag) → parent_in tree.old.marks m ≡ Some p
        → whole_marks tree.new.marks ≡ map (after_deletion m p) (whole_marks tree.old.marks)) }
    ensures net { IfOk result (λ u. (p : Tag) → parent_in tree.old.marks m ≡ Some p
        → (n : EntityMap) → unsaved.now ≡ net_changes (map_of tree.old.marks m) n
        → IsUnsaved (map_of tree.old.marks p) n u.changes.entries) }
    ensures kept { OnErr result (tree.new ≡ tree.old) }
{
    // Its clause says that the changes of the mark lead from its parent to it.
    let _parent = tree.parent(m);
    let delta = tree.delta(m);
    let behind = Delta::compose(alloc, delta, unsaved, steps)?;
    let joined = Unsaved::of_delta(alloc, &behind, steps)?;
    tree.remove(m, steps)?;
    Ok(joined)
}
