ghost use Rattle.std.specs.Prelude.{◌≡◌, ◌+◌, ◌*◌, ◌<◌, ◌≤◌, [], ◌∷◌, ◌++◌, None, Some, Err, IsSome, IsTrue, IfOk, OnOk, OnErr, length, nat_lt, vec_capacity, vec_len};
ghost use Rattle.std.specs.List.{list_all};
ghost use Rattle.pk_base.specs.declared.refusal.Refusal.TheVariants as refusal;
ghost use Rattle.pk_base.specs.declared.act.Act.TheVariants as act;
ghost use Rattle.pk_base.specs.declared.act.Entry.TheVariants as entry;
ghost use Rattle.pk_model.specs.Tags.{spare_of};
ghost use Rattle.pk_model.specs.Step.{live_rows, short};
ghost use Rattle.pk_model.specs.Step.{blocks_short as blocks_missing};
ghost use Rattle.pk_model.specs.Replay.{replay};
ghost use Rattle.partition.specs.Partition.{Appends, Answers, Begins, Stays, answer_of, holder_of};
ghost use Rattle.partition.specs.Work.{CallsWithin, GoesWithin, StepsWithin, load, work};

use crate::contents::Contents;
use entity_store::{Modeller, Steps, Store};
use pk_base::{
    Act, Call, Entry, Fault, LAST_BLOCK, NoMemory, Refusal, Reply, TAGS_OF_A_BLOCK, Tag,
};
use std::alloc::Global;
use std::marker::Model;
use std::sync::ledger::Ledger;

/// Solids, their marks, and the journal of all that was done to them, for any modeller. Contracts
/// see its number, its state and its journal, whose step is that of the modeller's meaning.
#[derive(Drop)]
pub struct Partition<K: Modeller> {
    number: u32,
    contents: Contents<K>,
    journal: Vec<Entry>,
}

impl<K: Modeller> Model for Partition<K> {
    ghost use Rattle.std.specs.Prelude.{◌-◌, vec_capacity, vec_len};
    ghost use Rattle.partition.specs.Partition.{IsValid, PartitionView, reserved_in, view_code};

    ghost Value = { PartitionView };

    ghost coded = { view_code };

    ghost view = { λ p. record {
      number = p.number;
      state = p.contents.state;
      journal = p.journal.items;
      reserved =
          reserved_in p.contents.reserved (vec_capacity p.journal - vec_len p.journal);
    } };

    ghost invariant = { λ p.
        IsValid K.modelling p.number p.contents.state p.journal.items
        (vec_capacity p.journal) };
}

impl<K: Modeller> Partition<K> {
    /// Partition p, from 1 to 32, at its beginning: it owns block p, and has its initial mark
    /// alone. `kind` carries the calls on its solids out.
    pub fn begin(alloc: Global, p: u32, kind: K) -> Result<Partition<K>, NoMemory>
        requires first { 1 ≤ p }
        requires last { p ≤ 32 }
        ensures { IfOk result (Begins p) }
    {
        Ok(Partition {
            number: p,
            contents: Contents::begin(alloc, p, kind)?,
            journal: Vec::new(alloc),
        })
    }

    /// Its number, from 1 to 32.
    pub fn number(&self) -> u32
        ensures { result ≡ self.now.number }
    {
        self.number
    }

    /// How many tags of its blocks are left.
    pub fn spare(&self) -> u64
        ensures { result ≡ spare_of self.now.state.blocks self.now.state.used }
    {
        self.contents.spare()
    }

    /// Its blocks, ascending.
    pub fn blocks(&self) -> &[u32]
        ensures { result.now ≡ self.now.state.blocks }
    {
        self.contents.store().blocks()
    }

    /// The current mark.
    pub fn at(&self) -> Tag
        ensures { result ≡ self.now.state.at }
    {
        self.contents.at()
    }

    /// The thread that holds it; `None` exactly where no thread does.
    pub fn holder(&self) -> Option<u32>
        ensures { result ≡ self.now.state.holder }
    {
        self.contents.holder()
    }

    /// How many tags were taken.
    pub fn used(&self) -> u64
        ensures { result ≡ self.now.state.used }
    {
        self.contents.used()
    }

    /// How many marks are live.
    pub fn live_marks(&self) -> usize
        ensures { result ≡ length (live_rows self.now.state.marks) }
    {
        self.contents.live_marks()
    }

    /// The entities that are live now.
    pub fn store(&self) -> &Store
        ensures blocks { result.now.state.blocks ≡ self.now.state.blocks }
        ensures map { result.now.state.map ≡ self.now.state.now }
    {
        self.contents.store()
    }

    /// All that was done, in order. At every moment the state is its replay.
    pub fn journal(&self) -> &[Entry]
        ensures value { result.now ≡ self.now.journal }
        ensures replays { replay K.modelling self.now.number self.now.journal
            ≡ Some self.now.state }
    {
        &self.journal
    }

    /// Its journal, once all else of it is let go.
    pub fn into_journal(self) -> Vec<Entry>
        ensures value { result.items ≡ self.journal }
        ensures replays { replay K.modelling self.number self.journal ≡ Some self.state }
    {
        let Partition { journal, .. } = self;
        journal
    }

    /// A thread takes hold of it, and room is kept for its release. Without memory nothing changes.
    pub fn claim(&mut self, thread: u32) -> Result<(), NoMemory>
        requires { self.old.state.holder ≡ None }
        ensures ok { OnOk result (Appends K.modelling self.old
            (entry.Claimed thread) None self.new) }
        ensures err { OnErr result (Stays self.old self.new) }
    {
        self.journal.reserve(2)?;
        self.journal.push_reserved(Entry::Claimed(thread));
        self.contents.set_holder(Some(thread));
        Ok(())
    }

    /// Its holder lets it go. It takes no memory.
    pub fn release(&mut self)
        requires { IsSome self.old.state.holder }
        ensures { Appends K.modelling self.old
            (entry.Released (holder_of self.old)) None self.new }
    {
        let thread = self.contents.holder().unwrap();
        self.journal.push_reserved(Entry::Released(thread));
        self.contents.set_holder(None);
    }

    /// How many blocks are missing for an act; 0 where it is refused, or needs no more tags than
    /// are left. It takes no memory.
    pub fn short<L: Ledger>(&self, act: &Act, steps: &mut Steps<L>) -> u64
        ensures { result ≡ short K.modelling self.now.state act.now }
    {
        blocks_short(self.contents.cost(act, steps), self.contents.spare())
    }

    /// Carries a call out. Where it is refused the journal has one entry more, and all else is as
    /// it was; without memory nothing changes. The load grows at most by the tags that the call may
    /// put. Where the modeller bounds the steps of its two functions, the call adds at most twice as
    /// many, and two for each of these tags.
    pub fn call<L: Ledger>(&mut self, call: Call, steps: &mut Steps<L>) -> Result<Reply, Fault>
        requires held { IsSome self.old.state.holder }
        requires enough { short K.modelling self.old.state (act.Call call) ≡ 0 }
        ensures answers { Answers K.modelling self.old (act.Call call) result self.new }
        ensures load { load K.modelling self.new.number self.new.journal
            ≤ load K.modelling self.old.number self.old.journal
            + K.modelling.changes self.old.state.now call }
        ensures cost { CallsWithin (K.step_limit call)
            (K.modelling.changes self.old.state.now call) steps.old steps.new }
    {
        let thread = self.contents.holder().unwrap();
        self.journal.reserve(2)?;
        let done = self.contents.call(&call, steps)?;
        end_act(&mut self.journal, thread, Act::Call(call), done)
    }

    /// Keeps the state as a new mark with the next tag, below the current mark, and makes it the
    /// current one. It never refuses; without memory nothing changes. It adds at most two steps for
    /// each tag that a call changed since the current mark was made or gone to.
    pub fn mark<L: Ledger>(&mut self, steps: &mut Steps<L>) -> Result<Reply, Fault>
        requires held { IsSome self.old.state.holder }
        requires enough { 0 < spare_of self.old.state.blocks self.old.state.used }
        ensures answers { Answers K.modelling self.old act.Mark result self.new }
        ensures anew { IfOk result (λ _. load K.modelling self.new.number self.new.journal ≡ 0) }
        ensures cost { steps.new
            ≤ steps.old + 2 * load K.modelling self.old.number self.old.journal }
    {
        let thread = self.contents.holder().unwrap();
        self.journal.reserve(2)?;
        let done = self.contents.mark()?;
        end_act(&mut self.journal, thread, Act::Mark, done)
    }

    /// Brings the state back that the mark m stands for, and makes m the current mark. Refuses
    /// where m's block is not owned, else where no mark ever had m, else where m is not live; then
    /// the journal has one entry more, and all else is as it was. Without memory nothing changes. It
    /// adds at most four steps for each tag that differs on the way there, and none where it
    /// refuses.
    pub fn goto<L: Ledger>(&mut self, m: Tag, steps: &mut Steps<L>) -> Result<Reply, Fault>
        requires { IsSome self.old.state.holder }
        ensures answers { Answers K.modelling self.old (act.Goto m) result self.new }
        ensures cost { GoesWithin self.old.state m result steps.old steps.new }
    {
        let thread = self.contents.holder().unwrap();
        self.journal.reserve(2)?;
        let done = self.contents.goto(m, steps)?;
        end_act(&mut self.journal, thread, Act::Goto(m), done)
    }

    /// Deletes the mark m: its children become its parent's, and where it was the current mark, its
    /// parent is current. The entities stay as they are. Refuses where m's block is not owned, else
    /// where no mark ever had m, else where m is not live, else the initial mark; then the journal
    /// has one entry more, and all else is as it was. Without memory nothing changes.
    pub fn unmark<L: Ledger>(&mut self, m: Tag, steps: &mut Steps<L>) -> Result<Reply, Fault>
        requires { IsSome self.old.state.holder }
        ensures { Answers K.modelling self.old (act.Unmark m) result self.new }
    {
        let thread = self.contents.holder().unwrap();
        self.journal.reserve(2)?;
        let done = self.contents.unmark(m, steps)?;
        end_act(&mut self.journal, thread, Act::Unmark(m), done)
    }

    /// Lists the live marks in the order in which they were made, with the current one. It never
    /// refuses; without memory nothing changes.
    pub fn marks(&mut self) -> Result<Reply, Fault>
        requires { IsSome self.old.state.holder }
        ensures { Answers K.modelling self.old act.Marks result self.new }
    {
        let thread = self.contents.holder().unwrap();
        self.journal.reserve(2)?;
        let reply = self.contents.list_marks()?;
        end_act(&mut self.journal, thread, Act::Marks, Ok(reply))
    }

    /// How what the mark m stands for differs from what its parent stands for. Refuses as `unmark`
    /// does; then the journal has one entry more. Without memory nothing changes.
    pub fn delta_of<L: Ledger>(&mut self, m: Tag, steps: &mut Steps<L>) -> Result<Reply, Fault>
        requires { IsSome self.old.state.holder }
        ensures { Answers K.modelling self.old (act.Delta m) result self.new }
    {
        let thread = self.contents.holder().unwrap();
        self.journal.reserve(2)?;
        let done = self.contents.delta_of(m, steps)?;
        end_act(&mut self.journal, thread, Act::Delta(m), done)
    }

    /// The call that the act names, under its condition. It adds as many steps at most as that call
    /// says.
    pub fn act<L: Ledger>(&mut self, act: Act, steps: &mut Steps<L>) -> Result<Reply, Fault>
        requires held { IsSome self.old.state.holder }
        requires enough { short K.modelling self.old.state act ≡ 0 }
        ensures answers { Answers K.modelling self.old act result self.new }
        ensures cost { StepsWithin K.modelling K.step_limit self.old act result
            steps.old steps.new }
    {
        match act {
            Act::Call(call) => self.call(call, steps),
            Act::Mark => self.mark(steps),
            Act::Goto(m) => self.goto(m, steps),
            Act::Unmark(m) => self.unmark(m, steps),
            Act::Marks => self.marks(),
            Act::Delta(m) => self.delta_of(m, steps),
        }
    }

    /// Takes the room for one draw at least. Nothing else changes, also without memory.
    pub fn reserve_block(&mut self) -> Result<(), NoMemory>
        ensures room { OnOk result (1 ≤ self.new.reserved) }
        ensures stays { Stays self.old self.new }
    {
        self.contents.reserve_block()?;
        self.journal.reserve(2)?;
        Ok(())
    }

    /// Its holder draws a block, which is above all that are owned, in room taken before. It takes
    /// no memory.
    pub fn take_block(&mut self, b: u32)
        requires held { IsSome self.old.state.holder }
        requires room { 1 ≤ self.old.reserved }
        requires above { IsTrue (list_all (λ o. nat_lt o b) self.old.state.blocks) }
        requires last { b ≤ LAST_BLOCK }
        ensures drew { Appends K.modelling self.old (entry.Drew (holder_of self.old) b) None
            self.new }
    {
        let thread = self.contents.holder().unwrap();
        self.contents.take_block(b);
        self.journal.push_reserved(Entry::Drew { thread, block: b });
    }

    /// Writes down that the act was short of tags and that no block was left: a draw read the
    /// number `next`, above the last block. Nothing else changes, and without memory nothing at
    /// all.
    pub fn spent(&mut self, act: Act, next: u64) -> Result<(), NoMemory>
        requires held { IsSome self.old.state.holder }
        requires short { 0 < short K.modelling self.old.state act }
        ensures ok { OnOk result (Appends K.modelling self.old
            (entry.Spent (holder_of self.old) next act) (Some (Err (refusal.TagsSpent next)))
            self.new) }
        ensures err { OnErr result (Stays self.old self.new) }
    {
        let thread = self.contents.holder().unwrap();
        self.journal.reserve(2)?;
        self.journal
            .push_reserved(Entry::Spent { thread, next, act });
        Ok(())
    }
}

/// Ends an act of the thread: its entry goes into the journal, in room taken before, and its answer
/// is handed on.
fn end_act(
    journal: &mut Vec<Entry>,
    thread: u32,
    act: Act,
    done: Result<Reply, Refusal>,
) -> Result<Reply, Fault>
    requires { vec_len journal.old < vec_capacity journal.old }
    ensures entry { journal.new.items ≡ journal.old.items ++ entry.Did thread act ∷ [] }
    ensures room { vec_capacity journal.new ≡ vec_capacity journal.old }
    ensures answer { result ≡ answer_of done }
{
    journal.push_reserved(Entry::Did { thread, act });
    Ok(done?)
}

/// The least number of blocks with which the spare tags suffice for so many.
fn blocks_short(cost: u64, spare: u64) -> u64
    ensures { result ≡ blocks_missing cost spare }
{
    let missing = cost.saturating_sub(spare);
    let tags = u64::from(TAGS_OF_A_BLOCK);
    missing / tags + u64::from(missing % tags != 0)
}
