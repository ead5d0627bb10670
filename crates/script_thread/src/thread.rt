//! A thread of a script.
ghost use Rattle.std.specs.Prelude.{◌≡◌, ◌<◌, ◌≤◌, ◌++◌, ◌∷◌, [], None, true, length, Ok, OnOk, OnErr};
ghost use Rattle.pk_model.specs.Tags.{Ascends};
ghost use Rattle.script_text.specs.Walk.{greatest, is_held, refusal_of_order, with_held, without_held};
ghost use Rattle.script_text.specs.declared.script.Order.TheVariants as order;
ghost use Rattle.script_thread.specs.Thread.{fresh_thread, names_after, walker_now};
ghost use Rattle.script_thread.specs.Orders.{IsResolved, LockAllowed};

use crate::held::Held;
use crate::names::Names;
use pk_base::{Act, Fault, Items, Name, NoMemory, Refusal, Reply};
use pk_command::act_on;
use script_text::{Line, LineSaid, Operand, SaidList};
use std::alloc::Global;
use std::marker::Model;

/// A thread of a script between two of its lines: the partitions that it holds, what its names are
/// bound to, and what was said to its lines. Contracts see these three.
#[derive(Drop)]
pub struct ScriptThread {
    held: Held,
    names: Names,
    said: Vec<Line>,
}

impl Model for ScriptThread {
    ghost use Rattle.script_thread.specs.Thread.{ThreadState};

    ghost Value = { ThreadState };

    ghost view = { λ t. record { held = t.held; names = t.names; said = t.said.items } };
}

impl ScriptThread {
    /// A thread before its first line. It takes no memory.
    pub fn new(alloc: Global) -> ScriptThread
        ensures { result ≡ fresh_thread }
    {
        ScriptThread {
            held: Held::new(),
            names: Names::new(alloc),
            said: Vec::new(alloc),
        }
    }

    /// The partitions that it holds, ascending.
    pub fn held(&self) -> &[u32]
        ensures value { result.now ≡ self.now.held }
        ensures ascend { Ascends (0 ∷ result.now) }
    {
        self.held.as_slice()
    }

    /// What was said to its lines so far.
    pub fn said(&self) -> &[Line]
        ensures { result.now ≡ self.now.said }
    {
        self.said.as_slice()
    }

    /// Why `lock p` is turned away in a session of so many partitions, if it is: `NoPartition`;
    /// `AlreadyLocked` where the thread holds p; `LockOrder` with the greatest partition that it
    /// holds, where that is above p; by the first that applies.
    pub fn refusal_of_lock(&self, partitions: u32, p: u32) -> Option<Refusal>
        ensures refusal { result ≡ refusal_of_order partitions (walker_now self.now) (order.Lock p) }
        ensures allowed { result ≡ None → LockAllowed partitions self.now.held p }
    {
        let greatest = self.held.greatest();
        if p < 1 || p > partitions {
            Some(Refusal::NoPartition(p))
        } else if self.held.contains(p) {
            Some(Refusal::AlreadyLocked(p))
        } else if p < greatest {
            Some(Refusal::LockOrder(greatest))
        } else {
            None
        }
    }

    /// Why `unlock p` is turned away in a session of so many partitions, if it is: `NoPartition`;
    /// else `NotLocked` where the thread does not hold p. An act on p whose operands name tags is
    /// turned away alike.
    pub fn refusal_of_unlock(&self, partitions: u32, p: u32) -> Option<Refusal>
        ensures refusal { result
            ≡ refusal_of_order partitions (walker_now self.now) (order.Unlock p) }
        ensures held { result ≡ None → is_held self.now.held p ≡ true }
    {
        if p < 1 || p > partitions {
            Some(Refusal::NoPartition(p))
        } else if !self.held.contains(p) {
            Some(Refusal::NotLocked(p))
        } else {
            None
        }
    }

    /// An act on partition p, in a session of so many partitions, with what its operands name; or
    /// why it is turned away: `NoName` with the first operand that names no tag, and then as
    /// `unlock p`. `NoMemory` comes where memory ran out.
    pub fn resolve(
        &self,
        alloc: Global,
        partitions: u32,
        p: u32,
        act: &Act,
        operands: &[Operand],
    ) -> Result<Act, Fault>
        requires few { length operands.now ≤ 3 }
        ensures { IsResolved partitions self.now p act.now operands.now result }
    {
        let tags = self.names.tags_of(alloc, operands)?;
        if let Some(refusal) = self.refusal_of_unlock(partitions, p) {
            return Err(Fault::Refused(refusal));
        }
        let act = act_on(alloc, act, tags.as_slice())?;
        Ok(act)
    }

    /// It holds partition p from now on, which is above all that it holds, and at most 32. It takes
    /// no memory.
    pub fn hold(&mut self, p: u32)
        requires above { greatest self.old.held < p }
        requires few { p ≤ 32 }
        ensures { self.new ≡ record self.old { held = with_held p self.old.held } }
    {
        self.held.add(p);
    }

    /// It holds partition p no more. It takes no memory.
    pub fn let_go(&mut self, p: u32)
        ensures { self.new ≡ record self.old { held = without_held p self.old.held } }
    {
        self.held.remove(p);
    }

    /// It holds no partition from now on. It takes no memory.
    pub fn let_all_go(&mut self)
        ensures { self.new ≡ record self.old { held = [] } }
    {
        self.held.clear();
    }

    /// Binds the name behind `as`, where there is one, to the list of the reply, where it has one,
    /// in place of what the name was bound to before. Without memory nothing changes.
    pub fn bind(&mut self, alloc: Global, name: Option<Name>, reply: &Reply) -> Result<(), NoMemory>
        ensures bound { OnOk result (self.new
            ≡ record self.old { names = names_after (Ok reply.now) name self.old.names }) }
        ensures unchanged { OnErr result (self.new ≡ self.old) }
    {
        self.names.bind(alloc, name, reply)
    }

    /// Adds what was said to its next line, which has this number. Without memory nothing changes.
    pub fn tell(&mut self, number: u32, said: LineSaid) -> Result<(), NoMemory>
        ensures told { OnOk result (self.new ≡ record self.old
            { said = self.old.said ++ record { number = number; said = said } ∷ [] }) }
        ensures unchanged { OnErr result (self.new ≡ self.old) }
    {
        self.said.push(Line { number, said })?;
        Ok(())
    }

    /// What was said to its lines. It takes no memory.
    pub fn into_transcript(self) -> SaidList
        ensures { result ≡ self.said }
    {
        SaidList::of(self.said)
    }
}
