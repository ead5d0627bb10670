ghost use Rattle.std.specs.Prelude.{◌≡◌, IfOk};

use crate::{Call, Counted, Entity, Lists, MarkList, NoMemory, Tag, TagList};
use std::alloc::Global;

/// What a thread asks of a partition that it holds.
#[derive(Debug, Drop)]
pub enum Act {
    /// Does a call on the solids.
    Call(Call),
    /// Keeps the state as a new mark below the current one.
    Mark,
    /// Brings the state back that a mark stands for.
    Goto(Tag),
    /// Deletes a mark. Its children become its parent's.
    Unmark(Tag),
    /// Lists the live marks.
    Marks,
    /// Compares a mark with its parent.
    Delta(Tag),
}

impl Act {
    /// An equal act. `NoMemory` comes only where an allocation fails.
    pub fn copy(&self, alloc: Global) -> Result<Act, NoMemory>
        ensures { IfOk result (λ a. a ≡ self.now) }
    {
        match self {
            Act::Call(call) => Ok(Act::Call(call.copy(alloc)?)),
            Act::Mark => Ok(Act::Mark),
            Act::Goto(m) => Ok(Act::Goto(*m)),
            Act::Unmark(m) => Ok(Act::Unmark(*m)),
            Act::Marks => Ok(Act::Marks),
            Act::Delta(m) => Ok(Act::Delta(*m)),
        }
    }
}

/// What an act that is not refused answers.
#[derive(Debug, Drop)]
pub enum Reply {
    /// The tags taken, in order.
    Made(TagList),
    /// The act was done.
    Done,
    /// The entity asked for.
    Is(Entity),
    /// The tags asked for.
    List(TagList),
    /// How many parts a body has, and its shell's q.
    Counts(Counted),
    /// How the state reached differs from the state left.
    Went(Lists),
    /// The current mark, and the live marks in the order in which they were made.
    Marks { at: Tag, rows: MarkList },
    /// How a mark differs from its parent.
    Delta(Lists),
}

/// One line of a partition's journal. `thread` is a thread's number, from 1.
#[derive(Debug, Drop)]
pub enum Entry {
    /// The thread took hold of the partition.
    Claimed(u32),
    /// The thread drew the tag block for the partition.
    Drew { thread: u32, block: u32 },
    /// The thread did the act, or was refused it by the partition.
    Did { thread: u32, act: Act },
    /// The thread wanted more tags for the act than were left, and found the next block `next`
    /// above the last.
    Spent { thread: u32, next: u64, act: Act },
    /// The thread let the partition go.
    Released(u32),
}
