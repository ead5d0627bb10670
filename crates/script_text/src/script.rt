use pk_base::{Act, Items, Name, Tag};
use thiserror::Error;

/// Why a line is no line of a script. Those that apply to a line are tried in this order.
#[derive(Clone, Copy, Debug, PartialEq, Eq, Error)]
pub enum Cause {
    /// The line's number is above 65,536.
    #[error("TooManyLines")]
    TooManyLines,
    /// The line has more than 16,384 bytes.
    #[error("LongLine")]
    LongLine,
    /// A byte is neither a tab nor one that prints, in a line that is no comment.
    #[error("BadByte")]
    BadByte,
    /// The first line that says something is not `session`.
    #[error("NoSession")]
    NoSession,
    /// Between the scripts of threads, the first word is neither `thread` nor, right behind the
    /// header, `schedule`; or the input ends without a thread.
    #[error("NoThread")]
    NoThread,
    /// The thread is one more than the most.
    #[error("TooManyThreads")]
    TooManyThreads,
    /// `thread` stands within the script of a thread, or the input ends there.
    #[error("Unended")]
    Unended,
    /// A thread's line begins with no word that it may begin with, or its command is none.
    #[error("UnknownCommand")]
    UnknownCommand,
    /// The line has too few words, or too many.
    #[error("WordCount")]
    WordCount,
    /// A number, a partition or a tag of digits is none, or does not fit.
    #[error("BadNumber")]
    BadNumber,
    /// A name, an axis or a named tag is none.
    #[error("BadName")]
    BadName,
    /// The header's numbers are outside their ranges.
    #[error("BadSession")]
    BadSession,
}

/// A script: partitions 1 to `n`, tag blocks 1 to `last`, the schedule's turns, and the lines of
/// each thread.
#[derive(Debug, Drop)]
pub struct Script {
    pub n: u32,
    pub last: u32,
    pub schedule: TurnList,
    pub threads: ThreadList,
}

/// The numbers of threads, in the order of their turns.
pub type TurnList = Items<u32>;

/// The lines of each thread.
pub type ThreadList = Items<LineList>;

/// The lines of one thread, in order.
pub type LineList = Items<ScriptLine>;

/// A line of a thread, and its number in the input, from 1.
#[derive(Debug, Drop)]
pub struct ScriptLine {
    pub number: u32,
    pub order: Order,
}

/// What a line asks for.
#[derive(Debug, Drop)]
pub enum Order {
    /// The thread claims this partition.
    Lock(u32),
    /// The thread releases this partition.
    Unlock(u32),
    /// The thread releases all partitions that it holds, and is done.
    End,
    /// The act is done in this partition. `operands` are its tag operands from left to right; the
    /// act has `Tag(0)` in the place of a named one. `bind` is the name that an answer with a list
    /// is bound to.
    On {
        partition: u32,
        act: Act,
        operands: OperandList,
        bind: Option<Name>,
    },
}

/// The tag operands of an act.
pub type OperandList = Items<Operand>;

/// A tag operand: a number, or the tag at place `at` of the list that a name is bound to.
#[derive(Clone, Copy, Debug, PartialEq, Eq)]
pub enum Operand {
    Digits(Tag),
    /// The place is counted from 0.
    Named { name: Name, at: u32 },
}
