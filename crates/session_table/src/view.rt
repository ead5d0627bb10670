//! What a seat knows of a session. Contracts and proofs speak of it, and no value of it is made.

use pk_base::Entry;
use std::collections::LinkedList;

/// What a session is told once: how many partitions it has, and its last tag block.
#[derive(Clone, Copy, Debug, Drop)]
pub struct Bounds {
    /// The partitions are numbered from 1 up to this.
    pub partitions: u32,
    /// Blocks are drawn up to this one.
    pub last: u32,
}

/// What a seat knows of a partition that it holds.
pub struct Note {
    /// The journal that its claim found.
    pub journal: LinkedList<Entry>,
    /// The blocks that the partition has now.
    pub blocks: LinkedList<u64>,
}

/// What a seat keeps of one partition.
pub struct Line {
    /// The partition's number.
    pub partition: u64,
    /// The journal, as far as the seat has seen it.
    pub seen: LinkedList<Entry>,
    /// The seat's own entries in it.
    pub mine: LinkedList<Entry>,
    /// There is one exactly where the seat holds the partition.
    pub note: Option<Note>,
}

/// What a claim that failed has read.
pub struct Look {
    /// The partition that was asked for.
    pub partition: u64,
    /// The seat that held it.
    pub seat: u64,
}

/// A seat that root has joined.
pub struct Joined {
    /// The number that the seat had.
    pub number: u64,
    /// What it kept of each partition.
    pub lines: LinkedList<Line>,
    /// What root kept of each partition when it joined the seat.
    pub found: LinkedList<Line>,
}

/// What a seat knows.
pub struct View {
    /// Its session's bounds.
    pub bounds: Bounds,
    /// Root has joined it, and it is no seat any more.
    pub spent: bool,
    /// Its number: 0 for root, which is the seat that the session begins with.
    pub number: u64,
    /// How many seats it has made.
    pub made: u64,
    /// What it keeps of each partition, the newest first.
    pub lines: LinkedList<Line>,
    /// How many of its claims failed.
    pub looks: u64,
    /// What the last of them has read.
    pub looked: Option<Look>,
    /// It has found a block that may be drawn, and has not drawn yet.
    pub pending: bool,
    /// How many times it has read a next block above the last.
    pub passes: u64,
    /// The greatest such number that it has read or taken over.
    pub past: Option<u64>,
    /// The seats that it has joined, the newest first.
    pub joined: LinkedList<Joined>,
}
