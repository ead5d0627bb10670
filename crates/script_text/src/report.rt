use pk_base::{Entry, Items, Refusal, Reply};

/// What a run did: each thread's answers, and each partition's journal.
#[derive(Debug, Drop)]
pub struct Report {
    /// How many partitions there are.
    pub n: u32,
    /// The last tag block that may be drawn.
    pub last: u32,
    pub threads: TranscriptList,
    pub journals: JournalList,
}

/// The transcript of each thread, from thread 1.
pub type TranscriptList = Items<SaidList>;

/// The transcript of one thread: the answers to its lines, in order.
pub type SaidList = Items<Line>;

/// The journal of each partition, from partition 1.
pub type JournalList = Items<EntryList>;

/// A journal: what was done to a partition, in order.
pub type EntryList = Items<Entry>;

/// Partitions that were released, ascending.
pub type PartList = Items<u32>;

/// What was said to a line, and the line's number in the input.
#[derive(Debug, Drop)]
pub struct Line {
    pub number: u32,
    pub said: LineSaid,
}

/// The answer to a line.
#[derive(Debug, Drop)]
pub enum LineSaid {
    /// The partition was claimed.
    Locked,
    /// The partition was released.
    Unlocked,
    /// The thread ended, and released these partitions.
    Ended(PartList),
    /// The act was done.
    Answer(Reply),
    /// The line was refused, by its partition or before it reached one.
    Refused(Refusal),
}
