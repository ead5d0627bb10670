//! The events of a world, and their answers.
ghost use Rattle.std.specs.Prelude.{◌≡◌};
ghost use Rattle.world_core.specs.declared.event.WorldNo.TheVariants.{NoMemory as OutOfMemory};
ghost use Rattle.world_core.specs.Event.{partition_of, no_of};

use pk_base::{Act, Fault, NoMemory, Refusal, Reply};
use thiserror::Error;

/// What a thread does to one partition. The first number is the partition's.
#[derive(Debug, Drop)]
pub enum Event {
    /// The thread takes hold of the partition.
    Claim(u32),
    /// It lets the partition go.
    Release(u32),
    /// It draws the next block for the partition.
    Draw(u32),
    /// It does the act, for which there are tags enough.
    Act(u32, Act),
    /// It gives the act up, which is short of tags, once a draw found this number above the last
    /// block.
    GiveUp(u32, Act, u64),
}

impl Event {
    /// The number of its partition.
    pub fn partition(&self) -> u32
        ensures { result ≡ partition_of self.now }
    {
        match self {
            Event::Claim(p)
            | Event::Release(p)
            | Event::Draw(p)
            | Event::Act(p, _)
            | Event::GiveUp(p, _, _) => *p,
        }
    }
}

/// What an event answers.
#[derive(Debug, Drop)]
pub enum Said {
    /// It was done.
    Done,
    /// This block was drawn.
    Drew(u32),
    /// The reply of its act.
    Reply(Reply),
}

/// Why an event was not done.
#[derive(Clone, Copy, Debug, PartialEq, Eq, Error)]
pub enum WorldNo {
    /// The partition refused the act.
    #[error("refused: {0}")]
    Refused(Refusal),
    /// This thread holds the partition.
    #[error("thread {0} holds the partition")]
    Blocked(u32),
    /// The next block would be this one, above the last.
    #[error("the next tag block would be {0}, above the last")]
    Spent(u64),
    /// Memory ran out.
    #[error("no memory")]
    NoMemory,
}

impl From<NoMemory> for WorldNo {
    ghost from_gives = { λ _ e. e ≡ OutOfMemory };

    fn from(_: NoMemory) -> Self {
        WorldNo::NoMemory
    }
}

impl From<Fault> for WorldNo {
    ghost from_gives = { λ fault e. e ≡ no_of fault };

    fn from(fault: Fault) -> Self {
        match fault {
            Fault::Refused(refusal) => WorldNo::Refused(refusal),
            Fault::NoMemory => WorldNo::NoMemory,
        }
    }
}
