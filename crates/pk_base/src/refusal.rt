ghost use Rattle.std.specs.Prelude.{◌≡◌};
ghost use Rattle.pk_base.specs.declared.refusal.Fault.TheVariants.{Refused, NoMemory as OutOfMemory};

use crate::{Class, Tag};
use std::alloc::{AllocError, AllocFailed};
use thiserror::Error;

/// Memory ran out.
#[derive(Clone, Copy, Debug, PartialEq, Eq, Error)]
#[error("no memory")]
pub struct NoMemory;

impl From<AllocError> for NoMemory {
    fn from(_: AllocError) -> Self {
        NoMemory
    }
}

impl<T: Drop> From<AllocFailed<T>> for NoMemory {
    fn from(_: AllocFailed<T>) -> Self {
        NoMemory
    }
}

/// Why an act or a line was refused. The numbers in reports are those of the variants, from 1.
#[derive(Clone, Copy, Debug, PartialEq, Eq, Error)]
pub enum Refusal {
    /// The tag names no live entity of this partition.
    #[error("{0} names no live entity of this partition")]
    NoSuchTag(Tag),
    /// The entity is of this class, and another was asked for.
    #[error("{0} is a {1}")]
    WrongClass(Tag, Class),
    /// The number is outside its range.
    #[error("{0} is outside its range")]
    OutOfRange(i64),
    /// The two fins are in these different loops.
    #[error("the fins are in the loops {0} and {1}")]
    NotOneLoop(Tag, Tag),
    /// The new edge would start and end at this vertex.
    #[error("the new edge would start and end at {0}")]
    SameVertex(Tag),
    /// The fin after this one is not its mate.
    #[error("the fin after {0} is not its mate")]
    NotStrut(Tag),
    /// Both fins are in this loop.
    #[error("both fins are in the loop {0}")]
    OneLoop(Tag),
    /// The fin and its mate are in these different loops.
    #[error("the fin and its mate are in the loops {0} and {1}")]
    TwoLoops(Tag, Tag),
    /// The face has more than one loop.
    #[error("the face {0} has more than one loop")]
    HasRings(Tag),
    /// The loop is its face's outer loop.
    #[error("{0} is its face's outer loop")]
    IsOuter(Tag),
    /// The two loops are of these different faces.
    #[error("the loops are of the faces {0} and {1}")]
    NotOneFace(Tag, Tag),
    /// The two are of these different bodies.
    #[error("the two are of the bodies {0} and {1}")]
    NotOneBody(Tag, Tag),
    /// The loop or the body has more parts than it may.
    #[error("{0} has more than it may")]
    NotBare(Tag),
    /// There are this many corners, fewer than 3 or more than 256.
    #[error("{0} corners are fewer than 3 or more than 256")]
    CornerCount(u64),
    /// The corner makes no simple polygon.
    #[error("the corner {0} makes no simple polygon")]
    BadPolygon(u64),
    /// The vector does not point out of the face.
    #[error("the vector does not point out of the face")]
    FlatSweep,
    /// The owner has no attribute of that name.
    #[error("{0} has no attribute of that name")]
    NoAttribute(Tag),
    /// The tag's block is not this partition's.
    #[error("the block of {0} is not this partition's")]
    NotOurs(Tag),
    /// No mark ever had this tag.
    #[error("no mark ever had the tag {0}")]
    NotAMark(Tag),
    /// The mark was deleted.
    #[error("the mark {0} was deleted")]
    MarkDeleted(Tag),
    /// It is the initial mark.
    #[error("it is the initial mark")]
    InitialMark,
    /// The next block would be this one, above the last.
    #[error("the next tag block would be {0}, above the last")]
    TagsSpent(u64),
    /// There is no partition of this number.
    #[error("there is no partition {0}")]
    NoPartition(u32),
    /// The thread does not hold this partition.
    #[error("this thread does not hold the partition {0}")]
    NotLocked(u32),
    /// The thread holds this partition already.
    #[error("this thread holds the partition {0} already")]
    AlreadyLocked(u32),
    /// The thread holds this partition, the greatest that it holds, above the one asked for.
    #[error("this thread holds the partition {0}, above the one asked for")]
    LockOrder(u32),
    /// The operand of this number, from 1, is not bound, or its place is past the end of the list.
    #[error("the operand {0} is not bound")]
    NoName(u32),
    /// The two faces are this one.
    #[error("both faces are {0}")]
    SameFace(Tag),
}

/// Why a call on a partition gave no reply.
#[derive(Clone, Copy, Debug, PartialEq, Eq, Error)]
pub enum Fault {
    /// The act was refused.
    #[error("refused: {0}")]
    Refused(Refusal),
    /// Memory ran out.
    #[error("no memory")]
    NoMemory,
}

impl From<Refusal> for Fault {
    ghost from_gives = { λ refusal e. e ≡ Refused refusal };

    fn from(refusal: Refusal) -> Self {
        Fault::Refused(refusal)
    }
}

impl From<NoMemory> for Fault {
    ghost from_gives = { λ _ e. e ≡ OutOfMemory };

    fn from(_: NoMemory) -> Self {
        Fault::NoMemory
    }
}

impl From<AllocError> for Fault {
    ghost from_gives = { λ _ e. e ≡ OutOfMemory };

    fn from(_: AllocError) -> Self {
        Fault::NoMemory
    }
}
