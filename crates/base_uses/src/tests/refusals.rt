//! The messages of refusals and of faults.
use pk_base::{Class, Fault, NoMemory, Refusal, Tag};
use std::alloc::{AllocError, AllocFailed};
use std::test::Fail;

/// Each refusal, and its text.
const REFUSALS: [(Refusal, &str); 28] = [
    (
        Refusal::NoSuchTag(Tag(70)),
        "70 names no live entity of this partition",
    ),
    (Refusal::WrongClass(Tag(70), Class::Fin), "70 is a fin"),
    (
        Refusal::OutOfRange(-1048577),
        "-1048577 is outside its range",
    ),
    (
        Refusal::NotOneLoop(Tag(70), Tag(71)),
        "the fins are in the loops 70 and 71",
    ),
    (
        Refusal::SameVertex(Tag(70)),
        "the new edge would start and end at 70",
    ),
    (
        Refusal::NotStrut(Tag(70)),
        "the fin after 70 is not its mate",
    ),
    (Refusal::OneLoop(Tag(70)), "both fins are in the loop 70"),
    (
        Refusal::TwoLoops(Tag(70), Tag(71)),
        "the fin and its mate are in the loops 70 and 71",
    ),
    (
        Refusal::HasRings(Tag(70)),
        "the face 70 has more than one loop",
    ),
    (Refusal::IsOuter(Tag(70)), "70 is its face's outer loop"),
    (
        Refusal::NotOneFace(Tag(70), Tag(71)),
        "the loops are of the faces 70 and 71",
    ),
    (
        Refusal::NotOneBody(Tag(70), Tag(71)),
        "the two are of the bodies 70 and 71",
    ),
    (Refusal::NotBare(Tag(70)), "70 has more than it may"),
    (
        Refusal::CornerCount(2),
        "2 corners are fewer than 3 or more than 256",
    ),
    (
        Refusal::BadPolygon(4),
        "the corner 4 makes no simple polygon",
    ),
    (
        Refusal::FlatSweep,
        "the vector does not point out of the face",
    ),
    (
        Refusal::NoAttribute(Tag(70)),
        "70 has no attribute of that name",
    ),
    (
        Refusal::NotOurs(Tag(70)),
        "the block of 70 is not this partition's",
    ),
    (Refusal::NotAMark(Tag(70)), "no mark ever had the tag 70"),
    (Refusal::MarkDeleted(Tag(70)), "the mark 70 was deleted"),
    (Refusal::InitialMark, "it is the initial mark"),
    (
        Refusal::TagsSpent(99),
        "the next tag block would be 99, above the last",
    ),
    (Refusal::NoPartition(3), "there is no partition 3"),
    (
        Refusal::NotLocked(3),
        "this thread does not hold the partition 3",
    ),
    (
        Refusal::AlreadyLocked(3),
        "this thread holds the partition 3 already",
    ),
    (
        Refusal::LockOrder(3),
        "this thread holds the partition 3, above the one asked for",
    ),
    (Refusal::NoName(5), "the operand 5 is not bound"),
    (Refusal::SameFace(Tag(70)), "both faces are 70"),
];

#[test]
fn texts_of_refusals(rt: HostRuntime) -> Result<(), Fail> {
    for (refusal, text) in REFUSALS {
        assert_eq!(rt; format!(in rt.alloc(); "{refusal}")?.as_str(), text);
    }
    Ok(())
}

#[test]
fn texts_of_faults(rt: HostRuntime) -> Result<(), Fail> {
    let refused = Fault::Refused(Refusal::InitialMark);
    assert_eq!(rt;
        format!(in rt.alloc(); "{refused}")?.as_str(),
        "refused: it is the initial mark"
    );
    let failed = AllocFailed { value: 1u8 };
    for fault in [
        Fault::from(AllocError),
        Fault::from(NoMemory::from(AllocError)),
        Fault::from(NoMemory::from(failed)),
    ] {
        assert_eq!(rt; fault, Fault::NoMemory);
        assert_eq!(rt;
            format!(in rt.alloc(); "{fault} {NoMemory}")?.as_str(),
            "no memory no memory"
        );
    }
    Ok(())
}
