//! What stands under a tag, and a loop's ring, read from a store.
use entity_store::{Steps, Store};
use modeller::Euler;
use partition::Partition;
use pk_base::{Class, Entity, TAGS_OF_A_BLOCK, Tag};
use std::alloc::AllocError;
use std::process::Abort;
use std::sync::ledger::Ledger;

/// More than the fins of any ring here.
pub const MANY_FINS: u32 = 2000;

/// The fields of a fin.
#[derive(Clone, Copy, Debug, PartialEq, Eq)]
pub struct Fin {
    pub loop_: Tag,
    pub next: Tag,
    pub prev: Tag,
    pub mate: Tag,
    pub edge: Tag,
    pub vertex: Tag,
}

pub fn class_at<L: Ledger>(store: &Store, tag: Tag, steps: &mut Steps<L>) -> Option<Class> {
    Some(store.get(tag, steps)?.class())
}

/// The fin that stands under the tag.
pub fn fin_at<L: Ledger>(store: &Store, tag: Tag, steps: &mut Steps<L>) -> Option<Fin> {
    let Entity::Fin {
        loop_,
        next,
        prev,
        mate,
        edge,
        vertex,
    } = store.get(tag, steps)?
    else {
        return None;
    };
    Some(Fin {
        loop_: *loop_,
        next: *next,
        prev: *prev,
        mate: *mate,
        edge: *edge,
        vertex: *vertex,
    })
}

/// The face, the first fin and the lone vertex of the loop that stands under the tag.
pub fn loop_at<L: Ledger>(
    store: &Store,
    tag: Tag,
    steps: &mut Steps<L>,
) -> Option<(Tag, Option<Tag>, Option<Tag>)> {
    let Entity::Loop { face, first, lone } = store.get(tag, steps)? else {
        return None;
    };
    Some((*face, *first, *lone))
}

/// The shell and the outer loop of the face that stands under the tag.
pub fn face_at<L: Ledger>(store: &Store, tag: Tag, steps: &mut Steps<L>) -> Option<(Tag, Tag)> {
    let Entity::Face { shell, outer } = store.get(tag, steps)? else {
        return None;
    };
    Some((*shell, *outer))
}

/// The body and the q of the shell that stands under the tag.
pub fn shell_at<L: Ledger>(store: &Store, tag: Tag, steps: &mut Steps<L>) -> Option<(Tag, i32)> {
    let Entity::Shell { body, q } = store.get(tag, steps)? else {
        return None;
    };
    Some((*body, *q))
}

/// The body and the q of the shell of the body that stands under the tag.
pub fn shell_of<L: Ledger>(store: &Store, tag: Tag, steps: &mut Steps<L>) -> Option<(Tag, i32)> {
    let Entity::Body { shell } = store.get(tag, steps)? else {
        return None;
    };
    shell_at(store, *shell, steps)
}

/// Lists what is live, with its tags, ascending.
pub fn read_live<L: Ledger>(
    store: &Store,
    live: &mut Vec<(Tag, Entity)>,
    steps: &mut Steps<L>,
) -> Result<(), AllocError> {
    live.clear();
    for block in store.blocks() {
        read_block(store, *block, live, steps)?;
    }
    Ok(())
}

/// Whether the lists are one.
pub fn are_same(one: &[(Tag, Entity)], other: &[(Tag, Entity)]) -> bool {
    one.len() == other.len()
        && one
            .iter()
            .zip(other.iter())
            .all(|(one, other)| one.0 == other.0 && one.1 == other.1)
}

/// Adds what is live in a block.
fn read_block<L: Ledger>(
    store: &Store,
    block: u32,
    live: &mut Vec<(Tag, Entity)>,
    steps: &mut Steps<L>,
) -> Result<(), AllocError> {
    let first = block.wrapping_mul(TAGS_OF_A_BLOCK);
    for place in 0..TAGS_OF_A_BLOCK {
        let tag = Tag(first.wrapping_add(place));
        if let Some(entity) = store.get(tag, steps) {
            live.push((tag, *entity))?;
        }
    }
    Ok(())
}

/// The loop has these fins, in this order from its first one, and each of them knows the one
/// before it.
pub fn check_ring<L: Ledger>(
    rt: &impl Abort,
    partition: &Partition<Euler>,
    ring: u32,
    fins: &[u32],
    steps: &mut Steps<L>,
) {
    let store = partition.store();
    let Some((_, Some(first), None)) = loop_at(store, Tag(ring), steps) else {
        panic!(rt; "{ring} is no loop with fins");
    };
    assert_eq!(rt; Some(first.0), fins.first().copied());
    let mut at = first;
    for fin in fins {
        assert_eq!(rt; at, Tag(*fin));
        at = check_fin(rt, store, at, Tag(ring), steps);
    }
    assert_eq!(rt; at, first);
}

/// The fin is of this loop, and the next one, which is the answer, knows it.
pub fn check_fin<L: Ledger>(
    rt: &impl Abort,
    store: &Store,
    at: Tag,
    ring: Tag,
    steps: &mut Steps<L>,
) -> Tag {
    let Some(fin) = fin_at(store, at, steps) else {
        panic!(rt; "{at} is no fin");
    };
    assert_eq!(rt; fin.loop_, ring);
    let Some(next) = fin_at(store, fin.next, steps) else {
        panic!(rt; "no fin comes after {at}");
    };
    assert_eq!(rt; next.prev, at);
    fin.next
}

/// The loop has no fins, and this lone vertex.
pub fn check_lone<L: Ledger>(
    rt: &impl Abort,
    partition: &Partition<Euler>,
    ring: u32,
    vertex: u32,
    steps: &mut Steps<L>,
) {
    let Some((_, first, lone)) = loop_at(partition.store(), Tag(ring), steps) else {
        panic!(rt; "{ring} is no loop");
    };
    assert_eq!(rt; (first, lone), (None, Some(Tag(vertex))));
}

/// The shell has this q.
pub fn check_q<L: Ledger>(
    rt: &impl Abort,
    partition: &Partition<Euler>,
    shell: u32,
    q: i32,
    steps: &mut Steps<L>,
) {
    let Some((_, its_q)) = shell_at(partition.store(), Tag(shell), steps) else {
        panic!(rt; "{shell} is no shell");
    };
    assert_eq!(rt; its_q, q);
}
