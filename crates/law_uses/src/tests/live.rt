//! All that is live in a store, read and compared.
use super::store::FIRST;
use entity_store::{Steps, Store};
use pk_base::{Entity, TAGS_OF_A_BLOCK, Tag};
use std::alloc::{AllocError, Global};
use std::process::Abort;
use std::sync::ledger::Ledger;

/// Lists what is live, with its tags, ascending.
pub fn read_live<L: Ledger>(
    alloc: Global,
    store: &Store,
    steps: &mut Steps<L>,
) -> Result<Vec<(Tag, Entity)>, AllocError> {
    let mut live = Vec::new(alloc);
    for tag in FIRST..FIRST + TAGS_OF_A_BLOCK {
        if let Some(entity) = store.get(Tag(tag), steps) {
            live.push((Tag(tag), *entity))?;
        }
    }
    Ok(live)
}

/// The entity that is listed under this tag.
pub fn entity_in(live: &[(Tag, Entity)], tag: Tag) -> Option<Entity> {
    for (at, entity) in live {
        if *at == tag {
            return Some(*entity);
        }
    }
    None
}

/// What is live is just what was live.
pub fn check_live<L: Ledger>(
    rt: &impl Abort,
    alloc: Global,
    store: &Store,
    before: &[(Tag, Entity)],
    steps: &mut Steps<L>,
) -> Result<(), AllocError> {
    let now = read_live(alloc, store, steps)?;
    assert_eq!(rt; store.len(), before.len());
    assert_eq!(rt; now.len(), before.len());
    for (one, other) in now.iter().zip(before.iter()) {
        assert_eq!(rt; one.0, other.0);
        assert_eq!(rt; one.1, other.1, "at {}", one.0);
    }
    Ok(())
}
