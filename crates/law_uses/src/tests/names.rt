//! What is live under other names: what is expected where some was killed and made anew.
use super::live::{entity_in, read_live};
use entity_store::{Steps, Store};
use pk_base::{Entity, Tag};
use std::alloc::{AllocError, Global};
use std::process::Abort;
use std::sync::ledger::Ledger;

/// What was killed, with the tags under which it is made anew; and of the loop and the edge whose
/// least fin is then another one, that fin.
#[derive(Clone, Copy)]
pub struct Names<'a> {
    pub anew: &'a [(u32, u32)],
    pub least: &'a [(u32, u32)],
}

/// The second of the pair that begins with this number.
fn find(pairs: &[(u32, u32)], number: u32) -> Option<u32> {
    for (one, other) in pairs {
        if *one == number {
            return Some(*other);
        }
    }
    None
}

impl Names<'_> {
    /// What has this tag is then named so.
    fn of(&self, tag: Tag) -> Tag {
        Tag(find(self.anew, tag.0).unwrap_or(tag.0))
    }

    fn of_optional(&self, tag: Option<Tag>) -> Option<Tag> {
        match tag {
            Some(tag) => Some(self.of(tag)),
            None => None,
        }
    }

    /// The least fin of the loop or the edge that is then named so, where it is this one but for
    /// its name or another one.
    fn least_of(&self, owner: Tag, fin: Tag) -> Tag {
        match find(self.least, owner.0) {
            Some(least) => Tag(least),
            None => self.of(fin),
        }
    }

    /// The entity, with other names in it, that is then named so.
    fn of_entity(&self, named: Tag, entity: &Entity) -> Entity {
        match entity {
            Entity::Body { shell } => Entity::Body {
                shell: self.of(*shell),
            },
            Entity::Shell { body, q } => Entity::Shell {
                body: self.of(*body),
                q: *q,
            },
            Entity::Face { shell, outer } => Entity::Face {
                shell: self.of(*shell),
                outer: self.of(*outer),
            },
            Entity::Loop { face, first, lone } => Entity::Loop {
                face: self.of(*face),
                first: match first {
                    Some(fin) => Some(self.least_of(named, *fin)),
                    None => None,
                },
                lone: self.of_optional(*lone),
            },
            Entity::Fin {
                loop_,
                next,
                prev,
                mate,
                edge,
                vertex,
            } => Entity::Fin {
                loop_: self.of(*loop_),
                next: self.of(*next),
                prev: self.of(*prev),
                mate: self.of(*mate),
                edge: self.of(*edge),
                vertex: self.of(*vertex),
            },
            Entity::Edge { body, fin } => Entity::Edge {
                body: self.of(*body),
                fin: self.least_of(named, *fin),
            },
            Entity::Vertex { body, point } => Entity::Vertex {
                body: self.of(*body),
                point: *point,
            },
            Entity::Attr { owner, name, value } => Entity::Attr {
                owner: self.of(*owner),
                name: *name,
                value: *value,
            },
        }
    }
}

/// What is live is what was live, but for these names.
pub fn check_names<L: Ledger>(
    rt: &impl Abort,
    alloc: Global,
    store: &Store,
    before: &[(Tag, Entity)],
    names: Names<'_>,
    steps: &mut Steps<L>,
) -> Result<(), AllocError> {
    let now = read_live(alloc, store, steps)?;
    assert_eq!(rt; now.len(), before.len());
    for (_, made) in names.anew {
        assert!(rt; entity_in(before, Tag(*made)).is_none());
    }
    for (tag, entity) in before {
        let named = names.of(*tag);
        let expected = names.of_entity(named, entity);
        assert_eq!(rt; entity_in(&now, named), Some(expected), "{tag}");
    }
    Ok(())
}
