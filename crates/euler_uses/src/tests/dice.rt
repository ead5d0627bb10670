//! Numbers at random, and live entities that are drawn by what they are wanted to be.
ghost use Rattle.std.specs.Prelude.{◌<◌};

use super::check::Solids;
use super::reading::{face_at, fin_at};
use entity_store::{Steps, Store};
use pk_base::{Class, Entity, Tag};
use std::sync::ledger::Ledger;

/// A linear congruential generator, with the numbers of MMIX.
#[derive(Clone, Copy)]
pub struct Dice {
    state: u64,
}

impl Dice {
    pub fn new(seed: u64) -> Dice {
        Dice { state: seed }
    }

    /// A number below the bound; 0 where that is 0.
    pub fn below(&mut self, bound: u64) -> u64
        ensures { 0 < bound → result < bound }
    {
        self.state = self
            .state
            .wrapping_mul(6_364_136_223_846_793_005)
            .wrapping_add(1_442_695_040_888_963_407);
        let number = self.state >> 33u32;
        if bound == 0 { 0 } else { number % bound }
    }
}

/// What an operand is wanted to be.
#[derive(Clone, Copy)]
pub enum Wanted {
    /// Anything that is live.
    Any,
    /// A part of this class, of anything.
    Of(Class),
    /// A part of this class that this one owns.
    PartOf(Class, Tag),
    /// Anything that this one owns.
    OwnedBy(Tag),
    /// A loop without fins.
    Bare,
    /// A loop that is not its face's outer one.
    Ring,
    /// A fin whose mate comes next.
    Strut,
    /// A fin whose mate is in its loop.
    Inner,
    /// A fin whose mate is in another loop.
    Border,
}

/// One of the live entities that are wanted, each as likely as the others; nothing where there is
/// none.
pub fn pick<L: Ledger>(
    dice: &mut Dice,
    solids: Solids<'_>,
    wanted: Wanted,
    steps: &mut Steps<L>,
) -> Option<Tag> {
    let mut picked = None;
    let mut count = 0u64;
    for (tag, entity) in solids.live {
        if is_wanted(solids.store, wanted, *tag, entity, steps) {
            count = count.saturating_add(1);
            if dice.below(count) == 0 {
                picked = Some(*tag);
            }
        }
    }
    picked
}

/// Whether this live entity is wanted.
pub fn is_wanted<L: Ledger>(
    store: &Store,
    wanted: Wanted,
    tag: Tag,
    entity: &Entity,
    steps: &mut Steps<L>,
) -> bool {
    match wanted {
        Wanted::Any => true,
        Wanted::Of(class) => entity.class() == class,
        Wanted::PartOf(class, owner) => { entity.class() == class && entity.owner() == Some(owner) }
        Wanted::OwnedBy(owner) => entity.owner() == Some(owner),
        Wanted::Bare => is_bare(entity),
        Wanted::Ring => is_ring(store, tag, entity, steps),
        Wanted::Strut => is_strut(entity),
        Wanted::Inner => is_between(store, entity, true, steps),
        Wanted::Border => is_between(store, entity, false, steps),
    }
}

fn is_bare(entity: &Entity) -> bool {
    let Entity::Loop { first, .. } = entity else {
        return false;
    };
    first.is_none()
}

fn is_ring<L: Ledger>(store: &Store, tag: Tag, entity: &Entity, steps: &mut Steps<L>) -> bool {
    let Entity::Loop { face, .. } = entity else {
        return false;
    };
    face_at(store, *face, steps).is_some_and(|face| face.1 != tag)
}

fn is_strut(entity: &Entity) -> bool {
    let Entity::Fin { next, mate, .. } = entity else {
        return false;
    };
    *next == *mate
}

/// Whether it is a fin whose mate is in its loop, or whether that is in another one.
fn is_between<L: Ledger>(store: &Store, entity: &Entity, one: bool, steps: &mut Steps<L>) -> bool {
    let Entity::Fin { loop_, mate, .. } = entity else {
        return false;
    };
    fin_at(store, *mate, steps).is_some_and(|mate| (mate.loop_ == *loop_) == one)
}
