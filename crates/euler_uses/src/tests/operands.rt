//! Calls that are drawn at random, of which a good share is not refused.
use super::calls::named;
use super::check::{Solids, body_of_loop};
use super::dice::{Dice, Wanted, pick};
use super::reading::{face_at, fin_at, loop_at};
use super::shapes::{
    draw_block, draw_delete, draw_lamina, draw_move, draw_prism, draw_sweep, draw_turn,
};
use entity_store::Steps;
use pk_base::{Call, Class, Entity, Name, NoMemory, Tag, Triple};
use std::alloc::Global;
use std::sync::ledger::Ledger;

/// The calls that are drawn.
#[derive(Clone, Copy, Debug, PartialEq, Eq)]
pub enum Drawn {
    Mvfs,
    Mev,
    Mef,
    Mekr,
    Mfkrh,
    Kvfs,
    Kev,
    Kef,
    Kemr,
    Kfmrh,
    RingMove,
    Lamina,
    Block,
    Prism,
    Sweep,
    Move,
    Turn,
    Delete,
    Set,
    Drop,
    Ask,
    Kids,
    Ring,
    Counts,
    Bodies,
}

/// How many of these there are.
pub const DRAWN: usize = 25;

/// Each as often as it is drawn where there are few entities.
const GROWING: [Drawn; 36] = [
    Drawn::Mvfs,
    Drawn::Mev,
    Drawn::Mev,
    Drawn::Mev,
    Drawn::Mev,
    Drawn::Mef,
    Drawn::Mef,
    Drawn::Mef,
    Drawn::Mef,
    Drawn::Mekr,
    Drawn::Mekr,
    Drawn::Mfkrh,
    Drawn::Kvfs,
    Drawn::Kvfs,
    Drawn::Kev,
    Drawn::Kef,
    Drawn::Kemr,
    Drawn::Kemr,
    Drawn::Kfmrh,
    Drawn::Kfmrh,
    Drawn::RingMove,
    Drawn::Lamina,
    Drawn::Block,
    Drawn::Prism,
    Drawn::Sweep,
    Drawn::Sweep,
    Drawn::Move,
    Drawn::Turn,
    Drawn::Set,
    Drawn::Set,
    Drawn::Drop,
    Drawn::Ask,
    Drawn::Kids,
    Drawn::Ring,
    Drawn::Counts,
    Drawn::Bodies,
];

/// Each as often as it is drawn where there are many: more that kill.
const SHRINKING: [Drawn; 29] = [
    Drawn::Mef,
    Drawn::Mekr,
    Drawn::Mekr,
    Drawn::Mfkrh,
    Drawn::Mfkrh,
    Drawn::Kvfs,
    Drawn::Kvfs,
    Drawn::Kev,
    Drawn::Kev,
    Drawn::Kev,
    Drawn::Kev,
    Drawn::Kef,
    Drawn::Kef,
    Drawn::Kef,
    Drawn::Kemr,
    Drawn::RingMove,
    Drawn::Sweep,
    Drawn::Move,
    Drawn::Turn,
    Drawn::Delete,
    Drawn::Delete,
    Drawn::Set,
    Drawn::Drop,
    Drawn::Drop,
    Drawn::Ask,
    Drawn::Kids,
    Drawn::Ring,
    Drawn::Counts,
    Drawn::Bodies,
];

/// The number of entities from which on there are many.
const MANY: usize = 140;

/// Which call comes next.
pub fn draw(dice: &mut Dice, live: usize) -> Drawn {
    let drawn = if live < MANY {
        GROWING.get(dice.below(36) as usize)
    } else {
        SHRINKING.get(dice.below(29) as usize)
    };
    drawn.copied().unwrap_or(Drawn::Mvfs)
}

/// The call, with operands.
pub fn draw_call<L: Ledger>(
    drawn: Drawn,
    dice: &mut Dice,
    alloc: Global,
    solids: Solids<'_>,
    steps: &mut Steps<L>,
) -> Result<Call, NoMemory> {
    Ok(match drawn {
        Drawn::Mvfs => draw_mvfs(dice),
        Drawn::Mev => draw_mev(dice, solids, steps),
        Drawn::Mef => draw_mef(dice, solids, steps),
        Drawn::Mekr => draw_mekr(dice, solids, steps),
        Drawn::Mfkrh => draw_mfkrh(dice, solids, steps),
        Drawn::Kvfs => draw_kvfs(dice, solids, steps),
        Drawn::Kev => draw_kev(dice, solids, steps),
        Drawn::Kef => draw_kef(dice, solids, steps),
        Drawn::Kemr => draw_kemr(dice, solids, steps),
        Drawn::Kfmrh => draw_kfmrh(dice, solids, steps),
        Drawn::RingMove => draw_ringmove(dice, solids, steps),
        Drawn::Lamina => draw_lamina(dice, alloc)?,
        Drawn::Block => draw_block(dice),
        Drawn::Prism => draw_prism(dice, alloc)?,
        Drawn::Sweep => draw_sweep(dice, solids, steps),
        Drawn::Move => draw_move(dice, solids, steps),
        Drawn::Turn => draw_turn(dice, solids, steps),
        Drawn::Delete => draw_delete(dice, solids, steps),
        Drawn::Set => draw_set(dice, solids, steps),
        Drawn::Drop => draw_unset(dice, solids, steps),
        Drawn::Ask => draw_ask(dice, solids, steps),
        Drawn::Kids => draw_kids(dice, solids, steps),
        Drawn::Ring => draw_ring(dice, solids, steps),
        Drawn::Counts => draw_counts(dice, solids, steps),
        Drawn::Bodies => Call::Bodies,
    })
}

/// One that is wanted; now and then, or where there is none, any that is live; 1 where nothing is.
pub fn operand<L: Ledger>(
    dice: &mut Dice,
    solids: Solids<'_>,
    wanted: Wanted,
    steps: &mut Steps<L>,
) -> Tag {
    if dice.below(16) > 0 {
        if let Some(tag) = pick(dice, solids, wanted, steps) {
            return tag;
        }
    }
    pick(dice, solids, Wanted::Any, steps).unwrap_or(Tag(1))
}

/// A coordinate; one in 64 is the first that is too great.
pub fn coordinate(dice: &mut Dice) -> i64 {
    if dice.below(64) == 0 {
        return 1_048_577;
    }
    dice.below(2_097_153).cast_signed() - 1_048_576
}

pub fn triple(dice: &mut Dice) -> Triple {
    let x = coordinate(dice);
    let y = coordinate(dice);
    let z = coordinate(dice);
    Triple { x, y, z }
}

fn draw_mvfs(dice: &mut Dice) -> Call {
    Call::Mvfs { at: triple(dice) }
}

fn draw_mev<L: Ledger>(dice: &mut Dice, solids: Solids<'_>, steps: &mut Steps<L>) -> Call {
    let wanted = if dice.below(3) == 0 {
        Wanted::Bare
    } else {
        Wanted::Of(Class::Fin)
    };
    let end = operand(dice, solids, wanted, steps);
    Call::Mev {
        end,
        at: triple(dice),
    }
}

/// Two fins of one loop.
fn draw_mef<L: Ledger>(dice: &mut Dice, solids: Solids<'_>, steps: &mut Steps<L>) -> Call {
    let from = operand(dice, solids, Wanted::Of(Class::Fin), steps);
    let ring = match fin_at(solids.store, from, steps) {
        Some(fin) => fin.loop_,
        None => from,
    };
    let to = operand(dice, solids, Wanted::PartOf(Class::Fin, ring), steps);
    Call::Mef { from, to }
}

/// An end in a loop: one of its fins, or the loop itself.
fn end_in<L: Ledger>(dice: &mut Dice, solids: Solids<'_>, ring: Tag, steps: &mut Steps<L>) -> Tag {
    pick(dice, solids, Wanted::PartOf(Class::Fin, ring), steps).unwrap_or(ring)
}

/// A ring and another loop of its face.
fn draw_mekr<L: Ledger>(dice: &mut Dice, solids: Solids<'_>, steps: &mut Steps<L>) -> Call {
    let ring = operand(dice, solids, Wanted::Ring, steps);
    let face = face_of(solids, ring, steps);
    let other = operand(dice, solids, Wanted::PartOf(Class::Loop, face), steps);
    let keep = end_in(dice, solids, other, steps);
    Call::Mekr {
        keep,
        ring: end_in(dice, solids, ring, steps),
    }
}

fn draw_mfkrh<L: Ledger>(dice: &mut Dice, solids: Solids<'_>, steps: &mut Steps<L>) -> Call {
    Call::Mfkrh {
        ring: operand(dice, solids, Wanted::Ring, steps),
    }
}

/// The body of a loop without fins.
fn draw_kvfs<L: Ledger>(dice: &mut Dice, solids: Solids<'_>, steps: &mut Steps<L>) -> Call {
    let bare = operand(dice, solids, Wanted::Bare, steps);
    Call::Kvfs {
        body: body_of_loop(solids.store, bare, steps).unwrap_or(bare),
    }
}

fn draw_kev<L: Ledger>(dice: &mut Dice, solids: Solids<'_>, steps: &mut Steps<L>) -> Call {
    Call::Kev {
        fin: operand(dice, solids, Wanted::Strut, steps),
    }
}

fn draw_kef<L: Ledger>(dice: &mut Dice, solids: Solids<'_>, steps: &mut Steps<L>) -> Call {
    Call::Kef {
        fin: operand(dice, solids, Wanted::Border, steps),
    }
}

fn draw_kemr<L: Ledger>(dice: &mut Dice, solids: Solids<'_>, steps: &mut Steps<L>) -> Call {
    Call::Kemr {
        fin: operand(dice, solids, Wanted::Inner, steps),
    }
}

/// The face of a loop; what stands under another tag has none.
fn face_of<L: Ledger>(solids: Solids<'_>, ring: Tag, steps: &mut Steps<L>) -> Tag {
    match loop_at(solids.store, ring, steps) {
        Some((face, _, _)) => face,
        None => ring,
    }
}

/// A face of the shell of this one.
fn face_beside<L: Ledger>(
    dice: &mut Dice,
    solids: Solids<'_>,
    face: Tag,
    steps: &mut Steps<L>,
) -> Tag {
    let shell = match face_at(solids.store, face, steps) {
        Some((shell, _)) => shell,
        None => face,
    };
    operand(dice, solids, Wanted::PartOf(Class::Face, shell), steps)
}

/// Two faces of one body.
fn draw_kfmrh<L: Ledger>(dice: &mut Dice, solids: Solids<'_>, steps: &mut Steps<L>) -> Call {
    let keep = operand(dice, solids, Wanted::Of(Class::Face), steps);
    let kill = face_beside(dice, solids, keep, steps);
    Call::Kfmrh { keep, kill }
}

/// A ring and a face of its body.
fn draw_ringmove<L: Ledger>(dice: &mut Dice, solids: Solids<'_>, steps: &mut Steps<L>) -> Call {
    let ring = operand(dice, solids, Wanted::Ring, steps);
    let face = face_of(solids, ring, steps);
    let to = face_beside(dice, solids, face, steps);
    Call::RingMove { ring, to }
}

/// One of four names.
fn draw_name(dice: &mut Dice) -> Name {
    match dice.below(4) {
        0 => named(b'a'),
        1 => named(b'b'),
        2 => named(b'c'),
        _ => named(b'd'),
    }
}

fn draw_set<L: Ledger>(dice: &mut Dice, solids: Solids<'_>, steps: &mut Steps<L>) -> Call {
    let owner = pick(dice, solids, Wanted::Any, steps).unwrap_or(Tag(1));
    Call::SetAttr {
        owner,
        name: draw_name(dice),
        value: dice.below(1_000).cast_signed(),
    }
}

/// An attribute's owner and name, or any.
fn draw_unset<L: Ledger>(dice: &mut Dice, solids: Solids<'_>, steps: &mut Steps<L>) -> Call {
    let tag = operand(dice, solids, Wanted::Of(Class::Attr), steps);
    let attribute = solids.store.get(tag, steps).copied();
    if let Some(Entity::Attr { owner, name, .. }) = attribute {
        return Call::DropAttr { owner, name };
    }
    Call::DropAttr {
        owner: tag,
        name: draw_name(dice),
    }
}

/// One that is wanted, or any that is live; one in 16 is 1, which never is.
fn questioned<L: Ledger>(
    dice: &mut Dice,
    solids: Solids<'_>,
    wanted: Wanted,
    steps: &mut Steps<L>,
) -> Tag {
    if dice.below(16) == 0 {
        return Tag(1);
    }
    operand(dice, solids, wanted, steps)
}

fn draw_ask<L: Ledger>(dice: &mut Dice, solids: Solids<'_>, steps: &mut Steps<L>) -> Call {
    Call::Ask {
        tag: questioned(dice, solids, Wanted::Any, steps),
    }
}

fn draw_kids<L: Ledger>(dice: &mut Dice, solids: Solids<'_>, steps: &mut Steps<L>) -> Call {
    Call::Kids {
        tag: questioned(dice, solids, Wanted::Any, steps),
    }
}

fn draw_ring<L: Ledger>(dice: &mut Dice, solids: Solids<'_>, steps: &mut Steps<L>) -> Call {
    Call::Ring {
        ring: questioned(dice, solids, Wanted::Of(Class::Loop), steps),
    }
}

fn draw_counts<L: Ledger>(dice: &mut Dice, solids: Solids<'_>, steps: &mut Steps<L>) -> Call {
    Call::Counts {
        body: questioned(dice, solids, Wanted::Of(Class::Body), steps),
    }
}
