//! Solids that are drawn at random, and how they are swept, moved and turned.
use super::check::Solids;
use super::dice::{Dice, Wanted};
use super::operands::{coordinate, operand, triple};
use entity_store::Steps;
use pk_base::{Axis, Call, Class, CornerList, NoMemory, Pair, Triple};
use std::alloc::Global;
use std::sync::ledger::Ledger;

/// A length from 1 to 1,000; one in 16 is 0.
fn length(dice: &mut Dice) -> i64 {
    if dice.below(16) == 0 {
        return 0;
    }
    dice.below(1_000).cast_signed() + 1
}

/// A distance from -1,000 to 1,000.
fn distance(dice: &mut Dice) -> i64 {
    dice.below(2_001).cast_signed() - 1_000
}

fn short_vector(dice: &mut Dice) -> Triple {
    let x = distance(dice);
    let y = distance(dice);
    let z = distance(dice);
    Triple { x, y, z }
}

/// The corners of a triangle or of a rectangle, counter-clockwise; one in eight crosses itself.
fn draw_corners(dice: &mut Dice, alloc: Global) -> Result<CornerList, NoMemory> {
    let x = coordinate(dice);
    let y = coordinate(dice);
    let right = x.saturating_add(length(dice));
    let above = y.saturating_add(length(dice));
    let first = Pair { x, y };
    let second = Pair { x: right, y };
    let third = Pair { x: right, y: above };
    let last = Pair { x, y: above };
    let corners = match dice.below(8) {
        0 => Vec::from_slice(alloc, &[first, third, second, last])?,
        1..=4 => Vec::from_slice(alloc, &[first, second, last])?,
        _ => Vec::from_slice(alloc, &[first, second, third, last])?,
    };
    Ok(CornerList::of(corners))
}

pub fn draw_lamina(dice: &mut Dice, alloc: Global) -> Result<Call, NoMemory> {
    Ok(Call::Lamina {
        z: coordinate(dice),
        corners: draw_corners(dice, alloc)?,
    })
}

pub fn draw_block(dice: &mut Dice) -> Call {
    let at = triple(dice);
    let x = length(dice);
    let y = length(dice);
    let z = length(dice);
    Call::Block {
        at,
        size: Triple { x, y, z },
    }
}

pub fn draw_prism(dice: &mut Dice, alloc: Global) -> Result<Call, NoMemory> {
    let z = coordinate(dice);
    let h = length(dice);
    Ok(Call::Prism {
        z,
        h,
        corners: draw_corners(dice, alloc)?,
    })
}

pub fn draw_sweep<L: Ledger>(dice: &mut Dice, solids: Solids<'_>, steps: &mut Steps<L>) -> Call {
    Call::Sweep {
        face: operand(dice, solids, Wanted::Of(Class::Face), steps),
        by: short_vector(dice),
    }
}

pub fn draw_move<L: Ledger>(dice: &mut Dice, solids: Solids<'_>, steps: &mut Steps<L>) -> Call {
    Call::Move {
        body: operand(dice, solids, Wanted::Of(Class::Body), steps),
        by: short_vector(dice),
    }
}

fn draw_axis(dice: &mut Dice) -> Axis {
    match dice.below(3) {
        0 => Axis::X,
        1 => Axis::Y,
        _ => Axis::Z,
    }
}

/// One, two or three quarter turns; one in five has none, or four.
pub fn draw_turn<L: Ledger>(dice: &mut Dice, solids: Solids<'_>, steps: &mut Steps<L>) -> Call {
    let body = operand(dice, solids, Wanted::Of(Class::Body), steps);
    let axis = draw_axis(dice);
    let turns = match dice.below(10) {
        0 => 0,
        1 => 4,
        _ => dice.below(3).cast_signed() + 1,
    };
    Call::Turn { body, axis, turns }
}

pub fn draw_delete<L: Ledger>(dice: &mut Dice, solids: Solids<'_>, steps: &mut Steps<L>) -> Call {
    Call::Delete {
        body: operand(dice, solids, Wanted::Of(Class::Body), steps),
    }
}
