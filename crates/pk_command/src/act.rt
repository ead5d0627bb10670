//! An act as its verb and its fields.
ghost use Rattle.std.specs.Prelude.{◌≡◌, IfOk};
ghost use Rattle.std.specs.List.{filter_map};
ghost use Rattle.pk_command.specs.Commands.{fields_of as fields_by, fields_of_call as call_fields_by, verb_of as verb_by, verb_of_call as call_verb_by};

use crate::{Field, Verb};
use pk_base::{Act, Call, NoMemory};
use std::alloc::Global;

/// The verb of an act.
pub fn verb_of(act: &Act) -> Verb
    ensures { result ≡ verb_by act.now }
{
    match act {
        Act::Call(call) => verb_of_call(call),
        Act::Mark => Verb::Mark,
        Act::Goto(_) => Verb::Goto,
        Act::Unmark(_) => Verb::Unmark,
        Act::Marks => Verb::Marks,
        Act::Delta(_) => Verb::Delta,
    }
}

fn verb_of_call(call: &Call) -> Verb
    ensures { result ≡ call_verb_by call.now }
{
    match call {
        Call::Mvfs { .. } => Verb::Mvfs,
        Call::Mev { .. } => Verb::Mev,
        Call::Mef { .. } => Verb::Mef,
        Call::Mekr { .. } => Verb::Mekr,
        Call::Mfkrh { .. } => Verb::Mfkrh,
        Call::Kvfs { .. } => Verb::Kvfs,
        Call::Kev { .. } => Verb::Kev,
        Call::Kef { .. } => Verb::Kef,
        Call::Kemr { .. } => Verb::Kemr,
        Call::Kfmrh { .. } => Verb::Kfmrh,
        Call::RingMove { .. } => Verb::RingMove,
        Call::Lamina { .. } => Verb::Lamina,
        Call::Block { .. } => Verb::Block,
        Call::Prism { .. } => Verb::Prism,
        Call::Sweep { .. } => Verb::Sweep,
        Call::Move { .. } => Verb::Move,
        Call::Turn { .. } => Verb::Turn,
        Call::Delete { .. } => Verb::Delete,
        Call::SetAttr { .. } => Verb::SetAttr,
        Call::DropAttr { .. } => Verb::DropAttr,
        Call::Ask { .. } => Verb::Ask,
        Call::Kids { .. } => Verb::Kids,
        Call::Ring { .. } => Verb::Ring,
        Call::Counts { .. } => Verb::Counts,
        Call::Bodies => Verb::Bodies,
    }
}

/// The fields of an act, in order: at most three. `NoMemory` comes only where an allocation fails.
pub fn fields_of(alloc: Global, act: &Act) -> Result<[Option<Field>; 3], NoMemory>
    ensures { IfOk result (λ fields. filter_map (λ o. o) fields ≡ fields_by act.now) }
{
    match act {
        Act::Call(call) => fields_of_call(alloc, call),
        Act::Goto(m) | Act::Unmark(m) | Act::Delta(m) => Ok([Some(Field::Tag(*m)), None, None]),
        Act::Mark | Act::Marks => Ok([None, None, None]),
    }
}

fn fields_of_call(alloc: Global, call: &Call) -> Result<[Option<Field>; 3], NoMemory>
    ensures { IfOk result (λ fields. filter_map (λ o. o) fields ≡ call_fields_by call.now) }
{
    match call {
        Call::Mvfs { at } => Ok([Some(Field::Point(*at)), None, None]),
        Call::Mev { end, at } => Ok([Some(Field::Tag(*end)), Some(Field::Point(*at)), None]),
        Call::Mef { from, to } => Ok([Some(Field::Tag(*from)), Some(Field::Tag(*to)), None]),
        Call::Mekr { keep, ring } => Ok([Some(Field::Tag(*keep)), Some(Field::Tag(*ring)), None]),
        Call::Mfkrh { ring } => Ok([Some(Field::Tag(*ring)), None, None]),
        Call::Kvfs { body } => Ok([Some(Field::Tag(*body)), None, None]),
        Call::Kev { fin } => Ok([Some(Field::Tag(*fin)), None, None]),
        Call::Kef { fin } => Ok([Some(Field::Tag(*fin)), None, None]),
        Call::Kemr { fin } => Ok([Some(Field::Tag(*fin)), None, None]),
        Call::Kfmrh { keep, kill } => Ok([Some(Field::Tag(*keep)), Some(Field::Tag(*kill)), None]),
        Call::RingMove { ring, to } => Ok([Some(Field::Tag(*ring)), Some(Field::Tag(*to)), None]),
        Call::Lamina { z, corners } => Ok([
            Some(Field::Number(*z)),
            Some(Field::Corners(corners.copy(alloc)?)),
            None,
        ]),
        Call::Block { at, size } => Ok([Some(Field::Point(*at)), Some(Field::Point(*size)), None]),
        Call::Prism { z, h, corners } => Ok([
            Some(Field::Number(*z)),
            Some(Field::Number(*h)),
            Some(Field::Corners(corners.copy(alloc)?)),
        ]),
        Call::Sweep { face, by } => Ok([Some(Field::Tag(*face)), Some(Field::Point(*by)), None]),
        Call::Move { body, by } => Ok([Some(Field::Tag(*body)), Some(Field::Point(*by)), None]),
        Call::Turn { body, axis, turns } => Ok([
            Some(Field::Tag(*body)),
            Some(Field::Axis(*axis)),
            Some(Field::Number(*turns)),
        ]),
        Call::Delete { body } => Ok([Some(Field::Tag(*body)), None, None]),
        Call::SetAttr { owner, name, value } => Ok([
            Some(Field::Tag(*owner)),
            Some(Field::Name(*name)),
            Some(Field::Number(*value)),
        ]),
        Call::DropAttr { owner, name } => Ok([
            Some(Field::Tag(*owner)),
            Some(Field::Name(*name)),
            None,
        ]),
        Call::Ask { tag } => Ok([Some(Field::Tag(*tag)), None, None]),
        Call::Kids { tag } => Ok([Some(Field::Tag(*tag)), None, None]),
        Call::Ring { ring } => Ok([Some(Field::Tag(*ring)), None, None]),
        Call::Counts { body } => Ok([Some(Field::Tag(*body)), None, None]),
        Call::Bodies => Ok([None, None, None]),
    }
}
