//! The order of a thread's line, by its words.
ghost use Rattle.std.specs.Prelude.{◌≡◌, option_copied, option_map, map};
ghost use Rattle.script_text.specs.Form.{act_order as act_order_by, bound_of, name_bound as name_bound_by, no_words, one_number as one_number_by, order_of as order_by, order_of_command as command_by, order_of_words as act_by, order_with as order_with_by, small_or_bad as small_by};
ghost use Rattle.script_text.specs.Reading.{words_now, Takes, bound_now};
ghost use Rattle.script_text.specs.declared.script.Order.TheVariants.{End};

use super::fault::LineFault;
use super::fields::{fits, read_fields};
use super::names::{begins_with_digit, name};
use super::numbers::small_number;
use crate::{Cause, OperandList, Order};
use pk_base::Name;
use pk_command::{Verb, act_of};
use std::alloc::Global;

/// The order of a thread's line, by its first word and those after it.
pub(crate) fn order(alloc: Global, first: &[u8], words: &[&[u8]]) -> Result<Order, LineFault>
    ensures { Takes (λ order. order) result (order_by first.now (words_now words.now)) }
{
    if first == b"thread".as_slice() {
        Err(Cause::Unended.into())
    } else if first == b"lock".as_slice() {
        Ok(Order::Lock(one_number(words)?))
    } else if first == b"unlock".as_slice() {
        Ok(Order::Unlock(one_number(words)?))
    } else if first == b"end".as_slice() {
        end_order(words)
    } else {
        order_of_words(alloc, first, words)
    }
}

fn end_order(words: &[&[u8]]) -> Result<Order, LineFault>
    ensures { Takes (λ order. order) result (no_words (words_now words.now) End) }
{
    if words.is_empty() {
        Ok(Order::End)
    } else {
        Err(Cause::WordCount.into())
    }
}

/// The partition of `lock` and `unlock`.
fn one_number(words: &[&[u8]]) -> Result<u32, Cause>
    ensures { result ≡ one_number_by (words_now words.now) }
{
    match words {
        [word] => small_or_bad(word),
        _ => Err(Cause::WordCount),
    }
}

/// A number of 32 bits.
pub(crate) fn small_or_bad(word: &[u8]) -> Result<u32, Cause>
    ensures { result ≡ small_by word.now }
{
    small_number(word).ok_or(Cause::BadNumber)
}

/// A partition, and an act with the words of its fields.
fn order_of_words(alloc: Global, partition: &[u8], words: &[&[u8]]) -> Result<Order, LineFault>
    ensures { Takes (λ order. order) result (act_by partition.now (words_now words.now)) }
{
    if begins_with_digit(partition) {
        order_of_command(alloc, partition, words)
    } else {
        Err(Cause::UnknownCommand.into())
    }
}

fn order_of_command(alloc: Global, partition: &[u8], words: &[&[u8]]) -> Result<Order, LineFault>
    ensures { Takes (λ order. order) result (command_by partition.now (words_now words.now)) }
{
    let (command, words) = words.split_first().ok_or(Cause::UnknownCommand)?;
    let verb = Verb::of_word(command).ok_or(Cause::UnknownCommand)?;
    let (words, bind) = without_bound(words);
    act_order(alloc, partition, verb, words, bind)
}

/// The words without `as` and a name at their end, and that name where they have one.
fn without_bound<'a>(words: &'a [&'a [u8]]) -> (&'a [&'a [u8]], Option<&'a [u8]>)
    ensures { bound_now result.0.now result.1 ≡ bound_of (words_now words.now) }
{
    match words {
        [front @ .., before, name] if *before == b"as".as_slice() => (front, Some(*name)),
        _ => (words, None),
    }
}

/// An act, whose words are as many as the fields of its verb ask for.
fn act_order(
    alloc: Global,
    partition: &[u8],
    verb: Verb,
    words: &[&[u8]],
    bind: Option<&[u8]>,
) -> Result<Order, LineFault>
    ensures { Takes (λ order. order) result
        (act_order_by partition.now verb (bound_now words.now bind.entry)) }
{
    if fits(verb.kinds(), words.len()) {
        order_with(alloc, partition, verb, words, bind)
    } else {
        Err(Cause::WordCount.into())
    }
}

/// The partition, the fields of the verb, and the name after `as`, from left to right.
fn order_with(
    alloc: Global,
    partition: &[u8],
    verb: Verb,
    words: &[&[u8]],
    bind: Option<&[u8]>,
) -> Result<Order, LineFault>
    ensures { Takes (λ order. order) result
        (order_with_by partition.now verb (bound_now words.now bind.entry)) }
{
    let partition = small_or_bad(partition)?;
    let spelled = read_fields(alloc, verb.kinds(), words)?;
    let bind = name_bound(bind)?;
    let act = act_of(alloc, verb, spelled.fields.as_slice())?.ok_or(Cause::WordCount)?;
    Ok(Order::On {
        partition,
        act,
        operands: OperandList::of(spelled.operands),
        bind,
    })
}

fn name_bound(word: Option<&[u8]>) -> Result<Option<Name>, Cause>
    ensures { result ≡ name_bound_by (option_map (λ w. w.now) word.entry) }
{
    match word {
        None => Ok(None),
        Some(word) => Ok(Some(name(word).ok_or(Cause::BadName)?)),
    }
}
