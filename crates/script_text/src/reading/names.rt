//! Names and tag operands.
ghost use Rattle.std.specs.Prelude.{◌≡◌, ◌-◌, ◌+◌, ◌<◌, ◌≤◌, nat_le, ◌==◌, ◌&&◌, ◌∷◌, ◌++◌, length, replicate, ok_or, IfSome};
ghost use Rattle.std.specs.List.{list_all, position};
ghost use Rattle.script_text.specs.Numbers.{begins_with_digit as digit_first};
ghost use Rattle.script_text.specs.FieldWords.{is_letter as letter, is_name_byte as name_byte, name_of, named_at as named_at_by, named_operand as named_by, operand_of, tag_in_act as tag_by};
ghost use Rattle.script_text.specs.declared.script.Cause.TheVariants.{BadName};

use super::numbers::small_number;
use crate::{Cause, MOST_NAME_BYTES, Operand};
use pk_base::{Name, Tag};

/// The name that a word is: 1 to 16 bytes, a letter a to z, and behind it such letters, digits and
/// `_`.
pub(crate) fn name(word: &[u8]) -> Option<Name>
    ensures { result ≡ name_of word.now }
{
    let (first, more) = word.split_first()?;
    if is_name(*first, more) {
        Some(Name(padded(word)))
    } else {
        None
    }
}

fn is_name(first: u8, more: &[u8]) -> bool
    ensures { result ≡ (letter first
        && (list_all name_byte more.now && nat_le (length (first ∷ more.now)) MOST_NAME_BYTES)) }
{
    is_letter(first) && are_name_bytes(more) && more.len() < MOST_NAME_BYTES
}

fn are_name_bytes(bytes: &[u8]) -> bool
    ensures { result ≡ list_all name_byte bytes.now }
{
    bytes.iter().all(|b| is_name_byte(*b))
}

/// Up to 16 bytes, padded with zeros.
fn padded(word: &[u8]) -> [u8; MOST_NAME_BYTES]
    requires { length word.now ≤ MOST_NAME_BYTES }
    ensures { result ≡ word.now ++ replicate (MOST_NAME_BYTES - length word.now) 0 }
{
    let mut bytes = [0; MOST_NAME_BYTES];
    bytes[..word.len()].copy_from_slice(word);
    bytes
}

fn is_letter(b: u8) -> bool
    ensures { result ≡ letter b }
{
    b'a' <= b && b <= b'z'
}

fn is_name_byte(b: u8) -> bool
    ensures { result ≡ name_byte b }
{
    is_letter(b) || b.is_ascii_digit() || b == b'_'
}

/// Whether the first byte is a digit.
pub(crate) fn begins_with_digit(word: &[u8]) -> bool
    ensures { result ≡ digit_first word.now }
{
    match word.first() {
        Some(b) => b.is_ascii_digit(),
        None => false,
    }
}

/// A tag operand: digits, or a name, or a name, a dot and a place.
pub(crate) fn operand(word: &[u8]) -> Result<Operand, Cause>
    ensures { result ≡ operand_of word.now }
{
    if begins_with_digit(word) {
        let number = small_number(word).ok_or(Cause::BadNumber)?;
        Ok(Operand::Digits(Tag(number)))
    } else {
        named_operand(word).ok_or(Cause::BadName)
    }
}

/// A name, or a name, a dot and digits.
fn named_operand(word: &[u8]) -> Option<Operand>
    ensures { result ≡ named_by word.now }
{
    named_at(dot_in(word), word)
}

/// Where the first dot is.
fn dot_in(word: &[u8]) -> Option<usize>
    ensures { result ≡ position (λ b. b == 46) word.now }
{
    word.iter().position(|b| *b == b'.')
}

/// A name, or the name before a dot and the place after it.
fn named_at(dot: Option<usize>, word: &[u8]) -> Option<Operand>
    requires { IfSome dot (λ i. i < length word.now) }
    ensures { result ≡ named_at_by dot word.now }
{
    match dot {
        None => Some(Operand::Named {
            name: name(word)?,
            at: 0,
        }),
        Some(dot) => Some(Operand::Named {
            name: name(&word[..dot])?,
            at: small_number(&word[dot + 1..])?,
        }),
    }
}

/// The tag that stands in the act: 0 in the place of a named operand.
pub(crate) fn tag_in_act(operand: Operand) -> Tag
    ensures { result ≡ tag_by operand }
{
    match operand {
        Operand::Digits(tag) => tag,
        Operand::Named { .. } => Tag(0),
    }
}
