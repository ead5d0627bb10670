//! The fields of a command, by their words.
ghost use Rattle.std.specs.Prelude.{◌≡◌, ◌++◌, [], ◌∷◌, length, map, IfOk, ok_or, Ok};
ghost use Rattle.script_text.specs.FieldWords.{after_field, after_fields, axis_of, corners_after, fits as fits_by, is_even as even, pair_of, point_words, spelled as spelled_by, tag_word, triple_of, width_of, with_field as with_field_by, with_operand as with_operand_by};
ghost use Rattle.script_text.specs.Reading.{first_corner as corner_first, words_now, spelled_now, Takes};
ghost use Rattle.script_text.specs.declared.script.Cause.TheVariants.{BadNumber, BadName};
ghost use Rattle.pk_command.specs.declared.field.Kind.TheVariants as kind;

use super::fault::LineFault;
use super::names::{name, operand, tag_in_act};
use super::numbers::number;
use crate::{Cause, Operand};
use pk_base::{Axis, CornerList, Pair, Triple};
use pk_command::{Field, Kind};
use std::alloc::Global;

/// Whether fields of these kinds have so many words.
pub(crate) fn fits(kinds: &[Kind], words: usize) -> bool
    ensures { result ≡ fits_by kinds.now words }
{
    let mut left = words;
    for kind in kinds {
        if *kind == Kind::Corners {
            return left % 2 == 0;
        }
        match left.checked_sub(width(*kind)) {
            Some(after) => left = after,
            None => return false,
        }
    }
    left == 0
}

/// How many words a field of this kind has; corners take what the others leave.
fn width(kind: Kind) -> usize
    ensures { result ≡ width_of kind }
{
    match kind {
        Kind::Tag | Kind::Number | Kind::Axis | Kind::Name => 1,
        Kind::Point => 3,
        Kind::Corners => 0,
    }
}

/// What was read of a command: its fields, its tag operands from left to right, and the words that
/// are left.
#[derive(Debug, Drop)]
pub(crate) struct Spelled<'a> {
    pub(crate) fields: Vec<Field>,
    pub(crate) operands: Vec<Operand>,
    left: &'a [&'a [u8]],
}

/// The fields of these kinds by their words, from left to right.
pub(crate) fn read_fields<'a>(
    alloc: Global,
    kinds: &[Kind],
    words: &'a [&'a [u8]],
) -> Result<Spelled<'a>, LineFault>
    ensures { Takes spelled_now result (spelled_by kinds.now (words_now words.now)) }
{
    let mut spelled = Spelled {
        fields: Vec::new(alloc),
        operands: Vec::new(alloc),
        left: words,
    };
    for kind in kinds {
        spelled = spelled.take(alloc, *kind)?;
    }
    Ok(spelled)
}

impl<'a> Spelled<'a> {
    /// The field of this kind at the front of the words that are left. Corners take them all.
    fn take(self, alloc: Global, kind: Kind) -> Result<Spelled<'a>, LineFault>
        ensures { Takes spelled_now result (after_field kind (spelled_now self.entry)) }
    {
        match kind {
            Kind::Tag => self.take_tag(),
            Kind::Number => self.take_number(),
            Kind::Point => self.take_point(),
            Kind::Corners => self.take_corners(alloc),
            Kind::Axis => self.take_axis(),
            Kind::Name => self.take_name(),
        }
    }

    fn take_tag(mut self) -> Result<Spelled<'a>, LineFault>
        ensures { Takes spelled_now result (after_field kind.Tag (spelled_now self.entry)) }
    {
        let (word, left) = self.left.split_first().ok_or(Cause::WordCount)?;
        let operand = operand(word)?;
        self.operands.push(operand)?;
        self.with_field(Field::Tag(tag_in_act(operand)), left)
    }

    fn take_number(self) -> Result<Spelled<'a>, LineFault>
        ensures { Takes spelled_now result (after_field kind.Number (spelled_now self.entry)) }
    {
        let (word, left) = self.left.split_first().ok_or(Cause::WordCount)?;
        let number = number(word).ok_or(Cause::BadNumber)?;
        self.with_field(Field::Number(number), left)
    }

    fn take_point(self) -> Result<Spelled<'a>, LineFault>
        ensures { Takes spelled_now result (after_field kind.Point (spelled_now self.entry)) }
    {
        let (x, words) = self.left.split_first().ok_or(Cause::WordCount)?;
        let (y, words) = words.split_first().ok_or(Cause::WordCount)?;
        let (z, left) = words.split_first().ok_or(Cause::WordCount)?;
        let point = triple(x, y, z).ok_or(Cause::BadNumber)?;
        self.with_field(Field::Point(point), left)
    }

    fn take_corners(self, alloc: Global) -> Result<Spelled<'a>, LineFault>
        ensures { Takes spelled_now result (after_field kind.Corners (spelled_now self.entry)) }
    {
        let corners = corners(alloc, self.left)?;
        self.with_field(Field::Corners(corners), &[])
    }

    fn take_axis(self) -> Result<Spelled<'a>, LineFault>
        ensures { Takes spelled_now result (after_field kind.Axis (spelled_now self.entry)) }
    {
        let (word, left) = self.left.split_first().ok_or(Cause::WordCount)?;
        let axis = axis(word).ok_or(Cause::BadName)?;
        self.with_field(Field::Axis(axis), left)
    }

    fn take_name(self) -> Result<Spelled<'a>, LineFault>
        ensures { Takes spelled_now result (after_field kind.Name (spelled_now self.entry)) }
    {
        let (word, left) = self.left.split_first().ok_or(Cause::WordCount)?;
        let name = name(word).ok_or(Cause::BadName)?;
        self.with_field(Field::Name(name), left)
    }

    /// One field more, and these words left.
    fn with_field(mut self, field: Field, left: &'a [&'a [u8]]) -> Result<Spelled<'a>, LineFault>
        ensures { Takes spelled_now result
            (Ok (with_field_by (spelled_now self.entry) (words_now left.now) field)) }
    {
        self.fields.push(field)?;
        Ok(Spelled {
            fields: self.fields,
            operands: self.operands,
            left,
        })
    }
}

/// Two numbers for each corner.
fn corners(alloc: Global, words: &[&[u8]]) -> Result<CornerList, LineFault>
    ensures { Takes (λ corners. corners) result (corners_after [] (words_now words.now)) }
{
    let mut corners = Vec::new(alloc);
    let mut i = 0;
    while i < words.len() {
        corners.push(first_corner(&words[i..])?)?;
        i += 2;
    }
    Ok(CornerList::of(corners))
}

/// The corner at the front of the words.
fn first_corner(words: &[&[u8]]) -> Result<Pair, Cause>
    ensures { result ≡ corner_first (words_now words.now) }
{
    let (x, words) = words.split_first().ok_or(Cause::WordCount)?;
    let y = words.first().ok_or(Cause::WordCount)?;
    pair(x, y).ok_or(Cause::BadNumber)
}

fn axis(word: &[u8]) -> Option<Axis>
    ensures { result ≡ axis_of word.now }
{
    if word == b"x".as_slice() {
        Some(Axis::X)
    } else if word == b"y".as_slice() {
        Some(Axis::Y)
    } else if word == b"z".as_slice() {
        Some(Axis::Z)
    } else {
        None
    }
}

/// Three numbers.
fn triple(x: &[u8], y: &[u8], z: &[u8]) -> Option<Triple>
    ensures { result ≡ triple_of x.now y.now z.now }
{
    Some(Triple {
        x: number(x)?,
        y: number(y)?,
        z: number(z)?,
    })
}

/// Two numbers.
fn pair(x: &[u8], y: &[u8]) -> Option<Pair>
    ensures { result ≡ pair_of x.now y.now }
{
    Some(Pair {
        x: number(x)?,
        y: number(y)?,
    })
}
