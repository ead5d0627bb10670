//! The fields of a line, each behind one space.
ghost use Rattle.std.specs.Prelude.{◌≡◌, ◌+◌, ◌++◌, ◌↔◌, nat_le, IsTrue, OnOk};
ghost use Rattle.std.specs.List.{take_while, flat_map};
ghost use Rattle.script_text.specs.Text.{number, signed, tag_field, optional_tag, run_field, tags_field, numbers_field, lists_fields, row_field, name_field};
ghost use Rattle.script_text.specs.Text.{axis_field, field_text, pair_fields, triple_fields};

use super::Text;
use pk_base::{Axis, Lists, MarkRow, Name, NoMemory, Pair, Tag, Triple};
use pk_command::Field;

/// A word and a number.
pub(super) fn write_number(out: &mut Text, word: &str, n: u64) -> Result<(), NoMemory>
    ensures { OnOk result (out.new ≡ out.old ++ (word.now ++ number n)) }
{
    write!(out, "{word} {n}")
}

/// A word and a number with its sign.
pub(super) fn write_signed(out: &mut Text, word: &str, z: i64) -> Result<(), NoMemory>
    ensures { OnOk result (out.new ≡ out.old ++ (word.now ++ signed z)) }
{
    write!(out, "{word} {z}")
}

/// A word and a tag.
pub(super) fn write_tag(out: &mut Text, word: &str, tag: Tag) -> Result<(), NoMemory>
    ensures { OnOk result (out.new ≡ out.old ++ (word.now ++ tag_field tag)) }
{
    write!(out, "{word} {tag}")
}

/// A tag, or `-` for none.
pub(super) fn write_optional_tag(out: &mut Text, tag: Option<Tag>) -> Result<(), NoMemory>
    ensures { OnOk result (out.new ≡ out.old ++ optional_tag tag) }
{
    match tag {
        None => write!(out, " -"),
        Some(tag) => write!(out, " {tag}"),
    }
}

/// The tags in runs in which each is one more than the one before. A run of three or more is its
/// first and its last.
pub(super) fn write_tags(out: &mut Text, tags: &[Tag]) -> Result<(), NoMemory>
    ensures { OnOk result (out.new ≡ out.old ++ tags_field tags.now) }
{
    let Some((start, rest)) = tags.split_first() else {
        return write!(out, " -");
    };
    let mut first = start.0;
    let mut last = start.0;
    for tag in rest {
        if !follows(last, tag.0) {
            write_run(out, first, last)?;
            first = tag.0;
        }
        last = tag.0;
    }
    write_run(out, first, last)
}

fn follows(last: u32, next: u32) -> bool
    ensures { IsTrue result ↔ (last + 1 ≡ next) }
{
    next.checked_sub(1) == Some(last)
}

fn write_run(out: &mut Text, first: u32, last: u32) -> Result<(), NoMemory>
    ensures { OnOk result (out.new ≡ out.old ++ run_field (record { first = first; last = last })) }
{
    if u64::from(first) + 2 <= u64::from(last) {
        write!(out, " {first}-{last}")
    } else if first == last {
        write!(out, " {first}")
    } else {
        write!(out, " {first} {last}")
    }
}

/// The numbers one by one, or `-` where there are none.
pub(super) fn write_numbers(out: &mut Text, numbers: &[u32]) -> Result<(), NoMemory>
    ensures { OnOk result (out.new ≡ out.old ++ numbers_field numbers.now) }
{
    if numbers.is_empty() {
        write!(out, " -")
    } else {
        write_each(out, numbers)
    }
}

fn write_each(out: &mut Text, numbers: &[u32]) -> Result<(), NoMemory>
    ensures { OnOk result (out.new ≡ out.old ++ flat_map number numbers.now) }
{
    for number in numbers {
        let number = *number;
        write!(out, " {number}")?;
    }
    Ok(())
}

/// The three lists that say how one state differs from another.
pub(super) fn write_lists(out: &mut Text, lists: &Lists) -> Result<(), NoMemory>
    ensures { OnOk result (out.new ≡ out.old ++ lists_fields lists.now) }
{
    write!(out, " fresh")?;
    write_tags(out, lists.fresh.as_slice())?;
    write!(out, " gone")?;
    write_tags(out, lists.gone.as_slice())?;
    write!(out, " changed")?;
    write_tags(out, lists.changed.as_slice())
}

/// A mark, `/`, and its parent, which is 0 for the initial mark.
pub(super) fn write_row(out: &mut Text, row: &MarkRow) -> Result<(), NoMemory>
    ensures { OnOk result (out.new ≡ out.old ++ row_field row.now) }
{
    let tag = row.tag;
    let parent = match row.parent {
        None => 0,
        Some(parent) => parent.0,
    };
    write!(out, " {tag}/{parent}")
}

/// The name without its padding.
pub(super) fn write_name(out: &mut Text, name: Name) -> Result<(), NoMemory>
    ensures { OnOk result (out.new ≡ out.old ++ name_field name) }
{
    write!(out, " ")?;
    write_to_padding(out, &name.0)
}

fn write_to_padding(out: &mut Text, bytes: &[u8]) -> Result<(), NoMemory>
    ensures { OnOk result (out.new ≡ out.old ++ take_while (λ b. nat_le 1 b) bytes.now) }
{
    for b in bytes {
        if *b == 0 {
            return Ok(());
        }
        out.push_bytes(&[*b])?;
    }
    Ok(())
}

/// A field of a command.
pub(super) fn write_field(out: &mut Text, field: &Field) -> Result<(), NoMemory>
    ensures { OnOk result (out.new ≡ out.old ++ field_text field.now) }
{
    match field {
        Field::Tag(tag) => write_tag(out, "", *tag),
        Field::Number(number) => write_signed(out, "", *number),
        Field::Point(point) => write_triple(out, *point),
        Field::Corners(corners) => write_corners(out, corners.as_slice()),
        Field::Axis(axis) => write_axis(out, *axis),
        Field::Name(name) => write_name(out, *name),
    }
}

fn write_triple(out: &mut Text, triple: Triple) -> Result<(), NoMemory>
    ensures { OnOk result (out.new ≡ out.old ++ triple_fields triple) }
{
    let Triple { x, y, z } = triple;
    write!(out, " {x} {y} {z}")
}

fn write_corners(out: &mut Text, corners: &[Pair]) -> Result<(), NoMemory>
    ensures { OnOk result (out.new ≡ out.old ++ flat_map pair_fields corners.now) }
{
    for corner in corners {
        write_pair(out, *corner)?;
    }
    Ok(())
}

fn write_pair(out: &mut Text, pair: Pair) -> Result<(), NoMemory>
    ensures { OnOk result (out.new ≡ out.old ++ pair_fields pair) }
{
    let Pair { x, y } = pair;
    write!(out, " {x} {y}")
}

fn write_axis(out: &mut Text, axis: Axis) -> Result<(), NoMemory>
    ensures { OnOk result (out.new ≡ out.old ++ axis_field axis) }
{
    match axis {
        Axis::X => write!(out, " x"),
        Axis::Y => write!(out, " y"),
        Axis::Z => write!(out, " z"),
    }
}
