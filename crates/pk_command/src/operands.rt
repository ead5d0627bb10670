//! An act with other tags as its operands.
ghost use Rattle.std.specs.Prelude.{◌≡◌, ◌∷◌, List, IfOk};
ghost use Rattle.std.specs.List.{filter_map};
ghost use Rattle.pk_command.specs.declared.field.Field.{Field as AnyField};
ghost use Rattle.pk_command.specs.Operands.{act_on, with_tags};

use crate::{Field, act_of, fields_of, verb_of};
use pk_base::{Act, NoMemory, Tag};
use std::alloc::Global;

/// The act with these tags as its operands, from left to right. `Tag(0)` stands for one that is
/// missing, and tags behind the last operand are not looked at. `NoMemory` comes only where an
/// allocation fails.
pub fn act_on(alloc: Global, act: &Act, tags: &[Tag]) -> Result<Act, NoMemory>
    ensures { IfOk result (λ a. a ≡ act_on act.now tags.now) }
{
    let fields = with_tags(alloc, fields_of(alloc, act)?, tags)?;
    match act_of(alloc, verb_of(act), &fields)? {
        Some(act) => Ok(act),
        None => unreachable!(),
    }
}

/// The fields that there are, with these tags in the place of theirs.
fn with_tags(
    alloc: Global,
    fields: [Option<Field>; 3],
    tags: &[Tag],
) -> Result<Vec<Field>, NoMemory>
    ensures { IfOk result (λ made. made.items ≡ with_tags (filter_map (λ o. o) fields) tags.now) }
{
    let mut made = Vec::new(alloc);
    let mut left = tags;
    for field in fields {
        if let Some(field) = field {
            let (field, more) = with_tag(field, left);
            made.push(field)?;
            left = more;
        }
    }
    Ok(made)
}

/// The field with the first of these tags in its place, where it is a tag, and the tags left.
fn with_tag(field: Field, tags: &[Tag]) -> (Field, &[Tag])
    ensures { (fields : List AnyField) → with_tags (field ∷ fields) tags.now
        ≡ result.0 ∷ with_tags fields result.1.now }
{
    match field {
        Field::Tag(_) => match tags {
            [] => (Field::Tag(Tag(0)), tags),
            [tag, left @ ..] => (Field::Tag(*tag), left),
        },
        Field::Number(_) | Field::Point(_) | Field::Corners(_) | Field::Axis(_) | Field::Name(_) =>
            (field, tags),
    }
}
