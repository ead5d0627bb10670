//! What a journal says.
ghost use Rattle.std.specs.Prelude.{◌≡◌, ◌++◌, OnOk};
ghost use Rattle.std.specs.List.{filter_map, flat_map};
ghost use Rattle.script_text.specs.Text.{act_text, entry_text, field_text};

use super::Text;
use super::fields::write_field;
use pk_base::{Act, Entry, NoMemory};
use pk_command::{Field, fields_of, verb_of};
use std::alloc::Global;

/// A line of a journal, without its end.
pub(super) fn write_entry(alloc: Global, out: &mut Text, entry: &Entry) -> Result<(), NoMemory>
    ensures { OnOk result (out.new ≡ out.old ++ entry_text entry.now) }
{
    match entry {
        Entry::Claimed(thread) => {
            let thread = *thread;
            write!(out, "claimed {thread}")
        }
        Entry::Drew { thread, block } => {
            let (thread, block) = (*thread, *block);
            write!(out, "drew {thread} {block}")
        }
        Entry::Did { thread, act } => {
            let thread = *thread;
            write!(out, "did {thread}")?;
            write_act(alloc, out, act)
        }
        Entry::Spent { thread, next, act } => {
            let (thread, next) = (*thread, *next);
            write!(out, "spent {thread} {next}")?;
            write_act(alloc, out, act)
        }
        Entry::Released(thread) => {
            let thread = *thread;
            write!(out, "released {thread}")
        }
    }
}

/// An act as its command.
fn write_act(alloc: Global, out: &mut Text, act: &Act) -> Result<(), NoMemory>
    ensures { OnOk result (out.new ≡ out.old ++ act_text act.now) }
{
    let word = verb_of(act).word();
    let fields = fields_of(alloc, act)?;
    write!(out, " {word}")?;
    write_fields(out, &fields)
}

/// The fields that there are, in order.
fn write_fields(out: &mut Text, fields: &[Option<Field>]) -> Result<(), NoMemory>
    ensures { OnOk result (out.new
        ≡ out.old ++ flat_map field_text (filter_map (λ o. o) fields.now)) }
{
    for field in fields {
        if let Some(field) = field {
            write_field(out, field)?;
        }
    }
    Ok(())
}
