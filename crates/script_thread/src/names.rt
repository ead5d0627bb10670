//! The names of a thread.
ghost use Rattle.std.specs.Prelude.{◌≡◌, ◌≤◌, [], Ok, length, OnErr, OnOk, option_map};
ghost use Rattle.script_text.specs.Walk.{list_of as the_list_of, tag_of_operand};
ghost use Rattle.script_thread.specs.Thread.{names_after};
ghost use Rattle.script_thread.specs.Names.{ResolvesTo};

use indexmap::IndexMap;
use pk_base::{Fault, Items, Name, NoMemory, Refusal, Reply, Tag, TagList};
use script_text::Operand;
use std::alloc::Global;
use std::marker::Model;

/// What the names of a thread are bound to. Contracts see each name with its tags, in the order in
/// which the names were first bound.
#[derive(Drop)]
pub(crate) struct Names {
    bound: IndexMap<[u8; 16], TagList>,
}

impl Model for Names {
    ghost use Rattle.std.specs.Prelude.{List, map};
    ghost use Rattle.pk_base.specs.declared.entity.Name.{Name};
    ghost use Rattle.pk_base.specs.declared.tag.Tag.{Tag};
    ghost use Rattle.script_thread.specs.Names.{named};

    ghost Value = { List (Name × List Tag) };

    ghost view = { λ n. map named n.bound.entries };
}

impl Names {
    /// No names.
    pub(crate) fn new(alloc: Global) -> Names
        ensures { result ≡ [] }
    {
        Names {
            bound: IndexMap::new(alloc),
        }
    }

    /// Binds the name behind `as` to the list of a reply, where there are both. Without memory
    /// nothing changes.
    pub(crate) fn bind(
        &mut self,
        alloc: Global,
        name: Option<Name>,
        reply: &Reply,
    ) -> Result<(), NoMemory>
        ensures bound { OnOk result (self.new ≡ names_after (Ok reply.now) name self.old) }
        ensures unchanged { OnErr result (self.new ≡ self.old) }
    {
        if let (Some(name), Some(tags)) = (name, list_of(reply)) {
            self.bound.insert(name.0, tags.copy(alloc)?)?;
        }
        Ok(())
    }

    /// The tags of the operands, or refusal 27 of the first that names none.
    pub(crate) fn tags_of(&self, alloc: Global, operands: &[Operand]) -> Result<TagList, Fault>
        requires { length operands.now ≤ 3 }
        ensures { ResolvesTo self.now operands.now result }
    {
        let mut tags = Vec::new(alloc);
        for (i, operand) in operands.iter().enumerate() {
            match self.tag_of(operand) {
                Some(tag) => tags.push(tag).map_err(NoMemory::from)?,
                None => return Err(Fault::Refused(Refusal::NoName(i as u32 + 1))),
            }
        }
        Ok(Items::of(tags))
    }

    /// The tag of an operand, where it names one.
    fn tag_of(&self, operand: &Operand) -> Option<Tag>
        ensures { result ≡ tag_of_operand self.now operand.now }
    {
        match operand {
            Operand::Digits(tag) => Some(*tag),
            Operand::Named { name, at } => {
                let tags = self.bound.get(&name.0)?;
                let tag = tags.as_slice().get(*at as usize)?;
                Some(*tag)
            }
        }
    }
}

/// The list of a reply that has one.
fn list_of(reply: &Reply) -> Option<&TagList>
    ensures { option_map (λ tags. tags.now) result ≡ the_list_of reply.now }
{
    match reply {
        Reply::Made(tags) | Reply::List(tags) => Some(tags),
        Reply::Done
        | Reply::Is(_)
        | Reply::Counts(_)
        | Reply::Went(_)
        | Reply::Marks { .. }
        | Reply::Delta(_) => None,
    }
}
