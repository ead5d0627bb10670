ghost use Rattle.std.specs.Prelude.{◌≡◌, []};
ghost use Rattle.std.specs.Iterator.{YieldsFirst, item_count};
ghost use Rattle.owner_links.specs.Slots.{linked_from, EndsFrom};

use crate::slot::Slot;
use std::marker::Model;

/// The children of a slot that are still to come. Contracts see their list.
#[derive(Drop)]
pub struct Children<'a> {
    slots: &'a [Slot],
    at: Option<u32>,
}

impl<'a> Model for Children<'a> {
    ghost use Rattle.std.specs.Prelude.{ℕ, List};
    ghost use Rattle.owner_links.specs.Slots.{linked_from, EndsFrom};

    ghost Value = { List ℕ };

    ghost view = { λ c. linked_from c.slots.now c.at };

    ghost invariant = { λ c. EndsFrom c.slots.now c.at };
}

impl<'a> Children<'a> {
    /// No children.
    pub fn none() -> Children<'a>
        ensures { result ≡ [] }
    {
        Children {
            slots: &[],
            at: None,
        }
    }

    /// Those from a slot on, which is linked to the ones that follow.
    pub(crate) fn from(slots: &'a [Slot], first: Option<u32>) -> Children<'a>
        requires { EndsFrom slots.now first }
        ensures { result ≡ linked_from slots.now first }
    {
        Children { slots, at: first }
    }
}

impl<'a> Iterator for Children<'a> {
    type Item = u32;

    // The next one is the first of those to come, and `None` comes exactly where none is left.
    ghost next_gives = { YieldsFirst (λ children. children) };

    ghost remaining = { item_count (λ children. children) };

    fn next(&mut self) -> Option<u32> {
        let child = self.at?;
        self.at = self.slots[child as usize].next;
        Some(child)
    }
}
