ghost use Rattle.std.specs.Prelude.{◌≡◌, ◌≢◌, ◌+◌, ◌<◌, ◌≤◌, ◌++◌, [], length, replicate, set, vec_len, vec_capacity, IsSome, OnOk, OnErr, None, Some};
ghost use Rattle.owner_links.specs.Links.{AreChildren, owner_at};
ghost use Rattle.owner_links.specs.Slots.{AreKept, owners_of, slot_at, unlinked};

use crate::Children;
use crate::slot::{Slot, join, set_owner};
use std::alloc::{AllocError, Global};
use std::marker::Model;

/// How many slots are added at once.
const SLOTS_ADDED: usize = 64;

/// Memory ran out.
#[derive(Clone, Copy, Debug, PartialEq, Eq)]
pub struct NoMemory;

impl From<AllocError> for NoMemory {
    fn from(_: AllocError) -> Self {
        NoMemory
    }
}

/// Child lists over slots with the numbers from 0 on. Contracts see the owner of each slot, where
/// it has one, and for how many slots more there is room.
#[derive(Drop)]
pub struct Links {
    slots: Vec<Slot>,
}

impl Model for Links {
    ghost use Rattle.std.specs.Prelude.{◌-◌, vec_capacity, vec_len};
    ghost use Rattle.owner_links.specs.Links.{LinksView, links_code};
    ghost use Rattle.owner_links.specs.Slots.{owners_of, AreKept};

    ghost Value = { LinksView };

    ghost coded = { links_code };

    ghost view = { λ l. record {
      owners = owners_of l.slots.items;
      spare = vec_capacity l.slots - vec_len l.slots;
    } };

    ghost invariant = { λ l. AreKept l.slots.items };
}

impl Links {
    /// No slots. It takes no memory.
    pub fn new(alloc: Global) -> Links
        ensures { result.owners ≡ [] }
    {
        Links {
            slots: Vec::new(alloc),
        }
    }

    /// Adds 64 slots without links. Without memory the owners are as they were.
    pub fn grow(&mut self) -> Result<(), NoMemory>
        ensures ok { OnOk result (self.new.owners ≡ self.old.owners ++ replicate 64 None) }
        ensures err { OnErr result (self.new.owners ≡ self.old.owners) }
    {
        self.reserve(SLOTS_ADDED)?;
        self.add_reserved();
        Ok(())
    }

    /// Takes the room for so many slots more at least. The owners are as they were, also without
    /// memory.
    pub fn reserve(&mut self, slots: usize) -> Result<(), NoMemory>
        ensures room { OnOk result (slots ≤ self.new.spare) }
        ensures owners { self.new.owners ≡ self.old.owners }
    {
        self.slots.reserve(slots)?;
        Ok(())
    }

    /// Adds 64 slots without links, in room taken before. It takes no memory.
    pub fn add_reserved(&mut self)
        requires { 64 ≤ self.old.spare }
        ensures owners { self.new.owners ≡ self.old.owners ++ replicate 64 None }
        ensures room { self.new.spare + 64 ≡ self.old.spare }
    {
        add_slots(&mut self.slots);
    }

    /// Makes a slot without an owner the child of another slot. It takes no memory.
    pub fn attach(&mut self, child: u32, owner: u32)
        requires child { child < length self.old.owners }
        requires owner { owner < length self.old.owners }
        requires other { child ≢ owner }
        requires free { owner_at self.old.owners child ≡ None }
        ensures { self.new ≡ record self.old { owners = set self.old.owners child (Some owner) } }
    {
        link(&mut self.slots, child, owner);
    }

    /// Takes a child from its owner. It takes no memory.
    pub fn detach(&mut self, child: u32)
        requires { IsSome (owner_at self.old.owners child) }
        ensures { self.new ≡ record self.old { owners = set self.old.owners child None } }
    {
        unlink(&mut self.slots, child);
    }

    /// The owner of a slot; none also where there is no such slot. It takes no memory.
    pub fn owner_of(&self, child: u32) -> Option<u32>
        ensures { result ≡ owner_at self.now.owners child }
    {
        self.slots.get(child as usize)?.owner
    }

    /// The children of a slot, each once, in an open order; none where there is no such slot. It
    /// takes no memory.
    pub fn children(&self, owner: u32) -> Children<'_>
        ensures { AreChildren self.now.owners owner result }
    {
        Children::from(&self.slots, first_child(&self.slots, owner))
    }
}

/// Adds 64 slots without links.
fn add_slots(slots: &mut Vec<Slot>)
    requires { vec_len slots.old + 64 ≤ vec_capacity slots.old }
    ensures items { slots.new.items ≡ slots.old.items ++ replicate 64 unlinked }
    ensures room { vec_capacity slots.new ≡ vec_capacity slots.old }
{
    for _ in 0..SLOTS_ADDED {
        slots.push_reserved(Slot::unlinked());
    }
}

/// Links a slot in front of the children of its owner.
fn link(slots: &mut [Slot], child: u32, owner: u32)
    requires kept { AreKept slots.old }
    requires child { child < length slots.old }
    requires owner { owner < length slots.old }
    requires free { owner_at (owners_of slots.old) child ≡ None }
    ensures kept { AreKept slots.new }
    ensures owners { owners_of slots.new ≡ set (owners_of slots.old) child (Some owner) }
{
    let first = slots[owner as usize].first;
    join(slots, owner, Some(child), first);
    join(slots, owner, None, Some(child));
    set_owner(slots, child, Some(owner));
}

/// Links the neighbours of a child, which leaves their list.
fn unlink(slots: &mut [Slot], child: u32)
    requires kept { AreKept slots.old }
    requires owned { IsSome (owner_at (owners_of slots.old) child) }
    ensures kept { AreKept slots.new }
    ensures owners { owners_of slots.new ≡ set (owners_of slots.old) child None }
{
    let slot = slots[child as usize];
    join(slots, slot.owner.unwrap(), slot.previous, slot.next);
    set_owner(slots, child, None);
}

/// The first child of a slot; none also where there is no such slot.
fn first_child(slots: &[Slot], owner: u32) -> Option<u32>
    ensures { result ≡ (slot_at slots.now owner).first }
{
    slots.get(owner as usize)?.first
}
