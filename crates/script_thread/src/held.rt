//! The partitions that a thread holds.
ghost use Rattle.std.specs.Prelude.{◌≡◌, ◌<◌, ◌≤◌, [], ◌∷◌};
ghost use Rattle.pk_model.specs.Tags.{Ascends};
ghost use Rattle.script_text.specs.Walk.{greatest, is_held, with_held, without_held};

use arrayvec::ArrayVec;
use script_text::PartList;
use std::alloc::Global;
use std::marker::Model;

/// The numbers of the partitions that a thread holds, ascending, from 1 to 32. Contracts see the
/// list. A change takes no memory.
#[derive(Drop)]
pub(crate) struct Held {
    parts: ArrayVec<u32, 32>,
}

impl Model for Held {
    ghost use Rattle.std.specs.Prelude.{ℕ, List, ◌∷◌};
    ghost use Rattle.pk_model.specs.Tags.{Ascends};

    ghost Value = { List ℕ };

    ghost view = { λ h. h.parts.items };

    ghost invariant = { λ h. Ascends (0 ∷ h.parts.items) };
}

impl Held {
    /// No partition.
    pub(crate) fn new() -> Held
        ensures { result ≡ [] }
    {
        Held {
            parts: ArrayVec::new(),
        }
    }

    /// Whether the partition is among them.
    pub(crate) fn contains(&self, p: u32) -> bool
        ensures { result ≡ is_held self.now p }
    {
        self.parts.as_slice().iter().any(|q| *q == p)
    }

    /// The greatest of them, or 0 where there is none.
    pub(crate) fn greatest(&self) -> u32
        ensures { result ≡ greatest self.now }
    {
        let mut most = 0;
        for q in self.parts.as_slice() {
            most = most.max(*q);
        }
        most
    }

    /// Adds a partition above all of them.
    pub(crate) fn add(&mut self, p: u32)
        requires above { greatest self.old < p }
        requires few { p ≤ 32 }
        ensures { self.new ≡ with_held p self.old }
    {
        self.parts.push(p);
    }

    /// Takes a partition away.
    pub(crate) fn remove(&mut self, p: u32)
        ensures { self.new ≡ without_held p self.old }
    {
        self.parts.retain(|q| *q != p);
    }

    /// Takes all of them away.
    pub(crate) fn clear(&mut self)
        ensures { self.new ≡ [] }
    {
        self.parts.clear();
    }

    /// The numbers.
    pub(crate) fn as_slice(&self) -> &[u32]
        ensures value { result.now ≡ self.now }
        ensures ascend { Ascends (0 ∷ result.now) }
    {
        self.parts.as_slice()
    }
}
