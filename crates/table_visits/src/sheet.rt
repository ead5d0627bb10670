//! A value that stands for a partition, and has no more of it than the table must know.
ghost use Rattle.std.specs.Prelude.{◌≡◌, ◌+◌, ◌≤◌, ◌∷◌, ◌++◌, [], IfOk, OnOk, None, vec_len, vec_capacity};
ghost use Rattle.session_table.specs.Named.{opening};

use pk_base::Entry;
use session_table::Naming;
use std::alloc::{AllocError, Global};

/// A partition of which nothing is kept but what the table must know. Nobody is its holder.
#[derive(Drop)]
pub struct Sheet {
    /// Its number.
    pub number: u32,
    /// Its blocks, in the order in which it got them.
    pub blocks: Vec<u64>,
    /// All that was done.
    pub journal: Vec<Entry>,
}

impl Naming for Sheet {
    ghost use Rattle.session_table.specs.Named.{Named};
    ghost use Rattle.std.specs.Prelude.{None};

    ghost named = { λ s. record {
      number = s.number;
      holder = None;
      blocks = s.blocks.items;
      journal = s.journal.items;
    } };
}

impl Sheet {
    /// The partition as a session begins. `AllocError` comes only where an allocation fails.
    pub fn new(alloc: Global, number: u32) -> Result<Sheet, AllocError>
        ensures { IfOk result (λ s. ⟦<Sheet as Naming>⟧.named s ≡ opening number) }
    {
        let mut blocks = Vec::with_capacity(alloc, 1)?;
        blocks.push_reserved(u64::from(number));
        Ok(Sheet {
            number,
            blocks,
            journal: Vec::new(alloc),
        })
    }

    // Takes memory for three entries and a block.
    pub(crate) fn reserve(&mut self) -> Result<(), AllocError>
        ensures same { ⟦<Sheet as Naming>⟧.named self.new ≡ ⟦<Sheet as Naming>⟧.named self.old }
        ensures blocks { OnOk result (vec_len self.new.blocks + 1 ≤ vec_capacity self.new.blocks) }
        ensures journal { OnOk result
            (vec_len self.new.journal + 3 ≤ vec_capacity self.new.journal) }
    {
        self.blocks.reserve(1)?;
        self.journal.reserve(3)
    }
}
