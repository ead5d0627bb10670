//! How a block is drawn.
ghost use Rattle.std.specs.Prelude.{◌≡◌};
ghost use Rattle.pk_session.specs.declared.draws.DrawNo.TheVariants.{NoMemory as OutOfMemory};
ghost use Rattle.pk_session.specs.Holding.{IsHeldBy};
ghost use Rattle.pk_session.specs.Draws.{TriesDraw};

use crate::held::Held;
use crate::seat::Seat;
use crate::session::Session;
use crate::slots::draw_into;
use entity_store::Modeller;
use pk_base::NoMemory;
use thiserror::Error;

/// Why no block was drawn.
#[derive(Clone, Copy, Debug, PartialEq, Eq, Error)]
pub enum DrawNo {
    /// The next block would be this one, above the last.
    #[error("the next tag block would be {0}, above the last")]
    Spent(u64),
    /// Memory ran out.
    #[error("no memory")]
    NoMemory,
}

impl From<NoMemory> for DrawNo {
    ghost from_gives = { λ _ e. e ≡ OutOfMemory };

    fn from(_: NoMemory) -> Self {
        DrawNo::NoMemory
    }
}

impl<K: Modeller> Session<K> {
    /// Draws the next block for a partition that the seat holds, by a load and one fetch and add.
    /// Where the next block is above the last (`Spent`), and without memory (`NoMemory`), the
    /// partition is as it was. It waits for nobody.
    pub fn draw(&self, seat: &mut Seat<K>, held: &mut Held<K>) -> Result<u32, DrawNo>
        requires seat { seat.old.session ≡ self.now }
        requires held { IsHeldBy seat.old held.old }
        ensures seat { seat.new.session ≡ self.now }
        ensures step { TriesDraw K.modelling seat.old held.old result seat.new held.new }
    {
        draw_into(&self.table, &mut seat.place, &mut held.partition)
    }
}
