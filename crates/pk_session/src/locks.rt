//! How a partition is locked and unlocked.
ghost use Rattle.std.specs.Prelude.{◌≡◌};
ghost use Rattle.pk_session.specs.declared.locks.LockNo.TheVariants.{NoMemory as OutOfMemory};
ghost use Rattle.pk_session.specs.Holding.{IsHeldBy};
ghost use Rattle.pk_session.specs.Locks.{TriesLock, Locks, HasUnlocked};

use crate::held::Held;
use crate::seat::Seat;
use crate::session::Session;
use crate::slots::{claim, leave, released};
use entity_store::Modeller;
use pk_base::NoMemory;
use std::alloc::AllocError;
use std::sync::Wait;
use std::thread;
use thiserror::Error;

/// Why a partition was not locked.
#[derive(Clone, Copy, Debug, PartialEq, Eq, Error)]
pub enum LockNo {
    /// The session has no partition of this number.
    #[error("there is no partition {0}")]
    NoPartition(u32),
    /// The seat holds this partition already.
    #[error("this seat holds the partition {0} already")]
    AlreadyYours(u32),
    /// The seat with this number holds the partition.
    #[error("seat {0} holds the partition")]
    HeldBy(u32),
    /// Memory ran out.
    #[error("no memory")]
    NoMemory,
}

impl From<NoMemory> for LockNo {
    ghost from_gives = { λ _ e. e ≡ OutOfMemory };

    fn from(_: NoMemory) -> Self {
        LockNo::NoMemory
    }
}

impl From<AllocError> for LockNo {
    ghost from_gives = { λ _ e. e ≡ OutOfMemory };

    fn from(_: AllocError) -> Self {
        LockNo::NoMemory
    }
}

impl<K: Modeller> Session<K> {
    /// Locks partition p, by one compare and exchange. Refuses, in this order: a number that no
    /// partition of the session has (`NoPartition`), a partition that this seat holds
    /// (`AlreadyYours`), and one that another seat was found to hold (`HeldBy` with its number).
    /// Without memory (`NoMemory`) the seat does not hold p, and no entry is left. It waits for
    /// nobody.
    pub fn try_lock(&self, seat: &mut Seat<K>, p: u32) -> Result<Held<K>, LockNo>
        requires seat { seat.old.session ≡ self.now }
        ensures seat { seat.new.session ≡ self.now }
        ensures step { TriesLock K.modelling seat.old p result seat.new }
    {
        if p == 0 || p > self.partitions {
            return Err(LockNo::NoPartition(p));
        }
        if seat.place.holds(p) {
            return Err(LockNo::AlreadyYours(p));
        }
        let partition = claim(&self.table, &mut seat.place, p)?;
        let session = seat.place.session();
        Ok(Held { partition, session })
    }

    /// Locks partition p as `try_lock` does, and waits while another seat holds it.
    pub fn lock<R: Wait>(&self, rt: &R, seat: &mut Seat<K>, p: u32) -> Result<Held<K>, LockNo>
        requires seat { seat.old.session ≡ self.now }
        ensures seat { seat.new.session ≡ self.now }
        ensures locks { Locks K.modelling seat.old p result seat.new }
    {
        for _ in rt.forever() {
            match self.try_lock(seat, p) {
                Err(LockNo::HeldBy(_)) => thread::yield_now(),
                answer => return answer,
            }
        }
        unreachable!()
    }

    /// Lets the partition go, by one store. It takes no memory, and waits for nobody.
    pub fn unlock(&self, seat: &mut Seat<K>, held: Held<K>)
        requires seat { seat.old.session ≡ self.now }
        requires held { IsHeldBy seat.old held }
        ensures seat { seat.new.session ≡ self.now }
        ensures step { HasUnlocked seat.old held seat.new }
    {
        let Held {
            partition,
            session: _,
        } = held;
        let free = released(partition);
        leave(&self.table, &mut seat.place, free);
    }
}
