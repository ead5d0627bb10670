//! How partitions leave their slots and come back, under a seat of the table.
ghost use Rattle.std.specs.Prelude.{◌≡◌, ◌≤◌, None, Some, IsSome};
ghost use Rattle.pk_base.specs.declared.tag.TheConstants.{LAST_BLOCK};
ghost use Rattle.pk_base.specs.declared.act.Entry.TheVariants.{Released};
ghost use Rattle.partition.specs.Partition.{Appends, holder_of};
ghost use Rattle.session_table.specs.declared.view.Note.{Note};
ghost use Rattle.session_table.specs.Seats.{note_of};
ghost use Rattle.session_table.specs.Steps.{let_go};
ghost use Rattle.session_table.specs.Faces.{IsPartition, view_of};
ghost use Rattle.session_table.specs.Calls.{IsNotedBy};
ghost use Rattle.pk_session.specs.Inside.{named_of};
ghost use Rattle.pk_session.specs.Slots.{IsAtRest, Takes, WritesClaim, DrawsBlock, IsNotedWith, DrawsInto};

use crate::draws::DrawNo;
use crate::kept::Kept;
use crate::locks::LockNo;
use entity_store::Modeller;
use partition::Partition;
use pk_base::NoMemory;
use session_table::{Claim, Drawn, Next, Seat, SessionTable};

/// Claims a partition that the seat does not hold, and takes it out of its slot with the claim
/// written down. Without memory it is put back as it was and let go, if it was claimed.
pub(crate) fn claim<K: Modeller>(
    table: &SessionTable<Kept<K>>,
    seat: &mut Seat<Kept<K>>,
    p: u32,
) -> Result<Partition<K>, LockNo>
    requires rest { IsAtRest table.now seat.old }
    requires partition { IsPartition table.now p }
    requires free { note_of (view_of seat.old) p ≡ None }
    ensures rest { IsAtRest table.now seat.new }
    ensures takes { Takes K.modelling (view_of seat.old) p result (view_of seat.new) }
{
    seat.reserve()?;
    match table.claim(seat, p) {
        Claim::HeldBy(holder) => Err(LockNo::HeldBy(holder)),
        Claim::Won => {
            let Kept { partition } = table.take_out(seat, p);
            write_claim(table, seat, partition)
        }
    }
}

/// Writes the claim of a partition down, which is out of its slot. Without memory it is put back
/// and let go.
fn write_claim<K: Modeller>(
    table: &SessionTable<Kept<K>>,
    seat: &mut Seat<Kept<K>>,
    mut partition: Partition<K>,
) -> Result<Partition<K>, LockNo>
    requires rest { IsAtRest table.now seat.old }
    requires value { IsNotedBy (view_of seat.old) partition.number (named_of partition) }
    requires free { partition.state.holder ≡ None }
    ensures rest { IsAtRest table.now seat.new }
    ensures writes { WritesClaim K.modelling (view_of seat.old) partition result
        (view_of seat.new) }
{
    if let Err(NoMemory) = partition.claim(seat.number()) {
        leave(table, seat, partition);
        return Err(LockNo::NoMemory);
    }
    // That its state is the replay of its journal is learned from it.
    let _ = partition.journal();
    Ok(partition)
}

/// Writes down that the holder of a partition lets it go.
pub(crate) fn released<K: Modeller>(mut partition: Partition<K>) -> Partition<K>
    requires { IsSome partition.state.holder }
    ensures { Appends K.modelling partition (Released (holder_of partition)) None result }
{
    partition.release();
    partition
}

/// Puts a partition back into its slot, and lets it go.
pub(crate) fn leave<K: Modeller>(
    table: &SessionTable<Kept<K>>,
    seat: &mut Seat<Kept<K>>,
    partition: Partition<K>,
)
    requires rest { IsAtRest table.now seat.old }
    requires value { IsNotedBy (view_of seat.old) partition.number (named_of partition) }
    ensures rest { IsAtRest table.now seat.new }
    ensures view { view_of seat.new
        ≡ let_go (view_of seat.old) partition.number partition.journal }
{
    let p = partition.number();
    table.put_in(seat, p, Kept { partition });
    table.release(seat, p);
}

/// The next block, drawn for p, or the number above the last block that was found in its place.
pub(crate) fn draw_block<K: Modeller>(
    table: &SessionTable<Kept<K>>,
    seat: &mut Seat<Kept<K>>,
    p: u32,
) -> Result<u32, u64>
    requires rest { IsAtRest table.now seat.old }
    requires noted { (note : Note) × (note_of (view_of seat.old) p ≡ Some note) }
    ensures rest { IsAtRest table.now seat.new }
    ensures draws { DrawsBlock (view_of seat.old) p result (view_of seat.new) }
{
    match table.look(seat) {
        Next::Past(next) => Err(next),
        Next::Free => match table.draw(seat, p) {
            Drawn::Past(next) => Err(next),
            Drawn::Block(block) => Ok(block),
        },
    }
}

/// Draws the next block for a partition that is out of its slot, in room taken before.
pub(crate) fn draw_into<K: Modeller>(
    table: &SessionTable<Kept<K>>,
    seat: &mut Seat<Kept<K>>,
    partition: &mut Partition<K>,
) -> Result<u32, DrawNo>
    requires rest { IsAtRest table.now seat.old }
    requires noted { IsNotedWith (view_of seat.old) partition.old }
    requires held { IsSome partition.old.state.holder }
    requires last { (view_of seat.old).bounds.last ≤ LAST_BLOCK }
    ensures rest { IsAtRest table.now seat.new }
    ensures draws { DrawsInto K.modelling (view_of seat.old) partition.old result
        (view_of seat.new) partition.new }
{
    partition.reserve_block()?;
    let p = partition.number();
    let block = match draw_block(table, seat, p) {
        Ok(block) => block,
        Err(next) => return Err(DrawNo::Spent(next)),
    };
    partition.take_block(block);
    Ok(block)
}
