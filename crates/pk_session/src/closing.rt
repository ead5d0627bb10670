//! How a session ends.
ghost use Rattle.std.specs.Prelude.{◌≡◌, ◌≤◌, [], Some, IfOk, All, vec_capacity, vec_len};
ghost use Rattle.pk_model.specs.Replay.{replay};
ghost use Rattle.session_table.specs.Ends.{HoldsNothing, HasJoinedAll};
ghost use Rattle.pk_session.specs.Ends.{Leaves};

use crate::kept::Kept;
use crate::seat::Seat;
use crate::session::Session;
use entity_store::Modeller;
use partition::Partition;
use pk_base::NoMemory;

// The partitions, in order, in room taken before.
fn take_all<K: Modeller>(kept: Vec<Kept<K>>, mut all: Vec<Partition<K>>) -> Vec<Partition<K>>
    requires empty { all.items ≡ [] }
    requires room { vec_len kept ≤ vec_capacity all }
    ensures items { result.items ≡ kept.items }
    ensures replays { All (λ x. replay K.modelling x.number x.journal ≡ Some x.state) result.items }
{
    for value in kept {
        let Kept { partition } = value;
        // That its state is the replay of its journal is learned from it.
        let _ = partition.journal();
        all.push_reserved(partition);
    }
    all
}

impl<K: Modeller> Session<K> {
    /// Ends the session, and gives its partitions, in order. None is held.
    pub fn close(self, root: Seat<K>) -> Result<Vec<Partition<K>>, NoMemory>
        requires seat { root.session ≡ self }
        requires root { root.view.number ≡ 0 }
        requires idle { HoldsNothing root.view }
        requires alone { HasJoinedAll root.view }
        ensures { IfOk result (λ all. Leaves K.modelling root all.items) }
    {
        let Session {
            table,
            alloc,
            partitions,
        } = self;
        let all = Vec::with_capacity(alloc, partitions as usize)?;
        let Seat { place } = root;
        let kept = table.close(place)?;
        Ok(take_all(kept, all))
    }
}
