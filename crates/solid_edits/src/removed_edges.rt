//! An edge that is removed.
ghost use Rattle.std.specs.Prelude.{◌≡◌, IsTrue};
ghost use Rattle.std.specs.List.{AllByRecursion};
ghost use Rattle.pk_model.specs.Tags.{owns};
ghost use Rattle.entity_store.specs.Room.{HasRoomForThese, PutsAmong};
ghost use Rattle.solid_edits.specs.Deaths.{Kills, with_attributes};
ghost use Rattle.solid_edits.specs.RemovedEdges.{edge_with_fins};

use crate::deaths::kill_all;
use entity_store::{Recorder, Steps};
use pk_base::Tag;
use solid_places::PlacedFin;
use std::sync::ledger::Ledger;

/// Removes the edge of a fin with both of its fins: the three die with their attributes. It takes
/// no memory.
pub fn remove_edge<L: Ledger>(
    rec: &mut Recorder<'_>,
    fin: Tag,
    placed: &PlacedFin,
    steps: &mut Steps<L>,
)
    requires owned { AllByRecursion (λ t. IsTrue (owns rec.old.store.now.state.blocks t))
        (edge_with_fins fin placed.now) }
    requires room { HasRoomForThese rec.old.store.now.recording
        (with_attributes rec.old.store.now.state.map (edge_with_fins fin placed.now)) }
    ensures kills { Kills rec.old.store.now.state.map (edge_with_fins fin placed.now)
        rec.new.store.now.state.map }
    ensures state { rec.new.store.now.state ≡ record rec.old.store.now.state
        { map = rec.new.store.now.state.map } }
    ensures puts { PutsAmong
        (with_attributes rec.old.store.now.state.map (edge_with_fins fin placed.now))
        rec.old.store.now rec.new.store.now }
    ensures same_store { rec.new.store.ghost_name ≡ rec.old.store.ghost_name }
{
    kill_all(rec, [fin, placed.mate, placed.edge].as_slice(), steps);
}
