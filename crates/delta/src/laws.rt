//! Laws of changes between maps. The functions have no code.
ghost use Rattle.std.specs.Prelude.{◌≡◌, List};
ghost use Rattle.pk_model.specs.Maps.{EntityMap};
ghost use Rattle.entity_store.specs.declared.changes.Change.{Change};
ghost use Rattle.entity_store.specs.Changes.{AreChanges, net_changes};
ghost use Rattle.delta.specs.Deltas.{Follows, StartsAt, after};

/// The net change between two maps starts at the one and leads to the other; and changes are the
/// net change between where they start and where they lead.
pub fn net_changes_lead()
    ensures starts { (m n : EntityMap) → StartsAt m (net_changes m n) }
    ensures leads { (m n : EntityMap) → after m (net_changes m n) ≡ n }
    ensures only { (m : EntityMap) (cs : List Change) → AreChanges cs → StartsAt m cs
        → cs ≡ net_changes m (after m cs) }
{}

/// Changes that start where others lead may be composed with them.
pub fn following_changes_fit()
    ensures { (m : EntityMap) (cs ds : List Change) → AreChanges cs → StartsAt (after m cs) ds
        → Follows cs ds }
{}
