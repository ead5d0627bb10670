//! Events of each kind, one after another, and what they leave.
ghost use Rattle.std.specs.Prelude.{◌≡◌, [], ◌∷◌};
ghost use Rattle.pk_model.specs.VertexBodies.{vertex_bodies};
ghost use Rattle.world_core.specs.Session.{journals_of};
ghost use Rattle.world_core.specs.Runs.{EachMayHappen, answers_of, world_after};
ghost use Rattle.world_uses.specs.WorkedWorlds.{small_answers, small_events, small_journal, small_world};
ghost use Rattle.world_uses.specs.WorkedWorlds.{wide_answers, wide_events, wide_journals, wide_world};

/// A claim that is blocked, a draw where no block is left, acts, one that is given up, and a
/// release.
pub fn worked_small_world()
    ensures answers { answers_of vertex_bodies small_world small_events ≡ small_answers }
    ensures journal { journals_of (world_after vertex_bodies small_world small_events)
        ≡ small_journal ∷ [] }
{}

/// Two partitions that draw blocks from one counter, and an act that is refused. Each event may
/// happen when it does.
pub fn worked_wide_world()
    ensures may { EachMayHappen vertex_bodies wide_world wide_events }
    ensures answers { answers_of vertex_bodies wide_world wide_events ≡ wide_answers }
    ensures journals { journals_of (world_after vertex_bodies wide_world wide_events)
        ≡ wide_journals }
    ensures next { (world_after vertex_bodies wide_world wide_events).blocks.next ≡ 4 }
{}
