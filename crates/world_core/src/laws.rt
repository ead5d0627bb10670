//! What holds of worlds over every list of events, for any modeller.
ghost use Rattle.std.specs.Prelude.{◌≡◌, ℕ, ◌≤◌, List, IsSome};
ghost use Rattle.pk_model.specs.Modelling.{IsModeller};
ghost use Rattle.pk_model.specs.Apart.{Apart};
ghost use Rattle.world_core.specs.World.{MayHappen, WorldState, beginning, partition_at, world_step};
ghost use Rattle.world_core.specs.Session.{IsSession, journals_of};
ghost use Rattle.world_core.specs.Runs.{EachMayHappen, ThreadEvent, entries_on, world_after};

use pk_model::{Meaning, journals_are_apart};

/// The step of each event that may happen is defined, in every world that is a session.
pub fn events_that_may_happen_do<K: Meaning>()
    requires { IsModeller K.modelling }
    ensures { (w : WorldState) (x : ThreadEvent) → IsSession K.modelling w
        → MayHappen K.modelling w x.thread x.event
        → IsSome (world_step K.modelling w x.thread x.event) }
{}

/// Over every list of events, each of which may happen when the ones before it have: the world is a
/// session, the journal of each partition has the entries of the events on it, in order, and no tag
/// names two entities.
pub fn worlds_are_sessions<K: Meaning>()
    requires { IsModeller K.modelling }
    ensures session { (n last threads : ℕ) (events : List ThreadEvent) → n ≤ last
        → EachMayHappen K.modelling (beginning n last threads) events
        → IsSession K.modelling (world_after K.modelling (beginning n last threads) events) }
    ensures journals { (n last threads : ℕ) (events : List ThreadEvent) (p : ℕ) → n ≤ last
        → EachMayHappen K.modelling (beginning n last threads) events → 1 ≤ p → p ≤ n
        → (partition_at (world_after K.modelling (beginning n last threads) events) p).journal
        ≡ entries_on K.modelling (beginning n last threads) p events }
    ensures apart { (n last threads : ℕ) (events : List ThreadEvent) → n ≤ last
        → EachMayHappen K.modelling (beginning n last threads) events
        → Apart K.modelling
        (journals_of (world_after K.modelling (beginning n last threads) events)) }
{
    journals_are_apart::<K>();
}
