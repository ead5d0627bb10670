ghost use Rattle.std.specs.Prelude.{◌≡◌};
ghost use Rattle.std.specs.FinMap.{get};
ghost use Rattle.solid_places.specs.Live.{live_or_refused};

use entity_store::{Steps, Store};
use pk_base::{Entity, Refusal, Tag};
use std::sync::ledger::Ledger;

/// The entity under a tag; refused where there is none.
pub(crate) fn live<L: Ledger>(
    store: &Store,
    tag: Tag,
    steps: &mut Steps<L>,
) -> Result<Entity, Refusal>
    ensures { result ≡ live_or_refused tag (get store.now.state.map tag) }
{
    match store.get(tag, steps) {
        Some(entity) => Ok(*entity),
        None => Err(Refusal::NoSuchTag(tag)),
    }
}
