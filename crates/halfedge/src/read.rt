//! What rings are: read, and not changed.
ghost use Rattle.std.specs.Prelude.{◌≡◌, Some, IsSome, length};
ghost use Rattle.solid_model.specs.Rings.{first_tag, from_least};
ghost use Rattle.halfedge.specs.LinkedRings.{IsInRing, next_at, ring_at};

use entity_store::{Recorder, Steps, Store};
use pk_base::{Entity, Tag};
use std::sync::ledger::Ledger;

/// The fin after this one.
pub fn ring_next<L: Ledger>(store: &Store, fin: Tag, steps: &mut Steps<L>) -> Tag
    requires { IsSome (next_at store.now.state.map fin) }
    ensures { next_at store.now.state.map fin ≡ Some result }
{
    let Some(Entity::Fin { next, .. }) = store.get(fin, steps) else {
        unreachable!()
    };
    *next
}

/// How many fins the ring has.
pub fn ring_len<L: Ledger>(store: &Store, fin: Tag, steps: &mut Steps<L>) -> usize
    requires { IsInRing store.now.state.map fin }
    ensures { result ≡ length (ring_at store.now.state.map fin) }
{
    // A ring has no more fins than there are entities.
    let _len = store.len();
    let mut len = 1;
    let mut here = ring_next(store, fin, steps);
    while here != fin {
        here = ring_next(store, here, steps);
        len += 1;
    }
    len
}

/// The fin of the ring with the least tag.
pub fn least_fin<L: Ledger>(rec: &Recorder<'_>, fin: Tag, steps: &mut Steps<L>) -> Tag
    requires { IsInRing rec.now.store.now.state.map fin }
    ensures { first_tag (from_least (ring_at rec.now.store.now.state.map fin)) ≡ Some result }
{
    let store = rec.view();
    let mut least = fin;
    let mut here = ring_next(store, fin, steps);
    while here != fin {
        if here.0 < least.0 {
            least = here;
        }
        here = ring_next(store, here, steps);
    }
    least
}
