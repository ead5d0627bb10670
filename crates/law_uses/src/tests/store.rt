//! A store by itself, and the next tags of its one block.
ghost use Rattle.std.specs.Prelude.{◌≡◌, ◌+◌, ◌*◌, IsTrue, IfOk, None, length};
ghost use Rattle.std.specs.List.{AllByRecursion};
ghost use Rattle.std.specs.FinMap as map;
ghost use Rattle.entity_store.specs.NextTags.{left};
ghost use Rattle.solid_model.specs.Sound.{IsSound};
ghost use Rattle.euler_laws.specs.Both.{MayTake};

use entity_store::{Modeller, RecordRoom, Steps, Store, Tags};
use modeller::Euler;
use pk_base::{Call, NoMemory, Reply, TAGS_OF_A_BLOCK, TagListBuilder};
use std::alloc::Global;
use std::process::Abort;
use std::sync::ledger::Ledger;

/// The blocks of each store: the first alone.
const BLOCKS: &[u32] = &[1];

/// The first tag of that block, and how many it has.
pub const FIRST: u32 = TAGS_OF_A_BLOCK;

const TAGS: u64 = TAGS_OF_A_BLOCK as u64;

/// A store with nothing in it.
pub fn begin(alloc: Global) -> Result<Store, NoMemory>
    ensures { IfOk result (λ s. IsSound s.state.map) }
{
    let mut store = Store::new(alloc);
    store.add_block(1)?;
    Ok(store)
}

/// Whether the call is not refused.
pub fn goes<L: Ledger>(store: &Store, call: &Call, steps: &mut Steps<L>) -> bool
    requires { IsSound store.now.state.map }
{
    Euler.need(store, call, steps).is_ok()
}

/// Whether none of these tags is live, of which so many are left.
fn are_free<L: Ledger>(store: &Store, mut tags: Tags<'_>, count: u64, steps: &mut Steps<L>) -> bool
    requires { tags.used + count ≡ 64 * length tags.blocks }
    ensures { IsTrue result
        → AllByRecursion (λ t. map.get store.now.state.map t ≡ None) (left tags.entry) }
{
    for taken in 0..count {
        if store.get(tags.take(), steps).is_some() {
            return false;
        }
    }
    true
}

/// The tags from the first one on, where the call is not refused, and may take so many of them.
pub fn ready<L: Ledger>(
    rt: &impl Abort,
    store: &Store,
    call: &Call,
    first: u32,
    count: u64,
    steps: &mut Steps<L>,
) -> Tags<'static>
    requires { IsSound store.now.state.map }
    ensures { MayTake store.now.state call.now count result }
{
    assert!(rt; first >= FIRST);
    let used = u64::from(first - FIRST);
    assert!(rt; used <= TAGS);
    assert!(rt; count <= TAGS - used);
    assert!(rt; are_free(store, Tags::of(BLOCKS, used), TAGS - used, steps));
    assert_eq!(rt; store.blocks(), BLOCKS);
    let Ok(need) = Euler.need(store, call, steps) else {
        panic!(rt; "{call:?} is refused");
    };
    assert!(rt; need.tags <= count);
    Tags::of(BLOCKS, used)
}

/// Carries a call out, with the tags from the first one on.
pub fn carry_out<L: Ledger>(
    rt: &impl Abort,
    alloc: Global,
    store: &mut Store,
    call: &Call,
    first: u32,
    steps: &mut Steps<L>,
) -> Result<Reply, NoMemory>
    requires { IsSound store.old.state.map }
    ensures { IsSound store.new.state.map }
{
    let Ok(need) = Euler.need(store, call, steps) else {
        panic!(rt; "{call:?} is refused");
    };
    let mut tags = ready(rt, store, call, first, need.tags, steps);
    let out = TagListBuilder::with_room(alloc, need.list)?;
    let room = RecordRoom::new(alloc, need.changes)?;
    let mut rec = store.recorder_with(room);
    Ok(Euler.perform(&mut rec, call, &mut tags, out, steps))
}
