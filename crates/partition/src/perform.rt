ghost use Rattle.std.specs.Prelude.{◌≡◌, ◌*◌, ◌≤◌, length, IfOk};
ghost use Rattle.pk_model.specs.Tags.{next_tags};
ghost use Rattle.pk_model.specs.Maps.{EntityMap, diff};
ghost use Rattle.pk_model.specs.Modelling.{MayBeAsked};
ghost use Rattle.partition.specs.Goes.{Performs};
ghost use Rattle.partition.specs.Unsaved.{IsUnsaved};
ghost use Rattle.partition.specs.Work.{CallsWithin, size};

use crate::unsaved::Unsaved;
use delta::Delta;
use entity_store::{Modeller, RecordRoom, Steps, Store, Tags};
use pk_base::{Call, NoMemory, Refusal, Reply, TAGS_OF_A_BLOCK, TagListBuilder};
use std::alloc::Global;
use std::sync::ledger::Ledger;

/// Has a modeller carry a call out on the store, with the tags of its blocks after the first
/// `used`, and answers how many it took. What changed joins the changes that are unsaved, which
/// lead to what the store has. All memory is taken before the first change. The store and the
/// changes are left as they are by a refusal, and where memory runs out.
pub(crate) fn perform<K: Modeller, L: Ledger>(
    alloc: Global,
    kind: &K,
    store: &mut Store,
    unsaved: &mut Unsaved,
    blocks: &[u32],
    used: u64,
    call: &Call,
    steps: &mut Steps<L>,
) -> Result<Result<(Reply, u64), Refusal>, NoMemory>
    requires asked { MayBeAsked K.modelling store.old.state.map call.now
        (next_tags store.old.state.blocks used) }
    requires blocks { blocks.now ≡ store.old.state.blocks }
    requires within { used ≤ TAGS_OF_A_BLOCK * length store.old.state.blocks }
    ensures performs { Performs K.modelling store.old.state used call.now result store.new.state }
    ensures unsaved { (m : EntityMap) → IsUnsaved m store.old.state.map unsaved.old.changes.entries
        → IsUnsaved m store.new.state.map unsaved.new.changes.entries }
    ensures few { IfOk result (λ _. size (diff store.old.state.map store.new.state.map)
        ≤ K.modelling.changes store.old.state.map call.now) }
    ensures cost { CallsWithin (K.step_limit call.now)
        (K.modelling.changes store.old.state.map call.now) steps.old steps.new }
{
    let need = match kind.need(store, call, steps) {
        Ok(need) => need,
        Err(refusal) => return Ok(Err(refusal)),
    };
    let out = TagListBuilder::with_room(alloc, need.list)?;
    let room = RecordRoom::new(alloc, need.changes)?;
    unsaved.reserve(need.changes)?;
    // Its clauses say that the blocks ascend, which the tags ask for.
    let _blocks = store.blocks();
    let mut tags = Tags::of(blocks, used);
    let mut rec = store.recorder_with(room);
    let reply = kind.perform(&mut rec, call, &mut tags, out, steps);
    let changes = Delta::from_changes(rec.finish(steps));
    unsaved.join(&changes, steps);
    Ok(Ok((reply, need.tags)))
}
