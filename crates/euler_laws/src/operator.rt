ghost use Rattle.std.specs.Prelude.{◌≡◌, ◌<◌, IfOk, OnOk, OnErr, take, length};
ghost use Rattle.pk_model.specs.Tags.{tag_at};
ghost use Rattle.entity_store.specs.NextTags.{left};
ghost use Rattle.solid_model.specs.Rows.{cost_of};
ghost use Rattle.solid_model.specs.Sound.{IsSound};
ghost use Rattle.solid_calls.specs.Pairs.{HasDone, HasTags, MayDo, NeedsAsRow, Takes, row_on};
ghost use Rattle.euler_laws.specs.Both.{MayTake, cost_on, map_after, taken};
ghost use Rattle.euler_laws.specs.Operators.{call_of};

use entity_store::{Need, RecordRoom, Recorder, Steps, Store, Tags};
use euler_kill::{
    kef_do, kef_need, kemr_do, kemr_need, kev_do, kev_need, kfmrh_do, kfmrh_need, kvfs_do,
    kvfs_need,
};
use euler_make::{
    mef_do, mef_need, mekr_do, mekr_need, mev_do, mev_need, mfkrh_do, mfkrh_need, mvfs_do,
    mvfs_need,
};
use pk_base::{NoMemory, Refusal, Tag, TagList, TagListBuilder, Triple};
use std::alloc::Global;
use std::sync::ledger::Ledger;

/// An operator with its operands.
#[derive(Clone, Copy)]
pub(crate) enum Operator {
    Mvfs { at: Triple },
    Mev { end: Tag, at: Triple },
    Mef { from: Tag, to: Tag },
    Mekr { keep: Tag, ring: Tag },
    Mfkrh { ring: Tag },
    Kvfs { body: Tag },
    Kev { fin: Tag },
    Kef { fin: Tag },
    Kemr { fin: Tag },
    Kfmrh { keep: Tag, kill: Tag },
}

/// Carries out an operator that is not refused, and answers the tags that it took. All memory is
/// taken before the first change: without it nothing has changed.
pub(crate) fn carry_out<L: Ledger>(
    alloc: Global,
    store: &mut Store,
    operator: Operator,
    tags: &mut Tags<'_>,
    steps: &mut Steps<L>,
) -> Result<TagList, NoMemory>
    requires { MayTake store.old.state (call_of operator)
        (cost_on store.old.state.map (call_of operator)) tags.old }
    ensures state { OnOk result (store.new.state ≡ record store.old.state {
      map = map_after store.old.state.map (call_of operator) (left tags.old);
    }) }
    ensures sound { IsSound store.new.state.map }
    ensures tags { OnOk result
        (tags.new ≡ taken (cost_on store.old.state.map (call_of operator)) tags.old) }
    ensures made { IfOk result (λ made.
        made ≡ take (cost_on store.old.state.map (call_of operator)) (left tags.old)) }
    ensures err_state { OnErr result (store.new.state ≡ store.old.state) }
    ensures err_tags { OnErr result (tags.new ≡ tags.old) }
{
    let Ok(need) = need_of(store, operator, steps) else {
        unreachable!()
    };
    let mut out = TagListBuilder::with_room(alloc, need.list)?;
    let room = RecordRoom::new(alloc, need.changes)?;
    let mut rec = store.recorder_with(room);
    perform(&mut rec, operator, tags, &mut out, steps);
    Ok(out.finish())
}

/// What the operator needs, or why it is refused. It takes no memory.
fn need_of<L: Ledger>(
    store: &Store,
    operator: Operator,
    steps: &mut Steps<L>,
) -> Result<Need, Refusal>
    requires { IsSound store.now.state.map }
    ensures { NeedsAsRow store.now.state.map (call_of operator) result }
{
    match operator {
        Operator::Mvfs { at } => mvfs_need(store, at, steps),
        Operator::Mev { end, at } => mev_need(store, end, at, steps),
        Operator::Mef { from, to } => mef_need(store, from, to, steps),
        Operator::Mekr { keep, ring } => mekr_need(store, keep, ring, steps),
        Operator::Mfkrh { ring } => mfkrh_need(store, ring, steps),
        Operator::Kvfs { body } => kvfs_need(store, body, steps),
        Operator::Kev { fin } => kev_need(store, fin, steps),
        Operator::Kef { fin } => kef_need(store, fin, steps),
        Operator::Kemr { fin } => kemr_need(store, fin, steps),
        Operator::Kfmrh { keep, kill } => kfmrh_need(store, keep, kill, steps),
    }
}

/// Does what the operator does, with the next tags, and lists those that it takes. It takes no
/// memory.
fn perform<L: Ledger>(
    rec: &mut Recorder<'_>,
    operator: Operator,
    tags: &mut Tags<'_>,
    out: &mut TagListBuilder,
    steps: &mut Steps<L>,
)
    requires may { MayDo rec.old.store.now (call_of operator) (left tags.old) }
    requires tags { HasTags rec.old.store.now
        (cost_of (row_on rec.old.store.now.state.map (call_of operator))) tags.old out.old }
    ensures done { HasDone rec.old.store.now (call_of operator) (left tags.old)
        rec.new.store.now }
    ensures takes { Takes (cost_of (row_on rec.old.store.now.state.map (call_of operator)))
        tags.old out.old tags.new out.new }
    ensures same_store { rec.new.store.ghost_name ≡ rec.old.store.ghost_name }
{
    match operator {
        Operator::Mvfs { at } => mvfs_do(rec, at, tags, out, steps),
        Operator::Mev { end, at } => mev_do(rec, end, at, tags, out, steps),
        Operator::Mef { from, to } => mef_do(rec, from, to, tags, out, steps),
        Operator::Mekr { keep, ring } => mekr_do(rec, keep, ring, tags, out, steps),
        Operator::Mfkrh { ring } => mfkrh_do(rec, ring, tags, out, steps),
        Operator::Kvfs { body } => kvfs_do(rec, body, steps),
        Operator::Kev { fin } => kev_do(rec, fin, steps),
        Operator::Kef { fin } => kef_do(rec, fin, steps),
        Operator::Kemr { fin } => kemr_do(rec, fin, tags, out, steps),
        Operator::Kfmrh { keep, kill } => kfmrh_do(rec, keep, kill, steps),
    }
}

/// A tag of those that an operator took.
pub(crate) fn nth(made: &TagList, place: usize) -> Tag
    requires { place < length made.now }
    ensures { result ≡ tag_at made.now place }
{
    made.as_slice()[place]
}
