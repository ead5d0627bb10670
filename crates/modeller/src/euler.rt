ghost use Rattle.std.specs.Prelude.{◌≡◌, ◌≤◌, [], IsOk, IsTrue, false};
ghost use Rattle.pk_base.specs.declared.act.Reply.TheVariants.{List as Listed};
ghost use Rattle.entity_store.specs.Modeller.{AddsAtMost};
ghost use Rattle.entity_store.specs.NextTags.{left};
ghost use Rattle.solid_model.specs.Euler.{list_of};
ghost use Rattle.solid_model.specs.Rows.{cost_of, tells};
ghost use Rattle.solid_model.specs.Sound.{IsSound};
ghost use Rattle.solid_calls.specs.Pairs.{HasDone, HasTags, MayDo, Takes, row_on};
ghost use Rattle.modeller.specs.Euler.{euler};
ghost use Rattle.modeller.specs.EulerLaws.{euler-IsModeller};
ghost use Rattle.modeller.specs.StepLimits.{step_limit as the_step_limit};
ghost use Rattle.modeller.specs.Replies.{is_told as the_call_is_told, reply_of as the_reply_of};

use attributes::{drop_do, drop_need, set_do, set_need};
use entity_store::{Modeller, Need, Recorder, Steps, Store, Tags};
use euler_kill::{
    delete_do, delete_need, kef_do, kef_need, kemr_do, kemr_need, kev_do, kev_need, kfmrh_do,
    kfmrh_need, kvfs_do, kvfs_need, ringmove_do, ringmove_need,
};
use euler_make::{
    mef_do, mef_need, mekr_do, mekr_need, mev_do, mev_need, mfkrh_do, mfkrh_need, mvfs_do,
    mvfs_need,
};
use pk_base::{Call, Refusal, Reply, TagListBuilder};
use pk_model::Meaning;
use queries::{
    ask_do, ask_need, bodies_do, bodies_need, counts_do, counts_need, kids_do, kids_need, ring_do,
    ring_need,
};
use solid_make::{block_do, block_need, lamina_do, lamina_need, prism_do, prism_need};
use solid_motion::{move_do, move_need, sweep_do, sweep_need, turn_do, turn_need};
use std::sync::ledger::Ledger;

/// The modeller of the calls on solids.
#[derive(Clone, Copy, Debug, PartialEq, Eq)]
pub struct Euler;

impl Meaning for Euler {
    ghost modelling = { euler };
}

impl Modeller for Euler {
    ghost step_limit = { the_step_limit };

    fn need<L: Ledger>(
        &self,
        store: &Store,
        call: &Call,
        steps: &mut Steps<L>,
    ) -> Result<Need, Refusal> {
        match call {
            Call::Mvfs { at } => mvfs_need(store, *at, steps),
            Call::Mev { end, at } => mev_need(store, *end, *at, steps),
            Call::Mef { from, to } => mef_need(store, *from, *to, steps),
            Call::Mekr { keep, ring } => mekr_need(store, *keep, *ring, steps),
            Call::Mfkrh { ring } => mfkrh_need(store, *ring, steps),
            Call::Kvfs { body } => kvfs_need(store, *body, steps),
            Call::Kev { fin } => kev_need(store, *fin, steps),
            Call::Kef { fin } => kef_need(store, *fin, steps),
            Call::Kemr { fin } => kemr_need(store, *fin, steps),
            Call::Kfmrh { keep, kill } => kfmrh_need(store, *keep, *kill, steps),
            Call::RingMove { ring, to } => ringmove_need(store, *ring, *to, steps),
            Call::Lamina { z, corners } => lamina_need(store, *z, corners.as_slice(), steps),
            Call::Block { at, size } => block_need(store, *at, *size, steps),
            Call::Prism { z, h, corners } => prism_need(store, *z, *h, corners.as_slice(), steps),
            Call::Sweep { face, by } => sweep_need(store, *face, *by, steps),
            Call::Move { body, by } => move_need(store, *body, *by, steps),
            Call::Turn { body, axis, turns } => turn_need(store, *body, *axis, *turns, steps),
            Call::Delete { body } => delete_need(store, *body, steps),
            Call::SetAttr { owner, name, value } => set_need(store, *owner, *name, *value, steps),
            Call::DropAttr { owner, name } => drop_need(store, *owner, *name, steps),
            Call::Ask { tag } => ask_need(store, *tag, steps),
            Call::Kids { tag } => kids_need(store, *tag, steps),
            Call::Ring { ring } => ring_need(store, *ring, steps),
            Call::Counts { body } => counts_need(store, *body, steps),
            Call::Bodies => bodies_need(store, steps),
        }
    }

    fn perform<L: Ledger>(
        &self,
        rec: &mut Recorder<'_>,
        call: &Call,
        tags: &mut Tags<'_>,
        mut out: TagListBuilder,
        steps: &mut Steps<L>,
    ) -> Reply {
        if is_told(call) {
            return tell(rec.view(), call, out, steps);
        }
        carry_out(rec, call, tags, &mut out, steps);
        reply_of(out)
    }

    ghost lawful = { euler-IsModeller };
}

/// Answers a call that asks, with a list made in `out`.
fn tell<L: Ledger>(store: &Store, call: &Call, out: TagListBuilder, steps: &mut Steps<L>) -> Reply
    requires told { IsTrue (the_call_is_told call.now) }
    requires sound { IsSound store.now.state.map }
    requires goes { IsOk (row_on store.now.state.map call.now) }
    requires empty { out.items ≡ [] }
    requires spare { list_of (row_on store.now.state.map call.now) ≤ out.spare }
    ensures { row_on store.now.state.map call.now ≡ tells result }
{
    let mut out = out;
    match call {
        Call::Ask { tag } => Reply::Is(ask_do(store, *tag, steps)),
        Call::Counts { body } => Reply::Counts(counts_do(store, *body, steps)),
        Call::Kids { tag } => {
            kids_do(store, *tag, &mut out, steps);
            reply_with(out)
        }
        Call::Ring { ring } => {
            ring_do(store, *ring, &mut out, steps);
            reply_with(out)
        }
        Call::Bodies => {
            bodies_do(store, &mut out, steps);
            reply_with(out)
        }
        Call::Mvfs { .. }
        | Call::Mev { .. }
        | Call::Mef { .. }
        | Call::Mekr { .. }
        | Call::Mfkrh { .. }
        | Call::Kvfs { .. }
        | Call::Kev { .. }
        | Call::Kef { .. }
        | Call::Kemr { .. }
        | Call::Kfmrh { .. }
        | Call::RingMove { .. }
        | Call::Lamina { .. }
        | Call::Block { .. }
        | Call::Prism { .. }
        | Call::Sweep { .. }
        | Call::Move { .. }
        | Call::Turn { .. }
        | Call::Delete { .. }
        | Call::SetAttr { .. }
        | Call::DropAttr { .. } => unreachable!(),
    }
}

/// The reply to a call that asks for a list.
fn reply_with(out: TagListBuilder) -> Reply
    ensures { result ≡ Listed out.items }
{
    Reply::List(out.finish())
}

/// Whether the call asks, and changes nothing.
fn is_told(call: &Call) -> bool
    ensures { result ≡ the_call_is_told call.now }
{
    match call {
        Call::Ask { .. }
        | Call::Kids { .. }
        | Call::Ring { .. }
        | Call::Counts { .. }
        | Call::Bodies => true,
        Call::Mvfs { .. }
        | Call::Mev { .. }
        | Call::Mef { .. }
        | Call::Mekr { .. }
        | Call::Mfkrh { .. }
        | Call::Kvfs { .. }
        | Call::Kev { .. }
        | Call::Kef { .. }
        | Call::Kemr { .. }
        | Call::Kfmrh { .. }
        | Call::RingMove { .. }
        | Call::Lamina { .. }
        | Call::Block { .. }
        | Call::Prism { .. }
        | Call::Sweep { .. }
        | Call::Move { .. }
        | Call::Turn { .. }
        | Call::Delete { .. }
        | Call::SetAttr { .. }
        | Call::DropAttr { .. } => false,
    }
}

/// Carries a call out that does not only ask, with the next tags, and lists those that it takes.
fn carry_out<L: Ledger>(
    rec: &mut Recorder<'_>,
    call: &Call,
    tags: &mut Tags<'_>,
    out: &mut TagListBuilder,
    steps: &mut Steps<L>,
)
    requires acts { the_call_is_told call.now ≡ false }
    requires may { MayDo rec.old.store.now call.now (left tags.old) }
    requires tags { HasTags rec.old.store.now
        (cost_of (row_on rec.old.store.now.state.map call.now)) tags.old out.old }
    ensures done { HasDone rec.old.store.now call.now (left tags.old) rec.new.store.now }
    ensures takes { Takes (cost_of (row_on rec.old.store.now.state.map call.now))
        tags.old out.old tags.new out.new }
    ensures same_store { rec.new.store.ghost_name ≡ rec.old.store.ghost_name }
    ensures cost { AddsAtMost (the_step_limit call.now) steps.old steps.new }
{
    match call {
        Call::Mvfs { at } => mvfs_do(rec, *at, tags, out, steps),
        Call::Mev { end, at } => mev_do(rec, *end, *at, tags, out, steps),
        Call::Mef { from, to } => mef_do(rec, *from, *to, tags, out, steps),
        Call::Mekr { keep, ring } => mekr_do(rec, *keep, *ring, tags, out, steps),
        Call::Mfkrh { ring } => mfkrh_do(rec, *ring, tags, out, steps),
        Call::Kvfs { body } => kvfs_do(rec, *body, steps),
        Call::Kev { fin } => kev_do(rec, *fin, steps),
        Call::Kef { fin } => kef_do(rec, *fin, steps),
        Call::Kemr { fin } => kemr_do(rec, *fin, tags, out, steps),
        Call::Kfmrh { keep, kill } => kfmrh_do(rec, *keep, *kill, steps),
        Call::RingMove { ring, to } => ringmove_do(rec, *ring, *to, steps),
        Call::Lamina { z, corners } => lamina_do(rec, *z, corners.as_slice(), tags, out, steps),
        Call::Block { at, size } => block_do(rec, *at, *size, tags, out, steps),
        Call::Prism { z, h, corners } => {
            prism_do(rec, *z, *h, corners.as_slice(), tags, out, steps)
        }
        Call::Sweep { face, by } => sweep_do(rec, *face, *by, tags, out, steps),
        Call::Move { body, by } => move_do(rec, *body, *by, steps),
        Call::Turn { body, axis, turns } => turn_do(rec, *body, *axis, *turns, steps),
        Call::Delete { body } => delete_do(rec, *body, steps),
        Call::SetAttr { owner, name, value } => {
            set_do(rec, *owner, *name, *value, tags, out, steps)
        }
        Call::DropAttr { owner, name } => drop_do(rec, *owner, *name, steps),
        Call::Ask { .. }
        | Call::Kids { .. }
        | Call::Ring { .. }
        | Call::Counts { .. }
        | Call::Bodies => unreachable!(),
    }
}

/// The reply to a call that took these tags.
fn reply_of(out: TagListBuilder) -> Reply
    ensures { result ≡ the_reply_of out.items }
{
    if out.as_slice().is_empty() {
        Reply::Done
    } else {
        Reply::Made(out.finish())
    }
}
