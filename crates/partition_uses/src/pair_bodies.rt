ghost use Rattle.std.specs.Prelude.{◌≡◌, ◌≢◌, ◌+◌, ◌≤◌, ◌++◌, [], ◌∷◌, length, take, IsTrue, None};
ghost use Rattle.std.specs.List.{AllByRecursion};
ghost use Rattle.pk_model.specs.Tags.{owns, tag_at};
ghost use Rattle.entity_store.specs.NextTags.{left};
ghost use Rattle.entity_store.specs.Recording.{room_left};
ghost use Rattle.entity_store.specs.Recorder.{Records};
ghost use Rattle.partition_uses.specs.PairBodies.{pair_bodies, with_pair};
ghost use Rattle.partition_uses.specs.PairBodies.{makes_pair as the_call_makes_a_pair};
ghost use Rattle.partition_uses.specs.PairLaws.{pair_bodies-IsModeller};

use entity_store::{Modeller, Need, Recorder, Steps, Store, Tags};
use pk_base::{Call, Entity, Refusal, Reply, Tag, TagListBuilder};
use pk_model::Meaning;
use std::sync::ledger::Ledger;

/// The smallest modeller. `Mvfs` makes a pair, a body and its shell, wherever its point is. Every
/// other call is refused `NoSuchTag` with tag 0.
#[derive(Clone, Copy, Debug, PartialEq, Eq)]
pub struct PairBodies;

impl Meaning for PairBodies {
    ghost modelling = { pair_bodies };
}

impl Modeller for PairBodies {
    ghost step_limit = { λ _. None };

    fn need<L: Ledger>(
        &self,
        _store: &Store,
        call: &Call,
        _steps: &mut Steps<L>,
    ) -> Result<Need, Refusal> {
        if makes_pair(call) {
            Ok(Need {
                tags: 2,
                changes: 2,
                list: 2,
            })
        } else {
            Err(Refusal::NoSuchTag(Tag(0)))
        }
    }

    fn perform<L: Ledger>(
        &self,
        rec: &mut Recorder<'_>,
        _call: &Call,
        tags: &mut Tags<'_>,
        mut out: TagListBuilder,
        steps: &mut Steps<L>,
    ) -> Reply {
        let body = tags.take();
        let shell = tags.take();
        out.push(body);
        out.push(shell);
        put_pair(rec, body, shell, steps);
        Reply::Made(out.finish())
    }

    ghost lawful = { pair_bodies-IsModeller };
}

/// Puts a body and its shell.
fn put_pair<L: Ledger>(rec: &mut Recorder<'_>, body: Tag, shell: Tag, steps: &mut Steps<L>)
    requires body { IsTrue (owns rec.old.store.now.state.blocks body) }
    requires shell { IsTrue (owns rec.old.store.now.state.blocks shell) }
    requires apart { body ≢ shell }
    requires room { 2 ≤ room_left rec.old.store.now.recording }
    ensures state { rec.new.store.now.state ≡ record rec.old.store.now.state
        { map = with_pair rec.old.store.now.state.map body shell } }
    ensures records { Records 2 rec.old.store.now rec.new.store.now }
    ensures same_store { rec.new.store.ghost_name ≡ rec.old.store.ghost_name }
{
    rec.put(body, Some(Entity::Body { shell }), steps);
    rec.put(shell, Some(Entity::Shell { body, q: 1 }), steps);
}

fn makes_pair(call: &Call) -> bool
    ensures { result ≡ the_call_makes_a_pair call.now }
{
    match call {
        Call::Mvfs { .. } => true,
        Call::Mev { .. }
        | Call::Mef { .. }
        | Call::Mekr { .. }
        | Call::Mfkrh { .. }
        | Call::Kvfs { .. }
        | Call::Kev { .. }
        | Call::Kef { .. }
        | Call::Kemr { .. }
        | Call::Kfmrh { .. }
        | Call::RingMove { .. }
        | Call::Lamina { .. }
        | Call::Block { .. }
        | Call::Prism { .. }
        | Call::Sweep { .. }
        | Call::Move { .. }
        | Call::Turn { .. }
        | Call::Delete { .. }
        | Call::SetAttr { .. }
        | Call::DropAttr { .. }
        | Call::Ask { .. }
        | Call::Kids { .. }
        | Call::Ring { .. }
        | Call::Counts { .. }
        | Call::Bodies => false,
    }
}
