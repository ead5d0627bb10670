ghost use Rattle.std.specs.Prelude.{Some};
ghost use Rattle.session_uses.specs.NoBodies.{no_bodies, no_bodies-IsModeller};

use entity_store::{Modeller, Need, Recorder, Steps, Store, Tags};
use pk_base::{Call, Refusal, Reply, TagListBuilder};
use pk_model::Meaning;
use std::sync::ledger::Ledger;

/// A modeller without bodies: it does every call, which changes nothing. Marks alone take tags.
#[derive(Clone, Copy, Debug, PartialEq, Eq)]
pub struct NoBodies;

impl Meaning for NoBodies {
    ghost modelling = { no_bodies };
}

impl Modeller for NoBodies {
    ghost step_limit = { λ _. Some 0 };

    fn need<L: Ledger>(
        &self,
        _store: &Store,
        _call: &Call,
        _steps: &mut Steps<L>,
    ) -> Result<Need, Refusal> {
        Ok(Need {
            tags: 0,
            changes: 0,
            list: 0,
        })
    }

    fn perform<L: Ledger>(
        &self,
        _rec: &mut Recorder<'_>,
        _call: &Call,
        _tags: &mut Tags<'_>,
        _out: TagListBuilder,
        _steps: &mut Steps<L>,
    ) -> Reply {
        Reply::Done
    }

    ghost lawful = { no_bodies-IsModeller };
}
