//! All bodies.
ghost use Rattle.std.specs.Prelude.{◌≡◌, ◌≤◌, []};
ghost use Rattle.pk_base.specs.declared.act.Reply.TheVariants.{List as Listed};
ghost use Rattle.pk_base.specs.declared.call.Call.TheVariants.{Bodies};
ghost use Rattle.solid_model.specs.Euler.{list_of};
ghost use Rattle.solid_model.specs.Rows.{tells};
ghost use Rattle.solid_model.specs.Sound.{IsSound};
ghost use Rattle.solid_calls.specs.Pairs.{NeedsAsRow, row_on};

use crate::listing::{count_all, list_all};
use entity_store::{Need, Steps, Store};
use pk_base::{Refusal, TagListBuilder};
use std::sync::ledger::Ledger;

/// What `bodies_do` needs. It is never refused, and takes no memory.
pub fn bodies_need<L: Ledger>(store: &Store, steps: &mut Steps<L>) -> Result<Need, Refusal>
    requires { IsSound store.now.state.map }
    ensures { NeedsAsRow store.now.state.map Bodies result }
{
    // Its clauses say that the blocks own the tag of each entity, so there are few.
    let _blocks = store.blocks();
    let walk = store.roots();
    let list = count_all(walk, steps);
    Ok(Need {
        tags: 0,
        changes: 0,
        list,
    })
}

/// Lists in `out`, which is empty, all live bodies, ascending by their tags.
pub fn bodies_do<L: Ledger>(store: &Store, out: &mut TagListBuilder, steps: &mut Steps<L>)
    requires sound { IsSound store.now.state.map }
    requires empty { out.old.items ≡ [] }
    requires spare { list_of (row_on store.now.state.map Bodies) ≤ out.old.spare }
    ensures { row_on store.now.state.map Bodies ≡ tells (Listed out.new.items) }
{
    let walk = store.roots();
    list_all(walk, out, steps);
}
