//! Walks that are counted, and listed in ascending order.
ghost use Rattle.std.specs.Prelude.{◌≡◌, ◌<◌, ◌≤◌, ◌^◌, [], length};
ghost use Rattle.queries.specs.Listing.{Lists};

use entity_store::{KidWalk, Steps};
use pk_base::TagListBuilder;
use std::sync::ledger::Ledger;

/// How many entities the walk gives.
pub(crate) fn count_all<L: Ledger>(walk: KidWalk<'_>, steps: &mut Steps<L>) -> usize
    requires { length walk < 2 ^ 64 }
    ensures { result ≡ length walk.entry }
{
    let mut walk = walk;
    let mut count: usize = 0;
    while let Some(_) = walk.next(steps) {
        count += 1;
    }
    count
}

/// Lists the tags that the walk gives, ascending.
pub(crate) fn list_all<L: Ledger>(walk: KidWalk<'_>, out: &mut TagListBuilder, steps: &mut Steps<L>)
    requires empty { out.old.items ≡ [] }
    requires spare { length walk ≤ out.old.spare }
    ensures { Lists walk.entry out.new.items }
{
    let mut walk = walk;
    while let Some((tag, _)) = walk.next(steps) {
        out.push(tag);
    }
    out.sort();
}
