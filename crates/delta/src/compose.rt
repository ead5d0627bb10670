//! Two deltas as one.
ghost use Rattle.std.specs.Prelude.{◌≡◌, ◌+◌, ◌*◌, ◌^◌, ◌<◌, ◌≤◌, [], ◌∷◌, ◌++◌, List, drop, length, slice_get, IfOk};
ghost use Rattle.std.specs.List.{cons_option};
ghost use Rattle.pk_model.specs.Maps.{EntityMap};
ghost use Rattle.entity_store.specs.Changes.{AreChanges, net_changes, same_value};
ghost use Rattle.entity_store.specs.declared.changes.Change.{Change};
ghost use Rattle.delta.specs.Deltas.{Follows, StartsAt, after};
ghost use Rattle.delta.specs.Composed.{composed, joined, ComesNext};

use crate::Delta;
use entity_store::{Change, ChangeListBuilder, Steps};
use pk_base::{Entity, NoMemory};
use std::alloc::Global;
use std::sync::ledger::Ledger;

/// How many changes were taken of each of two lists that are being merged.
#[derive(Clone, Copy)]
struct Taken {
    first: usize,
    second: usize,
}

/// What a tag that comes next in two lists becomes, and how many changes of each list have it.
#[derive(Clone, Copy)]
struct Next {
    change: Option<Change>,
    first: usize,
    second: usize,
}

impl Delta {
    /// The delta from where the first begins to where the second ends, which begins where the first
    /// ends. A tag that comes back to what it was is not in it. At most two steps for each change
    /// of both.
    pub fn compose<L: Ledger>(
        alloc: Global,
        a: &Delta,
        b: &Delta,
        steps: &mut Steps<L>,
    ) -> Result<Delta, NoMemory>
        requires { Follows a.now b.now }
        ensures merged { IfOk result (λ d. d ≡ composed a.now b.now) }
        // From whatever map both lead, it is the net change to where they lead.
        ensures net { IfOk result (λ d. (m : EntityMap) → StartsAt m a.now
            → StartsAt (after m a.now) b.now → d ≡ net_changes m (after (after m a.now) b.now)) }
        ensures cost { steps.new ≤ steps.old + 2 * (length a.now + length b.now) }
    {
        // More changes than are counted here are more than memory holds.
        let most = a.len().checked_add(b.len()).ok_or(NoMemory)?;
        let out = ChangeListBuilder::with_room(alloc, most)?;
        Ok(Delta::compose_within(out, a, b, steps))
    }

    /// The same delta, made in an empty list with room for all changes of both. It takes no memory.
    pub fn compose_within<L: Ledger>(
        mut out: ChangeListBuilder,
        a: &Delta,
        b: &Delta,
        steps: &mut Steps<L>,
    ) -> Delta
        requires follows { Follows a.now b.now }
        requires empty { out.items ≡ [] }
        requires room { length a.now + length b.now ≤ out.spare }
        requires fits { length a.now + length b.now < 2 ^ 64 }
        ensures merged { result ≡ composed a.now b.now }
        // From whatever map both lead, it is the net change to where they lead.
        ensures net { (m : EntityMap) → StartsAt m a.now → StartsAt (after m a.now) b.now
            → result ≡ net_changes m (after (after m a.now) b.now) }
        ensures cost { steps.new ≤ steps.old + 2 * (length a.now + length b.now) }
    {
        let most = a.len() + b.len();
        let mut taken = Taken {
            first: 0,
            second: 0,
        };
        while taken.first + taken.second < most {
            taken = take_next(a, b, taken, &mut out, steps);
        }
        Delta::from_changes(out.finish())
    }
}

/// Takes what both lists have of the tag that comes next, and adds what becomes of it.
fn take_next<L: Ledger>(
    a: &Delta,
    b: &Delta,
    taken: Taken,
    out: &mut ChangeListBuilder,
    steps: &mut Steps<L>,
) -> Taken
    requires fits { length a.now + length b.now < 2 ^ 64 }
    requires more { taken.first + taken.second < length a.now + length b.now }
    requires first { taken.first ≤ length a.now }
    requires second { taken.second ≤ length b.now }
    requires changes { AreChanges
        (out.old.items ++ composed (drop taken.first a.now) (drop taken.second b.now)) }
    requires room { 0 < out.old.spare }
    ensures items { out.new.items ++ composed (drop result.first a.now) (drop result.second b.now)
        ≡ out.old.items ++ composed (drop taken.first a.now) (drop taken.second b.now) }
    ensures spare { out.old.spare ≤ out.new.spare + 1 }
    ensures further { taken.first + taken.second < result.first + result.second }
    ensures first { result.first ≤ length a.now }
    ensures second { result.second ≤ length b.now }
    ensures cost { steps.new ≤ steps.old + 2 }
{
    let next = next_at(a, b, taken, steps);
    add(out, next.change);
    Taken {
        first: taken.first + next.first,
        second: taken.second + next.second,
    }
}

/// What comes next of two lists behind what was taken. At most two steps.
fn next_at<L: Ledger>(a: &Delta, b: &Delta, taken: Taken, steps: &mut Steps<L>) -> Next
    ensures next { ComesNext (drop taken.first a.now) (drop taken.second b.now)
        result.change result.first result.second }
    ensures cost { steps.new ≤ steps.old + 2 }
{
    let first = change_at(a, taken.first, steps);
    let second = change_at(b, taken.second, steps);
    next_of(first, second)
}

/// Adds the change at the end, if there is one. It takes no memory.
fn add(out: &mut ChangeListBuilder, change: Option<Change>)
    requires changes { AreChanges (out.old.items ++ cons_option change []) }
    requires room { 0 < out.old.spare }
    ensures items { out.new.items ≡ out.old.items ++ cons_option change [] }
    ensures spare { out.old.spare ≤ out.new.spare + 1 }
{
    if let Some(change) = change {
        out.push(change);
    }
}

/// The change at a place, if there is one. At most one step.
fn change_at<L: Ledger>(delta: &Delta, i: usize, steps: &mut Steps<L>) -> Option<Change>
    ensures value { result ≡ slice_get delta.now i }
    ensures cost { steps.new ≤ steps.old + 1 }
{
    if i < delta.len() {
        Some(*delta.entry(i, steps))
    } else {
        None
    }
}

/// What comes next of two lists with these first changes.
fn next_of(first: Option<Change>, second: Option<Change>) -> Next
    ensures { (cs ds : List Change) → slice_get cs 0 ≡ first → slice_get ds 0 ≡ second
        → ComesNext cs ds result.change result.first result.second }
{
    match (first, second) {
        (Some(c), Some(d)) => next_of_both(c, d),
        (Some(c), None) => Next {
            change: Some(c),
            first: 1,
            second: 0,
        },
        (None, Some(d)) => Next {
            change: Some(d),
            first: 0,
            second: 1,
        },
        (None, None) => Next {
            change: None,
            first: 0,
            second: 0,
        },
    }
}

/// The same where both lists have a first change.
fn next_of_both(c: Change, d: Change) -> Next
    ensures { (cs ds : List Change)
        → ComesNext (c ∷ cs) (d ∷ ds) result.change result.first result.second }
{
    if c.tag.0 < d.tag.0 {
        Next {
            change: Some(c),
            first: 1,
            second: 0,
        }
    } else if d.tag.0 < c.tag.0 {
        Next {
            change: Some(d),
            first: 0,
            second: 1,
        }
    } else {
        Next {
            change: join(c, d),
            first: 1,
            second: 1,
        }
    }
}

/// The change that two of one tag make. There is none where the tag comes back.
fn join(c: Change, d: Change) -> Option<Change>
    ensures { result ≡ joined c d }
{
    if is_same(&c.before, &d.after) {
        None
    } else {
        Some(Change {
            tag: c.tag,
            before: c.before,
            after: d.after,
        })
    }
}

fn is_same(a: &Option<Entity>, b: &Option<Entity>) -> bool
    ensures { result ≡ same_value a.now b.now }
{
    match (a, b) {
        (Some(a), Some(b)) => a.is_same(b),
        (None, None) => true,
        (Some(_), None) | (None, Some(_)) => false,
    }
}
