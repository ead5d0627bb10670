//! What is asked about solids, and the answers, read from the entities by hand.
use super::check::{Solids, count_fins_of, counted};
use super::dice::{Wanted, is_wanted};
use super::reading::{class_at, fin_at, loop_at};
use entity_store::{Steps, Store};
use pk_base::{Call, Class, Fault, Refusal, Reply, Tag};
use std::process::Abort;
use std::sync::ledger::Ledger;

/// A call that changes nothing.
#[derive(Clone, Copy, Debug)]
pub enum Query {
    Ask(Tag),
    Kids(Tag),
    Ring(Tag),
    Counts(Tag),
    Bodies,
}

/// The query that a call is, where it is one.
pub fn query_of(call: &Call) -> Option<Query> {
    match call {
        Call::Ask { tag } => Some(Query::Ask(*tag)),
        Call::Kids { tag } => Some(Query::Kids(*tag)),
        Call::Ring { ring } => Some(Query::Ring(*ring)),
        Call::Counts { body } => Some(Query::Counts(*body)),
        Call::Bodies => Some(Query::Bodies),
        Call::Mvfs { .. }
        | Call::Mev { .. }
        | Call::Mef { .. }
        | Call::Mekr { .. }
        | Call::Mfkrh { .. }
        | Call::Kvfs { .. }
        | Call::Kev { .. }
        | Call::Kef { .. }
        | Call::Kemr { .. }
        | Call::Kfmrh { .. }
        | Call::RingMove { .. }
        | Call::Lamina { .. }
        | Call::Block { .. }
        | Call::Prism { .. }
        | Call::Sweep { .. }
        | Call::Move { .. }
        | Call::Turn { .. }
        | Call::Delete { .. }
        | Call::SetAttr { .. }
        | Call::DropAttr { .. } => None,
    }
}

/// The query was answered as the entities say.
pub fn check_answer<L: Ledger>(
    rt: &impl Abort,
    solids: Solids<'_>,
    query: Query,
    answer: &Result<Reply, Fault>,
    steps: &mut Steps<L>,
) {
    let right = match query {
        Query::Ask(tag) => is_entity(solids, tag, answer, steps),
        Query::Kids(tag) => is_kids(solids, tag, answer, steps),
        Query::Ring(ring) => is_ring(solids, ring, answer, steps),
        Query::Counts(body) => is_counts(solids, body, answer, steps),
        Query::Bodies => is_list(solids, Wanted::Of(Class::Body), answer, steps),
    };
    assert!(rt; right, "{query:?} has another answer");
}

/// Why a call is refused whose operand is to be live, and of this class where there is one.
fn why_refused<L: Ledger>(
    store: &Store,
    tag: Tag,
    class: Option<Class>,
    steps: &mut Steps<L>,
) -> Option<Refusal> {
    let Some(found) = class_at(store, tag, steps) else {
        return Some(Refusal::NoSuchTag(tag));
    };
    if class.is_some_and(|class| class != found) {
        return Some(Refusal::WrongClass(tag, found));
    }
    None
}

/// Whether the call was refused so.
fn is_refused(answer: &Result<Reply, Fault>, expected: Refusal) -> bool {
    let Err(Fault::Refused(refusal)) = answer else {
        return false;
    };
    *refusal == expected
}

fn is_entity<L: Ledger>(
    solids: Solids<'_>,
    asked: Tag,
    answer: &Result<Reply, Fault>,
    steps: &mut Steps<L>,
) -> bool {
    if let Some(refusal) = why_refused(solids.store, asked, None, steps) {
        return is_refused(answer, refusal);
    }
    let Ok(Reply::Is(given)) = answer else {
        return false;
    };
    for (tag, entity) in solids.live {
        if *tag == asked {
            return *given == *entity;
        }
    }
    false
}

/// Whether the answer lists just those that are wanted, ascending.
fn is_list<L: Ledger>(
    solids: Solids<'_>,
    wanted: Wanted,
    answer: &Result<Reply, Fault>,
    steps: &mut Steps<L>,
) -> bool {
    let Ok(Reply::List(list)) = answer else {
        return false;
    };
    let listed = list.as_slice();
    let mut place = 0usize;
    for (tag, entity) in solids.live {
        if is_wanted(solids.store, wanted, *tag, entity, steps) {
            if listed.get(place).copied() != Some(*tag) {
                return false;
            }
            place = place.saturating_add(1);
        }
    }
    place == listed.len()
}

fn is_kids<L: Ledger>(
    solids: Solids<'_>,
    owner: Tag,
    answer: &Result<Reply, Fault>,
    steps: &mut Steps<L>,
) -> bool {
    match why_refused(solids.store, owner, None, steps) {
        Some(refusal) => is_refused(answer, refusal),
        None => is_list(solids, Wanted::OwnedBy(owner), answer, steps),
    }
}

fn is_ring<L: Ledger>(
    solids: Solids<'_>,
    ring: Tag,
    answer: &Result<Reply, Fault>,
    steps: &mut Steps<L>,
) -> bool {
    if let Some(refusal) = why_refused(solids.store, ring, Some(Class::Loop), steps) {
        return is_refused(answer, refusal);
    }
    let Ok(Reply::List(fins)) = answer else {
        return false;
    };
    let fins = fins.as_slice();
    let first = loop_at(solids.store, ring, steps).and_then(|ring| ring.1);
    fins.len() == count_fins_of(solids.live, ring) as usize
        && fins.first().copied() == first
        && follow_each_other(solids.store, fins, steps)
}

/// Whether each fin but the first comes after the one before it.
fn follow_each_other<L: Ledger>(store: &Store, fins: &[Tag], steps: &mut Steps<L>) -> bool {
    let mut after = fins.first().copied();
    for fin in fins {
        if after != Some(*fin) {
            return false;
        }
        after = fin_at(store, *fin, steps).map(|fin| fin.next);
    }
    true
}

fn is_counts<L: Ledger>(
    solids: Solids<'_>,
    body: Tag,
    answer: &Result<Reply, Fault>,
    steps: &mut Steps<L>,
) -> bool {
    if let Some(refusal) = why_refused(solids.store, body, Some(Class::Body), steps) {
        return is_refused(answer, refusal);
    }
    let Ok(Reply::Counts(given)) = answer else {
        return false;
    };
    counted(solids, body, steps) == Some(*given)
}
