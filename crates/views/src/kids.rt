ghost use Rattle.std.specs.Prelude.{◌≡◌, ◌+◌, ◌∷◌, [], filter, length, not, IfSome, IfNone};
ghost use Rattle.views.specs.Kids.{is_but, is_given as the_test, to_give};

use entity_store::{KidWalk, Steps};
use pk_base::{Class, Entity, Tag};
use std::marker::Model;
use std::sync::ledger::Ledger;

/// A walk over the children of an owner that are of one class, without one of them maybe, each once,
/// in an open order. Contracts see the children that are left, and which of them are given.
#[derive(Drop)]
pub struct KidIter<'a> {
    walk: KidWalk<'a>,
    class: Class,
    but: Option<Tag>,
}

impl<'a> Model for KidIter<'a> {
    ghost use Rattle.views.specs.Kids.{KidsView, kids_view_code};

    ghost Value = { KidsView };

    ghost coded = { kids_view_code };

    ghost view = { λ i. record { left = i.walk; class = i.class; but = i.but } };
}

impl<'a> KidIter<'a> {
    /// A walk over what is left of another one: of this class, without this one.
    pub(crate) fn over(walk: KidWalk<'a>, class: Class, but: Option<Tag>) -> KidIter<'a>
        ensures { result ≡ record { left = walk.entry; class = class; but = but } }
    {
        KidIter { walk, class, but }
    }

    /// The next one, with its tag; `None` exactly where each was given. One step for each child of
    /// the owner that it passes, given or not. It takes no memory.
    pub fn next<L: Ledger>(&mut self, steps: &mut Steps<L>) -> Option<(Tag, &'a Entity)>
        ensures some { IfSome result (λ kid.
            to_give self.old ≡ (kid.0, kid.1.now) ∷ to_give self.new) }
        ensures none { IfNone result (to_give self.old ≡ []) }
        ensures ended { IfNone result (to_give self.new ≡ []) }
        ensures cost { steps.new + length self.new.left ≡ steps.old + length self.old.left }
        ensures class { self.new.class ≡ self.old.class }
        ensures but { self.new.but ≡ self.old.but }
    {
        next_given(&mut self.walk, self.class, self.but, steps)
    }
}

/// The next one of the walk that is given: one of this class that is not this one.
fn next_given<'a, L: Ledger>(
    walk: &mut KidWalk<'a>,
    class: Class,
    but: Option<Tag>,
    steps: &mut Steps<L>,
) -> Option<(Tag, &'a Entity)>
    ensures some { IfSome result (λ kid. filter (the_test class but) walk.old
        ≡ (kid.0, kid.1.now) ∷ filter (the_test class but) walk.new) }
    ensures none { IfNone result (filter (the_test class but) walk.old ≡ []) }
    ensures ended { IfNone result (filter (the_test class but) walk.new ≡ []) }
    ensures cost { steps.new + length walk.new ≡ steps.old + length walk.old }
{
    while let Some((tag, kid)) = walk.next(steps) {
        if is_given(class, but, tag, kid) {
            return Some((tag, kid));
        }
    }
    None
}

/// Whether a child is given.
fn is_given(class: Class, but: Option<Tag>, tag: Tag, kid: &Entity) -> bool
    ensures { result ≡ the_test class but (tag, kid.now) }
{
    if kid.class() == class {
        return is_other(but, tag);
    }
    false
}

/// Whether a tag is not this one.
fn is_other(but: Option<Tag>, tag: Tag) -> bool
    ensures { result ≡ not (is_but but tag) }
{
    match but {
        Some(other) => other != tag,
        None => true,
    }
}
