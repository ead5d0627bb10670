//! The names of the steps, by which the table is told what each of them tells.
ghost use Rattle.session_table.specs.Steps.{made_one, newcomer, joined_by, nobody};
ghost use Rattle.session_table.specs.Tells.{claims, frees, looks, draws, meets};

use crate::naming::Naming;
use crate::view::View;
use atomic_table::{Join, Play, Split};
use std::marker::PhantomData;

pub struct Claims<X> {
    marker: PhantomData<X>,
}

impl<X: Naming> Play<Option<X>, View> for Claims<X> {
    ghost then = { claims X.named };
}

pub struct Frees<X> {
    marker: PhantomData<X>,
}

impl<X: Naming> Play<Option<X>, View> for Frees<X> {
    ghost then = { frees X.named };
}

pub struct Looks;

impl<X> Play<Option<X>, View> for Looks {
    ghost then = { looks };
}

pub struct Draws;

impl<X> Play<Option<X>, View> for Draws {
    ghost then = { draws };
}

pub struct Meets;

impl<X> Play<Option<X>, View> for Meets {
    ghost then = { meets };
}

pub struct Making;

impl Split<View> for Making {
    ghost left = { made_one };

    ghost right = { newcomer };
}

pub struct Joining;

impl Join<View> for Joining {
    ghost both = { joined_by };

    ghost spent = { nobody };
}
