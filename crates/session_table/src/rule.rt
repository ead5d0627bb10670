//! The rule of the table, and the names of its steps.
ghost use Rattle.session_table.specs.Seats.{root};
ghost use Rattle.session_table.specs.Rule.{Rule};

use crate::naming::Naming;
use crate::view::{Bounds, View};
use atomic_table::TableRule;
use std::marker::PhantomData;

pub struct Shares<X> {
    marker: PhantomData<X>,
}

impl<X: Naming> TableRule<Option<X>, View, Bounds> for Shares<X> {
    ghost holds = { λ bounds. Rule X.named bounds };

    ghost first = { root };
}
