//! A partition as it lies in a slot of the table.
use entity_store::Modeller;
use partition::Partition;
use session_table::Naming;
use std::marker::Model;

/// A partition in a slot. Contracts see the partition.
#[derive(Drop)]
pub(crate) struct Kept<K: Modeller> {
    pub(crate) partition: Partition<K>,
}

impl<K: Modeller> Model for Kept<K> {
    ghost use Rattle.partition.specs.Partition.{PartitionView, view_code};

    ghost Value = { PartitionView };

    ghost coded = { view_code };

    ghost view = { λ k. k.partition };
}

impl<K: Modeller> Naming for Kept<K> {
    ghost use Rattle.pk_session.specs.Inside.{named_of};

    ghost named = { named_of };
}
