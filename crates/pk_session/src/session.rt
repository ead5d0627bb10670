//! The session.
use crate::kept::Kept;
use entity_store::Modeller;
use session_table::SessionTable;
use std::alloc::Global;
use std::marker::Model;

/// Partitions that threads share, for any modeller. Contracts see its name, by which seats and held
/// partitions are told to be of it, and which has its bounds.
#[derive(Drop)]
pub struct Session<K: Modeller> {
    pub(crate) table: SessionTable<Kept<K>>,
    pub(crate) alloc: Global,
    pub(crate) partitions: u32,
}

impl<K: Modeller> Model for Session<K> {
    ghost use Rattle.std.specs.Prelude.{◌≡◌};
    ghost use Rattle.session_table.specs.Names.{SessionName, name_code};

    ghost Value = { SessionName };

    ghost coded = { name_code };

    ghost use Rattle.session_table.specs.Faces.{name_of, bounds_of};
    ghost use Rattle.pk_session.specs.Inside.{IsWithin};

    ghost view = { λ s. name_of s.table };

    ghost invariant = { λ s. IsWithin (bounds_of s.table)
        × (s.partitions ≡ (bounds_of s.table).partitions) };
}
