//! What the table has to know of the values that its seats share.
ghost use Rattle.session_table.specs.Named.{Named};

/// A value that stands for a partition.
pub trait Naming: Drop {
    /// Its number, its holder, its blocks and its journal.
    ghost named: { Self → Named };
}
