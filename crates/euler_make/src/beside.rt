//! The fins beside a new edge.
ghost use Rattle.std.specs.Prelude.{◌≡◌, MatchOption};

use pk_base::Tag;

/// How many fins of a ring stand beside an edge that is made where this fin starts: the first and
/// the last from it on, or none where there is no ring.
pub(crate) fn number_beside(ring: Option<Tag>) -> usize
    ensures { MatchOption ring (result ≡ 0) (λ fin. result ≡ 2) }
{
    match ring {
        Some(_) => 2,
        None => 0,
    }
}
