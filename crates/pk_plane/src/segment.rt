ghost use Rattle.std.specs.Prelude.{◌≡◌};
ghost use Rattle.pk_plane.specs.Sizes.{IsPairWithin, reach};
ghost use Rattle.pk_plane.specs.Polygons.{IsPlaced, is_on, is_parted_by, meet, overlap_from};

use crate::side;
use crate::sides::dot_from;
use pk_base::Pair;

/// A closed segment of the plane, both ends included. The coordinates of its ends are from
/// -1,048,576 to 1,048,576.
#[derive(Clone, Copy)]
pub(crate) struct Segment {
    pub(crate) start: Pair,
    pub(crate) end: Pair,
}

/// Whether the point stands on the segment.
fn is_on(s: Segment, p: Pair) -> bool
    requires s { IsPlaced s }
    requires p { IsPairWithin reach p }
    ensures { result ≡ is_on s p }
{
    side(s.start, s.end, p) == 0 && dot_from(p, s.start, s.end) <= 0
}

/// Whether the ends of `t` stand strictly on both sides of the line of `s`.
fn is_parted_by(s: Segment, t: Segment) -> bool
    requires s { IsPlaced s }
    requires t { IsPlaced t }
    ensures { result ≡ is_parted_by s t }
{
    side(s.start, s.end, t.start) * side(s.start, s.end, t.end) < 0
}

/// Whether the two have a point in common: an end of one stands on the other, or each parts the
/// ends of the other.
pub(crate) fn meet(s: Segment, t: Segment) -> bool
    requires s { IsPlaced s }
    requires t { IsPlaced t }
    ensures { result ≡ meet s t }
{
    is_on(s, t.start)
        || is_on(s, t.end)
        || is_on(t, s.start)
        || is_on(t, s.end)
        || (is_parted_by(s, t) && is_parted_by(t, s))
}

/// Whether the segments from `p` to `a` and from `p` to `b` have another point in common than `p`:
/// they lead the same way.
pub(crate) fn overlap_from(p: Pair, a: Pair, b: Pair) -> bool
    requires p { IsPairWithin reach p }
    requires a { IsPairWithin reach a }
    requires b { IsPairWithin reach b }
    ensures { result ≡ overlap_from p a b }
{
    side(p, a, b) == 0 && dot_from(p, a, b) > 0
}
