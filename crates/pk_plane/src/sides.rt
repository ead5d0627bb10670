ghost use Rattle.std.specs.Prelude.{◌≡◌, ◌^◌, ◌*ℤ◌};
ghost use Rattle.pk_plane.specs.Sizes.{IsWithin, IsPairWithin, reach};
ghost use Rattle.pk_plane.specs.Polygons.{side, dot_from};

use pk_base::Pair;

/// Twice the signed area of the triangle `a`, `b`, `c`: positive where it goes round
/// counter-clockwise, and 0 where the three stand in one line. Their coordinates are from
/// -1,048,576 to 1,048,576; the result is from -2^43 to 2^43.
pub fn side(a: Pair, b: Pair, c: Pair) -> i128
    requires a { IsPairWithin reach a }
    requires b { IsPairWithin reach b }
    requires c { IsPairWithin reach c }
    ensures value { result ≡ side a b c }
    ensures size { IsWithin (2 ^ 43) result }
{
    area(b.x - a.x, c.y - a.y) - area(b.y - a.y, c.x - a.x)
}

/// The scalar product of the vectors from `p` to `a` and from `p` to `b`.
pub(crate) fn dot_from(p: Pair, a: Pair, b: Pair) -> i128
    requires p { IsPairWithin reach p }
    requires a { IsPairWithin reach a }
    requires b { IsPairWithin reach b }
    ensures { result ≡ dot_from p a b }
{
    area(a.x - p.x, b.x - p.x) + area(a.y - p.y, b.y - p.y)
}

/// The product of two differences of coordinates.
fn area(a: i64, b: i64) -> i128
    requires first { IsWithin (2 ^ 21) a }
    requires second { IsWithin (2 ^ 21) b }
    ensures value { result ≡ a *ℤ b }
    ensures size { IsWithin (2 ^ 42) result }
{
    i128::from(a) * i128::from(b)
}
