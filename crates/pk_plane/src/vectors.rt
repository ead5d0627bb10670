ghost use Rattle.std.specs.Prelude.{◌≡◌, ◌^◌, ◌*ℤ◌};
ghost use Rattle.pk_plane.specs.Sizes.{IsWithin, IsTripleWithin};
ghost use Rattle.pk_plane.specs.Vectors.{vector, cross, dot};

use pk_base::Point;

/// The vector product of two points, each taken as a vector from the origin: `(x, y, z)` with
/// `x = p.y q.z - p.z q.y`, and so on round. It is exact for all points.
pub fn cross(p: Point, q: Point) -> (i128, i128, i128)
    ensures x { result.0 ≡ (cross p q).x }
    ensures y { result.1 ≡ (cross p q).y }
    ensures z { result.2 ≡ (cross p q).z }
{
    let x = product(p.y, q.z) - product(p.z, q.y);
    let y = product(p.z, q.x) - product(p.x, q.z);
    let z = product(p.x, q.y) - product(p.y, q.x);
    (x, y, z)
}

/// The product of two coordinates, which fits.
fn product(a: i32, b: i32) -> i128
    ensures value { result ≡ a *ℤ b }
    ensures size { IsWithin (2 ^ 62) result }
{
    i128::from(a) * i128::from(b)
}

/// The scalar product of two vectors, exactly. Each part of `a` is from -2^70 to 2^70, and each
/// part of `d` from -2^21 to 2^21.
pub fn dot(a: (i128, i128, i128), d: (i128, i128, i128)) -> i128
    requires first { IsTripleWithin (2 ^ 70) (vector a.0 a.1 a.2) }
    requires second { IsTripleWithin (2 ^ 21) (vector d.0 d.1 d.2) }
    ensures { result ≡ dot (vector a.0 a.1 a.2) (vector d.0 d.1 d.2) }
{
    scaled(a.0, d.0) + scaled(a.1, d.1) + scaled(a.2, d.2)
}

/// The product of a number from -2^70 to 2^70 and one from -2^21 to 2^21.
fn scaled(a: i128, d: i128) -> i128
    requires first { IsWithin (2 ^ 70) a }
    requires second { IsWithin (2 ^ 21) d }
    ensures value { result ≡ a *ℤ d }
    ensures size { IsWithin (2 ^ 91) result }
{
    a * d
}
