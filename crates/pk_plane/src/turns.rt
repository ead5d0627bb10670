ghost use Rattle.std.specs.Prelude.{◌≡◌, ◌≤◌};
ghost use Rattle.pk_plane.specs.Sizes.{IsPointWithin, reach};
ghost use Rattle.pk_plane.specs.Turns.{quarter, quarters};

use pk_base::{Axis, Point};

/// The point after so many quarter turns about the axis, each counter-clockwise as seen from the
/// axis's positive end: one about z takes (x, y, z) to (-y, x, z), one about x to (x, -z, y), and
/// one about y to (z, y, -x). There are 1 to 3 turns; the coordinates are from -1,048,576 to
/// 1,048,576, and so are those of the result.
pub fn quarter(axis: Axis, turns: u8, p: Point) -> Point
    requires least { 1 ≤ turns }
    requires most { turns ≤ 3 }
    requires placed { IsPointWithin reach p }
    ensures value { result ≡ quarters turns axis p }
    ensures placed { IsPointWithin reach result }
{
    let mut at = p;
    for _ in 0..turns {
        at = turn(axis, at);
    }
    at
}

/// The point after one quarter turn about the axis.
fn turn(axis: Axis, p: Point) -> Point
    requires { IsPointWithin reach p }
    ensures value { result ≡ quarter axis p }
    ensures placed { IsPointWithin reach result }
{
    let Point { x, y, z } = p;
    match axis {
        Axis::X => Point { x, y: -z, z: y },
        Axis::Y => Point { x: z, y, z: -x },
        Axis::Z => Point { x: -y, y: x, z },
    }
}
