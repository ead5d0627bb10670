//! Points and vectors of three numbers: whether they are in range, and their sums.
ghost use Rattle.std.specs.Prelude.{◌≡◌, ◌+ℤ◌, IsTrue, find, not};
ghost use Rattle.pk_plane.specs.Turns.{moved as the_moved};
ghost use Rattle.solid_model.specs.Ranges.{is_component, is_coordinate, numbers_of, point_of as the_point_of};
ghost use Rattle.solid_places.specs.Points.{AreComponents, AreCoordinates};

use pk_base::{Point, Triple};

/// The greatest coordinate of a point; the least is its negative.
const MOST_COORDINATE: i64 = 1_048_576;

/// The greatest component of a vector; the least is its negative.
const MOST_COMPONENT: i64 = 2_097_152;

/// The first of the three that is no coordinate.
pub fn outside(at: Triple) -> Option<i64>
    ensures { result ≡ find (λ v. not (is_coordinate v)) (numbers_of at) }
{
    if is_outside(at.x) {
        return Some(at.x);
    }
    if is_outside(at.y) {
        return Some(at.y);
    }
    if is_outside(at.z) {
        return Some(at.z);
    }
    None
}

/// The first of the three that is no component of a vector.
pub fn too_far(by: Triple) -> Option<i64>
    ensures { result ≡ find (λ v. not (is_component v)) (numbers_of by) }
{
    if is_too_far(by.x) {
        return Some(by.x);
    }
    if is_too_far(by.y) {
        return Some(by.y);
    }
    if is_too_far(by.z) {
        return Some(by.z);
    }
    None
}

/// The point of three coordinates.
pub fn point_of(at: Triple) -> Point
    requires { AreCoordinates (the_point_of at) }
    ensures { result ≡ the_point_of at }
{
    Point {
        x: at.x as i32,
        y: at.y as i32,
        z: at.z as i32,
    }
}

/// The sums of a vector and a point, each of which may be no coordinate.
pub fn moved(by: Triple, point: Point) -> Triple
    requires { AreComponents by }
    ensures { the_point_of result ≡ the_moved by point }
{
    Triple {
        x: sum(by.x, point.x),
        y: sum(by.y, point.y),
        z: sum(by.z, point.z),
    }
}

/// The sum of a component of a vector and one of a point's numbers.
fn sum(component: i64, number: i32) -> i64
    requires { IsTrue (is_component component) }
    ensures { result ≡ number +ℤ component }
{
    i64::from(number) + component
}

/// Whether it is no coordinate.
pub fn is_outside(v: i64) -> bool
    ensures { result ≡ not (is_coordinate v) }
{
    v < -MOST_COORDINATE || MOST_COORDINATE < v
}

/// Whether it is no component of a vector.
fn is_too_far(v: i64) -> bool
    ensures { result ≡ not (is_component v) }
{
    v < -MOST_COMPONENT || MOST_COMPONENT < v
}
