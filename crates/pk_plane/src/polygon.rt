ghost use Rattle.std.specs.Prelude.{◌≡◌, ◌<◌, length, find, MatchResult};
ghost use Rattle.std.specs.List.{range_with_len};
ghost use Rattle.pk_plane.specs.Sizes.{AreCorners};
ghost use Rattle.pk_plane.specs.Polygons.{IsPlaced, edge, has_more_in_common, offends, twice_area, bad_corner};

use crate::segment::{Segment, meet, overlap_from};
use crate::side;
use pk_base::Pair;

const ORIGIN: Pair = Pair { x: 0, y: 0 };

/// Whether the corners, in their order, go round a simple polygon counter-clockwise: no edge has
/// length zero, two edges have no more in common than the corner at which one follows the other,
/// and the signed area is not negative. There are 3 to 256 corners, each x and y from -1,048,576 to
/// 1,048,576; the last edge goes back to the first corner.
///
/// Otherwise `Err` has the least corner that offends: whose edge, to the next corner, has length
/// zero or more in common with an earlier edge. Where none does and the polygon goes round
/// clockwise, it has the number of corners.
///
/// Two edges are compared at most once: for n corners, n (n - 1) / 2 times.
pub fn is_simple_ccw(corners: &[Pair]) -> Result<(), usize>
    requires { AreCorners corners.now }
    ensures { MatchResult result (λ _. bad_corner corners.now ≡ None)
        (λ k. bad_corner corners.now ≡ Some k) }
{
    match first_offending(corners) {
        Some(i) => Err(i),
        None if twice_area(corners) < 0 => Err(corners.len()),
        None => Ok(()),
    }
}

/// The least corner that offends.
fn first_offending(corners: &[Pair]) -> Option<usize>
    requires { AreCorners corners.now }
    ensures { result ≡ find (offends corners.now) (range_with_len 0 (length corners.now)) }
{
    for i in 0..corners.len() {
        if offends(corners, i) {
            return Some(i);
        }
    }
    None
}

/// Whether edge `i` has length zero, or more in common with an earlier one than a corner.
fn offends(corners: &[Pair], i: usize) -> bool
    requires corners { AreCorners corners.now }
    requires index { i < length corners.now }
    ensures { result ≡ offends corners.now i }
{
    let e = edge(corners, i);
    if e.start == e.end {
        return true;
    }
    for j in 0..i {
        if has_more_in_common(corners, i, j) {
            return true;
        }
    }
    false
}

/// Whether edge `i` has a point in common with the earlier edge `j`, other than the corner at which
/// the one follows the other.
fn has_more_in_common(corners: &[Pair], i: usize, j: usize) -> bool
    requires corners { AreCorners corners.now }
    requires earlier { j < i }
    requires index { i < length corners.now }
    ensures { result ≡ has_more_in_common corners.now i j }
{
    let e = edge(corners, i);
    let f = edge(corners, j);
    if j + 1 == i {
        overlap_from(e.start, e.end, f.start)
    } else if j == 0 && i + 1 == corners.len() {
        overlap_from(e.end, e.start, f.end)
    } else {
        meet(e, f)
    }
}

/// The edge from corner `i` to the next one, or from the last one to the first.
fn edge(corners: &[Pair], i: usize) -> Segment
    requires corners { AreCorners corners.now }
    requires index { i < length corners.now }
    ensures value { result ≡ edge corners.now i }
    ensures placed { IsPlaced result }
{
    let next = if i + 1 == corners.len() { 0 } else { i + 1 };
    Segment {
        start: corners[i],
        end: corners[next],
    }
}

/// Twice the signed area of the polygon: positive where it goes round counter-clockwise.
fn twice_area(corners: &[Pair]) -> i128
    requires { AreCorners corners.now }
    ensures { result ≡ twice_area corners.now }
{
    let mut area = 0;
    for i in 0..corners.len() {
        let e = edge(corners, i);
        area += side(ORIGIN, e.start, e.end);
    }
    area
}
