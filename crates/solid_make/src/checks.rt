//! Whether numbers and corners are such as a solid may have.
ghost use Rattle.std.specs.Prelude.{◌≡◌, ◌∷◌, [], not};
ghost use Rattle.pk_plane.specs.Sizes.{AreCorners};
ghost use Rattle.solid_model.specs.Lamina.{refuse_corners, refuse_count, refuse_polygon};
ghost use Rattle.solid_model.specs.Ranges.{is_coordinate, is_size, numbers_of, refuse_outside};
ghost use Rattle.solid_make.specs.Checks.{IsRefusedAs};

use pk_base::{Pair, Refusal, Triple};
use pk_plane::is_simple_ccw;
use solid_places::is_outside;

/// The fewest corners of a solid.
const LEAST_CORNERS: usize = 3;

/// The most corners of a solid.
const MOST_CORNERS: usize = 256;

/// The greatest size of a block, and the greatest height of a prism.
const MOST_SIZE: i64 = 2_097_152;

/// There are 3 to 256 corners.
pub(crate) fn check_count(corners: &[Pair]) -> Result<(), Refusal>
    ensures { IsRefusedAs (refuse_count corners.now) result }
{
    let count = corners.len();
    if count < LEAST_CORNERS || MOST_CORNERS < count {
        return Err(Refusal::CornerCount(count as u64));
    }
    Ok(())
}

/// Each x and y of the corners is a coordinate.
pub(crate) fn check_corners(corners: &[Pair]) -> Result<(), Refusal>
    ensures { IsRefusedAs (refuse_corners corners.now) result }
{
    for corner in corners {
        check_coordinate(corner.x)?;
        check_coordinate(corner.y)?;
    }
    Ok(())
}

/// The corners go round a simple polygon, counter-clockwise.
pub(crate) fn check_polygon(corners: &[Pair]) -> Result<(), Refusal>
    requires { AreCorners corners.now }
    ensures { IsRefusedAs (refuse_polygon corners.now) result }
{
    match is_simple_ccw(corners) {
        Ok(()) => Ok(()),
        Err(corner) => Err(Refusal::BadPolygon(corner as u64)),
    }
}

/// Each of the three is a coordinate.
pub(crate) fn check_coordinates(at: Triple) -> Result<(), Refusal>
    ensures { IsRefusedAs (refuse_outside is_coordinate (numbers_of at)) result }
{
    check_coordinate(at.x)?;
    check_coordinate(at.y)?;
    check_coordinate(at.z)
}

/// Each of the three is a size.
pub(crate) fn check_sizes(sizes: Triple) -> Result<(), Refusal>
    ensures { IsRefusedAs (refuse_outside is_size (numbers_of sizes)) result }
{
    check_size(sizes.x)?;
    check_size(sizes.y)?;
    check_size(sizes.z)
}

/// It is a coordinate: from -1,048,576 to 1,048,576.
pub(crate) fn check_coordinate(v: i64) -> Result<(), Refusal>
    ensures { IsRefusedAs (refuse_outside is_coordinate (v ∷ [])) result }
{
    if is_outside(v) {
        return Err(Refusal::OutOfRange(v));
    }
    Ok(())
}

/// It is a size: from 1 to 2,097,152.
pub(crate) fn check_size(v: i64) -> Result<(), Refusal>
    ensures { IsRefusedAs (refuse_outside is_size (v ∷ [])) result }
{
    if v < 1 || MOST_SIZE < v {
        return Err(Refusal::OutOfRange(v));
    }
    Ok(())
}
