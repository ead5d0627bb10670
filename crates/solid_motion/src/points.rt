//! Where a motion brings a point.
ghost use Rattle.std.specs.Prelude.{◌≡◌};
ghost use Rattle.solid_places.specs.Points.{AreCoordinates};
ghost use Rattle.solid_motion.specs.Points.{IsMotion, point_by};

use pk_base::{Axis, Point, Triple};
use pk_plane::quarter;
use solid_places::{moved, point_of};

/// A motion of points: by a vector, or about an axis by 1, 2 or 3 quarter turns.
#[derive(Clone, Copy)]
pub(crate) enum Motion {
    By(Triple),
    About(Axis, u8),
}

/// Where the motion brings a point.
pub(crate) fn point_after(motion: Motion, point: Point) -> Point
    requires motion { IsMotion motion }
    requires before { AreCoordinates point }
    requires after { AreCoordinates (point_by motion point) }
    ensures { result ≡ point_by motion point }
{
    match motion {
        Motion::By(vector) => point_of(moved(vector, point)),
        Motion::About(axis, turns) => quarter(axis, turns, point),
    }
}
