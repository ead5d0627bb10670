//! Products of vectors, quarter turns, and polygons.
use pk_base::{Axis, Pair, Point};
use pk_plane::{cross, dot, is_simple_ccw, quarter, side};
use std::test::Fail;

const ONE_TWO_THREE: Point = Point { x: 1, y: 2, z: 3 };

const FOUR_FIVE_SIX: Point = Point { x: 4, y: 5, z: 6 };

const SQUARE: [Pair; 4] = [
    Pair { x: 0, y: 0 },
    Pair { x: 2, y: 0 },
    Pair { x: 2, y: 2 },
    Pair { x: 0, y: 2 },
];

/// Its third edge crosses the first one.
const CROSSED: [Pair; 4] = [
    Pair { x: 0, y: 0 },
    Pair { x: 2, y: 2 },
    Pair { x: 2, y: 0 },
    Pair { x: 0, y: 2 },
];

/// Its last edge, back to the first corner, crosses the second one.
const CROSSED_AT_LAST: [Pair; 4] = [
    Pair { x: 0, y: 0 },
    Pair { x: 2, y: -1 },
    Pair { x: 2, y: 1 },
    Pair { x: 4, y: 0 },
];

/// Its second edge leads back over the first one.
const FOLDED: [Pair; 3] = [
    Pair { x: 0, y: 0 },
    Pair { x: 2, y: 0 },
    Pair { x: 1, y: 0 },
];

const CLOCKWISE: [Pair; 3] = [
    Pair { x: 0, y: 0 },
    Pair { x: 0, y: 1 },
    Pair { x: 1, y: 0 },
];

#[test]
fn products_of_vectors(rt: HostRuntime) -> Result<(), Fail> {
    assert_eq!(rt; cross(ONE_TWO_THREE, FOUR_FIVE_SIX), (-3, 6, -3));
    assert_eq!(rt; dot((-3, 6, -3), (1, 0, 2)), -9);
    assert_eq!(rt; side(CLOCKWISE[0], CLOCKWISE[1], CLOCKWISE[2]), -1);
    Ok(())
}

#[test]
fn quarter_turns(rt: HostRuntime) -> Result<(), Fail> {
    let about_x = Point { x: 1, y: -3, z: 2 };
    let about_y = Point { x: 3, y: 2, z: -1 };
    let about_z = Point { x: -2, y: 1, z: 3 };
    let twice = Point { x: -1, y: -2, z: 3 };
    let thrice = Point { x: 2, y: -1, z: 3 };
    assert_eq!(rt; quarter(Axis::X, 1, ONE_TWO_THREE), about_x);
    assert_eq!(rt; quarter(Axis::Y, 1, ONE_TWO_THREE), about_y);
    assert_eq!(rt; quarter(Axis::Z, 1, ONE_TWO_THREE), about_z);
    assert_eq!(rt; quarter(Axis::Z, 2, ONE_TWO_THREE), twice);
    assert_eq!(rt; quarter(Axis::Z, 3, ONE_TWO_THREE), thrice);
    Ok(())
}

#[test]
fn the_least_corner_that_offends(rt: HostRuntime) -> Result<(), Fail> {
    assert_eq!(rt; is_simple_ccw(&SQUARE), Ok(()));
    assert_eq!(rt; is_simple_ccw(&CROSSED), Err(2));
    assert_eq!(rt; is_simple_ccw(&CROSSED_AT_LAST), Err(3));
    assert_eq!(rt; is_simple_ccw(&FOLDED), Err(1));
    assert_eq!(rt; is_simple_ccw(&CLOCKWISE), Err(3));
    Ok(())
}
