//! A block.
ghost use Rattle.std.specs.Prelude.{◌≡◌, ◌+ℤ◌, IsTrue};
ghost use Rattle.pk_base.specs.declared.call.Call.TheVariants.{Block};
ghost use Rattle.entity_store.specs.NextTags.{left};
ghost use Rattle.solid_model.specs.Prism.{rectangle as the_rectangle};
ghost use Rattle.solid_model.specs.Ranges.{is_coordinate, is_size, point_of};
ghost use Rattle.solid_model.specs.Rows.{cost_of};
ghost use Rattle.solid_model.specs.Sound.{IsSound};
ghost use Rattle.solid_calls.specs.Pairs.{HasDone, HasTags, MayDo, NeedsAsRow, Takes, row_on};
ghost use Rattle.solid_places.specs.Points.{AreCoordinates};
ghost use Rattle.solid_make.specs.Checks.{AreSizes};

use crate::checks::{check_coordinates, check_sizes};
use crate::prism::put_prism;
use entity_store::{Need, Recorder, Steps, Store, Tags};
use pk_base::{Pair, Refusal, TagListBuilder, Triple};
use std::sync::ledger::Ledger;

/// How many tags a block takes.
const TAGS_OF_A_SOLID_BLOCK: usize = 58;

/// What `block_do` needs, or why it is refused. It takes no memory.
pub fn block_need<L: Ledger>(
    store: &Store,
    at: Triple,
    size: Triple,
    steps: &mut Steps<L>,
) -> Result<Need, Refusal>
    requires { IsSound store.now.state.map }
    ensures { NeedsAsRow store.now.state.map (Block at size) result }
{
    check_coordinates(at)?;
    check_sizes(size)?;
    check_coordinates(opposite(at, size))?;
    Ok(Need {
        tags: TAGS_OF_A_SOLID_BLOCK as u64,
        changes: TAGS_OF_A_SOLID_BLOCK,
        list: TAGS_OF_A_SOLID_BLOCK,
    })
}

/// Makes a block from a corner, the one with the least x, y and z, and its three sizes.
///
/// Before, nothing. After, the prism of the rectangle (x, y), (x + dx, y), (x + dx, y + dy),
/// (x, y + dy), from height z to z + dz.
///
/// Takes 58 tags, in the order of a prism: the vertices are the tags 4, 5, 9 and 13 below, counted
/// from the body's, and 22, 26, 30 and 34 above; the faces are 2 below, 17 above, and 38, 43, 48
/// and 53 at the sides. It takes no memory.
///
/// Refuses, in this order: the first of x, y and z that is no coordinate; the first of dx, dy and
/// dz that is not from 1 to 2,097,152; the first of the three sums that is no coordinate
/// (`OutOfRange` with it). A refusal changes nothing: `block_need` tells it.
pub fn block_do<L: Ledger>(
    rec: &mut Recorder<'_>,
    at: Triple,
    size: Triple,
    tags: &mut Tags<'_>,
    out: &mut TagListBuilder,
    steps: &mut Steps<L>,
)
    requires may { MayDo rec.old.store.now (Block at size) (left tags.old) }
    requires tags { HasTags rec.old.store.now
        (cost_of (row_on rec.old.store.now.state.map (Block at size))) tags.old out.old }
    ensures done { HasDone rec.old.store.now (Block at size) (left tags.old) rec.new.store.now }
    ensures takes { Takes (cost_of (row_on rec.old.store.now.state.map (Block at size)))
        tags.old out.old tags.new out.new }
    ensures same_store { rec.new.store.ghost_name ≡ rec.old.store.ghost_name }
{
    let corners = rectangle(at, size);
    put_prism(rec, at.z, size.z, &corners, tags, out, steps);
}

/// The corner with the greatest x, y and z.
fn opposite(at: Triple, size: Triple) -> Triple
    requires at { AreCoordinates (point_of at) }
    requires size { AreSizes size }
    ensures x { result.x ≡ at.x +ℤ size.x }
    ensures y { result.y ≡ at.y +ℤ size.y }
    ensures z { result.z ≡ at.z +ℤ size.z }
{
    Triple {
        x: sum(at.x, size.x),
        y: sum(at.y, size.y),
        z: sum(at.z, size.z),
    }
}

/// The corners of a block as seen from above, counter-clockwise.
fn rectangle(at: Triple, size: Triple) -> [Pair; 4]
    requires at { AreCoordinates (point_of at) }
    requires size { AreSizes size }
    ensures { result ≡ the_rectangle at.x at.y size.x size.y }
{
    let Triple { x, y, .. } = at;
    let right = sum(x, size.x);
    let far = sum(y, size.y);
    [
        Pair { x, y },
        Pair { x: right, y },
        Pair { x: right, y: far },
        Pair { x, y: far },
    ]
}

/// The sum of a coordinate and a size.
fn sum(coordinate: i64, size: i64) -> i64
    requires coordinate { IsTrue (is_coordinate coordinate) }
    requires size { IsTrue (is_size size) }
    ensures { result ≡ coordinate +ℤ size }
{
    coordinate + size
}
