//! A prism.
ghost use Rattle.std.specs.Prelude.{◌≡◌, ◌∷◌, [], ◌+ℤ◌, IsTrue};
ghost use Rattle.pk_base.specs.declared.call.Call.TheVariants.{Prism};
ghost use Rattle.entity_store.specs.NextTags.{left};
ghost use Rattle.solid_model.specs.Prism.{after_prism, upwards as the_vector};
ghost use Rattle.solid_model.specs.Ranges.{is_coordinate, is_size, refuse_outside};
ghost use Rattle.solid_model.specs.Rows.{cost_of};
ghost use Rattle.solid_model.specs.Sound.{IsSound};
ghost use Rattle.solid_calls.specs.Pairs.{HasDone, HasTags, MayDo, NeedsAsRow, Takes, row_on};
ghost use Rattle.solid_make.specs.Checks.{IsRefusedAs};
ghost use Rattle.solid_make.specs.Making.{HasMade, MayRise, MayMake, begun, cost_of_prism};

use crate::checks::{check_coordinate, check_corners, check_count, check_polygon, check_size};
use crate::lamina::put_lamina;
use entity_store::{Need, Recorder, Steps, Store, Tags};
use euler_make::raise_face;
use pk_base::{Pair, Refusal, TagListBuilder, Triple};
use std::sync::ledger::Ledger;

/// What `prism_do` needs, or why it is refused. It takes no memory.
pub fn prism_need<L: Ledger>(
    store: &Store,
    z: i64,
    h: i64,
    corners: &[Pair],
    steps: &mut Steps<L>,
) -> Result<Need, Refusal>
    requires { IsSound store.now.state.map }
    ensures { NeedsAsRow store.now.state.map (Prism z h corners.now) result }
{
    check_count(corners)?;
    check_coordinate(z)?;
    check_size(h)?;
    check_top(z, h)?;
    check_corners(corners)?;
    check_polygon(corners)?;
    let count = 13 * corners.len() + 6;
    Ok(Need {
        tags: count as u64,
        changes: count,
        list: count,
    })
}

/// Makes a prism: a body between two polygons of the same corners, the lower one at height z and
/// the upper one at height z + h.
///
/// Before, nothing. After, what this makes: the lamina of the corners at height z, and then the
/// sweep of its second face by (0, 0, h). So the first face looks down, the second one looks up and
/// is the upper face, and each edge of the lower polygon has a side face above it.
///
/// Takes 13n + 6 tags for n corners: the 4n + 6 of the lamina, in its order; then four for each
/// corner, the vertex above it, edge, out and back; then five for each side face: face, loop, edge,
/// x and y. It takes no memory.
///
/// Refuses, in this order: fewer than 3 corners or more than 256 (`CornerCount` with their number);
/// a z that is no coordinate, an h that is not from 1 to 2,097,152, a z + h that is no coordinate,
/// and then the first x or y of a corner that is none (`OutOfRange` with it, or with the sum);
/// corners that do not go round a simple polygon counter-clockwise (`BadPolygon` with the least
/// corner that offends, or with n where they go round clockwise). A refusal changes nothing:
/// `prism_need` tells it.
pub fn prism_do<L: Ledger>(
    rec: &mut Recorder<'_>,
    z: i64,
    h: i64,
    corners: &[Pair],
    tags: &mut Tags<'_>,
    out: &mut TagListBuilder,
    steps: &mut Steps<L>,
)
    requires may { MayDo rec.old.store.now (Prism z h corners.now) (left tags.old) }
    requires tags { HasTags rec.old.store.now
        (cost_of (row_on rec.old.store.now.state.map (Prism z h corners.now))) tags.old out.old }
    ensures done { HasDone rec.old.store.now (Prism z h corners.now) (left tags.old)
        rec.new.store.now }
    ensures takes { Takes (cost_of (row_on rec.old.store.now.state.map (Prism z h corners.now)))
        tags.old out.old tags.new out.new }
    ensures same_store { rec.new.store.ghost_name ≡ rec.old.store.ghost_name }
{
    put_prism(rec, z, h, corners, tags, out, steps);
}

/// Makes the prism of these corners, whether or not they go round a polygon. It takes no memory.
pub(crate) fn put_prism<L: Ledger>(
    rec: &mut Recorder<'_>,
    z: i64,
    h: i64,
    corners: &[Pair],
    tags: &mut Tags<'_>,
    out: &mut TagListBuilder,
    steps: &mut Steps<L>,
)
    requires may { MayMake rec.old.store.now z corners.now (cost_of_prism corners.now)
        (left tags.old) }
    requires rise { MayRise z h }
    requires tags { HasTags rec.old.store.now (cost_of_prism corners.now) tags.old out.old }
    ensures made { HasMade rec.old.store.now (cost_of_prism corners.now) (left tags.old)
        (after_prism z h corners.now (begun rec.old.store.now (left tags.old)))
        rec.new.store.now }
    ensures takes { Takes (cost_of_prism corners.now) tags.old out.old tags.new out.new }
    ensures same_store { rec.new.store.ghost_name ≡ rec.old.store.ghost_name }
{
    put_lamina(rec, z, corners, tags, out, steps);
    // The last five tags of a lamina are its second face, the loop and the edge of that, x and y.
    let upper = out.as_slice()[out.as_slice().len() - 5];
    raise_face(rec, upper, upwards(h), tags, out, steps);
}

/// The upper height of a prism is a coordinate.
fn check_top(z: i64, h: i64) -> Result<(), Refusal>
    requires z { IsTrue (is_coordinate z) }
    requires h { IsTrue (is_size h) }
    ensures { IsRefusedAs (refuse_outside is_coordinate ((z +ℤ h) ∷ [])) result }
{
    check_coordinate(z + h)
}

/// The vector of this height.
fn upwards(h: i64) -> Triple
    ensures { result ≡ the_vector h }
{
    Triple { x: 0, y: 0, z: h }
}
