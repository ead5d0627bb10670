//! A lamina.
ghost use Rattle.std.specs.Prelude.{◌≡◌, ◌≤◌};
ghost use Rattle.pk_base.specs.declared.call.Call.TheVariants.{Lamina};
ghost use Rattle.entity_store.specs.NextTags.{left};
ghost use Rattle.solid_model.specs.Lamina.{after_lamina, at_height as the_point_of};
ghost use Rattle.solid_model.specs.Rows.{cost_of};
ghost use Rattle.solid_model.specs.Sound.{IsSound};
ghost use Rattle.solid_calls.specs.Pairs.{HasDone, HasTags, MayDo, NeedsAsRow, Takes, row_on};
ghost use Rattle.solid_make.specs.Making.{HasMade, MayMake, begun, cost_of_lamina};

use crate::checks::{check_coordinate, check_corners, check_count, check_polygon};
use entity_store::{Need, Recorder, Steps, Store, Tags};
use euler_make::{mef_do, mev_do, mvfs_do};
use pk_base::{Pair, Refusal, TagListBuilder, Triple};
use std::sync::ledger::Ledger;

/// What `lamina_do` needs, or why it is refused. It takes no memory.
pub fn lamina_need<L: Ledger>(
    store: &Store,
    z: i64,
    corners: &[Pair],
    steps: &mut Steps<L>,
) -> Result<Need, Refusal>
    requires { IsSound store.now.state.map }
    ensures { NeedsAsRow store.now.state.map (Lamina z corners.now) result }
{
    check_count(corners)?;
    check_coordinate(z)?;
    check_corners(corners)?;
    check_polygon(corners)?;
    let count = 4 * corners.len() + 6;
    Ok(Need {
        tags: count as u64,
        changes: count,
        list: count,
    })
}

/// Makes a lamina: a flat body of two faces, whose corners c0, c1 and so on stand at one height z.
///
/// Before, nothing. After, for n corners, a body whose edges lead from each corner to the next one,
/// and from the last one to c0. It is what this makes: `Mvfs` at c0; `Mev` from the loop to c1, and
/// on to each next corner from the fin back of the edge before; `Mef` from the first fin out to the
/// last fin back. So the first face looks down, and its loop is the fins back from the last one on,
/// and y; the second one looks up, and its loop is the fins out from the first one on, and x.
///
/// Takes 4n + 6 tags, in this order: body, shell, face, loop and vertex of c0; for each other
/// corner its vertex, edge, out and back; the second face, its loop, the last edge, x and y. It
/// takes no memory.
///
/// Refuses, in this order: fewer than 3 corners or more than 256 (`CornerCount` with their number);
/// a z that is no coordinate, and then the first x or y of a corner that is none (`OutOfRange` with
/// it); corners that do not go round a simple polygon counter-clockwise (`BadPolygon` with the
/// least corner that offends, or with n where they go round clockwise). A refusal changes nothing:
/// `lamina_need` tells it.
pub fn lamina_do<L: Ledger>(
    rec: &mut Recorder<'_>,
    z: i64,
    corners: &[Pair],
    tags: &mut Tags<'_>,
    out: &mut TagListBuilder,
    steps: &mut Steps<L>,
)
    requires may { MayDo rec.old.store.now (Lamina z corners.now) (left tags.old) }
    requires tags { HasTags rec.old.store.now
        (cost_of (row_on rec.old.store.now.state.map (Lamina z corners.now))) tags.old out.old }
    ensures done { HasDone rec.old.store.now (Lamina z corners.now) (left tags.old)
        rec.new.store.now }
    ensures takes { Takes (cost_of (row_on rec.old.store.now.state.map (Lamina z corners.now)))
        tags.old out.old tags.new out.new }
    ensures same_store { rec.new.store.ghost_name ≡ rec.old.store.ghost_name }
{
    put_lamina(rec, z, corners, tags, out, steps);
}

/// Makes the lamina of these corners, whether or not they go round a polygon. It takes no memory.
pub(crate) fn put_lamina<L: Ledger>(
    rec: &mut Recorder<'_>,
    z: i64,
    corners: &[Pair],
    tags: &mut Tags<'_>,
    out: &mut TagListBuilder,
    steps: &mut Steps<L>,
)
    requires may { MayMake rec.old.store.now z corners.now (cost_of_lamina corners.now)
        (left tags.old) }
    requires tags { HasTags rec.old.store.now (cost_of_lamina corners.now) tags.old out.old }
    ensures made { HasMade rec.old.store.now (cost_of_lamina corners.now) (left tags.old)
        (after_lamina z corners.now (begun rec.old.store.now (left tags.old)))
        rec.new.store.now }
    ensures takes { Takes (cost_of_lamina corners.now) tags.old out.old tags.new out.new }
    ensures same_store { rec.new.store.ghost_name ≡ rec.old.store.ghost_name }
{
    // Of the tags that are listed here, the fourth is that of the loop, and the eighth that of the
    // first fin out. The last tag of each edge is that of its fin back.
    let listed = out.as_slice().len();
    mvfs_do(rec, at_height(z, corners[0]), tags, out, steps);
    let mut end = out.as_slice()[listed + 3];
    let others = &corners[1..];
    for corner in others {
        mev_do(rec, end, at_height(z, *corner), tags, out, steps);
        end = out.as_slice()[out.as_slice().len() - 1];
    }
    let first = out.as_slice()[listed + 7];
    mef_do(rec, first, end, tags, out, steps);
}

/// The point of a corner at this height.
fn at_height(z: i64, corner: Pair) -> Triple
    ensures { result ≡ the_point_of z corner }
{
    Triple {
        x: corner.x,
        y: corner.y,
        z,
    }
}
