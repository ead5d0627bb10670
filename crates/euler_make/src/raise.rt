//! A face is raised along a vector.
ghost use Rattle.std.specs.Prelude.{◌≡◌, ◌+◌, ◌*◌, ◌<◌, ◌≤◌, length, slice_index_or};
ghost use Rattle.pk_base.specs.Blocks.{tag};
ghost use Rattle.entity_store.specs.NextTags.{left};
ghost use Rattle.solid_model.specs.Shapes.{shape_of};
ghost use Rattle.solid_calls.specs.Pairs.{HasTags, Takes};
ghost use Rattle.euler_make.specs.Cutting.{HasCut, MayCut, backs_listed, place_of_next};
ghost use Rattle.euler_make.specs.Raising.{HasEdges, HasRaised, MayRaise, cost_of_raise, outer_fins};

use crate::mef::mef_do;
use crate::mev::mev_do;
use crate::outline::{count_fins, first_of_outer, start_of};
use entity_store::{Recorder, Steps, Tags};
use halfedge::ring_next;
use pk_base::{Tag, TagListBuilder, Triple};
use solid_places::moved;
use std::sync::ledger::Ledger;

/// Raises a face along a vector. From each fin of its outer loop, from the first one on, an edge
/// leads along the vector (`mev_do`); then each of the new fins that lead back is cut off with the
/// next one (`mef_do`), which makes a side face.
///
/// Before, the loop is `f1 .. fn`. After, it is `y1 .. yn`, and the side faces have the loops
/// `bi fi o(i+1) xi`, the last one `bn fn o1 xn`. The face keeps its tag and its loop.
///
/// The face is live, its loop has two fins or more, and each of its starts has coordinates in range
/// when it is moved by the vector. Which way the face looks is not asked.
///
/// Takes four tags for each fin: vertex, edge, oi, bi; and then five for each: face, loop, edge,
/// xi, yi. It takes no memory.
pub fn raise_face<L: Ledger>(
    rec: &mut Recorder<'_>,
    face: Tag,
    by: Triple,
    tags: &mut Tags<'_>,
    out: &mut TagListBuilder,
    steps: &mut Steps<L>,
)
    requires may { MayRaise rec.old.store.now face by (left tags.old) }
    requires tags { HasTags rec.old.store.now
        (cost_of_raise (shape_of rec.old.store.now.state.map) face) tags.old out.old }
    ensures done { HasRaised rec.old.store.now face by (left tags.old) rec.new.store.now }
    ensures takes { Takes (cost_of_raise (shape_of rec.old.store.now.state.map) face)
        tags.old out.old tags.new out.new }
    ensures same_store { rec.new.store.ghost_name ≡ rec.old.store.ghost_name }
{
    let fins = count_fins(rec.view(), face, steps);
    let listed = out.as_slice().len();
    raise_edges(rec, face, fins, by, tags, out, steps);
    cut_sides(rec, fins, listed, tags, out, steps);
}

/// Makes an edge along the vector from each fin of the outer loop of a face, from the first one on.
fn raise_edges<L: Ledger>(
    rec: &mut Recorder<'_>,
    face: Tag,
    fins: usize,
    by: Triple,
    tags: &mut Tags<'_>,
    out: &mut TagListBuilder,
    steps: &mut Steps<L>,
)
    requires may { MayRaise rec.old.store.now face by (left tags.old) }
    requires fins { fins ≡ length (outer_fins (shape_of rec.old.store.now.state.map) face) }
    requires tags { HasTags rec.old.store.now (4 * fins) tags.old out.old }
    ensures done { HasEdges rec.old.store.now face by (left tags.old) rec.new.store.now }
    ensures takes { Takes (4 * fins) tags.old out.old tags.new out.new }
    ensures same_store { rec.new.store.ghost_name ≡ rec.old.store.ghost_name }
{
    let mut fin = first_of_outer(rec.view(), face, steps).unwrap();
    for _ in 0..fins {
        let end = moved(by, start_of(rec.view(), fin, steps));
        mev_do(rec, fin, end, tags, out, steps);
        fin = ring_next(rec.view(), fin, steps);
    }
}

/// Cuts a side face off behind each of the edges: from each fin that leads back to the next one,
/// and from the last one to the fin that the first cut leaves. The tags of the edges are listed
/// from this place on, four for each, of which the last one is that fin.
fn cut_sides<L: Ledger>(
    rec: &mut Recorder<'_>,
    fins: usize,
    listed: usize,
    tags: &mut Tags<'_>,
    out: &mut TagListBuilder,
    steps: &mut Steps<L>,
)
    requires may { MayCut rec.old.store.now (backs_listed out.old.items listed fins)
        (left tags.old) }
    requires listed { length out.old.items ≡ listed + 4 * fins }
    requires tags { HasTags rec.old.store.now (5 * fins) tags.old out.old }
    ensures done { HasCut rec.old.store.now (backs_listed out.old.items listed fins)
        (left tags.old) rec.new.store.now }
    ensures takes { Takes (5 * fins) tags.old out.old tags.new out.new }
    ensures same_store { rec.new.store.ghost_name ≡ rec.old.store.ghost_name }
{
    for i in 0..fins {
        let (from, to) = ends_of_cut(out, listed, fins, i);
        mef_do(rec, from, to, tags, out, steps);
    }
}

/// From which fin and to which the cut with this number is made, where those before it are.
fn ends_of_cut(out: &TagListBuilder, listed: usize, fins: usize, cut: usize) -> (Tag, Tag)
    requires two { 2 ≤ fins }
    requires cut { cut < fins }
    requires listed { listed + 4 * fins + 5 * cut ≤ length out.now.items }
    ensures from { result.0 ≡ slice_index_or out.now.items (listed + 4 * cut + 3) (tag 0) }
    ensures to { result.1 ≡ slice_index_or out.now.items (place_of_next listed fins cut) (tag 0) }
{
    let tags = out.as_slice();
    // No list is longer than the numbers of places go.
    let _len = tags.len();
    let place = listed + 4 * cut;
    let next = if cut + 1 < fins { place + 7 } else { place + 8 };
    (tags[place + 3], tags[next])
}
