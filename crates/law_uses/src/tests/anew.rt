//! A call whose second operator makes what the first one killed anew: all that is live is as it
//! was, but for names.
ghost use Rattle.std.specs.Prelude.{◌≡◌, ◌<◌};
ghost use Rattle.solid_model.specs.Sound.{IsSound};

use super::live::read_live;
use super::names::{Names, check_names};
use super::row::{OPERATORS, after, next_after};
use super::store::{FIRST, carry_out, goes, ready};
use entity_store::{Steps, Store};
use euler_laws::{kef_mef, kemr_mekr, kev_mev, kfmrh_mfkrh, kvfs_mvfs, mekr_kemr};
use pk_base::{Call, Tag};
use std::alloc::Global;
use std::marker::Brand;
use std::process::Abort;
use std::sync::ledger::{Blank, Ledger};
use std::test::Fail;

/// A vertex and its edge are killed, and made anew.
fn check_kev<L: Ledger>(
    rt: &impl Abort,
    alloc: Global,
    count: u32,
    fin: u32,
    names: Names<'_>,
    steps: &mut Steps<L>,
) -> Result<(), Fail> {
    let fin = Tag(fin);
    let mut store = after(rt, alloc, count, steps)?;
    let before = read_live(alloc, &store, steps)?;
    let mut tags = ready(rt, &store, &Call::Kev { fin }, next_after(count), 4, steps);
    kev_mev(alloc, &mut store, fin, &mut tags, steps)?;
    check_names(rt, alloc, &store, &before, names, steps)?;
    Ok(())
}

/// An edge is killed, which cuts a ring off, and made anew.
fn check_kemr<L: Ledger>(
    rt: &impl Abort,
    alloc: Global,
    count: u32,
    fin: u32,
    names: Names<'_>,
    steps: &mut Steps<L>,
) -> Result<(), Fail> {
    let fin = Tag(fin);
    let mut store = after(rt, alloc, count, steps)?;
    let before = read_live(alloc, &store, steps)?;
    let mut tags = ready(rt, &store, &Call::Kemr { fin }, next_after(count), 4, steps);
    kemr_mekr(alloc, &mut store, fin, &mut tags, steps)?;
    check_names(rt, alloc, &store, &before, names, steps)?;
    Ok(())
}

/// A ring is joined to another loop, and cut off anew.
fn check_mekr<L: Ledger>(
    rt: &impl Abort,
    alloc: Global,
    count: u32,
    loops: (u32, u32),
    names: Names<'_>,
    steps: &mut Steps<L>,
) -> Result<(), Fail> {
    let keep = Tag(loops.0);
    let ring = Tag(loops.1);
    let mut store = after(rt, alloc, count, steps)?;
    let before = read_live(alloc, &store, steps)?;
    let first = next_after(count);
    let mut tags = ready(rt, &store, &Call::Mekr { keep, ring }, first, 4, steps);
    mekr_kemr(alloc, &mut store, keep, ring, &mut tags, steps)?;
    check_names(rt, alloc, &store, &before, names, steps)?;
    Ok(())
}

/// A face is killed, and made of its ring anew.
fn check_kfmrh<L: Ledger>(
    rt: &impl Abort,
    alloc: Global,
    count: u32,
    faces: (u32, u32),
    names: Names<'_>,
    steps: &mut Steps<L>,
) -> Result<(), Fail> {
    let keep = Tag(faces.0);
    let kill = Tag(faces.1);
    let mut store = after(rt, alloc, count, steps)?;
    let before = read_live(alloc, &store, steps)?;
    let first = next_after(count);
    let mut tags = ready(rt, &store, &Call::Kfmrh { keep, kill }, first, 1, steps);
    kfmrh_mfkrh(alloc, &mut store, keep, kill, &mut tags, steps)?;
    check_names(rt, alloc, &store, &before, names, steps)?;
    Ok(())
}

/// A body with one vertex is killed, and made anew.
fn check_kvfs<L: Ledger>(rt: &impl Abort, alloc: Global, steps: &mut Steps<L>) -> Result<(), Fail> {
    let body = Tag(65);
    let names = Names {
        anew: &[(65, 70), (66, 71), (67, 72), (68, 73), (69, 74)],
        least: &[],
    };
    let mut store = after(rt, alloc, 1, steps)?;
    let before = read_live(alloc, &store, steps)?;
    let mut tags = ready(rt, &store, &Call::Kvfs { body }, next_after(1), 5, steps);
    kvfs_mvfs(alloc, &mut store, body, &mut tags, steps)?;
    check_names(rt, alloc, &store, &before, names, steps)?;
    Ok(())
}

/// After `mev` the loop is parted by a second edge, which makes the face 74. That edge is killed,
/// with the loop and the face of this one of its fins, and made anew.
fn check_kef<L: Ledger>(
    rt: &impl Abort,
    alloc: Global,
    fin: u32,
    names: Names<'_>,
    steps: &mut Steps<L>,
) -> Result<(), Fail> {
    let fin = Tag(fin);
    let from = Tag(72);
    let to = Tag(73);
    let mut store = after(rt, alloc, 2, steps)?;
    carry_out(rt, alloc, &mut store, &Call::Mef { from, to }, 74, steps)?;
    let before = read_live(alloc, &store, steps)?;
    let mut tags = ready(rt, &store, &Call::Kef { fin }, 79, 5, steps);
    kef_mef(alloc, &mut store, fin, &mut tags, steps)?;
    check_names(rt, alloc, &store, &before, names, steps)?;
    Ok(())
}

/// The edge between two loops is killed from either side. The lesser of its fins that are made anew
/// stands for the one that was given.
fn check_parted<L: Ledger>(
    rt: &impl Abort,
    alloc: Global,
    steps: &mut Steps<L>,
) -> Result<(), Fail> {
    let new_face = Names {
        anew: &[(74, 79), (75, 80), (76, 81), (77, 82), (78, 83)],
        least: &[],
    };
    check_kef(rt, alloc, 77, new_face, steps)?;
    let old_face = Names {
        anew: &[(67, 79), (68, 80), (76, 81), (78, 82), (77, 83)],
        least: &[(81, 82)],
    };
    check_kef(rt, alloc, 78, old_face, steps)
}

/// After `mev`, and after `mekr`, the one edge is a strut from both of its ends. Where its second
/// fin is given, what is made first stands for that fin, so the least fin is another one.
fn check_edges<L: Ledger>(
    rt: &impl Abort,
    alloc: Global,
    steps: &mut Steps<L>,
) -> Result<(), Fail> {
    let out = Names {
        anew: &[(70, 74), (71, 75), (72, 76), (73, 77)],
        least: &[],
    };
    check_kev(rt, alloc, 2, 72, out, steps)?;
    let back = Names {
        anew: &[(69, 74), (71, 75), (73, 76), (72, 77)],
        least: &[(68, 76), (75, 76)],
    };
    check_kev(rt, alloc, 2, 73, back, steps)?;
    let out = Names {
        anew: &[(71, 75), (72, 76), (73, 77)],
        least: &[],
    };
    check_kemr(rt, alloc, 2, 72, out, steps)?;
    let back = Names {
        anew: &[(71, 75), (73, 76), (72, 77)],
        least: &[(68, 76), (75, 76)],
    };
    check_kemr(rt, alloc, 2, 73, back, steps)
}

fn check_edges_between<L: Ledger>(
    rt: &impl Abort,
    alloc: Global,
    steps: &mut Steps<L>,
) -> Result<(), Fail> {
    let out = Names {
        anew: &[(70, 78), (75, 79), (76, 80), (77, 81)],
        least: &[],
    };
    check_kev(rt, alloc, 4, 76, out, steps)?;
    let back = Names {
        anew: &[(69, 78), (75, 79), (77, 80), (76, 81)],
        least: &[(68, 80), (79, 80)],
    };
    check_kev(rt, alloc, 4, 77, back, steps)?;
    let out = Names {
        anew: &[(75, 79), (76, 80), (77, 81)],
        least: &[],
    };
    check_kemr(rt, alloc, 4, 76, out, steps)?;
    let back = Names {
        anew: &[(75, 79), (77, 80), (76, 81)],
        least: &[(68, 80), (79, 80)],
    };
    check_kemr(rt, alloc, 4, 77, back, steps)
}

/// Where there is a ring, or a face more than one.
fn check_rings<L: Ledger>(
    rt: &impl Abort,
    alloc: Global,
    steps: &mut Steps<L>,
) -> Result<(), Fail> {
    for (count, ring, anew) in [(3, 74, 78), (5, 78, 82), (7, 78, 83)] {
        let names = Names {
            anew: &[(ring, anew)],
            least: &[],
        };
        check_mekr(rt, alloc, count, (68, ring), names, steps)?;
    }
    for faces in [(67, 79), (79, 67)] {
        let names = Names {
            anew: &[(faces.1, 80)],
            least: &[],
        };
        check_kfmrh(rt, alloc, 6, faces, names, steps)?;
    }
    Ok(())
}

/// What the operators of these calls are not refused on a state.
#[derive(Clone, Copy)]
struct Operands<'a> {
    /// Fins for `kev` and for `kemr`.
    fins: &'a [u32],
    /// Loops for `mekr`.
    loops: &'a [(u32, u32)],
    /// Faces for `kfmrh`.
    faces: &'a [(u32, u32)],
}

/// What is not refused after so many operators of the row. A call is run on each of these.
fn operands_after(count: u32) -> Operands<'static> {
    let none = Operands {
        fins: &[],
        loops: &[],
        faces: &[],
    };
    match count {
        0 | 1 => none,
        2 => Operands {
            fins: &[72, 73],
            ..none
        },
        3 => Operands {
            loops: &[(68, 74)],
            ..none
        },
        4 => Operands {
            fins: &[76, 77],
            ..none
        },
        6 => Operands {
            faces: &[(67, 79), (79, 67)],
            ..none
        },
        _ => Operands {
            loops: &[(68, 78)],
            ..none
        },
    }
}

/// Of the operands that begin with this tag, none but these is not refused.
fn check_operand<L: Ledger>(
    rt: &impl Abort,
    store: &Store,
    tag: u32,
    operands: Operands<'_>,
    steps: &mut Steps<L>,
)
    requires { IsSound store.now.state.map }
{
    let fin = Tag(tag);
    let is_fin = operands.fins.contains(&tag);
    assert_eq!(rt; goes(store, &Call::Kev { fin }, steps), is_fin, "kev {tag}");
    assert_eq!(rt;
        goes(store, &Call::Kemr { fin }, steps),
        is_fin,
        "kemr {tag}"
    );
    for other in FIRST..next_after(OPERATORS) {
        let keep = Tag(tag);
        let ring = Tag(other);
        let kill = Tag(other);
        let pair = (tag, other);
        let joins = goes(store, &Call::Mekr { keep, ring }, steps);
        assert_eq!(rt; joins, operands.loops.contains(&pair), "mekr {tag} {other}");
        let kills = goes(store, &Call::Kfmrh { keep, kill }, steps);
        assert_eq!(rt;
            kills,
            operands.faces.contains(&pair),
            "kfmrh {tag} {other}"
        );
    }
}

/// On the state after so many operators of the row just these operands are not refused.
fn check_operands<L: Ledger>(
    rt: &impl Abort,
    alloc: Global,
    count: u32,
    steps: &mut Steps<L>,
) -> Result<(), Fail> {
    let store = after(rt, alloc, count, steps)?;
    for tag in FIRST..next_after(OPERATORS) {
        check_operand(rt, &store, tag, operands_after(count), steps);
    }
    Ok(())
}

fn play<L: Ledger, R: Abort>(rt: &R, alloc: Global, blank: Blank) -> Result<(), Fail>
    requires name { blank.name ≡ L.name }
    requires parts { blank.parts ≡ L.parts }
    requires some { 0 < blank.parts }
{
    let steps = &mut Steps::<L>::new(blank);
    for count in 0..=OPERATORS {
        check_operands(rt, alloc, count, steps)?;
    }
    check_kvfs(rt, alloc, steps)?;
    check_parted(rt, alloc, steps)?;
    check_edges(rt, alloc, steps)?;
    check_edges_between(rt, alloc, steps)?;
    check_rings(rt, alloc, steps)
}

#[test]
fn what_is_killed_is_made_anew_under_other_names(rt: HostRuntime) -> Result<(), Fail> {
    play::<Brand, HostRuntime>(&rt, rt.alloc(), Blank::new(1))
}
