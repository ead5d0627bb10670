ghost use Rattle.std.specs.Prelude.{◌≡◌, Some, Ok, Err, IfOk, IfErr};
ghost use Rattle.pk_base.specs.declared.entity.Class.TheVariants as class;
ghost use Rattle.solid_model.specs.Places.{loop_at as the_loop_at, placed_loop};
ghost use Rattle.solid_model.specs.Shapes.{shape_of};
ghost use Rattle.solid_model.specs.Sound.{IsSound, class_at};
ghost use Rattle.solid_places.specs.Placed.{as_placed_loop, place_of_loop};

use crate::face_at;
use crate::live::live;
use entity_store::{Steps, Store};
use pk_base::{Entity, Refusal, Tag};
use std::sync::ledger::Ledger;

/// Where a loop stands, and the outer loop of its face.
#[derive(Clone, Copy, Debug, PartialEq, Eq)]
pub struct PlacedLoop {
    pub face: Tag,
    pub outer: Tag,
    pub shell: Tag,
    pub body: Tag,
}

/// Where a loop stands, and the outer loop of its face. Refuses, in this order: a tag that is not
/// live (`NoSuchTag`), and one that is no loop's (`WrongClass`). It takes no memory.
pub fn loop_at<L: Ledger>(
    store: &Store,
    loop_: Tag,
    steps: &mut Steps<L>,
) -> Result<PlacedLoop, Refusal>
    requires { IsSound store.now.state.map }
    ensures found { IfOk result (λ l. the_loop_at (shape_of store.now.state.map) loop_
        ≡ Ok (record { face = l.face; outer = l.outer; shell = l.shell; body = l.body })) }
    ensures refused { IfErr result (λ e.
        the_loop_at (shape_of store.now.state.map) loop_ ≡ Err e) }
{
    let entity = live(store, loop_, steps)?;
    let Entity::Loop { face, .. } = entity else {
        return Err(Refusal::WrongClass(loop_, entity.class()));
    };
    Ok(in_face(store, face, steps))
}

/// Where a loop stands that is known to be one.
pub(crate) fn known_loop<L: Ledger>(store: &Store, loop_: Tag, steps: &mut Steps<L>) -> PlacedLoop
    requires sound { IsSound store.now.state.map }
    requires loop_ { class_at (shape_of store.now.state.map) loop_ ≡ Some class.Loop }
    ensures { result ≡ place_of_loop (shape_of store.now.state.map) loop_ }
{
    loop_at(store, loop_, steps).unwrap()
}

/// Where the loops of a face stand.
fn in_face<L: Ledger>(store: &Store, face: Tag, steps: &mut Steps<L>) -> PlacedLoop
    requires sound { IsSound store.now.state.map }
    requires face { class_at (shape_of store.now.state.map) face ≡ Some class.Face }
    ensures { result ≡ as_placed_loop (placed_loop (shape_of store.now.state.map) face) }
{
    let placed = face_at(store, face, steps).unwrap();
    PlacedLoop {
        face,
        outer: placed.outer,
        shell: placed.shell,
        body: placed.body,
    }
}
