ghost use Rattle.std.specs.Prelude.{◌≡◌, Some, Ok, Err, IfOk, IfErr};
ghost use Rattle.pk_base.specs.declared.entity.Class.TheVariants as class;
ghost use Rattle.solid_model.specs.Owners.{owner_in};
ghost use Rattle.solid_model.specs.Places.{body_at as the_body_at, face_at as the_face_at};
ghost use Rattle.solid_model.specs.Shapes.{shape_of};
ghost use Rattle.solid_model.specs.Sound.{IsSound, class_at};

use crate::live::live;
use entity_store::{Steps, Store};
use pk_base::{Entity, Refusal, Tag};
use std::sync::ledger::Ledger;

/// Where a face stands, and its outer loop.
#[derive(Clone, Copy, Debug, PartialEq, Eq)]
pub struct PlacedFace {
    pub shell: Tag,
    pub body: Tag,
    pub outer: Tag,
}

/// The shell of a body. Refuses, in this order: a tag that is not live (`NoSuchTag`), and one that
/// is no body's (`WrongClass`). It takes no memory.
pub fn body_at<L: Ledger>(store: &Store, body: Tag, steps: &mut Steps<L>) -> Result<Tag, Refusal>
    requires { IsSound store.now.state.map }
    ensures { result ≡ the_body_at (shape_of store.now.state.map) body }
{
    let entity = live(store, body, steps)?;
    let Entity::Body { shell } = entity else {
        return Err(Refusal::WrongClass(body, entity.class()));
    };
    Ok(shell)
}

/// Where a face stands, and its outer loop. Refuses, in this order: a tag that is not live
/// (`NoSuchTag`), and one that is no face's (`WrongClass`). It takes no memory.
pub fn face_at<L: Ledger>(
    store: &Store,
    face: Tag,
    steps: &mut Steps<L>,
) -> Result<PlacedFace, Refusal>
    requires { IsSound store.now.state.map }
    ensures found { IfOk result (λ f. the_face_at (shape_of store.now.state.map) face
        ≡ Ok (record { shell = f.shell; body = f.body; outer = f.outer })) }
    ensures refused { IfErr result (λ e.
        the_face_at (shape_of store.now.state.map) face ≡ Err e) }
{
    let entity = live(store, face, steps)?;
    let Entity::Face { shell, outer } = entity else {
        return Err(Refusal::WrongClass(face, entity.class()));
    };
    let body = body_of_shell(store, shell, steps);
    Ok(PlacedFace { shell, body, outer })
}

/// The body of a shell.
fn body_of_shell<L: Ledger>(store: &Store, shell: Tag, steps: &mut Steps<L>) -> Tag
    requires sound { IsSound store.now.state.map }
    requires shell { class_at (shape_of store.now.state.map) shell ≡ Some class.Shell }
    ensures { result ≡ owner_in (shape_of store.now.state.map) shell }
{
    let entity = store.get(shell, steps).unwrap();
    let Entity::Shell { body, .. } = entity else {
        unreachable!()
    };
    *body
}
