ghost use Rattle.std.specs.Prelude.{◌≡◌, IfOk, IfErr, IfSome, Ok, Err, Some};
ghost use Rattle.pk_base.specs.declared.entity.Class.TheVariants as class;
ghost use Rattle.solid_model.specs.Places.{end_at as the_end_at, outer_at};
ghost use Rattle.solid_model.specs.Shapes.{shape_of};
ghost use Rattle.solid_model.specs.Sound.{IsSound, class_at};
ghost use Rattle.halfedge.specs.LinkedRings.{IsInRing, ring_of_any};
ghost use Rattle.solid_places.specs.Placed.{place_of_end};

use crate::live::live;
use crate::loops::known_loop;
use entity_store::{Steps, Store};
use pk_base::{Entity, Refusal, Tag};
use std::sync::ledger::Ledger;

/// An end for a new edge: where a fin starts, or the lone vertex of a loop. `outer` is the outer
/// loop of its face; `first` is the fin, or none at a lone vertex.
#[derive(Clone, Copy, Debug, PartialEq, Eq)]
pub struct End {
    pub vertex: Tag,
    pub loop_: Tag,
    pub face: Tag,
    pub outer: Tag,
    pub body: Tag,
    pub first: Option<Tag>,
}

/// An end for a new edge: a fin, or a loop with a lone vertex. Refuses, in this order: a tag that
/// is not live (`NoSuchTag`), one that is neither a fin's nor a loop's (`WrongClass`), and a loop
/// with fins (`NotBare`). It takes no memory.
pub fn end_at<L: Ledger>(store: &Store, end: Tag, steps: &mut Steps<L>) -> Result<End, Refusal>
    requires { IsSound store.now.state.map }
    // The fins of the loop, written from the end, are the ring from it on; at a lone vertex there
    // are none.
    ensures found { IfOk result (λ e. the_end_at (shape_of store.now.state.map) end
        ≡ Ok (record {
          vertex = e.vertex;
          loop_ = e.loop_;
          face = e.face;
          body = e.body;
          fins = ring_of_any store.now.state.map e.first;
        })) }
    ensures outer { IfOk result (λ e.
        e.outer ≡ outer_at (shape_of store.now.state.map) e.face) }
    ensures first { IfOk result (λ e. IfSome e.first (λ f. f ≡ end)) }
    ensures ring { IfOk result (λ e. IfSome e.first (IsInRing store.now.state.map)) }
    ensures refused { IfErr result (λ e.
        the_end_at (shape_of store.now.state.map) end ≡ Err e) }
{
    let entity = live(store, end, steps)?;
    match entity {
        Entity::Fin { loop_, vertex, .. } => Ok(end_in(store, loop_, vertex, Some(end), steps)),
        Entity::Loop { lone, .. } => match lone {
            Some(vertex) => Ok(end_in(store, end, vertex, None, steps)),
            None => Err(Refusal::NotBare(end)),
        },
        Entity::Body { .. }
        | Entity::Shell { .. }
        | Entity::Face { .. }
        | Entity::Edge { .. }
        | Entity::Vertex { .. }
        | Entity::Attr { .. } => Err(Refusal::WrongClass(end, entity.class())),
    }
}

/// An end at a vertex of a loop.
fn end_in<L: Ledger>(
    store: &Store,
    loop_: Tag,
    vertex: Tag,
    first: Option<Tag>,
    steps: &mut Steps<L>,
) -> End
    requires sound { IsSound store.now.state.map }
    requires loop_ { class_at (shape_of store.now.state.map) loop_ ≡ Some class.Loop }
    ensures { result ≡ place_of_end (shape_of store.now.state.map) loop_ vertex first }
{
    let place = known_loop(store, loop_, steps);
    End {
        vertex,
        loop_,
        face: place.face,
        outer: place.outer,
        body: place.body,
        first,
    }
}
