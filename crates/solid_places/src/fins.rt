ghost use Rattle.std.specs.Prelude.{◌≡◌, IfOk, IfErr, Ok, Err};
ghost use Rattle.solid_model.specs.Places.{fin_at as the_fin_at};
ghost use Rattle.solid_model.specs.Shapes.{shape_of};
ghost use Rattle.solid_model.specs.Sound.{IsSound};
ghost use Rattle.halfedge.specs.LinkedRings.{IsInRing, ring_at};

use crate::live::live;
use crate::loops::known_loop;
use entity_store::{Steps, Store};
use pk_base::{Entity, Refusal, Tag};
use std::sync::ledger::Ledger;

/// A fin: its mate, its edge, the vertex where it starts, and where it stands.
#[derive(Clone, Copy, Debug, PartialEq, Eq)]
pub struct PlacedFin {
    pub mate: Tag,
    pub edge: Tag,
    pub vertex: Tag,
    pub loop_: Tag,
    pub face: Tag,
    pub shell: Tag,
    pub body: Tag,
}

/// What a fin is, and where it stands. Refuses, in this order: a tag that is not live
/// (`NoSuchTag`), and one that is no fin's (`WrongClass`). It takes no memory.
pub fn fin_at<L: Ledger>(
    store: &Store,
    fin: Tag,
    steps: &mut Steps<L>,
) -> Result<PlacedFin, Refusal>
    requires { IsSound store.now.state.map }
    // The fins of its loop, written from it, are the ring from it on.
    ensures found { IfOk result (λ f. the_fin_at (shape_of store.now.state.map) fin
        ≡ Ok (record {
          mate = f.mate;
          edge = f.edge;
          vertex = f.vertex;
          loop_ = f.loop_;
          face = f.face;
          shell = f.shell;
          body = f.body;
          fins = ring_at store.now.state.map fin;
        })) }
    ensures ring { IfOk result (λ f. IsInRing store.now.state.map fin) }
    ensures refused { IfErr result (λ e.
        the_fin_at (shape_of store.now.state.map) fin ≡ Err e) }
{
    let entity = live(store, fin, steps)?;
    let Entity::Fin {
        loop_,
        mate,
        edge,
        vertex,
        ..
    } = entity
    else {
        return Err(Refusal::WrongClass(fin, entity.class()));
    };
    let place = known_loop(store, loop_, steps);
    Ok(PlacedFin {
        mate,
        edge,
        vertex,
        loop_,
        face: place.face,
        shell: place.shell,
        body: place.body,
    })
}
