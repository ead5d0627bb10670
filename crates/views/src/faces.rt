ghost use Rattle.std.specs.Prelude.{◌≡◌, Ok, Err, IfOk, IfErr, Some};
ghost use Rattle.pk_base.specs.declared.entity.Class.TheVariants as class;
ghost use Rattle.solid_model.specs.Places.{face_at as the_face_at, outer_at};
ghost use Rattle.solid_model.specs.Shapes.{shape_of};
ghost use Rattle.solid_model.specs.Sound.{IsSound};
ghost use Rattle.views.specs.Kids.{GivesClass};

use crate::KidIter;
use entity_store::{Steps, Store};
use pk_base::{Class, Refusal, Tag};
use solid_places::face_at;
use std::marker::Model;
use std::sync::ledger::Ledger;

/// A face of a sound store. Contracts see the map of the store, the face and its outer loop.
#[derive(Drop)]
pub struct FaceView<'a> {
    store: &'a Store,
    face: Tag,
    outer: Tag,
}

impl<'a> Model for FaceView<'a> {
    ghost use Rattle.views.specs.Views.{FaceSeen, face_code};

    ghost Value = { FaceSeen };

    ghost coded = { face_code };

    ghost view = { λ v. record { map = v.store.now.state.map; face = v.face; outer = v.outer } };
}

impl<'a> FaceView<'a> {
    /// The face under a tag. Refuses, in this order: a tag that is not live (`NoSuchTag`), and one
    /// that is no face's (`WrongClass`). It takes no memory.
    pub fn at<L: Ledger>(
        store: &'a Store,
        face: Tag,
        steps: &mut Steps<L>,
    ) -> Result<FaceView<'a>, Refusal>
        requires { IsSound store.now.state.map }
        ensures found { IfOk result (λ v. v ≡ record {
          map = store.now.state.map;
          face = face;
          outer = outer_at (shape_of store.now.state.map) face;
        }) }
        ensures refused { IfErr result (λ e.
            the_face_at (shape_of store.now.state.map) face ≡ Err e) }
    {
        let placed = face_at(store, face, steps)?;
        Ok(FaceView {
            store,
            face,
            outer: placed.outer,
        })
    }

    /// The outer loop, as `at` has read it. It takes no memory.
    pub fn outer(&self) -> Tag
        ensures { result ≡ self.now.outer }
    {
        self.outer
    }

    /// A walk over the other loops of the face.
    pub fn rings(&self) -> KidIter<'a>
        ensures { GivesClass class.Loop (Some self.now.outer) self.now.map self.now.face result }
    {
        let walk = self.store.kids(self.face);
        KidIter::over(walk, Class::Loop, Some(self.outer))
    }
}
