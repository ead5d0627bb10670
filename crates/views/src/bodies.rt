ghost use Rattle.std.specs.Prelude.{◌≡◌, Ok, Err, IfOk, IfErr, None, nat_le, option_copied, option_map};
ghost use Rattle.std.specs.List.{take_while};
ghost use Rattle.pk_base.specs.declared.entity.Class.TheVariants as class;
ghost use Rattle.solid_model.specs.Places.{body_at as the_body_at};
ghost use Rattle.solid_model.specs.Shapes.{shape_of};
ghost use Rattle.solid_model.specs.Sound.{IsSound};
ghost use Rattle.views.specs.Kids.{GivesClass};
ghost use Rattle.views.specs.Views.{name_under, point_in_body};

use crate::KidIter;
use entity_store::{Steps, Store};
use pk_base::{Class, Entity, Point, Refusal, Tag};
use solid_places::body_at;
use std::marker::Model;
use std::sync::ledger::Ledger;

/// A body of a sound store. Contracts see the map of the store, the body and its shell.
#[derive(Drop)]
pub struct BodyView<'a> {
    store: &'a Store,
    body: Tag,
    shell: Tag,
}

impl<'a> Model for BodyView<'a> {
    ghost use Rattle.views.specs.Views.{BodySeen, body_code};

    ghost Value = { BodySeen };

    ghost coded = { body_code };

    ghost view = { λ v. record { map = v.store.now.state.map; body = v.body; shell = v.shell } };
}

impl<'a> BodyView<'a> {
    /// The body under a tag. Refuses, in this order: a tag that is not live (`NoSuchTag`), and one
    /// that is no body's (`WrongClass`). It takes no memory.
    pub fn at<L: Ledger>(
        store: &'a Store,
        body: Tag,
        steps: &mut Steps<L>,
    ) -> Result<BodyView<'a>, Refusal>
        requires { IsSound store.now.state.map }
        ensures found { IfOk result (λ v. v
            ≡ record { map = store.now.state.map; body = body; shell = v.shell }) }
        ensures shell { IfOk result (λ v.
            the_body_at (shape_of store.now.state.map) body ≡ Ok v.shell) }
        ensures refused { IfErr result (λ e.
            the_body_at (shape_of store.now.state.map) body ≡ Err e) }
    {
        let shell = body_at(store, body, steps)?;
        Ok(BodyView { store, body, shell })
    }

    /// A walk over the faces of the body, which are its shell's.
    pub fn faces(&self) -> KidIter<'a>
        ensures { GivesClass class.Face None self.now.map self.now.shell result }
    {
        let walk = self.store.kids(self.shell);
        KidIter::over(walk, Class::Face, None)
    }

    /// A walk over the edges of the body.
    pub fn edges(&self) -> KidIter<'a>
        ensures { GivesClass class.Edge None self.now.map self.now.body result }
    {
        let walk = self.store.kids(self.body);
        KidIter::over(walk, Class::Edge, None)
    }

    /// A walk over the vertices of the body.
    pub fn vertices(&self) -> KidIter<'a>
        ensures { GivesClass class.Vertex None self.now.map self.now.body result }
    {
        let walk = self.store.kids(self.body);
        KidIter::over(walk, Class::Vertex, None)
    }

    /// The point of a vertex; `None` exactly where the tag names no live vertex of this body. It
    /// takes no memory.
    pub fn point<L: Ledger>(&self, vertex: Tag, steps: &mut Steps<L>) -> Option<&'a Point>
        ensures { option_copied result ≡ point_in_body self.now.map self.now.body vertex }
    {
        let store = self.store;
        let Entity::Vertex { body, point } = store.get(vertex, steps)? else {
            return None;
        };
        if *body == self.body {
            Some(point)
        } else {
            None
        }
    }

    /// The name of an attribute, without its padding; `None` exactly where the tag names no live
    /// attribute. It takes no memory.
    pub fn name<L: Ledger>(&self, attr: Tag, steps: &mut Steps<L>) -> Option<&'a [u8]>
        ensures { option_map (λ name. name.now) result ≡ name_under self.now.map attr }
    {
        let store = self.store;
        let Entity::Attr { name, .. } = store.get(attr, steps)? else {
            return None;
        };
        Some(without_padding(&name.0))
    }
}

/// The bytes before the first zero, or all where there is none.
fn without_padding(bytes: &[u8]) -> &[u8]
    ensures { result.now ≡ take_while (λ b. nat_le 1 b) bytes.now }
{
    for i in 0..bytes.len() {
        if bytes[i] == 0 {
            return &bytes[..i];
        }
    }
    bytes
}
