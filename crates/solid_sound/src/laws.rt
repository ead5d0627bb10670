ghost use Rattle.std.specs.Prelude.{◌≡◌, List, Err};
ghost use Rattle.pk_base.specs.declared.tag.Tag.{Tag};
ghost use Rattle.pk_base.specs.declared.call.Call.{Call};
ghost use Rattle.pk_base.specs.declared.refusal.Refusal.{Refusal};
ghost use Rattle.pk_model.specs.Maps.{EntityMap};
ghost use Rattle.pk_model.specs.Modelling.{IsModeller};
ghost use Rattle.solid_model.specs.Shapes.{shape_of};
ghost use Rattle.solid_model.specs.Sound.{IsSound};
ghost use Rattle.solid_model.specs.Euler.{euler};

/// A sound map is that of one shape alone, and `shape_of` reads it.
pub fn the_shape_is_the_only_one()
    ensures only { (m : EntityMap) (a b : IsSound m) → a.shape ≡ b.shape }
    ensures read { (m : EntityMap) (a : IsSound m) → shape_of m ≡ a.shape }
{}

/// Whether a call is refused, and why, does not depend on the tags, and a call that is refused
/// takes none.
pub fn a_refusal_takes_nothing()
    ensures alike { (m : EntityMap) (c : Call) (tags other : List Tag) (e : Refusal)
        → euler.step m c tags ≡ Err e → euler.step m c other ≡ Err e }
    ensures free { (m : EntityMap) (c : Call) (tags : List Tag) (e : Refusal)
        → euler.step m c tags ≡ Err e → euler.cost m c ≡ 0 }
{}

/// The modelling of all calls is what is asked of a modeller.
pub fn euler_is_a_modeller()
    ensures { IsModeller euler }
{}
