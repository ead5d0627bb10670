//! The laws of shapes hold of the maps that calls are asked of.
ghost use Rattle.std.specs.Prelude.{ℤ, List};
ghost use Rattle.pk_base.specs.declared.tag.Tag.{Tag};
ghost use Rattle.pk_base.specs.declared.entity.Axis.{Axis};
ghost use Rattle.pk_base.specs.declared.entity.Pair.{Pair};
ghost use Rattle.pk_base.specs.declared.entity.Triple.{Triple};
ghost use Rattle.pk_base.specs.declared.call.Call.TheVariants.{Lamina, Sweep, Prism, Block, Move, Turn};
ghost use Rattle.solid_forms.specs.OfMaps.{MakesItsShape, ChangesItsShape};

/// On a sound map each of these calls, where it is not refused, does to the map's shape what the
/// laws of this crate speak of.
pub fn calls_reach_their_shapes()
    ensures lamina { (z : ℤ) (corners : List Pair) → MakesItsShape (Lamina z corners) }
    ensures sweep { (face : Tag) (by : Triple) → MakesItsShape (Sweep face by) }
    ensures prism { (z h : ℤ) (corners : List Pair) → MakesItsShape (Prism z h corners) }
    ensures block { (at size : Triple) → MakesItsShape (Block at size) }
    ensures moves { (body : Tag) (by : Triple) → ChangesItsShape (Move body by) }
    ensures turns { (body : Tag) (axis : Axis) (turns : ℤ)
        → ChangesItsShape (Turn body axis turns) }
{}
