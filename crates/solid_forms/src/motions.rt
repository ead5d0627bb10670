//! What the calls that move and turn a body change.
ghost use Rattle.std.specs.Prelude.{◌≡◌, ℤ, nat_abs, Ok};
ghost use Rattle.pk_base.specs.declared.tag.Tag.{Tag};
ghost use Rattle.pk_base.specs.declared.entity.Axis.{Axis};
ghost use Rattle.pk_base.specs.declared.entity.Triple.{Triple};
ghost use Rattle.pk_base.specs.declared.call.Call.TheVariants.{Move, Turn};
ghost use Rattle.pk_plane.specs.Turns.{moved, quarters};
ghost use Rattle.solid_model.specs.Items.{Shape};
ghost use Rattle.solid_model.specs.Rows.Effect.{Changes};
ghost use Rattle.solid_model.specs.Calls.{row_of};
ghost use Rattle.solid_forms.specs.Motion.{ChangesPoints};

/// A move and a turn change the points of the body's vertices alone: every other item is as it was.
pub fn motions_change_points()
    ensures moves { (S R : Shape) (b : Tag) (by : Triple)
        → row_of S (Move b by) ≡ Ok (Changes R) → ChangesPoints (moved by) b S R }
    ensures turns { (S R : Shape) (b : Tag) (axis : Axis) (k : ℤ)
        → row_of S (Turn b axis k) ≡ Ok (Changes R)
        → ChangesPoints (quarters (nat_abs k) axis) b S R }
{}
