//! The faces of solids are plane.
ghost use Rattle.std.specs.Prelude.{◌≡◌, ◌≢◌, ℤ, List, Some, Ok};
ghost use Rattle.pk_base.specs.declared.tag.Tag.{Tag};
ghost use Rattle.pk_base.specs.declared.entity.Pair.{Pair};
ghost use Rattle.pk_base.specs.declared.entity.Triple.{Triple};
ghost use Rattle.pk_base.specs.declared.call.Call.TheVariants.{Lamina, Sweep, Prism, Block};
ghost use Rattle.solid_model.specs.Items.{Shape, item_at};
ghost use Rattle.solid_model.specs.Items.Item.{Face};
ghost use Rattle.solid_model.specs.Places.{PlacedFace, face_at};
ghost use Rattle.solid_forms.specs.Reached.{Reaches};
ghost use Rattle.solid_forms.specs.Planes.{IsPlane, NewFacesArePlane, HasItsPoints};

/// Every face of a lamina, of a prism and of a block is plane.
pub fn solid_planes()
    ensures lamina { (S R : Shape) (tags : List Tag) (z : ℤ) (corners : List Pair)
        → Reaches S (Lamina z corners) tags R → NewFacesArePlane S R }
    ensures prism { (S R : Shape) (tags : List Tag) (z h : ℤ) (corners : List Pair)
        → Reaches S (Prism z h corners) tags R → NewFacesArePlane S R }
    ensures block { (S R : Shape) (tags : List Tag) (at size : Triple)
        → Reaches S (Block at size) tags R → NewFacesArePlane S R }
{}

/// The side faces of a sweep are plane, the swept face is plane where it was, and every other face
/// has the loops and the points that it had.
pub fn sweep_planes()
    ensures sides { (S R : Shape) (tags : List Tag) (f : Tag) (by : Triple) (face : PlacedFace)
        → face_at S f ≡ Ok face → Reaches S (Sweep f by) tags R → NewFacesArePlane S R }
    ensures swept { (S R : Shape) (tags : List Tag) (f : Tag) (by : Triple) (face : PlacedFace)
        → face_at S f ≡ Ok face → Reaches S (Sweep f by) tags R → IsPlane S f → IsPlane R f }
    ensures others { (S R : Shape) (tags : List Tag) (f : Tag) (by : Triple) (face : PlacedFace)
        → face_at S f ≡ Ok face → Reaches S (Sweep f by) tags R
        → (g shell outer : Tag) → item_at S g ≡ Some (Face shell outer) → g ≢ f
        → HasItsPoints S R g }
{}
