//! The closed forms of solids.
ghost use Rattle.std.specs.Prelude.{◌≡◌, ◌+◌, ◌*◌, ℤ, ◌+ℤ◌, List, length, Ok};
ghost use Rattle.pk_base.specs.declared.tag.Tag.{Tag};
ghost use Rattle.pk_base.specs.declared.entity.Pair.{Pair};
ghost use Rattle.pk_base.specs.declared.entity.Triple.{Triple};
ghost use Rattle.pk_base.specs.declared.call.Call.TheVariants.{Lamina, Sweep, Prism, Block};
ghost use Rattle.pk_model.specs.Tags.{tag_at};
ghost use Rattle.solid_model.specs.Items.{Shape};
ghost use Rattle.solid_model.specs.Places.{PlacedFace, face_at, fins_at};
ghost use Rattle.solid_forms.specs.Reached.{Reaches, AllStays, MadeOf};
ghost use Rattle.solid_forms.specs.LaminaForm.{LaminaLists, LaminaParts, LaminaPoints};
ghost use Rattle.solid_forms.specs.SweepForm.{SweepSides, SweptFace, SweepParts, SweepPoints, StaysBut};
ghost use Rattle.solid_forms.specs.PrismForm.{PrismFaces, UpperPoints, sweep_tags, upper_fins};
ghost use Rattle.solid_forms.specs.BlockForm.{BlockVertices, BlockFaces};

/// A lamina of n corners takes 4n + 6 tags: its faces and their lists, its other parts at their
/// places, the points of its vertices, and nothing else. What stood stays.
pub fn lamina_form()
    ensures takes { (S R : Shape) (tags : List Tag) (z : ℤ) (corners : List Pair)
        → (r : Reaches S (Lamina z corners) tags R) → r.takes ≡ 4 * length corners + 6 }
    ensures lists { (S R : Shape) (tags : List Tag) (z : ℤ) (corners : List Pair)
        → Reaches S (Lamina z corners) tags R → LaminaLists R tags (length corners) }
    ensures parts { (S R : Shape) (tags : List Tag) (z : ℤ) (corners : List Pair)
        → Reaches S (Lamina z corners) tags R → LaminaParts R tags (length corners) }
    ensures points { (S R : Shape) (tags : List Tag) (z : ℤ) (corners : List Pair)
        → Reaches S (Lamina z corners) tags R → LaminaPoints R tags z corners }
    ensures all { (S R : Shape) (tags : List Tag) (z : ℤ) (corners : List Pair)
        → Reaches S (Lamina z corners) tags R → MadeOf S (4 * length corners + 6) tags R }
    ensures others { (S R : Shape) (tags : List Tag) (z : ℤ) (corners : List Pair)
        → Reaches S (Lamina z corners) tags R → AllStays S R }
{}

/// A sweep of a face of n fins takes 9n tags: the side faces and their lists, the swept face with
/// its tag and its loop, the other parts at their places, the points of the new vertices, and
/// nothing else. All but the loop stays.
pub fn sweep_form()
    ensures takes { (S R : Shape) (tags : List Tag) (f : Tag) (by : Triple) (face : PlacedFace)
        → face_at S f ≡ Ok face → (r : Reaches S (Sweep f by) tags R)
        → r.takes ≡ 9 * length (fins_at S face.outer) }
    ensures sides { (S R : Shape) (tags : List Tag) (f : Tag) (by : Triple) (face : PlacedFace)
        → face_at S f ≡ Ok face → Reaches S (Sweep f by) tags R
        → SweepSides R tags face.shell (fins_at S face.outer) }
    ensures swept { (S R : Shape) (tags : List Tag) (f : Tag) (by : Triple) (face : PlacedFace)
        → face_at S f ≡ Ok face → Reaches S (Sweep f by) tags R
        → SweptFace R tags f face (length (fins_at S face.outer)) }
    ensures parts { (S R : Shape) (tags : List Tag) (f : Tag) (by : Triple) (face : PlacedFace)
        → face_at S f ≡ Ok face → Reaches S (Sweep f by) tags R
        → SweepParts S R tags face.body (fins_at S face.outer) }
    ensures points { (S R : Shape) (tags : List Tag) (f : Tag) (by : Triple) (face : PlacedFace)
        → face_at S f ≡ Ok face → Reaches S (Sweep f by) tags R
        → SweepPoints S R tags by face.body (fins_at S face.outer) }
    ensures all { (S R : Shape) (tags : List Tag) (f : Tag) (by : Triple) (face : PlacedFace)
        → face_at S f ≡ Ok face → Reaches S (Sweep f by) tags R
        → MadeOf S (9 * length (fins_at S face.outer)) tags R }
    ensures others { (S R : Shape) (tags : List Tag) (f : Tag) (by : Triple) (face : PlacedFace)
        → face_at S f ≡ Ok face → Reaches S (Sweep f by) tags R → StaysBut face.outer S R }
{}

/// A prism of n corners takes 13n + 6 tags: its faces and their lists, the points of its vertices
/// below and above, its other parts at their places, and nothing else. What stood stays.
pub fn prism_form()
    ensures takes { (S R : Shape) (tags : List Tag) (z h : ℤ) (corners : List Pair)
        → (r : Reaches S (Prism z h corners) tags R) → r.takes ≡ 13 * length corners + 6 }
    ensures faces { (S R : Shape) (tags : List Tag) (z h : ℤ) (corners : List Pair)
        → Reaches S (Prism z h corners) tags R → PrismFaces R tags (length corners) }
    ensures lower { (S R : Shape) (tags : List Tag) (z h : ℤ) (corners : List Pair)
        → Reaches S (Prism z h corners) tags R → LaminaPoints R tags z corners }
    ensures upper { (S R : Shape) (tags : List Tag) (z h : ℤ) (corners : List Pair)
        → Reaches S (Prism z h corners) tags R → UpperPoints R tags (z +ℤ h) corners }
    ensures lower_parts { (S R : Shape) (tags : List Tag) (z h : ℤ) (corners : List Pair)
        → Reaches S (Prism z h corners) tags R → LaminaParts R tags (length corners) }
    ensures upper_parts { (S R : Shape) (tags : List Tag) (z h : ℤ) (corners : List Pair)
        → Reaches S (Prism z h corners) tags R → SweepParts R R (sweep_tags tags (length corners))
        (tag_at tags 0) (upper_fins tags (length corners)) }
    ensures all { (S R : Shape) (tags : List Tag) (z h : ℤ) (corners : List Pair)
        → Reaches S (Prism z h corners) tags R → MadeOf S (13 * length corners + 6) tags R }
    ensures others { (S R : Shape) (tags : List Tag) (z h : ℤ) (corners : List Pair)
        → Reaches S (Prism z h corners) tags R → AllStays S R }
{}

/// A block takes 58 tags: its vertices and its faces stand at these places, counted from its body,
/// and there is nothing else. What stood stays.
pub fn block_form()
    ensures takes { (S R : Shape) (tags : List Tag) (at size : Triple)
        → (r : Reaches S (Block at size) tags R) → r.takes ≡ 58 }
    ensures vertices { (S R : Shape) (tags : List Tag) (at size : Triple)
        → Reaches S (Block at size) tags R → BlockVertices R tags at size }
    ensures faces { (S R : Shape) (tags : List Tag) (at size : Triple)
        → Reaches S (Block at size) tags R → BlockFaces R tags }
    ensures lower_parts { (S R : Shape) (tags : List Tag) (at size : Triple)
        → Reaches S (Block at size) tags R → LaminaParts R tags 4 }
    ensures upper_parts { (S R : Shape) (tags : List Tag) (at size : Triple)
        → Reaches S (Block at size) tags R
        → SweepParts R R (sweep_tags tags 4) (tag_at tags 0) (upper_fins tags 4) }
    ensures all { (S R : Shape) (tags : List Tag) (at size : Triple)
        → Reaches S (Block at size) tags R → MadeOf S 58 tags R }
    ensures others { (S R : Shape) (tags : List Tag) (at size : Triple)
        → Reaches S (Block at size) tags R → AllStays S R }
{}
