//! What it is to be the same but for names. The functions here have no code.
ghost use Rattle.std.specs.Prelude.{◌++◌, List};
ghost use Rattle.pk_base.specs.declared.tag.Tag.{Tag};
ghost use Rattle.solid_model.specs.Items.{Shape};
ghost use Rattle.solid_model.specs.SameButNames.{SameButNames};
ghost use Rattle.euler_laws.specs.WorkedNames.{killed, made, made_anew, moved, renumbered, robbed};
ghost use Rattle.euler_laws.specs.WorkedNames.{two_edges};

/// A shape is the same as itself; the other way, what was made anew was killed; and of two steps
/// one after the other, what was killed and what was made anew add up.
pub fn names_are_an_equivalence()
    ensures reflexive { (gone anew : List Tag) (S : Shape) → SameButNames gone anew S S }
    ensures symmetric { (gone anew : List Tag) (S R : Shape) → SameButNames gone anew S R
        → SameButNames anew gone R S }
    ensures transitive { (gone anew then_gone then_anew : List Tag) (S R Q : Shape)
        → SameButNames gone anew S R → SameButNames then_gone then_anew R Q
        → SameButNames (gone ++ then_gone) (anew ++ then_anew) S Q }
{}

/// An edge that was killed and made anew: the shape is the same but for names, though its loop is
/// written from another fin, and an attribute of what was killed is gone. It is not so where a
/// vertex that stayed has another point, where an attribute of what stayed is gone, or where an
/// edge that stayed has another tag.
pub fn worked_names()
    ensures same { SameButNames killed made two_edges made_anew }
    ensures point { SameButNames killed made two_edges moved → ⊥ }
    ensures attribute { SameButNames killed made two_edges robbed → ⊥ }
    ensures tag { SameButNames killed made two_edges renumbered → ⊥ }
{}
