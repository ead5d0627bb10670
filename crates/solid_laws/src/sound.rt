//! Maps that are not sound.
ghost use Rattle.solid_model.specs.Links.{links};
ghost use Rattle.solid_model.specs.Sound.{IsSound};
ghost use Rattle.solid_laws.specs.Unsound.{mate_not_mutual, edge_at_one_vertex, outer_of_another};
ghost use Rattle.solid_laws.specs.Unsound.{one_name_twice, two_cycles};

/// What is not sound: a fin whose mate has another mate, an edge that starts and ends at one
/// vertex, a face whose outer loop is another face's, an entity with two attributes of one name,
/// and a vertex whose fins go round it in two cycles.
pub fn what_is_not_sound()
    ensures mate { IsSound (links mate_not_mutual) → ⊥ }
    ensures edge { IsSound (links edge_at_one_vertex) → ⊥ }
    ensures outer { IsSound (links outer_of_another) → ⊥ }
    ensures attribute { IsSound (links one_name_twice) → ⊥ }
    ensures vertex { IsSound (links two_cycles) → ⊥ }
{}
