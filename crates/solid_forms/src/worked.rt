//! Worked examples: a lamina and a prism of three corners, to which the laws apply.
ghost use Rattle.std.specs.Prelude.{◌≡◌, pos, [], ◌∷◌, map};
ghost use Rattle.pk_base.specs.Blocks.{tag};
ghost use Rattle.pk_base.specs.declared.call.Call.TheVariants.{Lamina, Prism};
ghost use Rattle.solid_model.specs.Places.{fins_at};
ghost use Rattle.solid_forms.specs.Reached.{Reaches};
ghost use Rattle.solid_forms.specs.Worked.{three, tags_to, the_lamina, the_prism, lamina_lists, prism_lists};

/// A lamina of three corners is made where nothing stands, and the lists of its two loops.
pub fn worked_lamina()
    ensures reached { Reaches [] (Lamina (pos 0) three) (tags_to 65 82) the_lamina }
    ensures lists { map (λ l. fins_at the_lamina (tag l)) (68 ∷ 79 ∷ [])
        ≡ map (map tag) lamina_lists }
{}

/// A prism of three corners is made where nothing stands, and the lists of its loops.
pub fn worked_prism()
    ensures reached { Reaches [] (Prism (pos 0) (pos 1) three) (tags_to 65 109) the_prism }
    ensures lists { map (λ l. fins_at the_prism (tag l)) (68 ∷ 79 ∷ 96 ∷ 101 ∷ 106 ∷ [])
        ≡ map (map tag) prism_lists }
{}
