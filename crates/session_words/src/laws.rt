//! Laws on which words the program takes. The functions here have no code.
ghost use Rattle.std.specs.Prelude.{◌≡◌, ◌⊎◌, ◌↔◌, ℕ, List, [], ◌∷◌, codes, Contains};
ghost use Rattle.session_words.specs.Words.{AreReadable, AreSerial};

/// The program takes `--serial` or nothing, and behind it `--` or nothing. The run is serial where
/// `--serial` is among the words.
pub fn what_the_program_takes()
    ensures readable { (words : List (List ℕ)) → AreReadable words
        ↔ ((words ≡ [])
        ⊎ ((words ≡ codes "--serial" ∷ [])
        ⊎ ((words ≡ codes "--" ∷ [])
        ⊎ (words ≡ codes "--serial" ∷ codes "--" ∷ [])))) }
    ensures serial { (words : List (List ℕ)) → AreReadable words
        → AreSerial words ↔ Contains words (codes "--serial") }
{}

/// Words that the program takes, and words that it does not take.
pub fn worked_words()
    ensures none { AreReadable [] × ¬ (AreSerial []) }
    ensures serial { AreReadable (codes "--serial" ∷ []) × AreSerial (codes "--serial" ∷ []) }
    ensures twice { ¬ (AreReadable (codes "--serial" ∷ codes "--serial" ∷ [])) }
    ensures valued { ¬ (AreReadable (codes "--serial=true" ∷ [])) }
    ensures shortened { ¬ (AreReadable (codes "--ser" ∷ [])) }
    ensures unknown { ¬ (AreReadable (codes "--fast" ∷ [])) }
    ensures help { ¬ (AreReadable (codes "--help" ∷ [])) }
    ensures version { ¬ (AreReadable (codes "--version" ∷ [])) }
    ensures made { ¬ (AreReadable (codes "--made" ∷ codes "3" ∷ [])) }
    ensures stray { ¬ (AreReadable (codes "x" ∷ [])) }
    ensures behind_serial { ¬ (AreReadable (codes "--serial" ∷ codes "x" ∷ [])) }
    ensures behind_dashes { ¬ (AreReadable (codes "--" ∷ codes "--serial" ∷ [])) }
{}
