//! What a session of partitions means, over plain data and for any modeller: `specs/`, in the order
//! of its `Lib.antt`. The functions here are laws: their contracts state facts about the
//! definitions.
#![tactic(auto)]

ghost use Rattle.std.specs.Prelude.{◌≡◌, ℕ, ◌+◌, List, [], ◌∷◌, Some, IsSome, length, IsPermutation};
ghost use Rattle.std.specs.List.{range_with_len, AllByRecursion};
ghost use Rattle.pk_base.specs.declared.act.Entry.{Entry};
ghost use Rattle.pk_model.specs.State.{Mark, PartitionState};
ghost use Rattle.pk_model.specs.Modelling.{Modelling, IsModeller};
ghost use Rattle.pk_model.specs.Replay.{replay};
ghost use Rattle.pk_model.specs.Apart.{Apart};
ghost use Rattle.pk_model.specs.Sessions.{AreOneSession, EachReplays, drawn_in};
ghost use Rattle.pk_model.specs.VertexBodies.{vertex_bodies};

/// A type that stands for a modeller's meaning. It has no code.
pub trait Meaning {
    /// What the modeller means.
    ghost modelling: { Modelling };
}

/// The modeller of vertex bodies: it does `mvfs`, and refuses every other call.
pub struct VertexBodies;

impl Meaning for VertexBodies {
    ghost modelling = { vertex_bodies };
}

/// Vertex bodies are what is asked of a modeller.
pub fn vertex_bodies_are_a_modeller()
    ensures { IsModeller vertex_bodies }
{}

/// For any modeller: over the replay of a journal the map now and the map of every mark are sound.
pub fn replays_are_sound<K: Meaning>()
    requires { IsModeller K.modelling }
    ensures now { (p : ℕ) (journal : List Entry) (s : PartitionState)
        → replay K.modelling p journal ≡ Some s → K.modelling.sound s.now }
    ensures marks { (p : ℕ) (journal : List Entry) (s : PartitionState)
        → replay K.modelling p journal ≡ Some s
        → AllByRecursion (λ (k : Mark). K.modelling.sound k.map) s.marks }
{}

/// For any modeller: no tag names two entities, over one journal, over the journals of a session
/// whose drawn blocks are above its partitions and all different, and so over those whose blocks
/// came from one counter.
pub fn journals_are_apart<K: Meaning>()
    requires { IsModeller K.modelling }
    ensures one { (journal : List Entry) → IsSome (replay K.modelling 1 journal)
        → Apart K.modelling (journal ∷ []) }
    ensures all { (journals : List (List Entry)) → AreOneSession K.modelling journals
        → Apart K.modelling journals }
    ensures counted { (k : ℕ) (journals : List (List Entry)) → EachReplays K.modelling 1 journals
        → IsPermutation (drawn_in journals) (range_with_len (length journals + 1) k)
        → Apart K.modelling journals }
{}
