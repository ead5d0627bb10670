//! The laws of `pk_model` and `pk_laws` hold for every modeller as it stands: its meaning is one,
//! and it is what is asked of a modeller.
ghost use Rattle.std.specs.Prelude.{◌≡◌, ℕ, List, [], ◌∷◌, Some, IsSome};
ghost use Rattle.pk_base.specs.declared.tag.Tag.{Tag};
ghost use Rattle.pk_base.specs.declared.act.Entry.{Entry};
ghost use Rattle.pk_base.specs.declared.act.Reply.{Reply};
ghost use Rattle.pk_model.specs.State.{PartitionState};
ghost use Rattle.pk_model.specs.Replay.{replay};
ghost use Rattle.pk_model.specs.Apart.{Apart};
ghost use Rattle.pk_laws.specs.Return.{WasMade, GoesTo};

use entity_store::Modeller;
use pk_laws::a_goto_brings_the_mark_back;
use pk_model::{journals_are_apart, replays_are_sound};

/// For every modeller: over a journal that has a replay the map is sound, and no tag names two
/// entities.
pub fn no_tag_names_two_entities<K: Modeller>()
    ensures sound { (p : ℕ) (journal : List Entry) (s : PartitionState)
        → replay K.modelling p journal ≡ Some s → K.modelling.sound s.now }
    ensures apart { (journal : List Entry) → IsSome (replay K.modelling 1 journal)
        → Apart K.modelling (journal ∷ []) }
{
    replays_are_sound::<K>();
    journals_are_apart::<K>();
}

/// For every modeller: going to a mark brings back the map that stood when the mark was made,
/// whatever was done between: calls, draws, spent acts, and unmarks of other marks.
pub fn a_goto_brings_the_map_back<K: Modeller>()
    ensures { (p : ℕ) (before between : List Entry) (m : Tag)
        (w : WasMade K.modelling p before between m)
        (t : ℕ) (reached : PartitionState) (answer : Reply)
        → GoesTo K.modelling w.left t m reached answer → reached.now ≡ w.stood.now }
{
    a_goto_brings_the_mark_back::<K>();
}
