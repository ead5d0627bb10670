//! Marks: going back to one, and their order. These laws hold for every modeller, whatever its
//! calls do.
ghost use Rattle.std.specs.Prelude.{◌≡◌, ℕ, List, [], ◌∷◌, ◌++◌, map, Some, IsTrue};
ghost use Rattle.std.specs.FinMap.{empty};
ghost use Rattle.pk_base.specs.Blocks.{tag};
ghost use Rattle.pk_base.specs.declared.tag.Tag.{Tag};
ghost use Rattle.pk_base.specs.declared.list.MarkRow.{MarkRow};
ghost use Rattle.pk_base.specs.declared.act.Entry.{Entry};
ghost use Rattle.pk_base.specs.declared.act.Entry.TheVariants.{Claimed, Did};
ghost use Rattle.pk_base.specs.declared.act.Reply.{Reply};
ghost use Rattle.pk_base.specs.declared.act.Reply.TheVariants.{Went};
ghost use Rattle.pk_base.specs.declared.refusal.Refusal.TheVariants.{MarkDeleted};
ghost use Rattle.pk_model.specs.Tags.{TagsAscend};
ghost use Rattle.pk_model.specs.Maps.{diff};
ghost use Rattle.pk_model.specs.State.{PartitionState, initial_mark, holds};
ghost use Rattle.pk_model.specs.Step.{live_rows};
ghost use Rattle.pk_model.specs.Replay.{replay};
ghost use Rattle.pk_model.specs.VertexBodies.{vertex_bodies};
ghost use Rattle.pk_laws.specs.Return.{WasMade, IsUnmarked, GoesTo, IsRefused};
ghost use Rattle.pk_laws.specs.WorkedJournals.{vertex_body};

use pk_model::Meaning;

/// Going to a mark brings back the map that stood when the mark was made, whatever was done
/// between: exactly the entities, attributes and live tags of then. The lists are exactly the
/// difference between the map that is left and that one, and nothing else changes but which mark is
/// current. The partition's holder can go there until an unmark of the mark is asked for; from then
/// on it is refused as deleted, which changes nothing. The initial mark stands for the empty map,
/// and the holder can always go there.
pub fn a_goto_brings_the_mark_back<K: Meaning>()
    ensures map { (p : ℕ) (before between : List Entry) (m : Tag)
        (w : WasMade K.modelling p before between m)
        (t : ℕ) (reached : PartitionState) (answer : Reply)
        → GoesTo K.modelling w.left t m reached answer → reached.now ≡ w.stood.now }
    ensures lists { (p : ℕ) (before between : List Entry) (m : Tag)
        (w : WasMade K.modelling p before between m)
        (t : ℕ) (reached : PartitionState) (answer : Reply)
        → GoesTo K.modelling w.left t m reached answer
        → answer ≡ Went (diff w.left.now w.stood.now) }
    ensures rest { (p : ℕ) (before between : List Entry) (m : Tag)
        (w : WasMade K.modelling p before between m)
        (t : ℕ) (reached : PartitionState) (answer : Reply)
        → GoesTo K.modelling w.left t m reached answer
        → reached ≡ record w.left { now = reached.now; at = m } }
    ensures kept { (p : ℕ) (before between : List Entry) (m : Tag)
        (w : WasMade K.modelling p before between m) (t : ℕ)
        → (IsUnmarked m between → ⊥) → IsTrue (holds w.left t)
        → GoesTo K.modelling w.left t m (record w.left { now = w.stood.now; at = m })
        (Went (diff w.left.now w.stood.now)) }
    ensures deleted { (p : ℕ) (before between : List Entry) (m : Tag)
        (w : WasMade K.modelling p before between m) (t : ℕ)
        → IsUnmarked m between → IsTrue (holds w.left t)
        → IsRefused K.modelling w.left t m (MarkDeleted m) }
    ensures initial { (p : ℕ) (journal : List Entry) (left : PartitionState) (t : ℕ)
        → replay K.modelling p journal ≡ Some left → IsTrue (holds left t)
        → GoesTo K.modelling left t (initial_mark p)
        (record left { now = empty; at = initial_mark p }) (Went (diff left.now empty)) }
{}

/// There are such marks: between two bodies a mark was made.
pub fn worked_mark()
    ensures { WasMade vertex_bodies 1 (Claimed 1 ∷ Did 1 (vertex_body 0) ∷ [])
        (Did 1 (vertex_body 1) ∷ []) (tag 70) }
{}

/// The live marks are listed by ascending tags, over every replay: so none is listed twice, and a
/// mark stands after all that were made before it.
pub fn live_marks_ascend<K: Meaning>()
    ensures { (p : ℕ) (journal : List Entry) (s : PartitionState)
        → replay K.modelling p journal ≡ Some s
        → TagsAscend (map (λ (r : MarkRow). r.tag) (live_rows s.marks)) }
{}
