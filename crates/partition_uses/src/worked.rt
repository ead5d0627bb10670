//! How much a mark and a goto may take: worked examples with pairs, and what holds for every
//! modeller. The functions have no code.
ghost use Rattle.std.specs.Prelude.{◌≡◌, ℕ, ◌+◌, List, [], ◌∷◌, ◌++◌, Some, IsSome};
ghost use Rattle.pk_base.specs.declared.act.Act.TheVariants as act;
ghost use Rattle.pk_base.specs.declared.act.Entry.{Entry};
ghost use Rattle.pk_base.specs.declared.act.Entry.TheVariants.{Did};
ghost use Rattle.pk_model.specs.Maps.{diff};
ghost use Rattle.pk_model.specs.State.{PartitionState};
ghost use Rattle.pk_model.specs.Replay.{replay};
ghost use Rattle.partition.specs.Work.{load, map_named, size, work};
ghost use Rattle.partition_uses.specs.WorkedWork.{behind_a_mark, load_of, mark, pair, to, two_branches, unmark, work_to};

use entity_store::Modeller;

/// The load: a pair adds its two entities. A mark begins anew, and so does a goto; one that is
/// refused leaves the load. Where the current mark is deleted, what it has more than its parent is
/// added.
pub fn worked_load()
    ensures beginning { load_of [] ≡ 0 }
    ensures one_pair { load_of (pair ∷ []) ≡ 2 }
    ensures three_pairs { load_of (pair ∷ pair ∷ pair ∷ []) ≡ 6 }
    ensures marked { load_of (pair ∷ mark ∷ []) ≡ 0 }
    ensures behind { load_of behind_a_mark ≡ 2 }
    ensures refused { load_of (behind_a_mark ++ to 65 ∷ []) ≡ 2 }
    ensures gone { load_of (behind_a_mark ++ to 64 ∷ []) ≡ 0 }
    ensures deleted { load_of (behind_a_mark ++ unmark 67 ∷ []) ≡ 4 }
{}

/// The work: one where nothing differs. Behind the mark 67, which has a pair, is another pair, so to
/// 67 it is 2 and one more, and to 64, where all began, 4 with an edge and one more. From one branch
/// to another it is what either has behind their mark and what is unsaved, with two edges and one
/// more; what stands below both is not in it.
pub fn worked_work()
    ensures nothing { work_to 67 (pair ∷ mark ∷ []) ≡ Some 1 }
    ensures unsaved { work_to 67 behind_a_mark ≡ Some 3 }
    ensures up { work_to 64 behind_a_mark ≡ Some 6 }
    ensures down { work_to 67 (pair ∷ mark ∷ to 64 ∷ []) ≡ Some 4 }
    ensures across { work_to 70 two_branches ≡ Some 9 }
{}

/// The work to the current mark is what is unsaved, and one.
pub fn work_to_the_current_mark()
    ensures { (s : PartitionState)
        → work s s.at ≡ size (diff (map_named s.marks s.at) s.now) + 1 }
{}

/// For every modeller: right after a mark the load is 0.
pub fn a_mark_begins_anew<K: Modeller>()
    ensures { (p t : ℕ) (journal : List Entry)
        → IsSome (replay K.modelling p (journal ++ Did t act.Mark ∷ []))
        → load K.modelling p (journal ++ Did t act.Mark ∷ []) ≡ 0 }
{}
