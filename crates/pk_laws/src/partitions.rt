//! Replays of one partition: worked examples, and journals that are not legal or not apart.
ghost use Rattle.std.specs.Prelude.{◌≡◌, ℕ, ◌+◌, ◌*◌, ◌<◌, ◌≤◌, [], ◌∷◌, ◌++◌, None, Some};
ghost use Rattle.pk_base.specs.Blocks.{tag};
ghost use Rattle.pk_base.specs.declared.act.Act.TheVariants.{Mark};
ghost use Rattle.pk_base.specs.declared.act.Entry.TheVariants.{Claimed, Drew, Did, Spent, Released};
ghost use Rattle.pk_base.specs.declared.refusal.Refusal.TheVariants.{TagsSpent};
ghost use Rattle.pk_model.specs.Modelling.{IsModeller};
ghost use Rattle.pk_model.specs.Step.{blocks_short};
ghost use Rattle.pk_model.specs.Replay.{Legal};
ghost use Rattle.pk_model.specs.Apart.{Apart, NoRepeats};
ghost use Rattle.pk_model.specs.VertexBodies.{vertex_bodies};
ghost use Rattle.pk_laws.specs.WorkedJournals.{answers, used_by, made, refused, vertex_body};
ghost use Rattle.pk_laws.specs.WorkedJournals.{there_and_back, there_and_back_answers};
ghost use Rattle.pk_laws.specs.WorkedJournals.{two_branches, two_branches_answers};
ghost use Rattle.pk_laws.specs.WorkedJournals.{below_a_deleted_mark, below_a_deleted_mark_answers};
ghost use Rattle.pk_laws.specs.WorkedJournals.{no_marks, no_marks_answers, outside, outside_answers};
ghost use Rattle.pk_laws.specs.WorkedJournals.{twelve_bodies, then_answers, drawn_journal, spent_journal, untidy};

/// The number of blocks that are missing is the least with which the tags suffice.
pub fn blocks_short_is_least()
    ensures suffices { (cost spare : ℕ) → cost ≤ spare + 64 * blocks_short cost spare }
    ensures least { (cost spare k : ℕ) → cost ≤ spare + 64 * k → blocks_short cost spare ≤ k }
{}

/// What is not apart: tags that stand twice, and the journal of a modeller that makes an entity
/// under a tag that it did not take, which so is not what is asked of a modeller.
pub fn what_is_not_apart()
    ensures repeat { NoRepeats (tag 65 ∷ tag 65 ∷ []) → ⊥ }
    ensures found { Apart untidy ((Claimed 1 ∷ Did 1 (vertex_body 0) ∷ []) ∷ []) → ⊥ }
    ensures untidy { IsModeller untidy → ⊥ }
{}

/// What is not legal: an act by a thread that does not hold the partition, a claim of one that is
/// held, a release by another, an act with too few tags, a refusal for want of tags where there are
/// enough, a block that is not above those owned, and one that is not above the partitions or is
/// above the last.
pub fn what_is_not_legal()
    ensures unheld { (n last : ℕ) → Legal vertex_bodies 1 n last (Did 1 Mark ∷ []) → ⊥ }
    ensures held_by_another { (n last : ℕ)
        → Legal vertex_bodies 1 n last (Claimed 1 ∷ Did 2 Mark ∷ []) → ⊥ }
    ensures claimed_twice { (n last : ℕ)
        → Legal vertex_bodies 1 n last (Claimed 1 ∷ Claimed 2 ∷ []) → ⊥ }
    ensures released_by_another { (n last : ℕ)
        → Legal vertex_bodies 1 n last (Claimed 1 ∷ Released 2 ∷ []) → ⊥ }
    ensures too_few { (n last : ℕ)
        → Legal vertex_bodies 1 n last (twelve_bodies ++ Did 1 (vertex_body 1) ∷ []) → ⊥ }
    ensures enough { (n last next : ℕ)
        → Legal vertex_bodies 1 n last (Claimed 1 ∷ Spent 1 next (vertex_body 1) ∷ []) → ⊥ }
    ensures drawn_again { (n last : ℕ)
        → Legal vertex_bodies 1 n last (Claimed 1 ∷ Drew 1 9 ∷ Drew 1 9 ∷ []) → ⊥ }
    ensures drawn_within { (b : ℕ)
        → Legal vertex_bodies 1 3 9 (drawn_journal b) → (3 < b) × (b ≤ 9) }
{}

/// The bounds of what a legal journal draws and finds spent, in a session of three partitions whose
/// last block is 9: a block from 4 to 9, and a number from 10 to 65,544. Journals at the bounds are
/// legal, and those just outside are not.
pub fn what_is_within_bounds()
    ensures first_block { Legal vertex_bodies 1 3 9 (drawn_journal 4) }
    ensures last_block { Legal vertex_bodies 1 3 9 (drawn_journal 9) }
    ensures no_block_below { Legal vertex_bodies 1 3 9 (drawn_journal 3) → ⊥ }
    ensures no_block_above { Legal vertex_bodies 1 3 9 (drawn_journal 10) → ⊥ }
    ensures least_spent { Legal vertex_bodies 1 3 9 (spent_journal 10) }
    ensures greatest_spent { Legal vertex_bodies 1 3 9 (spent_journal 65544) }
    ensures none_spent_below { Legal vertex_bodies 1 3 9 (spent_journal 9) → ⊥ }
    ensures none_spent_above { Legal vertex_bodies 1 3 9 (spent_journal 65545) → ⊥ }
{}

/// Making two bodies with a mark between them, and going back.
pub fn worked_there_and_back()
    ensures answers { answers there_and_back ≡ there_and_back_answers }
    ensures used { used_by there_and_back ≡ Some 12 }
{}

/// Two branches below one mark: no tag of the first is taken again on the second.
pub fn worked_two_branches()
    ensures answers { answers two_branches ≡ two_branches_answers }
    ensures used { used_by two_branches ≡ Some 18 }
{}

/// Deleting a mark that has a child.
pub fn worked_deleted_mark()
    ensures { answers below_a_deleted_mark ≡ below_a_deleted_mark_answers }
{}

/// Acts on tags that are no marks, and calls whose points are outside the range.
pub fn worked_refusals()
    ensures marks { answers no_marks ≡ no_marks_answers }
    ensures points { answers outside ≡ outside_answers }
{}

/// A call that needs more tags than are left: with another block it takes tags of both, and without
/// one it is refused.
pub fn worked_blocks()
    ensures drew { then_answers (Drew 1 9 ∷ Did 1 (vertex_body 1) ∷ [])
        ≡ None ∷ made (125 ∷ 126 ∷ 127 ∷ 576 ∷ 577 ∷ []) ∷ [] }
    ensures spent { then_answers (Spent 1 100 (vertex_body 1) ∷ []) ≡ refused (TagsSpent 100) ∷ [] }
{}
