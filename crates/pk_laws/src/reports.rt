//! Reports with vertex bodies: which are legal ones of their script.
ghost use Rattle.std.specs.Prelude.{[], ◌∷◌};
ghost use Rattle.pk_model.specs.VertexBodies.{vertex_bodies};
ghost use Rattle.script_text.specs.LegalReport.{LegalReport, HasLegalJournals};
ghost use Rattle.script_text.specs.Printable.{IsPrintable};
ghost use Rattle.pk_laws.specs.WorkedReports.{made, mark_report, mark_script};
ghost use Rattle.pk_laws.specs.WorkedReports.{bare_script, untold_report};
ghost use Rattle.pk_laws.specs.WorkedReports.{endless_script, held_report};
ghost use Rattle.pk_laws.specs.WorkedReports.{shared_script, shared_report};
ghost use Rattle.pk_laws.specs.WorkedReports.{ordered_script, in_order, out_of_order};
ghost use Rattle.pk_laws.specs.WorkedReports.{full_script, drawn_report, spent_report};
ghost use Rattle.pk_laws.specs.WorkedReports.{wasteful_script, wasteful_report};

/// A report that is legal, two with the same journal that are not, since one tells the mark's line
/// a tag that was not made and the lines of the other leave an entry of the journal over, and one
/// that is not since a partition stays held.
pub fn what_is_a_legal_report()
    ensures legal { LegalReport vertex_bodies mark_script (mark_report (made (65 ∷ []))) }
    ensures other_answer { LegalReport vertex_bodies mark_script (mark_report (made (66 ∷ [])))
        → ⊥ }
    ensures left_over { LegalReport vertex_bodies bare_script untold_report → ⊥ }
    ensures held { LegalReport vertex_bodies endless_script held_report → ⊥ }
{}

/// Two threads that share two partitions: a name is bound and then used, a partition is unlocked,
/// an act on a partition that is not held is refused, and an `end` releases two partitions.
pub fn what_two_threads_report()
    ensures { LegalReport vertex_bodies shared_script shared_report }
{}

/// The journals of two partitions that tell the lines of a thread in their order, and two that tell
/// a body and a mark in the other order: these are legal by themselves, but the report is not.
pub fn what_is_out_of_order()
    ensures in_order { LegalReport vertex_bodies ordered_script in_order }
    ensures journals { HasLegalJournals vertex_bodies out_of_order }
    ensures out_of_order { LegalReport vertex_bodies ordered_script out_of_order → ⊥ }
{}

/// A thread whose thirteenth body wants more tags than block 1 has left. It draws block 2 and takes
/// tags of both; or it finds that 2 is above the last block, and is refused. A report is not legal
/// where a block is passed over, where an act is so refused while a block is left, or where one
/// draws a block though it has tags enough.
pub fn what_a_full_block_reports()
    ensures drawn { LegalReport vertex_bodies (full_script 2) (drawn_report 2 2) }
    ensures spent { LegalReport vertex_bodies (full_script 1) (spent_report 1 2) }
    ensures passed_over { LegalReport vertex_bodies (full_script 3) (drawn_report 3 3) → ⊥ }
    ensures too_soon { LegalReport vertex_bodies (full_script 2) (spent_report 2 3) → ⊥ }
    ensures wasteful { LegalReport vertex_bodies wasteful_script wasteful_report → ⊥ }
{}

/// Reports whose text is theirs alone.
pub fn what_is_printable()
    ensures one_thread { IsPrintable (mark_report (made (65 ∷ []))) }
    ensures two_threads { IsPrintable shared_report }
{}
