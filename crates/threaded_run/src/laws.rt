//! What the threads' promises come to when the session is closed.
ghost use Rattle.std.specs.Prelude.{◌≡◌, List, length};
ghost use Rattle.pk_model.specs.Apart.{Apart};
ghost use Rattle.script_text.specs.LegalReport.{LegalReport};
ghost use Rattle.script_text.specs.declared.report.Line.{Line};
ghost use Rattle.script_text.specs.declared.script.Script.{Script};
ghost use Rattle.partition.specs.Partition.{PartitionView};
ghost use Rattle.pk_session.specs.Ends.{Leaves, journals_of};
ghost use Rattle.pk_session.specs.Views.{SeatView};
ghost use Rattle.threaded_run.specs.Promise.{AreThrough, IsRootOf};

use entity_store::Modeller;

/// Where each thread of a script has run over a seat of its own, root has joined these seats and
/// has made no other, and the session is closed: what the threads were told and the journals are a
/// legal report of the script, and over the journals no tag names two entities.
pub fn what_the_seats_leave_is_a_legal_report<K: Modeller>()
    ensures legal { (script : Script) (root : SeatView) (said : List (List Line))
        (partitions : List PartitionView) → root.session.bounds.partitions ≡ script.n
        → root.session.bounds.last ≡ script.last → IsRootOf (length script.threads) root
        → AreThrough K.modelling root 1 script.threads said
        → Leaves K.modelling root partitions
        → LegalReport K.modelling script (record {
          n = script.n;
          last = script.last;
          threads = said;
          journals = journals_of partitions;
        }) }
    ensures apart { (root : SeatView) (partitions : List PartitionView)
        → Leaves K.modelling root partitions → Apart K.modelling (journals_of partitions) }
{}
