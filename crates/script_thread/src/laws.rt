//! What the lines of a thread say of its entries, whatever other threads do.
ghost use Rattle.std.specs.Prelude.{◌≡◌, ℕ, List};
ghost use Rattle.pk_base.specs.declared.act.Entry.{Entry};
ghost use Rattle.script_text.specs.Walk.{walker_of};
ghost use Rattle.script_text.specs.LegalReport.{IsTranscript};
ghost use Rattle.script_text.specs.declared.script.ScriptLine.{ScriptLine};
ghost use Rattle.script_text.specs.declared.report.Line.{Line};
ghost use Rattle.script_thread.specs.Journals.{EachGoesOnWithout};

use pk_model::Meaning;

/// A walk of a thread's lines over journals is the same walk over longer ones, which go on with
/// entries of other threads: what its lines say of the earlier ones, they say of these, and they
/// take all of its entries in both.
pub fn a_walk_is_one_of_longer_journals<K: Meaning>()
    ensures walker { (t : ℕ) (earlier journals : List (List Entry))
        → EachGoesOnWithout t earlier journals
        → walker_of K.modelling t journals ≡ walker_of K.modelling t earlier }
    ensures transcript { (n t : ℕ) (earlier journals : List (List Entry))
        (lines : List ScriptLine) (said : List Line) → EachGoesOnWithout t earlier journals
        → IsTranscript K.modelling n t earlier lines said
        → IsTranscript K.modelling n t journals lines said }
{}
