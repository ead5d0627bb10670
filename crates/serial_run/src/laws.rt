//! What holds of every script whose threads take turns, for any modeller.
ghost use Rattle.std.specs.Prelude.{◌≡◌, ℕ, List, Some};
ghost use Rattle.pk_model.specs.Modelling.{IsModeller};
ghost use Rattle.script_text.specs.declared.script.Script.{Script};
ghost use Rattle.script_text.specs.declared.script.ScriptLine.{ScriptLine};
ghost use Rattle.script_thread.specs.Thread.{ThreadState};
ghost use Rattle.serial_run.specs.Serial.{RunState, lines_at, run_begins, run_of, thread_at, turn, turns};
ghost use Rattle.script_thread.specs.WellFormed.{IsWellFormed};
ghost use Rattle.serial_run.specs.Ends.{HasEnded, HaveEnded, SomeGoesOn};

use pk_model::Meaning;

/// After any turns of a well formed script in which some thread has not ended, some thread that has
/// not ended does not wait.
pub fn some_thread_goes_on<K: Meaning>()
    requires { IsModeller K.modelling }
    ensures { (script : Script) (ts : List ℕ) (t : ℕ) (s : ThreadState) → IsWellFormed script
        → thread_at (turns K.modelling script.threads (run_begins script) ts).threads t ≡ Some s
        → (HasEnded (lines_at script.threads t) s → ⊥)
        → SomeGoesOn script.threads (turns K.modelling script.threads (run_begins script) ts) }
{}

/// The run of every well formed script ends: all threads have ended, and from then on turns change
/// nothing. No turn of a thread that has ended changes anything, or of one that is not there.
pub fn every_script_ends<K: Meaning>()
    requires { IsModeller K.modelling }
    ensures ends { (script : Script) → IsWellFormed script
        → HaveEnded script.threads (run_of K.modelling script) }
    ensures stays { (lines : List (List ScriptLine)) (r : RunState) (ts : List ℕ)
        → HaveEnded lines r → turns K.modelling lines r ts ≡ r }
    ensures idle { (lines : List (List ScriptLine)) (r : RunState) (t : ℕ)
        → ((s : ThreadState) → thread_at r.threads t ≡ Some s → HasEnded (lines_at lines t) s)
        → turn K.modelling lines r t ≡ r }
{}
