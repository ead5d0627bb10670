//! Scripts as data, and the reports of their runs over vertex bodies.
ghost use Rattle.std.specs.Prelude.{◌≡◌};
ghost use Rattle.pk_model.specs.VertexBodies.{vertex_bodies};
ghost use Rattle.serial_run.specs.Serial.{serial};
ghost use Rattle.script_thread.specs.WellFormed.{IsWellFormed};
ghost use Rattle.serial_uses.specs.WorkedRuns.{blocked_report, blocked_script};
ghost use Rattle.serial_uses.specs.WorkedRuns.{named_report, named_script};
ghost use Rattle.serial_uses.specs.WorkedRuns.{spent_report, spent_script};

/// A lock that waits two turns for the thread that holds the partition.
pub fn worked_blocked_lock()
    ensures well_formed { IsWellFormed blocked_script }
    ensures report { serial vertex_bodies blocked_script ≡ blocked_report }
{}

/// An act on a partition that is not locked, a lock out of order, and a name that is bound by `as`
/// and used with a place, also with one behind the end of its list.
pub fn worked_names()
    ensures well_formed { IsWellFormed named_script }
    ensures report { serial vertex_bodies named_script ≡ named_report }
{}

/// An act that is given up, since no block is left, and one behind it for which there is a tag.
pub fn worked_spent_tags()
    ensures well_formed { IsWellFormed spent_script }
    ensures report { serial vertex_bodies spent_script ≡ spent_report }
{}
