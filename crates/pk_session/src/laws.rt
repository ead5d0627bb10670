//! Whose an entry is.
ghost use Rattle.std.specs.Prelude.{◌≡◌};
ghost use Rattle.pk_base.specs.declared.act.Entry.{Entry};
ghost use Rattle.pk_model.specs.Replay.{thread_of};
ghost use Rattle.session_table.specs.Entries.{thread_of as seat_of};

/// The seat of an entry, as the table reads it, is the entry's thread.
pub fn an_entry_has_one_thread()
    ensures { (e : Entry) → seat_of e ≡ thread_of e }
{}
