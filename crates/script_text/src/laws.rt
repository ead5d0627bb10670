ghost use Rattle.std.specs.Prelude.{◌≡◌};
ghost use Rattle.script_text.specs.Printable.{IsPrintable};
ghost use Rattle.script_text.specs.Text.{text_of};
ghost use Rattle.script_text.specs.declared.report.Report.{Report};

/// No two reports have one text, where the names in them have the form that a script gives them,
/// their mark rows hold tags of at least 64, and their numbers have at most 64 bits.
pub fn a_text_is_of_one_report()
    ensures { (r s : Report) → IsPrintable r → IsPrintable s → text_of r ≡ text_of s → r ≡ s }
{}
