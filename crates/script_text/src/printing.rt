//! The printing of a report.
ghost use Rattle.std.specs.Prelude.{◌≡◌, [], ◌++◌, codes, OnOk, IfOk};
ghost use Rattle.std.specs.List.{flat_map};
ghost use Rattle.std.specs.Fmt.{AppendsText};
ghost use Rattle.script_text.specs.Text.{number, newline, line_text, threads_text, entry_line, journals_text, text_of};

use crate::{EntryList, Line, Report, SaidList};
use entries::write_entry;
use pk_base::{Entry, NoMemory};
use said::write_said;
use std::alloc::Global;
use std::fmt::Display;
use std::io::Write;
use std::marker::Model;

mod entries;
mod fields;
mod said;

/// The text of a report.
#[derive(Debug, Drop)]
pub struct Text {
    bytes: Vec<u8>,
}

impl Model for Text {
    ghost use Rattle.std.specs.Prelude.{List, ℕ};

    ghost Value = { List ℕ };

    ghost view = { λ t. t.bytes.items };
}

impl Text {
    fn new(alloc: Global) -> Text
        ensures { result ≡ [] }
    {
        Text {
            bytes: Vec::new(alloc),
        }
    }

    /// The bytes.
    pub fn as_slice(&self) -> &[u8]
        ensures { result.now ≡ self.now }
    {
        self.bytes.as_slice()
    }

    // What `write!` calls. The bytes are no `String`, since an attribute's name need not be UTF-8.
    fn write_fmt<D: Display + Drop>(&mut self, value: D) -> Result<(), NoMemory>
        ensures { OnOk result (AppendsText self.old self.new (D.output value)) }
    {
        match Write::write_fmt(&mut self.bytes, value) {
            Ok(()) => Ok(()),
            Err(_) => Err(NoMemory),
        }
    }

    fn push_bytes(&mut self, bytes: &[u8]) -> Result<(), NoMemory>
        ensures { OnOk result (self.new ≡ self.old ++ bytes.now) }
    {
        self.bytes.extend_from_slice(bytes)?;
        Ok(())
    }
}

/// The text of a report: its numbers, the transcript of each thread, the journal of each partition,
/// and `end`, each line ended by byte 10. It fails only where memory runs out.
pub fn report_text(alloc: Global, report: &Report) -> Result<Text, NoMemory>
    ensures { IfOk result (λ text. text ≡ text_of report.now) }
{
    let mut out = Text::new(alloc);
    write_heading(&mut out, report.n, report.last)?;
    write_threads(&mut out, report.threads.as_slice())?;
    write_journals(alloc, &mut out, report.journals.as_slice())?;
    write_end(&mut out)?;
    Ok(out)
}

fn write_heading(out: &mut Text, n: u32, last: u32) -> Result<(), NoMemory>
    ensures { OnOk result (out.new
        ≡ out.old ++ (codes "report" ++ number n ++ number last ++ newline)) }
{
    writeln!(out, "report {n} {last}")
}

fn write_end(out: &mut Text) -> Result<(), NoMemory>
    ensures { OnOk result (out.new ≡ out.old ++ (codes "end" ++ newline)) }
{
    writeln!(out, "end")
}

fn write_threads(out: &mut Text, threads: &[SaidList]) -> Result<(), NoMemory>
    ensures { OnOk result (out.new ≡ out.old ++ threads_text 1 threads.now) }
{
    for (i, lines) in threads.iter().enumerate() {
        let thread = i + 1;
        writeln!(out, "thread {thread}")?;
        write_lines(out, lines.as_slice())?;
    }
    Ok(())
}

fn write_lines(out: &mut Text, lines: &[Line]) -> Result<(), NoMemory>
    ensures { OnOk result (out.new ≡ out.old ++ flat_map line_text lines.now) }
{
    for line in lines {
        write_line(out, line)?;
    }
    Ok(())
}

fn write_line(out: &mut Text, line: &Line) -> Result<(), NoMemory>
    ensures { OnOk result (out.new ≡ out.old ++ line_text line.now) }
{
    let number = line.number;
    write!(out, "{number} ")?;
    write_said(out, &line.said)?;
    writeln!(out)
}

fn write_journals(alloc: Global, out: &mut Text, journals: &[EntryList]) -> Result<(), NoMemory>
    ensures { OnOk result (out.new ≡ out.old ++ journals_text 1 journals.now) }
{
    for (i, entries) in journals.iter().enumerate() {
        let partition = i + 1;
        writeln!(out, "partition {partition}")?;
        write_entries(alloc, out, entries.as_slice())?;
    }
    Ok(())
}

fn write_entries(alloc: Global, out: &mut Text, entries: &[Entry]) -> Result<(), NoMemory>
    ensures { OnOk result (out.new ≡ out.old ++ flat_map entry_line entries.now) }
{
    for entry in entries {
        write_entry(alloc, out, entry)?;
        writeln!(out)?;
    }
    Ok(())
}
