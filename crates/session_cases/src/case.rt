use crate::expected::Expected;
use crate::fault::CaseError;
use crate::outside::Outside;
use std::alloc::Global;
use std::io::ErrorKind;
use std::rt::Files;
use std::{fmt, fs};

/// A file of a case, by its ending.
#[derive(Clone, Copy, Debug, PartialEq, Eq)]
pub(crate) enum Part {
    /// The bytes of the script.
    Script,
    /// How often a piece stands behind these bytes, and the piece.
    More,
    /// The words of the program, one a line.
    Words,
    /// How reads and writes go.
    Outside,
    /// What must be written.
    Report,
    /// The status, and the line on standard error.
    Refusal,
}

impl Part {
    /// The name of the case, and the part of it that a file of this name is.
    pub(crate) fn of_file(file: &str) -> Option<(&str, Part)> {
        let (name, ending) = file.rsplit_once('.')?;
        let part = match ending {
            "script" => Part::Script,
            "more" => Part::More,
            "words" => Part::Words,
            "outside" => Part::Outside,
            "report" => Part::Report,
            "refusal" => Part::Refusal,
            _ => return None,
        };
        Some((name, part))
    }
}

impl fmt::Display for Part {
    fn fmt<W: fmt::Write>(&self, f: &mut fmt::Formatter<W>) -> fmt::Result {
        match self {
            Part::Script => write!(f, "script"),
            Part::More => write!(f, "more"),
            Part::Words => write!(f, "words"),
            Part::Outside => write!(f, "outside"),
            Part::Report => write!(f, "report"),
            Part::Refusal => write!(f, "refusal"),
        }
    }
}

/// A script, what it is run with, and what its run must show.
#[derive(Debug, Drop)]
pub(crate) struct Case {
    pub(crate) script: Vec<u8>,
    pub(crate) words: Vec<String>,
    pub(crate) outside: Outside,
    pub(crate) expected: Expected,
}

impl Case {
    /// Reads the files of the case of this name.
    pub(crate) fn read<R: Files + AllocGlobal>(rt: &R, name: &str) -> Result<Case, CaseError> {
        let alloc = rt.alloc();
        let script = bytes_of(rt, name)?;
        let more = text_of(rt, name, Part::More)?;
        let words = text_of(rt, name, Part::Words)?;
        let outside = text_of(rt, name, Part::Outside)?;
        let report = text_of(rt, name, Part::Report)?;
        let refusal = text_of(rt, name, Part::Refusal)?;
        Ok(Case {
            script: with_more(script, more.as_deref())?,
            words: words_of(alloc, words.as_deref().unwrap_or("--serial"))?,
            outside: Outside::of_text(alloc, outside.as_deref().unwrap_or(""))?,
            expected: Expected::of_texts(alloc, report, refusal.as_deref())?,
        })
    }
}

/// The bytes of the script of a case.
fn bytes_of<R: Files + AllocGlobal>(rt: &R, name: &str) -> Result<Vec<u8>, CaseError> {
    let path = format!(in rt.alloc(); "{name}.{}", Part::Script)?;
    fs::read(rt, path.as_str()).map_err(|error| CaseError::Unreadable(Part::Script, error))
}

/// The text of this file of a case, where the case has it.
fn text_of<R: Files + AllocGlobal>(
    rt: &R,
    name: &str,
    part: Part,
) -> Result<Option<String>, CaseError> {
    let path = format!(in rt.alloc(); "{name}.{part}")?;
    match fs::read_to_string(rt, path.as_str()) {
        Ok(text) => Ok(Some(text)),
        Err(error) if error.kind() == ErrorKind::NotFound => Ok(None),
        Err(error) => Err(CaseError::Unreadable(part, error)),
    }
}

/// The script with the piece behind it as often as the first line says.
fn with_more(script: Vec<u8>, more: Option<&str>) -> Result<Vec<u8>, CaseError> {
    let Some(more) = more else {
        return Ok(script);
    };
    let bad_line = CaseError::BadLine(Part::More, 1);
    let Some((count, piece)) = more.split_once('\n') else {
        return Err(bad_line);
    };
    let Ok(count) = count.parse::<u32>() else {
        return Err(bad_line);
    };
    let mut script = script;
    for _ in 0..count {
        script.extend_from_slice(piece.as_bytes())?;
    }
    Ok(script)
}

/// The words of a text, one a line.
fn words_of(alloc: Global, text: &str) -> Result<Vec<String>, CaseError> {
    let mut words = Vec::new(alloc);
    for line in text.lines() {
        words.push(String::from_str(alloc, line)?)?;
    }
    Ok(words)
}
