ghost use Rattle.std.specs.Prelude.{◌≡◌, ◌≢◌, ◌↔◌, map, string_bytes, IfOk, IsTrue};
ghost use Rattle.clap.specs.Words.{app_of};
ghost use Rattle.session_words.specs.Words.{AreReadable, AreSerial, with_name, the_app};
ghost use Rattle.session_words.specs.declared.reading.WordsNo.TheVariants as no;

use clap::error::ErrorKind;
use clap::{Arg, ArgAction, Command};
use std::alloc::{AllocError, Global};
use thiserror::Error;

/// What the words ask for.
#[derive(Clone, Copy, Debug, PartialEq, Eq)]
pub struct Words {
    /// The script is carried out by one thread.
    pub serial: bool,
}

/// Why words are not those of this program.
#[derive(Clone, Copy, Debug, PartialEq, Eq, Error)]
pub enum WordsNo {
    /// The program does not take them.
    #[error("bad words")]
    Bad,
    /// Memory ran out.
    #[error("no memory")]
    NoMemory,
}

impl From<AllocError> for WordsNo {
    ghost from_gives = { λ _ e. e ≡ no.NoMemory };

    fn from(_: AllocError) -> Self {
        WordsNo::NoMemory
    }
}

/// Reads the words of the program. The program's name is not among them.
///
/// Words that the program takes give `Ok`, and any others `Bad`. Where memory runs out, `NoMemory`
/// stands in place of either, and says nothing of the words.
pub fn read_words(alloc: Global, words: &[String]) -> Result<Words, WordsNo>
    ensures serial { IfOk result (λ w. IsTrue w.serial ↔ AreSerial (map string_bytes words.now)) }
    ensures readable { IfOk result (λ w. AreReadable (map string_bytes words.now)) }
    ensures bad { result ≡ Err WordsNo.Bad → ¬ (AreReadable (map string_bytes words.now)) }
{
    let all = with_name(alloc, words)?;
    let command = program(alloc)?;
    match command.try_get_matches_from(all.as_slice()) {
        Ok(matches) => Ok(Words {
            serial: matches.get_flag("serial"),
        }),
        Err(error) => Err(refusal_of(error.kind())),
    }
}

/// The words with the program's name in front, as `clap` takes them.
fn with_name<'w>(alloc: Global, words: &'w [String]) -> Result<Vec<&'w str>, AllocError>
    ensures { IfOk result (λ all. map (λ word. word.now) all.items
        ≡ with_name (map string_bytes words.entry.now)) }
{
    let mut all = Vec::new(alloc);
    all.push("session_script")?;
    for word in words {
        all.push(word.as_str())?;
    }
    Ok(all)
}

/// The program, as `clap` knows it.
fn program<'a>(alloc: Global) -> Result<Command<'a>, AllocError>
    ensures { IfOk result (λ command. app_of command ≡ the_app) }
{
    let serial = Arg::new(alloc, "serial")
        .long("serial")
        .action(ArgAction::SetTrue);
    Command::new(alloc, "session_script").arg(serial)
}

/// Why the words are refused where a parse of them ends with an error of this kind.
fn refusal_of(kind: ErrorKind) -> WordsNo
    ensures { result ≡ WordsNo.Bad ↔ kind ≢ ErrorKind.OutOfMemory }
{
    match kind {
        ErrorKind::OutOfMemory => WordsNo::NoMemory,
        _ => WordsNo::Bad,
    }
}
