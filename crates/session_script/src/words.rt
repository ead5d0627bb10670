ghost use Rattle.std.specs.Prelude.{◌≡◌, ◌⊎◌, drop, IfOk, IfErr, MatchResult};
ghost use Rattle.std.specs.IoError.{error_kind};
ghost use Rattle.std.specs.Vec.Iter.{into_iter_items};
ghost use Rattle.session_script.specs.Words.{status_without_words};

use script_runner::Status;
use std::alloc::Global;
use std::env::Args;
use std::io::{self, ErrorKind};

/// The words of the program, of all that it was started with: those behind its name. The status is
/// that of a run whose words cannot be had.
pub(crate) fn words_of(alloc: Global, all: io::Result<Args>) -> Result<Vec<String>, Status>
    ensures words { IfOk all (λ all. MatchResult result
        (λ words. words.items ≡ drop 1 (into_iter_items all))
        (λ status. status ≡ Status.NoMemory)) }
    ensures wordless { IfErr all (λ error. result ≡ Err (status_without_words (error_kind error))) }
    ensures either { IfErr result (λ status. (status ≡ Status.BadWords)
        ⊎ (status ≡ Status.NoMemory)) }
{
    match all {
        Ok(all) => behind_name(alloc, all),
        Err(error) => Err(status_without_words(error.kind())),
    }
}

/// The words behind the first, which is the program's name.
fn behind_name(alloc: Global, all: Args) -> Result<Vec<String>, Status>
    ensures { MatchResult result
        (λ words. words.items ≡ drop 1 (into_iter_items all))
        (λ status. status ≡ Status.NoMemory) }
{
    let mut rest = all;
    let _name = rest.next();
    let mut words = Vec::new(alloc);
    for word in rest {
        words.push(word).map_err(|_| Status::NoMemory)?;
    }
    Ok(words)
}

/// How a run ends whose words cannot be had: `NoMemory`, or `BadWords`, since a word that is not
/// UTF-8 is none of the program's.
fn status_without_words(kind: ErrorKind) -> Status
    ensures { result ≡ status_without_words kind }
{
    match kind {
        ErrorKind::OutOfMemory => Status::NoMemory,
        _ => Status::BadWords,
    }
}
