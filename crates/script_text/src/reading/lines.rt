//! The lines of a text, and the words of a line.
ghost use Rattle.std.specs.Prelude.{◌≡◌, ◌==◌, map, IfOk};
ghost use Rattle.std.specs.List.{slice_split};
ghost use Rattle.script_text.specs.Lines.{are_text_bytes, is_blank as blank, is_comment as comment, is_text_byte as text_byte, is_word, without_last as without, words_of};

use std::alloc::{AllocError, Global};

/// The bytes without the last one, where that is this one.
pub(crate) fn without_last(bytes: &[u8], last: u8) -> &[u8]
    ensures { result.now ≡ without last bytes.now }
{
    match bytes {
        [front @ .., b] if *b == last => front,
        _ => bytes,
    }
}

/// The words of a line, which stand apart by one or more blanks.
#[tactic(auto, unfolding(crate::specs::Lines::words_of))]
pub(crate) fn words(alloc: Global, line: &[u8]) -> Result<Vec<&[u8]>, AllocError>
    ensures { IfOk result (λ words. map (λ w. w.now) words.items ≡ words_of line.now) }
{
    line.split(|b| is_blank(*b))
        .filter(|word| !word.is_empty())
        .collect(alloc)
}

/// Whether the first byte that is no blank is `#`.
pub(crate) fn is_comment(words: &[&[u8]]) -> bool
    ensures { result ≡ comment (map (λ w. w.now) words.now) }
{
    match words.first() {
        Some([b'#', ..]) => true,
        _ => false,
    }
}

/// Whether each byte is a tab or one that prints.
pub(crate) fn is_text(line: &[u8]) -> bool
    ensures { result ≡ are_text_bytes line.now }
{
    line.iter().all(|b| is_text_byte(*b))
}

fn is_text_byte(b: u8) -> bool
    ensures { result ≡ text_byte b }
{
    b == b'\t' || (b' ' <= b && b <= b'~')
}

fn is_blank(b: u8) -> bool
    ensures { result ≡ blank b }
{
    b == b' ' || b == b'\t'
}

pub(crate) fn is_newline(b: u8) -> bool
    ensures { result ≡ (b == 10) }
{
    b == b'\n'
}
