ghost use Rattle.std.specs.Prelude.{◌≡◌, ℕ, List, Option, IfOk};
ghost use Rattle.std.specs.Str.{is_utf8};
ghost use Rattle.line_words.specs.Lines.{line_as};

use crate::words::Words;
use std::alloc::Global;
use std::str;
use wide_sums::Memory;

/// One line: passed over, out of form, or in a form.
#[derive(Drop)]
pub enum Line<S: Drop> {
    /// No word, or a first word that begins with `#`; any bytes.
    Passed,
    /// Not UTF-8, or words that have no form.
    Faulty,
    /// Words that have a form.
    Says(S),
}

/// What the words of a line say.
pub trait LineForm: Sized + Drop {
    ghost meaning: { List ℕ → List (List ℕ) → Option Self };

    /// What the first word and the words after it say.
    fn read(alloc: Global, first: &[u8], words: &mut Words<'_>) -> Result<Option<Self>, Memory>
        ensures { IfOk result (λ form. form ≡ meaning first.now words.old) };
}

/// What the bytes of one line say.
pub fn read_line<S: LineForm>(alloc: Global, bytes: &[u8]) -> Result<Line<S>, Memory>
    ensures { IfOk result (λ line. line ≡ line_as S.meaning bytes.now) }
{
    let mut words = Words::new(bytes);
    let Some(first) = words.next() else {
        return Ok(Line::Passed);
    };
    if let [b'#', ..] = first {
        return Ok(Line::Passed);
    }
    if !is_text(bytes) {
        return Ok(Line::Faulty);
    }
    match S::read(alloc, first, &mut words)? {
        Some(form) => Ok(Line::Says(form)),
        None => Ok(Line::Faulty),
    }
}

fn is_text(bytes: &[u8]) -> bool
    ensures { result ≡ is_utf8 bytes.now }
{
    match str::from_utf8(bytes) {
        Ok(_) => true,
        Err(_) => false,
    }
}
