ghost use Rattle.std.specs.Prelude.{◌≡◌, ◌<◌, ◌≤◌, ◌∷◌, ◌++◌, [], None, Some, length, IfNone, IfSome};
ghost use Rattle.std.specs.List.{position_or_len};
ghost use Rattle.std.specs.Option.{option_copied};
ghost use Rattle.line_words.specs.Words.{IsDark, before_mark, behind_mark, is_white, words_of};

use memchr::{memchr, memchr_iter};
use std::marker::Model;

/// The words of a line that are still to be read, seen as their list.
#[derive(Drop)]
pub struct Words<'a> {
    rest: &'a [u8],
}

impl<'a> Model for Words<'a> {
    ghost use Rattle.std.specs.Prelude.{ℕ, List};
    ghost use Rattle.line_words.specs.Words.{words_of};

    ghost Value = { List (List ℕ) };

    ghost view = { λ w. words_of w.rest.now };
}

/// How many bytes `spaces_ahead` looks at.
const LOOKED_AHEAD: usize = 256;

pub fn is_white_byte(byte: u8) -> bool
    ensures { result ≡ is_white byte }
{
    // Nearly all bytes are past the first test.
    byte <= b' ' && matches!(byte, b' ' | b'\t' | b'\n' | b'\r')
}

impl<'a> Words<'a> {
    /// All words of the line.
    pub fn new(line: &'a [u8]) -> Words<'a>
        ensures { result ≡ words_of line.now }
    {
        Words { rest: line }
    }

    /// Takes the next word.
    pub fn next(&mut self) -> Option<&'a [u8]>
        ensures some { IfSome result (λ word. self.old ≡ word.now ∷ self.new) }
        ensures none { IfNone result (self.old ≡ []) }
    {
        let from = behind_white(self.rest);
        if from.is_empty() {
            return None;
        }
        let (word, rest) = cut_word(from);
        self.rest = rest;
        Some(word)
    }

    /// How many spaces stand in the next bytes. In a short line with one space before each word it is the number of words.
    pub fn spaces_ahead(&self) -> usize
        ensures { result ≤ 256 }
    {
        let front = &self.rest[..self.rest.len().min(LOOKED_AHEAD)];
        memchr_iter(b' ', front).count()
    }
}

/// The bytes from the first on that isn't white.
fn behind_white(bytes: &[u8]) -> &[u8]
    ensures words { words_of result.now ≡ words_of bytes.now }
    ensures head { IsDark result.now }
{
    let mut rest = bytes;
    while let [byte, later @ ..] = rest {
        if !is_white_byte(*byte) {
            return rest;
        }
        rest = later;
    }
    rest
}

/// What stands before the first white, and what stands from there on.
fn cut_word(bytes: &[u8]) -> (&[u8], &[u8])
    requires some { 0 < length bytes.now }
    requires head { IsDark bytes.now }
    ensures { words_of bytes.now ≡ result.0.now ∷ words_of result.1.now }
{
    bytes.split_at(word_length(bytes))
}

/// How many bytes stand before the first white.
fn word_length(bytes: &[u8]) -> usize
    ensures length { result ≡ position_or_len is_white bytes.now }
    ensures within { result ≤ length bytes.now }
{
    let mut at = 0;
    while at < bytes.len() && !is_white_byte(bytes[at]) {
        at += 1;
    }
    at
}

/// What stands before the first `mark`, and what stands behind it, where there is one.
pub fn cut_at(bytes: &[u8], mark: u8) -> (&[u8], Option<&[u8]>)
    ensures before { result.0.now ≡ before_mark mark bytes.now }
    ensures behind { option_copied result.1 ≡ behind_mark mark bytes.now }
{
    match memchr(mark, bytes) {
        Some(at) => (&bytes[..at], Some(&bytes[at + 1..])),
        None => (bytes, None),
    }
}

/// What stands before the first line feed, and what stands behind it, where there is one.
pub fn cut_line(bytes: &[u8]) -> (&[u8], Option<&[u8]>)
    ensures whole { behind_mark 10 result.0.now ≡ None }
    ensures some { IfSome result.1 (λ behind. bytes.now ≡ result.0.now ++ 10 ∷ behind.now) }
    ensures none { IfNone result.1 (bytes.now ≡ result.0.now) }
{
    cut_at(bytes, b'\n')
}
