ghost use Rattle.std.specs.Prelude.{◌≡◌, ◌+◌, ◌<◌, ◌≤◌, IfSome, length};
ghost use Rattle.std.specs.Bool.{OnFalse, OnTrue};

use crate::faults::TextFault;
use memchr::memchr;
use name_tables::{Name, is_id, read_number};
use std::alloc::Global;
use std::marker::Model;

/// Bytes that are taken from the front, seen as the list of those that are left.
#[derive(Drop)]
pub struct Source<'a> {
    rest: &'a [u8],
}

impl<'a> Model for Source<'a> {
    ghost use Rattle.std.specs.Prelude.{ℕ, List};

    ghost Value = { List ℕ };

    ghost view = { λ s. s.rest.now };
}

impl<'a> Source<'a> {
    /// All of the bytes.
    pub fn new(bytes: &'a [u8]) -> Source<'a>
        ensures { result ≡ bytes.now }
    {
        Source { rest: bytes }
    }

    /// Takes this text if the bytes begin with it.
    pub fn skip(&mut self, text: &[u8]) -> bool
        ensures less { OnTrue result (length self.new + length text.now ≡ length self.old) }
        ensures most { length self.new ≤ length self.old }
    {
        match self.rest.strip_prefix(text) {
            Some(rest) => {
                self.rest = rest;
                true
            }
            None => false,
        }
    }

    /// Takes this text, with which the bytes have to begin.
    pub fn expect(&mut self, text: &[u8]) -> Result<(), TextFault>
        ensures { length self.new ≤ length self.old }
    {
        if self.skip(text) {
            Ok(())
        } else {
            Err(TextFault::NotYet)
        }
    }

    /// Takes what stands before the next `mark`, and the mark.
    pub fn until(&mut self, mark: u8) -> Result<&'a [u8], TextFault>
        ensures { length self.new ≤ length self.old }
    {
        match split_at_mark(self.rest, mark) {
            Some((front, rest)) => {
                self.rest = rest;
                Ok(front)
            }
            None => Err(TextFault::NotYet),
        }
    }

    /// Takes an id and the `mark` behind it.
    pub fn id(&mut self, alloc: Global, mark: u8) -> Result<Name, TextFault>
        ensures { length self.new ≤ length self.old }
    {
        id_of(alloc, self.until(mark)?)
    }

    /// Takes a number without a sign and the `mark` behind it.
    pub fn number(&mut self, mark: u8) -> Result<u64, TextFault>
        ensures { length self.new ≤ length self.old }
    {
        number_of(self.until(mark)?)
    }

    /// Takes a number, which may be negative, and the `mark` behind it.
    pub fn signed(&mut self, mark: u8) -> Result<i64, TextFault>
        ensures { length self.new ≤ length self.old }
    {
        match read_number(self.until(mark)?, true) {
            Some(number) => Ok(number),
            None => Err(TextFault::NotYet),
        }
    }

    /// Takes what stands before the next space, and the space, or all that is left.
    pub fn word(&mut self) -> &'a [u8]
        ensures { 0 < length self.old → length self.new < length self.old }
    {
        let (word, rest) = split_at_mark(self.rest, b' ').unwrap_or((self.rest, b""));
        self.rest = rest;
        word
    }

    /// The bytes that are left.
    pub fn rest(&self) -> &'a [u8] {
        self.rest
    }

    /// Whether no bytes are left.
    pub fn is_empty(&self) -> bool
        ensures { OnFalse result (0 < length self.now) }
    {
        self.rest.is_empty()
    }

    /// That no bytes are left.
    pub fn end(&self) -> Result<(), TextFault> {
        if self.is_empty() {
            Ok(())
        } else {
            Err(TextFault::NotYet)
        }
    }
}

/// What stands before the first `mark`, and what stands behind it.
fn split_at_mark(bytes: &[u8], mark: u8) -> Option<(&[u8], &[u8])>
    ensures { IfSome result (λ parts. length parts.1.now < length bytes.now) }
{
    let at = memchr(mark, bytes)?;
    let (front, back) = bytes.split_at(at);
    match back {
        [_, rest @ ..] => Some((front, rest)),
        [] => None,
    }
}

/// The bytes as an id.
pub fn id_of(alloc: Global, bytes: &[u8]) -> Result<Name, TextFault> {
    if is_id(bytes) {
        Ok(Name::new(alloc, bytes)?)
    } else {
        Err(TextFault::NotYet)
    }
}

/// The number below 2^63 that the bytes write without a sign.
pub fn number_of(bytes: &[u8]) -> Result<u64, TextFault> {
    match read_number(bytes, false) {
        Some(number) => u64::try_from(number).map_err(|_| TextFault::NotYet),
        None => Err(TextFault::NotYet),
    }
}

/// The number below 2^32 that the bytes write without a sign.
pub fn index_of(bytes: &[u8]) -> Result<u32, TextFault> {
    u32::try_from(number_of(bytes)?).map_err(|_| TextFault::NotYet)
}
