ghost use Rattle.std.specs.Prelude.{◌≡◌, ◌++◌, [], ℕ, List, OnOk, decimal};
ghost use Rattle.std.specs.Fmt.{signed_decimal};
ghost use Rattle.line_words.specs.Texts.{all_spaced, factor_text, instance_text, multiplier_text, place_text, spaced, weight_text};

use crate::items::{Factor, InstanceRef, Multiplier, PlaceRef, Weight};
use itoa::Buffer;
use std::alloc::Global;
use std::marker::Model;
use wide_sums::Memory;

/// A text that grows at its end, seen as the list of its bytes.
#[derive(Drop)]
pub struct Text {
    bytes: Vec<u8>,
}

impl Model for Text {
    ghost use Rattle.std.specs.Prelude.{ℕ, List};

    ghost Value = { List ℕ };

    ghost view = { λ t. t.bytes.items };
}

/// A value that is written as one word.
pub trait Spelled: Sized + Drop {
    ghost spelling: { Self → List ℕ };

    /// Writes the word.
    fn spell(&self, text: &mut Text) -> Result<(), Memory>
        ensures { OnOk result (text.new ≡ text.old ++ spelling self.now) };
}

impl Spelled for PlaceRef {
    ghost spelling = { place_text };

    fn spell(&self, text: &mut Text) -> Result<(), Memory> {
        text.put(self.place.bytes())?;
        match self.colour {
            Some(colour) => text.marked(b"@", colour),
            None => Ok(()),
        }
    }
}

impl Spelled for InstanceRef {
    ghost spelling = { instance_text };

    fn spell(&self, text: &mut Text) -> Result<(), Memory> {
        text.put(self.transition.bytes())?;
        text.marked(b"@", self.binding)
    }
}

impl Spelled for Weight {
    ghost spelling = { weight_text };

    fn spell(&self, text: &mut Text) -> Result<(), Memory> {
        text.signed(self.value)?;
        text.put(b"*")?;
        self.place.spell(text)?;
        Ok(())
    }
}

impl Spelled for Factor {
    ghost spelling = { factor_text };

    fn spell(&self, text: &mut Text) -> Result<(), Memory> {
        text.signed(self.value)?;
        text.put(b"*")?;
        text.put(self.fact.bytes())?;
        Ok(())
    }
}

impl Spelled for Multiplier {
    ghost spelling = { multiplier_text };

    fn spell(&self, text: &mut Text) -> Result<(), Memory> {
        match self {
            Multiplier::Fact(factor) => factor.spell(text)?,
            Multiplier::Hypothesis { value, number } => {
                text.signed(*value)?;
                text.marked(b"*@", *number)?;
            }
        }
        Ok(())
    }
}

impl Text {
    /// Nothing.
    pub fn new(alloc: Global) -> Text
        ensures { result ≡ [] }
    {
        Text {
            bytes: Vec::new(alloc),
        }
    }

    /// Its bytes.
    pub fn into_bytes(self) -> Vec<u8>
        ensures { result.items ≡ self }
    {
        let Text { bytes } = self;
        bytes
    }

    /// Writes the bytes.
    pub fn put(&mut self, piece: &[u8]) -> Result<(), Memory>
        ensures { OnOk result (self.new ≡ self.old ++ piece.now) }
    {
        self.bytes.extend_from_slice(piece)?;
        Ok(())
    }

    /// Writes the number, with `-` where it is below 0.
    pub fn signed(&mut self, number: i64) -> Result<(), Memory>
        ensures { OnOk result (self.new ≡ self.old ++ signed_decimal number) }
    {
        self.put(Buffer::new().format(number).as_bytes())
    }

    /// Writes the mark and the number behind it.
    pub fn marked(&mut self, mark: &[u8], number: u32) -> Result<(), Memory>
        ensures { OnOk result (self.new ≡ self.old ++ (mark.now ++ decimal number)) }
    {
        self.put(mark)?;
        self.put(Buffer::new().format(number).as_bytes())?;
        Ok(())
    }

    /// Writes a space and the number.
    pub fn spaced_signed(&mut self, number: i64) -> Result<(), Memory>
        ensures { OnOk result (self.new ≡ self.old ++ spaced (signed_decimal number)) }
    {
        self.put(b" ")?;
        self.signed(number)?;
        Ok(())
    }

    /// Writes a space and the word.
    pub fn spaced(&mut self, word: &[u8]) -> Result<(), Memory>
        ensures { OnOk result (self.new ≡ self.old ++ spaced word.now) }
    {
        self.put(b" ")?;
        self.put(word)?;
        Ok(())
    }

    /// Writes a space and the word of the value.
    pub fn spaced_value<T: Spelled>(&mut self, value: &T) -> Result<(), Memory>
        ensures { OnOk result (self.new ≡ self.old ++ spaced (T.spelling value.now)) }
    {
        self.put(b" ")?;
        value.spell(self)?;
        Ok(())
    }

    /// Writes a space and the word of each value.
    pub fn list<T: Spelled>(&mut self, values: &[T]) -> Result<(), Memory>
        ensures { OnOk result (self.new ≡ self.old ++ all_spaced T.spelling values.now) }
    {
        for value in values {
            self.spaced_value(value)?;
        }
        Ok(())
    }
}
