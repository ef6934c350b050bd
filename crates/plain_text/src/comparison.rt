ghost use Rattle.std.specs.Prelude.{◌≡◌, ◌++◌, [], ◌∷◌, OnOk, decimal};
ghost use Rattle.std.specs.Bool.{OnTrue};
ghost use Rattle.std.specs.Fmt.{signed_decimal};
ghost use Rattle.plain_text.specs.Markup.{end_tag, leaf_text, number_element, text_element};
ghost use Rattle.doc_model.specs.Texts.{escaped, escaped_byte};

use itoa::Buffer;
use std::marker::Model;

/// A text that isn't the front of the bytes that it is compared with.
#[derive(Clone, Copy, Debug, PartialEq, Eq)]
pub struct Differs;

/// A text that grows at its end as long as it is the front of these bytes, seen as the list of its
/// bytes. It is compared and not kept.
#[derive(Drop)]
pub struct Comparison<'a> {
    bytes: &'a [u8],
    len: usize,
}

impl<'a> Model for Comparison<'a> {
    ghost use Rattle.std.specs.Prelude.{ℕ, ◌≤◌, List, length, take};

    ghost Value = { List ℕ };

    ghost view = { λ c. take c.len c.bytes.now };

    ghost invariant = { λ c. c.len ≤ length c.bytes.now };
}

impl<'a> Comparison<'a> {
    /// The empty text, to be compared with these bytes.
    pub fn new(bytes: &'a [u8]) -> Comparison<'a>
        ensures { result ≡ [] }
    {
        Comparison { bytes, len: 0 }
    }

    /// Appends these bytes.
    pub fn put(&mut self, piece: &[u8]) -> Result<(), Differs>
        ensures { OnOk result (self.new ≡ self.old ++ piece.now) }
    {
        if !self.bytes[self.len..].starts_with(piece) {
            return Err(Differs);
        }
        self.len += piece.len();
        Ok(())
    }

    /// Appends the number in decimal digits.
    pub fn put_number(&mut self, number: u64) -> Result<(), Differs>
        ensures { OnOk result (self.new ≡ self.old ++ decimal number) }
    {
        self.put(Buffer::new().format(number).as_bytes())
    }

    /// Appends the number in decimal digits, with `-` before them if it is negative.
    pub fn put_signed(&mut self, number: i64) -> Result<(), Differs>
        ensures { OnOk result (self.new ≡ self.old ++ signed_decimal number) }
    {
        self.put(Buffer::new().format(number).as_bytes())
    }

    /// Appends the text as it stands in a value or between two tags.
    pub fn put_escaped(&mut self, text: &[u8]) -> Result<(), Differs>
        ensures { OnOk result (self.new ≡ self.old ++ escaped text.now) }
    {
        if are_plain(text) {
            self.put(text)
        } else {
            self.put_characters(text)
        }
    }

    fn put_characters(&mut self, text: &[u8]) -> Result<(), Differs>
        ensures { OnOk result (self.new ≡ self.old ++ escaped text.now) }
    {
        for character in text {
            self.put_character(*character)?;
        }
        Ok(())
    }

    fn put_character(&mut self, character: u8) -> Result<(), Differs>
        ensures { OnOk result (self.new ≡ self.old ++ escaped_byte character) }
    {
        match character {
            b'&' => self.put(b"&amp;"),
            b'<' => self.put(b"&lt;"),
            b'>' => self.put(b"&gt;"),
            b'"' => self.put(b"&quot;"),
            b'\t' => self.put(b"&#9;"),
            b'\n' => self.put(b"&#10;"),
            b'\r' => self.put(b"&#13;"),
            plain => self.put(&[plain]),
        }
    }

    /// Appends `</NAME>` and a line feed.
    fn put_end_tag(&mut self, name: &[u8]) -> Result<(), Differs>
        ensures { OnOk result (self.new ≡ self.old ++ end_tag name.now) }
    {
        self.put(b"</")?;
        self.put(name)?;
        self.put(b">\n")?;
        Ok(())
    }

    #[tactic(auto, unfolding(crate::specs::Markup::number_element))]
    /// Appends an element that holds this number.
    fn put_number_element(&mut self, name: &[u8], number: u64) -> Result<(), Differs>
        ensures { OnOk result (self.new ≡ self.old ++ number_element name.now number) }
    {
        self.put(b"<")?;
        self.put(name)?;
        self.put(b">")?;
        self.put_number(number)?;
        self.put_end_tag(name)?;
        Ok(())
    }

    #[tactic(auto, unfolding(crate::specs::Markup::text_element))]
    /// Appends an element with this text, which may be empty.
    fn put_text_element(&mut self, name: &[u8], text: &[u8]) -> Result<(), Differs>
        ensures { OnOk result (self.new ≡ self.old ++ text_element name.now text.now) }
    {
        self.put(b"<")?;
        self.put(name)?;
        if text.is_empty() {
            self.put(b"/>\n")?;
            return Ok(());
        }
        self.put(b">")?;
        self.put_escaped(text)?;
        self.put_end_tag(name)?;
        Ok(())
    }

    /// Appends an element with this number alone.
    pub fn put_number_leaf(&mut self, name: &[u8], number: u64) -> Result<(), Differs>
        ensures { OnOk result (self.new ≡ self.old ++ leaf_text name.now (decimal number)) }
    {
        self.put_number_element(name, number)
    }

    /// Appends an element with this text alone, which may be empty.
    pub fn put_leaf(&mut self, name: &[u8], text: &[u8]) -> Result<(), Differs>
        ensures { OnOk result (self.new ≡ self.old ++ leaf_text name.now text.now) }
    {
        self.put_text_element(name, text)
    }

    /// Whether the text is these bytes.
    pub fn is(&self, bytes: &[u8]) -> bool
        ensures { OnTrue result (self.now ≡ bytes.now) }
    {
        &self.bytes[..self.len] == bytes
    }
}

/// Whether the text stands as it is in a value or between two tags.
fn are_plain(text: &[u8]) -> bool
    ensures { OnTrue result (escaped text.now ≡ text.now) }
{
    for character in text {
        if !is_plain(*character) {
            return false;
        }
    }
    true
}

fn is_plain(character: u8) -> bool
    ensures { OnTrue result (escaped_byte character ≡ character ∷ []) }
{
    !matches!(character, b'&' | b'<' | b'>' | b'"' | b'\t' | b'\n' | b'\r')
}
