ghost use Rattle.std.specs.Prelude.{◌≡◌, ◌++◌, ◌∷◌, [], IfOk, MatchOption, OnOk, codes};
ghost use Rattle.std.specs.List.{flat_map};
ghost use Rattle.doc_model.specs.Texts.{attribute_text, content_text, document_text, end_text, escaped, escaped_byte, first_line, start_text, text_of};
ghost use Rattle.doc_model.specs.Trees.{attribute};

use crate::tree::{Attribute, Element};
use std::alloc::Global;
use std::marker::Model;
use wide_sums::Memory;

const FIRST_LINE: &[u8] = b"<?xml version=\"1.0\" encoding=\"UTF-8\"?>\n";

/// The canonical text of a tree: the first line, and then the root with all that it holds. Of an element with children its
/// own text is left out.
pub fn write(alloc: Global, root: &Element) -> Result<Vec<u8>, Memory>
    ensures { IfOk result (λ text. text.items ≡ document_text root.now) }
{
    let mut writer = TextWriter::new(alloc);
    writer.first_line()?;
    writer.element(root)?;
    Ok(writer.into_bytes())
}

/// The text of a document as it grows. Contracts see its bytes. After an error a part of what was to be written may stand at
/// the end.
#[derive(Debug, Drop)]
pub struct TextWriter {
    text: Vec<u8>,
}

impl Model for TextWriter {
    ghost use Rattle.std.specs.Prelude.{ℕ, List};

    ghost Value = { List ℕ };

    ghost view = { λ writer. writer.text.items };
}

impl TextWriter {
    /// No text; this takes no memory.
    pub fn new(alloc: Global) -> TextWriter
        ensures { result ≡ [] }
    {
        TextWriter {
            text: Vec::new(alloc),
        }
    }

    /// The bytes that were written.
    pub fn into_bytes(self) -> Vec<u8>
        ensures { result.items ≡ self }
    {
        let TextWriter { text } = self;
        text
    }

    /// Writes bytes as they are.
    pub fn bytes(&mut self, bytes: &[u8]) -> Result<(), Memory>
        ensures { OnOk result (self.new ≡ self.old ++ bytes.now) }
    {
        self.text.extend_from_slice(bytes)?;
        Ok(())
    }

    /// Writes the first line of a document.
    #[tactic(auto, unfolding(crate::specs::Texts::first_line))]
    pub fn first_line(&mut self) -> Result<(), Memory>
        ensures { OnOk result (self.new ≡ self.old ++ first_line) }
    {
        self.bytes(FIRST_LINE)?;
        Ok(())
    }

    /// Writes `<` and the name of an element.
    pub fn start(&mut self, name: &[u8]) -> Result<(), Memory>
        ensures { OnOk result (self.new ≡ self.old ++ start_text name.now) }
    {
        self.bytes(b"<")?;
        self.bytes(name)?;
        Ok(())
    }

    /// Writes an attribute: a space, the name, `="`, the value with its escapes, and `"`.
    pub fn attribute(&mut self, name: &[u8], value: &[u8]) -> Result<(), Memory>
        ensures { OnOk result (self.new ≡ self.old ++ attribute_text (attribute name.now value.now)) }
    {
        self.bytes(b" ")?;
        self.bytes(name)?;
        self.bytes(b"=\"")?;
        self.escaped(value)?;
        self.bytes(b"\"")?;
        Ok(())
    }

    /// Writes what ends an element without children and text: `/>` and a line feed.
    pub fn end_empty(&mut self) -> Result<(), Memory>
        ensures { OnOk result (self.new ≡ self.old ++ codes "/>\n") }
    {
        self.bytes(b"/>\n")?;
        Ok(())
    }

    /// Writes what stands before the children of an element: `>` and a line feed.
    pub fn end_start(&mut self) -> Result<(), Memory>
        ensures { OnOk result (self.new ≡ self.old ++ codes ">\n") }
    {
        self.bytes(b">\n")?;
        Ok(())
    }

    /// Writes what ends an element with children: `</`, the name, `>` and a line feed.
    pub fn end(&mut self, name: &[u8]) -> Result<(), Memory>
        ensures { OnOk result (self.new ≡ self.old ++ end_text name.now) }
    {
        self.bytes(b"</")?;
        self.bytes(name)?;
        self.bytes(b">\n")?;
        Ok(())
    }

    /// Writes what follows the attributes of an element without children: `>`, the text with its escapes and the end of the
    /// element, or `/>` and a line feed where there is no text.
    pub fn text_and_end(&mut self, name: &[u8], text: &[u8]) -> Result<(), Memory>
        ensures { OnOk result (self.new ≡ self.old ++ content_text name.now [] text.now) }
    {
        if text.is_empty() {
            self.end_empty()?;
            return Ok(());
        }
        self.bytes(b">")?;
        self.escaped(text)?;
        self.end(name)?;
        Ok(())
    }

    /// Writes a value or a text with its escapes.
    pub fn escaped(&mut self, text: &[u8]) -> Result<(), Memory>
        ensures { OnOk result (self.new ≡ self.old ++ escaped text.now) }
    {
        let mut from = 0;
        for (at, byte) in text.iter().enumerate() {
            if let Some(escape) = escape_of(*byte) {
                self.bytes(&text[from..at])?;
                self.bytes(escape)?;
                from = at + 1;
            }
        }
        self.bytes(&text[from..])?;
        Ok(())
    }

    /// Writes an element with all that it holds.
    #[cycle(writing)]
    pub fn element(&mut self, element: &Element) -> Result<(), Memory>
        ensures { OnOk result (self.new ≡ self.old ++ text_of element.now) }
    {
        self.start(element.name.bytes())?;
        self.attributes(element.attributes.as_slice())?;
        let children = element.children.as_slice();
        if children.is_empty() {
            self.text_and_end(element.name.bytes(), element.text.bytes())?;
            return Ok(());
        }
        self.end_start()?;
        self.children(children)?;
        self.end(element.name.bytes())?;
        Ok(())
    }

    #[cycle(writing)]
    fn children(&mut self, children: &[Element]) -> Result<(), Memory>
        ensures { OnOk result (self.new ≡ self.old ++ flat_map text_of children.now) }
    {
        for child in children {
            self.element(child)?;
        }
        Ok(())
    }

    fn attributes(&mut self, attributes: &[Attribute]) -> Result<(), Memory>
        ensures { OnOk result (self.new ≡ self.old ++ flat_map attribute_text attributes.now) }
    {
        for attribute in attributes {
            self.attribute(attribute.name.bytes(), attribute.value.bytes())?;
        }
        Ok(())
    }
}

fn escape_of(byte: u8) -> Option<&'static [u8]>
    ensures { MatchOption result (escaped_byte byte ≡ byte ∷ []) (λ escape. escape.now ≡ escaped_byte byte) }
{
    match byte {
        b'&' => Some(b"&amp;"),
        b'<' => Some(b"&lt;"),
        b'>' => Some(b"&gt;"),
        b'"' => Some(b"&quot;"),
        b'\t' => Some(b"&#9;"),
        b'\n' => Some(b"&#10;"),
        b'\r' => Some(b"&#13;"),
        _ => None,
    }
}
