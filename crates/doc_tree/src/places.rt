use crate::attributes::Attributes;
use doc_model::{Attribute, Element};
use name_tables::Name;
use sqlite_items::Items;

/// A start tag as it is read: the offset of its `<`, its name and its attributes so far.
#[derive(Debug, Drop)]
pub struct Tag {
    pub at: u64,
    pub name: Name,
    pub attributes: Attributes,
}

/// An element that isn't ended yet: its children and its characters so far.
#[derive(Debug, Drop)]
pub struct Open {
    pub at: u64,
    pub name: Name,
    pub attributes: Items<Attribute>,
    pub children: Items<Element>,
    pub text: Name,
}

/// What stands round a value.
#[derive(Clone, Copy, Debug, PartialEq, Eq)]
pub enum Quote {
    Single,
    Double,
}

/// How many dashes stand at the end of what was read of a comment. Two is two or more.
#[derive(Clone, Copy, Debug, PartialEq, Eq)]
pub enum Dashes {
    Neither,
    One,
    Two,
}

/// The five names of references.
#[derive(Clone, Copy, Debug, PartialEq, Eq)]
pub enum Entity {
    Less,
    Greater,
    Ampersand,
    Apostrophe,
    Quotation,
}

/// Characters of ASCII that are taken in one go.
#[derive(Clone, Copy, Debug, PartialEq, Eq)]
pub enum Class {
    White,
    Text,
    Value(Quote),
    Comment,
    Instruction,
}

/// How the number of a reference is written.
#[derive(Clone, Copy, Debug, PartialEq, Eq)]
pub enum Radix {
    Decimal,
    Hexadecimal,
}

/// Where in a document the reader stands, characters and references aside.
#[derive(Debug, Drop)]
pub enum Place {
    /// Between two tokens: before the root, in an element's content, or after the root.
    Between,
    /// Behind the first byte of a byte order mark.
    MarkOne,
    /// Behind two bytes of a byte order mark.
    MarkTwo,
    /// Behind a `<` at this offset.
    Less(u64),
    /// In the name of a start tag whose `<` is at this offset.
    TagName(u64, Name),
    /// Behind white in a start tag.
    Blank(Tag),
    /// In the name of an attribute.
    Key(Tag, Name),
    /// Behind white after the name of an attribute.
    AfterKey(Tag, Name),
    /// Behind `=`, and maybe white.
    Equals(Tag, Name),
    /// In a value.
    Value(Tag, Name, Quote, Name),
    /// Behind a value's end.
    Attributed(Tag),
    /// Behind the `/` of a tag without content.
    Slash(Tag),
    /// In an end tag, behind so many bytes of its name.
    Close(usize),
    /// Behind white after an end tag's name.
    CloseWhite,
    /// Behind `<!`.
    Bang,
    /// Behind `<!-`.
    BangDash,
    /// In a comment.
    Comment(Dashes),
    /// Behind `<?`.
    Question,
    /// In the name of an instruction.
    Target,
    /// Behind the `?` right after an instruction's name.
    TargetEnd,
    /// In an instruction's text, and whether a `?` stands at its end.
    Instruction(bool),
    /// No document begins so; the offset is that of the first byte that can't stand.
    Refused(u64),
}

/// The part of a character or of a reference that was read.
#[derive(Clone, Copy, Debug, PartialEq, Eq)]
pub enum Part {
    /// No part: a whole one was read.
    Whole,
    /// The first byte of a character past ASCII.
    Lead(u8),
    /// Two bytes of a character of three.
    Three(u8, u8),
    /// Two bytes of a character of four.
    Four(u8, u8),
    /// Three bytes of a character of four.
    Last(u8, u8, u8),
    /// The `&` of a reference.
    Reference,
    /// `&a`.
    ReferenceA,
    /// So many bytes of a reference's name.
    Named(Entity, usize),
    /// `&#`.
    Hash,
    /// `&#x`.
    HashX,
    /// `&#` or `&#x` and digits of this number.
    Digits(Radix, u32),
}
