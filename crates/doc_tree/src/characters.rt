ghost use Rattle.std.specs.Prelude.{◌≡◌, ◌≤◌, length, take, true};
ghost use Rattle.doc_tree.specs.Characters.{all_bytes, class_test, is_character_number, is_comment_byte, is_front_of_four, is_front_of_three, is_instruction_byte, is_lead, is_lead_of_two, is_name_byte, is_name_start, is_tail, is_text, is_value, is_white, digit_value, is_digit, base, entity_byte, entity_text, quote_byte};
ghost use Rattle.doc_tree.specs.Characters as characters;

use crate::places::{Class, Entity, Quote, Radix};

#[tactic(auto, unfolding(crate::specs::Characters::is_white))]
pub fn is_white(byte: u8) -> bool
    ensures { result ≡ is_white byte }
{
    byte == b' ' || byte == b'\t' || byte == b'\n' || byte == b'\r'
}

#[tactic(auto, unfolding(crate::specs::Characters::is_ascii))]
fn is_ascii(byte: u8) -> bool
    ensures { result ≡ characters.is_ascii byte }
{
    is_white(byte) || (byte >= 33 && byte < 128)
}

#[tactic(auto, unfolding(crate::specs::Characters::is_text))]
pub fn is_text(byte: u8) -> bool
    ensures { result ≡ is_text byte }
{
    is_ascii(byte) && !(byte == b'&' || byte == b'<')
}

impl Quote {
    pub fn byte(self) -> u8
        ensures { result ≡ quote_byte self }
    {
        match self {
            Quote::Single => b'\'',
            Quote::Double => b'"',
        }
    }
}

#[tactic(auto, unfolding(crate::specs::Characters::is_value))]
pub fn is_value(quote: Quote, byte: u8) -> bool
    ensures { result ≡ is_value quote byte }
{
    is_text(byte) && byte != quote.byte()
}

#[tactic(auto, unfolding(crate::specs::Characters::is_name_start))]
pub fn is_name_start(byte: u8) -> bool
    ensures { result ≡ is_name_start byte }
{
    (byte >= b'a' && byte <= b'z') || (byte >= b'A' && byte <= b'Z') || byte == b'_' || byte == b':'
}

#[tactic(auto, unfolding(crate::specs::Characters::is_name_byte))]
pub fn is_name_byte(byte: u8) -> bool
    ensures { result ≡ is_name_byte byte }
{
    is_name_start(byte) || (byte >= b'0' && byte <= b'9') || byte == b'-' || byte == b'.'
}

#[tactic(auto, unfolding(crate::specs::Characters::is_comment_byte))]
pub fn is_comment_byte(byte: u8) -> bool
    ensures { result ≡ is_comment_byte byte }
{
    is_ascii(byte) && !(byte == b'-' || byte == b'>')
}

#[tactic(auto, unfolding(crate::specs::Characters::is_instruction_byte))]
pub fn is_instruction_byte(byte: u8) -> bool
    ensures { result ≡ is_instruction_byte byte }
{
    is_ascii(byte) && !(byte == b'?' || byte == b'>')
}

#[tactic(auto, unfolding(crate::specs::Characters::is_lead))]
pub fn is_lead(byte: u8) -> bool
    ensures { result ≡ is_lead byte }
{
    byte >= 194 && byte < 245
}

#[tactic(auto, unfolding(crate::specs::Characters::is_lead_of_two))]
pub fn is_lead_of_two(byte: u8) -> bool
    ensures { result ≡ is_lead_of_two byte }
{
    byte >= 194 && byte < 224
}

#[tactic(auto, unfolding(crate::specs::Characters::is_tail))]
pub fn is_tail(byte: u8) -> bool
    ensures { result ≡ is_tail byte }
{
    byte >= 128 && byte < 192
}

#[tactic(auto, unfolding(crate::specs::Characters::is_front_of_three))]
pub fn is_front_of_three(first: u8, second: u8) -> bool
    ensures { result ≡ is_front_of_three first second }
{
    first >= 224
        && first < 240
        && is_tail(second)
        && (second >= 160 || first != 224)
        && (second < 160 || first != 237)
}

#[tactic(auto, unfolding(crate::specs::Characters::is_front_of_four))]
pub fn is_front_of_four(first: u8, second: u8) -> bool
    ensures { result ≡ is_front_of_four first second }
{
    first >= 240
        && first < 245
        && is_tail(second)
        && (second >= 144 || first != 240)
        && (second < 144 || first != 244)
}

#[tactic(auto, unfolding(crate::specs::Characters::is_character_number))]
pub fn is_character_number(number: u32) -> bool
    ensures { result ≡ is_character_number number }
{
    number == 9
        || number == 10
        || number == 13
        || (number >= 32 && number < 55_296)
        || (number >= 57_344 && number <= 1_114_111)
}

impl Entity {
    /// The name and its `;`.
    pub fn text(self) -> &'static [u8]
        ensures { result.now ≡ entity_text self }
    {
        match self {
            Entity::Less => b"lt;",
            Entity::Greater => b"gt;",
            Entity::Ampersand => b"amp;",
            Entity::Apostrophe => b"apos;",
            Entity::Quotation => b"quot;",
        }
    }

    /// The byte that it stands for.
    pub fn byte(self) -> u8
        ensures { result ≡ entity_byte self }
    {
        match self {
            Entity::Less => b'<',
            Entity::Greater => b'>',
            Entity::Ampersand => b'&',
            Entity::Apostrophe => b'\'',
            Entity::Quotation => b'"',
        }
    }
}

impl Radix {
    pub fn base(self) -> u32
        ensures { result ≡ base self }
    {
        match self {
            Radix::Decimal => 10,
            Radix::Hexadecimal => 16,
        }
    }

    #[tactic(auto, unfolding(crate::specs::Characters::is_digit))]
    pub fn is_digit(self, byte: u8) -> bool
        ensures { result ≡ is_digit self byte }
    {
        match self {
            Radix::Decimal => byte >= b'0' && byte <= b'9',
            Radix::Hexadecimal => {
                (byte >= b'0' && byte <= b'9')
                    || (byte >= b'A' && byte <= b'F')
                    || (byte >= b'a' && byte <= b'f')
            }
        }
    }
}

/// The value of a digit; of another byte it is a number without a meaning.
#[tactic(auto, unfolding(crate::specs::Characters::digit_value))]
pub fn digit_value(byte: u8) -> u32
    ensures { result ≡ digit_value byte }
{
    if byte <= b'9' {
        u32::from(byte.saturating_sub(48))
    } else if byte <= b'F' {
        u32::from(byte.saturating_sub(55))
    } else {
        u32::from(byte.saturating_sub(87))
    }
}

impl Class {
    fn holds(self, byte: u8) -> bool
        ensures { result ≡ class_test self byte }
    {
        match self {
            Class::White => is_white(byte),
            Class::Text => is_text(byte),
            Class::Value(quote) => is_value(quote, byte),
            Class::Comment => is_comment_byte(byte),
            Class::Instruction => is_instruction_byte(byte),
        }
    }

    /// How many bytes of the class stand at the front.
    pub fn run(self, bytes: &[u8]) -> usize
        ensures within { result ≤ length bytes.now }
        ensures all { all_bytes (class_test self) (take result bytes.now) ≡ true }
    {
        let mut count = 0;
        while count < bytes.len() && self.holds(bytes[count]) {
            count += 1;
        }
        count
    }
}
