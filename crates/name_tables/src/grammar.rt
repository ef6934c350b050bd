ghost use Rattle.std.specs.Prelude.{◌≡◌, IfOk, neg_ℤ, pos, true};
ghost use Rattle.std.specs.List.{list_all};
ghost use Rattle.std.specs.Char.{is_ascii_digit};
ghost use Rattle.std.specs.Str.{chars};
ghost use Rattle.std.specs.Fmt.{signed_decimal};
ghost use Rattle.std.specs.Option.{option_map};
ghost use Rattle.name_tables.specs.Grammar.{DecimalIsReadBack, UnsignedDecimalIsReadBack, is_ascii_id_character, is_id_character, is_id_text, magnitude_of, number_of};

use crate::names::Name;
use itoa::Buffer;
use std::alloc::Global;
use std::str;
use wide_sums::Memory;

fn is_id_char(character: char) -> bool
    ensures { result ≡ is_id_character character }
{
    character.is_ascii_alphanumeric()
        || matches!(character, '_' | '-' | '.' | ':')
        || !character.is_ascii()
}

fn are_id_chars(text: &str) -> bool
    ensures { result ≡ list_all is_id_character (chars text.now) }
{
    text.chars().all(is_id_char)
}

/// Whether the bytes are an id: one or more characters in UTF-8, each an ASCII letter or digit, `_`, `-`, `.`, `:` or any
/// character past ASCII.
pub fn is_id(bytes: &[u8]) -> bool
    ensures { result ≡ is_id_text bytes.now }
{
    // Most ids are ASCII, and need not be decoded.
    if are_ascii_id_bytes(bytes) {
        return !bytes.is_empty();
    }
    is_id_in_utf8(bytes)
}

/// Whether each ASCII byte stands in ids. A look-up takes half the time of the tests.
const ARE_ID_BYTES: [bool; 128] = [
    false, false, false, false, false, false, false, false, false, false, false, false, false,
    false, false, false, false, false, false, false, false, false, false, false, false, false,
    false, false, false, false, false, false, false, false, false, false, false, false, false,
    false, false, false, false, false, false, true, true, false, true, true, true, true, true,
    true, true, true, true, true, true, false, false, false, false, false, false, true, true, true,
    true, true, true, true, true, true, true, true, true, true, true, true, true, true, true, true,
    true, true, true, true, true, true, true, false, false, false, false, true, false, true, true,
    true, true, true, true, true, true, true, true, true, true, true, true, true, true, true, true,
    true, true, true, true, true, true, true, true, false, false, false, false, false,
];

fn is_ascii_id_byte(byte: u8) -> bool
    ensures { result ≡ is_ascii_id_character byte }
{
    byte.is_ascii() && ARE_ID_BYTES[byte as usize]
}

fn are_ascii_id_bytes(bytes: &[u8]) -> bool
    ensures { result ≡ list_all is_ascii_id_character bytes.now }
{
    bytes.iter().all(|byte| is_ascii_id_byte(*byte))
}

fn is_id_in_utf8(bytes: &[u8]) -> bool
    ensures { result ≡ is_id_text bytes.now }
{
    match str::from_utf8(bytes) {
        Ok(text) => !bytes.is_empty() && are_id_chars(text),
        Err(_) => false,
    }
}

/// The number that the bytes write: one or more ASCII digits, leading zeros allowed, of an absolute value below 2^63. Where
/// `signed` is true, one `-` may stand before the digits. `None` where the bytes are no such number.
pub fn read_number(bytes: &[u8], signed: bool) -> Option<i64>
    ensures { result ≡ number_of signed bytes.now }
{
    match bytes {
        [b'-', digits @ ..] if signed => read_negative(digits),
        _ => read_digits(bytes),
    }
}

fn read_negative(digits: &[u8]) -> Option<i64>
    ensures { result ≡ option_map (λ n. neg_ℤ (pos n)) (magnitude_of digits.now) }
{
    match read_digits(digits) {
        Some(magnitude) => Some(-magnitude),
        None => None,
    }
}

/// A number past this one is past 2^63 - 1 with one digit more.
const MOST_BEFORE_A_DIGIT: u64 = 922_337_203_685_477_580;

fn read_digits(digits: &[u8]) -> Option<i64>
    ensures { result ≡ option_map pos (magnitude_of digits.now) }
{
    if digits.is_empty() {
        return None;
    }
    let mut value: u64 = 0;
    for byte in digits {
        if !byte.is_ascii_digit() {
            return None;
        }
        if value > MOST_BEFORE_A_DIGIT {
            return None;
        }
        value = value * 10 + (*byte - b'0') as u64;
    }
    match i64::try_from(value) {
        Ok(number) => Some(number),
        Err(_) => None,
    }
}

/// The number in decimal digits, with `-` before them if it is negative.
pub fn decimal(alloc: Global, value: i128) -> Result<Name, Memory>
    ensures { IfOk result (λ name. name ≡ signed_decimal value) }
{
    let mut buffer = Buffer::new();
    Name::new(alloc, buffer.format(value).as_bytes())
}

/// A law for callers of [`decimal`] and [`read_number`]: a number below 2^63 in absolute value is read back from its text.
pub fn decimal_is_read_back()
    ensures signed { DecimalIsReadBack }
    ensures unsigned { UnsignedDecimalIsReadBack }
{}
