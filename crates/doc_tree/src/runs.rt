ghost use Rattle.std.specs.Prelude.{◌≡◌, ◌++◌, ◌∷◌, ◌<◌, ◌≤◌, ◌+◌, [], ℕ, List, None, Option, IfOk, IfSome, length, take, true};
ghost use Rattle.doc_model.specs.declared.tree.Element.{Element};
ghost use Rattle.doc_tree.specs.declared.places.Open.{Open};
ghost use Rattle.doc_tree.specs.declared.places.Place.TheVariants as place;
ghost use Rattle.doc_tree.specs.declared.places.Part.TheVariants as part;
ghost use Rattle.doc_tree.specs.Characters.{all_bytes, is_name_byte};
ghost use Rattle.doc_tree.specs.Machine.{state};
ghost use Rattle.doc_tree.specs.Fed.{HasReadBy};

use crate::characters::is_name_byte;
use crate::places::{Class, Dashes, Place};
use crate::stack::Stack;
use name_tables::Name;
use wide_sums::Memory;

/// How many bytes at the front may stand in a name.
pub fn name_run(bytes: &[u8]) -> usize
    ensures within { result ≤ length bytes.now }
    ensures all { all_bytes is_name_byte (take result bytes.now) ≡ true }
{
    let mut count = 0;
    while count < bytes.len() && is_name_byte(bytes[count]) {
        count += 1;
    }
    count
}

/// Bytes at the front that may stand in a name, put behind those of the name, and how many they are.
fn take_name(name: &mut Name, bytes: &[u8]) -> Result<usize, Memory>
    ensures within { IfOk result (λ n. n ≤ length bytes.now) }
    ensures all { IfOk result (λ n. all_bytes is_name_byte (take n bytes.now) ≡ true) }
    ensures appended { IfOk result (λ n. name.new ≡ name.old ++ take n bytes.now) }
{
    let count = name_run(bytes);
    name.append(&bytes[..count])?;
    Ok(count)
}

/// The length of the innermost element's name, where the bytes begin with it.
pub fn ended_name(opens: &Stack, bytes: &[u8]) -> Option<usize>
    ensures within { IfSome result (λ n. n ≤ length bytes.now) }
    ensures name { IfSome result (λ n. (o : Open) × (os : List Open) × (opens.now ≡ o ∷ os) × (n ≡ length o.name) × (take n bytes.now ≡ o.name)) }
{
    let inner = opens.innermost()?;
    let name = inner.name.bytes();
    if name.len() <= bytes.len() && &bytes[..name.len()] == name {
        return Some(name.len());
    }
    None
}

/// White outside the root, or plain characters of the innermost element, taken in one go, and how many bytes they are.
fn take_text(opens: &mut Stack, bytes: &[u8]) -> Result<usize, Memory>
    ensures within { IfOk result (λ n. n ≤ length bytes.now) }
    ensures read { IfOk result (λ n. (r : Option Element) (count : ℕ) (b : List ℕ) → HasReadBy None (state place.Between part.Whole opens.old r) count b
        → HasReadBy None (state place.Between part.Whole opens.new r) (count + n) (b ++ take n bytes.now)) }
{
    if opens.is_empty() {
        return Ok(Class::White.run(bytes));
    }
    let count = Class::Text.run(bytes);
    opens.add_text(&bytes[..count])?;
    Ok(count)
}

/// The name of an end tag of which so many bytes were read, taken in one go where it is whole, and how many bytes it is.
fn take_ended_name(read: &mut usize, opens: &Stack, bytes: &[u8]) -> usize
    ensures within { result ≤ length bytes.now }
    ensures read { (r : Option Element) (count : ℕ) (b : List ℕ) → HasReadBy None (state (place.Close read.old) part.Whole opens.now r) count b
        → HasReadBy None (state (place.Close read.new) part.Whole opens.now r) (count + result) (b ++ take result bytes.now) }
{
    if *read > 0 {
        return 0;
    }
    match ended_name(opens, bytes) {
        None => 0,
        Some(count) => {
            *read = count;
            count
        }
    }
}

/// How many bytes of white stand at the front, behind an end tag's name and white.
fn end_white(opens: &Stack, bytes: &[u8]) -> usize
    ensures within { result ≤ length bytes.now }
    ensures read { (r : Option Element) (count : ℕ) (b : List ℕ) → HasReadBy None (state place.CloseWhite part.Whole opens.now r) count b
        → HasReadBy None (state place.CloseWhite part.Whole opens.now r) (count + result) (b ++ take result bytes.now) }
{
    if opens.is_empty() {
        return 0;
    }
    Class::White.run(bytes)
}

/// Bytes at the front that stand for themselves in a text, a value, a name, a comment or an instruction, or that are white outside
/// the root or within a tag, taken in one go, and how many they are. Of an end tag it is the whole name.
#[inline(never)]
pub fn take_run(place: &mut Place, opens: &mut Stack, bytes: &[u8]) -> Result<usize, Memory>
    ensures within { IfOk result (λ n. n ≤ length bytes.now) }
    ensures read { IfOk result (λ n. (r : Option Element) (count : ℕ) (b : List ℕ) → HasReadBy None (state place.old part.Whole opens.old r) count b
        → HasReadBy None (state place.new part.Whole opens.new r) (count + n) (b ++ take n bytes.now)) }
{
    match place {
        Place::Between => take_text(opens, bytes),
        Place::Blank(_) => Ok(Class::White.run(bytes)),
        Place::AfterKey(_, _) => Ok(Class::White.run(bytes)),
        Place::Equals(_, _) => Ok(Class::White.run(bytes)),
        Place::Value(_, _, quote, value) => {
            let count = Class::Value(*quote).run(bytes);
            value.append(&bytes[..count])?;
            Ok(count)
        }
        Place::TagName(_, name) => {
            let count = take_name(name, bytes)?;
            Ok(count)
        }
        Place::Key(_, name) => {
            let count = take_name(name, bytes)?;
            Ok(count)
        }
        Place::Close(read) => Ok(take_ended_name(read, opens, bytes)),
        Place::CloseWhite => Ok(end_white(opens, bytes)),
        Place::Target => Ok(name_run(bytes)),
        Place::Comment(dashes) => {
            let count = Class::Comment.run(bytes);
            if count > 0 {
                *dashes = Dashes::Neither;
            }
            Ok(count)
        }
        Place::Instruction(ends) => {
            let count = Class::Instruction.run(bytes);
            if count > 0 {
                *ends = false;
            }
            Ok(count)
        }
        _ => Ok(0),
    }
}
