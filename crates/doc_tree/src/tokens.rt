ghost use Rattle.std.specs.Prelude.{◌≡◌, ◌++◌, [], ◌≤◌, ◌+◌, ℕ, List, None, Option, IfOk, IfSome, length, take};
ghost use Rattle.doc_model.specs.declared.tree.Element.{Element};
ghost use Rattle.doc_tree.specs.declared.places.Open.{Open};
ghost use Rattle.doc_tree.specs.declared.places.Place.TheVariants as place;
ghost use Rattle.doc_tree.specs.declared.places.Part.TheVariants as part;
ghost use Rattle.doc_tree.specs.Machine.{element_of, open_at, state, with_attribute};
ghost use Rattle.doc_tree.specs.Fed.{HasReadBy};
ghost use Rattle.doc_tree.specs.Tokens.{IsEnd, IsPair, IsStart};

use crate::attributes::Attributes;
use crate::characters::{is_name_start, is_white};
use crate::places::{Class, Open, Place, Quote, Tag};
use crate::runs::{ended_name, name_run, take_run};
use crate::stack::Stack;
use crate::stepping::{close, put_place, shown, take_tag};
use doc_model::{Attribute, Element};
use name_tables::Name;
use sqlite_items::Items;
use std::alloc::Global;
use wide_sums::Memory;

/// How many bytes of a start tag's name stand behind its first one, where another byte follows them.
fn start_name(bytes: &[u8]) -> Option<usize>
    ensures { IfSome result (λ n. IsStart n bytes.now) }
{
    if bytes.len() < 3 || bytes[0] != b'<' || !is_name_start(bytes[1]) {
        return None;
    }
    let more = name_run(&bytes[2..]);
    if more + 2 < bytes.len() {
        return Some(more);
    }
    None
}

/// An open element with no attributes, no children and no text.
fn opened(alloc: Global, at: u64, name: Name) -> Open
    ensures { result ≡ open_at at name [] [] [] }
{
    Open {
        at,
        name,
        attributes: Items::new(alloc),
        children: Items::new(alloc),
        text: Name::empty(alloc),
    }
}

/// A start tag with no attributes, or `<`, a name and white: taken in one go where it lies whole at the front. How many bytes it is,
/// or zero.
#[inline(never)]
fn take_start(
    alloc: Global,
    into: &mut Place,
    opens: &mut Stack,
    at: u64,
    bytes: &[u8],
) -> Result<usize, Memory>
    requires { into.old ≡ place.Between }
    ensures within { IfOk result (λ n. n ≤ length bytes.now) }
    ensures read { IfOk result (λ n. (b : List ℕ) → HasReadBy None (state into.old part.Whole opens.old None) at b
        → HasReadBy None (state into.new part.Whole opens.new None) (at + n) (b ++ take n bytes.now)) }
{
    if opens.len() >= 256 {
        return Ok(0);
    }
    match start_name(bytes) {
        None => Ok(0),
        Some(more) => {
            let behind = bytes[more + 2];
            if behind == b'>' {
                let name = Name::new(alloc, &bytes[1..more + 2])?;
                opens.push(opened(alloc, at, name))?;
                return Ok(more + 3);
            }
            if is_white(behind) {
                let name = Name::new(alloc, &bytes[1..more + 2])?;
                let attributes = Attributes::new(alloc);
                put_place(
                    into,
                    Place::Blank(Tag {
                        at,
                        name,
                        attributes,
                    }),
                );
                return Ok(more + 3);
            }
            Ok(0)
        }
    }
}

/// The length of the innermost element's name, where the bytes begin with its end tag.
fn end_name(opens: &Stack, bytes: &[u8]) -> Option<usize>
    ensures { IfSome result (λ n. IsEnd n opens.now bytes.now) }
{
    if bytes.len() < 3 || bytes[0] != b'<' || bytes[1] != b'/' {
        return None;
    }
    match ended_name(opens, &bytes[2..]) {
        None => None,
        Some(count) => {
            if count + 2 < bytes.len() && bytes[count + 2] == b'>' {
                return Some(count);
            }
            None
        }
    }
}

/// The element, now that it has ended.
fn ended(alloc: Global, inner: Open) -> Element
    ensures { result ≡ element_of inner }
{
    let Open {
        at,
        name,
        attributes,
        children,
        text,
    } = inner;
    Element {
        at,
        name,
        attributes,
        children,
        text: shown(alloc, text),
    }
}

/// An end tag, taken in one go where it lies whole at the front. How many bytes it is, or zero.
#[inline(never)]
fn take_end(
    alloc: Global,
    opens: &mut Stack,
    root: &mut Option<Element>,
    bytes: &[u8],
) -> Result<usize, Memory>
    ensures within { IfOk result (λ n. n ≤ length bytes.now) }
    ensures read { IfOk result (λ n. (at : ℕ) (b : List ℕ) → HasReadBy None (state place.Between part.Whole opens.old root.old) at b
        → HasReadBy None (state place.Between part.Whole opens.new root.new) (at + n) (b ++ take n bytes.now)) }
{
    match end_name(opens, bytes) {
        None => Ok(0),
        Some(count) => match opens.pop() {
            None => Ok(0),
            Some(inner) => {
                let element = ended(alloc, inner);
                close(alloc, opens, root, element)?;
                Ok(count + 3)
            }
        },
    }
}

/// The bytes of a name behind its first one, and those of a value, where the bytes begin with the name, `="`, the value and `"`.
fn pair(bytes: &[u8]) -> Option<(usize, usize)>
    ensures { IfSome result (λ p. IsPair p.0 p.1 bytes.now) }
{
    if bytes.is_empty() || !is_name_start(bytes[0]) {
        return None;
    }
    let more = name_run(&bytes[1..]);
    if more + 3 >= bytes.len() || bytes[more + 1] != b'=' || bytes[more + 2] != b'"' {
        return None;
    }
    let value = Class::Value(Quote::Double).run(&bytes[more + 3..]);
    if more + 3 + value < bytes.len() && bytes[more + 3 + value] == b'"' {
        return Some((more, value));
    }
    None
}

/// The tag with an attribute more.
fn with_attribute(alloc: Global, tag: Tag, key: Name, value: Name) -> Result<Tag, Memory>
    ensures { IfOk result (λ longer. longer ≡ with_attribute tag key value) }
{
    let Tag {
        at,
        name,
        attributes,
    } = tag;
    let attributes = attributes.push(alloc, Attribute { name: key, value })?;
    Ok(Tag {
        at,
        name,
        attributes,
    })
}

/// An attribute with a name and a value of so many bytes, taken in one go where its name is fresh. How many bytes it is, or zero.
fn take_pair(
    alloc: Global,
    place: &mut Place,
    bytes: &[u8],
    more: usize,
    long: usize,
) -> Result<usize, Memory>
    requires { IsPair more long bytes.now }
    ensures within { IfOk result (λ n. n ≤ length bytes.now) }
    ensures read { IfOk result (λ n. (os : List Open) (r : Option Element) (at : ℕ) (b : List ℕ) → HasReadBy None (state place.old part.Whole os r) at b
        → HasReadBy None (state place.new part.Whole os r) (at + n) (b ++ take n bytes.now)) }
{
    match place {
        Place::Blank(tag) => {
            if tag.attributes.is_fresh(&bytes[..more + 1]) {
                let name = Name::new(alloc, &bytes[..more + 1])?;
                let value = Name::new(alloc, &bytes[more + 3..more + 3 + long])?;
                let tag = take_tag(alloc, tag);
                let longer = with_attribute(alloc, tag, name, value)?;
                put_place(place, Place::Attributed(longer));
                return Ok(more + 4 + long);
            }
            Ok(0)
        }
        _ => Ok(0),
    }
}

/// An attribute, taken in one go where it lies whole at the front with a plain value in double quotes, or white before one. How many
/// bytes it is, or zero.
#[inline(never)]
fn take_attribute(
    alloc: Global,
    place: &mut Place,
    opens: &mut Stack,
    bytes: &[u8],
) -> Result<usize, Memory>
    ensures within { IfOk result (λ n. n ≤ length bytes.now) }
    ensures read { IfOk result (λ n. (r : Option Element) (at : ℕ) (b : List ℕ) → HasReadBy None (state place.old part.Whole opens.old r) at b
        → HasReadBy None (state place.new part.Whole opens.new r) (at + n) (b ++ take n bytes.now)) }
{
    match pair(bytes) {
        None => take_run(place, opens, bytes),
        Some(found) => take_pair(alloc, place, bytes, found.0, found.1),
    }
}

/// Between two tokens, bytes at the front that are taken in one go, and how many they are.
fn take_between(
    alloc: Global,
    into: &mut Place,
    opens: &mut Stack,
    root: &mut Option<Element>,
    at: u64,
    bytes: &[u8],
) -> Result<usize, Memory>
    requires { into.old ≡ place.Between }
    ensures within { IfOk result (λ n. n ≤ length bytes.now) }
    ensures read { IfOk result (λ n. (b : List ℕ) → HasReadBy None (state into.old part.Whole opens.old root.old) at b
        → HasReadBy None (state into.new part.Whole opens.new root.new) (at + n) (b ++ take n bytes.now)) }
{
    if bytes.len() < 2 || bytes[0] != b'<' {
        return take_run(into, opens, bytes);
    }
    if bytes[1] == b'/' {
        return take_end(alloc, opens, root, bytes);
    }
    match root {
        Some(_) => Ok(0),
        None => take_start(alloc, into, opens, at, bytes),
    }
}

/// Bytes at the front that are taken in one go, and how many they are.
pub fn take_token(
    alloc: Global,
    place: &mut Place,
    opens: &mut Stack,
    root: &mut Option<Element>,
    at: u64,
    bytes: &[u8],
) -> Result<usize, Memory>
    ensures within { IfOk result (λ n. n ≤ length bytes.now) }
    ensures read { IfOk result (λ n. (b : List ℕ) → HasReadBy None (state place.old part.Whole opens.old root.old) at b
        → HasReadBy None (state place.new part.Whole opens.new root.new) (at + n) (b ++ take n bytes.now)) }
{
    match place {
        Place::Between => take_between(alloc, place, opens, root, at, bytes),
        Place::Blank(_) => take_attribute(alloc, place, opens, bytes),
        _ => take_run(place, opens, bytes),
    }
}
