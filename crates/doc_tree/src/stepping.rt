ghost use Rattle.std.specs.Prelude.{◌≡◌, ◌++◌, ◌∷◌, ◌<◌, ◌≤◌, ◌*◌, ◌+◌, ◌^◌, [], List, Some, None, Option, IfOk, MatchBool, MatchOption, OnOk, length, nat_eq};
ghost use Rattle.doc_model.specs.declared.tree.Element.{Element};
ghost use Rattle.doc_tree.specs.declared.places.Open.{Open};
ghost use Rattle.doc_tree.specs.declared.places.Place.TheVariants as place;
ghost use Rattle.doc_tree.specs.declared.places.Part.TheVariants as part;
ghost use Rattle.doc_tree.specs.Documents.{are_white, shown};
ghost use Rattle.doc_tree.specs.Characters.{is_tail, utf8};
ghost use Rattle.doc_tree.specs.Machine.{after_end, after_key, after_tag, begin_name, chosen, closed, element_of, empty_element, lead_at, named, opened, refused, stay, state, step, step_at, taken, takes, test};

use crate::attributes::Attributes;
use crate::characters::{
    digit_value, is_character_number, is_comment_byte, is_front_of_four, is_front_of_three,
    is_instruction_byte, is_lead, is_lead_of_two, is_name_byte, is_name_start, is_tail, is_text,
    is_value, is_white,
};
use crate::places::{Dashes, Entity, Open, Part, Place, Quote, Radix, Tag};
use crate::stack::Stack;
use doc_model::{Attribute, Element};
use name_tables::Name;
use sqlite_items::Items;
use std::alloc::Global;
use std::mem;
use wide_sums::Memory;

fn are_white(bytes: &[u8]) -> bool
    ensures { result ≡ are_white bytes.now }
{
    for byte in bytes {
        if !is_white(*byte) {
            return false;
        }
    }
    true
}

/// The text of an element with these characters.
pub fn shown(alloc: Global, characters: Name) -> Name
    ensures { result ≡ shown characters }
{
    if are_white(characters.bytes()) {
        return Name::empty(alloc);
    }
    characters
}

/// An element has ended.
pub fn close(
    alloc: Global,
    opens: &mut Stack,
    root: &mut Option<Element>,
    element: Element,
) -> Result<(), Memory>
    ensures { OnOk result (state place.Between part.Whole opens.new root.new ≡ chosen (closed element opens.old root.old)) }
{
    if let Some(ended) = opens.add_child(alloc, element)? {
        *root = Some(ended);
    }
    Ok(())
}

/// The place becomes this one.
#[inline(never)]
pub fn put_place(into: &mut Place, next: Place)
    ensures { into.new ≡ next }
{
    *into = next;
}

/// No document begins with the bytes up to the one at the offset.
#[cold]
#[inline(never)]
fn refuse(into: &mut Place, at: u64)
    ensures { into.new ≡ place.Refused at }
{
    put_place(into, Place::Refused(at));
}

/// The name, taken out of where it stands.
fn take_name(alloc: Global, name: &mut Name) -> Name
    ensures { result ≡ name.old }
{
    mem::replace(name, Name::empty(alloc))
}

/// The tag, taken out of where it stands.
pub fn take_tag(alloc: Global, tag: &mut Tag) -> Tag
    ensures { result ≡ tag.old }
{
    let nothing = Tag {
        at: 0,
        name: Name::empty(alloc),
        attributes: Attributes::new(alloc),
    };
    mem::replace(tag, nothing)
}

/// A whole character of these bytes, or a reference to it, at a place that takes it.
fn take(alloc: Global, opens: &mut Stack, place: Place, characters: &[u8]) -> Result<Place, Memory>
    ensures { IfOk result (λ p. (r : Option Element) → state p part.Whole opens.new r ≡ chosen (taken place opens.old r characters.now)) }
{
    match place {
        Place::Between => {
            opens.add_text(characters)?;
            Ok(Place::Between)
        }
        Place::Less(at) => Ok(Place::TagName(at, Name::new(alloc, characters)?)),
        Place::TagName(at, mut name) => {
            name.append(characters)?;
            Ok(Place::TagName(at, name))
        }
        Place::Blank(tag) => Ok(Place::Key(tag, Name::new(alloc, characters)?)),
        Place::Key(tag, mut key) => {
            key.append(characters)?;
            Ok(Place::Key(tag, key))
        }
        Place::Value(tag, key, quote, mut value) => {
            value.append(characters)?;
            Ok(Place::Value(tag, key, quote, value))
        }
        Place::Comment(_) => Ok(Place::Comment(Dashes::Neither)),
        Place::Question => Ok(Place::Target),
        Place::Target => Ok(Place::Target),
        Place::Instruction(_) => Ok(Place::Instruction(false)),
        other => Ok(other),
    }
}

/// Between two tokens outside the root.
fn outside(at: u64, byte: u8) -> Place
    ensures { (r : Option Element) → state result part.Whole [] r ≡ chosen (step_at place.Between [] r at byte) }
{
    let stays = is_white(byte);
    if stays {
        return Place::Between;
    }
    if byte == b'<' {
        return Place::Less(at);
    }
    Place::Refused(at)
}

/// Between two tokens, where the place stands.
#[inline(never)]
fn step_between(opens: &mut Stack, into: &mut Place, at: u64, byte: u8) -> Result<Part, Memory>
    requires { into.old ≡ place.Between }
    ensures { IfOk result (λ q. (r : Option Element) → state into.new q opens.new r ≡ chosen (step_at place.Between opens.old r at byte)) }
{
    match opens.innermost() {
        None => {
            let next = outside(at, byte);
            put_place(into, next);
            Ok(Part::Whole)
        }
        Some(_) => {
            if is_text(byte) {
                opens.add_text(&[byte])?;
                return Ok(Part::Whole);
            }
            if byte == b'<' {
                put_place(into, Place::Less(at));
                return Ok(Part::Whole);
            }
            if byte == b'&' {
                return Ok(Part::Reference);
            }
            refuse(into, at);
            Ok(Part::Whole)
        }
    }
}

/// A name of this byte so far, with room for some more.
fn first_of_name(alloc: Global, byte: u8) -> Result<Name, Memory>
    ensures { IfOk result (λ name. name ≡ byte ∷ []) }
{
    let mut name = Name::empty(alloc);
    name.push(byte)?;
    Ok(name)
}

/// The first character of a name behind a `<`: a second root is refused.
#[inline(never)]
fn begin_name(
    alloc: Global,
    root: &Option<Element>,
    into: &mut Place,
    from: u64,
    at: u64,
    byte: u8,
) -> Result<(), Memory>
    ensures { OnOk result ((os : List Open) → state into.new part.Whole os root.now ≡ chosen (begin_name from os root.now at byte)) }
{
    match root {
        None => {
            let name = first_of_name(alloc, byte)?;
            put_place(into, Place::TagName(from, name));
            Ok(())
        }
        Some(_) => {
            refuse(into, at);
            Ok(())
        }
    }
}

/// Behind a `<` at an offset, where the place stands.
#[inline(never)]
fn step_less(
    alloc: Global,
    opens: &Stack,
    root: &Option<Element>,
    into: &mut Place,
    from: u64,
    at: u64,
    byte: u8,
) -> Result<Part, Memory>
    ensures { IfOk result (λ q. state into.new q opens.now root.now ≡ chosen (step_at (place.Less from) opens.now root.now at byte)) }
{
    if is_name_start(byte) {
        begin_name(alloc, root, into, from, at, byte)?;
        return Ok(Part::Whole);
    }
    if byte == b'!' {
        put_place(into, Place::Bang);
        return Ok(Part::Whole);
    }
    if byte == b'?' {
        put_place(into, Place::Question);
        return Ok(Part::Whole);
    }
    if byte == b'/' && opens.innermost().is_some() {
        put_place(into, Place::Close(0));
        return Ok(Part::Whole);
    }
    refuse(into, at);
    Ok(Part::Whole)
}

/// Behind a start tag's name, white or value.
fn after_tag(alloc: Global, opens: &mut Stack, tag: Tag, at: u64, byte: u8) -> Result<Place, Memory>
    ensures { IfOk result (λ p. (r : Option Element) → state p part.Whole opens.new r ≡ chosen (after_tag tag opens.old r at byte)) }
{
    if is_white(byte) {
        return Ok(Place::Blank(tag));
    }
    if byte == b'>' {
        let Tag {
            at: from,
            name,
            attributes,
        } = tag;
        opens.push(Open {
            at: from,
            name,
            attributes: attributes.into_items(),
            children: Items::new(alloc),
            text: Name::empty(alloc),
        })?;
        return Ok(Place::Between);
    }
    if byte == b'/' {
        return Ok(Place::Slash(tag));
    }
    Ok(Place::Refused(at))
}

fn tag_name(
    alloc: Global,
    opens: &mut Stack,
    from: u64,
    mut name: Name,
    at: u64,
    byte: u8,
) -> Result<Place, Memory>
    ensures { IfOk result (λ p. (r : Option Element) → state p part.Whole opens.new r ≡ chosen (step_at (place.TagName from name) opens.old r at byte)) }
{
    if is_name_byte(byte) {
        name.push(byte)?;
        return Ok(Place::TagName(from, name));
    }
    let tag = Tag {
        at: from,
        name,
        attributes: Attributes::new(alloc),
    };
    after_tag(alloc, opens, tag, at, byte)
}

fn blank(alloc: Global, opens: &mut Stack, tag: Tag, at: u64, byte: u8) -> Result<Place, Memory>
    ensures { IfOk result (λ p. (r : Option Element) → state p part.Whole opens.new r ≡ chosen (step_at (place.Blank tag) opens.old r at byte)) }
{
    if is_name_start(byte) {
        return Ok(Place::Key(tag, first_of_name(alloc, byte)?));
    }
    after_tag(alloc, opens, tag, at, byte)
}

/// Behind the name of an attribute.
fn after_key(tag: Tag, key: Name, at: u64, byte: u8) -> Place
    ensures { (os : List Open) (r : Option Element) → state result part.Whole os r ≡ chosen (after_key tag key os r at byte) }
{
    if is_white(byte) {
        return Place::AfterKey(tag, key);
    }
    if byte == b'=' {
        return Place::Equals(tag, key);
    }
    Place::Refused(at)
}

fn key(tag: Tag, mut key: Name, at: u64, byte: u8) -> Result<Place, Memory>
    ensures { IfOk result (λ p. (os : List Open) (r : Option Element) → state p part.Whole os r ≡ chosen (step_at (place.Key tag key) os r at byte)) }
{
    if is_name_byte(byte) {
        key.push(byte)?;
        return Ok(Place::Key(tag, key));
    }
    if tag.attributes.is_fresh(key.bytes()) {
        return Ok(after_key(tag, key, at, byte));
    }
    Ok(Place::Refused(at))
}

fn equals(alloc: Global, tag: Tag, key: Name, at: u64, byte: u8) -> Place
    ensures { (os : List Open) (r : Option Element) → state result part.Whole os r ≡ chosen (step_at (place.Equals tag key) os r at byte) }
{
    if is_white(byte) {
        return Place::Equals(tag, key);
    }
    if byte == b'"' {
        return Place::Value(tag, key, Quote::Double, Name::empty(alloc));
    }
    if byte == b'\'' {
        return Place::Value(tag, key, Quote::Single, Name::empty(alloc));
    }
    Place::Refused(at)
}

fn value_byte(
    alloc: Global,
    tag: Tag,
    key: Name,
    quote: Quote,
    mut value: Name,
    at: u64,
    byte: u8,
) -> Result<(Place, Part), Memory>
    ensures { IfOk result (λ s. (os : List Open) (r : Option Element) → state s.0 s.1 os r ≡ chosen (step_at (place.Value tag key quote value) os r at byte)) }
{
    if is_value(quote, byte) {
        value.push(byte)?;
        return Ok((Place::Value(tag, key, quote, value), Part::Whole));
    }
    if byte == quote.byte() {
        let Tag {
            at: from,
            name,
            attributes,
        } = tag;
        let attributes = attributes.push(alloc, Attribute { name: key, value })?;
        let longer = Tag {
            at: from,
            name,
            attributes,
        };
        return Ok((Place::Attributed(longer), Part::Whole));
    }
    if byte == b'&' {
        return Ok((Place::Value(tag, key, quote, value), Part::Reference));
    }
    Ok((Place::Refused(at), Part::Whole))
}

fn slash(
    alloc: Global,
    opens: &mut Stack,
    root: &mut Option<Element>,
    tag: Tag,
    at: u64,
    byte: u8,
) -> Result<Place, Memory>
    ensures { IfOk result (λ p. state p part.Whole opens.new root.new ≡ chosen (step_at (place.Slash tag) opens.old root.old at byte)) }
{
    if byte != b'>' {
        return Ok(Place::Refused(at));
    }
    let Tag {
        at: from,
        name,
        attributes,
    } = tag;
    let element = Element {
        at: from,
        name,
        attributes: attributes.into_items(),
        children: Items::new(alloc),
        text: Name::empty(alloc),
    };
    close(alloc, opens, root, element)?;
    Ok(Place::Between)
}

/// Behind an end tag's name.
fn after_end(
    alloc: Global,
    opens: &mut Stack,
    root: &mut Option<Element>,
    inner: Open,
    at: u64,
    byte: u8,
) -> Result<Place, Memory>
    ensures { IfOk result (λ p. state p part.Whole opens.new root.new ≡ chosen (after_end inner opens.old root.old at byte)) }
{
    if is_white(byte) {
        opens.push(inner)?;
        return Ok(Place::CloseWhite);
    }
    if byte != b'>' {
        opens.push(inner)?;
        return Ok(Place::Refused(at));
    }
    let Open {
        at: from,
        name,
        attributes,
        children,
        text,
    } = inner;
    let element = Element {
        at: from,
        name,
        attributes,
        children,
        text: shown(alloc, text),
    };
    close(alloc, opens, root, element)?;
    Ok(Place::Between)
}

/// In the name of an end tag, behind so many bytes of it.
fn close_name(
    alloc: Global,
    opens: &mut Stack,
    root: &mut Option<Element>,
    read: usize,
    at: u64,
    byte: u8,
) -> Result<Place, Memory>
    ensures { IfOk result (λ p. state p part.Whole opens.new root.new ≡ chosen (step_at (place.Close read) opens.old root.old at byte)) }
{
    let wanted = match opens.innermost() {
        None => return Ok(Place::Refused(at)),
        Some(inner) => inner.name.bytes().get(read).copied(),
    };
    match wanted {
        Some(wanted) => {
            if byte == wanted {
                return Ok(Place::Close(read + 1));
            }
            Ok(Place::Refused(at))
        }
        None => close_white(alloc, opens, root, at, byte),
    }
}

fn close_white(
    alloc: Global,
    opens: &mut Stack,
    root: &mut Option<Element>,
    at: u64,
    byte: u8,
) -> Result<Place, Memory>
    ensures { IfOk result (λ p. state p part.Whole opens.new root.new ≡ chosen (step_at place.CloseWhite opens.old root.old at byte)) }
{
    match opens.pop() {
        None => Ok(Place::Refused(at)),
        Some(inner) => after_end(alloc, opens, root, inner, at, byte),
    }
}

fn comment(dashes: Dashes, at: u64, byte: u8) -> Place
    ensures { (os : List Open) (r : Option Element) → state result part.Whole os r ≡ chosen (step_at (place.Comment dashes) os r at byte) }
{
    if is_comment_byte(byte) {
        return Place::Comment(Dashes::Neither);
    }
    if byte == b'-' {
        return match dashes {
            Dashes::Neither => Place::Comment(Dashes::One),
            Dashes::One => Place::Comment(Dashes::Two),
            Dashes::Two => Place::Comment(Dashes::Two),
        };
    }
    if byte == b'>' {
        return match dashes {
            Dashes::Neither => Place::Comment(Dashes::Neither),
            Dashes::One => Place::Comment(Dashes::Neither),
            Dashes::Two => Place::Between,
        };
    }
    Place::Refused(at)
}

fn instruction(ends: bool, at: u64, byte: u8) -> Place
    ensures { (os : List Open) (r : Option Element) → state result part.Whole os r ≡ chosen (step_at (place.Instruction ends) os r at byte) }
{
    if is_instruction_byte(byte) {
        return Place::Instruction(false);
    }
    if byte == b'?' {
        return Place::Instruction(true);
    }
    if byte == b'>' {
        if ends {
            return Place::Between;
        }
        return Place::Instruction(false);
    }
    Place::Refused(at)
}

fn target(at: u64, byte: u8) -> Place
    ensures { (os : List Open) (r : Option Element) → state result part.Whole os r ≡ chosen (step_at place.Target os r at byte) }
{
    if is_name_byte(byte) {
        return Place::Target;
    }
    if is_white(byte) {
        return Place::Instruction(false);
    }
    if byte == b'?' {
        return Place::TargetEnd;
    }
    Place::Refused(at)
}

/// A place where one byte alone may stand.
fn only(byte: u8, wanted: u8, then: Place, at: u64) -> Place
    ensures { (os : List Open) (r : Option Element) → state result part.Whole os r ≡ chosen (test (nat_eq byte wanted) (stay then os r) (refused os r at)) }
{
    if byte == wanted {
        return then;
    }
    Place::Refused(at)
}

fn question(at: u64, byte: u8) -> Place
    ensures { (os : List Open) (r : Option Element) → state result part.Whole os r ≡ chosen (step_at place.Question os r at byte) }
{
    if is_name_start(byte) {
        return Place::Target;
    }
    Place::Refused(at)
}

/// A byte that begins no character past ASCII, where no part of a character or a reference was read.
fn ascii_step(
    alloc: Global,
    opens: &mut Stack,
    root: &mut Option<Element>,
    place: Place,
    at: u64,
    byte: u8,
) -> Result<(Place, Part), Memory>
    ensures { IfOk result (λ s. state s.0 s.1 opens.new root.new ≡ chosen (step_at place opens.old root.old at byte)) }
{
    let next = match place {
        Place::Between => {
            let mut next = Place::Between;
            let part = step_between(opens, &mut next, at, byte)?;
            return Ok((next, part));
        }
        Place::Value(tag, key, quote, value) => {
            return value_byte(alloc, tag, key, quote, value, at, byte);
        }
        Place::Less(from) => {
            let mut next = Place::Between;
            let part = step_less(alloc, opens, root, &mut next, from, at, byte)?;
            return Ok((next, part));
        }
        Place::TagName(from, name) => tag_name(alloc, opens, from, name, at, byte)?,
        Place::Blank(tag) => blank(alloc, opens, tag, at, byte)?,
        Place::Key(tag, name) => key(tag, name, at, byte)?,
        Place::AfterKey(tag, name) => after_key(tag, name, at, byte),
        Place::Equals(tag, name) => equals(alloc, tag, name, at, byte),
        Place::Attributed(tag) => after_tag(alloc, opens, tag, at, byte)?,
        Place::Slash(tag) => slash(alloc, opens, root, tag, at, byte)?,
        Place::Close(read) => close_name(alloc, opens, root, read, at, byte)?,
        Place::CloseWhite => close_white(alloc, opens, root, at, byte)?,
        Place::Comment(dashes) => comment(dashes, at, byte),
        Place::Question => question(at, byte),
        Place::Target => target(at, byte),
        Place::Instruction(ends) => instruction(ends, at, byte),
        Place::MarkOne => only(byte, 187, Place::MarkTwo, at),
        Place::MarkTwo => only(byte, 191, Place::Between, at),
        Place::Bang => only(byte, b'-', Place::BangDash, at),
        Place::BangDash => only(byte, b'-', Place::Comment(Dashes::Neither), at),
        Place::TargetEnd => only(byte, b'>', Place::Between, at),
        Place::Refused(first) => Place::Refused(first),
    };
    Ok((next, Part::Whole))
}

/// Where a character past ASCII may stand.
fn takes(opens: &Stack, root: &Option<Element>, place: &Place) -> bool
    ensures { result ≡ takes place.now opens.now root.now }
{
    match place {
        Place::Between => opens.innermost().is_some(),
        Place::Less(_) => root.is_none(),
        Place::TagName(_, _) => true,
        Place::Blank(_) => true,
        Place::Key(_, _) => true,
        Place::Value(_, _, _, _) => true,
        Place::Comment(_) => true,
        Place::Question => true,
        Place::Target => true,
        Place::Instruction(_) => true,
        _ => false,
    }
}

/// A whole character of these bytes, or a reference to it, put where the place stands.
#[inline(never)]
fn take_in_place(
    alloc: Global,
    opens: &mut Stack,
    place: &mut Place,
    characters: &[u8],
) -> Result<(), Memory>
    ensures { OnOk result ((r : Option Element) → state place.new part.Whole opens.new r ≡ chosen (taken place.old opens.old r characters.now)) }
{
    match place {
        Place::Between => {
            opens.add_text(characters)?;
            Ok(())
        }
        Place::Value(_, _, _, value) => {
            value.append(characters)?;
            Ok(())
        }
        _ => {
            let whole = mem::replace(place, Place::Between);
            let next = take(alloc, opens, whole, characters)?;
            put_place(place, next);
            Ok(())
        }
    }
}

/// A byte that may begin a character past ASCII, where no part was read.
#[inline(never)]
fn lead(
    alloc: Global,
    opens: &mut Stack,
    root: &mut Option<Element>,
    place: &mut Place,
    at: u64,
    byte: u8,
) -> Result<Part, Memory>
    ensures { IfOk result (λ q. state place.new q opens.new root.new ≡ chosen (lead_at place.old opens.old root.old at byte)) }
{
    match place {
        Place::Close(read) => {
            let read = *read;
            step_close(alloc, opens, root, place, read, at, byte)
        }
        Place::Refused(_) => Ok(Part::Whole),
        Place::Between => {
            if opens.innermost().is_some() {
                return Ok(Part::Lead(byte));
            }
            if root.is_none() && at == 0 && byte == 239 {
                put_place(place, Place::MarkOne);
                return Ok(Part::Whole);
            }
            refuse(place, at);
            Ok(Part::Whole)
        }
        _ => {
            if takes(opens, root, place) {
                return Ok(Part::Lead(byte));
            }
            refuse(place, at);
            Ok(Part::Whole)
        }
    }
}

/// The last byte of a character past ASCII.
fn last(
    alloc: Global,
    opens: &mut Stack,
    place: &mut Place,
    characters: &[u8],
    at: u64,
    byte: u8,
) -> Result<Part, Memory>
    ensures { IfOk result (λ q. (r : Option Element) → state place.new q opens.new r ≡ chosen (test (is_tail byte) (taken place.old opens.old r characters.now) (refused opens.old r at))) }
{
    if is_tail(byte) {
        take_in_place(alloc, opens, place, characters)?;
        return Ok(Part::Whole);
    }
    refuse(place, at);
    Ok(Part::Whole)
}

/// Behind the first byte of a character past ASCII.
fn second(
    alloc: Global,
    opens: &mut Stack,
    place: &mut Place,
    first: u8,
    at: u64,
    byte: u8,
) -> Result<Part, Memory>
    ensures { IfOk result (λ q. (r : Option Element) → state place.new q opens.new r ≡ chosen (step place.old (part.Lead first) opens.old r at byte)) }
{
    if is_lead_of_two(first) {
        return last(alloc, opens, place, &[first, byte], at, byte);
    }
    if is_front_of_three(first, byte) {
        return Ok(Part::Three(first, byte));
    }
    if is_front_of_four(first, byte) {
        return Ok(Part::Four(first, byte));
    }
    refuse(place, at);
    Ok(Part::Whole)
}

/// Behind two bytes of a character of four.
fn third(place: &mut Place, first: u8, second: u8, at: u64, byte: u8) -> Part
    ensures { (os : List Open) (r : Option Element) → state place.new result os r ≡ chosen (step place.old (part.Four first second) os r at byte) }
{
    if is_tail(byte) {
        return Part::Last(first, second, byte);
    }
    refuse(place, at);
    Part::Whole
}

/// In the name of a reference, behind so many bytes of it.
fn entity_name(
    alloc: Global,
    opens: &mut Stack,
    place: &mut Place,
    entity: Entity,
    read: usize,
    at: u64,
    byte: u8,
) -> Result<Part, Memory>
    ensures { IfOk result (λ q. (r : Option Element) → state place.new q opens.new r ≡ chosen (named place.old entity read opens.old r at byte)) }
{
    let text = entity.text();
    let wanted = match text.get(read) {
        Some(byte) => *byte,
        None => 0,
    };
    if byte != wanted {
        refuse(place, at);
        return Ok(Part::Whole);
    }
    if text.len().saturating_sub(read) > 1 {
        return Ok(Part::Named(entity, read + 1));
    }
    take_in_place(alloc, opens, place, &[entity.byte()])?;
    Ok(Part::Whole)
}

/// Behind the `&` of a reference.
fn reference(place: &mut Place, at: u64, byte: u8) -> Part
    ensures { (os : List Open) (r : Option Element) → state place.new result os r ≡ chosen (step place.old part.Reference os r at byte) }
{
    if byte == b'#' {
        return Part::Hash;
    }
    if byte == b'a' {
        return Part::ReferenceA;
    }
    if byte == b'l' {
        return Part::Named(Entity::Less, 1);
    }
    if byte == b'g' {
        return Part::Named(Entity::Greater, 1);
    }
    if byte == b'q' {
        return Part::Named(Entity::Quotation, 1);
    }
    refuse(place, at);
    Part::Whole
}

/// Behind `&a`.
fn reference_a(place: &mut Place, at: u64, byte: u8) -> Part
    ensures { (os : List Open) (r : Option Element) → state place.new result os r ≡ chosen (step place.old part.ReferenceA os r at byte) }
{
    if byte == b'm' {
        return Part::Named(Entity::Ampersand, 2);
    }
    if byte == b'p' {
        return Part::Named(Entity::Apostrophe, 2);
    }
    refuse(place, at);
    Part::Whole
}

/// Behind `&#`.
fn hash(place: &mut Place, at: u64, byte: u8) -> Part
    ensures { (os : List Open) (r : Option Element) → state place.new result os r ≡ chosen (step place.old part.Hash os r at byte) }
{
    if Radix::Decimal.is_digit(byte) {
        return Part::Digits(Radix::Decimal, digit_value(byte));
    }
    if byte == b'x' {
        return Part::HashX;
    }
    refuse(place, at);
    Part::Whole
}

/// Behind `&#x`.
fn hash_x(place: &mut Place, at: u64, byte: u8) -> Part
    ensures { (os : List Open) (r : Option Element) → state place.new result os r ≡ chosen (step place.old part.HashX os r at byte) }
{
    if Radix::Hexadecimal.is_digit(byte) {
        return Part::Digits(Radix::Hexadecimal, digit_value(byte));
    }
    refuse(place, at);
    Part::Whole
}

/// The bytes of the character with this number.
#[tactic(auto, unfolding(crate::specs::Characters::utf8))]
fn utf8(alloc: Global, number: u32) -> Result<Name, Memory>
    requires { number ≤ 1114111 }
    ensures { IfOk result (λ name. name ≡ utf8 number) }
{
    if number < 128 {
        return Name::new(alloc, &[number as u8]);
    }
    let last = 128 + (number % 64) as u8;
    if number < 2048 {
        return Name::new(alloc, &[192 + (number / 64) as u8, last]);
    }
    let third = 128 + (number / 64 % 64) as u8;
    if number < 65_536 {
        return Name::new(alloc, &[224 + (number / 4096) as u8, third, last]);
    }
    let second = 128 + (number / 4096 % 64) as u8;
    Name::new(
        alloc,
        &[240 + (number / 262_144) as u8, second, third, last],
    )
}

/// Behind the digits of this number and a `;`.
fn numbered(alloc: Global, opens: &mut Stack, place: &mut Place, number: u32) -> Result<(), Memory>
    requires { number ≤ 1114111 }
    ensures { OnOk result ((r : Option Element) → state place.new part.Whole opens.new r ≡ chosen (taken place.old opens.old r (utf8 number))) }
{
    let character = utf8(alloc, number)?;
    take_in_place(alloc, opens, place, character.bytes())
}

/// Behind digits of this number.
fn digits(
    alloc: Global,
    opens: &mut Stack,
    place: &mut Place,
    radix: Radix,
    number: u32,
    at: u64,
    byte: u8,
) -> Result<Part, Memory>
    ensures { IfOk result (λ q. (r : Option Element) → state place.new q opens.new r ≡ chosen (step place.old (part.Digits radix number) opens.old r at byte)) }
{
    if radix.is_digit(byte) {
        let longer = u64::from(radix.base()) * u64::from(number) + u64::from(digit_value(byte));
        if longer <= 1_114_111 {
            return Ok(Part::Digits(radix, longer as u32));
        }
        refuse(place, at);
        return Ok(Part::Whole);
    }
    if byte == b';' && is_character_number(number) {
        numbered(alloc, opens, place, number)?;
        return Ok(Part::Whole);
    }
    refuse(place, at);
    Ok(Part::Whole)
}

/// A byte that begins no character past ASCII, at a place that is taken out and put back.
#[inline(never)]
fn step_taken(
    alloc: Global,
    opens: &mut Stack,
    root: &mut Option<Element>,
    place: &mut Place,
    at: u64,
    byte: u8,
) -> Result<Part, Memory>
    ensures { IfOk result (λ q. state place.new q opens.new root.new ≡ chosen (step_at place.old opens.old root.old at byte)) }
{
    let taken = mem::replace(place, Place::Between);
    let (next, part) = ascii_step(alloc, opens, root, taken, at, byte)?;
    put_place(place, next);
    Ok(part)
}

/// In an end tag, where the place stands.
#[inline(never)]
fn step_close(
    alloc: Global,
    opens: &mut Stack,
    root: &mut Option<Element>,
    into: &mut Place,
    read: usize,
    at: u64,
    byte: u8,
) -> Result<Part, Memory>
    ensures { IfOk result (λ q. state into.new q opens.new root.new ≡ chosen (step_at (place.Close read) opens.old root.old at byte)) }
{
    let next = close_name(alloc, opens, root, read, at, byte)?;
    put_place(into, next);
    Ok(Part::Whole)
}

/// In the name of a start tag, where the place stands.
#[inline(never)]
fn step_tag_name(
    alloc: Global,
    opens: &mut Stack,
    into: &mut Place,
    from: u64,
    name: Name,
    at: u64,
    byte: u8,
) -> Result<Part, Memory>
    ensures { IfOk result (λ q. (r : Option Element) → state into.new q opens.new r ≡ chosen (step_at (place.TagName from name) opens.old r at byte)) }
{
    let next = tag_name(alloc, opens, from, name, at, byte)?;
    put_place(into, next);
    Ok(Part::Whole)
}

/// Behind white in a start tag, where the place stands.
#[inline(never)]
fn step_blank(
    alloc: Global,
    opens: &mut Stack,
    into: &mut Place,
    tag: Tag,
    at: u64,
    byte: u8,
) -> Result<Part, Memory>
    ensures { IfOk result (λ q. (r : Option Element) → state into.new q opens.new r ≡ chosen (step_at (place.Blank tag) opens.old r at byte)) }
{
    let next = blank(alloc, opens, tag, at, byte)?;
    put_place(into, next);
    Ok(Part::Whole)
}

/// In the name of an attribute, where the place stands.
#[inline(never)]
fn step_key(into: &mut Place, tag: Tag, name: Name, at: u64, byte: u8) -> Result<Part, Memory>
    ensures { IfOk result (λ q. (os : List Open) (r : Option Element) → state into.new q os r ≡ chosen (step_at (place.Key tag name) os r at byte)) }
{
    let next = key(tag, name, at, byte)?;
    put_place(into, next);
    Ok(Part::Whole)
}

/// Behind the `=` of an attribute, where the place stands.
#[inline(never)]
fn step_equals(alloc: Global, into: &mut Place, tag: Tag, name: Name, at: u64, byte: u8)
    ensures { (os : List Open) (r : Option Element) → state into.new part.Whole os r ≡ chosen (step_at (place.Equals tag name) os r at byte) }
{
    let next = equals(alloc, tag, name, at, byte);
    put_place(into, next);
}

/// In a value, where the place stands.
#[inline(never)]
fn step_value(
    alloc: Global,
    into: &mut Place,
    tag: Tag,
    name: Name,
    quote: Quote,
    value: Name,
    at: u64,
    byte: u8,
) -> Result<Part, Memory>
    ensures { IfOk result (λ q. (os : List Open) (r : Option Element) → state into.new q os r ≡ chosen (step_at (place.Value tag name quote value) os r at byte)) }
{
    let (next, part) = value_byte(alloc, tag, name, quote, value, at, byte)?;
    put_place(into, next);
    Ok(part)
}

/// Behind a value, where the place stands.
#[inline(never)]
fn step_attributed(
    alloc: Global,
    opens: &mut Stack,
    into: &mut Place,
    tag: Tag,
    at: u64,
    byte: u8,
) -> Result<Part, Memory>
    ensures { IfOk result (λ q. (r : Option Element) → state into.new q opens.new r ≡ chosen (step_at (place.Attributed tag) opens.old r at byte)) }
{
    let next = after_tag(alloc, opens, tag, at, byte)?;
    put_place(into, next);
    Ok(Part::Whole)
}

/// The places of attributes, and others that are rarer.
#[inline(never)]
fn step_tag(
    alloc: Global,
    opens: &mut Stack,
    root: &mut Option<Element>,
    place: &mut Place,
    at: u64,
    byte: u8,
) -> Result<Part, Memory>
    ensures { IfOk result (λ q. state place.new q opens.new root.new ≡ chosen (step_at place.old opens.old root.old at byte)) }
{
    match place {
        Place::Blank(tag) => {
            let tag = take_tag(alloc, tag);
            step_blank(alloc, opens, place, tag, at, byte)
        }
        Place::Key(tag, name) => {
            let tag = take_tag(alloc, tag);
            let name = take_name(alloc, name);
            step_key(place, tag, name, at, byte)
        }
        Place::Equals(tag, name) => {
            let tag = take_tag(alloc, tag);
            let name = take_name(alloc, name);
            step_equals(alloc, place, tag, name, at, byte);
            Ok(Part::Whole)
        }
        Place::Value(tag, name, quote, value) => {
            let quote = *quote;
            let tag = take_tag(alloc, tag);
            let name = take_name(alloc, name);
            let value = take_name(alloc, value);
            step_value(alloc, place, tag, name, quote, value, at, byte)
        }
        Place::Attributed(tag) => {
            let tag = take_tag(alloc, tag);
            step_attributed(alloc, opens, place, tag, at, byte)
        }
        _ => step_taken(alloc, opens, root, place, at, byte),
    }
}

/// A byte that begins no character past ASCII, where no part of a character or a reference was read. What the place holds stays
/// where it is while nothing else holds it.
fn step_in_place(
    alloc: Global,
    opens: &mut Stack,
    root: &mut Option<Element>,
    place: &mut Place,
    at: u64,
    byte: u8,
) -> Result<Part, Memory>
    ensures { IfOk result (λ q. state place.new q opens.new root.new ≡ chosen (step_at place.old opens.old root.old at byte)) }
{
    match place {
        Place::Between => step_between(opens, place, at, byte),
        Place::Less(from) => {
            let from = *from;
            step_less(alloc, opens, root, place, from, at, byte)
        }
        Place::Close(read) => {
            let read = *read;
            step_close(alloc, opens, root, place, read, at, byte)
        }
        Place::TagName(from, name) => {
            let from = *from;
            let name = take_name(alloc, name);
            step_tag_name(alloc, opens, place, from, name, at, byte)
        }
        _ => step_tag(alloc, opens, root, place, at, byte),
    }
}

/// The next byte, behind a part of a character or of a reference.
#[inline(never)]
fn within(
    alloc: Global,
    opens: &mut Stack,
    root: &mut Option<Element>,
    place: &mut Place,
    part: Part,
    at: u64,
    byte: u8,
) -> Result<Part, Memory>
    ensures { IfOk result (λ q. state place.new q opens.new root.new ≡ chosen (step place.old part opens.old root.old at byte)) }
{
    match part {
        Part::Whole => whole(alloc, opens, root, place, at, byte),
        Part::Lead(first) => second(alloc, opens, place, first, at, byte),
        Part::Three(first, second) => {
            last(alloc, opens, place, &[first, second, byte], at, byte)
        }
        Part::Four(first, second) => Ok(third(place, first, second, at, byte)),
        Part::Last(first, second, third) => {
            last(alloc, opens, place, &[first, second, third, byte], at, byte)
        }
        Part::Reference => Ok(reference(place, at, byte)),
        Part::ReferenceA => Ok(reference_a(place, at, byte)),
        Part::Named(entity, read) => entity_name(alloc, opens, place, entity, read, at, byte),
        Part::Hash => Ok(hash(place, at, byte)),
        Part::HashX => Ok(hash_x(place, at, byte)),
        Part::Digits(radix, number) => digits(alloc, opens, place, radix, number, at, byte),
    }
}

/// A byte where no part of a character or a reference was read.
fn whole(
    alloc: Global,
    opens: &mut Stack,
    root: &mut Option<Element>,
    place: &mut Place,
    at: u64,
    byte: u8,
) -> Result<Part, Memory>
    ensures { IfOk result (λ q. state place.new q opens.new root.new ≡ chosen (step place.old part.Whole opens.old root.old at byte)) }
{
    if is_lead(byte) {
        return lead(alloc, opens, root, place, at, byte);
    }
    step_in_place(alloc, opens, root, place, at, byte)
}

/// The next byte: the place behind it, and the part of a character or a reference that was read.
pub fn advance(
    alloc: Global,
    opens: &mut Stack,
    root: &mut Option<Element>,
    place: &mut Place,
    part: Part,
    at: u64,
    byte: u8,
) -> Result<Part, Memory>
    ensures { IfOk result (λ q. state place.new q opens.new root.new ≡ chosen (step place.old part opens.old root.old at byte)) }
{
    match part {
        Part::Whole => whole(alloc, opens, root, place, at, byte),
        other => within(alloc, opens, root, place, other, at, byte),
    }
}
