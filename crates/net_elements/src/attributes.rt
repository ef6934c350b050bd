ghost use Rattle.std.specs.Prelude.{◌≡◌, reverse, MatchOption, None, Some};
ghost use Rattle.doc_tree.specs.Characters.{is_white};
ghost use Rattle.net_elements.specs.Rules.{fault_of, is_bad_text, kind_of, kind_within, passes, trimmed, truth_of, value_of, without_front};

use crate::roles::{Key, Role};
use doc_model::Attribute;
use doc_tree::Fault;
use name_tables::{is_id, read_number};
use net_model::Kind;

const PT_NET: &[u8] = b"http://www.pnml.org/version-2009/grammar/ptnet";

const SYMMETRIC_NET: &[u8] = b"http://www.pnml.org/version-2009/grammar/symmetricnet";

/// The value of the first attribute of a name.
pub fn value_of<'a>(name: &[u8], attributes: &'a [Attribute]) -> Option<&'a [u8]>
    ensures { MatchOption result (value_of name.now attributes.now ≡ None) (λ value. value_of name.now attributes.now ≡ Some value.now) }
{
    for attribute in attributes {
        if name == attribute.name.bytes() {
            return Some(attribute.value.bytes());
        }
    }
    None
}

/// The kind of the nets of a type.
pub fn kind_of(value: &[u8]) -> Option<Kind>
    ensures { result ≡ kind_of value.now }
{
    if value == PT_NET {
        return Some(Kind::Pt);
    }
    if value == SYMMETRIC_NET {
        return Some(Kind::Symmetric);
    }
    None
}

/// The truth value that a value writes.
pub fn truth_of(value: &[u8]) -> Option<bool>
    ensures { result ≡ truth_of value.now }
{
    if value == b"true".as_slice() {
        return Some(true);
    }
    if value == b"false".as_slice() {
        return Some(false);
    }
    None
}

/// Whether the value of an attribute is what it has to be.
pub fn passes(key: Key, value: &[u8]) -> bool
    ensures { result ≡ passes key value.now }
{
    match key {
        Key::NetType => kind_of(value).is_some(),
        Key::Start | Key::End | Key::SignedValue => read_number(value, true).is_some(),
        Key::CountValue => read_number(value, false).is_some(),
        Key::TruthValue => truth_of(value).is_some(),
        _ => is_id(value),
    }
}

/// The rule that is broken where it isn't.
pub fn fault_of(key: Key) -> Fault
    ensures { result ≡ fault_of key }
{
    match key {
        Key::NetType => Fault::NetType,
        Key::Start | Key::End | Key::SignedValue | Key::CountValue | Key::TruthValue => {
            Fault::BadNumber
        }
        _ => Fault::BadId,
    }
}

/// The kind of net that the children of an element belong to.
pub fn kind_within(kind: Kind, role: Role, attributes: &[Attribute]) -> Kind
    ensures { result ≡ kind_within kind role attributes.now }
{
    match role {
        Role::Net => kind_said(kind, attributes),
        _ => kind,
    }
}

fn kind_said(otherwise: Kind, attributes: &[Attribute]) -> Kind
    ensures { result ≡ kind_within otherwise Role.Net attributes.now }
{
    match value_of(b"type", attributes) {
        Some(value) => kind_of(value).unwrap_or(otherwise),
        None => otherwise,
    }
}

#[tactic(auto, unfolding(doc_tree::specs::Characters::is_white))]
fn is_white(byte: u8) -> bool
    ensures { result ≡ is_white byte }
{
    byte == b' ' || byte == b'\t' || byte == b'\n' || byte == b'\r'
}

fn without_front(text: &[u8]) -> &[u8]
    ensures { result.now ≡ without_front text.now }
{
    for (at, byte) in text.iter().enumerate() {
        if !is_white(*byte) {
            return &text[at..];
        }
    }
    &[]
}

fn without_end(text: &[u8]) -> &[u8]
    ensures { result.now ≡ reverse (without_front (reverse text.now)) }
{
    let mut length = text.len();
    while length > 0 && is_white(text[length - 1]) {
        length -= 1;
    }
    &text[..length]
}

/// The text without white at its ends: space, tab, line feed and carriage return.
pub fn trimmed(text: &[u8]) -> &[u8]
    ensures { result.now ≡ trimmed text.now }
{
    without_end(without_front(text))
}

/// Whether the text of an element is to be a number and is none.
pub fn is_bad_text(role: Role, text: &[u8]) -> bool
    ensures { result ≡ is_bad_text role text.now }
{
    match role {
        Role::Text => read_number(trimmed(text), false).is_none(),
        _ => false,
    }
}
