ghost use Rattle.std.specs.Prelude.{◌<◌};

use crate::layouts::{layout_of, names};
use crate::rows::goal_text;
use doc_tree::read_pieces;
use mcc_formula::{FormulaFault, Properties, find, read_properties, resolve};
use name_tables::Name;
use pt_net::Layout;
use std::alloc::Global;
use std::test::Fail;
use wide_sums::Memory;

/// The properties of a text; none where it is no document.
pub fn properties_of(alloc: Global, text: &[u8]) -> Result<Properties, FormulaFault> {
    if text.len() > 1_000_000_000 {
        return Err(FormulaFault::Memory);
    }
    match read_pieces(alloc, &[text]) {
        Ok(root) => read_properties(alloc, root),
        Err(_) => Err(FormulaFault::NoProperty),
    }
}

/// The number of the property of an id. A list too long for such numbers is answered as want of memory.
pub fn found(properties: &Properties, id: &[u8]) -> Result<u32, FormulaFault> {
    if properties.list.len() > 1_000_000_000 {
        return Err(FormulaFault::Memory);
    }
    find(properties, id)
}

/// The text of the goal that the property of an id is.
pub fn goal_named(
    alloc: Global,
    properties: &Properties,
    id: &[u8],
    layout: &Layout,
) -> Result<Name, FormulaFault> {
    let at = found(properties, id)?;
    match properties.list.get(at as usize) {
        Some(property) => Ok(goal_text(alloc, &resolve(alloc, property, layout)?)?),
        None => Err(FormulaFault::NoProperty),
    }
}

/// The places and transitions of the ring of philosophers.
pub fn ring_layout(alloc: Global) -> Result<Option<Layout>, Memory> {
    let places = names(alloc, &[b"Think", b"Fork", b"Eat"])?;
    let transitions = names(alloc, &[b"take", b"release"])?;
    layout_of(alloc, places, transitions)
}

/// `M-` and two digits.
fn id_of(alloc: Global, number: u8) -> Result<Name, Memory>
    requires { number < 100 }
{
    Name::new(alloc, &[b'M', b'-', b'0' + number / 10, b'0' + number % 10])
}

const RING: &[u8] =
    b"<all-paths><globally><integer-le><tokens-count><place>Eat</place></tokens-count><integer-constant>1</integer-constant></integer-le></globally></all-paths>";

const OTHER: &[u8] =
    b"<all-paths><finally><is-fireable><transition>take</transition></is-fireable></finally></all-paths>";

/// A file as a contest has it: sixteen properties with descriptions, lines that are indented and end with a carriage return, and
/// an attribute at the root. The third is that at most one philosopher eats, and all others speak of runs.
fn contest_file(alloc: Global) -> Result<Vec<u8>, Memory> {
    let mut text = Vec::from_slice(
        alloc,
        b"<?xml version=\"1.0\"?>\r\n<property-set xmlns=\"http://mcc.lip6.fr/\">\r\n",
    )?;
    for number in 0..16 {
        text.extend_from_slice(b"  <property>\r\n    <id>")?;
        text.extend_from_slice(id_of(alloc, number)?.bytes())?;
        text.extend_from_slice(
            b"</id>\r\n    <description>of <b>eating</b></description>\r\n    <formula>\r\n      ",
        )?;
        text.extend_from_slice(if number == 2 { RING } else { OTHER })?;
        text.extend_from_slice(b"\r\n    </formula>\r\n  </property>\r\n")?;
    }
    text.extend_from_slice(b"</property-set>\r\n")?;
    Ok(text)
}

/// Whether a word stands at an offset of a text.
fn begins_at(text: &[u8], at: usize, word: &[u8]) -> bool {
    at <= text.len() && text[at..].starts_with(word)
}

/// Whether the properties are `M-00` to `M-15`, and each is found by its id.
fn are_sixteen(alloc: Global, properties: &Properties) -> Result<bool, Memory> {
    for number in 0..16 {
        let id = id_of(alloc, number)?;
        match found(properties, id.bytes()) {
            Ok(at) if at == number as u32 => {}
            _ => return Ok(false),
        }
    }
    Ok(properties.list.len() == 16)
}

#[test]
fn a_property_of_a_contest_is_found_by_its_id(rt: HostRuntime) -> Result<(), Fail> {
    let alloc = rt.alloc();
    let text = contest_file(alloc)?;
    let Some(layout) = ring_layout(alloc)? else {
        return Ok(());
    };
    let Ok(properties) = properties_of(alloc, &text) else {
        assert!(rt; false);
        return Ok(());
    };
    assert!(rt; are_sixteen(alloc, &properties)?);
    let third = match goal_named(alloc, &properties, b"M-02", &layout) {
        Ok(goal) => goal.bytes() == b"A#2<=1".as_slice(),
        Err(_) => false,
    };
    assert!(rt; third);
    let fourth = match goal_named(alloc, &properties, b"M-03", &layout) {
        Err(FormulaFault::NotReachability { at }) => begins_at(&text, at as usize, b"<finally>"),
        _ => false,
    };
    assert!(rt; fourth);
    let other = match found(&properties, b"M-16") {
        Err(fault) => fault == FormulaFault::NoProperty,
        Ok(_) => false,
    };
    assert!(rt; other);
    Ok(())
}
