ghost use Rattle.std.specs.Prelude.{◌≡◌, ◌<◌, ◌-◌, ◌^◌, [], ◌++◌, IfErr, IfOk, IfSome, OnOk, codes, find, length, reverse};
ghost use Rattle.mcc_model.specs.declared.faults.FormulaFault.TheVariants.{NoProperty};
ghost use Rattle.std.specs.List.{flat_map};
ghost use Rattle.mcc_model.specs.Faults.{IsFirstRule};
ghost use Rattle.mcc_model.specs.Files.{broken_in_set, has_name, id_among, ids_of, properties_in, property_in};
ghost use Rattle.name_tables.specs.Numbering.{number_in};
ghost use Rattle.mcc_formula.specs.Finding.{IsFound};

use crate::sets::{check, has_name};
use doc_model::Element;
use mcc_model::{FormulaFault, Properties, Property};
use name_tables::Name;
use net_elements::trimmed;
use sqlite_items::Items;
use std::alloc::Global;
use wide_sums::Memory;

/// The most properties of a file.
const MOST_PROPERTIES: usize = 0xffff_fffe;

/// The text of the first `id`, without white at its ends.
fn id_among(children: &[Element]) -> &[u8]
    ensures { result.now ≡ id_among children.now }
{
    for child in children {
        if has_name(b"id", child) {
            return trimmed(child.text.bytes());
        }
    }
    &[]
}

/// The first `formula`, moved out of these children.
fn formula_among(children: Items<Element>) -> Option<Element>
    ensures { result ≡ find (has_name (codes "formula")) children }
{
    let mut left = children;
    let mut found = None;
    while let Some(child) = left.pop() {
        if has_name(b"formula", &child) {
            found = Some(child);
        }
    }
    found
}

/// Adds the property that an element of a set is, where it has a formula, behind the others.
fn add(alloc: Global, list: &mut Vec<Property>, element: Element) -> Result<(), Memory>
    requires { length list.old.items < 2 ^ 32 - 1 }
    ensures added { OnOk result (reverse list.new.items ≡ property_in element ++ reverse list.old.items) }
    ensures few { OnOk result (length list.new.items < 2 ^ 32 - 1) }
{
    let Element { children, .. } = element;
    let id = Name::new(alloc, id_among(children.as_slice()))?;
    if let Some(formula) = formula_among(children) {
        if list.len() >= MOST_PROPERTIES {
            return Err(Memory);
        }
        list.push(Property { id, formula })?;
    }
    Ok(())
}

/// The properties that these elements are, the last of them first.
fn collect(alloc: Global, children: Items<Element>) -> Result<Vec<Property>, Memory>
    ensures list { IfOk result (λ list. reverse list.items ≡ flat_map property_in children) }
    ensures few { IfOk result (λ list. length list.items < 2 ^ 32 - 1) }
{
    let mut left = children;
    let mut list = Vec::new(alloc);
    while let Some(child) = left.pop() {
        add(alloc, &mut list, child)?;
    }
    Ok(list)
}

/// The properties of a property file, whose tree is used up: each formula is moved out of it. `Structure` is answered exactly where
/// the tree breaks a rule of property files, with the first one in the order of the walk and the offset of its element. `Memory`
/// comes for want of memory; a file with 2^32 - 1 properties or more is too large for it.
pub fn read_properties(alloc: Global, root: Element) -> Result<Properties, FormulaFault>
    ensures properties { IfOk result (λ properties. properties.list ≡ properties_in root) }
    ensures few { IfOk result (λ properties. length properties.list < 2 ^ 32 - 1) }
    ensures sound { OnOk result (broken_in_set root ≡ []) }
    ensures first { IfErr result (λ fault. IsFirstRule (broken_in_set root) fault) }
{
    check(alloc, &root)?;
    let Element { children, .. } = root;
    let mut list = collect(alloc, children)?;
    list.reverse();
    Ok(Properties {
        list: Items::from_vec(list),
    })
}

/// The place of the first property of this id.
fn place_of(list: &[Property], name: &[u8]) -> Option<usize>
    ensures place { result ≡ number_in (ids_of list.now) name.now }
    ensures within { IfSome result (λ at. at < length list.now) }
{
    for (at, property) in list.iter().enumerate() {
        if name == property.id.bytes() {
            return Some(at);
        }
    }
    None
}

/// The number of the property of this id, from 0, by its place in the file; `NoProperty` exactly where none has it.
pub fn find(properties: &Properties, name: &[u8]) -> Result<u32, FormulaFault>
    requires { length properties.now.list < 2 ^ 32 }
    ensures { IsFound (ids_of properties.now.list) name.now result }
{
    match place_of(properties.list.as_slice(), name) {
        Some(at) => Ok(at as u32),
        None => Err(FormulaFault::NoProperty),
    }
}
