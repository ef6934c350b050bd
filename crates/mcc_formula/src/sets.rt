ghost use Rattle.std.specs.Prelude.{◌≡◌, ◌-◌, ◌<◌, ◌^◌, [], Err, IfErr, OnOk, length};
ghost use Rattle.std.specs.List.{flat_map, list_any};
ghost use Rattle.doc_model.specs.declared.tree.Element.{out-Element};
ghost use Rattle.net_elements.specs.declared.faults.ReadFault.TheVariants.{Structure};
ghost use Rattle.net_elements.specs.Rules.{Met, nothing_met};
ghost use Rattle.net_elements.specs.Walking.{Finds, IsFirst, IsMet, found};
ghost use Rattle.mcc_model.specs.Files.{broken_in_set, formula_notes, has_name, id_notes, is_short, member_notes, one_child, part_notes, parts_notes, property_notes, refused, text_notes};

use doc_model::Element;
use doc_tree::Fault;
use name_tables::{Added, Ids, Name, is_id};
use net_elements::{ReadFault, trimmed};
use std::alloc::Global;
use std::marker::Model;
use wide_sums::Memory;

/// The most ids that are numbered.
const MOST_IDS: u32 = 0xffff_fffe;

fn broken(at: u64, kind: Fault) -> Result<(), ReadFault>
    ensures { result ≡ Err (Structure at kind) }
{
    Err(ReadFault::Structure { at, kind })
}

/// Adds an id to those that were met.
fn meet(alloc: Global, ids: &mut Ids, at: u64, id: &[u8]) -> Result<(), ReadFault>
    requires { length ids.old < 2 ^ 32 - 1 }
    ensures met { IsMet ids.old at id.now ids.new result }
    ensures few { length ids.new < 2 ^ 32 - 1 }
{
    if ids.count() >= MOST_IDS {
        return Err(ReadFault::Memory);
    }
    match ids.add(Name::new(alloc, id)?)? {
        Added::New(_) => Ok(()),
        Added::Old(_) => broken(at, Fault::DuplicateId),
    }
}

/// Whether an element has this name.
pub fn has_name(name: &[u8], element: &Element) -> bool
    ensures { result ≡ has_name name.now element.now }
{
    element.name.bytes() == name
}

/// Whether one of some elements has this name.
fn any_has_name(name: &[u8], elements: &[Element]) -> bool
    ensures { result ≡ list_any (has_name name.now) elements.now }
{
    for element in elements {
        if has_name(name, element) {
            return true;
        }
    }
    false
}

/// Whether an id or a formula is missing among the children of a property.
fn is_short(children: &[Element]) -> bool
    ensures { result ≡ is_short children.now }
{
    !any_has_name(b"id", children) || !any_has_name(b"formula", children)
}

/// Elements of which none may stand there.
fn refused(children: &[Element]) -> Result<(), ReadFault>
    ensures { (met : Met) → Finds met result (found met (refused children.now)) }
{
    match children.first() {
        Some(child) => broken(child.at, Fault::Unexpected),
        None => Ok(()),
    }
}

/// The formula of a property.
fn formula(element: &Element) -> Result<(), ReadFault>
    ensures { (met : Met) → Finds met result (found met (formula_notes element.now)) }
{
    match element.children.as_slice() {
        [] => broken(element.at, Fault::MissingChild),
        [_, more @ ..] => refused(more),
    }
}

/// A walk over a property file: the ids of properties that were met.
#[derive(Debug, Drop)]
struct Walker {
    ids: Ids,
}

impl Model for Walker {
    ghost use Rattle.std.specs.Prelude.{◌-◌, ◌<◌, ◌^◌, [], length};
    ghost use Rattle.net_elements.specs.Rules.{Met};

    ghost Value = { Met };

    ghost view = { λ walker. record { nodes = walker.ids; symbols = [] } };

    ghost invariant = { λ walker. length walker.ids < 2 ^ 32 - 1 };
}

impl Walker {
    fn new(alloc: Global) -> Walker
        ensures { result ≡ nothing_met }
    {
        Walker {
            ids: Ids::new(alloc),
        }
    }

    fn text(&mut self, alloc: Global, at: u64, id: &[u8]) -> Result<(), ReadFault>
        ensures { Finds self.new result (found self.old (text_notes at id.now)) }
    {
        if !is_id(id) {
            return broken(at, Fault::BadId);
        }
        meet(alloc, &mut self.ids, at, id)
    }

    fn id(&mut self, alloc: Global, element: &Element) -> Result<(), ReadFault>
        ensures { Finds self.new result (found self.old (id_notes element.now)) }
    {
        refused(element.children.as_slice())?;
        self.text(alloc, element.at, trimmed(element.text.bytes()))
    }

    /// A child of a property that stands behind these siblings.
    fn part(
        &mut self,
        alloc: Global,
        earlier: &[Element],
        element: &Element,
    ) -> Result<(), ReadFault>
        ensures { Finds self.new result (found self.old (part_notes earlier.now element.now)) }
    {
        if has_name(b"id", element) {
            if any_has_name(b"id", earlier) {
                return broken(element.at, Fault::Unexpected);
            }
            return self.id(alloc, element);
        }
        if has_name(b"formula", element) {
            if any_has_name(b"formula", earlier) {
                return broken(element.at, Fault::Unexpected);
            }
            return formula(element);
        }
        Ok(())
    }

    fn parts(&mut self, alloc: Global, children: &[Element]) -> Result<(), ReadFault>
        ensures { Finds self.new result (found self.old (parts_notes [] children.now)) }
    {
        for (at, child) in children.iter().enumerate() {
            self.part(alloc, &children[..at], child)?;
        }
        Ok(())
    }

    fn property(&mut self, alloc: Global, element: &Element) -> Result<(), ReadFault>
        ensures { Finds self.new result (found self.old (property_notes element.now)) }
    {
        self.parts(alloc, element.children.as_slice())?;
        if is_short(element.children.as_slice()) {
            return broken(element.at, Fault::MissingChild);
        }
        Ok(())
    }

    /// A child of the set.
    fn member(&mut self, alloc: Global, element: &Element) -> Result<(), ReadFault>
        ensures { Finds self.new result (found self.old (member_notes element.now)) }
    {
        if has_name(b"property", element) {
            self.property(alloc, element)
        } else {
            broken(element.at, Fault::Unexpected)
        }
    }

    fn members(&mut self, alloc: Global, children: &[Element]) -> Result<(), ReadFault>
        ensures { Finds self.new result (found self.old (flat_map member_notes children.now)) }
    {
        for child in children {
            self.member(alloc, child)?;
        }
        Ok(())
    }
}

/// Walks over a property file, and answers its first broken rule where one is broken.
pub fn check(alloc: Global, root: &Element) -> Result<(), ReadFault>
    ensures sound { OnOk result (broken_in_set root.now ≡ []) }
    ensures first { IfErr result (λ fault. IsFirst (broken_in_set root.now) fault) }
{
    if !has_name(b"property-set", root) {
        return broken(root.at, Fault::Unexpected);
    }
    let mut walker = Walker::new(alloc);
    walker.members(alloc, root.children.as_slice())
}
