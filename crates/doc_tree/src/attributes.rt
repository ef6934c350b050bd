ghost use Rattle.std.specs.Prelude.{◌≡◌, ◌++◌, ◌∷◌, [], IfOk, IfSome, OnOk};
ghost use Rattle.doc_tree.specs.Documents.{is_fresh};
ghost use Rattle.doc_tree.specs.Known.{AreKnown};

use crate::lists::put;
use doc_model::Attribute;
use name_tables::Ids;
use sqlite_items::Items;
use std::alloc::Global;
use std::marker::Model;
use wide_sums::Memory;

/// The attributes of a start tag as it is read; contracts see the list of them. Where they are many, their names are kept
/// a second time, to be looked up.
#[derive(Debug, Drop)]
pub struct Attributes {
    items: Items<Attribute>,
    known: Option<Box<Ids>>,
}

impl Model for Attributes {
    ghost use Rattle.std.specs.Prelude.{List, IfSome};
    ghost use Rattle.doc_model.specs.declared.tree.Attribute.{Attribute};
    ghost use Rattle.doc_tree.specs.Known.{AreKnown};

    ghost Value = { List Attribute };

    ghost view = { λ a. a.items };

    ghost invariant = { λ a. IfSome a.known (λ known. AreKnown known.value a.items) };
}

fn is_fresh(name: &[u8], attributes: &[Attribute]) -> bool
    ensures { result ≡ is_fresh name.now attributes.now }
{
    for attribute in attributes {
        if name == attribute.name.bytes() {
            return false;
        }
    }
    true
}

/// Whether no attribute has the name, where the names of the first ones, mostly of all, are known.
fn is_fresh_beside(known: &Ids, name: &[u8], attributes: &[Attribute]) -> bool
    requires { AreKnown known.now attributes.now }
    ensures { result ≡ is_fresh name.now attributes.now }
{
    match known.find(name) {
        Some(_) => false,
        None => is_fresh(name, &attributes[known.count() as usize..]),
    }
}

/// One name more is known, if there is one.
fn know_next(alloc: Global, known: &mut Ids, attributes: &[Attribute]) -> Result<(), Memory>
    requires { AreKnown known.old attributes.now }
    ensures { OnOk result (AreKnown known.new attributes.now) }
{
    let count = known.count();
    if count == u32::MAX {
        return Ok(());
    }
    match attributes.get(count as usize) {
        None => Ok(()),
        Some(attribute) => {
            let name = attribute.name.copy(alloc)?;
            known.add(name)?;
            Ok(())
        }
    }
}

/// The names of the attributes.
fn all_names(alloc: Global, attributes: &[Attribute]) -> Result<Box<Ids>, Memory>
    ensures { IfOk result (λ known. AreKnown known.value attributes.now) }
{
    let mut known = Ids::new(alloc);
    for _ in 0..attributes.len() {
        know_next(alloc, &mut known, attributes)?;
    }
    Ok(Box::new(alloc, known)?)
}

fn with_next_name(
    alloc: Global,
    mut known: Box<Ids>,
    attributes: &[Attribute],
) -> Result<Box<Ids>, Memory>
    requires { AreKnown known.value attributes.now }
    ensures { IfOk result (λ names. AreKnown names.value attributes.now) }
{
    know_next(alloc, &mut known, attributes)?;
    Ok(known)
}

fn known_names(
    alloc: Global,
    known: Option<Box<Ids>>,
    attributes: &[Attribute],
) -> Result<Box<Ids>, Memory>
    requires { IfSome known (λ names. AreKnown names.value attributes.now) }
    ensures { IfOk result (λ names. AreKnown names.value attributes.now) }
{
    match known {
        None => all_names(alloc, attributes),
        Some(known) => with_next_name(alloc, known, attributes),
    }
}

impl Attributes {
    /// No attributes; this takes no memory.
    pub fn new(alloc: Global) -> Attributes
        ensures { result ≡ [] }
    {
        Attributes {
            items: Items::new(alloc),
            known: None,
        }
    }

    /// Whether no attribute has the name.
    pub fn is_fresh(&self, name: &[u8]) -> bool
        ensures { result ≡ is_fresh name.now self.now }
    {
        match &self.known {
            None => is_fresh(name, self.items.as_slice()),
            Some(known) => is_fresh_beside(known, name, self.items.as_slice()),
        }
    }

    /// One attribute more.
    pub fn push(self, alloc: Global, attribute: Attribute) -> Result<Attributes, Memory>
        ensures { IfOk result (λ more. more ≡ self ++ attribute ∷ []) }
    {
        let Attributes { mut items, known } = self;
        put(alloc, &mut items, attribute)?;
        // So few names are compared one by one.
        if items.len() <= 8 {
            return Ok(Attributes { items, known: None });
        }
        let known = known_names(alloc, known, items.as_slice())?;
        Ok(Attributes {
            items,
            known: Some(known),
        })
    }

    /// The list of them.
    pub fn into_items(self) -> Items<Attribute>
        ensures { result ≡ self }
    {
        let Attributes { items, known: _ } = self;
        items
    }
}
