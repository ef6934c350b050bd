ghost use Rattle.std.specs.Prelude.{◌≡◌, ◌-◌, ◌<◌, ◌^◌, [], Err, IfErr, OnOk, codes, length, map};
ghost use Rattle.std.specs.Str.{bytes_eq};
ghost use Rattle.net_elements.specs.declared.faults.ReadFault.TheVariants.{Structure};
ghost use Rattle.net_elements.specs.Rules.{broken_rules};
ghost use Rattle.net_elements.specs.Walking.{HasFewIds, IsFirst, IsMet, name_of};
ghost use Rattle.doc_model.specs.declared.tree.Element.{out-Element};

use crate::attributes::{fault_of, is_bad_text, kind_within, passes, value_of};
use crate::faults::ReadFault;
use crate::roles::{Key, Role, key_word_of};
use crate::rows::{keys_of, slots_of};
use crate::seats::{Seat, is_missing, seat_of};
use doc_model::Element;
use doc_tree::Fault;
use name_tables::{Added, Ids, Name};
use net_model::Kind;
use std::alloc::Global;
use std::marker::Model;
use wide_sums::Memory;

/// A walk over a tree: the ids of nodes and of symbols that were met.
#[derive(Debug, Drop)]
pub struct Walker {
    nodes: Ids,
    symbols: Ids,
}

impl Model for Walker {
    ghost use Rattle.std.specs.Prelude.{◌-◌, ◌<◌, ◌^◌, length};
    ghost use Rattle.net_elements.specs.Rules.{Met};

    ghost Value = { Met };

    ghost view = { λ walker. record { nodes = walker.nodes; symbols = walker.symbols } };

    ghost invariant = { λ walker. (length walker.nodes < 2 ^ 32 - 1) × (length walker.symbols < 2 ^ 32 - 1) };
}

/// The most ids that are numbered.
const MOST_IDS: u32 = 0xffff_fffe;

fn broken(at: u64, kind: Fault) -> Result<(), ReadFault>
    ensures { result ≡ Err (Structure at kind) }
{
    Err(ReadFault::Structure { at, kind })
}

/// Adds an id to those that were met.
fn meet(alloc: Global, ids: &mut Ids, at: u64, id: &[u8]) -> Result<(), ReadFault>
    requires { length ids.old < 2 ^ 32 - 1 }
    ensures met { IsMet ids.old at id.now ids.new result }
    ensures few { length ids.new < 2 ^ 32 - 1 }
{
    if ids.count() >= MOST_IDS {
        return Err(ReadFault::Memory);
    }
    match ids.add(Name::new(alloc, id)?)? {
        Added::New(_) => Ok(()),
        Added::Old(_) => broken(at, Fault::DuplicateId),
    }
}

impl Walker {
    ghost use Rattle.std.specs.Option.{option_map};
    ghost use Rattle.net_elements.specs.Rules.{attribute_notes, children_notes, declared, end_notes, key_notes, node, nothing_met, symbol, walk_of};
    ghost use Rattle.net_elements.specs.Walking.{Finds, found};
    ghost use Rattle.net_elements.specs.Table.{keys_of, slots_of};

    /// A walk that met nothing; this takes no memory.
    pub fn new(alloc: Global) -> Walker
        ensures { result ≡ nothing_met }
    {
        Walker {
            nodes: Ids::new(alloc),
            symbols: Ids::new(alloc),
        }
    }

    fn declare(&mut self, alloc: Global, at: u64, key: Key, id: &[u8]) -> Result<(), ReadFault>
        ensures { Finds self.new result (found self.old (declared at key id.now)) }
    {
        match key {
            Key::NodeId => meet(alloc, &mut self.nodes, at, id),
            Key::SymbolId => meet(alloc, &mut self.symbols, at, id),
            _ => Ok(()),
        }
    }

    fn key(
        &mut self,
        alloc: Global,
        at: u64,
        key: Key,
        value: Option<&[u8]>,
    ) -> Result<(), ReadFault>
        ensures { Finds self.new result (found self.old (key_notes at key (option_map (λ v. v.now) value.entry))) }
    {
        match value {
            Some(value) if passes(key, value) => self.declare(alloc, at, key, value),
            Some(_) => broken(at, fault_of(key)),
            None => broken(at, Fault::MissingAttribute),
        }
    }

    fn attributes(&mut self, alloc: Global, role: Role, element: &Element) -> Result<(), ReadFault>
        ensures { Finds self.new result (found self.old (attribute_notes (out-Element element.now).at (keys_of role) (out-Element element.now).attributes)) }
    {
        let keys = keys_of(role);
        for key in keys {
            let value = value_of(key_word_of(*key), element.attributes.as_slice());
            self.key(alloc, element.at, *key, value)?;
        }
        Ok(())
    }

    /// Walks over an element in a role.
    #[cycle(walking)]
    pub fn element(
        &mut self,
        alloc: Global,
        kind: Kind,
        role: Role,
        element: &Element,
    ) -> Result<(), ReadFault>
        ensures { Finds self.new result (found self.old ((walk_of element.now).notes kind role)) }
    {
        self.attributes(alloc, role, element)?;
        let within = kind_within(kind, role, element.attributes.as_slice());
        self.children(alloc, within, role, element.children.as_slice())?;
        self.end(within, role, element)
    }

    #[cycle(walking)]
    fn children(
        &mut self,
        alloc: Global,
        kind: Kind,
        role: Role,
        children: &[Element],
    ) -> Result<(), ReadFault>
        ensures { Finds self.new result (found self.old (children_notes kind role [] (map walk_of children.now))) }
    {
        for (at, child) in children.iter().enumerate() {
            match seat_of(kind, role, &children[..at], child.name.bytes()) {
                Seat::PassedOver => {}
                Seat::Read(role) => self.element(alloc, kind, role, child)?,
                Seat::Refused(fault) => return broken(child.at, fault),
            }
        }
        Ok(())
    }

    fn end(&mut self, kind: Kind, role: Role, element: &Element) -> Result<(), ReadFault>
        ensures { Finds self.new result (found self.old (end_notes (slots_of kind role) role (out-Element element.now).at (map name_of (out-Element element.now).children) (out-Element element.now).text)) }
    {
        if is_missing(slots_of(kind, role), element.children.as_slice()) {
            return broken(element.at, Fault::MissingChild);
        }
        if is_bad_text(role, element.text.bytes()) {
            return broken(element.at, Fault::BadNumber);
        }
        Ok(())
    }
}

fn is_root(element: &Element) -> bool
    ensures { result ≡ bytes_eq (name_of element.now) (codes "pnml") }
{
    element.name.bytes() == b"pnml".as_slice()
}

/// Walks over a whole tree, and answers its first broken rule where one is broken. A tree with 2^32 - 1 ids or more of nodes or
/// of symbols is too large for [`Memory`](ReadFault::Memory).
pub fn check(alloc: Global, root: &Element) -> Result<(), ReadFault>
    ensures sound { OnOk result (broken_rules root.now ≡ []) }
    ensures few { OnOk result (HasFewIds root.now) }
    ensures first { IfErr result (λ fault. IsFirst (broken_rules root.now) fault) }
{
    if !is_root(root) {
        return broken(root.at, Fault::Unexpected);
    }
    let mut walker = Walker::new(alloc);
    walker.element(alloc, Kind::Pt, Role::Pnml, root)
}
