ghost use Rattle.std.specs.Prelude.{◌≡◌, ◌+◌, ◌-◌, ◌^◌, ◌<◌, ◌++◌, ◌∷◌, [], length, map, IfOk, OnOk};
ghost use Rattle.std.specs.List.{IsDistinct};
ghost use Rattle.std.specs.Str.{bytes_eq};
ghost use Rattle.net_model.specs.Ids.{HasOwnIds};
ghost use Rattle.net_nodes.specs.Nodes.{ids_of_nodes, named_among};

use crate::nodes::Node;
use name_tables::{Ids, Name};
use net_model::{Net, Place, Reference, Transition};
use std::alloc::Global;
use std::marker::Model;
use wide_sums::Memory;

/// The ids of the places, the transitions and the references of a net, in one table.
#[derive(Debug, Drop)]
pub(crate) struct NodeNames {
    ids: Ids,
    places: u32,
    transitions: u32,
}

impl Model for NodeNames {
    ghost use Rattle.std.specs.Prelude.{◌+◌, ◌≤◌, length};
    ghost use Rattle.net_nodes.specs.Nodes.{NodeIds};
    ghost use Rattle.net_nodes.specs.Numbered.{cut};

    ghost Value = { NodeIds };

    ghost view = { λ n. cut n.places n.transitions n.ids };

    ghost invariant = { λ n. n.places + n.transitions ≤ length n.ids };
}

/// Adds an id that isn't there yet.
fn add(alloc: Global, ids: &mut Ids, name: &Name) -> Result<(), Memory>
    requires apart { IsDistinct bytes_eq (ids.old ++ name.now ∷ []) }
    requires few { length ids.old < 2 ^ 32 - 1 }
    ensures { OnOk result (ids.new ≡ ids.old ++ name.now ∷ []) }
{
    ids.add(name.copy(alloc)?)?;
    Ok(())
}

fn add_places(alloc: Global, ids: &mut Ids, places: &[Place]) -> Result<(), Memory>
    requires apart { IsDistinct bytes_eq (ids.old ++ map (λ p. p.id) places.now) }
    requires few { length ids.old + length places.now < 2 ^ 32 - 1 }
    ensures { OnOk result (ids.new ≡ ids.old ++ map (λ p. p.id) places.now) }
{
    for place in places {
        add(alloc, ids, &place.id)?;
    }
    Ok(())
}

fn add_transitions(alloc: Global, ids: &mut Ids, transitions: &[Transition]) -> Result<(), Memory>
    requires apart { IsDistinct bytes_eq (ids.old ++ map (λ t. t.id) transitions.now) }
    requires few { length ids.old + length transitions.now < 2 ^ 32 - 1 }
    ensures { OnOk result (ids.new ≡ ids.old ++ map (λ t. t.id) transitions.now) }
{
    for transition in transitions {
        add(alloc, ids, &transition.id)?;
    }
    Ok(())
}

fn add_references(alloc: Global, ids: &mut Ids, references: &[Reference]) -> Result<(), Memory>
    requires apart { IsDistinct bytes_eq (ids.old ++ map (λ r. r.id) references.now) }
    requires few { length ids.old + length references.now < 2 ^ 32 - 1 }
    ensures { OnOk result (ids.new ≡ ids.old ++ map (λ r. r.id) references.now) }
{
    for reference in references {
        add(alloc, ids, &reference.id)?;
    }
    Ok(())
}

impl NodeNames {
    /// The ids of a net's nodes.
    pub(crate) fn of(alloc: Global, net: &Net) -> Result<NodeNames, Memory>
        requires { HasOwnIds net.now }
        ensures { IfOk result (λ names. names ≡ ids_of_nodes net.now) }
    {
        let mut ids = Ids::new(alloc);
        add_places(alloc, &mut ids, net.places.as_slice())?;
        let places = ids.count();
        add_transitions(alloc, &mut ids, net.transitions.as_slice())?;
        let transitions = ids.count() - places;
        add_references(alloc, &mut ids, net.references.as_slice())?;
        Ok(NodeNames {
            ids,
            places,
            transitions,
        })
    }

    /// The node of an id, or `None` where no node has it.
    pub(crate) fn find(&self, id: &[u8]) -> Option<Node>
        ensures { result ≡ named_among self.now id.now }
    {
        let Some(at) = self.ids.find(id) else {
            return None;
        };
        if at < self.places {
            return Some(Node::Place(at));
        }
        let at = at - self.places;
        if at < self.transitions {
            return Some(Node::Transition(at));
        }
        Some(Node::Reference(at - self.transitions))
    }

    /// How many references there are.
    pub(crate) fn references(&self) -> u32
        ensures { result ≡ length self.now.references }
    {
        self.ids.count() - self.places - self.transitions
    }
}
