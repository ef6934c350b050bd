ghost use Rattle.std.specs.Prelude.{◌≡◌, ◌<◌, length, slice_get, IfOk, OnOk, IfErr, IfNone, None, Some};
ghost use Rattle.net_model.specs.Ids.{HasOwnIds};
ghost use Rattle.net_nodes.specs.Nodes.{IsRefused, end_among, first_broken, named_among, nodes_of};

use crate::links::link_all;
use crate::names::NodeNames;
use crate::nodes::{End, Node, NodeFault};
use crate::walking::resolve;
use net_model::Net;
use std::alloc::Global;
use std::marker::Model;

/// The nodes of a net by their ids, and the place or transition for which each reference stands.
#[derive(Debug, Drop)]
pub struct NodeTable {
    names: NodeNames,
    ends: Vec<End>,
}

impl Model for NodeTable {
    ghost use Rattle.std.specs.Prelude.{◌≡◌, length};
    ghost use Rattle.net_nodes.specs.Nodes.{Nodes};

    ghost Value = { Nodes };

    ghost view = { λ t. record { ids = t.names; ends = t.ends.items } };

    ghost invariant = { λ t. length t.ends.items ≡ length t.names.references };
}

impl NodeTable {
    /// The nodes of a net. It takes time linear in the number of nodes, whatever the chains of references.
    ///
    /// # Errors
    ///
    /// `Broken` where a reference leads to no node of its kind, with the first such reference; `Memory` where there isn't
    /// enough memory.
    pub fn of(alloc: Global, net: &Net) -> Result<NodeTable, NodeFault>
        requires { HasOwnIds net.now }
        ensures table { IfOk result (λ table. table ≡ nodes_of net.now) }
        ensures unbroken { OnOk result (first_broken net.now ≡ None) }
        ensures refused { IfErr result (λ refused. IsRefused net.now refused) }
    {
        let Ok(names) = NodeNames::of(alloc, net) else {
            return Err(NodeFault::Memory);
        };
        let Ok(links) = link_all(alloc, &names, net.references.as_slice()) else {
            return Err(NodeFault::Memory);
        };
        match resolve(alloc, links.as_slice()) {
            Ok(ends) => Ok(NodeTable { names, ends }),
            Err(fault) => Err(fault),
        }
    }

    /// The node of an id, or `None` where no node has it: the id of an arc is no node's.
    pub fn find(&self, id: &[u8]) -> Option<Node>
        ensures { result ≡ named_among self.now.ids id.now }
    {
        self.names.find(id)
    }

    /// The place or the transition for which the node of an id stands: itself, or where the chain of a reference leads. It is
    /// `None` where no node has the id.
    pub fn end(&self, id: &[u8]) -> Option<End>
        ensures end { result ≡ end_among self.now id.now }
        ensures none { IfNone result (named_among self.now.ids id.now ≡ None) }
    {
        match self.names.find(id) {
            None => None,
            Some(Node::Place(at)) => Some(End::Place(at)),
            Some(Node::Transition(at)) => Some(End::Transition(at)),
            Some(Node::Reference(at)) => Some(self.ends[at as usize]),
        }
    }

    /// How many references there are; they are numbered from 0.
    pub fn references(&self) -> u32
        ensures count { result ≡ length self.now.ids.references }
        ensures ends { result ≡ length self.now.ends }
    {
        self.names.references()
    }

    /// The place or the transition for which the reference of a number stands.
    pub fn end_of(&self, reference: u32) -> End
        requires { reference < length self.now.ends }
        ensures { slice_get self.now.ends reference ≡ Some result }
    {
        self.ends[reference as usize]
    }
}
