ghost use Rattle.std.specs.Prelude.{◌≡◌, IfOk};
ghost use Rattle.net_nodes.specs.Nodes.{named_among};
ghost use Rattle.net_nodes.specs.Links.{links_of};

use crate::names::NodeNames;
use crate::nodes::Node;
use net_model::{RefKind, Reference};
use std::alloc::Global;
use wide_sums::Memory;

/// A reference by numbers.
#[derive(Clone, Copy, Debug)]
pub(crate) struct Link {
    /// What it stands for.
    pub kind: RefKind,
    /// The node to which it leads, if there is one.
    pub target: Option<Node>,
}

/// The references with the nodes to which they lead.
pub(crate) fn link_all(
    alloc: Global,
    names: &NodeNames,
    references: &[Reference],
) -> Result<Vec<Link>, Memory>
    ensures { IfOk result (λ links. links.items ≡ links_of names.now references.now) }
{
    let mut links = Vec::with_capacity(alloc, references.len())?;
    for reference in references {
        links.push(Link {
            kind: reference.kind,
            target: names.find(reference.target.bytes()),
        })?;
    }
    Ok(links)
}
