ghost use Rattle.std.specs.Prelude.{◌≤◌, length, IfOk};
ghost use Rattle.tree_visits.specs.Forests.{forest_of, tree_count};
ghost use Rattle.tree_walks.specs.Walks.{AreBranched, AreSizes, IsSize};

use crate::paths::Path;
use std::alloc::Global;
use wide_sums::Memory;

/// How many nodes make up the tree of each node.
pub fn sizes_of<P: Path>(alloc: Global, nodes: &[P::Node]) -> Result<Vec<usize>, Memory>
    requires { AreBranched P.count nodes.now }
    ensures { IfOk result (λ sizes. AreSizes P.count nodes.now sizes.items) }
{
    let mut sizes = Vec::new(alloc);
    sizes.resize(nodes.len(), 0)?;
    let mut at = nodes.len();
    while at > 0 {
        at -= 1;
        let size = size_of::<P>(&nodes[at], &nodes[at + 1..], &sizes[at + 1..]);
        sizes[at] = size;
    }
    Ok(sizes)
}

/// How many nodes make up the tree of a node, where the sizes of the trees behind it are known.
fn size_of<P: Path>(node: &P::Node, nodes: &[P::Node], sizes: &[usize]) -> usize
    requires enough { P.count node.now ≤ tree_count (forest_of P.count nodes.now) }
    requires branched { AreBranched P.count nodes.now }
    requires sizes { AreSizes P.count nodes.now sizes.now }
    ensures { IsSize P.count node.now nodes.now result }
{
    let mut behind = 0;
    for _branch in 0..P::branches(node) {
        behind += sizes[behind];
    }
    behind + 1
}
