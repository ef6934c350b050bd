use crate::nodes::Node;
use std::marker::Model;

/// A tree in prefix order, and the item that a path to its root enters first.
#[derive(Drop)]
pub struct Section {
    pub(crate) root: usize,
    pub(crate) nodes: Vec<Node>,
    // How many nodes make up the tree of each node.
    pub(crate) sizes: Vec<usize>,
}

impl Model for Section {
    ghost use Rattle.std.specs.Prelude.{◌<◌, length};
    ghost use Rattle.tree_walks.specs.Walks.{AreBranched, AreSizes};
    ghost use Rattle.case_tree.specs.States.{Section, branch_count};

    ghost Value = { Section };

    ghost view = { λ s. record { root = s.root; nodes = s.nodes.items } };

    ghost invariant = { λ s. (0 < length s.nodes.items)
        × AreBranched branch_count s.nodes.items × AreSizes branch_count s.nodes.items s.sizes.items };
}
