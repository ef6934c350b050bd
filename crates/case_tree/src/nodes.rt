ghost use Rattle.std.specs.Prelude.{◌≡◌};
ghost use Rattle.case_tree.specs.States.{branch_count};

/// A node of a tree in prefix order, with numbers in the place of what it names.
#[derive(Clone, Copy, Debug, PartialEq, Eq)]
pub struct Node {
    /// The line of the node.
    pub line: u32,
    /// What the node does.
    pub kind: Kind,
}

/// What a node does.
#[derive(Clone, Copy, Debug, PartialEq, Eq)]
pub enum Kind {
    /// Closes the path by a sum of forms, which the number stands for.
    Close(u32),
    /// Closes the path by bounds that cross, at places which the number stands for.
    Clash(u32),
    /// Two branches: the first enters the item of this number, the second that of the next number.
    Split(u32),
    /// So many branches, one for each item of a choice.
    Cases {
        /// The number of the choice on the path, from 1.
        choice: u32,
        /// How many branches follow.
        branches: u32,
    },
    /// One branch, which is walked for each item of a choice.
    Each {
        /// The number of the choice on the path, from 1.
        choice: u32,
    },
}

/// How many branches the node has.
pub(crate) fn branches_of(node: &Node) -> usize
    ensures { result ≡ branch_count node.now }
{
    match node.kind {
        Kind::Close(_) | Kind::Clash(_) => 0,
        Kind::Split(_) => 2,
        Kind::Cases { branches, .. } => branches as usize,
        Kind::Each { .. } => 1,
    }
}
