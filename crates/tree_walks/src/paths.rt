ghost use Rattle.std.specs.Prelude.{◌≡◌, ℕ, ◌<◌, ◌≤◌, List, [], ◌∷◌, All, length, slice_index_or, Option, None, OnOk, IsOk};

use wide_sums::Memory;

/// The path from a root to a node, with all that it supposes: a walk visits nodes, enters their branches and leaves them.
pub trait Path: Drop {
    /// A node of a tree.
    type Node: Drop;
    /// What is supposed at a node; no value of it is made.
    type State: Drop;
    /// What the visits add up to; no value of it is made.
    type Spent: Drop;
    /// Why a walk stops.
    type Stop: Drop;
    /// How many branches a node has.
    ghost count: { Self.Node → ℕ };
    /// What is supposed at the node that the path leads to.
    ghost top: { Self → Self.State };
    /// What is supposed at the nodes before it, the nearest first.
    ghost below: { Self → List Self.State };
    /// How much room a state takes.
    ghost size: { Self.State → ℕ };
    /// The room that is reserved.
    ghost room: { Self → ℕ };
    /// What the visits so far add up to.
    ghost spent: { Self → Self.Spent };
    /// Why the walk stops at a visit, if it does, after what was spent.
    ghost stop: { Self.Spent → Self.State → Self.Node → Option Self.Stop };
    /// What is spent after a visit at which the walk goes on.
    ghost next: { Self.Spent → Self.State → Self.Node → Self.Spent };
    /// The states in which a node's branches are entered, a list for each time that they are walked.
    ghost rounds: { Self.State → Self.Node → List (List Self.State) };

    /// How many branches the node has.
    fn branches(node: &Self::Node) -> usize
        ensures { result ≡ count node.now };

    /// Visits the node: why the walk stops there, if it does.
    fn visit(&mut self, node: &Self::Node) -> Option<Self::Stop>
        ensures stop { result ≡ stop (spent self.old) (top self.old) node.now }
        ensures spent { result ≡ None → spent self.new ≡ next (spent self.old) (top self.old) node.now }
        ensures top { top self.new ≡ top self.old }
        ensures below { below self.new ≡ below self.old }
        ensures room { room self.new ≡ room self.old };

    /// How often the node's branches are walked.
    fn rounds(&self, node: &Self::Node) -> usize
        ensures count { result ≡ length (rounds (top self.now) node.now) }
        ensures sized { All (λ states. length states ≡ count node.now) (rounds (top self.now) node.now) };

    /// Enters a branch of the node. Memory is wanted only where the room that is reserved doesn't do.
    fn enter(&mut self, node: &Self::Node, round: usize, branch: usize) -> Result<(), Memory>
        requires round { round < length (rounds (top self.old) node.now) }
        requires branch { branch < count node.now }
        ensures fits { size (slice_index_or (slice_index_or (rounds (top self.old) node.now) round []) branch (top self.old)) ≤ room self.old → IsOk result }
        ensures room { room self.old ≤ room self.new }
        ensures has_room { OnOk result (size (top self.new) ≤ room self.new) }
        ensures spent { OnOk result (spent self.new ≡ spent self.old) }
        ensures top { OnOk result (top self.new ≡ slice_index_or (slice_index_or (rounds (top self.old) node.now) round []) branch (top self.old)) }
        ensures below { OnOk result (below self.new ≡ top self.old ∷ below self.old) };

    /// Goes back to the node before.
    fn leave(&mut self)
        requires { 0 < length (below self.old) }
        ensures room { room self.new ≡ room self.old }
        ensures spent { spent self.new ≡ spent self.old }
        ensures back { top self.new ∷ below self.new ≡ below self.old };
}
