ghost use Rattle.std.specs.Prelude.{◌≡◌, ◌<◌, ◌≤◌, [], ◌∷◌, length, slice_index_or, flat_map, IfOk, IsOk};
ghost use Rattle.tree_visits.specs.Forests.{forest_of, visits, first_trees, tree_count};
ghost use Rattle.tree_walks.specs.Walks.{ran, told, AllFit, AreBranched, AreSizes, Ends};

use crate::paths::Path;
use wide_sums::Memory;

/// Walks over the tree of the first of the nodes, and answers why the walk stops, if it does. `sizes` are those that
/// [`sizes_of`](crate::sizes_of) gives for the nodes.
///
/// Memory is wanted only where the reserved room doesn't do for the state of some visit. Where the walk comes to its end, the path is
/// where it was, and has room for the states of all visits.
#[cycle(walk)]
pub fn walk_tree<P: Path>(
    nodes: &[P::Node],
    sizes: &[usize],
    path: &mut P,
) -> Result<Option<P::Stop>, Memory>
    requires some { 0 < length nodes.now }
    requires branched { AreBranched P.count nodes.now }
    requires sizes { AreSizes P.count nodes.now sizes.now }
    requires room { P.size (P.top path.old) ≤ P.room path.old }
    ensures fits { AllFit P.size (P.room path.old) (visits P.rounds (forest_of P.count nodes.now) (P.top path.old ∷ [])) → IsOk result }
    ensures found { IfOk result (λ stop. told stop (P.spent path.new) ≡ ran P.stop P.next (P.spent path.old) (visits P.rounds (forest_of P.count nodes.now) (P.top path.old ∷ []))) }
    ensures top { Ends result (P.top path.new ≡ P.top path.old) }
    ensures below { Ends result (P.below path.new ≡ P.below path.old) }
    ensures room { P.room path.old ≤ P.room path.new }
    ensures has_room { Ends result (AllFit P.size (P.room path.new) (visits P.rounds (forest_of P.count nodes.now) (P.top path.old ∷ []))) }
{
    let node = &nodes[0];
    if let Some(stop) = path.visit(node) {
        return Ok(Some(stop));
    }
    walk_rounds(node, &nodes[1..], &sizes[1..], path)
}

/// Walks over the branches of a node, the first of the trees behind it, as often as the path says.
#[cycle(walk)]
fn walk_rounds<P: Path>(
    node: &P::Node,
    nodes: &[P::Node],
    sizes: &[usize],
    path: &mut P,
) -> Result<Option<P::Stop>, Memory>
    requires enough { P.count node.now ≤ tree_count (forest_of P.count nodes.now) }
    requires branched { AreBranched P.count nodes.now }
    requires sizes { AreSizes P.count nodes.now sizes.now }
    requires room { P.size (P.top path.old) ≤ P.room path.old }
    ensures fits { AllFit P.size (P.room path.old) (flat_map (λ states. visits P.rounds (first_trees (P.count node.now) (forest_of P.count nodes.now)) states) (P.rounds (P.top path.old) node.now)) → IsOk result }
    ensures found { IfOk result (λ stop. told stop (P.spent path.new) ≡ ran P.stop P.next (P.spent path.old) (flat_map (λ states. visits P.rounds (first_trees (P.count node.now) (forest_of P.count nodes.now)) states) (P.rounds (P.top path.old) node.now))) }
    ensures top { Ends result (P.top path.new ≡ P.top path.old) }
    ensures below { Ends result (P.below path.new ≡ P.below path.old) }
    ensures room { P.room path.old ≤ P.room path.new }
    ensures has_room { Ends result (AllFit P.size (P.room path.new) (flat_map (λ states. visits P.rounds (first_trees (P.count node.now) (forest_of P.count nodes.now)) states) (P.rounds (P.top path.old) node.now))) }
{
    for round in 0..path.rounds(node) {
        if let Some(stop) = walk_branches(node, round, nodes, sizes, path)? {
            return Ok(Some(stop));
        }
    }
    Ok(None)
}

/// Walks over the branches of a node once.
#[cycle(walk)]
fn walk_branches<P: Path>(
    node: &P::Node,
    round: usize,
    nodes: &[P::Node],
    sizes: &[usize],
    path: &mut P,
) -> Result<Option<P::Stop>, Memory>
    requires round { round < length (P.rounds (P.top path.old) node.now) }
    requires sized { length (slice_index_or (P.rounds (P.top path.old) node.now) round []) ≡ P.count node.now }
    requires enough { P.count node.now ≤ tree_count (forest_of P.count nodes.now) }
    requires branched { AreBranched P.count nodes.now }
    requires sizes { AreSizes P.count nodes.now sizes.now }
    requires room { P.size (P.top path.old) ≤ P.room path.old }
    ensures fits { AllFit P.size (P.room path.old) (visits P.rounds (forest_of P.count nodes.now) (slice_index_or (P.rounds (P.top path.old) node.now) round [])) → IsOk result }
    ensures found { IfOk result (λ stop. told stop (P.spent path.new) ≡ ran P.stop P.next (P.spent path.old) (visits P.rounds (forest_of P.count nodes.now) (slice_index_or (P.rounds (P.top path.old) node.now) round []))) }
    ensures top { Ends result (P.top path.new ≡ P.top path.old) }
    ensures below { Ends result (P.below path.new ≡ P.below path.old) }
    ensures room { P.room path.old ≤ P.room path.new }
    ensures has_room { Ends result (AllFit P.size (P.room path.new) (visits P.rounds (forest_of P.count nodes.now) (slice_index_or (P.rounds (P.top path.old) node.now) round []))) }
{
    let mut at = 0;
    for branch in 0..P::branches(node) {
        path.enter(node, round, branch)?;
        if let Some(stop) = walk_tree(&nodes[at..], &sizes[at..], path)? {
            return Ok(Some(stop));
        }
        path.leave();
        at += sizes[at];
    }
    Ok(None)
}
