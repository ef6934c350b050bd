ghost use Rattle.std.specs.Prelude.{◌<◌, length};
ghost use Rattle.tree_walks.specs.Walks.{AreBranched};
ghost use Rattle.tree_walks.specs.Levels.{depths_below, stop_after, one_more, twice};

use crate::{Path, sizes_of, walk_tree};
use std::alloc::Global;
use wide_sums::Memory;

/// How deep a path is: a node is its count of branches, which are walked twice.
#[derive(Drop)]
struct Depth {
    depth: u64,
    room: u64,
    visits: u64,
}

impl Path for Depth {
    type Node = usize;

    type State = u64;

    type Spent = u64;

    type Stop = u64;

    ghost count = { λ node. node };

    ghost top = { λ p. p.depth };

    ghost below = { λ p. depths_below p.depth };

    ghost size = { λ depth. depth };

    ghost room = { λ p. p.room };

    ghost spent = { λ p. p.visits };

    ghost stop = { stop_after };

    ghost next = { one_more };

    ghost rounds = { twice };

    fn branches(node: &usize) -> usize {
        *node
    }

    fn visit(&mut self, _node: &usize) -> Option<u64> {
        if self.visits < 40 {
            self.visits += 1;
            None
        } else {
            Some(self.depth)
        }
    }

    fn rounds(&self, _node: &usize) -> usize {
        2
    }

    fn enter(&mut self, _node: &usize, _round: usize, _branch: usize) -> Result<(), Memory> {
        if self.depth < self.room {
            self.depth += 1;
            return Ok(());
        }
        let Some(depth) = self.depth.checked_add(1) else {
            return Err(Memory);
        };
        self.depth = depth;
        self.room = depth;
        Ok(())
    }

    fn leave(&mut self) {
        self.depth -= 1;
    }
}

/// Why the walk over the tree with these counts of branches stops, if it does, and how many visits came before, where so many came
/// before it.
fn walked(alloc: Global, counts: &[usize], visits: u64) -> Option<(Option<u64>, u64)>
    requires some { 0 < length counts.now }
    requires branched { AreBranched (λ node. node) counts.now }
{
    let sizes = sizes_of::<Depth>(alloc, counts).ok()?;
    let mut path = Depth {
        depth: 0,
        room: 0,
        visits,
    };
    let stop = walk_tree(counts, &sizes, &mut path).ok()?;
    Some((stop, path.visits))
}

#[test]
fn each_branch_is_walked_in_each_round(rt: HostRuntime) {
    assert_eq!(rt; walked(rt.alloc(), &[0], 0), Some((None, 1)));
    assert_eq!(rt; walked(rt.alloc(), &[2, 1, 0, 0], 0), Some((None, 9)));
}

#[test]
fn the_walk_stops_where_the_path_says(rt: HostRuntime) {
    assert_eq!(rt; walked(rt.alloc(), &[2, 1, 0, 0], 38), Some((Some(2), 40)));
}
