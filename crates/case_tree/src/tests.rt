ghost use Rattle.std.specs.Prelude.{◌≡◌, ◌<◌, All, length};
ghost use Rattle.tree_walks.specs.Walks.{AreBranched};
ghost use Rattle.case_tree.specs.Agendas.{bounds_of};
ghost use Rattle.case_tree.specs.Examples.{three_items};
ghost use Rattle.case_tree.specs.States.{branch_count};

use crate::{Agenda, CasePath, CostPath, Kind, Node};
use std::alloc::Global;
use wide_sums::Cell;

/// Three items: 0 adds a hypothesis, a choice of the items 1 and 2, and a choice of nothing; 1 adds lower bounds, and 2 upper ones.
#[derive(Drop)]
struct Three {
    lowers: Vec<Cell>,
    uppers: Vec<Cell>,
    ghost low: { All (λ c. c.at < 2) lowers.items },
    ghost high: { All (λ c. c.at < 2) uppers.items },
}

impl Agenda for Three {
    ghost items = { λ t. three_items (bounds_of t.lowers.items) (bounds_of t.uppers.items) };

    ghost places = { λ t. 2 };

    fn weight(&self, item: usize) -> u64 {
        match item {
            0 => 3,
            1 => self.lowers.len() as u64,
            2 => self.uppers.len() as u64,
            _ => 0,
        }
    }

    fn hypotheses(&self, item: usize) -> usize {
        if item == 0 { 1 } else { 0 }
    }

    fn hypothesis(&self, _item: usize, _index: usize) -> usize {
        7
    }

    fn choices(&self, item: usize) -> usize {
        if item == 0 { 2 } else { 0 }
    }

    fn choice_len(&self, item: usize, choice: usize) -> usize {
        if item == 0 && choice == 0 { 2 } else { 0 }
    }

    fn choice_item(&self, _item: usize, _choice: usize, index: usize) -> usize {
        if index == 0 { 1 } else { 2 }
    }

    fn lowers(&self, item: usize) -> &[Cell] {
        if item == 1 {
            &self.lowers[..]
        } else {
            &self.lowers[..0]
        }
    }

    fn uppers(&self, item: usize) -> &[Cell] {
        if item == 2 {
            &self.uppers[..]
        } else {
            &self.uppers[..0]
        }
    }
}

/// A path over two places at the root, after visits that cost so much.
fn begun(alloc: Global, spent: u64) -> Option<CostPath<Three>> {
    let lowers = [Cell { at: 0, count: 5 }, Cell { at: 1, count: 2 }];
    let uppers = [Cell { at: 0, count: 4 }];
    let three = Three {
        lowers: lowers.to_vec(alloc).ok()?,
        uppers: uppers.to_vec(alloc).ok()?,
    };
    Some(CostPath {
        path: CasePath::new(alloc, three, 2).ok()?,
        spent,
    })
}

/// The line at which the walk over the nodes stops, if it does, and what the visits cost then, where so much was spent before.
fn walked(alloc: Global, nodes: &[Node], spent: u64) -> Option<(Option<u32>, u64)>
    requires some { 0 < length nodes.now }
    requires branched { AreBranched branch_count nodes.now }
{
    let mut path = begun(alloc, spent)?;
    let section = CostPath::<Three>::section(alloc, 0, nodes.to_vec(alloc).ok()?).ok()?;
    let line = path.walk_section(&section).ok()?;
    Some((line, path.spent))
}

#[test]
fn the_root_costs_what_it_adds(rt: HostRuntime) {
    assert_eq!(rt;
        walked(
            rt.alloc(),
            &[Node {
                line: 1,
                kind: Kind::Close(0)
            }],
            0
        ),
        Some((None, 4))
    );
}

#[test]
fn items_are_entered_one_after_the_other(rt: HostRuntime) {
    let nodes = [
        Node {
            line: 1,
            kind: Kind::Cases {
                choice: 1,
                branches: 2,
            },
        },
        Node {
            line: 2,
            kind: Kind::Close(0),
        },
        Node {
            line: 3,
            kind: Kind::Clash(0),
        },
    ];
    assert_eq!(rt; walked(rt.alloc(), &nodes, 0), Some((None, 9)));
    assert_eq!(rt;
        walked(rt.alloc(), &nodes, 67_108_855),
        Some((None, 67_108_864))
    );
    assert_eq!(rt;
        walked(rt.alloc(), &nodes, 67_108_856),
        Some((Some(3), 67_108_863))
    );
}

#[test]
fn branches_below_a_failed_node_are_left_out(rt: HostRuntime) {
    let wrong_count = [
        Node {
            line: 1,
            kind: Kind::Cases {
                choice: 1,
                branches: 1,
            },
        },
        Node {
            line: 2,
            kind: Kind::Close(0),
        },
    ];
    let not_there = [
        Node {
            line: 1,
            kind: Kind::Each { choice: 3 },
        },
        Node {
            line: 2,
            kind: Kind::Close(0),
        },
    ];
    let nothing = [
        Node {
            line: 1,
            kind: Kind::Each { choice: 2 },
        },
        Node {
            line: 2,
            kind: Kind::Close(0),
        },
    ];
    assert_eq!(rt; walked(rt.alloc(), &wrong_count, 0), Some((None, 4)));
    assert_eq!(rt; walked(rt.alloc(), &not_there, 0), Some((None, 4)));
    assert_eq!(rt; walked(rt.alloc(), &nothing, 0), Some((None, 4)));
}

#[test]
fn one_branch_is_walked_for_each_item(rt: HostRuntime) {
    let each = [
        Node {
            line: 1,
            kind: Kind::Each { choice: 1 },
        },
        Node {
            line: 2,
            kind: Kind::Split(1),
        },
        Node {
            line: 3,
            kind: Kind::Close(0),
        },
        Node {
            line: 4,
            kind: Kind::Close(0),
        },
    ];
    assert_eq!(rt; walked(rt.alloc(), &each, 0), Some((None, 19)));
}

/// The bounds of the two places below the items 1 and 2, and then above both.
fn bounds_below(alloc: Global) -> Option<[(u64, Option<u64>); 4]> {
    let mut path = begun(alloc, 0)?;
    path.path.enter(1).ok()?;
    path.path.enter(2).ok()?;
    let below = first_two(&path.path)?;
    path.path.leave();
    path.path.leave();
    let above = first_two(&path.path)?;
    Some([below.0, below.1, above.0, above.1])
}

fn first_two(path: &CasePath<Three>) -> Option<((u64, Option<u64>), (u64, Option<u64>))> {
    let bounds = path.bounds();
    Some((
        (*bounds.lower.get(0)?, *bounds.upper.get(0)?),
        (*bounds.lower.get(1)?, *bounds.upper.get(1)?),
    ))
}

#[test]
fn bounds_are_taken_back_where_an_item_is_left(rt: HostRuntime) {
    assert_eq!(rt;
        bounds_below(rt.alloc()),
        Some([(5, Some(4)), (2, None), (0, None), (0, None)])
    );
}

/// The first hypotheses of a path on which the items 1, 0 and 0 were entered.
fn hypotheses_below(alloc: Global) -> Option<[Option<usize>; 4]> {
    let mut path = begun(alloc, 0)?.path;
    path.enter(1).ok()?;
    path.enter(0).ok()?;
    path.enter(0).ok()?;
    Some([
        path.hypothesis(0),
        path.hypothesis(1),
        path.hypothesis(2),
        path.hypothesis(3),
    ])
}

#[test]
fn hypotheses_are_numbered_from_one(rt: HostRuntime) {
    assert_eq!(rt;
        hypotheses_below(rt.alloc()),
        Some([None, Some(7), Some(7), None])
    );
}
