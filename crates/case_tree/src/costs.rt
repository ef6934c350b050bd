ghost use Rattle.std.specs.Prelude.{◌≡◌, ◌<◌, ◌≤◌, length, vec_len, IfOk, IsOk};
ghost use Rattle.tree_walks.specs.Walks.{ran, told, AllFit, AreBranched, Ends};
ghost use Rattle.case_tree.specs.States.{all_visits, branch_count, next, paths_below, room_of, rounds, stop, visits_of};

use crate::agendas::Agenda;
use crate::nodes::{Node, branches_of};
use crate::paths::{CasePath, Supposed};
use crate::sections::Section;
use std::alloc::Global;
use tree_walks::{Path, sizes_of, walk_tree};
use wide_sums::Memory;

// What all visits may cost together: 2^26.
const MOST: u64 = 67_108_864;

/// A path that adds up what visits cost, and stops where they cost more than 2^26 together.
#[derive(Drop)]
pub struct CostPath<A: Agenda> {
    /// The path.
    pub path: CasePath<A>,
    /// What the visits so far cost.
    pub spent: u64,
}

impl<A: Agenda> Path for CostPath<A> {
    type Node = Node;

    type State = Supposed;

    type Spent = u64;

    type Stop = u32;

    ghost count = { branch_count };

    ghost top = { λ p. p.path.path };

    ghost below = { λ p. paths_below p.path.path.items p.path.path.entered };

    ghost size = { room_of };

    ghost room = { λ p. p.path.room };

    ghost spent = { λ p. p.spent };

    ghost stop = { stop };

    ghost next = { next };

    ghost rounds = { rounds };

    fn branches(node: &Node) -> usize {
        branches_of(node)
    }

    fn visit(&mut self, node: &Node) -> Option<u32> {
        let weight = self.path.weight();
        if self.spent < MOST && weight < MOST - self.spent {
            self.spent += weight + 1;
            None
        } else {
            Some(node.line)
        }
    }

    fn rounds(&self, node: &Node) -> usize {
        self.path.rounds(node)
    }

    fn enter(&mut self, node: &Node, round: usize, branch: usize) -> Result<(), Memory> {
        self.path.enter_branch(node, round, branch)
    }

    fn leave(&mut self) {
        self.path.leave();
    }
}

impl<A: Agenda> CostPath<A> {
    /// A section whose tree has these nodes, and whose path begins by entering the item `root`.
    pub fn section(alloc: Global, root: usize, nodes: Vec<Node>) -> Result<Section, Memory>
        requires some { 0 < vec_len nodes }
        requires branched { AreBranched branch_count nodes.items }
        ensures { IfOk result (λ section. section ≡ record { root = root; nodes = nodes.items }) }
    {
        let sizes = sizes_of::<CostPath<A>>(alloc, &nodes)?;
        Ok(Section { root, nodes, sizes })
    }

    /// Walks over a section's tree, and answers the line of the visit at which all visits so far cost more than 2^26 together, if
    /// there is one.
    ///
    /// Memory is wanted only where the room of the path doesn't do. Where the walk comes to its end, the path is what it was, and has
    /// room for the states of all visits.
    pub fn walk_section(&mut self, section: &Section) -> Result<Option<u32>, Memory>
        ensures fits { AllFit room_of self.old.path.room (visits_of self.old.path.path section.now) → IsOk result }
        ensures found { IfOk result (λ line. told line self.new.spent ≡ ran stop next self.old.spent (visits_of self.old.path.path section.now)) }
        ensures path { Ends result (self.new.path.path ≡ self.old.path.path) }
        ensures room { self.old.path.room ≤ self.new.path.room }
        ensures has_room { Ends result (AllFit room_of self.new.path.room (visits_of self.old.path.path section.now)) }
    {
        self.path.enter(section.root)?;
        let line = walk_tree(&section.nodes, &section.sizes, self)?;
        if line.is_none() {
            self.path.leave();
        }
        Ok(line)
    }

    /// Walks over the trees of all sections, one after the other, and answers the line of the visit at which all visits so far cost
    /// more than 2^26 together, if there is one.
    pub fn walk_sections(&mut self, sections: &[Section]) -> Result<Option<u32>, Memory>
        ensures found { IfOk result (λ line. told line self.new.spent ≡ ran stop next self.old.spent (all_visits self.old.path.path sections.now)) }
        ensures path { Ends result (self.new.path.path ≡ self.old.path.path) }
        ensures room { self.old.path.room ≤ self.new.path.room }
        ensures has_room { Ends result (AllFit room_of self.new.path.room (all_visits self.old.path.path sections.now)) }
    {
        for section in sections {
            if let Some(line) = self.walk_section(section)? {
                return Ok(Some(line));
            }
        }
        Ok(None)
    }
}
