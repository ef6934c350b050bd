ghost use Rattle.std.specs.Prelude.{◌≡◌, ◌*◌, [], IfOk, OnOk};
ghost use Rattle.multiset_terms.specs.Parts.{behind, children_of, either, heavy_over, told, totals_of, with_child, with_part};

use crate::faults::PartFault;
use crate::kinds::{Kind, into_sort, is_block, is_choice, is_colour};
use crate::trees::Tree;
use colour_sorts::Sort;
use sqlite_items::Items;
use std::alloc::Global;

// What is above the greatest gross total: 2^63.
const TOO_HEAVY: u64 = 9_223_372_036_854_775_808;

// What is above the greatest number of colours: 2^21.
const TOO_LARGE: u32 = 2_097_152;

/// A part of a term that is compiled.
#[derive(Debug, Drop)]
pub struct Part {
    /// The term over colour indices.
    pub tree: Tree,
    /// What it is.
    pub kind: Kind,
    /// Its position in its partition, where it is written as an element of it.
    pub block: Option<u32>,
    /// The number of colours of its sort, 1 where it is a block.
    pub size: u32,
    /// Its gross total, at most 2^63.
    pub gross: u64,
    /// Its support, at most 2^63.
    pub support: u64,
    /// The number of its first node whose gross total is above 2^63 - 1.
    pub heavy: Option<u32>,
    /// How many nodes it has.
    pub nodes: u32,
}

/// What is added up of the children of a node, with the node itself.
#[derive(Clone, Copy, Debug, PartialEq, Eq)]
pub struct Totals {
    /// How many nodes they have together, the node itself being one more.
    pub nodes: u32,
    /// The sum of the gross totals, at most 2^63.
    pub gross_sum: u64,
    /// The product of the gross totals, at most 2^63.
    pub gross_product: u64,
    /// The sum of the supports, at most 2^63.
    pub support_sum: u64,
    /// The product of the supports, at most 2^63.
    pub support_product: u64,
    /// The number of the first node of them whose gross total is above 2^63 - 1, the node itself having the number 0.
    pub heavy: Option<u32>,
}

/// The compiled children of a node.
#[derive(Debug, Drop)]
pub struct Children {
    /// Their terms over colour indices.
    pub trees: Items<Tree>,
    /// Their sorts, that of the dot where one is a block.
    pub sorts: Items<Sort>,
    /// Whether each is a colour.
    pub are_colours: bool,
    /// Whether each is a colour or all colours of a sort.
    pub are_choices: bool,
    /// Whether none is a block.
    pub are_multisets: bool,
    /// The number of colours of the first one's sort.
    pub first: u32,
    /// The product of the numbers of colours of their sorts, at most 2^21.
    pub size: u32,
    /// What is added up.
    pub totals: Totals,
}

/// A weight as far as it is told.
fn capped(weight: u64) -> u64
    ensures { result ≡ told weight }
{
    weight.min(TOO_HEAVY)
}

/// So many times a weight, as far as it is told.
pub fn times_weight(number: u64, weight: u64) -> u64
    ensures { result ≡ told (number * weight) }
{
    capped(number.saturating_mul(weight))
}

/// The first heavy node of a node with this gross total over its children.
pub fn heavy_node(gross: u64, child: Option<u32>) -> Option<u32>
    ensures { result ≡ heavy_over gross child }
{
    if gross >= TOO_HEAVY { Some(0) } else { child }
}

/// The number of a node behind so many others.
fn number_behind(nodes: u32, number: Option<u32>) -> Result<Option<u32>, PartFault>
    ensures { IfOk result (λ new. new ≡ behind nodes number) }
{
    match number {
        None => Ok(None),
        Some(number) => match nodes.checked_add(number) {
            Some(new) => Ok(Some(new)),
            None => Err(PartFault::Memory),
        },
    }
}

fn first_of(first: Option<u32>, second: Option<u32>) -> Option<u32>
    ensures { result ≡ either first second }
{
    match first {
        Some(number) => Some(number),
        None => second,
    }
}

impl Totals {
    /// Those of a node without children.
    pub fn new() -> Totals
        ensures { result ≡ totals_of [] }
    {
        Totals {
            nodes: 1,
            gross_sum: 0,
            gross_product: 1,
            support_sum: 0,
            support_product: 1,
            heavy: None,
        }
    }

    /// Those with one more child. Where a number is past all that a term in memory can have, memory is wanting.
    pub fn with(&self, part: &Part) -> Result<Totals, PartFault>
        ensures { IfOk result (λ totals. totals ≡ with_part self.now part.now) }
    {
        let nodes = match self.nodes.checked_add(part.nodes) {
            Some(nodes) => nodes,
            None => return Err(PartFault::Memory),
        };
        let child = match number_behind(self.nodes, part.heavy) {
            Ok(child) => child,
            Err(fault) => return Err(fault),
        };
        Ok(Totals {
            nodes,
            gross_sum: capped(self.gross_sum.saturating_add(part.gross)),
            gross_product: capped(self.gross_product.saturating_mul(part.gross)),
            support_sum: capped(self.support_sum.saturating_add(part.support)),
            support_product: capped(self.support_product.saturating_mul(part.support)),
            heavy: first_of(self.heavy, child),
        })
    }
}

impl Children {
    /// No children.
    pub fn new(alloc: Global) -> Children
        ensures { result ≡ children_of [] }
    {
        Children {
            trees: Items::new(alloc),
            sorts: Items::new(alloc),
            are_colours: true,
            are_choices: true,
            are_multisets: true,
            first: 0,
            size: 1,
            totals: Totals::new(),
        }
    }

    /// Puts a child behind the others.
    pub fn add(&mut self, part: Part) -> Result<(), PartFault>
        ensures { OnOk result (self.new ≡ with_child self.old part) }
    {
        let totals = match self.totals.with(&part) {
            Ok(totals) => totals,
            Err(fault) => return Err(fault),
        };
        self.totals = totals;
        self.are_colours = self.are_colours && is_colour(&part.kind);
        self.are_choices = self.are_choices && is_choice(&part.kind);
        self.are_multisets = self.are_multisets && !is_block(&part.kind);
        self.first = if self.first == 0 {
            part.size
        } else {
            self.first
        };
        self.size = self.size.saturating_mul(part.size).min(TOO_LARGE);
        let Part { tree, kind, .. } = part;
        if let Err(_) = self.sorts.push(into_sort(kind)) {
            return Err(PartFault::Memory);
        }
        if let Err(_) = self.trees.push(tree) {
            return Err(PartFault::Memory);
        }
        Ok(())
    }
}
