ghost use Rattle.std.specs.Prelude.{◌≡◌, ◌+◌, ◌<◌, ◌^◌, ◌∷◌, [], IfOk, List, Ok, false};
ghost use Rattle.multiset_terms.specs.declared.conditions.CGuard.TheVariants as condition;
ghost use Rattle.net_model.specs.declared.terms.Guard.{Guard as AnyGuard};
ghost use Rattle.net_model.specs.declared.terms.Guard.TheVariants as written;
ghost use Rattle.net_model.specs.declared.terms.Term.{Term as AnyTerm};
ghost use Rattle.multiset_terms.specs.Context.{Context};
ghost use Rattle.multiset_terms.specs.GuardParts.{AreGuardParts, IsCondition, IsGuardAnswer, IsGuardPart, block_tree_of, is_equality as is_equality_of};
ghost use Rattle.multiset_terms.specs.Parts.{AreDistinct, IsPart};
ghost use Rattle.multiset_terms.specs.Typing.{can_be_compared};

use crate::conditions::{BlockTree, CGuard};
use crate::faults::PartFault;
use crate::kinds::{Kind, compare_kinds};
use crate::parts::Part;
use crate::trees::Tree;
use net_model::Order;
use sqlite_items::{Boxed, Items};
use std::alloc::Global;

/// A part of a guard that is compiled.
#[derive(Debug, Drop)]
pub struct GuardPart {
    /// The guard over colour indices.
    pub condition: CGuard,
    /// How many nodes it has, those of its terms too.
    pub nodes: u32,
}

/// The compiled children of a node of a guard.
#[derive(Debug, Drop)]
pub struct GuardParts {
    /// Them over colour indices.
    pub conditions: Items<CGuard>,
    /// How many nodes they have together, the node itself being one more.
    pub nodes: u32,
}

/// So many nodes together. Where they are past all that a guard in memory can have, memory is wanting.
pub fn nodes_together(first: u32, second: u32) -> Result<u32, PartFault>
    ensures nodes { IfOk result (λ nodes. nodes ≡ first + second) }
    ensures few { IfOk result (λ nodes. nodes < 2 ^ 32) }
{
    match first.checked_add(second) {
        Some(nodes) => Ok(nodes),
        None => Err(PartFault::Memory),
    }
}

/// The nodes of a node over two children of so many nodes.
fn nodes_over(first: u32, second: u32) -> Result<u32, PartFault>
    ensures { IfOk result (λ nodes. nodes ≡ 1 + first + second) }
{
    match nodes_together(1, first) {
        Ok(front) => nodes_together(front, second),
        Err(fault) => Err(fault),
    }
}

impl GuardParts {
    ghost use Rattle.std.specs.Prelude.{OnOk, ◌++◌, ◌<◌, ◌^◌};

    /// No children.
    pub fn new(alloc: Global) -> GuardParts
        ensures { (ctx : Context) → AreGuardParts ctx [] result }
    {
        GuardParts {
            conditions: Items::new(alloc),
            nodes: 1,
        }
    }

    /// Puts a child behind the others.
    pub fn add(&mut self, part: GuardPart) -> Result<(), PartFault>
        ensures conditions { OnOk result (self.new.conditions ≡ self.old.conditions ++ part.condition ∷ []) }
        ensures nodes { OnOk result (self.new.nodes ≡ self.old.nodes + part.nodes) }
        ensures few { OnOk result (self.new.nodes < 2 ^ 32) }
    {
        let GuardPart { condition, nodes } = part;
        self.nodes = match nodes_together(self.nodes, nodes) {
            Ok(nodes) => nodes,
            Err(_) => return Err(PartFault::Memory),
        };
        if let Err(_) = self.conditions.push(condition) {
            return Err(PartFault::Memory);
        }
        Ok(())
    }
}

/// True or false.
pub fn constant(value: bool) -> GuardPart
    ensures { (ctx : Context) → IsGuardPart ctx (written.Constant value) result }
{
    GuardPart {
        condition: CGuard::Constant(value),
        nodes: 1,
    }
}

/// All of these parts.
pub fn all_of(parts: GuardParts) -> GuardPart
    ensures { (ctx : Context) (gs : List AnyGuard) → AreGuardParts ctx gs parts → IsGuardPart ctx (written.And gs) result }
{
    GuardPart {
        condition: CGuard::And(parts.conditions),
        nodes: parts.nodes,
    }
}

/// Some of these parts.
pub fn some_of(parts: GuardParts) -> GuardPart
    ensures { (ctx : Context) (gs : List AnyGuard) → AreGuardParts ctx gs parts → IsGuardPart ctx (written.Or gs) result }
{
    GuardPart {
        condition: CGuard::Or(parts.conditions),
        nodes: parts.nodes,
    }
}

/// Not a part.
pub fn not_that(alloc: Global, part: GuardPart) -> Result<GuardPart, PartFault>
    ensures { (ctx : Context) (g : AnyGuard) → IsGuardPart ctx g part → IsGuardAnswer ctx (written.Not g) result }
{
    let nodes = match nodes_together(1, part.nodes) {
        Ok(nodes) => nodes,
        Err(_) => return Err(PartFault::Memory),
    };
    match Boxed::new(alloc, part.condition) {
        Ok(condition) => Ok(GuardPart {
            condition: CGuard::Not(condition),
            nodes,
        }),
        Err(_) => Err(PartFault::Memory),
    }
}

fn implication(alloc: Global, first: CGuard, second: CGuard) -> Result<CGuard, PartFault>
    ensures { IfOk result (λ made. made ≡ condition.Imply first second) }
{
    let first = match Boxed::new(alloc, first) {
        Ok(first) => first,
        Err(_) => return Err(PartFault::Memory),
    };
    match Boxed::new(alloc, second) {
        Ok(second) => Ok(CGuard::Imply(first, second)),
        Err(_) => Err(PartFault::Memory),
    }
}

/// The second part where the first is true.
pub fn implied(alloc: Global, first: GuardPart, second: GuardPart) -> Result<GuardPart, PartFault>
    ensures { (ctx : Context) (g : AnyGuard) (h : AnyGuard) → IsGuardPart ctx g first → IsGuardPart ctx h second → IsGuardAnswer ctx (written.Imply g h) result }
{
    let nodes = match nodes_over(first.nodes, second.nodes) {
        Ok(nodes) => nodes,
        Err(_) => return Err(PartFault::Memory),
    };
    match implication(alloc, first.condition, second.condition) {
        Ok(condition) => Ok(GuardPart { condition, nodes }),
        Err(_) => Err(PartFault::Memory),
    }
}

fn block_tree(block: Option<u32>, tree: Tree) -> BlockTree
    ensures { result ≡ block_tree_of block tree }
{
    match block {
        Some(position) => BlockTree::Element(position),
        None => BlockTree::With(tree),
    }
}

fn is_equality(order: Order) -> bool
    ensures { result ≡ is_equality_of order }
{
    match order {
        Order::Equal => true,
        _ => false,
    }
}

/// The comparison of two parts that can be compared.
fn comparison(order: Order, first: Part, second: Part) -> CGuard
    ensures { (ctx : Context) (t : AnyTerm) (u : AnyTerm) → AreDistinct ctx → IsPart ctx false t first → IsPart ctx false u second
        → Ok tt ≡ can_be_compared order (first.kind ∷ second.kind ∷ []) → IsCondition ctx (written.Compare order t u) result }
{
    match first.kind {
        Kind::Block(partition) => CGuard::CompareBlocks(
            is_equality(order),
            partition,
            block_tree(first.block, first.tree),
            block_tree(second.block, second.tree),
        ),
        _ => CGuard::Compare(order, first.tree, second.tree),
    }
}

/// A comparison of two parts.
pub fn compared(order: Order, first: Part, second: Part) -> Result<GuardPart, PartFault>
    ensures { (ctx : Context) (t : AnyTerm) (u : AnyTerm) → AreDistinct ctx → IsPart ctx false t first → IsPart ctx false u second → IsGuardAnswer ctx (written.Compare order t u) result }
{
    let nodes = match nodes_over(first.nodes, second.nodes) {
        Ok(nodes) => nodes,
        Err(_) => return Err(PartFault::Memory),
    };
    match compare_kinds(order, &first.kind, &second.kind) {
        Ok(()) => Ok(GuardPart {
            condition: comparison(order, first, second),
            nodes,
        }),
        Err(rule) => Err(PartFault::Broken { at: 0, rule }),
    }
}
