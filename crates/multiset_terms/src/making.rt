ghost use Rattle.std.specs.Prelude.{◌≡◌, ◌∷◌, [], ℕ, Bool, List, Some};
ghost use Rattle.multiset_terms.specs.Typing.{partition_place, partition_sort};
ghost use Rattle.net_model.specs.declared.terms.Term.{Term as AnyTerm};
ghost use Rattle.net_model.specs.declared.terms.Term.TheVariants as written;
ghost use Rattle.multiset_terms.specs.Context.{Context, Declarations};
ghost use Rattle.multiset_terms.specs.Parts.{AreChildren, AreDistinct, IsAnswer, IsPart, IsScope, tuple_made};

use crate::asking::passes_limit;
use crate::faults::PartFault;
use crate::kinds::{Kind, block_kind, difference_kind, multiple_kind, step_kind, sum_kind};
use crate::parts::{Children, Part, Totals, heavy_node, times_weight};
use crate::trees::Tree;
use colour_sorts::{Domains, Rule, Sort};
use sqlite_items::{Boxed, Items};
use std::alloc::Global;

/// So many times a part.
pub fn multiple(alloc: Global, number: u64, part: Part) -> Result<Part, PartFault>
    ensures scalar { (ctx : Context) (marking : Bool) (t : AnyTerm) → IsPart ctx marking t part → IsAnswer ctx marking (written.Scalar number t) result }
    ensures number_of { (ctx : Context) (marking : Bool) (t : AnyTerm) → IsPart ctx marking t part → IsAnswer ctx marking (written.NumberOf number t) result }
{
    let totals = match Totals::new().with(&part) {
        Ok(totals) => totals,
        Err(_) => return Err(PartFault::Memory),
    };
    let kind = match multiple_kind(part.kind) {
        Ok(kind) => kind,
        Err(rule) => return Err(PartFault::Broken { at: 0, rule }),
    };
    let child = match Boxed::new(alloc, part.tree) {
        Ok(child) => child,
        Err(_) => return Err(PartFault::Memory),
    };
    let gross = times_weight(number, part.gross);
    Ok(Part {
        tree: Tree::Times(number, child),
        kind,
        block: None,
        size: part.size,
        gross,
        support: part.support,
        heavy: heavy_node(gross, totals.heavy),
        nodes: totals.nodes,
    })
}

/// The colour behind a part in a cyclic enumeration.
pub fn next(alloc: Global, part: Part) -> Result<Part, PartFault>
    ensures { (ctx : Context) (marking : Bool) (t : AnyTerm) → AreDistinct ctx → IsPart ctx marking t part → IsAnswer ctx marking (written.Successor t) result }
{
    let totals = match Totals::new().with(&part) {
        Ok(totals) => totals,
        Err(_) => return Err(PartFault::Memory),
    };
    let kind = match step_kind(part.kind) {
        Ok(kind) => kind,
        Err(rule) => return Err(PartFault::Broken { at: 0, rule }),
    };
    let child = match Boxed::new(alloc, part.tree) {
        Ok(child) => child,
        Err(_) => return Err(PartFault::Memory),
    };
    Ok(Part {
        tree: Tree::Next(part.size, child),
        kind,
        block: None,
        size: part.size,
        gross: 1,
        support: 1,
        heavy: heavy_node(1, totals.heavy),
        nodes: totals.nodes,
    })
}

/// The colour before a part in a cyclic enumeration.
pub fn before(alloc: Global, part: Part) -> Result<Part, PartFault>
    ensures { (ctx : Context) (marking : Bool) (t : AnyTerm) → AreDistinct ctx → IsPart ctx marking t part → IsAnswer ctx marking (written.Predecessor t) result }
{
    let totals = match Totals::new().with(&part) {
        Ok(totals) => totals,
        Err(_) => return Err(PartFault::Memory),
    };
    let kind = match step_kind(part.kind) {
        Ok(kind) => kind,
        Err(rule) => return Err(PartFault::Broken { at: 0, rule }),
    };
    let child = match Boxed::new(alloc, part.tree) {
        Ok(child) => child,
        Err(_) => return Err(PartFault::Memory),
    };
    Ok(Part {
        tree: Tree::Before(part.size, child),
        kind,
        block: None,
        size: part.size,
        gross: 1,
        support: 1,
        heavy: heavy_node(1, totals.heavy),
        nodes: totals.nodes,
    })
}

/// A part without another one.
pub fn difference(alloc: Global, whole: Part, part: Part) -> Result<Part, PartFault>
    ensures { (ctx : Context) (marking : Bool) (t u : AnyTerm) → IsPart ctx marking t whole → IsPart ctx marking u part → IsAnswer ctx marking (written.Subtract t u) result }
{
    let first = match Totals::new().with(&whole) {
        Ok(totals) => totals,
        Err(_) => return Err(PartFault::Memory),
    };
    let totals = match first.with(&part) {
        Ok(totals) => totals,
        Err(_) => return Err(PartFault::Memory),
    };
    let kind = match difference_kind(whole.kind, &part.kind) {
        Ok(kind) => kind,
        Err(rule) => return Err(PartFault::Broken { at: 0, rule }),
    };
    let size = whole.size;
    let whole = match Boxed::new(alloc, whole.tree) {
        Ok(child) => child,
        Err(_) => return Err(PartFault::Memory),
    };
    let part = match Boxed::new(alloc, part.tree) {
        Ok(child) => child,
        Err(_) => return Err(PartFault::Memory),
    };
    Ok(Part {
        tree: Tree::Minus(whole, part),
        kind,
        block: None,
        size,
        gross: totals.gross_sum,
        support: totals.support_sum,
        heavy: heavy_node(totals.gross_sum, totals.heavy),
        nodes: totals.nodes,
    })
}

/// The sum of some parts.
pub fn sum(children: Children) -> Result<Part, PartFault>
    ensures { (ctx : Context) (marking : Bool) (ts : List AnyTerm) → AreChildren ctx marking ts children → IsAnswer ctx marking (written.Add ts) result }
{
    let kind = match sum_kind(children.are_multisets, children.sorts) {
        Ok(kind) => kind,
        Err(rule) => return Err(PartFault::Broken { at: 0, rule }),
    };
    let totals = children.totals;
    Ok(Part {
        tree: Tree::Sum(children.first, children.trees),
        kind,
        block: None,
        size: children.first,
        gross: totals.gross_sum,
        support: totals.support_sum,
        heavy: heavy_node(totals.gross_sum, totals.heavy),
        nodes: totals.nodes,
    })
}

/// The tuples of the choices of children, over a sort of so many colours.
fn tuple_over(sort: Sort, trees: Items<Tree>, are_colours: bool, size: u32, totals: Totals) -> Part
    ensures { result ≡ tuple_made sort trees are_colours size totals }
{
    let heavy = heavy_node(totals.gross_product, totals.heavy);
    if are_colours {
        Part {
            tree: Tree::Tuple(size, trees),
            kind: Kind::Colour(sort),
            block: None,
            size,
            gross: totals.gross_product,
            support: totals.support_product,
            heavy,
            nodes: totals.nodes,
        }
    } else {
        Part {
            tree: Tree::Product(size, trees),
            kind: Kind::Multiset(sort),
            block: None,
            size,
            gross: totals.gross_product,
            support: totals.support_product,
            heavy,
            nodes: totals.nodes,
        }
    }
}

/// The block of a partition that has a part, where it is the partition at this position and divides this sort.
pub fn block_of(partition: u32, sort: &Sort, part: Part) -> Result<Part, PartFault>
    ensures { (ctx : Context) (marking : Bool) (id : List ℕ) (t : AnyTerm) → partition_place ctx id ≡ Some partition → sort.now ≡ partition_sort ctx partition → IsPart ctx marking t part → IsAnswer ctx marking (written.BlockOf id t) result }
{
    let totals = match Totals::new().with(&part) {
        Ok(totals) => totals,
        Err(_) => return Err(PartFault::Memory),
    };
    let kind = match block_kind(partition, sort, part.kind) {
        Ok(kind) => kind,
        Err(rule) => return Err(PartFault::Broken { at: 0, rule }),
    };
    Ok(Part {
        tree: part.tree,
        kind,
        block: None,
        size: 1,
        gross: 1,
        support: 1,
        heavy: heavy_node(1, totals.heavy),
        nodes: totals.nodes,
    })
}

/// The tuples of the choices of children.
pub fn tuple(domains: &Domains, children: Children) -> Result<Part, PartFault>
    ensures { (ctx : Context) (v : Declarations) (marking : Bool) (ts : List AnyTerm) → IsScope ctx domains.now v → AreChildren ctx marking ts children → IsAnswer ctx marking (written.Tuple ts) result }
{
    if !children.are_choices {
        return Err(PartFault::Broken {
            at: 0,
            rule: Rule::NotAColour,
        });
    }
    let sort = Sort::Product(children.sorts);
    let passes = passes_limit(domains, &sort);
    if passes {
        return Err(PartFault::Broken {
            at: 0,
            rule: Rule::DomainLimit,
        });
    }
    Ok(tuple_over(
        sort,
        children.trees,
        children.are_colours,
        children.size,
        children.totals,
    ))
}

/// The block of the partition of this id that has a part.
pub fn block(domains: &Domains, id: &[u8], part: Part) -> Result<Part, PartFault>
    ensures { (ctx : Context) (v : Declarations) (marking : Bool) (t : AnyTerm) → IsScope ctx domains.now v → IsPart ctx marking t part → IsAnswer ctx marking (written.BlockOf id.now t) result }
{
    match domains.partition(id) {
        Some(at) => block_of(at, domains.partition_sort(at), part),
        None => Err(PartFault::Broken {
            at: 0,
            rule: Rule::UnknownPartition,
        }),
    }
}
