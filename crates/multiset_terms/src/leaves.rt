ghost use Rattle.std.specs.Prelude.{◌≡◌, Bool, Some, slice_get};
ghost use Rattle.colour_sorts.specs.declared.sorts.Colour.{Colour as AnyColour};
ghost use Rattle.net_model.specs.declared.terms.Term.{Term as AnyTerm};
ghost use Rattle.multiset_terms.specs.Context.{Context, Declarations};
ghost use Rattle.multiset_terms.specs.Parts.{AreDistinct, AreSized, HasSize, IsAnswer, IsDeclared, IsConstant, IsElement, IsEmpty, IsEvery, IsPart, IsScope};
ghost use Rattle.net_model.specs.declared.terms.Term.TheVariants as written;
ghost use Rattle.multiset_terms.specs.Values.{colours_of};

use crate::asking::resolved;
use crate::faults::PartFault;
use crate::kinds::Kind;
use crate::parts::Part;
use crate::trees::Tree;
use crate::variables::Variables;
use colour_sorts::{Colour, Declared, Domains, Rule, Sort, SortTerm, Span, copy_sort};
use std::alloc::Global;

/// A colour of this index, among so many of its sort.
pub fn constant(sort: Sort, size: u32, index: u32) -> Part
    ensures { (ctx : Context) (marking : Bool) (t : AnyTerm) (c : AnyColour) → AreDistinct ctx → IsConstant ctx marking t sort c → HasSize ctx sort size → slice_get (colours_of ctx sort) index ≡ Some c → IsPart ctx marking t result }
{
    Part {
        tree: Tree::Constant(size, index),
        kind: Kind::Colour(sort),
        block: None,
        size,
        gross: 1,
        support: 1,
        heavy: None,
        nodes: 1,
    }
}

/// All colours of a sort, which has so many.
pub fn every(sort: Sort, size: u32) -> Part
    ensures { (ctx : Context) (marking : Bool) (t : AnyTerm) → AreDistinct ctx → IsEvery ctx marking t sort → HasSize ctx sort size → IsPart ctx marking t result }
{
    Part {
        tree: Tree::All(size),
        kind: Kind::Every(sort),
        block: None,
        size,
        gross: size as u64,
        support: size as u64,
        heavy: None,
        nodes: 1,
    }
}

/// No colour of a sort, which has so many.
pub fn empty(sort: Sort, size: u32) -> Part
    ensures { (ctx : Context) (marking : Bool) (t : AnyTerm) → AreDistinct ctx → IsEmpty ctx marking t sort → HasSize ctx sort size → IsPart ctx marking t result }
{
    Part {
        tree: Tree::Empty(size),
        kind: Kind::Multiset(sort),
        block: None,
        size,
        gross: 0,
        support: 0,
        heavy: None,
        nodes: 1,
    }
}

/// The variable of this id.
pub fn variable(
    alloc: Global,
    domains: &Domains,
    variables: &Variables,
    marking: bool,
    id: &[u8],
) -> Result<Part, PartFault>
    requires { AreSized domains.now.constants variables.now.sorts }
    ensures { (ctx : Context) → IsScope ctx domains.now variables.now → IsAnswer ctx marking (written.Variable id.now) result }
{
    if marking {
        return Err(PartFault::Broken {
            at: 0,
            rule: Rule::VariableInMarking,
        });
    }
    let number = match variables.ids().find(id) {
        Some(number) => number,
        None => {
            return Err(PartFault::Broken {
                at: 0,
                rule: Rule::UnknownVariable,
            });
        }
    };
    let sort = &variables.sorts()[number as usize];
    let size = domains.size(sort);
    let sort = match copy_sort(alloc, sort) {
        Ok(sort) => sort,
        Err(_) => return Err(PartFault::Memory),
    };
    Ok(Part {
        tree: Tree::Variable(size, number),
        kind: Kind::Colour(sort),
        block: None,
        size,
        gross: 1,
        support: 1,
        heavy: None,
        nodes: 1,
    })
}

/// The dot.
pub fn dot() -> Part
    ensures { (ctx : Context) (marking : Bool) → AreDistinct ctx → IsPart ctx marking written.Dot result }
{
    constant(Sort::Dot, 1, 0)
}

/// The element at this position of the partition at this position.
pub fn element(partition: u32, block: u32) -> Part
    ensures { (ctx : Context) (marking : Bool) (t : AnyTerm) → IsElement ctx marking t partition block → IsPart ctx marking t result }
{
    Part {
        tree: Tree::Empty(1),
        kind: Kind::Block(partition),
        block: Some(block),
        size: 1,
        gross: 1,
        support: 1,
        heavy: None,
        nodes: 1,
    }
}

/// The constant or the element of a partition of this id.
pub fn operator(domains: &Domains, id: &[u8]) -> Result<Part, PartFault>
    requires { IsDeclared domains.now }
    ensures { (ctx : Context) (v : Declarations) (marking : Bool) → IsScope ctx domains.now v → IsAnswer ctx marking (written.Operator id.now) result }
{
    match domains.operator(id) {
        Some(Declared::Constant { sort, index }) => {
            let size = domains.size(&sort);
            Ok(constant(sort, size, index))
        }
        Some(Declared::Block { partition, block }) => Ok(element(partition, block)),
        None => Err(PartFault::Broken {
            at: 0,
            rule: Rule::UnknownOperator,
        }),
    }
}

/// A number of a range.
pub fn number(alloc: Global, domains: &Domains, value: i64, span: &Span) -> Result<Part, PartFault>
    requires { IsDeclared domains.now }
    ensures { (ctx : Context) (v : Declarations) (marking : Bool) → IsScope ctx domains.now v → IsAnswer ctx marking (written.Number value span.now) result }
{
    let found = match resolved(alloc, domains, &SortTerm::Range(*span)) {
        Ok(found) => found,
        Err(fault) => return Err(fault),
    };
    match domains.index_of(&found.sort, &Colour::Number(value)) {
        Some(index) => Ok(constant(found.sort, found.size, index)),
        None => Err(PartFault::Broken {
            at: 0,
            rule: Rule::RangeConstant,
        }),
    }
}

/// All colours of a sort.
pub fn all(alloc: Global, domains: &Domains, sort: &SortTerm) -> Result<Part, PartFault>
    requires { IsDeclared domains.now }
    ensures { (ctx : Context) (v : Declarations) (marking : Bool) → IsScope ctx domains.now v → IsAnswer ctx marking (written.All sort.now) result }
{
    match resolved(alloc, domains, sort) {
        Ok(found) => Ok(every(found.sort, found.size)),
        Err(fault) => Err(fault),
    }
}

/// No colour of a sort.
pub fn none(alloc: Global, domains: &Domains, sort: &SortTerm) -> Result<Part, PartFault>
    requires { IsDeclared domains.now }
    ensures { (ctx : Context) (v : Declarations) (marking : Bool) → IsScope ctx domains.now v → IsAnswer ctx marking (written.Empty sort.now) result }
{
    match resolved(alloc, domains, sort) {
        Ok(found) => Ok(empty(found.sort, found.size)),
        Err(fault) => Err(fault),
    }
}
