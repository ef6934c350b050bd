ghost use Rattle.std.specs.Prelude.{◌≡◌, Bool, IfOk};
ghost use Rattle.net_model.specs.declared.terms.Term.{Term as AnyTerm};
ghost use Rattle.multiset_terms.specs.Context.{Context};
ghost use Rattle.multiset_terms.specs.Parts.{AreAnswered, AreSized, IsAnswer, IsCompiled, IsDeclared, IsPart, IsScope};
ghost use Rattle.multiset_terms.specs.Typing.{is_block as is_block_kind, sort_of_kind};

use crate::compiled::CTerm;
use crate::faults::{PartFault, TermFault};
use crate::kinds::{into_sort, is_block};
use crate::leaves::{all, dot, none, number, operator, variable};
use crate::making::{before, block, difference, multiple, next, sum, tuple};
use crate::parts::{Children, Part};
use crate::variables::Variables;
use colour_sorts::Domains;
use net_model::Term;
use std::alloc::Global;

/// The part of a term, or its first broken node.
#[cycle(compiling)]
pub fn part_of(
    alloc: Global,
    domains: &Domains,
    variables: &Variables,
    marking: bool,
    term: &Term,
) -> Result<Part, PartFault>
    requires declared { IsDeclared domains.now }
    requires sized { AreSized domains.now.constants variables.now.sorts }
    ensures { (ctx : Context) → IsScope ctx domains.now variables.now → IsAnswer ctx marking term.now result }
{
    match term {
        Term::Variable(id) => variable(alloc, domains, variables, marking, id.bytes()),
        Term::Operator(id) => operator(domains, id.bytes()),
        Term::Dot => Ok(dot()),
        Term::Number { value, span } => number(alloc, domains, *value, span),
        Term::Successor(child) => {
            match part_of(alloc, domains, variables, marking, child.get()) {
                Ok(part) => next(alloc, part),
                Err(fault) => Err(fault.behind(1)),
            }
        }
        Term::Predecessor(child) => {
            match part_of(alloc, domains, variables, marking, child.get()) {
                Ok(part) => before(alloc, part),
                Err(fault) => Err(fault.behind(1)),
            }
        }
        Term::Tuple(parts) => {
            match parts_of(alloc, domains, variables, marking, parts.as_slice()) {
                Ok(children) => tuple(domains, children),
                Err(fault) => Err(fault),
            }
        }
        Term::All(sort) => all(alloc, domains, sort),
        Term::Empty(sort) => none(alloc, domains, sort),
        Term::NumberOf(number, child) => {
            match part_of(alloc, domains, variables, marking, child.get()) {
                Ok(part) => multiple(alloc, *number, part),
                Err(fault) => Err(fault.behind(1)),
            }
        }
        Term::Scalar(number, child) => {
            match part_of(alloc, domains, variables, marking, child.get()) {
                Ok(part) => multiple(alloc, *number, part),
                Err(fault) => Err(fault.behind(1)),
            }
        }
        Term::Add(parts) => {
            match parts_of(alloc, domains, variables, marking, parts.as_slice()) {
                Ok(children) => sum(children),
                Err(fault) => Err(fault),
            }
        }
        Term::Subtract(whole, part) => {
            let whole = match part_of(alloc, domains, variables, marking, whole.get()) {
                Ok(whole) => whole,
                Err(fault) => return Err(fault.behind(1)),
            };
            let nodes = match whole.nodes.checked_add(1) {
                Some(nodes) => nodes,
                None => return Err(PartFault::Memory),
            };
            match part_of(alloc, domains, variables, marking, part.get()) {
                Ok(part) => difference(alloc, whole, part),
                Err(fault) => Err(fault.behind(nodes)),
            }
        }
        Term::BlockOf(id, child) => {
            match part_of(alloc, domains, variables, marking, child.get()) {
                Ok(part) => block(domains, id.bytes(), part),
                Err(fault) => Err(fault.behind(1)),
            }
        }
    }
}

/// The parts of the children of a node, or their first broken node.
#[cycle(compiling)]
fn parts_of(
    alloc: Global,
    domains: &Domains,
    variables: &Variables,
    marking: bool,
    terms: &[Term],
) -> Result<Children, PartFault>
    requires declared { IsDeclared domains.now }
    requires sized { AreSized domains.now.constants variables.now.sorts }
    ensures { (ctx : Context) → IsScope ctx domains.now variables.now → AreAnswered ctx marking terms.now result }
{
    let mut children = Children::new(alloc);
    for term in terms {
        let nodes = children.totals.nodes;
        match part_of(alloc, domains, variables, marking, term) {
            Ok(part) => {
                if let Err(_) = children.add(part) {
                    return Err(PartFault::Memory);
                }
            }
            Err(fault) => return Err(fault.behind(nodes)),
        }
    }
    Ok(children)
}

/// Compiles a term over declared sorts, partitions and variables, where `marking` tells that it stands in an initial marking.
///
/// `IllTyped` comes exactly where a node is broken: it has no type though its children have types; it tells the first one and the first
/// rule that it breaks. `Weight` comes exactly where the term is well-typed and a node has a gross total above 2^63 - 1; it tells the
/// first one. The constants of the sorts and the ids of the variables are distinct, and each variable's sort has from 1 to 2^20
/// colours, as a resolved sort has.
pub fn compile_term(
    alloc: Global,
    domains: &Domains,
    variables: &Variables,
    marking: bool,
    term: &Term,
) -> Result<CTerm, TermFault>
    requires declared { IsDeclared domains.now }
    requires sized { AreSized domains.now.constants variables.now.sorts }
    ensures { (ctx : Context) → IsScope ctx domains.now variables.now → IsCompiled ctx marking term.now result }
{
    match part_of(alloc, domains, variables, marking, term) {
        Ok(part) => finished(part),
        Err(PartFault::Broken { at, rule }) => Err(TermFault::IllTyped { at, rule }),
        Err(PartFault::Memory) => Err(TermFault::Memory),
    }
}

/// The whole term of a part, or its first heavy node.
pub fn finished(part: Part) -> Result<CTerm, TermFault>
    ensures is { IfOk result (λ term. (term.block ≡ is_block_kind part.kind) × (term.sort ≡ sort_of_kind part.kind)) }
    ensures compiled { (ctx : Context) (marking : Bool) (t : AnyTerm) → IsPart ctx marking t part → IsCompiled ctx marking t result }
{
    if let Some(at) = part.heavy {
        return Err(TermFault::Weight { at });
    }
    let block = is_block(&part.kind);
    Ok(CTerm {
        tree: part.tree,
        sort: into_sort(part.kind),
        block,
        gross: part.gross,
        support: part.support,
    })
}
