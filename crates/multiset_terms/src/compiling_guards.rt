ghost use Rattle.std.specs.Prelude.{◌≡◌};
ghost use Rattle.net_model.specs.declared.terms.Guard.TheVariants as written;
ghost use Rattle.multiset_terms.specs.Context.{Context};
ghost use Rattle.multiset_terms.specs.GuardParts.{AreGuardAnswers, IsGuardAnswer, IsGuardCompiled};
ghost use Rattle.multiset_terms.specs.Parts.{AreSized, IsDeclared, IsScope};

use crate::compiling::part_of;
use crate::conditions::CGuard;
use crate::faults::{PartFault, TermFault};
use crate::guards::{
    GuardPart, GuardParts, all_of, compared, constant, implied, not_that, some_of,
};
use crate::variables::Variables;
use colour_sorts::Domains;
use net_model::{Guard, Order, Term};
use std::alloc::Global;

/// The comparison of two terms, or its first broken node.
fn compared_terms(
    alloc: Global,
    domains: &Domains,
    variables: &Variables,
    order: Order,
    first: &Term,
    second: &Term,
) -> Result<GuardPart, PartFault>
    requires declared { IsDeclared domains.now }
    requires sized { AreSized domains.now.constants variables.now.sorts }
    ensures { (ctx : Context) → IsScope ctx domains.now variables.now → IsGuardAnswer ctx (written.Compare order first.now second.now) result }
{
    let first = match part_of(alloc, domains, variables, false, first) {
        Ok(part) => part,
        Err(fault) => return Err(fault.behind(1)),
    };
    let nodes = match first.nodes.checked_add(1) {
        Some(nodes) => nodes,
        None => return Err(PartFault::Memory),
    };
    match part_of(alloc, domains, variables, false, second) {
        Ok(second) => compared(order, first, second),
        Err(fault) => Err(fault.behind(nodes)),
    }
}

/// The part of a guard, or its first broken node.
#[cycle(compiling_guards)]
fn guard_part_of(
    alloc: Global,
    domains: &Domains,
    variables: &Variables,
    guard: &Guard,
) -> Result<GuardPart, PartFault>
    requires declared { IsDeclared domains.now }
    requires sized { AreSized domains.now.constants variables.now.sorts }
    ensures { (ctx : Context) → IsScope ctx domains.now variables.now → IsGuardAnswer ctx guard.now result }
{
    match guard {
        Guard::Constant(value) => Ok(constant(*value)),
        Guard::And(parts) => {
            match guard_parts_of(alloc, domains, variables, parts.as_slice()) {
                Ok(parts) => Ok(all_of(parts)),
                Err(fault) => Err(fault),
            }
        }
        Guard::Or(parts) => {
            match guard_parts_of(alloc, domains, variables, parts.as_slice()) {
                Ok(parts) => Ok(some_of(parts)),
                Err(fault) => Err(fault),
            }
        }
        Guard::Not(part) => {
            match guard_part_of(alloc, domains, variables, part.get()) {
                Ok(part) => not_that(alloc, part),
                Err(fault) => Err(fault.behind(1)),
            }
        }
        Guard::Imply(first, second) => {
            let first = match guard_part_of(alloc, domains, variables, first.get()) {
                Ok(part) => part,
                Err(fault) => return Err(fault.behind(1)),
            };
            let nodes = match first.nodes.checked_add(1) {
                Some(nodes) => nodes,
                None => return Err(PartFault::Memory),
            };
            match guard_part_of(alloc, domains, variables, second.get()) {
                Ok(second) => implied(alloc, first, second),
                Err(fault) => Err(fault.behind(nodes)),
            }
        }
        Guard::Compare(order, first, second) => {
            compared_terms(alloc, domains, variables, *order, first, second)
        }
    }
}

/// The parts of the children of a node, or their first broken node.
#[cycle(compiling_guards)]
fn guard_parts_of(
    alloc: Global,
    domains: &Domains,
    variables: &Variables,
    guards: &[Guard],
) -> Result<GuardParts, PartFault>
    requires declared { IsDeclared domains.now }
    requires sized { AreSized domains.now.constants variables.now.sorts }
    ensures { (ctx : Context) → IsScope ctx domains.now variables.now → AreGuardAnswers ctx guards.now result }
{
    let mut parts = GuardParts::new(alloc);
    for guard in guards {
        let nodes = parts.nodes;
        match guard_part_of(alloc, domains, variables, guard) {
            Ok(part) => {
                if let Err(_) = parts.add(part) {
                    return Err(PartFault::Memory);
                }
            }
            Err(fault) => return Err(fault.behind(nodes)),
        }
    }
    Ok(parts)
}

/// Compiles a guard over declared sorts, partitions and variables.
///
/// `IllTyped` comes exactly where a node of the guard or of its terms is broken; it tells the first one and the first rule that it
/// breaks. It never answers `Weight`. The constants of the sorts and the ids of the variables are distinct, and each variable's sort has
/// from 1 to 2^20 colours, as a resolved sort has.
pub fn compile_guard(
    alloc: Global,
    domains: &Domains,
    variables: &Variables,
    guard: &Guard,
) -> Result<CGuard, TermFault>
    requires declared { IsDeclared domains.now }
    requires sized { AreSized domains.now.constants variables.now.sorts }
    ensures { (ctx : Context) → IsScope ctx domains.now variables.now → IsGuardCompiled ctx guard.now result }
{
    match guard_part_of(alloc, domains, variables, guard) {
        Ok(part) => Ok(part.condition),
        Err(PartFault::Broken { at, rule }) => Err(TermFault::IllTyped { at, rule }),
        Err(PartFault::Memory) => Err(TermFault::Memory),
    }
}
