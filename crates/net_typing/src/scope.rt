ghost use Rattle.std.specs.Prelude.{◌≡◌, ◌<◌, ◌-◌, ◌^◌, IfOk, IfErr, List, length};
ghost use Rattle.std.specs.List.{IsDistinct};
ghost use Rattle.std.specs.Str.{bytes_eq};
ghost use Rattle.colour_sorts.specs.Domain.{StandsFor};
ghost use Rattle.net_model.specs.declared.sorts.NamedSort.{NamedSort};
ghost use Rattle.net_model.specs.declared.sorts.Partition.{Partition};
ghost use Rattle.net_model.specs.Ids.{DeclaresOwnIds, variable_ids};
ghost use Rattle.multiset_terms.specs.Parts.{IsDeclared};
ghost use Rattle.net_typing.specs.Rules.{IsRefusal, declaration_refusal, first_over, variable_refusal};
ghost use Rattle.net_typing.specs.Standing.{AreVariableSorts, IsScopeOf};

use crate::faults::{NetFault, Unfit};
use colour_sorts::{Domains, Sort, SortFault};
use multiset_terms::Variables;
use name_tables::Ids;
use net_model::{Net, VariableDecl};
use std::alloc::Global;
use wide_sums::Memory;

/// What the terms of a net stand over.
#[derive(Debug, Drop)]
pub struct Scope {
    /// The sorts and partitions.
    pub domains: Domains,
    /// The variables.
    pub variables: Variables,
}

/// The ids of the variables.
fn ids_of(alloc: Global, variables: &[VariableDecl]) -> Result<Ids, Memory>
    requires distinct { IsDistinct bytes_eq (variable_ids variables.now) }
    requires few { length variables.now < 2 ^ 32 - 1 }
    ensures { IfOk result (λ ids. ids ≡ variable_ids variables.now) }
{
    let mut ids = Ids::new(alloc);
    for variable in variables {
        ids.add(variable.id.copy(alloc)?)?;
    }
    Ok(ids)
}

/// The sorts of the variables, or the first variable that breaks a rule.
fn sorts_of(
    alloc: Global,
    domains: &Domains,
    variables: &[VariableDecl],
) -> Result<Vec<Sort>, NetFault>
    requires { IsDeclared domains.now }
    ensures sorts { (sorts : List NamedSort) (partitions : List Partition) → StandsFor domains.now sorts partitions → IfOk result (λ found. AreVariableSorts sorts domains.now.constants variables.now found.items) }
    ensures refused { (sorts : List NamedSort) (partitions : List Partition) → StandsFor domains.now sorts partitions → IfErr result (IsRefusal (first_over (variable_refusal sorts) variables.now)) }
{
    let mut sorts = Vec::new(alloc);
    for variable in variables {
        match domains.resolve(alloc, &variable.sort) {
            Ok(sort) => sorts.push(sort)?,
            Err(fault) => return Err(Unfit::of_sort(fault).of(alloc, &variable.id)),
        }
    }
    Ok(sorts)
}

impl Scope {
    /// The declarations of a net, or the first of them that breaks a rule: sorts, then partitions, then variables.
    pub fn of(alloc: Global, net: &Net) -> Result<Scope, NetFault>
        requires { DeclaresOwnIds net.now }
        ensures scope { IfOk result (λ scope. IsScopeOf net.now scope) }
        ensures refused { IfErr result (IsRefusal (declaration_refusal net.now)) }
    {
        let domains = match Domains::build(alloc, net.sorts.as_slice(), net.partitions.as_slice()) {
            Ok(domains) => domains,
            Err(SortFault::Bad { id, rule }) => return Err(NetFault::IllTyped { id, rule }),
            Err(SortFault::Memory) => return Err(NetFault::Memory),
        };
        let variables = net.variables.as_slice();
        let sorts = match sorts_of(alloc, &domains, variables) {
            Ok(sorts) => sorts,
            Err(fault) => return Err(fault),
        };
        let ids = ids_of(alloc, variables)?;
        Ok(Scope {
            variables: Variables::new(ids, sorts),
            domains,
        })
    }
}
