ghost use Rattle.std.specs.Prelude.{◌≡◌, length, IfOk};
ghost use Rattle.std.specs.List.{IsDistinct};
ghost use Rattle.std.specs.Str.{bytes_eq};
ghost use Rattle.multiset_terms.specs.Parts.{AreSized, IsDeclared};
ghost use Rattle.multiset_terms.specs.Usable.{IsUsable};

use colour_sorts::{Domains, NamedSort, Partition, ResolveFault, Rule, Sort};
use colour_tables::{BuildFault, build, distinct_ids, partitions, sorts};
use multiset_terms::Variables;
use name_tables::{Ids, Name};
use std::alloc::Global;
use wide_sums::Memory;

/// Why declarations can't be used.
#[derive(Debug, Drop)]
pub enum ScopeFault {
    /// The sorts and partitions aren't built.
    Unbuilt(BuildFault),
    /// Two variables have the same id, or there is not one sort for each.
    NotApart,
    /// The sort of a variable breaks a rule.
    Variable(Rule),
    /// Want of memory.
    Memory,
}

/// Declarations that terms are compiled over.
#[derive(Debug, Drop)]
pub struct Scope {
    /// The sorts and partitions.
    pub domains: Domains,
    /// The variables.
    pub variables: Variables,
}

fn ids_of(alloc: Global, variables: &[NamedSort]) -> Result<Vec<Name>, Memory> {
    let mut ids = Vec::new(alloc);
    for variable in variables {
        ids.push(variable.id.copy(alloc)?)?;
    }
    Ok(ids)
}

/// The ids of variables, which differ from each other.
fn distinct(alloc: Global, variables: &[NamedSort]) -> Result<Ids, ScopeFault>
    ensures { IfOk result (λ ids. IsDistinct bytes_eq ids) }
{
    let Ok(ids) = ids_of(alloc, variables) else {
        return Err(ScopeFault::Memory);
    };
    match distinct_ids(alloc, ids.as_slice()) {
        Ok(Some(ids)) => Ok(ids),
        Ok(None) => Err(ScopeFault::NotApart),
        Err(_) => Err(ScopeFault::Memory),
    }
}

/// The sorts of variables.
fn resolved(
    alloc: Global,
    domains: &Domains,
    variables: &[NamedSort],
) -> Result<Vec<Sort>, ScopeFault>
    requires { IsDeclared domains.now }
    ensures { IfOk result (λ sorts. AreSized domains.now.constants sorts.items) }
{
    let mut sorts = Vec::new(alloc);
    for variable in variables {
        let sort = match domains.resolve(alloc, &variable.sort) {
            Ok(sort) => sort,
            Err(ResolveFault::Bad { rule }) => return Err(ScopeFault::Variable(rule)),
            Err(ResolveFault::Memory) => return Err(ScopeFault::Memory),
        };
        if let Err(_) = sorts.push(sort) {
            return Err(ScopeFault::Memory);
        }
    }
    Ok(sorts)
}

/// Variables whose ids differ and whose sorts are within the limits; a variable is the id and the sort of a named sort.
fn variables_of(
    alloc: Global,
    domains: &Domains,
    variables: &[NamedSort],
) -> Result<Variables, ScopeFault>
    requires { IsDeclared domains.now }
    ensures distinct { IfOk result (λ variables. IsDistinct bytes_eq variables.ids) }
    ensures even { IfOk result (λ variables. length variables.ids ≡ length variables.sorts) }
    ensures sized { IfOk result (λ variables. AreSized domains.now.constants variables.sorts) }
{
    let ids = match distinct(alloc, variables) {
        Ok(ids) => ids,
        Err(fault) => return Err(fault),
    };
    let sorts = match resolved(alloc, domains, variables) {
        Ok(sorts) => sorts,
        Err(fault) => return Err(fault),
    };
    if ids.count() as usize != sorts.len() {
        return Err(ScopeFault::NotApart);
    }
    Ok(Variables::new(ids, sorts))
}

/// Declares sorts, partitions and variables.
pub fn declared(
    alloc: Global,
    sorts: &[NamedSort],
    partitions: &[Partition],
    variables: &[NamedSort],
) -> Result<Scope, ScopeFault>
    ensures { IfOk result (λ scope. IsUsable scope.domains scope.variables) }
{
    match build(alloc, sorts, partitions) {
        Ok(domains) => match variables_of(alloc, &domains, variables) {
            Ok(variables) => Ok(Scope { domains, variables }),
            Err(fault) => Err(fault),
        },
        Err(fault) => Err(ScopeFault::Unbuilt(fault)),
    }
}

/// Declares sorts and partitions, and variables of sorts, that are written as text.
pub fn written(alloc: Global, text: &[u8], variables: &[u8]) -> Result<Scope, ScopeFault>
    ensures { IfOk result (λ scope. IsUsable scope.domains scope.variables) }
{
    let Ok(named) = sorts(alloc, text) else {
        return Err(ScopeFault::Memory);
    };
    let Ok(divided) = partitions(alloc, text) else {
        return Err(ScopeFault::Memory);
    };
    let Ok(variables) = sorts(alloc, variables) else {
        return Err(ScopeFault::Memory);
    };
    declared(
        alloc,
        named.as_slice(),
        divided.as_slice(),
        variables.as_slice(),
    )
}
