ghost use Rattle.std.specs.Prelude.{◌≡◌, ℕ, true, ◌-◌, ◌<◌, ◌^◌, [], Some, None, length, IfOk, IfErr, MatchResult};
ghost use Rattle.std.specs.List.{IsDistinct};
ghost use Rattle.std.specs.Str.{bytes_eq};
ghost use Rattle.colour_sorts.specs.Calls.{IsRefused};
ghost use Rattle.colour_sorts.specs.Compiling.{AreAllCompiled, IsCompiling};
ghost use Rattle.colour_sorts.specs.Domain.{StandsFor, fault_of, sort_fault_from};
ghost use Rattle.net_model.specs.Ids.{constants_in, constants_of, ids_of, names_in};
ghost use Rattle.colour_sorts.specs.Naming.{has_end, term_at};
ghost use Rattle.colour_sorts.specs.Searching.{IsOrder};

use crate::breaking::{BrokenSort, first_broken, judged_marks};
use crate::compiling::compile_in_order;
use crate::domains::Domains;
use crate::groups::Groups;
use crate::ordering::order_of;
use crate::rules::SortFault;
use crate::sharing::SortTable;
use name_tables::{Ids, Name};
use net_model::{NamedSort, SortTerm};
use sqlite_items::Items;
use std::alloc::Global;
use wide_sums::Memory;

/// The ids of the named sorts.
fn ids_of_sorts(alloc: Global, sorts: &[NamedSort]) -> Result<Ids, Memory>
    requires distinct { IsDistinct bytes_eq (ids_of sorts.now) }
    requires counted { length sorts.now < 2 ^ 32 - 1 }
    ensures { IfOk result (λ ids. ids ≡ ids_of sorts.now) }
{
    let mut ids = Ids::new(alloc);
    for sort in sorts {
        ids.add(sort.id.copy(alloc)?)?;
    }
    Ok(ids)
}

/// The constants that a term declares.
fn constants_declared(term: &SortTerm) -> &[Name]
    ensures { result.now ≡ constants_in term.now }
{
    match term {
        SortTerm::Listed(constants) => constants.as_slice(),
        SortTerm::Cyclic(constants) => constants.as_slice(),
        _ => &[],
    }
}

/// The constants that each named sort declares.
fn constants_of_sorts(alloc: Global, sorts: &[NamedSort]) -> Result<Groups, Memory>
    requires distinct { IsDistinct bytes_eq (names_in (constants_of sorts.now)) }
    requires counted { length (names_in (constants_of sorts.now)) < 2 ^ 32 - 1 }
    requires sorts { length sorts.now < 2 ^ 32 - 1 }
    ensures { IfOk result (λ groups. groups ≡ constants_of sorts.now) }
{
    let mut groups = Groups::new(alloc);
    for sort in sorts {
        groups = groups.with(alloc, constants_declared(&sort.sort))?;
    }
    Ok(groups)
}

/// The sorts of the named sorts, of which none leads into a circle, compiled in this order.
fn compiled_sorts(
    alloc: Global,
    sorts: &[NamedSort],
    ids: &Ids,
    order: &[u32],
) -> Result<SortTable, Memory>
    requires ids { ids.now ≡ ids_of sorts.now }
    requires order { IsOrder sorts.now order.now }
    requires ends { (at : ℕ) → at < length sorts.now → has_end sorts.now (term_at sorts.now at) ≡ true }
    ensures compiled { IfOk result (λ compiled. IsCompiling sorts.now compiled) }
    ensures all { IfOk result (λ compiled. AreAllCompiled compiled (length sorts.now)) }
{
    let mut compiled = SortTable::new(alloc, ids.count())?;
    compile_in_order(alloc, sorts, ids, &mut compiled, order)?;
    Ok(compiled)
}

/// The named sorts without partitions, or the first of them that breaks a rule.
fn compile_sorts(alloc: Global, sorts: &[NamedSort]) -> Result<Result<Domains, BrokenSort>, Memory>
    requires distinct { IsDistinct bytes_eq (ids_of sorts.now) }
    requires counted { length sorts.now < 2 ^ 32 - 1 }
    requires constants { IsDistinct bytes_eq (names_in (constants_of sorts.now)) }
    requires all { length (names_in (constants_of sorts.now)) < 2 ^ 32 - 1 }
    ensures { IfOk result (λ built. MatchResult built (λ domains. StandsFor domains sorts.now [])
        (λ broken. (fault_of sorts.now (Some broken) ≡ sort_fault_from sorts.now 0 sorts.now) × (broken.at < length sorts.now))) }
{
    let ids = ids_of_sorts(alloc, sorts)?;
    let order = order_of(alloc, sorts, &ids)?;
    let marks = judged_marks(alloc, sorts, &ids, order.as_slice())?;
    if let Some(broken) = first_broken(alloc, sorts, &ids, marks.as_slice())? {
        return Ok(Err(broken));
    }
    let compiled = compiled_sorts(alloc, sorts, &ids, order.as_slice())?;
    let constants = constants_of_sorts(alloc, sorts)?;
    Ok(Ok(Domains {
        ids,
        constants,
        sorts: compiled,
        marks: Items::from_vec(marks),
        partition_ids: Ids::new(alloc),
        elements: Groups::new(alloc),
        divisions: Items::new(alloc),
    }))
}

/// The named sorts without partitions.
pub(crate) fn build_sorts(alloc: Global, sorts: &[NamedSort]) -> Result<Domains, SortFault>
    requires distinct { IsDistinct bytes_eq (ids_of sorts.now) }
    requires counted { length sorts.now < 2 ^ 32 - 1 }
    requires constants { IsDistinct bytes_eq (names_in (constants_of sorts.now)) }
    requires all { length (names_in (constants_of sorts.now)) < 2 ^ 32 - 1 }
    ensures built { IfOk result (λ domains. StandsFor domains sorts.now []) }
    ensures refused { IfErr result (IsRefused sorts.now []) }
{
    match compile_sorts(alloc, sorts) {
        Ok(Ok(domains)) => Ok(domains),
        Ok(Err(broken)) => match sorts[broken.at as usize].id.copy(alloc) {
            Ok(id) => Err(SortFault::Bad {
                id,
                rule: broken.rule,
            }),
            Err(_) => Err(SortFault::Memory),
        },
        Err(_) => Err(SortFault::Memory),
    }
}
