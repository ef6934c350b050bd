ghost use Rattle.std.specs.Prelude.{◌≡◌, ◌++◌, ◌<◌, ◌-◌, ◌^◌, true, length, map, IfOk, IfSome, OnOk};
ghost use Rattle.std.specs.List.{IsDistinct};
ghost use Rattle.std.specs.Str.{bytes_eq};
ghost use Rattle.net_model.specs.Ids.{AreCounted, AreDistinct, constants_in, constants_of, element_ids, ids_of, names_in};

use colour_sorts::{Block, NamedSort, Partition, SortTerm};
use name_tables::{Added, Ids, Name};
use std::alloc::Global;
use wide_sums::Memory;

/// Names as ids, `None` where two are the same, or where there are 2^32 - 1 or more.
pub fn distinct_ids(alloc: Global, names: &[Name]) -> Result<Option<Ids>, Memory>
    ensures same { IfOk result (λ ids. IfSome ids (λ ids. ids ≡ names.now)) }
    ensures distinct { IfOk result (λ ids. IfSome ids (λ ids. IsDistinct bytes_eq names.now)) }
    ensures few { IfOk result (λ ids. IfSome ids (λ ids. length names.now < 2 ^ 32 - 1)) }
{
    if names.len() >= 4_294_967_295 {
        return Ok(None);
    }
    let mut ids = Ids::new(alloc);
    for name in names {
        match ids.add(name.copy(alloc)?)? {
            Added::New(_) => {}
            Added::Old(_) => return Ok(None),
        }
    }
    Ok(Some(ids))
}

fn are_distinct(alloc: Global, names: &[Name]) -> Result<bool, Memory>
    ensures { IfOk result (λ distinct. distinct ≡ true → IsDistinct bytes_eq names.now × (length names.now < 2 ^ 32 - 1)) }
{
    match distinct_ids(alloc, names)? {
        Some(_) => Ok(true),
        None => Ok(false),
    }
}

fn append_copies(alloc: Global, names: &mut Vec<Name>, more: &[Name]) -> Result<(), Memory>
    ensures { OnOk result (names.new.items ≡ names.old.items ++ more.now) }
{
    for name in more {
        names.push(name.copy(alloc)?)?;
    }
    Ok(())
}

fn ids_of_sorts(alloc: Global, sorts: &[NamedSort]) -> Result<Vec<Name>, Memory>
    ensures { IfOk result (λ ids. ids.items ≡ ids_of sorts.now) }
{
    let mut ids = Vec::new(alloc);
    for sort in sorts {
        ids.push(sort.id.copy(alloc)?)?;
    }
    Ok(ids)
}

fn constants_declared(term: &SortTerm) -> &[Name]
    ensures { result.now ≡ constants_in term.now }
{
    match term {
        SortTerm::Listed(constants) => constants.as_slice(),
        SortTerm::Cyclic(constants) => constants.as_slice(),
        _ => &[],
    }
}

fn constants_of_sorts(alloc: Global, sorts: &[NamedSort]) -> Result<Vec<Name>, Memory>
    ensures { IfOk result (λ names. names.items ≡ names_in (constants_of sorts.now)) }
{
    let mut names = Vec::new(alloc);
    for sort in sorts {
        append_copies(alloc, &mut names, constants_declared(&sort.sort))?;
    }
    Ok(names)
}

fn ids_of_partitions(alloc: Global, partitions: &[Partition]) -> Result<Vec<Name>, Memory>
    ensures { IfOk result (λ ids. ids.items ≡ map (λ p. p.id) partitions.now) }
{
    let mut ids = Vec::new(alloc);
    for partition in partitions {
        ids.push(partition.id.copy(alloc)?)?;
    }
    Ok(ids)
}

fn ids_of_blocks(alloc: Global, elements: &[Block]) -> Result<Vec<Name>, Memory>
    ensures { IfOk result (λ ids. ids.items ≡ map (λ element. element.id) elements.now) }
{
    let mut ids = Vec::new(alloc);
    for element in elements {
        ids.push(element.id.copy(alloc)?)?;
    }
    Ok(ids)
}

fn ids_of_elements(alloc: Global, partitions: &[Partition]) -> Result<Vec<Name>, Memory>
    ensures { IfOk result (λ names. names.items ≡ names_in (map element_ids partitions.now)) }
{
    let mut names = Vec::new(alloc);
    for partition in partitions {
        let ids = ids_of_blocks(alloc, partition.elements.as_slice())?;
        append_copies(alloc, &mut names, ids.as_slice())?;
    }
    Ok(names)
}

/// Whether ids and constants differ from each other as a domain asks it.
pub fn are_apart(
    alloc: Global,
    sorts: &[NamedSort],
    partitions: &[Partition],
) -> Result<bool, Memory>
    ensures { IfOk result (λ apart. apart ≡ true → AreDistinct sorts.now partitions.now × AreCounted sorts.now partitions.now) }
{
    let ids = ids_of_sorts(alloc, sorts)?;
    let constants = constants_of_sorts(alloc, sorts)?;
    let divisions = ids_of_partitions(alloc, partitions)?;
    let elements = ids_of_elements(alloc, partitions)?;
    if !are_distinct(alloc, ids.as_slice())? {
        return Ok(false);
    }
    if !are_distinct(alloc, constants.as_slice())? {
        return Ok(false);
    }
    if !are_distinct(alloc, divisions.as_slice())? {
        return Ok(false);
    }
    are_distinct(alloc, elements.as_slice())
}
