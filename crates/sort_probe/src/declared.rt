use colour_sorts::{NamedSort, Rule, SortFault, SortTerm};
use colour_tables::{BuildFault, build};
use name_tables::{Name, decimal};
use sqlite_items::Items;
use std::alloc::Global;
use wide_sums::Memory;

/// The id `s` and a number.
fn id(alloc: Global, number: u32) -> Result<Name, Memory> {
    let mut id = Name::new(alloc, b"s")?;
    let digits = decimal(alloc, number as i128)?;
    id.append(digits.bytes())?;
    Ok(id)
}

fn link(alloc: Global, number: u32, next: u32) -> Result<NamedSort, Memory> {
    let sort = SortTerm::Named(id(alloc, next)?);
    Ok(NamedSort {
        id: id(alloc, number)?,
        sort,
    })
}

/// So many named sorts, each of which stands for the next, and the last for this one.
fn chain(alloc: Global, count: u32, last: NamedSort) -> Result<Vec<NamedSort>, Memory> {
    let mut sorts = Vec::with_capacity(alloc, count as usize)?;
    for number in 1..count {
        sorts.push(link(alloc, number, number + 1)?)?;
    }
    sorts.push(last)?;
    Ok(sorts)
}

/// A chain of names that ends in dot.
fn sound(alloc: Global, count: u32) -> Result<Vec<NamedSort>, Memory> {
    let last = NamedSort {
        id: id(alloc, count)?,
        sort: SortTerm::Dot,
    };
    chain(alloc, count, last)
}

/// The product of two named sorts.
fn pair(alloc: Global, first: u32, second: u32) -> Result<SortTerm, Memory> {
    let mut parts = Vec::new(alloc);
    parts.push(SortTerm::Named(id(alloc, first)?))?;
    parts.push(SortTerm::Named(id(alloc, second)?))?;
    Ok(SortTerm::Product(Items::from_vec(parts)))
}

/// A circle, and beside it a chain of names that ends in one that isn't declared.
fn lost(alloc: Global, count: u32) -> Result<Vec<NamedSort>, Memory> {
    let mut sorts = Vec::with_capacity(alloc, count as usize)?;
    sorts.push(NamedSort {
        id: id(alloc, 0)?,
        sort: pair(alloc, 0, 1)?,
    })?;
    for number in 1..count {
        sorts.push(link(alloc, number, number + 1)?)?;
    }
    Ok(sorts)
}

/// So many named sorts that stand for one product of 4,095 dots.
fn shared(alloc: Global, count: u32) -> Result<Vec<NamedSort>, Memory> {
    let mut parts = Vec::with_capacity(alloc, 4_095)?;
    for _part in 0..4_095 {
        parts.push(SortTerm::Dot)?;
    }
    let mut sorts = Vec::with_capacity(alloc, count as usize)?;
    sorts.push(NamedSort {
        id: id(alloc, 0)?,
        sort: SortTerm::Product(Items::from_vec(parts)),
    })?;
    for number in 1..count {
        sorts.push(link(alloc, number, 0)?)?;
    }
    Ok(sorts)
}

/// How many named sorts are built: none where a name isn't declared.
fn built(alloc: Global, sorts: &[NamedSort]) -> Option<u64> {
    match build(alloc, sorts, &[]) {
        Ok(_domains) => Some(sorts.len() as u64),
        Err(BuildFault::Sorts(SortFault::Bad { id: _, rule })) => match rule {
            Rule::UnknownSort => Some(0),
            _ => None,
        },
        Err(_) => None,
    }
}

fn built_or_none(alloc: Global, sorts: Result<Vec<NamedSort>, Memory>) -> Option<u64> {
    match sorts {
        Ok(sorts) => built(alloc, sorts.as_slice()),
        Err(_) => None,
    }
}

/// Builds a chain of so many names that ends in dot.
pub fn chained(alloc: Global, count: u32) -> Option<u64> {
    built_or_none(alloc, sound(alloc, count))
}

/// Builds a circle and a chain of so many names that ends in one that isn't declared.
pub fn circled(alloc: Global, count: u32) -> Option<u64> {
    built_or_none(alloc, lost(alloc, count))
}

/// Builds so many named sorts that stand for one product.
pub fn aliased(alloc: Global, count: u32) -> Option<u64> {
    built_or_none(alloc, shared(alloc, count))
}
