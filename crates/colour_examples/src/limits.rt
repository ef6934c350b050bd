use crate::rules::is_refused;
use colour_sorts::{NamedSort, ResolveFault, Rule, SortTerm};
use colour_tables::{Built, sort, sorts};
use name_tables::{Name, decimal};
use sqlite_items::Items;
use std::alloc::Global;
use std::test::Fail;
use wide_sums::Memory;

// The ids of the named sorts here are numbers.

fn named(alloc: Global, id: u32) -> Result<SortTerm, Memory> {
    Ok(SortTerm::Named(decimal(alloc, id as i128)?))
}

fn declared(alloc: Global, id: u32, sort: SortTerm) -> Result<NamedSort, Memory> {
    Ok(NamedSort {
        id: decimal(alloc, id as i128)?,
        sort,
    })
}

/// A named sort, so many times.
fn repeated(alloc: Global, id: u32, times: u32) -> Result<SortTerm, Memory> {
    let mut parts = Vec::new(alloc);
    for _time in 0..times {
        parts.push(named(alloc, id)?)?;
    }
    Ok(SortTerm::Product(Items::from_vec(parts)))
}

/// The product of a sort alone.
fn wrapped(alloc: Global, sort: SortTerm) -> Result<SortTerm, Memory> {
    let mut parts = Vec::new(alloc);
    parts.push(sort)?;
    Ok(SortTerm::Product(Items::from_vec(parts)))
}

/// The named sort of the id 0 so many times, in so many products of one component each.
fn nested(alloc: Global, times: u32, around: u32) -> Result<SortTerm, Memory> {
    let mut sort = repeated(alloc, 0, times)?;
    for _at in 0..around {
        sort = wrapped(alloc, sort)?;
    }
    Ok(sort)
}

/// The size of a sort over named sorts.
pub fn size_in(alloc: Global, sorts: &[NamedSort], sort: &SortTerm) -> Result<u32, ResolveFault> {
    match Built::new(alloc, sorts, &[]) {
        Ok(built) => built.size(alloc, sort),
        Err(_) => Err(ResolveFault::Memory),
    }
}

/// The size of dot so many times, in so many products of one component each. Dot is the named sort of the id 0.
fn nested_size(
    alloc: Global,
    dot: &[NamedSort],
    times: u32,
    around: u32,
) -> Result<u32, ResolveFault> {
    match nested(alloc, times, around) {
        Ok(sort) => size_in(alloc, dot, &sort),
        Err(_) => Err(ResolveFault::Memory),
    }
}

pub fn is_past(size: Result<u32, ResolveFault>) -> bool {
    match size {
        Err(ResolveFault::Bad { rule }) => rule == Rule::DomainLimit,
        _ => false,
    }
}

#[test]
fn products_at_the_limits(rt: HostRuntime) -> Result<(), Fail> {
    let dot = sorts(rt.alloc(), b"0:dot")?;
    assert!(rt; matches!(nested_size(rt.alloc(), dot.as_slice(), 4_095, 0), Ok(1)));
    assert!(rt; is_past(nested_size(rt.alloc(), dot.as_slice(), 4_096, 0)));
    assert!(rt; matches!(nested_size(rt.alloc(), dot.as_slice(), 1, 254), Ok(1)));
    assert!(rt; is_past(nested_size(rt.alloc(), dot.as_slice(), 1, 255)));
    Ok(())
}

/// A sort of the id 0, and so many more: each the one before, so many times.
fn powers(alloc: Global, first: &[u8], more: u32, times: u32) -> Result<Vec<NamedSort>, Memory> {
    let mut sorts = Vec::new(alloc);
    sorts.push(declared(alloc, 0, sort(alloc, first)?)?)?;
    for at in 0..more {
        sorts.push(declared(alloc, at + 1, repeated(alloc, at, times)?)?)?;
    }
    Ok(sorts)
}

/// Whether the sort of this id is the first that passes a limit.
fn is_first_past(alloc: Global, id: &[u8], first: &[u8], more: u32, times: u32) -> bool {
    match powers(alloc, first, more, times) {
        Ok(sorts) => {
            let built = Built::new(alloc, sorts.as_slice(), &[]);
            is_refused(&built, id, b"domain-limit")
        }
        Err(_) => false,
    }
}

#[test]
fn sorts_that_square_the_one_before(rt: HostRuntime) {
    assert!(rt; is_first_past(rt.alloc(), b"12", b"dot", 30, 2));
    assert!(rt; is_first_past(rt.alloc(), b"5", b"0/1", 30, 2));
    assert!(rt; is_first_past(rt.alloc(), b"2", b"1/1024", 30, 2));
    assert!(rt; is_first_past(rt.alloc(), b"256", b"dot", 300, 1));
}

/// The id `B` and a number.
fn square_id(alloc: Global, number: u32) -> Result<Name, Memory> {
    let mut id = Name::new(alloc, b"B")?;
    let digits = decimal(alloc, number as i128)?;
    id.append(digits.bytes())?;
    Ok(id)
}

/// The product of the square of this number with itself.
fn next_square(alloc: Global, number: u32) -> Result<SortTerm, Memory> {
    let mut parts = Vec::new(alloc);
    parts.push(SortTerm::Named(square_id(alloc, number)?))?;
    parts.push(SortTerm::Named(square_id(alloc, number)?))?;
    Ok(SortTerm::Product(Items::from_vec(parts)))
}

/// `B0`, the product of dot alone, and so many more: each the product of the one before with itself.
fn squares(alloc: Global, more: u32) -> Result<Vec<NamedSort>, Memory> {
    let mut sorts = Vec::new(alloc);
    let first = wrapped(alloc, SortTerm::Dot)?;
    sorts.push(NamedSort {
        id: square_id(alloc, 0)?,
        sort: first,
    })?;
    for number in 0..more {
        let sort = next_square(alloc, number)?;
        sorts.push(NamedSort {
            id: square_id(alloc, number + 1)?,
            sort,
        })?;
    }
    Ok(sorts)
}

#[test]
fn the_eleventh_square_of_a_product_of_dot_alone_passes_the_limit(
    rt: HostRuntime,
) -> Result<(), Fail> {
    let sorts = squares(rt.alloc(), 20)?;
    let built = Built::new(rt.alloc(), sorts.as_slice(), &[]);
    assert!(rt; is_refused(&built, b"B11", b"domain-limit"));
    Ok(())
}

/// The size of one of these named sorts.
fn size_among(alloc: Global, sorts: &[NamedSort], id: u32) -> Result<u32, ResolveFault> {
    match named(alloc, id) {
        Ok(sort) => size_in(alloc, sorts, &sort),
        Err(_) => Err(ResolveFault::Memory),
    }
}

#[test]
fn the_last_square_within_the_limit(rt: HostRuntime) -> Result<(), Fail> {
    let sorts = powers(rt.alloc(), b"0/1", 4, 2)?;
    assert!(rt; matches!(size_among(rt.alloc(), sorts.as_slice(), 4), Ok(65_536)));
    Ok(())
}

/// A chain of names that leads to a range of five numbers: each names the next, or the one before.
fn chain(alloc: Global, links: u32, forward: bool) -> Result<Vec<NamedSort>, Memory> {
    let mut sorts = Vec::new(alloc);
    for at in 0..links {
        let (id, next) = if forward { (at, at + 1) } else { (at + 1, at) };
        sorts.push(declared(alloc, id, named(alloc, next)?)?)?;
    }
    let end = if forward { links } else { 0 };
    sorts.push(declared(alloc, end, sort(alloc, b"1/5")?)?)?;
    Ok(sorts)
}

fn chain_size(alloc: Global, links: u32, forward: bool, id: u32) -> Result<u32, ResolveFault> {
    match chain(alloc, links, forward) {
        Ok(sorts) => size_among(alloc, sorts.as_slice(), id),
        Err(_) => Err(ResolveFault::Memory),
    }
}

#[test]
fn chains_of_names(rt: HostRuntime) {
    assert!(rt; matches!(chain_size(rt.alloc(), 9_000, true, 0), Ok(5)));
    assert!(rt; matches!(chain_size(rt.alloc(), 9_000, false, 9_000), Ok(5)));
}

/// The product of the named sorts below an id.
fn all_below(alloc: Global, id: u32) -> Result<SortTerm, Memory> {
    let mut parts = Vec::new(alloc);
    for at in 0..id {
        parts.push(named(alloc, at)?)?;
    }
    Ok(SortTerm::Product(Items::from_vec(parts)))
}

/// A product of so many sorts, each of which is declared behind it and is dot.
fn ahead(alloc: Global, count: u32) -> Result<Vec<NamedSort>, Memory> {
    let mut sorts = Vec::new(alloc);
    sorts.push(declared(alloc, count, all_below(alloc, count)?)?)?;
    for at in 0..count {
        sorts.push(declared(alloc, at, SortTerm::Dot)?)?;
    }
    Ok(sorts)
}

#[test]
fn components_that_are_declared_behind(rt: HostRuntime) -> Result<(), Fail> {
    let sorts = ahead(rt.alloc(), 4_095)?;
    assert!(rt; matches!(size_among(rt.alloc(), sorts.as_slice(), 4_095), Ok(1)));
    Ok(())
}
