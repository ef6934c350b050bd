ghost use Rattle.std.specs.Prelude.{◌≡◌, IfOk, map};
ghost use Rattle.colour_sorts.specs.Comparing.{all_same, is_same_sort};

use crate::sorts::Sort;
use sqlite_items::Items;
use std::alloc::Global;
use wide_sums::Memory;

/// Another sort of the same value.
#[cycle(copying)]
pub fn copy_sort(alloc: Global, sort: &Sort) -> Result<Sort, Memory>
    ensures { IfOk result (λ copy. copy ≡ sort.now) }
{
    match sort {
        Sort::Dot => Ok(Sort::Dot),
        Sort::Listed(at) => Ok(Sort::Listed(*at)),
        Sort::Cyclic(at) => Ok(Sort::Cyclic(*at)),
        Sort::Range(span) => Ok(Sort::Range(*span)),
        Sort::Product(parts) => match copy_parts(alloc, parts.as_slice()) {
            Ok(copies) => Ok(Sort::Product(copies)),
            Err(memory) => Err(memory),
        },
    }
}

#[cycle(copying)]
fn copy_parts(alloc: Global, parts: &[Sort]) -> Result<Items<Sort>, Memory>
    ensures { IfOk result (λ copies. copies ≡ parts.now) }
{
    let mut copies = Vec::with_capacity(alloc, parts.len())?;
    for part in parts {
        copies.push(copy_sort(alloc, part)?)?;
    }
    Ok(Items::from_vec(copies))
}

/// Whether two sorts are the same. It takes no memory.
#[cycle(comparing)]
pub fn same_sort(first: &Sort, second: &Sort) -> bool
    ensures { result ≡ is_same_sort first.now second.now }
{
    match first {
        Sort::Dot => match second {
            Sort::Dot => true,
            _ => false,
        },
        Sort::Listed(at) => match second {
            Sort::Listed(other) => *at == *other,
            _ => false,
        },
        Sort::Cyclic(at) => match second {
            Sort::Cyclic(other) => *at == *other,
            _ => false,
        },
        Sort::Range(span) => match second {
            Sort::Range(other) => span.first == other.first && span.last == other.last,
            _ => false,
        },
        Sort::Product(parts) => match second {
            Sort::Product(others) => same_sorts(parts.as_slice(), others.as_slice()),
            _ => false,
        },
    }
}

#[cycle(comparing)]
fn same_sorts(first: &[Sort], second: &[Sort]) -> bool
    ensures { result ≡ all_same (map is_same_sort first.now) second.now }
{
    if first.len() != second.len() {
        return false;
    }
    for (at, part) in first.iter().enumerate() {
        if !same_sort(part, &second[at]) {
            return false;
        }
    }
    true
}
