ghost use Rattle.std.specs.Prelude.{◌≡◌, ◌<◌, None, Some, IfOk, OnOk, MatchOption, length, replicate, slice_get};
ghost use Rattle.std.proofs.Common.{set};
ghost use Rattle.colour_sorts.specs.declared.sorts.Sort.{Sort as Value};

use crate::sorts::Sort;
use sqlite_items::Items;
use std::alloc::Global;
use std::marker::Model;
use wide_sums::Memory;

/// The sorts of the named sorts, by their positions, as far as they are compiled. Each one stands
/// once, also where several named sorts stand for it by their names. Contracts see the list with a
/// sort or none for each named sort.
#[derive(Debug, Drop)]
pub(crate) struct SortTable {
    sorts: Items<Sort>,
    numbers: Items<Option<u32>>,
}

impl Model for SortTable {
    ghost use Rattle.std.specs.Prelude.{All, List, Option, map};
    ghost use Rattle.std.specs.Coded.{codes};
    ghost use Rattle.colour_sorts.specs.Held.{IsNumber, sort_numbered};
    ghost use Rattle.colour_sorts.specs.declared.sorts.Sort.{Sort};
    ghost use Rattle.colour_sorts.specs.contracts.sorts.Sort as s;

    ghost Value = { List (Option Sort) };

    ghost coded = { Prim.hlevel (codes, s.the_row.coded) };

    ghost view = { λ t. map (sort_numbered t.sorts) t.numbers };

    ghost invariant = { λ t. All (IsNumber t.sorts) t.numbers };
}

/// So many named sorts without numbers.
fn no_numbers(alloc: Global, count: u32) -> Result<Vec<Option<u32>>, Memory>
    ensures { IfOk result (λ numbers. numbers.items ≡ replicate count None) }
{
    let mut numbers = Vec::with_capacity(alloc, count as usize)?;
    for _at in 0..count {
        numbers.push(None)?;
    }
    Ok(numbers)
}

impl SortTable {
    /// So many named sorts that aren't compiled.
    pub(crate) fn new(alloc: Global, count: u32) -> Result<SortTable, Memory>
        ensures { IfOk result (λ table. table ≡ replicate count None) }
    {
        let numbers = no_numbers(alloc, count)?;
        Ok(SortTable {
            sorts: Items::new(alloc),
            numbers: Items::from_vec(numbers),
        })
    }

    /// The sort of the named sort at this position, if it is compiled.
    pub(crate) fn get(&self, at: u32) -> Option<&Sort>
        requires { at < length self.now }
        ensures { MatchOption result (slice_get self.now at ≡ Some None) (λ sort. slice_get self.now at ≡ Some (Some sort.now)) }
    {
        match self.numbers.as_slice()[at as usize] {
            Some(number) => Some(&self.sorts.as_slice()[number as usize]),
            None => None,
        }
    }

    /// Puts in the sort of the named sort at this position.
    pub(crate) fn put(&mut self, at: u32, sort: Sort) -> Result<(), Memory>
        requires { at < length self.old }
        ensures { OnOk result (self.new ≡ set self.old at (Some sort)) }
    {
        let number = match u32::try_from(self.sorts.len()) {
            Ok(number) => number,
            Err(_) => return Err(Memory),
        };
        self.sorts.push(sort)?;
        self.numbers.set(at as usize, Some(number));
        Ok(())
    }

    /// Lets the named sort at this position have the sort of another one, which is compiled.
    pub(crate) fn share(&mut self, at: u32, other: u32)
        requires at { at < length self.old }
        requires other { other < length self.old }
        ensures { (sort : Value) → slice_get self.old other ≡ Some (Some sort) → self.new ≡ set self.old at (Some sort) }
    {
        let number = self.numbers.as_slice()[other as usize];
        self.numbers.set(at as usize, number);
    }
}
