ghost use Rattle.std.specs.Prelude.{◌≡◌, ◌++◌, IfOk, OnOk};
ghost use Rattle.reductions.specs.Merging.{key_of, numbers_of};

use std::alloc::Global;
use std::cmp::Ordering;
use std::marker::Model;
use wide_sums::{Cell, Memory};

// Two rows as one list of numbers, so that rows are equal where their keys are.
#[derive(Debug, Drop)]
pub(crate) struct Key {
    numbers: Vec<u64>,
}

impl Model for Key {
    ghost use Rattle.std.specs.Prelude.{ℕ, List};

    ghost Value = { List ℕ };

    ghost view = { λ k. k.numbers.items };
}

impl Key {
    // The key without numbers, which is that of no rows.
    pub(crate) fn new(alloc: Global) -> Key {
        Key {
            numbers: Vec::new(alloc),
        }
    }

    // Makes it the key of these two rows.
    pub(crate) fn set(&mut self, pre: &[Cell], post: &[Cell]) -> Result<(), Memory>
        ensures { OnOk result (self.new ≡ key_of pre.now post.now) }
    {
        self.numbers.clear();
        self.numbers.push(pre.len() as u64)?;
        put_row(&mut self.numbers, pre)?;
        put_row(&mut self.numbers, post)?;
        Ok(())
    }

    // A copy that has no more room than it needs.
    pub(crate) fn copy(&self, alloc: Global) -> Result<Key, Memory>
        ensures { IfOk result (λ key. key ≡ self.now) }
    {
        let numbers = Vec::from_slice(alloc, self.numbers())?;
        Ok(Key { numbers })
    }

    fn numbers(&self) -> &[u64]
        ensures { result.now ≡ self.now }
    {
        self.numbers.as_slice()
    }
}

// Puts the cells of a row behind the numbers.
fn put_row(numbers: &mut Vec<u64>, row: &[Cell]) -> Result<(), Memory>
    ensures { OnOk result (numbers.new.items ≡ numbers.old.items ++ numbers_of row.now) }
{
    for cell in row {
        numbers.push(u64::from(cell.at))?;
        numbers.push(cell.count)?;
    }
    Ok(())
}

impl PartialEq for Key {
    ghost use Rattle.std.specs.Str.{bytes_eq};
    ghost use Rattle.std.specs.Cmp.{partial_equiv_from_equiv};
    ghost use Rattle.std.proofs.lemmas.Cmp.{nat_list_eq_equiv};

    ghost eq = { bytes_eq };

    ghost laws = { partial_equiv_from_equiv nat_list_eq_equiv };

    fn eq(&self, other: &Key) -> bool {
        self.numbers() == other.numbers()
    }
}

impl Eq for Key {
    ghost use Rattle.std.proofs.lemmas.Cmp.{nat_list_eq_equiv};

    ghost laws = { nat_list_eq_equiv };
}

impl Ord for Key {
    ghost use Rattle.std.specs.Cmp.Lexicographic.{slice_cmp};
    ghost use Rattle.std.specs.Cmp.Rules.{comparing};
    ghost use Rattle.std.specs.Ordering.{nat_cmp};
    ghost use Rattle.std.proofs.Common.{rules};
    ghost use Rattle.std.proofs.lemmas.Cmp.{nat_list_cmp_total};

    ghost cmp = { slice_cmp nat_cmp };

    ghost total = { nat_list_cmp_total };

    ghost matches_partial_cmp = { Prim.search (comparing, rules) };

    ghost matches_eq = { Prim.search (comparing, rules) };

    fn cmp(&self, other: &Key) -> Ordering {
        self.numbers().cmp(other.numbers())
    }
}

impl PartialOrd for Key {
    ghost use Rattle.std.specs.Cmp.{partial_order_from_own_ties};
    ghost use Rattle.std.specs.Cmp.Lexicographic.{slice_cmp};
    ghost use Rattle.std.specs.Cmp.Rules.{comparing};
    ghost use Rattle.std.specs.Ordering.{as_partial_cmp, nat_cmp};
    ghost use Rattle.std.proofs.Common.{rules};

    ghost partial_cmp = { as_partial_cmp (slice_cmp nat_cmp) };

    ghost laws = { partial_order_from_own_ties (Prim.search (comparing, rules))
        (Prim.search (comparing, rules)) };

    fn partial_cmp(&self, other: &Key) -> Option<Ordering> {
        Some(self.cmp(other))
    }
}
