ghost use Rattle.std.specs.Prelude.{◌≡◌, ◌<◌, ◌-◌, ◌^◌, [], length, slice_get, Some, IfOk, OnErr};
ghost use Rattle.std.specs.Bool.{OnTrue};
ghost use Rattle.name_tables.specs.Numbering.{IsAdded, number_in};
ghost use Rattle.plain_model.specs.Plain.{AreDistinct};

use indexmap::IndexSet;
use name_tables::Added;
use std::alloc::Global;
use std::marker::Model;
use wide_sums::Memory;

/// Distinct names, numbered from 0 in the order in which they came. They are borrowed and not
/// copied. Contracts see the list of the names.
#[derive(Drop)]
pub struct Numbers<'a> {
    set: IndexSet<&'a [u8]>,
}

impl<'a> Model for Numbers<'a> {
    ghost use Rattle.std.specs.Prelude.{ℕ, ◌<◌, ◌^◌, List, length, map};

    ghost Value = { List (List ℕ) };

    ghost view = { λ numbers. map (λ name. name.now) numbers.set.keys };

    ghost invariant = { λ numbers. length numbers.set.keys < 2 ^ 32 };
}

impl<'a> Numbers<'a> {
    /// No names, with room for so many.
    pub fn with_capacity(alloc: Global, count: usize) -> Result<Numbers<'a>, Memory>
        ensures { IfOk result (λ numbers. numbers ≡ []) }
    {
        Ok(Numbers {
            set: IndexSet::with_capacity(alloc, count)?,
        })
    }

    /// Adds a name, or finds the number that it has. After an error the names are as before.
    pub fn add(&mut self, name: &'a [u8]) -> Result<Added, Memory>
        requires { length self.old < 2 ^ 32 - 1 }
        ensures added { IfOk result (λ added. IsAdded self.old name.now added self.new) }
        ensures err { OnErr result (self.new ≡ self.old) }
    {
        let (at, is_new) = self.set.insert_full(name)?;
        let number = at as u32;
        if is_new {
            return Ok(Added::New(number));
        }
        Ok(Added::Old(number))
    }

    /// The number of a name, or `None` where it is not there.
    pub fn find(&self, name: &[u8]) -> Option<u32>
        ensures { result ≡ number_in self.now name.now }
    {
        match self.set.get_index_of(name) {
            Some(at) => Some(at as u32),
            None => None,
        }
    }

    /// The number of a name, or `None` where it is not there. The name is looked for at `guess`
    /// first, which is quick where names are asked for in the order of their numbers.
    pub fn find_near(&self, name: &[u8], guess: u32) -> Option<u32>
        requires { AreDistinct self.now }
        ensures { result ≡ number_in self.now name.now }
    {
        if self.is_at(name, guess) {
            return Some(guess);
        }
        self.find(name)
    }

    /// Whether the name has this number.
    fn is_at(&self, name: &[u8], number: u32) -> bool
        ensures { OnTrue result (slice_get self.now number ≡ Some name.now) }
    {
        match self.set.get_index(number as usize) {
            Some(there) => *there == name,
            None => false,
        }
    }

    /// How many names there are.
    pub fn count(&self) -> u32
        ensures { result ≡ length self.now }
    {
        self.set.len() as u32
    }
}
