ghost use Rattle.std.specs.Prelude.{◌≡◌, ℕ, ◌<◌, ◌-◌, ◌^◌, List, [], length, IfOk, OnErr, Some, slice_get};

use crate::names::Name;
use indexmap::IndexSet;
use std::alloc::Global;
use std::marker::Model;
use wide_sums::Memory;

/// What adding a name to a set answers: the number of the name, and whether the name is new.
#[derive(Clone, Copy, Debug, PartialEq, Eq)]
pub enum Added {
    New(u32),
    Old(u32),
}

/// Distinct names, numbered from 0 in the order in which they came. Contracts see the list of the names.
#[derive(Debug, Drop)]
pub struct Ids {
    set: IndexSet<Name>,
}

impl Model for Ids {
    ghost use Rattle.std.specs.Prelude.{ℕ, ◌<◌, ◌^◌, List, length};

    ghost Value = { List (List ℕ) };

    ghost view = { λ ids. ids.set.keys };

    ghost invariant = { λ ids. length ids.set.keys < 2 ^ 32 };
}

impl Ids {
    ghost use Rattle.name_tables.specs.Numbering.{IsAdded, number_in};

    /// No names; this takes no memory.
    pub fn new(alloc: Global) -> Ids
        ensures { result ≡ [] }
    {
        Ids {
            set: IndexSet::new(alloc),
        }
    }

    /// Adds a name, or finds the number that it has. After an error the names are as before.
    pub fn add(&mut self, name: Name) -> Result<Added, Memory>
        requires { length self.old < 2 ^ 32 - 1 }
        ensures added { IfOk result (λ added. IsAdded self.old name added self.new) }
        ensures err { OnErr result (self.new ≡ self.old) }
    {
        let (at, is_new) = self.set.insert_full(name)?;
        let number = at as u32;
        if is_new {
            return Ok(Added::New(number));
        }
        Ok(Added::Old(number))
    }

    /// The number of a name, or `None` where it is not there.
    pub fn find(&self, name: &[u8]) -> Option<u32>
        ensures { result ≡ number_in self.now name.now }
    {
        match self.set.get_index_of(name) {
            Some(at) => Some(at as u32),
            None => None,
        }
    }

    /// The name of a number. Since the names are distinct, finding that name gives the number again.
    pub fn name(&self, at: u32) -> &[u8]
        requires { at < length self.now }
        ensures name { slice_get self.now at ≡ Some result.now }
        ensures distinct { number_in self.now result.now ≡ Some at }
    {
        self.set.as_slice()[at as usize].bytes()
    }

    /// How many names there are.
    pub fn count(&self) -> u32
        ensures { result ≡ length self.now }
    {
        self.set.len() as u32
    }
}
