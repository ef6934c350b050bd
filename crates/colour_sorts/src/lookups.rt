ghost use Rattle.std.specs.Prelude.{◌≡◌, ◌<◌, Some, length, slice_get};
ghost use Rattle.colour_sorts.specs.Calls.{blocks_at, declared_in, element_in, sort_at};
ghost use Rattle.colour_sorts.specs.Colours.{constants_at};
ghost use Rattle.colour_sorts.specs.Held.{IsEnumeration};
ghost use Rattle.colour_sorts.specs.Naming.{place_of};

use crate::domains::Domains;
use crate::sorts::{Declared, Sort};

/// Another value of an enumeration that the named sort at this position declares.
fn copy_enumeration(sort: &Sort, at: u32) -> Sort
    requires { IsEnumeration sort.now at }
    ensures { result ≡ sort.now }
{
    match sort {
        Sort::Cyclic(_) => Sort::Cyclic(at),
        _ => Sort::Listed(at),
    }
}

impl Domains {
    /// The element of a partition that an id declares.
    fn element(&self, id: &[u8]) -> Option<Declared>
        ensures { result ≡ element_in self.now id.now }
    {
        match self.elements.find(id) {
            Some(spot) => Some(Declared::Block {
                partition: spot.group,
                block: spot.place,
            }),
            None => None,
        }
    }

    /// The enumeration that the named sort at this position declares.
    fn enumeration(&self, at: u32) -> Sort
        requires { 0 < length (constants_at self.now.constants at) }
        ensures { result ≡ sort_at self.now.sorts at }
    {
        match self.sorts.get(at) {
            Some(sort) => copy_enumeration(sort, at),
            None => Sort::Listed(at),
        }
    }

    /// What an id declares: a constant of an enumeration, or an element of a partition. `None` where
    /// it is neither. It takes no memory.
    pub fn operator(&self, id: &[u8]) -> Option<Declared>
        ensures { result ≡ declared_in self.now id.now }
    {
        match self.constants.find(id) {
            Some(spot) => Some(Declared::Constant {
                sort: self.enumeration(spot.group),
                index: spot.place,
            }),
            None => self.element(id),
        }
    }

    /// The position of the named sort of this id, or `None` where no named sort has it. It takes no
    /// memory.
    pub fn named_sort(&self, id: &[u8]) -> Option<u32>
        ensures { result ≡ place_of self.now.ids id.now }
    {
        self.ids.find(id)
    }

    /// The sort that the named sort at this position stands for, its names followed. It takes no
    /// memory.
    pub fn sort(&self, at: u32) -> &Sort
        requires { at < length self.now.ids }
        ensures { result.now ≡ sort_at self.now.sorts at }
    {
        match self.sorts.get(at) {
            Some(sort) => sort,
            None => unreachable!(),
        }
    }

    /// The position of the partition of this id, or `None` where no partition has it. It takes no
    /// memory.
    pub fn partition(&self, id: &[u8]) -> Option<u32>
        ensures { result ≡ place_of self.now.partition_ids id.now }
    {
        self.partition_ids.find(id)
    }

    /// The sort of the partition at this position. It takes no memory.
    pub fn partition_sort(&self, partition: u32) -> &Sort
        requires { partition < length self.now.partition_ids }
        ensures { result.now ≡ sort_at self.now.partition_sorts partition }
    {
        &self.divisions.as_slice()[partition as usize].sort
    }

    /// The position of the block that has the colour with this number, in the partition at this
    /// position. It takes no memory.
    pub fn block_of(&self, partition: u32, index: u32) -> u32
        requires partition { partition < length self.now.partition_ids }
        requires index { index < length (blocks_at self.now partition) }
        ensures { slice_get (blocks_at self.now partition) index ≡ Some result }
    {
        self.divisions.as_slice()[partition as usize]
            .blocks
            .as_slice()[index as usize]
    }
}
