ghost use Rattle.std.specs.Prelude.{◌<◌, ◌≤◌, ◌^◌, IfOk, List, length};
ghost use Rattle.colour_sorts.specs.Calls.{blocks_at, sort_at};
ghost use Rattle.colour_sorts.specs.Colours.{size};
ghost use Rattle.net_model.specs.Ids.{AreDistinct};
ghost use Rattle.colour_sorts.specs.Domain.{StandsFor};

use crate::apart::are_apart;
use crate::written::{partitions, sorts};
use colour_sorts::{
    Colour, Declared, Domains, NamedSort, Partition, ResolveFault, Sort, SortFault, SortTerm,
};
use std::alloc::Global;
use std::marker::Model;
use wide_sums::Memory;

/// Why declarations aren't built.
#[derive(Debug, Drop)]
pub enum BuildFault {
    /// Two ids or constants are the same.
    NotApart,
    /// They break a rule.
    Sorts(SortFault),
    /// Want of memory.
    Memory,
}

/// Builds sorts and partitions whose ids and constants differ.
pub fn build(
    alloc: Global,
    sorts: &[NamedSort],
    partitions: &[Partition],
) -> Result<Domains, BuildFault>
    ensures { IfOk result (λ domains. StandsFor domains sorts.now partitions.now × AreDistinct sorts.now partitions.now) }
{
    match are_apart(alloc, sorts, partitions) {
        Ok(true) => match Domains::build(alloc, sorts, partitions) {
            Ok(domains) => Ok(domains),
            Err(fault) => Err(BuildFault::Sorts(fault)),
        },
        Ok(false) => Err(BuildFault::NotApart),
        Err(_) => Err(BuildFault::Memory),
    }
}

/// Declarations that were built, with calls that resolve sorts by themselves.
#[derive(Debug, Drop)]
pub struct Built {
    domains: Domains,
}

impl Model for Built {
    ghost use Rattle.std.specs.Prelude.{List};
    ghost use Rattle.std.specs.Coded.{codes};
    ghost use Rattle.colour_sorts.specs.Domain.{Domain, StandsFor};
    ghost use Rattle.colour_sorts.specs.contracts.sorts.Sort as s;
    ghost use Rattle.net_model.specs.declared.sorts.NamedSort.{NamedSort};
    ghost use Rattle.net_model.specs.declared.sorts.Partition.{Partition};

    ghost Value = { Domain };

    ghost coded = { Prim.hlevel (codes, s.the_row.coded) };

    ghost view = { λ b. b.domains };

    ghost invariant = { λ b. (sorts : List NamedSort) × (partitions : List Partition) × StandsFor b.domains sorts partitions };
}

impl Built {
    /// Builds declarations whose ids and constants differ.
    pub fn new(
        alloc: Global,
        sorts: &[NamedSort],
        partitions: &[Partition],
    ) -> Result<Built, BuildFault> {
        match build(alloc, sorts, partitions) {
            Ok(domains) => Ok(Built { domains }),
            Err(fault) => Err(fault),
        }
    }

    /// Builds declarations that are written as text.
    pub fn written(alloc: Global, text: &[u8]) -> Result<Built, BuildFault> {
        let Ok(sorts) = sorts(alloc, text) else {
            return Err(BuildFault::Memory);
        };
        let Ok(partitions) = partitions(alloc, text) else {
            return Err(BuildFault::Memory);
        };
        Built::new(alloc, sorts.as_slice(), partitions.as_slice())
    }

    /// The sort that a written one stands for.
    pub fn resolve(&self, alloc: Global, sort: &SortTerm) -> Result<Sort, ResolveFault>
        ensures some { IfOk result (λ sort. 0 < size self.now.constants sort) }
        ensures limit { IfOk result (λ sort. size self.now.constants sort ≤ 2 ^ 20) }
    {
        self.domains.resolve(alloc, sort)
    }

    /// How many colours a sort has.
    pub fn size(&self, alloc: Global, sort: &SortTerm) -> Result<u32, ResolveFault> {
        let sort = self.resolve(alloc, sort)?;
        Ok(self.domains.size(&sort))
    }

    /// The number of a colour of a sort.
    pub fn index_of(
        &self,
        alloc: Global,
        sort: &SortTerm,
        colour: &Colour,
    ) -> Result<Option<u32>, ResolveFault> {
        let sort = self.resolve(alloc, sort)?;
        Ok(self.domains.index_of(&sort, colour))
    }

    /// The colour of a sort with a number, `None` where there is none.
    pub fn colour_at(
        &self,
        alloc: Global,
        sort: &SortTerm,
        index: u32,
    ) -> Result<Option<Colour>, ResolveFault> {
        let sort = self.resolve(alloc, sort)?;
        if index >= self.domains.size(&sort) {
            return Ok(None);
        }
        match self.domains.colour_at(alloc, &sort, index) {
            Ok(colour) => Ok(Some(colour)),
            Err(_) => Err(ResolveFault::Memory),
        }
    }

    /// The numbers of the colours before and after one, `None` where the sort goes round in no cycle or has no
    /// such colour.
    pub fn around(
        &self,
        alloc: Global,
        sort: &SortTerm,
        index: u32,
    ) -> Result<Option<(u32, u32)>, ResolveFault> {
        let sort = self.resolve(alloc, sort)?;
        if index >= self.domains.size(&sort) {
            return Ok(None);
        }
        match &sort {
            Sort::Cyclic(_) => Ok(Some((
                self.domains.before_in_cycle(&sort, index),
                self.domains.next_in_cycle(&sort, index),
            ))),
            _ => Ok(None),
        }
    }

    /// What an id declares.
    pub fn operator(&self, id: &[u8]) -> Option<Declared> {
        self.domains.operator(id)
    }

    /// The block of a partition that has a colour, `None` where there is no such partition or colour.
    pub fn block_of(&self, partition: &[u8], index: u32) -> Option<u32> {
        let at = self.domains.partition(partition)?;
        let sort = self.domains.partition_sort(at);
        if index < self.domains.size(sort) {
            Some(self.domains.block_of(at, index))
        } else {
            None
        }
    }
}
