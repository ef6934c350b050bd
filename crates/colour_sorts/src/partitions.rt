ghost use Rattle.std.specs.Prelude.{◌≡◌, ℕ, ◌-◌, ◌<◌, ◌≤◌, ◌^◌, List, [], Some, None, length, IfErr, IfOk, MatchOption, MatchResult, map};
ghost use Rattle.std.specs.List.{IsDistinct};
ghost use Rattle.std.specs.Str.{bytes_eq};
ghost use Rattle.colour_sorts.specs.Calls.{AreDivided, IsRefused};
ghost use Rattle.colour_sorts.specs.Colours.{colours, size};
ghost use Rattle.colour_sorts.specs.Dividing.{block_with, broken_blocks, broken_partition};
ghost use Rattle.net_model.specs.Ids.{AreCounted, AreDistinct, element_ids, names_in};
ghost use Rattle.colour_sorts.specs.Domain.{StandsFor, blocks_of, first_fault, partition_sort_of, with_partitions};
ghost use Rattle.colour_sorts.specs.Held.{blocks_of_division, sort_of_division};
ghost use Rattle.net_model.specs.declared.sorts.NamedSort.{NamedSort as Declaration};
ghost use Rattle.net_model.specs.declared.sorts.Partition.{Partition as Written};

use crate::building::build_sorts;
use crate::domains::{Division, Domains};
use crate::groups::Groups;
use crate::rules::{ResolveFault, Rule, SortFault};
use crate::sorts::Sort;
use name_tables::{Ids, Name};
use net_model::{Block, NamedSort, Partition};
use sqlite_items::Items;
use std::alloc::Global;
use wide_sums::Memory;

/// The ids of the elements of a partition.
fn ids_of_elements(alloc: Global, elements: &[Block]) -> Result<Vec<Name>, Memory>
    ensures { IfOk result (λ ids. ids.items ≡ map (λ element. element.id) elements.now) }
{
    let mut ids = Vec::new(alloc);
    for element in elements {
        ids.push(element.id.copy(alloc)?)?;
    }
    Ok(ids)
}

/// The ids of partitions.
fn ids_of_partitions(alloc: Global, partitions: &[Partition]) -> Result<Ids, Memory>
    requires distinct { IsDistinct bytes_eq (map (λ p. p.id) partitions.now) }
    requires counted { length partitions.now < 2 ^ 32 - 1 }
    ensures { IfOk result (λ ids. ids ≡ map (λ p. p.id) partitions.now) }
{
    let mut ids = Ids::new(alloc);
    for partition in partitions {
        ids.add(partition.id.copy(alloc)?)?;
    }
    Ok(ids)
}

/// The ids of the elements of each partition.
fn elements_of_partitions(alloc: Global, partitions: &[Partition]) -> Result<Groups, Memory>
    requires distinct { IsDistinct bytes_eq (names_in (map element_ids partitions.now)) }
    requires counted { length (names_in (map element_ids partitions.now)) < 2 ^ 32 - 1 }
    requires partitions { length partitions.now < 2 ^ 32 - 1 }
    ensures { IfOk result (λ groups. groups ≡ map element_ids partitions.now) }
{
    let mut groups = Groups::new(alloc);
    for partition in partitions {
        let ids = ids_of_elements(alloc, partition.elements.as_slice())?;
        groups = groups.with(alloc, ids.as_slice())?;
    }
    Ok(groups)
}

/// The refusal of what has this id, for the rule.
fn refused(alloc: Global, id: &Name, rule: Rule) -> SortFault
    ensures { (sorts : List Declaration) (partitions : List Written) → first_fault sorts partitions ≡ Some (id.now, rule) → IsRefused sorts partitions result }
{
    match id.copy(alloc) {
        Ok(id) => SortFault::Bad { id, rule },
        Err(_) => SortFault::Memory,
    }
}

impl Domains {
    /// The sort and its blocks, or the first rule that the blocks break.
    fn division(
        &self,
        alloc: Global,
        sort: Sort,
        elements: &[Block],
    ) -> Result<Result<Division, Rule>, Memory>
        requires some { 0 < size self.now.constants sort }
        requires limit { size self.now.constants sort ≤ 2 ^ 20 }
        requires count { length elements.now < 2 ^ 32 }
        ensures { IfOk result (λ answer. MatchResult answer
            (λ division. (broken_blocks self.now.constants sort elements.now ≡ None) × (division.sort ≡ sort)
            × (division.blocks ≡ map (block_with elements.now) (colours self.now.constants sort)))
            (λ rule. broken_blocks self.now.constants sort elements.now ≡ Some rule)) }
    {
        match self.divide(alloc, &sort, elements) {
            Ok(Ok(blocks)) => Ok(Ok(Division {
                sort,
                blocks: Items::from_vec(blocks),
            })),
            Ok(Err(rule)) => Ok(Err(rule)),
            Err(_) => Err(Memory),
        }
    }

    /// The sort of a partition and its blocks, or the first rule that it breaks.
    fn divide_partition(
        &self,
        alloc: Global,
        partition: &Partition,
    ) -> Result<Result<Division, Rule>, Memory>
        requires stands { (sorts : List Declaration) × (partitions : List Written) × StandsFor self.now sorts partitions }
        requires count { length (element_ids partition.now) < 2 ^ 32 - 1 }
        ensures { (sorts : List Declaration) (partitions : List Written) → StandsFor self.now sorts partitions → IfOk result (λ answer. MatchResult answer
            (λ division. (broken_partition sorts partition.now ≡ None) × (division.sort ≡ partition_sort_of sorts partition.now) × (division.blocks ≡ blocks_of sorts partition.now))
            (λ rule. broken_partition sorts partition.now ≡ Some rule)) }
    {
        match self.resolve(alloc, &partition.sort) {
            Ok(sort) => self.division(alloc, sort, partition.elements.as_slice()),
            Err(ResolveFault::Bad { rule }) => Ok(Err(rule)),
            Err(ResolveFault::Memory) => Err(Memory),
        }
    }

    /// The sort and blocks of each partition, or the refusal of the first one that breaks a rule.
    fn divide_all(
        &self,
        alloc: Global,
        partitions: &[Partition],
    ) -> Result<Result<Vec<Division>, SortFault>, Memory>
        requires stands { (sorts : List Declaration) × StandsFor self.now sorts [] }
        requires count { length (names_in (map element_ids partitions.now)) < 2 ^ 32 - 1 }
        ensures { (sorts : List Declaration) → StandsFor self.now sorts [] → IfOk result (λ answer. MatchResult answer
            (λ divisions. AreDivided sorts partitions.now divisions.items)
            (IsRefused sorts partitions.now)) }
    {
        let mut divisions = Vec::new(alloc);
        for partition in partitions {
            match self.divide_partition(alloc, partition)? {
                Ok(division) => divisions.push(division)?,
                Err(rule) => return Ok(Err(refused(alloc, &partition.id, rule))),
            }
        }
        Ok(Ok(divisions))
    }

    /// Puts partitions in.
    fn put_partitions(&mut self, ids: Ids, elements: Groups, divisions: Vec<Division>)
        requires { length divisions.items ≡ length ids }
        ensures { self.new ≡ with_partitions self.old ids elements (map sort_of_division divisions.items) (map blocks_of_division divisions.items) }
    {
        self.partition_ids = ids;
        self.elements = elements;
        self.divisions = Items::from_vec(divisions);
    }

    /// Puts partitions in, unless one breaks a rule: then its refusal.
    fn add_partitions(
        &mut self,
        alloc: Global,
        partitions: &[Partition],
    ) -> Result<Option<SortFault>, Memory>
        requires stands { (sorts : List Declaration) × StandsFor self.old sorts [] }
        requires distinct { IsDistinct bytes_eq (map (λ p. p.id) partitions.now) }
        requires counted { length partitions.now < 2 ^ 32 - 1 }
        requires elements { IsDistinct bytes_eq (names_in (map element_ids partitions.now)) }
        requires all { length (names_in (map element_ids partitions.now)) < 2 ^ 32 - 1 }
        ensures { (sorts : List Declaration) → StandsFor self.old sorts [] → IfOk result (λ fault. MatchOption fault
            (StandsFor self.new sorts partitions.now)
            (IsRefused sorts partitions.now)) }
    {
        match self.divide_all(alloc, partitions)? {
            Ok(divisions) => {
                let ids = ids_of_partitions(alloc, partitions)?;
                let elements = elements_of_partitions(alloc, partitions)?;
                self.put_partitions(ids, elements, divisions);
                Ok(None)
            }
            Err(fault) => Ok(Some(fault)),
        }
    }

    /// Puts partitions in, unless they are refused: then why.
    fn complete(&mut self, alloc: Global, partitions: &[Partition]) -> Option<SortFault>
        requires stands { (sorts : List Declaration) × StandsFor self.old sorts [] }
        requires distinct { IsDistinct bytes_eq (map (λ p. p.id) partitions.now) }
        requires counted { length partitions.now < 2 ^ 32 - 1 }
        requires elements { IsDistinct bytes_eq (names_in (map element_ids partitions.now)) }
        requires all { length (names_in (map element_ids partitions.now)) < 2 ^ 32 - 1 }
        ensures { (sorts : List Declaration) → StandsFor self.old sorts [] → MatchOption result
            (StandsFor self.new sorts partitions.now)
            (IsRefused sorts partitions.now) }
    {
        match self.add_partitions(alloc, partitions) {
            Ok(fault) => fault,
            Err(_) => Some(SortFault::Memory),
        }
    }

    /// The declarations of these sorts and partitions. The ids of the sorts differ from each other,
    /// and so do all constants, the ids of the partitions, and the ids of all elements; of each there
    /// are fewer than 2^32 - 1. A refusal names the first sort, or else the first partition, that
    /// breaks a rule, and the first rule that it breaks.
    pub fn build(
        alloc: Global,
        sorts: &[NamedSort],
        partitions: &[Partition],
    ) -> Result<Domains, SortFault>
        requires distinct { AreDistinct sorts.now partitions.now }
        requires counted { AreCounted sorts.now partitions.now }
        ensures built { IfOk result (λ domains. StandsFor domains sorts.now partitions.now) }
        ensures refused { IfErr result (IsRefused sorts.now partitions.now) }
    {
        let mut domains = match build_sorts(alloc, sorts) {
            Ok(domains) => domains,
            Err(fault) => return Err(fault),
        };
        match domains.complete(alloc, partitions) {
            None => Ok(domains),
            Some(fault) => Err(fault),
        }
    }
}
