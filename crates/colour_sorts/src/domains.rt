use crate::facts::Mark;
use crate::groups::Groups;
use crate::sharing::SortTable;
use crate::sorts::Sort;
use name_tables::Ids;
use sqlite_items::Items;
use std::marker::Model;

/// The sort of a partition, and for each of its colours the position of the block that has it.
#[derive(Debug, Drop)]
pub(crate) struct Division {
    pub(crate) sort: Sort,
    pub(crate) blocks: Items<u32>,
}

/// The sorts and partitions that were declared, compiled for look-ups.
///
/// Contracts see the ids of the named sorts, the constants that each declares and the sorts that they
/// stand for; and of the partitions the ids, the ids of the elements, the sorts and the blocks.
#[derive(Debug, Drop)]
pub struct Domains {
    pub(crate) ids: Ids,
    pub(crate) constants: Groups,
    pub(crate) sorts: SortTable,
    pub(crate) marks: Items<Mark>,
    pub(crate) partition_ids: Ids,
    pub(crate) elements: Groups,
    pub(crate) divisions: Items<Division>,
}

impl Model for Domains {
    ghost use Rattle.std.specs.Prelude.{map, length, ◌≡◌, ◌<◌, ◌^◌};
    ghost use Rattle.std.specs.Coded.{codes};
    ghost use Rattle.colour_sorts.specs.Domain.{Domain};
    ghost use Rattle.colour_sorts.specs.Held.{AreHeld, blocks_of_division, sort_held, sort_of_division};
    ghost use Rattle.colour_sorts.specs.contracts.sorts.Sort as s;

    ghost Value = { Domain };

    ghost coded = { Prim.hlevel (codes, s.the_row.coded) };

    ghost view = { λ d. record {
      ids = d.ids;
      constants = d.constants;
      sorts = map sort_held d.sorts;
      partition_ids = d.partition_ids;
      elements = d.elements;
      partition_sorts = map sort_of_division d.divisions;
      blocks = map blocks_of_division d.divisions;
    } };

    ghost invariant = { λ d. AreHeld d.constants d.sorts d.marks × (length d.sorts ≡ length d.ids)
        × (length d.divisions ≡ length d.partition_ids) };
}
