use colour_sorts::Sort;
use name_tables::Ids;
use sqlite_items::Items;
use std::marker::Model;

/// The declared variables: their ids, and the sort of each.
#[derive(Debug, Drop)]
pub struct Variables {
    ids: Ids,
    sorts: Items<Sort>,
}

impl Model for Variables {
    ghost use Rattle.std.specs.Prelude.{◌≡◌, length};
    ghost use Rattle.std.specs.Coded.{codes};
    ghost use Rattle.multiset_terms.specs.Context.{Declarations};
    ghost use Rattle.colour_sorts.specs.contracts.sorts.Sort as s;

    ghost Value = { Declarations };

    ghost coded = { Prim.hlevel (codes, s.the_row.coded) };

    ghost view = { λ v. record { ids = v.ids; sorts = v.sorts } };

    ghost invariant = { λ v. length v.ids ≡ length v.sorts };
}

impl Variables {
    ghost use Rattle.std.specs.Prelude.{◌≡◌, length};

    /// Variables of these ids and sorts, which are equally many.
    pub fn new(ids: Ids, sorts: Vec<Sort>) -> Variables
        requires { length ids ≡ length sorts.items }
        ensures ids { result.ids ≡ ids }
        ensures sorts { result.sorts ≡ sorts.items }
    {
        Variables {
            ids,
            sorts: Items::from_vec(sorts),
        }
    }

    /// The ids in the order of the variables.
    pub fn ids(&self) -> &Ids
        ensures { result.now ≡ self.now.ids }
    {
        &self.ids
    }

    /// The sort of each variable.
    pub fn sorts(&self) -> &[Sort]
        ensures sorts { result.now ≡ self.now.sorts }
        ensures length { length result.now ≡ length self.now.ids }
    {
        self.sorts.as_slice()
    }
}
