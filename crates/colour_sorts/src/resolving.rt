ghost use Rattle.std.specs.Prelude.{◌≡◌, List};
ghost use Rattle.colour_sorts.specs.Calls.{IsResolved};
ghost use Rattle.colour_sorts.specs.Domain.{StandsFor};
ghost use Rattle.colour_sorts.specs.Naming.{broken_rule};
ghost use Rattle.net_model.specs.declared.sorts.NamedSort.{NamedSort as Declaration};
ghost use Rattle.net_model.specs.declared.sorts.Partition.{Partition as Division};

use crate::compiling::compile;
use crate::domains::Domains;
use crate::judging::facts_of;
use crate::rules::{ResolveFault, Rule};
use crate::sorts::Sort;
use net_model::SortTerm;
use std::alloc::Global;

impl Domains {
    /// The first rule that a sort breaks.
    fn broken(&self, sort: &SortTerm) -> Option<Rule>
        ensures { (sorts : List Declaration) (partitions : List Division) → StandsFor self.now sorts partitions → result ≡ broken_rule sorts 0 sort.now }
    {
        let own = u64::from(self.constants.count(0));
        match facts_of(sort, own, &self.ids, self.marks.as_slice()) {
            Ok(facts) => {
                if facts.is_known {
                    facts.broken()
                } else {
                    Some(Rule::UnknownSort)
                }
            }
            Err(_) => unreachable!(),
        }
    }

    /// The sort that a written sort stands for, its names followed, or the first rule that it breaks.
    /// An enumeration stands only as the whole sort of a named sort, so none is met here.
    pub fn resolve(&self, alloc: Global, sort: &SortTerm) -> Result<Sort, ResolveFault>
        ensures resolved { (sorts : List Declaration) (partitions : List Division) → StandsFor self.now sorts partitions → IsResolved sorts sort.now result }
    {
        if let Some(rule) = self.broken(sort) {
            return Err(ResolveFault::Bad { rule });
        }
        match compile(alloc, sort, 0, &self.ids, &self.sorts) {
            Ok(Some(resolved)) => Ok(resolved),
            Ok(None) => unreachable!(),
            Err(_) => Err(ResolveFault::Memory),
        }
    }
}
