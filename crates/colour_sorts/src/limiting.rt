ghost use Rattle.std.specs.Prelude.{◌≡◌, ℕ, List, length};
ghost use Rattle.colour_sorts.specs.Colours.{constants_at};
ghost use Rattle.colour_sorts.specs.Judging.{AreCapped, IsFacts};
ghost use Rattle.colour_sorts.specs.Limits.{passes_limit as is_past_limit};
ghost use Rattle.colour_sorts.specs.declared.sorts.Sort.{Sort as Carrier};
ghost use Rattle.colour_sorts.specs.declared.sorts.Sort.TheVariants as variants;

use crate::domains::Domains;
use crate::facts::Facts;
use crate::judging::{listed_facts, range_facts};
use crate::sorts::Sort;

impl Domains {
    /// The facts of a sort.
    #[cycle(measuring)]
    fn facts(&self, sort: &Sort) -> Facts
        ensures facts { IsFacts self.now.constants sort.now result }
        ensures capped { AreCapped result }
    {
        match sort {
            Sort::Dot => Facts::leaf(1),
            Sort::Listed(at) => listed_facts(u64::from(self.constants.count(*at))),
            Sort::Cyclic(at) => listed_facts(u64::from(self.constants.count(*at))),
            Sort::Range(span) => range_facts(*span),
            Sort::Product(parts) => self.product_of(parts.as_slice()),
        }
    }

    #[cycle(measuring)]
    fn product_of(&self, parts: &[Sort]) -> Facts
        ensures facts { IsFacts self.now.constants (variants.Product parts.now) result }
        ensures capped { AreCapped result }
    {
        let mut facts = Facts::no_product(parts.is_empty());
        for part in parts {
            facts = facts.with(&self.facts(part));
        }
        facts
    }

    /// Whether a sort passes the limits: more than 2^20 colours, more than 4,096 sorts in it, itself
    /// and each occurrence counted, or a depth above 256. It takes no memory and lists no colours.
    pub fn passes_limit(&self, sort: &Sort) -> bool
        ensures { result ≡ is_past_limit self.now.constants sort.now }
    {
        self.facts(sort).passes_limit()
    }
}
