ghost use Rattle.std.specs.Prelude.{◌≡◌, ℕ, ◌<◌, ◌≤◌, ◌^◌, List, IfOk, length};
ghost use Rattle.colour_sorts.specs.Colours.{size as size_of};
ghost use Rattle.multiset_terms.specs.Context.{Context, Declarations};
ghost use Rattle.multiset_terms.specs.Parts.{IsDeclared, IsScope};
ghost use Rattle.net_typing.specs.Standing.{IsSharedWith, IsSortAnswer, shared};

use colour_sorts::{Domains, ResolveFault, Rule, Sort, SortTerm};
use std::alloc::Global;

/// The sort of a place. That of a named sort is shared, so that a large one isn't copied for each place.
#[derive(Debug, Drop)]
pub enum SharedSort {
    /// The sort of the named sort at this position.
    Named(u32),
    /// A sort of the place's own.
    Own(Sort),
}

impl SharedSort {
    /// The sort that a written one stands for, or the first rule that it breaks.
    pub fn of(
        alloc: Global,
        domains: &Domains,
        written: &SortTerm,
    ) -> Result<SharedSort, ResolveFault>
        requires { IsDeclared domains.now }
        ensures answer { (ctx : Context) (v : Declarations) → IsScope ctx domains.now v → IsSortAnswer ctx domains.now written.now result }
        ensures shared { IfOk result (IsSharedWith domains.now) }
    {
        match written {
            SortTerm::Named(id) => match domains.named_sort(id.bytes()) {
                Some(at) => Ok(SharedSort::Named(at)),
                None => Err(ResolveFault::Bad {
                    rule: Rule::UnknownSort,
                }),
            },
            _ => Ok(SharedSort::Own(domains.resolve(alloc, written)?)),
        }
    }

    /// The sort itself.
    pub fn get<'a>(&'a self, domains: &'a Domains) -> &'a Sort
        requires { IsSharedWith domains.now self.now }
        ensures { result.now ≡ shared domains.now self.now }
    {
        match self {
            SharedSort::Named(at) => domains.sort(*at),
            SharedSort::Own(sort) => sort,
        }
    }
}
