ghost use Rattle.std.specs.Prelude.{◌≡◌, ◌<◌, ◌≤◌, ◌^◌, IfOk};
ghost use Rattle.colour_sorts.specs.Colours.{size};
ghost use Rattle.colour_sorts.specs.Limits.{passes_limit as passes};
ghost use Rattle.net_model.specs.Ids.{constants_of};
ghost use Rattle.multiset_terms.specs.Context.{Context, Declarations};
ghost use Rattle.multiset_terms.specs.Parts.{IsDeclared, IsFound, IsScope};

use crate::faults::PartFault;
use colour_sorts::{Domains, ResolveFault, Sort, SortTerm};
use std::alloc::Global;

/// A sort that a written one stands for.
#[derive(Debug, Drop)]
pub struct Found {
    /// The sort.
    pub sort: Sort,
    /// How many colours it has.
    pub size: u32,
}

/// The sort that a written one stands for, or the first rule that it breaks.
pub fn resolved(alloc: Global, domains: &Domains, sort: &SortTerm) -> Result<Found, PartFault>
    requires { IsDeclared domains.now }
    ensures found { (ctx : Context) (v : Declarations) → IsScope ctx domains.now v → IsFound ctx sort.now result }
    ensures sized { IfOk result (λ found. (0 < size domains.now.constants found.sort) × (size domains.now.constants found.sort ≤ 2 ^ 20)) }
{
    match domains.resolve(alloc, sort) {
        Ok(found) => {
            let size = domains.size(&found);
            Ok(Found { sort: found, size })
        }
        Err(ResolveFault::Bad { rule }) => Err(PartFault::Broken { at: 0, rule }),
        Err(ResolveFault::Memory) => Err(PartFault::Memory),
    }
}

/// Whether a sort passes the limit.
pub fn passes_limit(domains: &Domains, sort: &Sort) -> bool
    ensures { (ctx : Context) (v : Declarations) → IsScope ctx domains.now v → result ≡ passes (constants_of ctx.sorts) sort.now }
{
    domains.passes_limit(sort)
}
