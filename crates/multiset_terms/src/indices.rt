ghost use Rattle.std.specs.Bool.{OnFalse, OnTrue};
ghost use Rattle.bindings.specs.Listed.{IsBinding};
ghost use Rattle.multiset_terms.specs.Usable.{IsUsable, sizes_of};

use crate::variables::Variables;
use colour_sorts::Domains;

/// Whether there is one colour index for each variable, below the number of colours of its sort. It takes no memory.
pub fn is_binding(domains: &Domains, variables: &Variables, indices: &[u32]) -> bool
    requires { IsUsable domains.now variables.now }
    ensures yes { OnTrue result (IsBinding (sizes_of domains.now variables.now) indices.now) }
    ensures no { OnFalse result (IsBinding (sizes_of domains.now variables.now) indices.now → ⊥) }
{
    let sorts = variables.sorts();
    if indices.len() != sorts.len() {
        return false;
    }
    for at in 0..sorts.len() {
        if indices[at] >= domains.size(&sorts[at]) {
            return false;
        }
    }
    true
}
