ghost use Rattle.std.specs.Prelude.{◌≡◌, ◌<◌, ◌^◌, true, false};
ghost use Rattle.multiset_terms.specs.Context.{Context};
ghost use Rattle.multiset_terms.specs.Parts.{IsScope};
ghost use Rattle.multiset_terms.specs.Usable.{IsUsable};
ghost use Rattle.net_model.specs.declared.nets.Label.TheVariants as label;
ghost use Rattle.net_typing.specs.Standing.{IsInscribedAnswer, IsNumberAnswer};

use crate::faults::Unfit;
use crate::scope::Scope;
use colour_sorts::{Rule, Sort};
use multiset_terms::{CTerm, TermFault, compile_over};
use net_model::{Label, Term};
use std::alloc::Global;

/// A marking of a place, or what an arc moves.
#[derive(Debug, Drop)]
pub enum Inscribed {
    /// So many dots, at most 2^63 - 1; of a place with other colours than the dot, none.
    Dots(u64),
    /// The multiset of a term that is no block.
    Term(CTerm),
}

/// A number of dots over a sort: the sort has to be that of the dot, and the number at most 2^63 - 1.
fn dots(sort: &Sort, number: u64) -> Result<Inscribed, Unfit>
    ensures { IsNumberAnswer sort.now number result }
{
    let Sort::Dot = sort else {
        return Err(Unfit::Broken(Rule::SortsDiffer));
    };
    if number > 0x7fff_ffff_ffff_ffff {
        return Err(Unfit::Heavy);
    }
    Ok(Inscribed::Dots(number))
}

/// A term over a sort.
fn term_over(
    alloc: Global,
    scope: &Scope,
    marking: bool,
    sort: &Sort,
    term: &Term,
) -> Result<Inscribed, Unfit>
    requires { IsUsable scope.now.domains scope.now.variables }
    ensures { (ctx : Context) → IsScope ctx scope.now.domains scope.now.variables → IsInscribedAnswer ctx marking 0 sort.now (label.Multiset term.now) result }
{
    match compile_over(alloc, &scope.domains, &scope.variables, marking, sort, term) {
        Ok(compiled) => Ok(Inscribed::Term(compiled)),
        Err(TermFault::IllTyped { rule, .. }) => Err(Unfit::Broken(rule)),
        Err(TermFault::Weight { .. }) => Err(Unfit::Heavy),
        Err(TermFault::Memory) => Err(Unfit::Memory),
    }
}

impl Inscribed {
    /// The marking of a place over its sort, or the first rule that it breaks. Where there is none, there is nothing at the start.
    pub fn marking(
        alloc: Global,
        scope: &Scope,
        sort: &Sort,
        label: &Label,
    ) -> Result<Inscribed, Unfit>
        requires { IsUsable scope.now.domains scope.now.variables }
        ensures { (ctx : Context) → IsScope ctx scope.now.domains scope.now.variables → IsInscribedAnswer ctx true 0 sort.now label.now result }
    {
        match label {
            Label::Absent => Ok(Inscribed::Dots(0)),
            Label::Count(number) => dots(sort, *number),
            Label::Multiset(term) => term_over(alloc, scope, true, sort, term),
        }
    }

    /// What an arc moves over the sort of its place, or the first rule that it breaks. Where nothing is written, it is one dot.
    pub fn inscription(
        alloc: Global,
        scope: &Scope,
        sort: &Sort,
        label: &Label,
    ) -> Result<Inscribed, Unfit>
        requires { IsUsable scope.now.domains scope.now.variables }
        ensures { (ctx : Context) → IsScope ctx scope.now.domains scope.now.variables → IsInscribedAnswer ctx false 1 sort.now label.now result }
    {
        match label {
            Label::Absent => Ok(Inscribed::Dots(1)),
            Label::Count(number) => dots(sort, *number),
            Label::Multiset(term) => term_over(alloc, scope, false, sort, term),
        }
    }
}
