ghost use Rattle.std.specs.Prelude.{◌≡◌, Bool, IfOk, Ok, MatchOption, false};
ghost use Rattle.net_model.specs.declared.terms.Term.{Term as AnyTerm};
ghost use Rattle.multiset_terms.specs.Context.{Context};
ghost use Rattle.multiset_terms.specs.Parts.{AreSized, IsCompiledOver, IsDeclared, IsPart, IsScope};
ghost use Rattle.multiset_terms.specs.Typing.{IsOverRule, is_block as is_block_kind, over_kind, sort_of_kind};

use crate::compiled::CTerm;
use crate::compiling::{finished, part_of};
use crate::faults::{PartFault, TermFault};
use crate::kinds::{Kind, is_block, is_over};
use crate::parts::Part;
use crate::variables::Variables;
use colour_sorts::{Domains, Rule, Sort};
use net_model::Term;
use std::alloc::Global;

/// The rule that what has to be a multiset over a sort breaks.
fn rule_over(sort: &Sort, kind: &Kind) -> Option<Rule>
    ensures { IsOverRule (over_kind sort.now kind.now) kind.now result }
{
    if is_block(kind) {
        return Some(Rule::NotAMultiset);
    }
    if !is_over(sort, kind) {
        return Some(Rule::SortsDiffer);
    }
    None
}

/// The whole term of a part that has to stand over a sort: the term breaks a rule where it is a block or stands over another sort.
fn finished_over(sort: &Sort, part: Part) -> Result<CTerm, TermFault>
    ensures compiled { (ctx : Context) (marking : Bool) (t : AnyTerm) → IsPart ctx marking t part → IsCompiledOver ctx marking sort.now t result }
    ensures is { IfOk result (λ term. (term.block ≡ false) × (term.sort ≡ sort.now)) }
{
    if let Some(rule) = rule_over(sort, &part.kind) {
        return Err(TermFault::IllTyped { at: 0, rule });
    }
    finished(part)
}

/// Compiles a term that has to stand over a sort, as a marking and an inscription do: it is a colour of the sort or a multiset over it.
///
/// `IllTyped` comes as of `compile_term`, and also exactly where all nodes have types and the term is a block (`NotAMultiset`) or stands
/// over another sort (`SortsDiffer`): it then tells the term itself, whose number is 0. Only a term that breaks no rule is refused for
/// its `Weight`.
pub fn compile_over(
    alloc: Global,
    domains: &Domains,
    variables: &Variables,
    marking: bool,
    sort: &Sort,
    term: &Term,
) -> Result<CTerm, TermFault>
    requires declared { IsDeclared domains.now }
    requires sized { AreSized domains.now.constants variables.now.sorts }
    ensures compiled { (ctx : Context) → IsScope ctx domains.now variables.now → IsCompiledOver ctx marking sort.now term.now result }
    ensures is { IfOk result (λ made. (made.block ≡ false) × (made.sort ≡ sort.now)) }
{
    match part_of(alloc, domains, variables, marking, term) {
        Ok(part) => finished_over(sort, part),
        Err(PartFault::Broken { at, rule }) => Err(TermFault::IllTyped { at, rule }),
        Err(PartFault::Memory) => Err(TermFault::Memory),
    }
}
