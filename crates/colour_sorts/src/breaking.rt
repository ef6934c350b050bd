ghost use Rattle.std.specs.Prelude.{◌≡◌, ℕ, ◌<◌, false, length, replicate, IfOk, IfNone, IfSome, Some};
ghost use Rattle.std.specs.List.{IsDistinct};
ghost use Rattle.std.specs.Str.{bytes_eq};
ghost use Rattle.colour_sorts.specs.Domain.{fault_of, sort_fault_from};
ghost use Rattle.net_model.specs.Ids.{ids_of};
ghost use Rattle.colour_sorts.specs.Naming.{broken_rule, has_end, term_at};
ghost use Rattle.colour_sorts.specs.Searching.{IsOrder};
ghost use Rattle.colour_sorts.specs.Walking.{AreMarked, AreSound, IsDoneAt, IsMarkedAt};
ghost use Rattle.colour_sorts.specs.declared.facts.Mark.TheVariants.{Fresh};

use crate::facts::Mark;
use crate::knowing::leads_to_known;
use crate::rules::Rule;
use crate::walking::judge_in_order;
use name_tables::Ids;
use net_model::NamedSort;
use std::alloc::Global;
use wide_sums::Memory;

/// A named sort that breaks a rule.
#[derive(Clone, Copy, Debug, PartialEq, Eq)]
pub(crate) struct BrokenSort {
    pub(crate) at: u32,
    pub(crate) rule: Rule,
}

/// The first rule that a named sort breaks which is done.
fn rule_of_done(sorts: &[NamedSort], marks: &[Mark], at: u32) -> Option<Rule>
    requires distinct { IsDistinct bytes_eq (ids_of sorts.now) }
    requires marked { AreMarked sorts.now marks.now }
    requires done { IsDoneAt marks.now at }
    requires within { at < length sorts.now }
    ensures { result ≡ broken_rule sorts.now at (term_at sorts.now at) }
{
    let mark = marks[at as usize];
    match mark {
        Mark::Done(facts) => {
            if facts.is_known {
                facts.broken()
            } else {
                Some(Rule::UnknownSort)
            }
        }
        _ => unreachable!(),
    }
}

/// The first rule that a named sort breaks which leads into a circle.
fn rule_of_circle(alloc: Global, sorts: &[NamedSort], ids: &Ids, at: u32) -> Result<Rule, Memory>
    requires ids { ids.now ≡ ids_of sorts.now }
    requires within { at < length sorts.now }
    requires circle { has_end sorts.now (term_at sorts.now at) ≡ false }
    ensures { IfOk result (λ rule. Some rule ≡ broken_rule sorts.now at (term_at sorts.now at)) }
{
    if leads_to_known(alloc, sorts, ids, at)? {
        Ok(Rule::SortCircle)
    } else {
        Ok(Rule::UnknownSort)
    }
}

/// The first rule that a named sort breaks; where it breaks none, it is done.
fn rule_of(
    alloc: Global,
    sorts: &[NamedSort],
    ids: &Ids,
    marks: &[Mark],
    at: u32,
) -> Result<Option<Rule>, Memory>
    requires ids { ids.now ≡ ids_of sorts.now }
    requires distinct { IsDistinct bytes_eq ids.now }
    requires marked { AreMarked sorts.now marks.now }
    requires here { IsMarkedAt sorts.now marks.now at }
    requires within { at < length sorts.now }
    ensures rule { IfOk result (λ rule. rule ≡ broken_rule sorts.now at (term_at sorts.now at)) }
    ensures done { IfOk result (λ rule. IfNone rule (IsDoneAt marks.now at)) }
{
    let mark = marks[at as usize];
    match mark {
        Mark::Done(_) => Ok(rule_of_done(sorts, marks, at)),
        Mark::Fresh => {
            let rule = rule_of_circle(alloc, sorts, ids, at)?;
            Ok(Some(rule))
        }
    }
}

/// No named sort is done.
fn fresh_marks(alloc: Global, count: usize) -> Result<Vec<Mark>, Memory>
    ensures { IfOk result (λ marks. marks.items ≡ replicate count Fresh) }
{
    let marks = vec![in alloc; Mark::Fresh; count]?;
    Ok(marks)
}

/// What is kept of the named sorts, judged in this order.
pub(crate) fn judged_marks(
    alloc: Global,
    sorts: &[NamedSort],
    ids: &Ids,
    order: &[u32],
) -> Result<Vec<Mark>, Memory>
    requires ids { ids.now ≡ ids_of sorts.now }
    requires order { IsOrder sorts.now order.now }
    ensures marked { IfOk result (λ marks. AreMarked sorts.now marks.items) }
    ensures all { IfOk result (λ marks. (at : ℕ) → at < length sorts.now → IsMarkedAt sorts.now marks.items at) }
{
    let mut marks = fresh_marks(alloc, sorts.len())?;
    judge_in_order(sorts, ids, marks.as_mut_slice(), order);
    Ok(marks)
}

/// The first named sort that breaks a rule, where all were judged. Where there is none, all are done.
pub(crate) fn first_broken(
    alloc: Global,
    sorts: &[NamedSort],
    ids: &Ids,
    marks: &[Mark],
) -> Result<Option<BrokenSort>, Memory>
    requires ids { ids.now ≡ ids_of sorts.now }
    requires distinct { IsDistinct bytes_eq ids.now }
    requires marked { AreMarked sorts.now marks.now }
    requires all { (at : ℕ) → at < length sorts.now → IsMarkedAt sorts.now marks.now at }
    ensures broken { IfOk result (λ broken. fault_of sorts.now broken ≡ sort_fault_from sorts.now 0 sorts.now) }
    ensures within { IfOk result (λ broken. IfSome broken (λ b. b.at < length sorts.now)) }
    ensures sound { IfOk result (λ broken. IfNone broken (AreSound sorts.now marks.now (length sorts.now))) }
{
    for at in 0..ids.count() {
        if let Some(rule) = rule_of(alloc, sorts, ids, marks, at)? {
            return Ok(Some(BrokenSort { at, rule }));
        }
    }
    Ok(None)
}
