ghost use Rattle.std.specs.Prelude.{◌≡◌, ℕ, List, true, length, IfOk, IfErr};
ghost use Rattle.colour_sorts.specs.Colours.{constants_at};
ghost use Rattle.colour_sorts.specs.Judging.{AreCapped, AreMarksCapped, IsFacts, IsJudgedBy, IsWaiting};
ghost use Rattle.colour_sorts.specs.declared.sorts.Sort.TheVariants as variants;
ghost use Rattle.net_model.specs.declared.sorts.SortTerm.TheVariants as terms;

use crate::facts::{Facts, Mark};
use name_tables::Ids;
use net_model::{SortTerm, Span};

/// The facts of a range.
pub(crate) fn range_facts(span: Span) -> Facts
    ensures known { result.is_known ≡ true }
    ensures facts { (constants : List (List (List ℕ))) → IsFacts constants (variants.Range span) result }
    ensures capped { AreCapped result }
{
    if span.last < span.first {
        let empty = Facts::leaf(0);
        return Facts {
            is_upside_down: true,
            ..empty
        };
    }
    Facts::leaf(span.last.abs_diff(span.first).min(1_048_576) + 1)
}

/// The facts of an enumeration of so many constants.
pub(crate) fn listed_facts(own: u64) -> Facts
    ensures known { result.is_known ≡ true }
    ensures listed { (constants : List (List (List ℕ))) (at : ℕ) → own ≡ length (constants_at constants at) → IsFacts constants (variants.Listed at) result }
    ensures cyclic { (constants : List (List (List ℕ))) (at : ℕ) → own ≡ length (constants_at constants at) → IsFacts constants (variants.Cyclic at) result }
    ensures capped { AreCapped result }
{
    let listed = Facts::leaf(own.min(1_048_577));
    Facts {
        lacks_constants: own == 0,
        ..listed
    }
}

/// The facts of a name, or the position of the named sort that has to be done before.
fn named_facts(name: &[u8], ids: &Ids, marks: &[Mark]) -> Result<Facts, u32>
    requires marks { length marks.now ≡ length ids.now }
    requires capped { AreMarksCapped marks.now }
    ensures judged { (own : ℕ) → IfOk result (IsJudgedBy ids.now marks.now own (terms.Named name.now)) }
    ensures capped { IfOk result AreCapped }
    ensures waits { IfErr result (IsWaiting ids.now marks.now (terms.Named name.now)) }
{
    match ids.find(name) {
        None => {
            let dot = Facts::leaf(1);
            Ok(Facts {
                is_known: false,
                ..dot
            })
        }
        Some(at) => {
            let mark = marks[at as usize];
            match mark {
                Mark::Done(facts) => Ok(facts),
                _ => Err(at),
            }
        }
    }
}

/// The facts of a term of a named sort that declares so many constants, or the position of a named
/// sort that has to be done before.
#[cycle(judging)]
pub(crate) fn facts_of(term: &SortTerm, own: u64, ids: &Ids, marks: &[Mark]) -> Result<Facts, u32>
    requires marks { length marks.now ≡ length ids.now }
    requires capped { AreMarksCapped marks.now }
    ensures judged { IfOk result (IsJudgedBy ids.now marks.now own term.now) }
    ensures capped { IfOk result AreCapped }
    ensures waits { IfErr result (IsWaiting ids.now marks.now term.now) }
{
    match term {
        SortTerm::Dot => Ok(Facts::leaf(1)),
        SortTerm::Named(name) => named_facts(name.bytes(), ids, marks),
        SortTerm::Product(parts) => product_facts(parts.as_slice(), own, ids, marks),
        SortTerm::Range(span) => Ok(range_facts(*span)),
        SortTerm::Listed(_) => Ok(listed_facts(own)),
        SortTerm::Cyclic(_) => Ok(listed_facts(own)),
    }
}

#[cycle(judging)]
fn product_facts(parts: &[SortTerm], own: u64, ids: &Ids, marks: &[Mark]) -> Result<Facts, u32>
    requires marks { length marks.now ≡ length ids.now }
    requires capped { AreMarksCapped marks.now }
    ensures judged { IfOk result (IsJudgedBy ids.now marks.now own (terms.Product parts.now)) }
    ensures capped { IfOk result AreCapped }
    ensures waits { IfErr result (IsWaiting ids.now marks.now (terms.Product parts.now)) }
{
    let mut facts = Facts::no_product(parts.is_empty());
    for part in parts {
        match facts_of(part, own, ids, marks) {
            Ok(more) => facts = facts.with(&more),
            Err(at) => return Err(at),
        }
    }
    Ok(facts)
}
