ghost use Rattle.std.specs.Prelude.{◌≡◌, ℕ, ◌+◌, ◌<◌, ◌≤◌, ◌++◌, ◌∷◌, [], length, replicate, true, false, IfOk, MatchBool, ⊤};
ghost use Rattle.colour_sorts.specs.Knowing.{HasUnknown, IsKnowing, is_declared};
ghost use Rattle.net_model.specs.Ids.{ids_of};
ghost use Rattle.colour_sorts.specs.Naming.{is_known, names_pass, term_at};
ghost use Rattle.colour_sorts.specs.Searching.{place_in_turn, steps_of_all};
ghost use Rattle.colour_sorts.specs.declared.ordering.Visit.TheVariants.{Fresh};
ghost use Rattle.net_model.specs.declared.sorts.SortTerm.TheVariants as terms;

use crate::ordering::{Turn, Visit, no_visits, push_names};
use name_tables::Ids;
use net_model::{NamedSort, SortTerm};
use std::alloc::Global;
use wide_sums::Memory;

/// Whether each name in a term is declared.
#[cycle(knowing)]
fn are_declared(term: &SortTerm, ids: &Ids) -> bool
    ensures { MatchBool result (names_pass (is_declared ids.now) term.now ≡ true) (HasUnknown ids.now term.now) }
{
    match term {
        SortTerm::Dot => true,
        SortTerm::Named(name) => match ids.find(name.bytes()) {
            Some(_) => true,
            None => false,
        },
        SortTerm::Product(parts) => parts_declared(parts.as_slice(), ids),
        SortTerm::Range(_) => true,
        SortTerm::Listed(_) => true,
        SortTerm::Cyclic(_) => true,
    }
}

#[cycle(knowing)]
fn parts_declared(parts: &[SortTerm], ids: &Ids) -> bool
    ensures { MatchBool result (names_pass (is_declared ids.now) (terms.Product parts.now) ≡ true) (HasUnknown ids.now (terms.Product parts.now)) }
{
    for part in parts {
        if !are_declared(part, ids) {
            return false;
        }
    }
    true
}

/// Looks at a named sort, unless it was seen: what it names waits. False where it has a name that
/// isn't declared.
fn look_at(
    sorts: &[NamedSort],
    ids: &Ids,
    visits: &mut [Visit],
    waiting: &mut Vec<Turn>,
    turn: Turn,
) -> Result<bool, Memory>
    requires ids { ids.now ≡ ids_of sorts.now }
    requires long { length visits.old ≡ length sorts.now }
    requires within { place_in_turn turn < length sorts.now }
    ensures search { (root : ℕ) → root < length sorts.now → IsKnowing sorts.now visits.old (waiting.old.items ++ turn ∷ []) root
        → IfOk result (λ known. MatchBool known (IsKnowing sorts.now visits.new waiting.new.items root) (is_known sorts.now (term_at sorts.now root) ≡ false)) }
    ensures less { IfOk result (λ known. MatchBool known
        (steps_of_all ids.now sorts.now visits.new + length waiting.new.items ≤ steps_of_all ids.now sorts.now visits.old + length waiting.old.items) ⊤) }
{
    let at = turn.place();
    let visit = visits[at as usize];
    match visit {
        Visit::Fresh => {
            visits[at as usize] = Visit::Open;
            let sort = &sorts[at as usize].sort;
            if !are_declared(sort, ids) {
                return Ok(false);
            }
            push_names(sort, ids, waiting)?;
            Ok(true)
        }
        _ => Ok(true),
    }
}

/// Whether every name is declared that a named sort leads to, where nothing was seen.
fn search_from(
    alloc: Global,
    sorts: &[NamedSort],
    ids: &Ids,
    visits: &mut [Visit],
    root: u32,
) -> Result<bool, Memory>
    requires ids { ids.now ≡ ids_of sorts.now }
    requires visits { visits.old ≡ replicate (length sorts.now) Fresh }
    requires within { root < length sorts.now }
    ensures { IfOk result (λ known. known ≡ is_known sorts.now (term_at sorts.now root)) }
{
    let mut waiting = Vec::new(alloc);
    waiting.push(Turn::Enter(root))?;
    while let Some(turn) = waiting.pop() {
        if !look_at(sorts, ids, visits, &mut waiting, turn)? {
            return Ok(false);
        }
    }
    Ok(true)
}

/// Whether every name is declared that a named sort leads to. It looks at each named sort once.
pub(crate) fn leads_to_known(
    alloc: Global,
    sorts: &[NamedSort],
    ids: &Ids,
    at: u32,
) -> Result<bool, Memory>
    requires ids { ids.now ≡ ids_of sorts.now }
    requires within { at < length sorts.now }
    ensures { IfOk result (λ known. known ≡ is_known sorts.now (term_at sorts.now at)) }
{
    let mut visits = no_visits(alloc, sorts.len())?;
    let known = search_from(alloc, sorts, ids, visits.as_mut_slice(), at)?;
    Ok(known)
}
