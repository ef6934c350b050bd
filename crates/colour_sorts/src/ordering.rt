ghost use Rattle.std.specs.Prelude.{◌≡◌, ℕ, ◌+◌, ◌<◌, ◌≤◌, ◌++◌, ◌∷◌, [], List, flat_map, length, map, replicate, IfOk, OnOk};
ghost use Rattle.net_model.specs.Ids.{ids_of};
ghost use Rattle.colour_sorts.specs.Naming.{at_place, place_of};
ghost use Rattle.colour_sorts.specs.Searching.{AreEntries, IsOrder, IsSearch, place_in_turn, places_named, steps_of_all};
ghost use Rattle.colour_sorts.specs.declared.ordering.Turn.{Turn as Step};
ghost use Rattle.colour_sorts.specs.declared.ordering.Turn.TheVariants.{Enter as enters, Leave as leaves};
ghost use Rattle.colour_sorts.specs.declared.ordering.Visit.TheVariants.{Fresh};
ghost use Rattle.net_model.specs.declared.sorts.NamedSort.{NamedSort as Declaration};

use name_tables::Ids;
use net_model::{NamedSort, SortTerm};
use std::alloc::Global;
use wide_sums::Memory;

/// How far the search for an order is with a named sort.
#[derive(Clone, Copy, Debug, PartialEq, Eq)]
pub(crate) enum Visit {
    /// It wasn't entered.
    Fresh,
    /// It waits for the sorts that it names.
    Open,
    /// It is in the order.
    Placed,
}

/// What the search does next, with the named sort at this position.
#[derive(Clone, Copy, Debug, PartialEq, Eq)]
pub(crate) enum Turn {
    /// The sort is entered, unless it was.
    Enter(u32),
    /// The sort goes into the order.
    Leave(u32),
}

impl Turn {
    /// The position of the named sort.
    pub(crate) fn place(self) -> u32
        ensures { result ≡ place_in_turn self }
    {
        match self {
            Turn::Enter(at) => at,
            Turn::Leave(at) => at,
        }
    }
}

/// Lets the named sort of this id wait behind `waiting`.
fn push_name(name: &[u8], ids: &Ids, waiting: &mut Vec<Turn>) -> Result<(), Memory>
    ensures { OnOk result (waiting.new.items ≡ waiting.old.items ++ map enters (at_place [] (λ at. at ∷ []) (place_of ids.now name.now))) }
{
    if let Some(at) = ids.find(name) {
        waiting.push(Turn::Enter(at))?;
    }
    Ok(())
}

/// Lets the named sorts that a term names wait behind `waiting`.
#[cycle(searching)]
pub(crate) fn push_names(term: &SortTerm, ids: &Ids, waiting: &mut Vec<Turn>) -> Result<(), Memory>
    ensures { OnOk result (waiting.new.items ≡ waiting.old.items ++ map enters (places_named ids.now term.now)) }
{
    match term {
        SortTerm::Dot => Ok(()),
        SortTerm::Named(name) => push_name(name.bytes(), ids, waiting),
        SortTerm::Product(parts) => push_parts(parts.as_slice(), ids, waiting),
        SortTerm::Range(_) => Ok(()),
        SortTerm::Listed(_) => Ok(()),
        SortTerm::Cyclic(_) => Ok(()),
    }
}

#[cycle(searching)]
fn push_parts(parts: &[SortTerm], ids: &Ids, waiting: &mut Vec<Turn>) -> Result<(), Memory>
    ensures { OnOk result (waiting.new.items ≡ waiting.old.items ++ map enters (flat_map (places_named ids.now) parts.now)) }
{
    for part in parts {
        push_names(part, ids, waiting)?;
    }
    Ok(())
}

/// Enters a named sort, unless it was: then what it names waits, and it waits itself before them.
fn enter(
    sorts: &[NamedSort],
    ids: &Ids,
    visits: &mut [Visit],
    waiting: &mut Vec<Turn>,
    at: u32,
) -> Result<(), Memory>
    requires ids { ids.now ≡ ids_of sorts.now }
    requires long { length visits.old ≡ length sorts.now }
    requires within { at < length sorts.now }
    ensures search { (order : List ℕ) → IsSearch sorts.now visits.old (waiting.old.items ++ enters at ∷ []) order → OnOk result (IsSearch sorts.now visits.new waiting.new.items order) }
    ensures less { OnOk result (steps_of_all ids.now sorts.now visits.new + length waiting.new.items ≤ steps_of_all ids.now sorts.now visits.old + length waiting.old.items) }
{
    let visit = visits[at as usize];
    match visit {
        Visit::Fresh => {
            visits[at as usize] = Visit::Open;
            waiting.push(Turn::Leave(at))?;
            push_names(&sorts[at as usize].sort, ids, waiting)?;
            Ok(())
        }
        _ => Ok(()),
    }
}

/// Puts a named sort behind the order, in which all are that it names, unless they lead into a
/// circle.
fn leave(visits: &mut [Visit], order: &mut Vec<u32>, at: u32) -> Result<(), Memory>
    requires within { at < length visits.old }
    ensures search { (sorts : List Declaration) (waiting : List Step) → IsSearch sorts visits.old (waiting ++ leaves at ∷ []) order.old.items → OnOk result (IsSearch sorts visits.new waiting order.new.items) }
    ensures less { (ids : List (List ℕ)) (sorts : List Declaration) → length visits.old ≡ length sorts → OnOk result (steps_of_all ids sorts visits.new ≤ steps_of_all ids sorts visits.old) }
{
    visits[at as usize] = Visit::Placed;
    order.push(at)?;
    Ok(())
}

/// Goes on until nothing waits.
fn search(
    sorts: &[NamedSort],
    ids: &Ids,
    visits: &mut [Visit],
    waiting: &mut Vec<Turn>,
    order: &mut Vec<u32>,
) -> Result<(), Memory>
    requires ids { ids.now ≡ ids_of sorts.now }
    requires search { IsSearch sorts.now visits.old waiting.old.items order.old.items }
    ensures { OnOk result (IsSearch sorts.now visits.new [] order.new.items) }
{
    while let Some(turn) = waiting.pop() {
        match turn {
            Turn::Enter(at) => enter(sorts, ids, visits, waiting, at)?,
            Turn::Leave(at) => leave(visits, order, at)?,
        }
    }
    Ok(())
}

pub(crate) fn no_visits(alloc: Global, count: usize) -> Result<Vec<Visit>, Memory>
    ensures { IfOk result (λ visits. visits.items ≡ replicate count Fresh) }
{
    let visits = vec![in alloc; Visit::Fresh; count]?;
    Ok(visits)
}

/// So many named sorts that wait to be entered.
fn all_entries(alloc: Global, count: u32) -> Result<Vec<Turn>, Memory>
    ensures { IfOk result (λ waiting. AreEntries count waiting.items) }
{
    let mut waiting = Vec::with_capacity(alloc, count as usize)?;
    for at in 0..count {
        waiting.push(Turn::Enter(at))?;
    }
    Ok(waiting)
}

/// The positions of the named sorts, each behind those that it names, unless they lead into a
/// circle. Each name is looked up once.
pub(crate) fn order_of(alloc: Global, sorts: &[NamedSort], ids: &Ids) -> Result<Vec<u32>, Memory>
    requires { ids.now ≡ ids_of sorts.now }
    ensures { IfOk result (λ order. IsOrder sorts.now order.items) }
{
    let mut visits = no_visits(alloc, sorts.len())?;
    let mut waiting = all_entries(alloc, ids.count())?;
    let mut order = Vec::with_capacity(alloc, sorts.len())?;
    search(sorts, ids, visits.as_mut_slice(), &mut waiting, &mut order)?;
    Ok(order)
}
