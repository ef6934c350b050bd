ghost use Rattle.std.specs.Prelude.{◌≡◌, ℕ, List, ◌<◌, true, length, IfOk, IfSome, OnOk, MatchOption, Some};
ghost use Rattle.std.specs.List.{IsDistinct};
ghost use Rattle.std.specs.Str.{bytes_eq};
ghost use Rattle.colour_sorts.specs.Compiling.{AreAllCompiled, AreCompiledBy, Grows, IsCompiledAt, IsCompiledBy, IsCompiling, IsUncompiled};
ghost use Rattle.net_model.specs.Ids.{ids_of};
ghost use Rattle.colour_sorts.specs.Naming.{has_end, place_of, term_at};
ghost use Rattle.colour_sorts.specs.Searching.{IsOrder, Leads};
ghost use Rattle.net_model.specs.declared.sorts.SortTerm.TheVariants as terms;

use crate::comparing::copy_sort;
use crate::sharing::SortTable;
use crate::sorts::Sort;
use name_tables::Ids;
use net_model::{NamedSort, SortTerm};
use sqlite_items::Items;
use std::alloc::Global;
use wide_sums::Memory;

/// The sort of a name, `None` where it is declared and isn't compiled.
fn compile_name(
    alloc: Global,
    name: &[u8],
    ids: &Ids,
    compiled: &SortTable,
) -> Result<Option<Sort>, Memory>
    requires { length compiled.now ≡ length ids.now }
    ensures { (at : ℕ) → IfOk result (λ sort. MatchOption sort (IsUncompiled ids.now compiled.now (terms.Named name.now)) (IsCompiledBy ids.now compiled.now at (terms.Named name.now))) }
{
    let at = match ids.find(name) {
        Some(at) => at,
        None => return Ok(Some(Sort::Dot)),
    };
    match compiled.get(at) {
        Some(sort) => match copy_sort(alloc, sort) {
            Ok(copy) => Ok(Some(copy)),
            Err(memory) => Err(memory),
        },
        None => Ok(None),
    }
}

/// The sort of a term of the named sort at a position, `None` where a name in it isn't compiled.
#[cycle(compiling)]
pub(crate) fn compile(
    alloc: Global,
    term: &SortTerm,
    at: u32,
    ids: &Ids,
    compiled: &SortTable,
) -> Result<Option<Sort>, Memory>
    requires { length compiled.now ≡ length ids.now }
    ensures { IfOk result (λ sort. MatchOption sort (IsUncompiled ids.now compiled.now term.now) (IsCompiledBy ids.now compiled.now at term.now)) }
{
    match term {
        SortTerm::Dot => Ok(Some(Sort::Dot)),
        SortTerm::Named(name) => compile_name(alloc, name.bytes(), ids, compiled),
        SortTerm::Product(parts) => {
            match compile_parts(alloc, parts.as_slice(), at, ids, compiled) {
                Ok(Some(sorts)) => Ok(Some(Sort::Product(sorts))),
                Ok(None) => Ok(None),
                Err(memory) => Err(memory),
            }
        }
        SortTerm::Range(span) => Ok(Some(Sort::Range(*span))),
        SortTerm::Listed(_) => Ok(Some(Sort::Listed(at))),
        SortTerm::Cyclic(_) => Ok(Some(Sort::Cyclic(at))),
    }
}

#[cycle(compiling)]
fn compile_parts(
    alloc: Global,
    parts: &[SortTerm],
    at: u32,
    ids: &Ids,
    compiled: &SortTable,
) -> Result<Option<Items<Sort>>, Memory>
    requires { length compiled.now ≡ length ids.now }
    ensures { IfOk result (λ sorts. MatchOption sorts (IsUncompiled ids.now compiled.now (terms.Product parts.now)) (AreCompiledBy ids.now compiled.now at parts.now)) }
{
    let mut sorts = Vec::with_capacity(alloc, parts.len())?;
    for part in parts {
        match compile(alloc, part, at, ids, compiled)? {
            Some(sort) => sorts.push(sort)?,
            None => return Ok(None),
        }
    }
    Ok(Some(Items::from_vec(sorts)))
}

/// The position of the named sort that a term stands for by its name.
fn named_by(term: &SortTerm, ids: &Ids) -> Option<u32>
    ensures { IfSome result (λ at. (id : List ℕ) × (term.now ≡ terms.Named id) × (place_of ids.now id ≡ Some at)) }
{
    match term {
        SortTerm::Named(name) => ids.find(name.bytes()),
        _ => None,
    }
}

/// Compiles a named sort, where all are that it names. It shares the sort that it stands for by its
/// name.
fn compile_at(
    alloc: Global,
    sorts: &[NamedSort],
    ids: &Ids,
    compiled: &mut SortTable,
    at: u32,
) -> Result<(), Memory>
    requires ids { ids.now ≡ ids_of sorts.now }
    requires compiled { IsCompiling sorts.now compiled.old }
    requires within { at < length sorts.now }
    requires behind { (to : ℕ) → Leads sorts.now at to → IsCompiledAt compiled.old to }
    ensures compiled { OnOk result (IsCompiling sorts.now compiled.new) }
    ensures grows { OnOk result (Grows compiled.old compiled.new) }
    ensures here { OnOk result (IsCompiledAt compiled.new at) }
{
    if compiled.get(at).is_some() {
        return Ok(());
    }
    let sort = &sorts[at as usize].sort;
    if let Some(other) = named_by(sort, ids) {
        compiled.share(at, other);
        return Ok(());
    }
    match compile(alloc, sort, at, ids, compiled)? {
        Some(sort) => compiled.put(at, sort),
        None => unreachable!(),
    }
}

/// Compiles the named sorts in their order, of which none leads into a circle.
pub(crate) fn compile_in_order(
    alloc: Global,
    sorts: &[NamedSort],
    ids: &Ids,
    compiled: &mut SortTable,
    order: &[u32],
) -> Result<(), Memory>
    requires ids { ids.now ≡ ids_of sorts.now }
    requires compiled { IsCompiling sorts.now compiled.old }
    requires order { IsOrder sorts.now order.now }
    requires ends { (at : ℕ) → at < length sorts.now → has_end sorts.now (term_at sorts.now at) ≡ true }
    ensures compiled { OnOk result (IsCompiling sorts.now compiled.new) }
    ensures all { OnOk result (AreAllCompiled compiled.new (length sorts.now)) }
{
    for at in order {
        compile_at(alloc, sorts, ids, compiled, *at)?;
    }
    Ok(())
}
