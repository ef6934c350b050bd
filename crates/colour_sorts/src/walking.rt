ghost use Rattle.std.specs.Prelude.{◌≡◌, ℕ, ◌<◌, length};
ghost use Rattle.net_model.specs.Ids.{constants_in, ids_of};
ghost use Rattle.colour_sorts.specs.Searching.{IsOrder, Leads};
ghost use Rattle.colour_sorts.specs.Walking.{AreMarked, IsMarkedAt, KeepsDone};

use crate::facts::Mark;
use crate::judging::facts_of;
use name_tables::Ids;
use net_model::{NamedSort, SortTerm};

/// How many constants a term declares.
fn constants_declared(term: &SortTerm) -> u64
    ensures { result ≡ length (constants_in term.now) }
{
    match term {
        SortTerm::Listed(constants) => constants.len() as u64,
        SortTerm::Cyclic(constants) => constants.len() as u64,
        _ => 0,
    }
}

/// Judges a named sort, where all that it names is done or leads into a circle. It isn't done where
/// it leads into one.
fn judge(sorts: &[NamedSort], ids: &Ids, marks: &mut [Mark], at: u32)
    requires ids { ids.now ≡ ids_of sorts.now }
    requires marked { AreMarked sorts.now marks.old }
    requires within { at < length sorts.now }
    requires behind { (to : ℕ) → Leads sorts.now at to → IsMarkedAt sorts.now marks.old to }
    ensures marked { AreMarked sorts.now marks.new }
    ensures keeps { KeepsDone marks.old marks.new }
    ensures here { IsMarkedAt sorts.now marks.new at }
{
    let mark = marks[at as usize];
    if let Mark::Done(_) = mark {
        return;
    }
    let sort = &sorts[at as usize].sort;
    match facts_of(sort, constants_declared(sort), ids, marks) {
        Ok(facts) => marks[at as usize] = Mark::Done(facts),
        Err(_) => {}
    }
}

/// Judges the named sorts in their order. All are done that don't lead into a circle.
pub(crate) fn judge_in_order(sorts: &[NamedSort], ids: &Ids, marks: &mut [Mark], order: &[u32])
    requires ids { ids.now ≡ ids_of sorts.now }
    requires marked { AreMarked sorts.now marks.old }
    requires order { IsOrder sorts.now order.now }
    ensures marked { AreMarked sorts.now marks.new }
    ensures all { (at : ℕ) → at < length sorts.now → IsMarkedAt sorts.now marks.new at }
{
    for at in order {
        judge(sorts, ids, marks, *at);
    }
}
