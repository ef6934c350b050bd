ghost use Rattle.std.specs.Prelude.{◌≡◌, [], ◌∷◌, ◌++◌, false, true, not, if◌then◌else◌, IfOk, MatchBool, OnOk};
ghost use Rattle.std.specs.List.{list_any};
ghost use Rattle.std.specs.Str.{bytes_eq};
ghost use Rattle.indexmap.specs.IndexSet.{insert_key};
ghost use Rattle.cert_lines.specs.Order.{origin_of};
ghost use Rattle.cert_reader.specs.Reading.{is_bound, same_origin, stepped, with_step};

use cert_lines::{Fact, FactKind, InstanceRef, Step};
use indexmap::IndexSet;
use name_tables::Name;
use sqlite_items::Items;
use std::alloc::Global;
use std::marker::Model;
use wide_sums::Memory;

/// The facts read so far, seen as their list.
#[derive(Drop)]
pub struct Facts {
    list: Vec<Fact>,
    names: IndexSet<Name>,
    origins: IndexSet<InstanceRef>,
}

impl Model for Facts {
    ghost use Rattle.std.specs.Prelude.{◌≡◌, List};
    ghost use Rattle.cert_reader.specs.Reading.{last_fact, names_of, origins_of};
    ghost use Rattle.cert_lines.specs.declared.certificates.Fact.{Fact};

    ghost Value = { List Fact };

    ghost view = { λ f. f.list.items };

    ghost invariant = { λ f. (f.names.keys ≡ names_of f.list.items)
        × (f.origins.keys ≡ origins_of (last_fact f.list.items)) };
}

impl Facts {
    ghost use Rattle.cert_reader.specs.Reading.{last_fact, names_of, origins_of, same_origin, takes_steps, with_step};
    ghost use Rattle.cert_lines.specs.Order.{origin_of, steps_of};

    /// No facts.
    pub fn new(alloc: Global) -> Facts
        ensures { result ≡ [] }
    {
        Facts {
            list: Vec::new(alloc),
            names: IndexSet::new(alloc),
            origins: IndexSet::new(alloc),
        }
    }

    /// Whether a fact has this name.
    pub fn has(&self, name: &Name) -> bool
        ensures { result ≡ list_any (bytes_eq name.now) (names_of self.now) }
    {
        self.names.contains(name)
    }

    /// Whether a step of the last fact is at this transition instance.
    pub fn has_step(&self, origin: &InstanceRef) -> bool
        ensures { result ≡ list_any (same_origin origin.now) (origins_of (last_fact self.now)) }
    {
        self.origins.contains(origin)
    }

    /// Whether steps may follow the last fact.
    pub fn takes_steps(&self) -> bool
        ensures { result ≡ takes_steps (last_fact self.now) }
    {
        match self.list.last() {
            Some(fact) => is_bound_kind(&fact.kind),
            None => false,
        }
    }

    /// Puts a fact without steps behind the others, where none of them has its name; answers whether it did.
    pub fn add(&mut self, alloc: Global, fact: Fact) -> Result<bool, Memory>
        requires { steps_of fact.kind ≡ [] }
        ensures is_new { IfOk result (λ added. added ≡ not (list_any (bytes_eq fact.name) (names_of self.old))) }
        ensures added { IfOk result (λ added. MatchBool added
            (self.new ≡ self.old ++ fact ∷ [])
            (self.new ≡ self.old)) }
    {
        match put_fact(
            alloc,
            &mut self.list,
            &mut self.names,
            &mut self.origins,
            fact,
        ) {
            Ok(added) => Ok(added),
            Err(Memory) => {
                *self = Facts::new(alloc);
                Err(Memory)
            }
        }
    }

    /// Puts a step behind the others of the last fact.
    pub fn add_step(&mut self, alloc: Global, step: Step) -> Result<(), Memory>
        requires fresh { list_any (same_origin (origin_of step)) (origins_of (last_fact self.old)) ≡ false }
        requires bound { takes_steps (last_fact self.old) ≡ true }
        ensures { OnOk result (self.new ≡ with_step self.old step) }
    {
        match put_step(alloc, &mut self.list, &mut self.origins, step) {
            Ok(()) => Ok(()),
            Err(Memory) => {
                *self = Facts::new(alloc);
                Err(Memory)
            }
        }
    }

    /// All facts in order.
    pub fn into_items(self) -> Items<Fact>
        ensures { result ≡ self }
    {
        let Facts { list, .. } = self;
        Items::from_vec(list)
    }
}

fn is_bound_kind(kind: &FactKind) -> bool
    ensures { result ≡ is_bound kind.now }
{
    matches!(kind, FactKind::Bound { .. })
}

/// Puts a fact with a new name into the list, its name into the set of names, and empties the set of origins.
fn put_fact(
    alloc: Global,
    list: &mut Vec<Fact>,
    names: &mut IndexSet<Name>,
    origins: &mut IndexSet<InstanceRef>,
    fact: Fact,
) -> Result<bool, Memory>
    ensures is_new { IfOk result (λ added. added ≡ not (list_any (bytes_eq fact.name) names.old.keys)) }
    ensures list { IfOk result (λ added. list.new.items ≡ (if added then list.old.items ++ fact ∷ [] else list.old.items)) }
    ensures names { OnOk result (names.new.keys ≡ insert_key bytes_eq names.old.keys fact.name) }
    ensures origins { IfOk result (λ added. origins.new.keys ≡ (if added then [] else origins.old.keys)) }
{
    if !names.insert(fact.name.copy(alloc)?)? {
        return Ok(false);
    }
    list.push(fact)?;
    empty(alloc, origins);
    Ok(true)
}

/// A set with more room than this is not kept, since emptying it takes time for all of its room.
const KEPT_ROOM: usize = 64;

/// Takes all origins out of the set.
fn empty(alloc: Global, origins: &mut IndexSet<InstanceRef>)
    ensures { origins.new.keys ≡ [] }
{
    if origins.capacity() > KEPT_ROOM {
        *origins = IndexSet::new(alloc);
    } else {
        origins.clear();
    }
}

/// Puts a step into the last fact of the list, and its origin into the set of origins.
fn put_step(
    alloc: Global,
    list: &mut Vec<Fact>,
    origins: &mut IndexSet<InstanceRef>,
    step: Step,
) -> Result<(), Memory>
    ensures list { OnOk result (list.new.items ≡ with_step list.old.items step) }
    ensures origins { OnOk result (origins.new.keys ≡ insert_key same_origin origins.old.keys (origin_of step)) }
{
    origins.insert(InstanceRef {
        transition: step.transition.copy(alloc)?,
        binding: step.binding,
    })?;
    add_to_last(alloc, list, step)
}

/// Puts a step behind the others of the last fact.
fn add_to_last(alloc: Global, list: &mut Vec<Fact>, step: Step) -> Result<(), Memory>
    ensures { OnOk result (list.new.items ≡ with_step list.old.items step) }
{
    let Some(last) = list.pop() else {
        return Ok(());
    };
    list.push(fact_with_step(alloc, last, step)?)?;
    Ok(())
}

fn fact_with_step(alloc: Global, fact: Fact, step: Step) -> Result<Fact, Memory>
    ensures { IfOk result (λ grown. grown ≡ stepped fact step) }
{
    let Fact { line, name, kind } = fact;
    match kind {
        FactKind::Bound {
            limit,
            weights,
            steps,
        } => Ok(Fact {
            line,
            name,
            kind: FactKind::Bound {
                limit,
                weights,
                steps: one_more_step(alloc, steps, step)?,
            },
        }),
        other => Ok(Fact {
            line,
            name,
            kind: other,
        }),
    }
}

/// The steps with one more; the first gets room for itself alone, since most bounds have few.
fn one_more_step(alloc: Global, steps: Items<Step>, step: Step) -> Result<Items<Step>, Memory>
    ensures { IfOk result (λ grown. grown ≡ steps ++ step ∷ []) }
{
    let mut grown = if steps.is_empty() {
        Items::from_vec(Vec::with_capacity(alloc, 1)?)
    } else {
        steps
    };
    grown.push(step)?;
    Ok(grown)
}
