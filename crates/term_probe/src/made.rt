ghost use Rattle.std.specs.Prelude.{IfOk};
ghost use Rattle.multiset_terms.specs.Usable.{IsUsable};

use colour_sorts::{NamedSort, SortTerm, Span};
use multiset_terms::{Guard, Order, Term};
use name_tables::{Name, decimal};
use sqlite_items::{Boxed, Items};
use std::alloc::Global;
use term_scopes::{Scope, ScopeFault, declared};
use wide_sums::Memory;

/// The range of so many numbers from 0, which is the one sort.
fn sorts(alloc: Global, count: u32) -> Result<Vec<NamedSort>, Memory> {
    let span = Span {
        first: 0,
        last: count as i64 - 1,
    };
    let mut sorts = Vec::new(alloc);
    sorts.push(NamedSort {
        id: Name::new(alloc, b"S")?,
        sort: SortTerm::Range(span),
    })?;
    Ok(sorts)
}

/// A letter and a number.
fn numbered(alloc: Global, letter: &[u8], number: u32) -> Result<Name, Memory> {
    let mut name = Name::new(alloc, letter)?;
    let digits = decimal(alloc, number as i128)?;
    name.append(digits.bytes())?;
    Ok(name)
}

fn variable(alloc: Global, number: u32) -> Result<Name, Memory> {
    numbered(alloc, b"v", number)
}

/// The cyclic enumeration of so many constants, which is the one sort.
fn circle(alloc: Global, count: u32) -> Result<Vec<NamedSort>, Memory> {
    let mut constants = Vec::new(alloc);
    for number in 0..count {
        constants.push(numbered(alloc, b"c", number)?)?;
    }
    let mut sorts = Vec::new(alloc);
    sorts.push(NamedSort {
        id: Name::new(alloc, b"S")?,
        sort: SortTerm::Cyclic(Items::from_vec(constants)),
    })?;
    Ok(sorts)
}

/// The one sort, by its name.
fn named(alloc: Global) -> Result<SortTerm, Memory> {
    Ok(SortTerm::Named(Name::new(alloc, b"S")?))
}

fn declaration(alloc: Global, number: u32) -> Result<NamedSort, Memory> {
    let sort = named(alloc)?;
    Ok(NamedSort {
        id: variable(alloc, number)?,
        sort,
    })
}

fn variables(alloc: Global, count: u32) -> Result<Vec<NamedSort>, Memory> {
    let mut declared = Vec::new(alloc);
    for number in 0..count {
        declared.push(declaration(alloc, number)?)?;
    }
    Ok(declared)
}

/// A range of so many colours, and so many variables of it.
pub fn scope(alloc: Global, colours: u32, count: u32) -> Result<Scope, ScopeFault>
    ensures { IfOk result (λ scope. IsUsable scope.domains scope.variables) }
{
    let Ok(sorts) = sorts(alloc, colours) else {
        return Err(ScopeFault::Memory);
    };
    let Ok(variables) = variables(alloc, count) else {
        return Err(ScopeFault::Memory);
    };
    declared(alloc, sorts.as_slice(), &[], variables.as_slice())
}

/// A circle of so many colours, and a variable of it.
pub fn circle_scope(alloc: Global, colours: u32) -> Result<Scope, ScopeFault>
    ensures { IfOk result (λ scope. IsUsable scope.domains scope.variables) }
{
    let Ok(sorts) = circle(alloc, colours) else {
        return Err(ScopeFault::Memory);
    };
    let Ok(variables) = variables(alloc, 1) else {
        return Err(ScopeFault::Memory);
    };
    declared(alloc, sorts.as_slice(), &[], variables.as_slice())
}

/// The sum of a variable and the colour behind it.
pub fn pair(alloc: Global) -> Result<Term, Memory> {
    let next = Boxed::new(alloc, Term::Variable(variable(alloc, 0)?))?;
    let mut terms = Vec::new(alloc);
    terms.push(Term::Variable(variable(alloc, 0)?))?;
    terms.push(Term::Successor(next))?;
    Ok(Term::Add(Items::from_vec(terms)))
}

/// All colours of the one sort.
pub fn all(alloc: Global) -> Result<Term, Memory> {
    Ok(Term::All(named(alloc)?))
}

/// The sum of so many variables.
pub fn sum(alloc: Global, count: u32) -> Result<Term, Memory> {
    let mut terms = Vec::new(alloc);
    for number in 0..count {
        terms.push(Term::Variable(variable(alloc, number)?))?;
    }
    Ok(Term::Add(Items::from_vec(terms)))
}

/// That a variable is at most itself.
fn comparison(alloc: Global, number: u32) -> Result<Guard, Memory> {
    let first = Term::Variable(variable(alloc, number)?);
    let second = Term::Variable(variable(alloc, number)?);
    Ok(Guard::Compare(Order::LessEqual, first, second))
}

/// The guard that each of so many variables is at most itself.
pub fn guard(alloc: Global, count: u32) -> Result<Guard, Memory> {
    let mut guards = Vec::new(alloc);
    for number in 0..count {
        guards.push(comparison(alloc, number)?)?;
    }
    Ok(Guard::And(Items::from_vec(guards)))
}

/// Rising colour numbers.
pub fn indices(alloc: Global, count: u32) -> Result<Vec<u32>, Memory> {
    let mut indices = Vec::new(alloc);
    for number in 0..count {
        indices.push(number)?;
    }
    Ok(indices)
}
