ghost use Rattle.multiset_terms.specs.Usable.{IsUsable};

use crate::scope::Scope;
use multiset_terms::{
    EvalFault, Guard, Term, TermFault, compile_guard, compile_term, eval, holds, is_binding,
    is_block,
};
use std::alloc::Global;
use wide_sums::Row;

/// Why an example has no value.
#[derive(Clone, Copy, Debug, PartialEq, Eq)]
pub enum ExampleFault {
    /// The term or guard is refused.
    Refused(TermFault),
    /// The term is a block.
    Block,
    /// There isn't one index in range for each variable.
    Binding,
    /// The term has no value.
    NoValue(EvalFault),
}

/// The value of a term that is no block.
pub fn value(
    alloc: Global,
    scope: &Scope,
    term: &Term,
    indices: &[u32],
) -> Result<Row, ExampleFault>
    requires { IsUsable scope.now.domains scope.now.variables }
{
    let compiled = match compile_term(alloc, &scope.domains, &scope.variables, false, term) {
        Ok(compiled) => compiled,
        Err(fault) => return Err(ExampleFault::Refused(fault)),
    };
    if is_block(&compiled) {
        return Err(ExampleFault::Block);
    }
    if !is_binding(&scope.domains, &scope.variables, indices) {
        return Err(ExampleFault::Binding);
    }
    match eval(alloc, &scope.domains, &compiled, indices) {
        Ok(row) => Ok(row),
        Err(fault) => Err(ExampleFault::NoValue(fault)),
    }
}

/// Whether a guard is true.
pub fn truth(
    alloc: Global,
    scope: &Scope,
    guard: &Guard,
    indices: &[u32],
) -> Result<bool, ExampleFault>
    requires { IsUsable scope.now.domains scope.now.variables }
{
    let compiled = match compile_guard(alloc, &scope.domains, &scope.variables, guard) {
        Ok(compiled) => compiled,
        Err(fault) => return Err(ExampleFault::Refused(fault)),
    };
    if !is_binding(&scope.domains, &scope.variables, indices) {
        return Err(ExampleFault::Binding);
    }
    Ok(holds(&scope.domains, &compiled, indices))
}
