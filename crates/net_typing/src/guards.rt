ghost use Rattle.std.specs.Prelude.{◌≡◌, None, IfOk, IfErr};
ghost use Rattle.multiset_terms.specs.Context.{Context};
ghost use Rattle.multiset_terms.specs.Parts.{AreSized, IsDeclared, IsScope};
ghost use Rattle.multiset_terms.specs.Usable.{IsUsable};
ghost use Rattle.net_typing.specs.Rules.{IsRefusal, first_over, transition_refusal};
ghost use Rattle.net_typing.specs.Standing.{AreTyped, IsGuard, IsGuardAnswer, IsTransitionGuard};

use crate::faults::{NetFault, Unfit};
use crate::scope::Scope;
use multiset_terms::{CGuard, TermFault, compile_guard};
use net_model::{Guard, Transition};
use std::alloc::Global;

/// The compiled guard, or the first rule that it breaks. Where there is none, none is compiled.
fn typed_guard(alloc: Global, scope: &Scope, guard: &Option<Guard>) -> Result<Option<CGuard>, Unfit>
    requires { IsUsable scope.now.domains scope.now.variables }
    ensures { (ctx : Context) → IsScope ctx scope.now.domains scope.now.variables → IsGuardAnswer ctx guard.now result }
{
    let Some(guard) = guard else {
        return Ok(None);
    };
    match compile_guard(alloc, &scope.domains, &scope.variables, guard) {
        Ok(compiled) => Ok(Some(compiled)),
        Err(TermFault::IllTyped { rule, .. }) => Err(Unfit::Broken(rule)),
        Err(TermFault::Weight { .. }) => unreachable!(),
        Err(TermFault::Memory) => Err(Unfit::Memory),
    }
}

/// The guards of the transitions, one for each, or the first transition whose guard breaks a rule.
pub fn typed_guards(
    alloc: Global,
    scope: &Scope,
    transitions: &[Transition],
) -> Result<Vec<Option<CGuard>>, NetFault>
    requires { IsUsable scope.now.domains scope.now.variables }
    ensures guards { (ctx : Context) → IsScope ctx scope.now.domains scope.now.variables → IfOk result (λ guards. AreTyped (IsTransitionGuard ctx) transitions.now guards.items) }
    ensures sound { (ctx : Context) → IsScope ctx scope.now.domains scope.now.variables → IfOk result (λ guards. first_over (transition_refusal ctx) transitions.now ≡ None) }
    ensures refused { (ctx : Context) → IsScope ctx scope.now.domains scope.now.variables → IfErr result (IsRefusal (first_over (transition_refusal ctx) transitions.now)) }
{
    let mut guards = Vec::with_capacity(alloc, transitions.len())?;
    for transition in transitions {
        match typed_guard(alloc, scope, &transition.guard) {
            Ok(guard) => guards.push(guard)?,
            Err(unfit) => return Err(unfit.of(alloc, &transition.id)),
        }
    }
    Ok(guards)
}
