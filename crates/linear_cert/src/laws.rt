//! Laws over the definitions: each is the contract of a function that does nothing.
ghost use Rattle.std.specs.Prelude.{◌≡◌, ℕ, ℤ, Bool, List, [], ◌∷◌};
ghost use Rattle.pt_net.specs.Systems.{IsSystem, NetSystem};
ghost use Rattle.cert_model.specs.Nets.{Net};
ghost use Rattle.cert_model.specs.Facts.{Bound, StepLine, Trap, base_checks, slack};
ghost use Rattle.linear_cert.specs.Checks.{base_check, net_of};

/// What a bound owes at the initial marking is the check of its slack form there.
pub fn bound_owes_its_base()
    ensures { (net : Net) (weight : ℕ → ℤ) (limit : List ℤ) (lines : ℕ → StepLine)
        → base_checks net (Bound weight limit lines) ≡ base_check net (slack net (Bound weight limit lines)) ∷ [] }
{}

/// What a trap owes at the initial marking is the check of its slack form there: that is never out
/// of range.
pub fn trap_owes_its_base()
    ensures { (net : NetSystem) (has : ℕ → Bool) → IsSystem net
        → base_checks (net_of net) (Trap has) ≡ base_check (net_of net) (slack (net_of net) (Trap has)) ∷ [] }
{}
