ghost use Rattle.std.specs.Prelude.{◌≡◌, ◌+◌, ℕ, List, [], ◌∷◌, Result, Err, OnOk, IfErr};

use std::alloc::Global;

/// What takes lines in order, each with its number from 1, and ends in a value or a fault of its own.
pub trait TakesLines: Drop {
    /// What it ends in.
    type Value: Drop;

    /// Why it ends in none.
    type Fault: Copy + Drop;

    // What the lines that are still to come, the first of this number, bring it to.
    ghost follows: { Self → ℕ → List (List ℕ) → Result Self.Value Self.Fault → Type 0 };

    // What lines come to.
    ghost answers: { List (List ℕ) → Result Self.Value Self.Fault → Type 0 };

    /// Takes the next line. A fault is the answer whatever lines follow; nothing is said of the taker then.
    fn take(&mut self, alloc: Global, number: u32, line: &[u8]) -> Result<(), Self::Fault>
        ensures taken { OnOk result ((lines : List (List ℕ)) (r : Result Self.Value Self.Fault)
            → follows self.new (number + 1) lines r → follows self.old number (line.now ∷ lines) r) }
        ensures refused { IfErr result (λ fault. (lines : List (List ℕ))
            → follows self.old number (line.now ∷ lines) (Err fault)) };

    /// Ends; the number is that of the line after the last.
    fn end(self, alloc: Global, number: u32) -> Result<Self::Value, Self::Fault>
        ensures { follows self number [] result };

    /// The fault for want of memory, which may come at any time.
    fn out_of_memory() -> Self::Fault
        ensures { (taker : Self) (number : ℕ) (lines : List (List ℕ)) → follows taker number lines (Err result) };
}
