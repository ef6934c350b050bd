ghost use Rattle.std.specs.Prelude.{◌≡◌, ◌++◌, ◌+◌, ◌<◌, ◌≤◌, ◌^◌, ℕ, List, Result, Err, length, OnOk, IfErr};

use std::alloc::Global;

/// What reads bytes from pieces, however they are cut, into a value or its own fault.
pub trait PieceReader: Drop {
    /// What the bytes come to.
    type Value: Drop;

    /// Why they come to nothing, want of memory among it.
    type Fault: Drop;

    // The reader was fed these bytes, and refuses none of them.
    ghost stands: { Self → List ℕ → Type 0 };

    // What bytes come to. Want of memory is an answer to any bytes.
    ghost answers: { List ℕ → Result Self.Value Self.Fault → Type 0 };

    // At most so many bytes were fed.
    ghost fed: { Self → ℕ };

    /// The next bytes. A fault is the answer to all bytes that begin with those so far. Nothing is
    /// fed behind a fault.
    fn feed(&mut self, alloc: Global, piece: &[u8]) -> Result<(), Self::Fault>
        requires { fed self.old + length piece.now < 2 ^ 31 }
        ensures stands { (b : List ℕ) → stands self.old b → OnOk result (stands self.new (b ++ piece.now)) }
        ensures refused { (b more : List ℕ) → stands self.old b
            → IfErr result (λ fault. answers (b ++ piece.now ++ more) (Err fault)) }
        ensures fed { fed self.new ≤ fed self.old + length piece.now };

    /// What the bytes come to.
    fn finish(self, alloc: Global) -> Result<Self::Value, Self::Fault>
        ensures { (b : List ℕ) → stands self b → answers b result };
}
