ghost use Rattle.std.specs.Prelude.{◌≡◌, ◌++◌, ◌+◌, ◌<◌, ◌≤◌, ◌^◌, ℕ, List, [], length, None};
ghost use Rattle.pnml_inputs.specs.Intake.{HasTaken};

use crate::inputs::MAX_BYTES;
use piece_readers::PieceReader;
use std::alloc::Global;

/// A reader, the fault that it answered, and how many bytes came in all.
#[derive(Drop)]
pub struct Intake<P: PieceReader> {
    pub reader: P,
    pub fault: Option<P::Fault>,
    pub count: usize,
    ghost fed: { P.fed reader ≤ count },
    ghost within: { P.fed reader ≤ 2 ^ 26 },
}

impl<P: PieceReader> Intake<P> {
    /// A reader to which nothing came.
    pub fn new(reader: P) -> Intake<P>
        requires new { P.stands reader [] }
        requires unfed { P.fed reader ≡ 0 }
        ensures taken { HasTaken P.stands P.answers result.reader result.fault result.count [] }
        ensures count { result.count ≡ 0 }
    {
        Intake {
            reader,
            fault: None,
            count: 0,
        }
    }

    /// Takes the next bytes, which are only counted behind a fault or past the limit.
    pub fn take(&mut self, alloc: Global, piece: &[u8])
        requires { self.old.count ≤ 2 ^ 26 }
        ensures count { self.new.count ≡ self.old.count + length piece.now }
        ensures taken { (b : List ℕ) → HasTaken P.stands P.answers self.old.reader self.old.fault self.old.count b
            → HasTaken P.stands P.answers self.new.reader self.new.fault self.new.count (b ++ piece.now) }
    {
        self.count += piece.len();
        if self.fault.is_none() && self.count <= MAX_BYTES {
            if let Err(fault) = self.reader.feed(alloc, piece) {
                self.fault = Some(fault);
            }
        }
    }

    /// What the bytes come to.
    pub fn finish(self, alloc: Global) -> Result<P::Value, P::Fault>
        requires { self.count ≤ 2 ^ 26 }
        ensures { (b : List ℕ) → HasTaken P.stands P.answers self.reader self.fault self.count b → P.answers b result }
    {
        let Intake { reader, fault, .. } = self;
        match fault {
            Some(fault) => Err(fault),
            None => reader.finish(alloc),
        }
    }
}
