ghost use Rattle.std.specs.Prelude.{◌≡◌, ◌++◌, ◌+◌, ◌<◌, ◌≤◌, ◌^◌, ℕ, List, [], length, IfOk};
ghost use Rattle.pnml_inputs.specs.Answers.{IsText};

use piece_readers::PieceReader;
use std::alloc::Global;
use wide_sums::Memory;

/// A reader that keeps all bytes, for what takes a file whole.
#[derive(Drop)]
pub struct Keeper {
    bytes: Vec<u8>,
}

impl Keeper {
    /// A reader of no bytes yet.
    pub fn new(alloc: Global) -> Keeper
        ensures { result.bytes.items ≡ [] }
    {
        Keeper {
            bytes: Vec::new(alloc),
        }
    }
}

impl PieceReader for Keeper {
    type Value = Vec<u8>;

    type Fault = Memory;

    ghost stands = { λ keeper b. keeper.bytes.items ≡ b };

    ghost answers = { IsText };

    ghost fed = { λ _. 0 };

    fn feed(&mut self, _alloc: Global, piece: &[u8]) -> Result<(), Memory> {
        match self.bytes.extend_from_slice(piece) {
            Ok(()) => Ok(()),
            Err(_) => Err(Memory),
        }
    }

    fn finish(self, _alloc: Global) -> Result<Vec<u8>, Memory> {
        let Keeper { bytes } = self;
        Ok(bytes)
    }
}
