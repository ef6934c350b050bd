ghost use Rattle.std.specs.Prelude.{◌≡◌, ◌++◌, ◌+◌, ◌<◌, ◌≤◌, ◌^◌, ℕ, List, length, OnOk, IfErr};

use crate::faults::DocFault;
use crate::reader::Reader;
use doc_model::Element;
use piece_readers::PieceReader;
use std::alloc::Global;

impl PieceReader for Reader {
    ghost use Rattle.doc_tree.specs.Reading.{FinishAnswer};
    ghost use Rattle.doc_tree.specs.Readers.{HasRead};

    type Value = Element;

    type Fault = DocFault;

    ghost stands = { HasRead };

    ghost answers = { FinishAnswer };

    ghost fed = { λ reader. reader.count };

    fn feed(&mut self, _alloc: Global, piece: &[u8]) -> Result<(), DocFault> {
        match self.feed(piece) {
            Ok(()) => Ok(()),
            Err(fault) => Err(fault),
        }
    }

    fn finish(self, _alloc: Global) -> Result<Element, DocFault> {
        self.finish()
    }
}
