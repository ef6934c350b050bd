ghost use Rattle.std.specs.Prelude.{◌≡◌, ◌++◌, ◌+◌, ◌<◌, ◌≤◌, ◌^◌, ℕ, List, [], None, Some, Result, Err, length, IfErr};
ghost use Rattle.line_words.specs.Readers.{StandsFor};
ghost use Rattle.line_words.specs.Words.{lines_of};

use crate::cutter::LineCutter;
use crate::taker::TakesLines;
use std::alloc::Global;

/// Takes bytes in pieces, cut anywhere, hands their lines on in order, and keeps one line at most.
///
/// After a fault it answers that fault from then on.
#[derive(Drop)]
pub struct LineReader<D: TakesLines> {
    cutter: LineCutter<D>,
    fault: Option<D::Fault>,
}

impl<D: TakesLines> LineReader<D> {
    /// A reader of nothing yet, for a taker at its beginning.
    pub fn new(alloc: Global, taker: D) -> LineReader<D>
        requires { (lines : List (List ℕ)) (r : Result D.Value D.Fault) → D.follows taker 1 lines r → D.answers lines r }
        ensures stands { StandsFor D.follows D.answers result.cutter.taker result.cutter.number result.cutter.rest.items result.fault [] }
        ensures fed { result.cutter.fed ≡ 0 }
    {
        LineReader {
            cutter: LineCutter::new(alloc, taker),
            fault: None,
        }
    }

    /// Takes the next bytes; there may be fewer than 2^32 - 2 in all.
    ///
    /// A fault is the answer for all bytes that begin with those so far.
    pub fn feed(&mut self, alloc: Global, piece: &[u8]) -> Result<(), D::Fault>
        requires { self.old.cutter.fed + length piece.now + 2 < 2 ^ 32 }
        ensures stands { (b : List ℕ)
            → StandsFor D.follows D.answers self.old.cutter.taker self.old.cutter.number self.old.cutter.rest.items self.old.fault b
            → StandsFor D.follows D.answers self.new.cutter.taker self.new.cutter.number self.new.cutter.rest.items self.new.fault (b ++ piece.now) }
        ensures refused { IfErr result (λ fault. self.new.fault ≡ Some fault) }
        ensures again { (fault : D.Fault) → self.old.fault ≡ Some fault → result ≡ Err fault }
        ensures fed { self.new.cutter.fed ≤ self.old.cutter.fed + length piece.now }
    {
        if let Some(fault) = self.fault {
            return Err(fault);
        }
        match self.cutter.take_piece(alloc, piece) {
            Ok(()) => Ok(()),
            Err(fault) => {
                self.fault = Some(fault);
                Err(fault)
            }
        }
    }

    /// What all bytes come to.
    pub fn finish(self, alloc: Global) -> Result<D::Value, D::Fault>
        ensures answers { (b : List ℕ)
            → StandsFor D.follows D.answers self.cutter.taker self.cutter.number self.cutter.rest.items self.fault b
            → D.answers (lines_of b) result }
        ensures again { (fault : D.Fault) → self.fault ≡ Some fault → result ≡ Err fault }
    {
        let LineReader { cutter, fault } = self;
        match fault {
            Some(fault) => Err(fault),
            None => cutter.finish(alloc),
        }
    }
}
