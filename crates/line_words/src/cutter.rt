ghost use Rattle.std.specs.Prelude.{◌≡◌, ◌++◌, ◌∷◌, ◌+◌, ◌<◌, ◌≤◌, ◌^◌, ℕ, List, [], None, Result, Err, length, OnOk, IfErr};
ghost use Rattle.line_words.specs.Words.{behind_mark, lines_of};

use crate::taker::TakesLines;
use crate::words::cut_line;
use std::alloc::Global;

/// Cuts pieces into lines, which it hands on. It keeps one line at most.
#[derive(Drop)]
pub struct LineCutter<D: TakesLines> {
    pub taker: D,
    pub number: u32,
    pub rest: Vec<u8>,
    pub fed: usize,
    ghost whole: { behind_mark 10 rest.items ≡ None },
    ghost numbered: { number ≤ fed + 1 },
    ghost short: { fed + 2 < 2 ^ 32 },
}

/// Hands a line on of which `rest` are the first bytes and `end` the last ones; `rest` is emptied.
fn hand_on<D: TakesLines>(
    alloc: Global,
    taker: &mut D,
    number: u32,
    rest: &mut Vec<u8>,
    end: &[u8],
) -> Result<(), D::Fault>
    ensures taken { OnOk result ((lines : List (List ℕ)) (r : Result D.Value D.Fault)
        → D.follows taker.new (number + 1) lines r → D.follows taker.old number ((rest.old.items ++ end.now) ∷ lines) r) }
    ensures refused { IfErr result (λ fault. (lines : List (List ℕ))
        → D.follows taker.old number ((rest.old.items ++ end.now) ∷ lines) (Err fault)) }
    ensures rest { rest.new.items ≡ [] }
{
    if rest.is_empty() {
        return taker.take(alloc, number, end);
    }
    let taken = match rest.extend_from_slice(end) {
        Ok(()) => taker.take(alloc, number, rest.as_slice()),
        Err(_) => Err(D::out_of_memory()),
    };
    rest.clear();
    taken
}

/// Ends, where `rest` are the bytes of the last line.
fn finish_lines<D: TakesLines>(
    alloc: Global,
    taker: D,
    number: u32,
    rest: &[u8],
) -> Result<D::Value, D::Fault>
    requires whole { behind_mark 10 rest.now ≡ None }
    requires room { number + 1 < 2 ^ 32 }
    ensures { D.follows taker number (lines_of rest.now) result }
{
    if rest.is_empty() {
        return taker.end(alloc, number);
    }
    let mut next = taker;
    match next.take(alloc, number, rest) {
        Ok(()) => next.end(alloc, number + 1),
        Err(fault) => Err(fault),
    }
}

impl<D: TakesLines> LineCutter<D> {
    /// Nothing cut yet.
    pub fn new(alloc: Global, taker: D) -> LineCutter<D>
        ensures taker { result.taker ≡ taker }
        ensures number { result.number ≡ 1 }
        ensures rest { result.rest.items ≡ [] }
        ensures fed { result.fed ≡ 0 }
    {
        LineCutter {
            taker,
            number: 1,
            rest: Vec::new(alloc),
            fed: 0,
        }
    }

    /// Takes the last bytes of a line.
    fn end_line(&mut self, alloc: Global, end: &[u8]) -> Result<(), D::Fault>
        requires whole { behind_mark 10 end.now ≡ None }
        requires room { self.old.number ≤ self.old.fed }
        ensures read { OnOk result ((more : List ℕ) (r : Result D.Value D.Fault)
            → D.follows self.new.taker self.new.number (lines_of (self.new.rest.items ++ more)) r
            → D.follows self.old.taker self.old.number (lines_of (self.old.rest.items ++ (end.now ++ 10 ∷ more))) r) }
        ensures fault { IfErr result (λ fault. (more : List ℕ)
            → D.follows self.old.taker self.old.number (lines_of (self.old.rest.items ++ (end.now ++ 10 ∷ more))) (Err fault)) }
        ensures number { OnOk result (self.new.number ≡ self.old.number + 1) }
        ensures fed { self.new.fed ≡ self.old.fed }
    {
        match hand_on(alloc, &mut self.taker, self.number, &mut self.rest, end) {
            Ok(()) => {
                self.number += 1;
                Ok(())
            }
            Err(fault) => Err(fault),
        }
    }

    /// Keeps the first bytes of a line.
    fn keep(&mut self, part: &[u8]) -> Result<(), D::Fault>
        requires { behind_mark 10 part.now ≡ None }
        ensures read { OnOk result ((more : List ℕ) (r : Result D.Value D.Fault)
            → D.follows self.new.taker self.new.number (lines_of (self.new.rest.items ++ more)) r
            → D.follows self.old.taker self.old.number (lines_of (self.old.rest.items ++ (part.now ++ more))) r) }
        ensures fault { IfErr result (λ fault. (more : List ℕ)
            → D.follows self.old.taker self.old.number (lines_of (self.old.rest.items ++ (part.now ++ more))) (Err fault)) }
        ensures fed { self.new.fed ≡ self.old.fed }
    {
        match self.rest.extend_from_slice(part) {
            Ok(()) => Ok(()),
            Err(_) => Err(D::out_of_memory()),
        }
    }

    /// Takes the lines of a piece, and keeps what stands behind the last line feed.
    pub fn take_piece(&mut self, alloc: Global, piece: &[u8]) -> Result<(), D::Fault>
        requires { self.old.fed + length piece.now + 2 < 2 ^ 32 }
        ensures read { OnOk result ((more : List ℕ) (r : Result D.Value D.Fault)
            → D.follows self.new.taker self.new.number (lines_of (self.new.rest.items ++ more)) r
            → D.follows self.old.taker self.old.number (lines_of (self.old.rest.items ++ (piece.now ++ more))) r) }
        ensures fault { IfErr result (λ fault. (more : List ℕ)
            → D.follows self.old.taker self.old.number (lines_of (self.old.rest.items ++ (piece.now ++ more))) (Err fault)) }
        ensures fed { self.new.fed ≡ self.old.fed + length piece.now }
    {
        self.fed += piece.len();
        let mut left = piece;
        while let (line, Some(behind)) = cut_line(left) {
            match self.end_line(alloc, line) {
                Ok(()) => left = behind,
                Err(fault) => return Err(fault),
            }
        }
        match self.keep(left) {
            Ok(()) => Ok(()),
            Err(fault) => Err(fault),
        }
    }

    /// Ends with the last line.
    pub fn finish(self, alloc: Global) -> Result<D::Value, D::Fault>
        ensures { D.follows self.taker self.number (lines_of self.rest.items) result }
    {
        let LineCutter {
            taker,
            number,
            rest,
            ..
        } = self;
        finish_lines(alloc, taker, number, rest.as_slice())
    }
}
