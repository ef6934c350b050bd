ghost use Rattle.std.specs.Prelude.{◌≡◌, ◌+◌, ◌^◌, ◌<◌, ◌≤◌, ◌++◌, [], ℕ, List, Some, Err, length, IfOk, IfErr};
ghost use Rattle.cert_reader.specs.Grammar.{IsCertificate};

use crate::drafts::Draft;
use crate::faults::CertFault;
use cert_lines::Cert;
use line_words::{LineReader, TakesLines};
use std::alloc::Global;
use wide_sums::Memory;

/// The certificate that the bytes spell, or their first fault.
pub fn read_cert(alloc: Global, bytes: &[u8]) -> Result<Cert, CertFault>
    requires { length bytes.now ≤ 2 ^ 26 }
    ensures { IsCertificate bytes.now result }
{
    let mut reader = match CertReader::new(alloc) {
        Ok(reader) => reader,
        Err(Memory) => return Err(CertFault::Memory),
    };
    match reader.feed(bytes) {
        Ok(()) => reader.finish(),
        Err(fault) => Err(fault),
    }
}

impl TakesLines for Draft {
    ghost use Rattle.cert_reader.specs.Reading.{ComesTo, LeadsTo};

    type Value = Cert;

    type Fault = CertFault;

    ghost follows = { LeadsTo };

    ghost answers = { ComesTo };

    fn take(&mut self, alloc: Global, number: u32, line: &[u8]) -> Result<(), CertFault> {
        match self.read(alloc, number, line) {
            Ok(()) => Ok(()),
            Err(fault) => Err(fault),
        }
    }

    fn end(self, _alloc: Global, number: u32) -> Result<Cert, CertFault> {
        self.finish(number)
    }

    fn out_of_memory() -> CertFault {
        CertFault::Memory
    }
}

/// A reader of certificates that takes the bytes in pieces, cut anywhere, and keeps one line at most.
///
/// After a fault it answers that fault from then on.
#[derive(Drop)]
pub struct CertReader {
    alloc: Global,
    lines: LineReader<Draft>,
}

impl CertReader {
    ghost use Rattle.cert_reader.specs.Grammar.{IsRefusal};
    ghost use Rattle.cert_reader.specs.Feeding.{HasRead};

    /// A reader that has read nothing.
    pub fn new(alloc: Global) -> Result<CertReader, Memory>
        ensures read { IfOk result (λ reader. HasRead reader []) }
        ensures fed { IfOk result (λ reader. reader.lines.cutter.fed ≡ 0) }
    {
        Ok(CertReader {
            alloc,
            lines: LineReader::new(alloc, Draft::new(alloc)?),
        })
    }

    /// Takes the next bytes; there may be fewer than 2^32 - 2 in all.
    ///
    /// A fault other than `Memory` comes only where it is the fault of every file that begins with
    /// the bytes so far.
    pub fn feed(&mut self, piece: &[u8]) -> Result<(), CertFault>
        requires { self.old.lines.cutter.fed + length piece.now + 2 < 2 ^ 32 }
        ensures read { (b : List ℕ) → HasRead self.old b → HasRead self.new (b ++ piece.now) }
        ensures fault { (b : List ℕ) → HasRead self.old b → IfErr result (λ fault. IsRefusal fault (b ++ piece.now)) }
        ensures refused { IfErr result (λ fault. self.new.lines.fault ≡ Some fault) }
        ensures again { (fault : CertFault) → self.old.lines.fault ≡ Some fault → result ≡ Err fault }
        ensures fed { self.new.lines.cutter.fed ≤ self.old.lines.cutter.fed + length piece.now }
    {
        match self.lines.feed(self.alloc, piece) {
            Ok(()) => Ok(()),
            Err(fault) => Err(fault),
        }
    }

    /// The certificate that the bytes spell, or their first fault.
    pub fn finish(self) -> Result<Cert, CertFault>
        ensures read { (b : List ℕ) → HasRead self b → IsCertificate b result }
        ensures again { (fault : CertFault) → self.lines.fault ≡ Some fault → result ≡ Err fault }
    {
        let CertReader { alloc, lines } = self;
        lines.finish(alloc)
    }
}
