ghost use Rattle.std.specs.Prelude.{◌≡◌, ℕ, ◌<◌, ◌≤◌, ◌⊎◌, Bool, List, Option, length, IsTrue, is_ok, OnOk, OnErr, IfOk};
ghost use Rattle.std.specs.Io.{ReadsAtMost};
ghost use Rattle.std.specs.Io.KnownBytes.{ReadConsumes, WriteAppends};
ghost use Rattle.host_io.specs.Causes.{Rose, HasCause};
ghost use Rattle.host_io.specs.Held.{Held, IsOpened, IsUnheld};

use name_tables::Name;
use std::error::Error;
use std::fmt;

/// The answer of files or of a sink that didn't do what was asked.
#[derive(Clone, Copy, Debug, PartialEq, Eq)]
pub struct Failed;

impl fmt::Display for Failed {
    fn fmt<W: fmt::Write>(&self, f: &mut fmt::Formatter<W>) -> fmt::Result {
        f.write_str("an input or output operation failed")
    }
}

impl Error for Failed {}

/// Named files, of which one at a time is read from its beginning.
///
/// An object may tell less than all: where it doesn't tell what it holds, no clause speaks of bytes.
pub trait Files {
    // The names that are held, with their bytes, where that is told.
    ghost held: { Self → Option Held };

    // The bytes still to read of the file that was opened last, where they are told.
    ghost left: { Self → Option (List ℕ) };

    // A file is current.
    ghost ready: { Self → Bool };

    // How many faults there were; it stands still at 2^64 - 1.
    ghost faults: { Self → ℕ };

    /// Makes the named file the current one, at its beginning. A file that was open before is left.
    ///
    /// [`Failed`] comes only where the count of faults rose in this call, or where it is told that
    /// the name isn't held; no file is current then. Without it the count stands still.
    fn open_file(&mut self, name: &Name) -> Result<(), Failed>
        ensures opened { OnOk result (IsOpened (held self.old) name.now (left self.new)) }
        ensures ready { ready self.new ≡ is_ok result }
        ensures same { held self.new ≡ held self.old }
        ensures later { faults self.old ≤ faults self.new }
        ensures quiet { OnOk result (faults self.new ≡ faults self.old) }
        ensures failed { OnErr result
            (Rose (faults self.old) (faults self.new) ⊎ IsUnheld (held self.old) name.now) };

    /// Reads the next bytes of the current file into the front of `buf`, and answers how many. It
    /// answers 0 only at the end of the file.
    ///
    /// [`Failed`] comes only where the count of faults rose in this call. The same bytes are then
    /// still to read, and the bytes of `buf` are any. Without it the count stands still.
    fn read(&mut self, buf: &mut [u8]) -> Result<usize, Failed>
        requires ready { IsTrue (ready self.old) }
        requires room { 0 < length buf.old }
        ensures bound { ReadsAtMost result buf.new }
        ensures bytes { ReadConsumes (left self.old) (left self.new) result buf.new }
        ensures ready { IsTrue (ready self.new) }
        ensures same { held self.new ≡ held self.old }
        ensures quiet { OnOk result (faults self.new ≡ faults self.old) }
        ensures cause { HasCause (faults self.old) (faults self.new) result };
}

/// A place that takes bytes in order, as standard output does.
pub trait Sink {
    // The bytes taken so far, where they are told.
    ghost written: { Self → Option (List ℕ) };

    // How many faults there were; it stands still at 2^64 - 1.
    ghost faults: { Self → ℕ };

    /// Takes bytes from the front of `piece`, at least one, and answers how many.
    ///
    /// [`Failed`] comes only where the count of faults rose in this call, and nothing was taken
    /// then. An object that can take nothing of the piece answers it. Without it the count stands still.
    fn put(&mut self, piece: &[u8]) -> Result<usize, Failed>
        requires { 0 < length piece.now }
        ensures some { IfOk result (λ n. 0 < n) }
        ensures within { IfOk result (λ n. n ≤ length piece.now) }
        ensures bytes { WriteAppends (written self.old) (written self.new) result piece.now }
        ensures quiet { OnOk result (faults self.new ≡ faults self.old) }
        ensures cause { HasCause (faults self.old) (faults self.new) result };
}

/// A part of the work that is cut into jobs.
#[derive(Clone, Copy, Debug, PartialEq, Eq)]
pub enum Phase {
    /// The candidate bindings are judged.
    Unfold,
    /// The obligations of a certificate are judged.
    Judge,
}

/// What each job passes as it begins. It answers nothing, and changes no value of the work.
pub trait Gate: Sync {
    /// Called once at the start of each job of a phase, with the job's number from 0.
    fn enter(&self, phase: Phase, job: u32);
}

/// The gate that lets every job pass at once.
#[derive(Clone, Copy, Debug, PartialEq, Eq)]
pub struct OpenGate;

impl Gate for OpenGate {
    fn enter(&self, _phase: Phase, _job: u32) {}
}
