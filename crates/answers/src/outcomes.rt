ghost use Rattle.std.specs.Prelude.{◌≡◌};
ghost use Rattle.answers.specs.Outcomes.{status_of};

use pnml_inputs::Role;

/// How a command ended.
#[derive(Clone, Copy, Debug, PartialEq, Eq)]
pub enum Outcome {
    /// Every obligation of the certificate is true; the report was written.
    Holds,
    /// A command without a verdict succeeded; its text was written.
    Done,
    /// An obligation of the certificate is false; the report was written.
    NotShown,
    /// An obligation has a sum that is out of range; the report was written.
    Range,
    /// A file isn't taken; one line was written.
    Refused,
    /// A file can't be read; nothing was written.
    ReadFault,
    /// This file has more than 67,108,864 bytes; one line was written.
    TooLong(Role),
    /// The sink didn't take the whole text; its first bytes were written.
    WriteFault,
    /// Memory ran out; nothing was written.
    Memory,
    /// The words are of no form; nothing was written.
    Usage,
}

/// The exit status of an outcome, from 0 to 5.
pub fn status(outcome: &Outcome) -> u8
    ensures { result ≡ status_of outcome.now }
{
    match outcome {
        Outcome::Holds | Outcome::Done => 0,
        Outcome::NotShown | Outcome::Range => 1,
        Outcome::Refused | Outcome::TooLong(_) => 2,
        Outcome::ReadFault | Outcome::WriteFault => 3,
        Outcome::Memory => 4,
        Outcome::Usage => 5,
    }
}
