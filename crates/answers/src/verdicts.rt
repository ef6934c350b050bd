ghost use Rattle.std.specs.Prelude.{◌≡◌};
ghost use Rattle.answers.specs.Outcomes.{IsFinal};
ghost use Rattle.answers.specs.Verdicts.{outcome_of};

use crate::outcomes::Outcome;

/// What a command says of its files once all of them are read.
#[derive(Clone, Copy, Debug, PartialEq, Eq)]
pub enum Verdict {
    /// Every obligation of the certificate is true.
    Holds,
    /// A command without a verdict of its own succeeded.
    Done,
    /// An obligation of the certificate is false.
    NotShown,
    /// An obligation has a sum that is out of range.
    Range,
    /// A file isn't taken.
    Refused,
}

impl Verdict {
    /// How a command ends that says so, once its text is written.
    pub fn outcome(self) -> Outcome
        ensures outcome { result ≡ outcome_of self }
        ensures is_final { IsFinal result }
    {
        match self {
            Verdict::Holds => Outcome::Holds,
            Verdict::Done => Outcome::Done,
            Verdict::NotShown => Outcome::NotShown,
            Verdict::Range => Outcome::Range,
            Verdict::Refused => Outcome::Refused,
        }
    }
}
