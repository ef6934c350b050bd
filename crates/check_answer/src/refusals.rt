ghost use Rattle.std.specs.Prelude.{◌≡◌};
ghost use Rattle.check_answer.specs.Causes.{refusal_of_judge, refusal_of_text};

use plain_judge::JudgeFault;
use plain_rows::BuildFault;
use plain_text::TextFault;
use pnml_inputs::Role;
use wide_sums::Memory;

/// Why the files of a command aren't judged.
#[derive(Clone, Copy, Debug, PartialEq, Eq)]
pub enum Refusal {
    /// This file isn't taken yet.
    NotYet(Role),
    /// Memory ran out.
    Memory,
}

impl Refusal {
    /// Why the text of this file isn't read.
    pub fn of_text(role: Role, fault: TextFault) -> Refusal
        ensures { result ≡ refusal_of_text role fault }
    {
        match fault {
            TextFault::NotYet => Refusal::NotYet(role),
            TextFault::Memory => Refusal::Memory,
        }
    }

    /// Why this file isn't judged.
    pub fn of_judge(role: Role, fault: JudgeFault) -> Refusal
        ensures { result ≡ refusal_of_judge role fault }
    {
        match fault {
            JudgeFault::NotYet => Refusal::NotYet(role),
            JudgeFault::Memory => Refusal::Memory,
        }
    }
}

impl From<Memory> for Refusal {
    ghost use Rattle.std.specs.Prelude.{◌≡◌};
    ghost use Rattle.check_answer.specs.declared.refusals.Refusal.TheVariants as refusal;

    ghost from_gives = { λ want given. given ≡ refusal.Memory };

    fn from(_refused: Memory) -> Refusal {
        Refusal::Memory
    }
}

impl From<BuildFault> for Refusal {
    ghost use Rattle.std.specs.Prelude.{◌≡◌};
    ghost use Rattle.check_answer.specs.Causes.{refusal_of_build};

    ghost from_gives = { λ fault given. given ≡ refusal_of_build fault };

    fn from(fault: BuildFault) -> Refusal {
        match fault {
            BuildFault::NotYet => Refusal::NotYet(Role::Net),
            BuildFault::Memory => Refusal::Memory,
        }
    }
}
