ghost use Rattle.std.specs.Prelude.{◌≡◌, IfOk};
ghost use Rattle.answers.specs.Refusals.{refused};
ghost use Rattle.answers.specs.Stages.{reply_to_refusal};

use crate::replies::Reply;
use crate::texts::refusal_text;
use crate::verdicts::Verdict;
use pnml_inputs::Role;
use std::alloc::Global;
use std::marker::Model;
use wide_sums::Memory;

/// Why a file isn't taken: which one, and the words that its line has behind the file's.
#[derive(Debug, Drop)]
pub struct Refusal {
    role: Role,
    words: Vec<u8>,
}

impl Model for Refusal {
    ghost use Rattle.answers.specs.Refusals.{Refused};

    ghost Value = { Refused };

    ghost view = { λ r. record { role = r.role; words = r.words.items } };
}

impl Refusal {
    /// This file isn't taken, for what these words say.
    pub fn new(role: Role, words: Vec<u8>) -> Refusal
        ensures { result ≡ refused role words.items }
    {
        Refusal { role, words }
    }

    /// The reply that says so. [`Memory`] comes for want of memory.
    pub fn reply(&self, alloc: Global) -> Result<Reply, Memory>
        ensures verdict { IfOk result (λ reply. reply.verdict ≡ (reply_to_refusal self.now).0) }
        ensures text { IfOk result (λ reply. reply.text.items ≡ (reply_to_refusal self.now).1) }
    {
        let text = refusal_text(alloc, self.role, &self.words)?;
        Ok(Reply {
            verdict: Verdict::Refused,
            text,
        })
    }
}

/// What a step of a command comes to: it refuses a file, or reaches a value for the next step.
#[derive(Debug, Drop)]
pub enum Stage<A: Drop> {
    /// A file isn't taken.
    Refused(Refusal),
    /// The value.
    Reached(A),
}
