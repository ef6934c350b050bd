ghost use Rattle.std.specs.Prelude.{◌≡◌, MatchResult};
ghost use Rattle.answers.specs.declared.outcomes.Outcome.{Outcome};
ghost use Rattle.answers.specs.Outcomes.{status_of};
ghost use Rattle.commands.specs.Ends.{HasRun};

use crate::running::run;
use answers::{Outcome, status};
use host_io::{Files, OpenGate, Sink};
use name_tables::Name;
use std::alloc::Global;
use std::thread::Threads;

/// Runs the words of a command line, or ends as it is told where there are none, and gives the exit status of the outcome.
pub fn end_of<R: Threads + Sync, F: Files, K: Sink>(
    rt: &R,
    alloc: Global,
    words: Result<Vec<Name>, Outcome>,
    files: &mut F,
    out: &mut K,
) -> u8
    ensures { MatchResult words
        (λ words. (outcome : Outcome) × (result ≡ status_of outcome) × HasRun words.items (F.held files.old)
        (record { read_faults = F.faults files.old; write_faults = K.faults out.old; written = K.written out.old })
        (record { read_faults = F.faults files.new; write_faults = K.faults out.new; written = K.written out.new }) outcome)
        (λ outcome. result ≡ status_of outcome) }
{
    match words {
        Ok(words) => {
            let outcome = run(rt, alloc, &words, files, out, &OpenGate);
            status(&outcome)
        }
        Err(outcome) => status(&outcome),
    }
}
