ghost use Rattle.std.specs.Prelude.{◌≤◌, ◌≡◌};
ghost use Rattle.answers.specs.Written.{written};
ghost use Rattle.pnml_inputs.specs.Answers.{IsQuiet, ReadsBy};
ghost use Rattle.commands.specs.Answers.{reading_for};
ghost use Rattle.commands.specs.Replies.{IsReply};

use answers::{Command, Form, Reply};
use check_answer::{Operands, check};
use host_io::{Files, Gate};
use net_answer::canon;
use pnml_inputs::Stop;
use std::alloc::Global;

/// What the command of a form says of its files.
///
/// Where it is told which names are held, the answer is that to the bytes of the files, or [`Stop::TooLong`] of the first that is
/// longer than the limit. [`Stop::Fault`] comes only where the count of faults rose in this call, or where the name of a
/// file isn't held before which none is too long, and [`Stop::Memory`] for want of memory.
pub fn reply_to<F: Files, G: Gate>(
    alloc: Global,
    form: Form<'_>,
    files: &mut F,
    gate: &G,
) -> Result<Reply, Stop>
    ensures same { F.held files.new ≡ F.held files.old }
    ensures later { F.faults files.old ≤ F.faults files.new }
    ensures quiet { IsQuiet (F.faults files.old) (F.faults files.new) result }
    ensures read { ReadsBy (λ bytes reply. IsReply form.entry.command bytes reply.verdict reply.text.items) (F.held files.old)
        (reading_for (written form.entry)) (F.faults files.old) (F.faults files.new) result }
{
    match form.command {
        Command::Canon => canon(alloc, &form.names[0], files),
        Command::Check => {
            let operands = Operands {
                net: &form.names[0],
                formula: &form.names[1],
                certificate: &form.names[2],
            };
            check(alloc, operands, files, gate)
        }
    }
}
