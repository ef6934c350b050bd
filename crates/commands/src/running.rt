ghost use Rattle.std.specs.Prelude.{◌≡◌, ◌≤◌, ◌⊎◌, ◌↔◌, Some, None, IfSome, IfOk, IfErr, OnOk, OnErr, IsSome, codes};
ghost use Rattle.host_io.specs.Causes.{Rose};
ghost use Rattle.answers.specs.Forms.{form_of};
ghost use Rattle.answers.specs.Outcomes.{IsFinal, IsSilent};
ghost use Rattle.answers.specs.Refusals.{refusal_line};
ghost use Rattle.answers.specs.Written.{written};
ghost use Rattle.commands.specs.Answers.{IsAnswer, IsAnswerTo, IsCut, IsTooLong, IsUnread, IsWritten, ShowInvariant};
ghost use Rattle.commands.specs.Silences.{Silences, SilencesWords};

use crate::laws::{holds_shows_an_invariant, too_long_is_told};
use crate::replies::reply_to;
use answers::{Form, Outcome, form_of, too_long_text};
use host_io::{Failed, Files, Gate, Sink};
use name_tables::Name;
use pnml_inputs::{Role, Stop, put_all};
use std::alloc::Global;
use std::thread::Threads;
use wide_sums::Memory;

/// How a command line ends, and the whole text that is to be written for it.
#[derive(Debug, Drop)]
struct Answer {
    outcome: Outcome,
    text: Vec<u8>,
}

/// Why a command line has no text.
#[derive(Clone, Copy, Debug, PartialEq, Eq)]
enum Silence {
    /// The words are of no form.
    Usage,
    /// A file can't be read.
    ReadFault,
    /// Memory ran out.
    Memory,
}

/// The answer where the file of this role is longer than the limit.
fn too_long(alloc: Global, role: Role) -> Result<Answer, Silence>
    ensures outcome { IfOk result (λ answer. answer.outcome ≡ Outcome.TooLong role) }
    ensures text { IfOk result (λ answer. answer.text.items ≡ refusal_line role (codes "too-long")) }
    ensures silence { OnErr result (result ≡ Err Silence.Memory) }
{
    match too_long_text(alloc, role) {
        Ok(text) => Ok(Answer {
            outcome: Outcome::TooLong(role),
            text,
        }),
        Err(Memory) => Err(Silence::Memory),
    }
}

/// The answer to a form.
fn answer_to<F: Files, G: Gate>(
    alloc: Global,
    form: Form<'_>,
    files: &mut F,
    gate: &G,
) -> Result<Answer, Silence>
    ensures is_final { IfOk result (λ answer. IsFinal answer.outcome) }
    ensures quiet { OnOk result (F.faults files.new ≡ F.faults files.old) }
    ensures answer { IfSome (F.held files.old) (λ held. IfOk result (λ answer.
        IsAnswerTo (Some (written form.entry)) held answer.outcome answer.text.items)) }
    ensures silence { IfErr result
        (Silences (written form.entry) (F.held files.old) (F.faults files.old) (F.faults files.new)) }
{
    match reply_to(alloc, form, files, gate) {
        Ok(reply) => Ok(Answer {
            outcome: reply.verdict.outcome(),
            text: reply.text,
        }),
        Err(Stop::TooLong(role)) => too_long(alloc, role),
        Err(Stop::Fault) => Err(Silence::ReadFault),
        Err(Stop::Memory) => Err(Silence::Memory),
    }
}

/// The answer to the words.
fn answer_for<F: Files, G: Gate>(
    alloc: Global,
    words: &[Name],
    files: &mut F,
    gate: &G,
) -> Result<Answer, Silence>
    ensures is_final { IfOk result (λ answer. IsFinal answer.outcome) }
    ensures form { OnOk result (IsSome (form_of words.now)) }
    ensures quiet { OnOk result (F.faults files.new ≡ F.faults files.old) }
    ensures answer { IfSome (F.held files.old) (λ held. IfOk result (λ answer.
        IsAnswer words.now held answer.outcome answer.text.items)) }
    ensures silence { IfErr result
        (SilencesWords words.now (F.held files.old) (F.faults files.old) (F.faults files.new)) }
{
    match form_of(words) {
        Some(form) => answer_to(alloc, form, files, gate),
        None => Err(Silence::Usage),
    }
}

/// The answer to the words, with what follows from it.
fn shown_answer<F: Files, G: Gate>(
    alloc: Global,
    words: &[Name],
    files: &mut F,
    gate: &G,
) -> Result<Answer, Silence>
    ensures is_final { IfOk result (λ answer. IsFinal answer.outcome) }
    ensures form { OnOk result (IsSome (form_of words.now)) }
    ensures quiet { OnOk result (F.faults files.new ≡ F.faults files.old) }
    ensures answer { IfSome (F.held files.old) (λ held. IfOk result (λ answer.
        IsAnswer words.now held answer.outcome answer.text.items)) }
    ensures sound { IfSome (F.held files.old) (λ held. IfOk result (λ answer.
        answer.outcome ≡ Outcome.Holds → ShowInvariant words.now held)) }
    ensures too_long { IfSome (F.held files.old) (λ held. IfOk result (λ answer. (role : Role)
        → (answer.outcome ≡ Outcome.TooLong role) ↔ IsTooLong words.now held role)) }
    ensures silence { IfErr result
        (SilencesWords words.now (F.held files.old) (F.faults files.old) (F.faults files.new)) }
{
    holds_shows_an_invariant();
    too_long_is_told();
    answer_for(alloc, words, files, gate)
}

/// Does what the words of a command line say: it reads the files that they name, in one job for each
/// part of the work, and puts the text of the answer into the sink.
///
/// The forms are `canon NET` and `check NET FORMULA CERT`, each followed by nothing or by `--workers` and a number from 1 to 64
/// without a leading zero, which changes neither the outcome nor the text. Each file is read to its end through one buffer, and
/// the first that can't be read or is too long ends the call. Where it is told which names are held, the outcome
/// and the text are those of the answer. [`Outcome::ReadFault`] comes only where the count of faults
/// of the files rose in this call, or where a name isn't held before which no file is too long.
/// [`Outcome::WriteFault`] comes only where that of the sink rose, and the first bytes of the text
/// were taken then. [`Outcome::Memory`] comes for want of memory, before anything is written. Where a text was written whole,
/// neither count of faults rose.
pub fn run<R: Threads + Sync, F: Files, K: Sink, G: Gate>(
    _rt: &R,
    alloc: Global,
    words: &[Name],
    files: &mut F,
    out: &mut K,
    gate: &G,
) -> Outcome
    ensures usage { (result ≡ Outcome.Usage) ↔ (form_of words.now ≡ None) }
    ensures answered { IfSome (F.held files.old) (λ held. IsFinal result
        → IsWritten words.now held result (K.written out.old) (K.written out.new)) }
    ensures prefix { IfSome (F.held files.old) (λ held. result ≡ Outcome.WriteFault
        → IsCut words.now held (K.written out.old) (K.written out.new)) }
    ensures silent { IsSilent result → K.written out.new ≡ K.written out.old }
    ensures read_fault { result ≡ Outcome.ReadFault
        → Rose (F.faults files.old) (F.faults files.new) ⊎ IsUnread words.now (F.held files.old) }
    ensures write_fault { result ≡ Outcome.WriteFault → Rose (K.faults out.old) (K.faults out.new) }
    ensures too_long { IfSome (F.held files.old) (λ held. IsFinal result → (role : Role)
        → (result ≡ Outcome.TooLong role) ↔ IsTooLong words.now held role) }
    ensures complete { IfSome (F.held files.old) (λ held. ¬ (Rose (F.faults files.old) (F.faults files.new))
        → ¬ (Rose (K.faults out.old) (K.faults out.new))
        → (result ≡ Outcome.Memory) ⊎ IsWritten words.now held result (K.written out.old) (K.written out.new)) }
    ensures sound { IfSome (F.held files.old) (λ held. result ≡ Outcome.Holds → ShowInvariant words.now held) }
    ensures quiet { IsFinal result → F.faults files.new ≡ F.faults files.old }
    ensures quiet_out { IsFinal result → K.faults out.new ≡ K.faults out.old }
{
    match shown_answer(alloc, words, files, gate) {
        Ok(answer) => match put_all(out, &answer.text) {
            Ok(()) => answer.outcome,
            Err(Failed) => Outcome::WriteFault,
        },
        Err(Silence::Usage) => Outcome::Usage,
        Err(Silence::ReadFault) => Outcome::ReadFault,
        Err(Silence::Memory) => Outcome::Memory,
    }
}
