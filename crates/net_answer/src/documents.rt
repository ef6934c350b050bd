ghost use Rattle.std.specs.Prelude.{◌≡◌, ◌<◌, ◌≤◌, [], length, IfOk};
ghost use Rattle.pnml_inputs.specs.Answers.{IsQuiet, Limited, ReadsBy};
ghost use Rattle.pnml_inputs.specs.Reading.{file_reading};
ghost use Rattle.answers.specs.Refusals.{refused};
ghost use Rattle.net_answer.specs.Documents.{IsDocument, IsDocumentBy, place_words};

use crate::lines::place_words;
use answers::{Refusal, Stage};
use doc_tree::{DocFault, Element, Reader};
use host_io::Files;
use pnml_inputs::{Role, Source, Stop, read_source};
use std::alloc::Global;
use wide_sums::Memory;

/// The step where a file is damaged at an offset.
fn damaged(alloc: Global, role: Role, word: &[u8], offset: u64) -> Result<Stage<Element>, Memory>
    ensures { IfOk result (λ stage. stage ≡ Stage.Refused (refused role (place_words word.now offset))) }
{
    let words = place_words(alloc, word, offset)?;
    Ok(Stage::Refused(Refusal::new(role, words)))
}

/// The step that an answer of the reader of documents leads to.
fn step_of(
    alloc: Global,
    role: Role,
    answer: Result<Element, DocFault>,
) -> Result<Stage<Element>, Memory>
    ensures { IfOk result (λ stage. IsDocumentBy role answer stage) }
{
    match answer {
        Ok(tree) => Ok(Stage::Reached(tree)),
        Err(DocFault::Malformed { offset }) => damaged(alloc, role, b"malformed", offset),
        Err(DocFault::Deep { offset }) => damaged(alloc, role, b"deep", offset),
        Err(DocFault::Memory) => Err(Memory),
    }
}

/// Reads a file as a document, piece by piece through the buffer: its tree, or the place of its damage.
///
/// Where it is told which names are held, the answer is what the bytes of the file come to, or [`Stop::TooLong`] of the
/// role. [`Stop::Fault`] comes only where the count of faults rose in this call or the name isn't held, and
/// [`Stop::Memory`] for want of memory.
pub fn document<F: Files>(
    alloc: Global,
    source: Source<'_>,
    files: &mut F,
    buffer: &mut [u8],
) -> Result<Stage<Element>, Stop>
    requires { 0 < length buffer.old }
    ensures same { F.held files.new ≡ F.held files.old }
    ensures later { F.faults files.old ≤ F.faults files.new }
    ensures quiet { IsQuiet (F.faults files.old) (F.faults files.new) result }
    ensures read { ReadsBy (Limited (IsDocument source.entry.role)) (F.held files.old)
        (file_reading source.entry.role source.entry.name.now) (F.faults files.old) (F.faults files.new) result }
{
    let reader = match Reader::new(alloc) {
        Ok(reader) => reader,
        Err(Memory) => return Err(Stop::Memory),
    };
    let answer = match read_source(alloc, source, files, buffer, reader) {
        Ok(answer) => answer,
        Err(stop) => return Err(stop),
    };
    match step_of(alloc, source.role, answer) {
        Ok(stage) => Ok(stage),
        Err(Memory) => Err(Stop::Memory),
    }
}
