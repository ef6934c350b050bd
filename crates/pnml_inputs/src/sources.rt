ghost use Rattle.std.specs.Prelude.{◌≡◌, ℕ, ◌<◌, ◌≤◌, ◌^◌, List, Option, [], ◌++◌, length, IsTrue, true, false, Ok, IfErr, OnOk};
ghost use Rattle.std.specs.Io.KnownBytes.{Consumes, IsAtEnd};
ghost use Rattle.host_io.specs.Causes.{Rose};
ghost use Rattle.pnml_inputs.specs.Answers.{IsBytes, IsQuiet, Limited, ReadsBy};
ghost use Rattle.pnml_inputs.specs.Intake.{HasTaken};
ghost use Rattle.pnml_inputs.specs.Reading.{IsBroken, within_limit, file_reading};

use crate::inputs::{MAX_BYTES, Role, Stop};
use crate::intake::Intake;
use crate::keeper::Keeper;
use host_io::{Failed, Files};
use name_tables::Name;
use piece_readers::PieceReader;
use std::alloc::Global;
use wide_sums::Memory;

/// One file of a command.
#[derive(Clone, Copy)]
pub struct Source<'a> {
    /// Which of the command's files it is.
    pub role: Role,
    /// Its name.
    pub name: &'a Name,
}

/// Reads once. It answers whether any byte came.
fn read_more<F: Files, P: PieceReader>(
    alloc: Global,
    files: &mut F,
    buffer: &mut [u8],
    intake: &mut Intake<P>,
) -> Result<bool, Stop>
    requires ready { IsTrue (F.ready files.old) }
    requires room { 0 < length buffer.old }
    requires limit { intake.old.count ≤ 2 ^ 26 }
    ensures ready { IsTrue (F.ready files.new) }
    ensures same { F.held files.new ≡ F.held files.old }
    ensures later { F.faults files.old ≤ F.faults files.new }
    ensures quiet { OnOk result (F.faults files.new ≡ F.faults files.old) }
    ensures more { result ≡ Ok true → intake.old.count < intake.new.count }
    ensures taken { OnOk result ((told : Option (List ℕ)) (b : List ℕ)
        → Consumes told (F.left files.old) b
        → HasTaken P.stands P.answers intake.old.reader intake.old.fault intake.old.count b
        → (c : List ℕ) × Consumes told (F.left files.new) c
        × HasTaken P.stands P.answers intake.new.reader intake.new.fault intake.new.count c) }
    ensures end { result ≡ Ok false → IsAtEnd (F.left files.new) × (intake.new.count ≡ intake.old.count) }
    ensures stop { IfErr result (λ stop. IsBroken (F.faults files.old) (F.faults files.new) stop) }
{
    let count = match files.read(buffer) {
        Ok(count) => count,
        Err(Failed) => return Err(Stop::Fault),
    };
    intake.take(alloc, &buffer[..count]);
    Ok(0 < count)
}

/// Reads what is left of the current file. The first byte past the limit ends the reading.
fn read_to_end<F: Files, P: PieceReader>(
    alloc: Global,
    role: Role,
    files: &mut F,
    buffer: &mut [u8],
    reader: P,
) -> Result<Result<P::Value, P::Fault>, Stop>
    requires ready { IsTrue (F.ready files.old) }
    requires room { 0 < length buffer.old }
    requires new { P.stands reader [] }
    requires unfed { P.fed reader ≡ 0 }
    ensures same { F.held files.new ≡ F.held files.old }
    ensures later { F.faults files.old ≤ F.faults files.new }
    ensures quiet { IsQuiet (F.faults files.old) (F.faults files.new) result }
    ensures read { ReadsBy (Limited P.answers) (F.left files.old) (within_limit role)
        (F.faults files.old) (F.faults files.new) result }
{
    let mut intake = Intake::new(reader);
    while intake.count <= MAX_BYTES {
        match read_more(alloc, files, buffer, &mut intake) {
            Ok(true) => {}
            Ok(false) => return Ok(intake.finish(alloc)),
            Err(stop) => return Err(stop),
        }
    }
    Err(Stop::TooLong(role))
}

/// Opens one file of a command and feeds it to the reader, to its end, through the buffer.
///
/// A fault of the reader is kept while the file is read on and counted; nothing past the limit is
/// fed. Where it is told which names are held, the answer is the reader's to the bytes of the file,
/// or [`Stop::TooLong`] of the role. [`Stop::Fault`] comes only where the count of faults rose in
/// this call or the name isn't held, and [`Stop::Memory`] for want of memory.
pub fn read_source<F: Files, P: PieceReader>(
    alloc: Global,
    source: Source<'_>,
    files: &mut F,
    buffer: &mut [u8],
    reader: P,
) -> Result<Result<P::Value, P::Fault>, Stop>
    requires room { 0 < length buffer.old }
    requires new { P.stands reader [] }
    requires unfed { P.fed reader ≡ 0 }
    ensures same { F.held files.new ≡ F.held files.old }
    ensures later { F.faults files.old ≤ F.faults files.new }
    ensures quiet { IsQuiet (F.faults files.old) (F.faults files.new) result }
    ensures read { ReadsBy (Limited P.answers) (F.held files.old) (file_reading source.entry.role source.entry.name.now)
        (F.faults files.old) (F.faults files.new) result }
{
    match files.open_file(source.name) {
        Ok(()) => read_to_end(alloc, source.role, files, buffer, reader),
        Err(Failed) => Err(Stop::Fault),
    }
}

/// The bytes of one file of a command, which are held whole. The causes of a stop are those of [`read_source`].
pub fn read_whole<F: Files>(
    alloc: Global,
    source: Source<'_>,
    files: &mut F,
    buffer: &mut [u8],
) -> Result<Vec<u8>, Stop>
    requires { 0 < length buffer.old }
    ensures same { F.held files.new ≡ F.held files.old }
    ensures later { F.faults files.old ≤ F.faults files.new }
    ensures quiet { IsQuiet (F.faults files.old) (F.faults files.new) result }
    ensures read { ReadsBy (Limited IsBytes) (F.held files.old) (file_reading source.entry.role source.entry.name.now)
        (F.faults files.old) (F.faults files.new) result }
{
    match read_source(alloc, source, files, buffer, Keeper::new(alloc)) {
        Ok(Ok(bytes)) => Ok(bytes),
        Ok(Err(Memory)) => Err(Stop::Memory),
        Err(stop) => Err(stop),
    }
}
