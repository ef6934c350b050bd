ghost use Rattle.std.specs.Prelude.{◌≡◌, ◌<◌, ◌≤◌, ◌^◌, length, IfOk, OnErr};
ghost use Rattle.pnml_inputs.specs.Answers.{IsQuiet};
ghost use Rattle.pnml_inputs.specs.Reading.{file_reading, inputs_reading, Reads};

use crate::sources::{Source, read_whole};
use host_io::Files;
use name_tables::Name;
use std::alloc::Global;
use std::marker::Model;
use thiserror::Error;

/// The most bytes that a file may have.
pub const MAX_BYTES: usize = 67_108_864;

/// Which of the files of a command.
#[derive(Clone, Copy, Debug, PartialEq, Eq)]
pub enum Role {
    /// The net.
    Net,
    /// The formula file, a list of properties.
    Formula,
    /// The certificate.
    Cert,
}

/// Why the files of a command weren't read to their ends.
#[derive(Clone, Copy, Debug, PartialEq, Eq, Error)]
pub enum Stop {
    /// A file couldn't be opened or read, or its name isn't held.
    #[error("a file can't be read")]
    Fault,
    /// The file has more bytes than [`MAX_BYTES`].
    #[error("a file is too long")]
    TooLong(Role),
    /// Memory ran out.
    #[error("memory ran out")]
    Memory,
}

/// The texts of the three files of a command, each within the limit.
#[derive(Debug, Drop)]
pub struct Inputs {
    net: Vec<u8>,
    formula: Vec<u8>,
    certificate: Vec<u8>,
}

impl Model for Inputs {
    ghost use Rattle.pnml_inputs.specs.Texts.{Texts};

    ghost Value = { Texts };

    ghost view = { λ i. record {
      net = i.net.items;
      formula = i.formula.items;
      certificate = i.certificate.items;
    } };
}

impl Inputs {
    /// These three texts.
    pub fn new(net: Vec<u8>, formula: Vec<u8>, certificate: Vec<u8>) -> Inputs
        ensures { result ≡ record {
          net = net.items;
          formula = formula.items;
          certificate = certificate.items;
        } }
    {
        Inputs {
            net,
            formula,
            certificate,
        }
    }

    /// The bytes of the net file.
    pub fn net(&self) -> &[u8]
        ensures { result.now ≡ self.now.net }
    {
        self.net.as_slice()
    }

    /// The bytes of the formula file.
    pub fn formula(&self) -> &[u8]
        ensures { result.now ≡ self.now.formula }
    {
        self.formula.as_slice()
    }

    /// The bytes of the certificate file.
    pub fn certificate(&self) -> &[u8]
        ensures { result.now ≡ self.now.certificate }
    {
        self.certificate.as_slice()
    }

    /// The texts of the net, the formula and the certificate, in this order.
    pub fn into_parts(self) -> (Vec<u8>, Vec<u8>, Vec<u8>)
        ensures net { result.0.items ≡ self.net }
        ensures formula { result.1.items ≡ self.formula }
        ensures certificate { result.2.items ≡ self.certificate }
    {
        let Inputs {
            net,
            formula,
            certificate,
        } = self;
        (net, formula, certificate)
    }
}

/// A buffer for reading, of 65,536 bytes, which serves all files of a command. [`Stop::Memory`] comes for want of memory.
pub fn new_buffer(alloc: Global) -> Result<Vec<u8>, Stop>
    ensures room { IfOk result (λ buffer. 0 < length buffer.items) }
    ensures memory { OnErr result (result ≡ Err Stop.Memory) }
{
    match vec![in alloc; 0u8; 65_536] {
        Ok(buffer) => Ok(buffer),
        Err(_) => Err(Stop::Memory),
    }
}

/// Opens one file and reads it to its end.
fn read_file<F: Files>(
    alloc: Global,
    role: Role,
    name: &Name,
    files: &mut F,
    buffer: &mut [u8],
) -> Result<Vec<u8>, Stop>
    requires { 0 < length buffer.old }
    ensures same { F.held files.new ≡ F.held files.old }
    ensures later { F.faults files.old ≤ F.faults files.new }
    ensures quiet { IsQuiet (F.faults files.old) (F.faults files.new) result }
    ensures read { Reads (λ bytes. bytes.items) (F.held files.old) (file_reading role name.now)
        (F.faults files.old) (F.faults files.new) result }
    ensures limit { IfOk result (λ bytes. length bytes.items ≤ 2 ^ 26) }
{
    read_whole(alloc, Source { role, name }, files, buffer)
}

/// Reads the one file of a command to its end.
///
/// Where it is told which names are held, the answer is what reading the file comes to: its bytes, or
/// [`Stop::TooLong`] of the role. [`Stop::Fault`] comes only where the count of faults rose
/// in this call or the name isn't held, and [`Stop::Memory`] for want of memory. The bytes are within the limit, told or not.
pub fn read_input<F: Files>(
    alloc: Global,
    role: Role,
    name: &Name,
    files: &mut F,
) -> Result<Vec<u8>, Stop>
    ensures same { F.held files.new ≡ F.held files.old }
    ensures later { F.faults files.old ≤ F.faults files.new }
    ensures quiet { IsQuiet (F.faults files.old) (F.faults files.new) result }
    ensures read { Reads (λ bytes. bytes.items) (F.held files.old) (file_reading role name.now)
        (F.faults files.old) (F.faults files.new) result }
    ensures limit { IfOk result (λ bytes. length bytes.items ≤ 2 ^ 26) }
{
    match new_buffer(alloc) {
        Ok(mut buffer) => read_file(alloc, role, name, files, &mut buffer),
        Err(_) => Err(Stop::Memory),
    }
}

/// Reads the three files of a command to their ends, the net first, then the formula file and the
/// certificate. After a stop no later file is opened.
///
/// Where it is told which names are held, the answer is what the reading of the three comes to: their
/// bytes, or [`Stop::TooLong`] of the first file that is longer than the limit. [`Stop::Fault`] comes
/// only where the count of faults rose in this call, or where the name of a file isn't held before
/// which none is too long, and [`Stop::Memory`] for want of memory.
pub fn read_inputs<F: Files>(
    alloc: Global,
    net: &Name,
    formula: &Name,
    certificate: &Name,
    files: &mut F,
) -> Result<Inputs, Stop>
    ensures same { F.held files.new ≡ F.held files.old }
    ensures later { F.faults files.old ≤ F.faults files.new }
    ensures quiet { IsQuiet (F.faults files.old) (F.faults files.new) result }
    ensures read { Reads (λ inputs. inputs) (F.held files.old)
        (inputs_reading net.now formula.now certificate.now)
        (F.faults files.old) (F.faults files.new) result }
{
    let mut buffer = match new_buffer(alloc) {
        Ok(buffer) => buffer,
        Err(_) => return Err(Stop::Memory),
    };
    let net = match read_file(alloc, Role::Net, net, files, &mut buffer) {
        Ok(bytes) => bytes,
        Err(stop) => return Err(stop),
    };
    let formula = match read_file(alloc, Role::Formula, formula, files, &mut buffer) {
        Ok(bytes) => bytes,
        Err(stop) => return Err(stop),
    };
    match read_file(alloc, Role::Cert, certificate, files, &mut buffer) {
        Ok(certificate) => Ok(Inputs::new(net, formula, certificate)),
        Err(stop) => Err(stop),
    }
}
