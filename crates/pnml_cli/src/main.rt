//! The program: the words of its command line, the files that they name, and a text on standard
//! output.
#![tactic(auto)]

use answers::Outcome;
use commands::end_of;
use host_io::{HostFiles, HostSink};
use name_tables::Name;
use std::process::ExitCode;
use std::{env, io};

/// The words after the program's name, or how the program ends where it can't have them.
fn words_of(rt: HostRuntime) -> Result<Vec<Name>, Outcome> {
    let mut args = match env::args(&rt) {
        Ok(args) => args,
        Err(error) if error.kind() == io::ErrorKind::OutOfMemory => return Err(Outcome::Memory),
        Err(_) => return Err(Outcome::Usage),
    };
    let mut words = Vec::new(rt.alloc());
    args.next();
    for arg in args {
        if words.push(Name::from(arg.into_bytes())).is_err() {
            return Err(Outcome::Memory);
        }
    }
    Ok(words)
}

fn main(rt: HostRuntime) -> ExitCode {
    let mut files = HostFiles::new(rt);
    let mut out = HostSink::new(io::writer(&rt));
    ExitCode::from(end_of(&rt, rt.alloc(), words_of(rt), &mut files, &mut out))
}
