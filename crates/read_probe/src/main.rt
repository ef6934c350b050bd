//! Reads one file with the reader of documents, so that its time and memory can be measured.
//!
//! `read_probe FILE` prints what the bytes are: `document`, or `malformed` or `deep` and the offset.
#![tactic(auto)]

ghost use Rattle.std.specs.Prelude.{◌≤◌, ◌^◌, length};
ghost use Rattle.doc_tree.specs.Reading.{FinishAnswer};

use doc_tree::{DocFault, Element, read_pieces};
use host_io::HostFiles;
use name_tables::Name;
use pnml_inputs::{Role, read_input};
use std::alloc::Global;
use std::env;
use std::process::ExitCode;

/// The tree of a document that lies whole in memory, or why it is none.
fn document(alloc: Global, bytes: &[u8]) -> Result<Element, DocFault>
    requires { length bytes.now ≤ 2 ^ 26 }
    ensures { FinishAnswer bytes.now result }
{
    read_pieces(alloc, &[bytes])
}

fn main(rt: HostRuntime) -> ExitCode {
    let Ok(mut args) = env::args(&rt) else {
        return ExitCode::from(5);
    };
    args.next();
    let Some(file) = args.next() else {
        return ExitCode::from(5);
    };
    let mut files = HostFiles::new(rt);
    let name = Name::from(file.into_bytes());
    let Ok(bytes) = read_input(rt.alloc(), Role::Net, &name, &mut files) else {
        return ExitCode::from(3);
    };
    let printed = match document(rt.alloc(), bytes.as_slice()) {
        Ok(_) => println!(rt; "document"),
        Err(DocFault::Malformed { offset }) => println!(rt; "malformed {offset}"),
        Err(DocFault::Deep { offset }) => println!(rt; "deep {offset}"),
        Err(DocFault::Memory) => return ExitCode::from(4),
    };
    match printed {
        Ok(()) => ExitCode::from(0),
        Err(_) => ExitCode::from(3),
    }
}
