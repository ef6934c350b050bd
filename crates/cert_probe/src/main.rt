//! Reads one file with the reader of certificates, so that its time and memory can be measured.
//!
//! `cert_probe FILE` prints what the bytes are: `certificate`, or the kind of the first fault and its line.
#![tactic(auto)]

ghost use Rattle.std.specs.Prelude.{◌≤◌, ◌^◌, length};
ghost use Rattle.cert_reader.specs.Grammar.{IsCertificate};

use cert_reader::{Cert, CertFault, read_cert};
use host_io::HostFiles;
use name_tables::Name;
use pnml_inputs::{Role, read_input};
use std::alloc::Global;
use std::process::ExitCode;
use std::{env, mem};

/// The certificate that the bytes spell, or their first fault.
fn certificate(alloc: Global, bytes: &[u8]) -> Result<Cert, CertFault>
    requires { length bytes.now ≤ 2 ^ 26 }
    ensures { IsCertificate bytes.now result }
{
    read_cert(alloc, bytes)
}

fn main(rt: HostRuntime) -> ExitCode {
    let Ok(mut args) = env::args(&rt) else {
        return ExitCode::from(5);
    };
    args.next();
    let Some(file) = args.next() else {
        return ExitCode::from(5);
    };
    let mut files = HostFiles::new(rt);
    let name = Name::from(file.into_bytes());
    let Ok(bytes) = read_input(rt.alloc(), Role::Cert, &name, &mut files) else {
        return ExitCode::from(3);
    };
    let printed = match certificate(rt.alloc(), bytes.as_slice()) {
        Ok(cert) => {
            // The process ends here, which frees it at once.
            mem::forget(cert);
            println!(rt; "certificate")
        }
        Err(CertFault::Line { number }) => println!(rt; "line {number}"),
        Err(CertFault::Repeated { number }) => println!(rt; "repeated {number}"),
        Err(CertFault::Coefficient { number }) => println!(rt; "coefficient {number}"),
        Err(CertFault::CertLimit { number }) => println!(rt; "limit {number}"),
        Err(CertFault::Memory) => return ExitCode::from(4),
    };
    match printed {
        Ok(()) => ExitCode::from(0),
        Err(_) => ExitCode::from(3),
    }
}
