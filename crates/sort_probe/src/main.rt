//! Builds many named sorts, so that the time can be measured.
//!
//! `sort_probe WHAT COUNT` builds COUNT named sorts, each of which stands for the next (`chain`), a circle and a chain of COUNT names that
//! ends in one that isn't declared (`circle`), or COUNT names of one product of 4,095 dots (`aliases`). It prints how many were built,
//! none where a name isn't declared.
#![tactic(auto)]

mod declared;

use std::alloc::Global;
use std::env;
use std::process::ExitCode;

fn counted(alloc: Global, what: &str, count: &str) -> Option<u64> {
    let count = match count.parse() {
        Ok(count) => count,
        Err(_) => return None,
    };
    match what {
        "chain" => declared::chained(alloc, count),
        "circle" => declared::circled(alloc, count),
        "aliases" => declared::aliased(alloc, count),
        _ => None,
    }
}

fn main(rt: HostRuntime) -> ExitCode {
    let Ok(mut args) = env::args(&rt) else {
        return ExitCode::from(5);
    };
    args.next();
    let Some(what) = args.next() else {
        return ExitCode::from(5);
    };
    let Some(count) = args.next() else {
        return ExitCode::from(5);
    };
    match counted(rt.alloc(), what.as_str(), count.as_str()) {
        Some(counted) => match println!(rt; "{counted}") {
            Ok(()) => ExitCode::from(0),
            Err(_) => ExitCode::from(3),
        },
        None => ExitCode::from(4),
    }
}
