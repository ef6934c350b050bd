//! Makes a net by rule and reduces it, so that the time can be measured.
//!
//! `reduction_probe make SIDE` makes a grid of SIDE places on each side, at most 1,024, with four instances at each place, and prints its
//! numbers of places and instances and 0. `reduction_probe reduce SIDE` makes it and reduces it, and prints how many places and instances
//! are kept, and the number of rounds.
#![tactic(auto)]

ghost use Rattle.std.specs.Prelude.{◌≡◌};

mod grids;

use pt_net::PtNet;
use reductions::{Reduced, reduce};
use std::alloc::Global;
use std::env;
use std::marker::Brand;
use std::process::ExitCode;
use std::sync::ledger::{Blank, Ledger};
use wide_sums::{Memory, Steps};

// The reduction of a net, counted from 0.
fn reduced<L: Ledger>(blank: Blank, alloc: Global, net: &PtNet) -> Result<Reduced, Memory>
    requires name { blank.name ≡ L.name }
    requires parts { blank.parts ≡ L.parts }
    requires some { blank.parts ≡ 1 }
{
    let mut steps = Steps::start(blank.open::<L>());
    reduce(alloc, net, &mut steps)
}

// What is to be printed.
#[derive(Clone, Copy)]
struct Numbers {
    places: u32,
    instances: u32,
    rounds: u32,
}

fn made(net: &PtNet) -> Numbers {
    Numbers {
        places: net.places(),
        instances: net.instances(),
        rounds: 0,
    }
}

fn kept(alloc: Global, net: &PtNet) -> Option<Numbers> {
    match reduced::<Brand>(Blank::new(1), alloc, net) {
        Ok(found) => Some(Numbers {
            places: found.net.places(),
            instances: found.net.instances(),
            rounds: found.rounds,
        }),
        Err(Memory) => None,
    }
}

// The net of that side, where it is from 1 to 1,024.
fn net(alloc: Global, side: &str) -> Option<PtNet> {
    let side: u32 = match side.parse() {
        Ok(side) => side,
        Err(_) => return None,
    };
    let count = side.checked_mul(side)?;
    if side == 0 || count == 0 || count > 1_048_576 {
        return None;
    }
    match grids::grid(alloc, side, count) {
        Ok(net) => Some(net),
        Err(Memory) => None,
    }
}

fn measured(alloc: Global, what: &str, side: &str) -> Option<Numbers> {
    let net = net(alloc, side)?;
    match what {
        "make" => Some(made(&net)),
        "reduce" => kept(alloc, &net),
        _ => None,
    }
}

fn main(rt: HostRuntime) -> ExitCode {
    let Ok(mut args) = env::args(&rt) else {
        return ExitCode::from(5);
    };
    args.next();
    let Some(what) = args.next() else {
        return ExitCode::from(5);
    };
    let Some(side) = args.next() else {
        return ExitCode::from(5);
    };
    match measured(rt.alloc(), what.as_str(), side.as_str()) {
        Some(found) => {
            let (places, instances, rounds) = (found.places, found.instances, found.rounds);
            match println!(rt; "{places} {instances} {rounds}") {
                Ok(()) => ExitCode::from(0),
                Err(_) => ExitCode::from(3),
            }
        }
        None => ExitCode::from(4),
    }
}
