//! Evaluates a term or a guard again and again, so that its time can be measured.
//!
//! `term_probe WHAT COUNT TURNS` takes all colours of a range of COUNT numbers (`all`), the sum of COUNT variables (`sum`), the sum of a
//! variable of a circle of COUNT colours and the colour behind it (`pair`), or a guard of COUNT comparisons (`guard`). It evaluates it
//! TURNS times, and prints how many cells, or comparisons that were true, that came to.
#![tactic(auto)]

mod made;
mod turns;

use std::alloc::Global;
use std::env;
use std::process::ExitCode;

fn number(word: &str) -> Option<u32> {
    match word.parse() {
        Ok(number) => Some(number),
        Err(_) => None,
    }
}

fn counted(alloc: Global, what: &str, count: &str, turns: &str) -> Option<u64> {
    let count = number(count)?;
    let turns = number(turns)?;
    match what {
        "all" => turns::all(alloc, count, turns),
        "sum" => turns::sum(alloc, count, turns),
        "pair" => turns::pair(alloc, count, turns),
        "guard" => turns::guard(alloc, count, turns),
        _ => None,
    }
}

fn main(rt: HostRuntime) -> ExitCode {
    let Ok(mut args) = env::args(&rt) else {
        return ExitCode::from(5);
    };
    args.next();
    let Some(what) = args.next() else {
        return ExitCode::from(5);
    };
    let Some(count) = args.next() else {
        return ExitCode::from(5);
    };
    let Some(turns) = args.next() else {
        return ExitCode::from(5);
    };
    match counted(rt.alloc(), what.as_str(), count.as_str(), turns.as_str()) {
        Some(counted) => match println!(rt; "{counted}") {
            Ok(()) => ExitCode::from(0),
            Err(_) => ExitCode::from(3),
        },
        None => ExitCode::from(4),
    }
}
