//! Runs one load by its name, to be timed from outside: `kola_bench set 1000000`. The load `laws` writes the laws and no
//! count: `kola_bench laws 1`.
#![tactic(auto)]

mod loads;
mod matching;
mod rule_text;

use loads::{laws_text, run_load};
use std::io::Write;
use std::process::ExitCode;
use std::{env, io};

/// The words behind the program's name.
fn words(rt: &HostRuntime) -> io::Result<Vec<String>> {
    Ok(env::args(rt)?.skip(1).collect(rt.alloc())?)
}

/// Writes the laws as often as is asked.
fn write_laws(rt: &HostRuntime, n: u32) -> ExitCode {
    match laws_text(rt.alloc(), n) {
        Ok(text) => match rt.stdout().write_all(text.as_slice()) {
            Ok(()) => ExitCode::from(0),
            Err(_) => ExitCode::from(11),
        },
        Err(_) => ExitCode::from(12),
    }
}

/// Runs the load and prints its count, or the laws; an unknown name or number ends with 2, want of memory with 12.
fn main(rt: HostRuntime) -> ExitCode {
    let Ok(words) = words(&rt) else {
        return ExitCode::from(2);
    };
    let [name, number] = words.as_slice() else {
        return ExitCode::from(2);
    };
    let Ok(n) = number.as_str().parse::<u32>() else {
        return ExitCode::from(2);
    };
    if name.as_str() == "laws" {
        return write_laws(&rt, n);
    }
    match run_load(rt.alloc(), name.as_str(), n) {
        Ok(Some(count)) => match println!(rt; "{count}") {
            Ok(()) => ExitCode::from(0),
            Err(_) => ExitCode::from(11),
        },
        Ok(None) => ExitCode::from(2),
        Err(_) => ExitCode::from(12),
    }
}
