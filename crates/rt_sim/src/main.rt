//! `rt_sim`: the runs of a scenario, each of a script as its root, and their reports: journal, result, time, rounds and digest.
#![tactic(auto)]

use rt_base::{StdSink, StdSource};
use rt_scripts::simulate_alone;
use std::process::ExitCode;
use std::rt::HostRuntime;

/// The status where the words of the command could not be read.
const NO_WORDS: u8 = 8;

fn main(rt: HostRuntime) -> ExitCode {
    let alloc = rt.alloc();
    let Ok(words) = std::env::args(&rt) else {
        return ExitCode::from(NO_WORDS);
    };
    let Ok(words) = words.collect::<Vec<String>>(alloc) else {
        return ExitCode::from(NO_WORDS);
    };
    let command = match words.as_slice().split_first() {
        Some((_, command)) => command,
        None => &[],
    };
    let mut source = StdSource::new(&rt);
    let mut sink = StdSink::new(&rt);
    let outcome = simulate_alone(alloc, command, &mut source, &mut sink);
    let status = outcome.status;
    // A process that ends gives its memory back whole.
    std::mem::forget(outcome);
    ExitCode::from(status)
}
