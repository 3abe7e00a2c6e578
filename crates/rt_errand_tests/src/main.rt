//! `rt_errand_tests`: whole runs of the errands and their kin, each with how it ended, when, and its journal.
#![tactic(auto)]

mod makers;
mod row;
mod runs;
mod told;

use rt_base::{StdSink, write_whole};
use std::process::ExitCode;
use std::rt::HostRuntime;

/// The status where a write failed.
const UNWRITTEN: u8 = 5;

/// The status where the program was out of memory.
const NO_MEMORY: u8 = 7;

fn main(rt: HostRuntime) -> ExitCode {
    let Ok(text) = told::text_of_runs(rt.alloc(), runs::RUNS) else {
        return ExitCode::from(NO_MEMORY);
    };
    match write_whole(&mut StdSink::new(&rt), text.as_bytes()) {
        Ok(()) => ExitCode::SUCCESS,
        Err(_) => ExitCode::from(UNWRITTEN),
    }
}
