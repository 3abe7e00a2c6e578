//! `rt_report_tests`: the runs of each scenario of its input, with their report, its status, and whether their journals are lawful.
//!
//! A case is a heading, which begins with `== ` and names it, and its scenario. `stdin` holds the cases, and `stdout` what is
//! written of them. No scenario has `== ` in it, and `catch on` only as a setting.
#![tactic(auto)]

mod cases;
mod lawful;

use rt_base::{StdSink, StdSource, read_whole, write_whole};
use std::process::ExitCode;
use std::rt::HostRuntime;
use std::str;

/// So many bytes are read.
const MOST: usize = 1 << 20;

/// The status where the cases could not be read.
const UNREAD: u8 = 4;

/// The status where a write failed.
const UNWRITTEN: u8 = 5;

/// The status where the program was out of memory.
const NO_MEMORY: u8 = 7;

fn main(rt: HostRuntime) -> ExitCode {
    let alloc = rt.alloc();
    let Ok(bytes) = read_whole(alloc, &mut StdSource::new(&rt), MOST) else {
        return ExitCode::from(UNREAD);
    };
    let Ok(input) = str::from_utf8(bytes.as_slice()) else {
        return ExitCode::from(UNREAD);
    };
    let Ok(text) = cases::text_of_cases(alloc, input) else {
        return ExitCode::from(NO_MEMORY);
    };
    match write_whole(&mut StdSink::new(&rt), text.as_bytes()) {
        Ok(()) => ExitCode::SUCCESS,
        Err(_) => ExitCode::from(UNWRITTEN),
    }
}
