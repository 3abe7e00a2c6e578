//! What a simulation comes to.

use rt_audit::Journal;
use rt_base::{Items, Nanos, Text};
use rt_core::RunError;

/// How a run ended: the root's output, or why the run failed.
#[derive(Debug, Drop)]
pub enum RunResult {
    Ok(i64),
    Failed(RunError),
}

/// What is reported of a run: the name of its root, its result, and the place of its entries in the journal.
#[derive(Debug, Drop)]
pub struct RunReport {
    pub root: Text,
    pub result: RunResult,
    /// The place of its first entry.
    pub from: usize,
    /// The place after its last entry.
    pub to: usize,
    /// The digest of the journal's events up to its end.
    pub digest: [u8; 4],
    /// Its last moment, in nanoseconds since the epoch.
    pub time: Nanos,
    /// How many rounds it had.
    pub rounds: u64,
}

/// What a simulation comes to: the status of the program, the runs that are reported, and the journal of all runs.
#[derive(Debug, Drop)]
pub struct Outcome {
    pub status: u8,
    pub runs: Items<RunReport>,
    pub journal: Journal,
}
