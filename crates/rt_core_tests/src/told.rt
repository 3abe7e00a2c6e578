// Journals as text, and what a run fails with.

use rand_chacha::ChaCha12Rng;
use rt_audit::{FinishCause, Journal};
use rt_core::{NoMemory, RootMaker, Runner, Task};
use std::alloc::Global;
use std::process::Abort;

/// The lines of a journal.
fn lines(alloc: Global, journal: &Journal) -> Result<String, NoMemory> {
    let mut text = String::new(alloc);
    for entry in journal.entries() {
        entry.add_to(alloc, &mut text)?;
        text.push('\n')?;
    }
    Ok(text)
}

/// Whether a journal has these lines, of which `; ` parts those of one part of a run.
pub fn has_lines(alloc: Global, journal: &Journal, expected: &str) -> bool {
    let Some(wanted) = expected.replace(alloc, "; ", "\n").ok() else {
        return false;
    };
    match lines(alloc, journal) {
        Ok(text) => text.as_str() == wanted.as_str(),
        Err(NoMemory) => false,
    }
}

/// Whether the run of this root fails with this cause, and has these lines.
pub fn fails<T: Task, M: RootMaker<T> + Drop>(
    alloc: Global,
    runner: Runner<ChaCha12Rng>,
    maker: M,
    cause: FinishCause,
    expected: &str,
) -> bool {
    match runner.start::<T, M>(alloc, maker) {
        Ok(_output) => false,
        Err(failure) => {
            failure.cause.cause() == cause && has_lines(alloc, &failure.journal, expected)
        }
    }
}

/// Stops where this doesn't hold.
pub fn holds(rt: &impl Abort, what: &str, seen: bool) {
    assert!(rt; seen, "{what}");
}
