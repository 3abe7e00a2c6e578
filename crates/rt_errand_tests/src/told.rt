// Runs, and what comes of them as text.

use crate::makers::{RootDealer, RootNapper};
use crate::row::{Begins, Root, Row, begin_of, config_of};
use rand_chacha::ChaCha12Rng;
use rt_core::utils::reschedule;
use rt_core::{
    Checkpoint, Failure, Finished, Journal, NoMemory, RootMaker, RunError, Runner, Task,
};
use rt_errand::{
    RootChief, RootClient, RootCourier, RootCrew, RootErrand, RootHeir, RootKeeper, RootPair,
    RootRetry, Stage,
};
use rt_journals::text_of;
use rt_walk::first_unlawful;
use std::alloc::Global;
use std::fmt::Debug;

/// What is left of a run: the checkpoint of one that gave its output, or the journal of one that failed.
type Left = Result<Checkpoint<ChaCha12Rng>, Journal>;

/// Makes a run, and adds how it ended, and when, but for one that was out of memory.
fn run<T: Task, M: RootMaker<T> + Drop>(
    alloc: Global,
    text: &mut String,
    runner: Runner<ChaCha12Rng>,
    maker: M,
) -> Result<Left, NoMemory>
where
    T::Output: Debug,
{
    match runner.start_and_recover::<T, M>(alloc, maker) {
        Ok(Finished { output, checkpoint }) => {
            let time = checkpoint.time();
            write!(text, " gives {output:?} at {time},")?;
            Ok(Ok(checkpoint))
        }
        Err(Failure { cause, journal }) => {
            if matches!(&cause, RunError::NoMemory) {
                return Err(NoMemory);
            }
            let time = journal.last_time();
            write!(text, " fails with {cause:?} at {time},")?;
            Ok(Err(journal))
        }
    }
}

/// The maker of an errand that begins so, and gives this number.
fn errand(begins: Begins, number: u64) -> RootErrand {
    let stage = match begins {
        Begins::Done => Stage::Done,
        Begins::Waits => Stage::Waits,
        Begins::Naps(nap) => Stage::Naps { nap },
        Begins::Yields(nap) => Stage::Yields {
            turn: reschedule(),
            nap,
        },
        Begins::Wakes(task, nap) => Stage::Wakes { task, nap },
    };
    RootErrand { stage, number }
}

/// Makes the run of this root.
fn run_root(
    alloc: Global,
    text: &mut String,
    runner: Runner<ChaCha12Rng>,
    root: Root,
) -> Result<Left, NoMemory> {
    match root {
        Root::Errand(begins, number) => run(alloc, text, runner, errand(begins, number)),
        Root::Retry => run(alloc, text, runner, RootRetry),
        Root::Crew => run(alloc, text, runner, RootCrew { number: 7 }),
        Root::Pair => run(alloc, text, runner, RootPair { number: 7 }),
        Root::Heir => run(alloc, text, runner, RootHeir),
        Root::Chief(plan) => run(alloc, text, runner, RootChief { plan, alloc }),
        Root::Client => run(alloc, text, runner, RootClient { number: 7 }),
        Root::Courier(parcel) => run(alloc, text, runner, RootCourier { parcel }),
        Root::Keeper => run(alloc, text, runner, RootKeeper),
        Root::Dealer => run(alloc, text, runner, RootDealer),
        Root::Napper => run(alloc, text, runner, RootNapper),
    }
}

/// Makes the runs of these roots, adds how each ended, and returns the journal of all.
fn run_roots(
    alloc: Global,
    text: &mut String,
    first: Runner<ChaCha12Rng>,
    roots: &[Root],
) -> Result<Journal, NoMemory> {
    let Some((last, before)) = roots.split_last() else {
        return Ok(first.into_journal(alloc));
    };
    let mut runner = first;
    for root in before {
        match run_root(alloc, text, runner, *root)? {
            Ok(checkpoint) => runner = Runner::from(checkpoint),
            Err(journal) => return Ok(journal),
        }
    }
    match run_root(alloc, text, runner, *last)? {
        Ok(checkpoint) => Ok(checkpoint.into_journal()),
        Err(journal) => Ok(journal),
    }
}

/// Adds the name of a row, how its runs ended, whether their journal is lawful, and its lines.
fn add_row(alloc: Global, text: &mut String, row: &Row) -> Result<(), NoMemory> {
    let Row(name, settings, roots) = *row;
    write!(text, "{name}:")?;
    let runner = match Runner::new(config_of(settings)) {
        Ok(runner) => runner,
        Err(refusal) => return Ok(write!(text, " refused with {refusal:?}\n")?),
    };
    let journal = run_roots(alloc, text, runner, roots)?;
    match first_unlawful(alloc, begin_of(settings), journal.entries())? {
        None => text.push_str(" lawful\n")?,
        Some(place) => write!(text, " unlawful at {place}\n")?,
    }
    let lines = text_of(alloc, journal.entries())?;
    Ok(text.push_str(lines.as_str())?)
}

/// What comes of these rows.
pub fn text_of_runs(alloc: Global, rows: &[Row]) -> Result<String, NoMemory> {
    let mut text = String::new(alloc);
    for row in rows {
        add_row(alloc, &mut text, row)?;
    }
    Ok(text)
}
