// A row of the table of runs.

use rand_chacha::ChaCha12Rng;
use rt_core::{Config, MAX_TIME, Nanos};
use rt_errand::{Parcel, Plan};
use rt_journals::BEGIN;
use rt_model::Begin;

/// A name, settings, and the roots of the runs, each of which goes on where the one before it ended.
pub struct Row(
    pub &'static str,
    pub &'static [Setting],
    pub &'static [Root],
);

/// A setting that is not that of `Config::new`.
#[derive(Clone, Copy)]
pub enum Setting {
    Seed(u64),
    /// Of a run that starts at 0.
    Timeout(Nanos),
    /// One moment to begin with and a cycle of a nanosecond.
    LastMoment,
    /// The number of the first task.
    NextTask(u64),
}

/// The root of a run.
#[derive(Clone, Copy)]
pub enum Root {
    /// It gives this number.
    Errand(Begins, u64),
    Retry,
    /// Its worker gives 7.
    Crew,
    Pair,
    Heir,
    Chief(Plan),
    /// Its worker sends 7.
    Client,
    Courier(Parcel),
    Keeper,
    Dealer,
    Napper,
}

/// How an errand begins.
#[derive(Clone, Copy)]
pub enum Begins {
    Done,
    Waits,
    Naps(Nanos),
    /// It naps behind a turn of the others.
    Yields(Nanos),
    /// It naps behind a wake of this task.
    Wakes(u64, Nanos),
}

/// How a run with these settings begins.
pub fn begin_of(settings: &[Setting]) -> Begin {
    let mut begin = BEGIN;
    for setting in settings {
        match *setting {
            Setting::Seed(_) => {}
            Setting::Timeout(timeout) => begin.deadline = Some(timeout),
            Setting::LastMoment => {
                begin.start = MAX_TIME;
                begin.cycle = 1;
            }
            Setting::NextTask(task) => begin.first = task,
        }
    }
    begin
}

/// These settings, and else those of `Config::new`.
pub fn config_of(settings: &[Setting]) -> Config<ChaCha12Rng> {
    let mut config = Config::new();
    for setting in settings {
        config = match *setting {
            Setting::Seed(seed) => config.with_seed(seed),
            Setting::Timeout(timeout) => config.with_timeout(Some(timeout)),
            Setting::LastMoment => config.with_start_time(MAX_TIME).with_cycle(1),
            Setting::NextTask(task) => config.with_next_task(task),
        };
    }
    config
}
