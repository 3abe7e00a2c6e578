//! The settings of a run.

ghost use Rattle.std.specs.Prelude.{◌≡◌, ◌≤◌, ◌<◌, ◌+◌, Option, None, Some, false};
ghost use Rattle.rt_core.specs.Starting.{assert_of, default_seed, seeded};

use rand_chacha::ChaCha12Rng;
use rand_core::{Rng, SeedableRng};
use rt_base::{MAX_TIME, Nanos};
use thiserror::Error;

/// Why settings are refused.
#[derive(Clone, Copy, Debug, PartialEq, Eq, Error)]
pub enum ConfigError {
    /// The cycle is 0.
    #[error("cycle is zero")]
    ZeroCycle,
    /// The start is past `MAX_TIME`.
    #[error("start is past the last moment")]
    StartTooLate,
    /// The start plus the timeout is past `MAX_TIME`.
    #[error("deadline is past the last moment")]
    DeadlineTooLate,
}

/// The settings of a run: its generator, in nanoseconds its cycle, its start and its timeout, whether panics of tasks are
/// caught, and the number of its first task.
#[derive(Debug, Drop)]
pub struct Config<G> {
    pub(crate) rng: G,
    pub(crate) cycle: Nanos,
    pub(crate) start_time: Nanos,
    pub(crate) timeout: Option<Nanos>,
    pub(crate) catch_panics: bool,
    pub(crate) next_task: u64,
}

impl Config<ChaCha12Rng> {
    /// Makes the default settings: a generator of seed 42, a cycle of 1,000,000 ns, start 0, no timeout, panics not
    /// caught, and task numbers from 0 on.
    pub fn new() -> Self
        ensures rng { result.rng ≡ seeded default_seed }
        ensures cycle { result.cycle ≡ 1000000 }
        ensures start { result.start_time ≡ 0 }
        ensures timeout { result.timeout ≡ None }
        ensures catch { result.catch_panics ≡ false }
        ensures next { result.next_task ≡ 0 }
    {
        Config {
            rng: ChaCha12Rng::seed_from_u64(42),
            cycle: 1_000_000,
            start_time: 0,
            timeout: None,
            catch_panics: false,
            next_task: 0,
        }
    }
}

impl Default for Config<ChaCha12Rng> {
    /// Makes the settings of [`Config::new`].
    fn default() -> Self
        ensures rng { result.rng ≡ seeded default_seed }
        ensures cycle { result.cycle ≡ 1000000 }
        ensures start { result.start_time ≡ 0 }
        ensures timeout { result.timeout ≡ None }
        ensures catch { result.catch_panics ≡ false }
        ensures next { result.next_task ≡ 0 }
    {
        Config::new()
    }
}

impl<G: Drop> Config<G> {
    /// Sets the generator.
    pub fn with_rng<H: Rng>(self, rng: H) -> Config<H>
        ensures { result ≡ record { rng = rng; cycle = self.cycle; start_time = self.start_time; timeout = self.timeout; catch_panics = self.catch_panics; next_task = self.next_task } }
    {
        let Config {
            rng: _,
            cycle,
            start_time,
            timeout,
            catch_panics,
            next_task,
        } = self;
        Config {
            rng,
            cycle,
            start_time,
            timeout,
            catch_panics,
            next_task,
        }
    }

    /// Sets the generator, to the one of this seed.
    pub fn with_seed(self, seed: u64) -> Config<ChaCha12Rng>
        ensures { result ≡ record { rng = seeded seed; cycle = self.cycle; start_time = self.start_time; timeout = self.timeout; catch_panics = self.catch_panics; next_task = self.next_task } }
    {
        self.with_rng(ChaCha12Rng::seed_from_u64(seed))
    }
}

impl<G> Config<G> {
    /// Sets the cycle in nanoseconds, by which time moves on after each round.
    pub fn with_cycle(self, cycle: Nanos) -> Self
        ensures { result ≡ record self { cycle = cycle } }
    {
        Config { cycle, ..self }
    }

    /// Sets the start, in nanoseconds since the epoch.
    pub fn with_start_time(self, start: Nanos) -> Self
        ensures { result ≡ record self { start_time = start } }
    {
        Config {
            start_time: start,
            ..self
        }
    }

    /// Sets the timeout in nanoseconds, counted from the start, or takes it away.
    pub fn with_timeout(self, timeout: Option<Nanos>) -> Self
        ensures { result ≡ record self { timeout = timeout } }
    {
        Config { timeout, ..self }
    }

    /// Sets whether panics of tasks are caught: then they end no run. A panic of the root always does.
    pub fn with_catch_panics(self, catch: bool) -> Self
        ensures { result ≡ record self { catch_panics = catch } }
    {
        Config {
            catch_panics: catch,
            ..self
        }
    }

    /// Sets the number of the first task of the first run. A run that goes on after another begins with 0 again.
    pub fn with_next_task(self, next: u64) -> Self
        ensures { result ≡ record self { next_task = next } }
    {
        Config {
            next_task: next,
            ..self
        }
    }

    /// Returns the cycle in nanoseconds.
    pub fn cycle(&self) -> Nanos
        ensures { result ≡ self.now.cycle }
    {
        self.cycle
    }

    /// Returns the start, in nanoseconds since the epoch.
    pub fn start_time(&self) -> Nanos
        ensures { result ≡ self.now.start_time }
    {
        self.start_time
    }

    /// Returns the timeout in nanoseconds, if there is one.
    pub fn timeout(&self) -> Option<Nanos>
        ensures { result ≡ self.now.timeout }
    {
        self.timeout
    }

    /// Returns whether panics of tasks are caught.
    pub fn catch_panics(&self) -> bool
        ensures { result ≡ self.now.catch_panics }
    {
        self.catch_panics
    }

    /// Tests the settings, in this order: `ZeroCycle` exactly where the cycle is 0, `StartTooLate` exactly where the
    /// start is past `MAX_TIME`, `DeadlineTooLate` exactly where the start plus the timeout is.
    pub fn assert(&self) -> Result<(), ConfigError>
        ensures { result ≡ assert_of self.now.cycle self.now.start_time self.now.timeout }
    {
        if self.cycle == 0 {
            return Err(ConfigError::ZeroCycle);
        }
        if self.start_time > MAX_TIME {
            return Err(ConfigError::StartTooLate);
        }
        match self.timeout {
            Some(timeout) if MAX_TIME - self.start_time < timeout => {
                Err(ConfigError::DeadlineTooLate)
            }
            _ => Ok(()),
        }
    }
}
