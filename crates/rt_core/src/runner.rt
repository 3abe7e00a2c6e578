//! Runners.

ghost use Rattle.std.specs.Prelude.{◌≡◌, ◌≤◌, ◌↔◌, [], None, Some, Ok, Err, IsOk, IfOk, IfErr, false};
ghost use Rattle.rt_model.specs.Tied.{with_first};
ghost use Rattle.rt_core.specs.Starting.{assert_of, deadline_of, default_seed, first_begin, resumed, seeded, IsWithin, Kept};
ghost use Rattle.rt_core.specs.Given.{entries_of};
ghost use Rattle.rt_core.specs.Outcome.{Completes, Fails, IsValid};

use crate::running::{error_of, run_maker};
use crate::{Checkpoint, Config, ConfigError, Failure, Finished, RootMaker, RunError};
use rand_chacha::ChaCha12Rng;
use rand_core::Rng;
use rt_audit::Journal;
use rt_base::Nanos;
use rt_world::{Begin, Task, World};
use std::alloc::Global;
use std::marker::Model;

/// A run that is to begin, with its settings and the journal of the runs before it.
///
/// Contracts see how it begins, the entries of the runs before it, and its generator. By its type its cycle is at
/// least 1, and its start and its deadline are at most `MAX_TIME`. A runner is made without memory: a run without one
/// before it makes its own journal.
#[derive(Drop)]
pub struct Runner<G> {
    rng: G,
    begin: Begin,
    journal: Option<Journal>,
}

impl<G> Model for Runner<G> {
    ghost use Rattle.rt_core.specs.Starting.{Starting, MayStart};
    ghost use Rattle.rt_core.specs.Given.{entries_of};

    ghost Value = { Starting G };

    ghost view = { λ r. record { begin = r.begin; given = entries_of r.journal; rng = r.rng } };

    ghost invariant = { λ r. MayStart r.begin };
}

impl<G: Rng + Drop> Runner<G> {
    /// Makes a runner with these settings, and with no run before it. It is refused exactly as [`Config::assert`]
    /// refuses the settings.
    pub fn new(config: Config<G>) -> Result<Runner<G>, ConfigError>
        ensures accepted { IsOk result ↔ (assert_of config.cycle config.start_time config.timeout ≡ Ok tt) }
        ensures ok { IfOk result (λ r. r ≡ record { begin = first_begin config.cycle config.start_time config.timeout config.catch_panics config.next_task; given = []; rng = config.rng }) }
        ensures refused { IfErr result (λ e. assert_of config.cycle config.start_time config.timeout ≡ Err e) }
    {
        match config.assert() {
            Err(error) => Err(error),
            Ok(()) => {
                let Config {
                    rng,
                    cycle,
                    start_time,
                    timeout,
                    catch_panics,
                    next_task,
                } = config;
                Ok(Runner {
                    rng,
                    begin: Begin {
                        start: start_time,
                        cycle,
                        deadline: deadline_after(start_time, timeout),
                        first: next_task,
                        catch: catch_panics,
                    },
                    journal: None,
                })
            }
        }
    }

    /// Runs the root that the maker makes, to the end of the run, and returns its output and a checkpoint.
    ///
    /// A failure carries the journal of all entries so far; out of memory, it may carry none of this run. Every cause
    /// except `NoMemory` comes exactly at its place of the run.
    #[tactic(auto, unfolding(rt_model::specs::Effects::after))]
    pub fn start_and_recover<T: Task, M: RootMaker<T> + Drop>(
        self,
        alloc: Global,
        maker: M,
    ) -> Result<Finished<T::Output, G>, Failure>
        ensures run { IfOk result (λ f. Completes G.stream (with_first T.steps (M.first maker)) self f.output f.checkpoint) }
        ensures failure { IfErr result (λ f. Fails G.stream (with_first T.steps (M.first maker)) self f.journal.entries f.cause) }
        ensures complete { IsValid G.stream (with_first T.steps (M.first maker)) self → IfErr result (λ f. f.cause ≡ RunError.NoMemory) }
    {
        let Runner {
            rng,
            begin,
            journal,
        } = self;
        let given = given_journal(alloc, journal);
        let mut world = match World::begin(alloc, given, begin, rng) {
            Ok(world) => world,
            Err((journal, _)) => {
                return Err(Failure {
                    cause: RunError::NoMemory,
                    journal,
                });
            }
        };
        let outcome = run_maker::<T, M, G>(alloc, &mut world, maker);
        world.facts();
        let time = world.now();
        let (journal, rng, panic) = world.into_parts();
        match outcome {
            Ok(output) => Ok(Finished {
                output,
                checkpoint: Checkpoint {
                    rng,
                    journal,
                    time,
                    deadline: begin.deadline,
                    cycle: begin.cycle,
                    catch_panics: begin.catch,
                },
            }),
            Err(cause) => Err(Failure {
                cause: error_of(cause, panic),
                journal,
            }),
        }
    }
}

impl<G: Drop> Runner<G> {
    /// Returns the entries of the runs before, where no run is to follow; without any, an empty journal.
    pub fn into_journal(self, alloc: Global) -> Journal
        ensures { result.entries ≡ self.given }
    {
        given_journal(alloc, self.journal)
    }
}

impl<G: Rng + Drop> Runner<G> {
    /// Runs the root that the maker makes, and returns the output of [`start_and_recover`](Self::start_and_recover),
    /// or its failure.
    pub fn start<T: Task, M: RootMaker<T> + Drop>(
        self,
        alloc: Global,
        maker: M,
    ) -> Result<T::Output, Failure>
        ensures run { IfOk result (λ output. (kept : Kept G) × Completes G.stream (with_first T.steps (M.first maker)) self output kept) }
        ensures failure { IfErr result (λ f. Fails G.stream (with_first T.steps (M.first maker)) self f.journal.entries f.cause) }
        ensures complete { IsValid G.stream (with_first T.steps (M.first maker)) self → IfErr result (λ f. f.cause ≡ RunError.NoMemory) }
    {
        match self.start_and_recover::<T, M>(alloc, maker) {
            Ok(finished) => {
                let Finished { output, checkpoint } = finished;
                let _ = checkpoint;
                Ok(output)
            }
            Err(failure) => Err(failure),
        }
    }
}

impl<G> Runner<G> {
    /// Makes a runner that goes on after the run that left this checkpoint: from its last moment on, with its
    /// deadline, cycle, generator and journal, and with task numbers from 0 on. Tasks, nodes, alarms and all else
    /// begin anew. It is never refused.
    pub fn from(checkpoint: Checkpoint<G>) -> Runner<G>
        ensures { result ≡ resumed checkpoint }
    {
        let Checkpoint {
            rng,
            journal,
            time,
            deadline,
            cycle,
            catch_panics,
        } = checkpoint;
        Runner {
            rng,
            begin: Begin {
                start: time,
                cycle,
                deadline,
                first: 0,
                catch: catch_panics,
            },
            journal: Some(journal),
        }
    }
}

impl Runner<ChaCha12Rng> {
    /// Makes a runner with the settings of [`Config::new`] and the generator of this seed.
    pub fn seeded(seed: u64) -> Runner<ChaCha12Rng>
        ensures { result ≡ record { begin = first_begin 1000000 0 None false 0; given = []; rng = seeded seed } }
    {
        match Runner::new(Config::new().with_seed(seed)) {
            Ok(runner) => runner,
            Err(_) => unreachable!(),
        }
    }

    /// Makes a runner with the settings of [`Config::new`] and this timeout in nanoseconds. It is refused exactly as
    /// [`Config::assert`] refuses these settings.
    pub fn timed(timeout: Nanos) -> Result<Runner<ChaCha12Rng>, ConfigError>
        ensures accepted { IsOk result ↔ (assert_of 1000000 0 (Some timeout) ≡ Ok tt) }
        ensures ok { IfOk result (λ r. r ≡ record { begin = first_begin 1000000 0 (Some timeout) false 0; given = []; rng = seeded default_seed }) }
        ensures refused { IfErr result (λ e. assert_of 1000000 0 (Some timeout) ≡ Err e) }
    {
        Runner::new(Config::new().with_timeout(Some(timeout)))
    }
}

impl Default for Runner<ChaCha12Rng> {
    /// Makes a runner with the settings of [`Config::new`].
    fn default() -> Self
        ensures { result ≡ record { begin = first_begin 1000000 0 None false 0; given = []; rng = seeded default_seed } }
    {
        Runner::seeded(42)
    }
}

/// The journal of the runs before, or an empty one.
fn given_journal(alloc: Global, journal: Option<Journal>) -> Journal
    ensures { result.entries ≡ entries_of journal }
{
    match journal {
        Some(journal) => journal,
        None => Journal::new(alloc),
    }
}

/// The moment that is so far after the start, where there is one.
fn deadline_after(start: Nanos, timeout: Option<Nanos>) -> Option<Nanos>
    requires within { IsWithin (deadline_of start timeout) }
    ensures { result ≡ deadline_of start timeout }
{
    match timeout {
        None => None,
        Some(timeout) => Some(start + timeout),
    }
}
