//! What a run leaves.

ghost use Rattle.std.specs.Prelude.{◌≡◌};
ghost use Rattle.rt_audit.specs.Journal.{digest_of};

use crate::RunError;
use rt_audit::{Auditor, Journal};
use rt_base::Nanos;
use std::marker::Model;

/// What a completed run leaves, from which a later one may go on.
///
/// Contracts see its last moment, its deadline and cycle in nanoseconds, whether panics are caught, the entries of all
/// runs so far, and its generator.
#[derive(Debug, Drop)]
pub struct Checkpoint<G> {
    pub(crate) rng: G,
    pub(crate) journal: Journal,
    pub(crate) time: Nanos,
    pub(crate) deadline: Option<Nanos>,
    pub(crate) cycle: Nanos,
    pub(crate) catch_panics: bool,
}

impl<G> Model for Checkpoint<G> {
    ghost use Rattle.rt_core.specs.Starting.{Kept, MayResume};

    ghost Value = { Kept G };

    ghost view = { λ c. record { time = c.time; deadline = c.deadline; cycle = c.cycle; catch = c.catch_panics; journal = c.journal.entries; rng = c.rng } };

    ghost invariant = { λ c. MayResume c.time c.deadline c.cycle };
}

impl<G> Checkpoint<G> {
    /// Returns the digest of the events of all runs so far.
    pub fn auditor(&self) -> Auditor
        ensures { result ≡ digest_of self.now.journal }
    {
        self.journal.auditor()
    }

    /// Returns the journal of all runs so far.
    pub fn journal(&self) -> &Journal
        ensures { result.now.entries ≡ self.now.journal }
    {
        &self.journal
    }

    /// Returns the journal of all runs so far, which the checkpoint gives away.
    pub fn into_journal(self) -> Journal
    where
        G: Drop,
        ensures { result.entries ≡ self.journal }
    {
        self.journal
    }

    /// Returns the last moment of the run, in nanoseconds since the epoch.
    pub fn time(&self) -> Nanos
        ensures { result ≡ self.now.time }
    {
        self.time
    }
}

/// The root's output, and what its run leaves.
#[derive(Debug, Drop)]
pub struct Finished<O, G> {
    pub output: O,
    pub checkpoint: Checkpoint<G>,
}

/// Why a run failed, and the journal of all runs so far. Out of memory is the one cause that may come at any time.
#[derive(Debug, Drop)]
pub struct Failure {
    pub cause: RunError,
    pub journal: Journal,
}
