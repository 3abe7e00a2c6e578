//! Counters by status.
ghost use Rattle.std.specs.Prelude.{◌≡◌, ◌<◌, ◌-◌, ◌^◌, map, IsTrue, IfOk, OnOk, OnErr};
ghost use Rattle.rt_metrics.specs.Registry.{is_held, claims_of, claimed, released};
ghost use Rattle.rt_metrics.specs.Labels.{status_name, status_pairs, status_text, raised_status, child_raised, with_statuses, all_statuses};

use crate::children::label_key;
use crate::home::Home;
use crate::kind::Kind;
use crate::label_set::LabelSet;
use crate::labels::label;
use crate::raw;
use crate::registered::Registered;
use crate::registry::Registry;
use rt_base::{NoMemory, Text};
use std::alloc::Global;
use std::marker::Model;

/// How something ended, as counters by status count it.
#[derive(Clone, Copy, Debug, PartialEq, Eq, Hash)]
pub enum Status {
    /// It gave one of several valid results, but not what was asked for.
    Ambiguous,
    /// The input was valid, and was left out with intent.
    Dropped,
    /// It failed.
    Failure,
    /// The input was malformed or invalid.
    Invalid,
    /// It went well.
    Success,
    /// It gave no result in time.
    Timeout,
}

/// The label of a status, by which the counter of a status is found.
#[derive(Clone, Copy, Debug, PartialEq, Eq, Hash)]
pub struct Label {
    pub status: Status,
}

/// A family of counters by status.
pub type Raw = raw::Family<raw::Counter>;

/// A claim on a family of counters by status.
pub type Counter = Registered<Raw>;

impl Status {
    fn name(self) -> &'static str
        ensures { result.now ≡ status_name self }
    {
        match self {
            Status::Ambiguous => "Ambiguous",
            Status::Dropped => "Dropped",
            Status::Failure => "Failure",
            Status::Invalid => "Invalid",
            Status::Success => "Success",
            Status::Timeout => "Timeout",
        }
    }
}

impl LabelSet for Label {
    ghost pairs = { λ l. status_pairs l.status };

    fn labels(&self, alloc: Global) -> Result<Vec<(Text, Text)>, NoMemory> {
        let mut labels = Vec::new(alloc);
        labels.push(label(alloc, "status", self.status.name())?)?;
        Ok(labels)
    }
}

/// The texts of the labels of all statuses.
#[derive(Debug, Drop)]
struct Texts {
    all: [Text; 6],
}

impl Model for Texts {
    ghost use Rattle.std.specs.Prelude.{◌≡◌, map};
    ghost use Rattle.rt_metrics.specs.Labels.{status_text, all_statuses};

    ghost Value = { Unit {0} };

    ghost view = { λ _. tt };

    ghost invariant = { λ t. t.all ≡ map status_text all_statuses };
}

impl Texts {
    fn new(alloc: Global) -> Result<Texts, NoMemory> {
        Ok(Texts {
            all: [
                status_key(alloc, Status::Ambiguous)?,
                status_key(alloc, Status::Dropped)?,
                status_key(alloc, Status::Failure)?,
                status_key(alloc, Status::Invalid)?,
                status_key(alloc, Status::Success)?,
                status_key(alloc, Status::Timeout)?,
            ],
        })
    }

    fn all(&self) -> &[Text]
        ensures { result.now ≡ map status_text all_statuses }
    {
        &self.all
    }

    fn of(&self, status: Status) -> &Text
        ensures { result.now ≡ status_text status }
    {
        match status {
            Status::Ambiguous => &self.all[0],
            Status::Dropped => &self.all[1],
            Status::Failure => &self.all[2],
            Status::Invalid => &self.all[3],
            Status::Success => &self.all[4],
            Status::Timeout => &self.all[5],
        }
    }
}

/// Returns the text of the label of a status.
fn status_key(alloc: Global, status: Status) -> Result<Text, NoMemory>
    ensures { IfOk result (λ key. key ≡ status_text status) }
{
    label_key(alloc, &Label { status })
}

/// A guard that counts one more at a status when it is finished, whichever way that comes about. It must be spent by
/// [`finish`](Self::finish).
#[derive(Debug)]
pub struct CounterGuard {
    counter: Counter,
    status: Status,
    /// What `finish` looks up, since it takes no memory.
    texts: Texts,
}

impl CounterGuard {
    /// Changes the status at which the guard counts.
    pub fn set(&mut self, status: Status)
        ensures status { self.new.status ≡ status }
        ensures counter { self.new.counter ≡ self.old.counter }
    {
        self.status = status;
    }

    /// Raises the child of the guard's status by one, wrapping, and gives the claim up. A child that was removed and
    /// isn't there stays away. It takes no memory.
    pub fn finish(self, registry: &mut Registry)
        ensures { registry.new ≡ released (child_raised registry.old self.counter.id (status_text self.status) 1) self.counter.id }
    {
        let CounterGuard {
            counter,
            status,
            texts,
        } = self;
        if let Some(child) = registry.child(counter.metric(), texts.of(status)) {
            registry.add_counter(child, 1);
        }
        counter.release(registry);
    }
}

impl Registered<raw::Family<raw::Counter>> {
    /// Returns a guard that counts at this status, or another that is set later. The children of all six statuses are
    /// made where they are missing, and the guard has one claim.
    ///
    /// Error: `NoMemory`, also where no number is left. Nothing has changed after it.
    pub fn guard(&self, registry: &mut Registry, status: Status) -> Result<CounterGuard, NoMemory>
        requires held { IsTrue (is_held registry.old self.now.id) }
        requires few { claims_of registry.old self.now.id < 2 ^ 64 - 1 }
        ensures counter { IfOk result (λ guard. guard.counter.id ≡ self.now.id) }
        ensures status { IfOk result (λ guard. guard.status ≡ status) }
        ensures made { OnOk result (registry.new ≡ claimed (with_statuses registry.old self.now.id all_statuses) self.now.id) }
        ensures refused { OnErr result (registry.new ≡ registry.old) }
    {
        let texts = Texts::new(registry.allocator())?;
        registry.make_children(self.id, texts.all(), Kind::Counter)?;
        registry.claim(self.id);
        Ok(CounterGuard {
            counter: Registered::of(self.id),
            status,
            texts,
        })
    }

    /// Raises the child of this status by one, wrapping; it is made where it is missing.
    ///
    /// Error: `NoMemory`, also where no number is left. Nothing has changed after it.
    pub fn inc(&self, registry: &mut Registry, status: Status) -> Result<(), NoMemory>
        requires held { IsTrue (is_held registry.old self.now.id) }
        ensures raised { OnOk result (registry.new ≡ raised_status registry.old self.now.id status 1) }
        ensures refused { OnErr result (registry.new ≡ registry.old) }
    {
        self.inc_by(registry, status, 1)
    }

    /// Raises the child of this status by so much, wrapping; it is made where it is missing.
    ///
    /// Error: `NoMemory`, also where no number is left. Nothing has changed after it.
    pub fn inc_by(&self, registry: &mut Registry, status: Status, n: u64) -> Result<(), NoMemory>
        requires held { IsTrue (is_held registry.old self.now.id) }
        ensures raised { OnOk result (registry.new ≡ raised_status registry.old self.now.id status n) }
        ensures refused { OnErr result (registry.new ≡ registry.old) }
    {
        let child = self.get_or_create_by(registry, &Label { status })?;
        registry.add_counter(child, n);
        Ok(())
    }
}
