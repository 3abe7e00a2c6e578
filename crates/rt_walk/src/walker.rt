//! The state that the entries of a journal tell, walked entry by entry.

ghost use Rattle.std.specs.Prelude.{◌≡◌, ◌↔◌, ◌&&◌, IfOk, OnOk, IsTrue};
ghost use Rattle.rt_model.specs.State.{begun};
ghost use Rattle.rt_model.specs.Alarms.{fires, skip_to};
ghost use Rattle.rt_model.specs.Lists.{is_nil};
ghost use Rattle.rt_model.specs.Causes.{from_running, is_late, overflows, reached, turning_cause, where_true};
ghost use Rattle.rt_model.specs.Rules.{May, WasGiven};
ghost use Rattle.rt_model.specs.Effects.{after, is_settled, label_at, task_label};
ghost use Rattle.rt_model.specs.Runs.{next_begin, renews};
ghost use Rattle.rt_walk.specs.Quiet.{quiet};

use crate::announced::Announced;
use crate::called::label_at;
use crate::left::Left;
use crate::marks::is_ended_at;
use crate::nodes::Nodes;
use crate::running::Running;
use crate::stage::Stage;
use crate::table::Table;
use crate::told_alarms::ToldAlarms;
use crate::told_signals::ToldSignals;
use rt_audit::{Entry, FinishCause};
use rt_base::{MAX_TIME, Nanos, NoMemory, Text};
use rt_model::{Begin, Mark, TaskResult};
use rt_parts::WalkedSlots;
use std::alloc::Global;
use std::marker::Model;

/// What the entries of a journal tell so far, walked entry by entry. It rests on the definitions, on the alarms,
/// signals and shutdown of `rt_super` and on the slots of `rt_parts`, which a machine uses too, and not on the
/// machine. Contracts see the state of a run without its calls
/// under way and without all that was drawn, for which no rule asks.
#[derive(Drop)]
pub struct Walker {
    pub(crate) begin: Begin,
    pub(crate) time: Nanos,
    pub(crate) stage: Stage,
    // wide enough for the number after the last one
    pub(crate) next: u128,
    pub(crate) root: Option<u64>,
    pub(crate) root_left: bool,
    pub(crate) panicked: bool,
    pub(crate) running: Running,
    pub(crate) ready: Vec<u64>,
    pub(crate) draws: Vec<u64>,
    pub(crate) alarms: ToldAlarms,
    pub(crate) nodes: Nodes,
    pub(crate) labels: Table<Text>,
    pub(crate) marks: Table<Mark>,
    pub(crate) results: Table<TaskResult>,
    pub(crate) slots: WalkedSlots,
    pub(crate) signals: ToldSignals,
    pub(crate) announced: Vec<Announced>,
    pub(crate) owed: Left,
}

impl Model for Walker {
    ghost use Rattle.std.specs.Prelude.{[]};
    ghost use Rattle.rt_model.specs.State.{State};
    ghost use Rattle.rt_walk.specs.Stage.{phase_of};

    ghost Value = { State };

    ghost view = { λ w. record { clock = record { time = w.time; fixed = w.begin }; phase = phase_of w.stage; numbers = record { first = w.begin.first; next = w.next }; root = w.root; root_left = w.root_left; panicked = w.panicked; running = w.running; ready = w.ready.items; draws = w.draws.items; drawn = []; stood = record { alarms = w.alarms; nodes = w.nodes; results = w.results; slots = w.slots; signals = w.signals.signals; stop = w.signals.stop }; labels = w.labels; marks = w.marks; announced = w.announced.items; owed = w.owed; turns = [] } };
}

#[tactic(auto, unfolding(rt_model::specs::Effects::after, rt_model::specs::State::begun))]
impl Walker {
    /// Makes a walker before the first entry of a run. `begin` holds what the start of the run fixes, its first
    /// moment, cycle, deadline and task number, and the `Start` entry must say the same.
    pub fn new(alloc: Global, begin: Begin) -> Result<Walker, NoMemory>
        ensures { IfOk result (λ walker. walker ≡ begun begin) }
    {
        let mut labels = Table::new(alloc);
        labels.push(0, Text::of(String::new(alloc)))?;
        let nodes = Nodes::new(alloc)?;
        let signals = ToldSignals::new(alloc)?;
        Ok(Walker {
            begin,
            time: begin.start,
            stage: Stage::Blank,
            next: begin.first as u128,
            root: None,
            root_left: false,
            panicked: false,
            running: Running::new(alloc),
            ready: Vec::new(alloc),
            draws: Vec::new(alloc),
            alarms: ToldAlarms::new(alloc),
            nodes,
            labels,
            marks: Table::new(alloc),
            results: Table::new(alloc),
            slots: WalkedSlots::new(alloc),
            signals,
            announced: Vec::new(alloc),
            owed: Left::new(alloc),
        })
    }

    /// Returns the allocator that the lists keep.
    pub(crate) fn allocator(&self) -> Global {
        *self.ready.allocator()
    }

    /// Returns whether the entry starts a further run, after a completed one.
    pub(crate) fn renews(&self, entry: &Entry) -> bool
        ensures { result ≡ renews entry.now self.now.phase }
    {
        matches!(
            (entry, &self.stage),
            (
                Entry::Start { .. },
                Stage::Finished {
                    cause: FinishCause::Completed
                }
            )
        )
    }

    /// Returns how the run after this one begins.
    pub(crate) fn next_begin(&self) -> Begin
        ensures { result ≡ next_begin self.now }
    {
        Begin {
            start: self.time,
            cycle: self.begin.cycle,
            deadline: self.begin.deadline,
            first: 0,
            catch: self.begin.catch,
        }
    }

    /// Returns whether the deadline is there.
    pub(crate) fn is_late(&self) -> bool
        ensures { result ≡ is_late self.now.clock }
    {
        match self.begin.deadline {
            None => false,
            Some(deadline) => deadline <= self.time,
        }
    }

    /// Returns whether a cycle more would pass the last moment.
    pub(crate) fn overflows(&self) -> bool
        ensures { result ≡ overflows self.now.clock }
    {
        self.time > MAX_TIME || MAX_TIME - self.time < self.begin.cycle
    }

    /// Returns the moment that time skips to, if it skips.
    pub(crate) fn skip_to(&self) -> Option<Nanos>
        ensures { result ≡ skip_to self.now.ready self.now.stood.alarms.alarms self.now.clock.time }
    {
        if self.ready.is_empty() {
            self.alarms.ahead(self.time)
        } else {
            None
        }
    }

    /// Returns the number of the alarm that goes off now.
    pub(crate) fn fires(&self) -> Option<u64>
        ensures { result ≡ fires self.now.stood.alarms.alarms self.now.clock.time }
    {
        self.alarms.fires(self.time)
    }

    /// Returns whether the number was given to a task of this run.
    pub(crate) fn was_given(&self, task: u64) -> bool
        ensures { IsTrue result ↔ WasGiven self.now.numbers task }
    {
        self.begin.first <= task && (task as u128) < self.next
    }

    /// Returns whether no node ends after the end of this task.
    pub(crate) fn is_settled(&self, task: u64) -> bool
        ensures { result ≡ is_settled self.now task }
    {
        self.stage.is_closing() || is_ended_at(&self.nodes, &self.marks, task)
    }

    /// Returns the label of a node.
    pub(crate) fn label_at(&self, node: u64) -> &str
        ensures { result.now ≡ label_at self.now.labels node }
    {
        label_at(&self.labels, node)
    }

    /// Returns the label of a task, which is its node's. The root's is empty.
    pub(crate) fn task_label(&self, task: u64) -> &str
        ensures { result.now ≡ task_label self.now task }
    {
        match self.marks.get(task) {
            Some(mark) => self.label_at(mark.node.get()),
            None => "",
        }
    }

    /// The cause that is reached where these numbers are left of a round.
    #[tactic(auto, using(crate::proofs::Members::front_laws))]
    fn round_cause(&self, left: &[u64]) -> Option<FinishCause>
        ensures { result ≡ where_true (is_nil (from_running self.now.running left.now) && overflows self.now.clock) FinishCause.TimeOverflow }
    {
        let is_over = self.running.first_of(left).is_none();
        if is_over && self.overflows() {
            Some(FinishCause::TimeOverflow)
        } else {
            None
        }
    }

    /// The cause that is reached in a clock step.
    fn turning_cause(&self) -> Option<FinishCause>
        ensures { result ≡ turning_cause (skip_to self.now.ready self.now.stood.alarms.alarms self.now.clock.time) (is_late self.now.clock) (fires self.now.stood.alarms.alarms self.now.clock.time) self.now.ready self.now.stood.alarms.alarms }
    {
        if self.skip_to().is_some() {
            None
        } else if self.is_late() {
            Some(FinishCause::Timeout)
        } else if self.fires().is_none() && self.ready.is_empty() && self.alarms.is_empty() {
            Some(FinishCause::Stalled)
        } else {
            None
        }
    }

    /// Returns the cause that the run has reached, if it has.
    pub(crate) fn reached(&self) -> Option<FinishCause>
        ensures { result ≡ reached self.now }
    {
        match &self.stage {
            Stage::Making if self.next >= u64::MAX as u128 => Some(FinishCause::TooManyTasks),
            Stage::Between if self.is_late() => Some(FinishCause::Timeout),
            Stage::Visiting { left } => self.round_cause(left.as_slice()),
            Stage::Turning => self.turning_cause(),
            Stage::Over { cause } | Stage::Finished { cause } => Some(*cause),
            Stage::Cleaning { cause } | Stage::Closing { cause } | Stage::Crashed { cause } =>
                *cause,
            _ => None,
        }
    }
}
