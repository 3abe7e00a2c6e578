//! Runs whose maker and tasks call and answer what a journal says, for tests.

ghost use Rattle.std.specs.Prelude.{◌≡◌, ◌≤◌, ◌⊎◌, ◌∷◌, [], IfOk, IfSome, OnOk, drop, true, Some, None};
ghost use Rattle.rt_base.specs.declared.time.TheConstants.{MAX_TIME};
ghost use Rattle.rt_audit.specs.declared.finish.FinishCause.TheVariants.{NoMemory as OutOfMemory};
ghost use Rattle.rt_model.specs.Lists.{has_number};
ghost use Rattle.rt_model.specs.State.{Making, Visiting, Polling, Ending, Over, Closing};
ghost use Rattle.rt_model.specs.Causes.{from_running, reached};
ghost use Rattle.rt_model.specs.Effects.{left_of, cause_of};
ghost use Rattle.rt_model.specs.Rules.{MayCall, MayClose, MayRound};
ghost use Rattle.rt_machine.specs.Ends.{open_in};

use crate::numbers::{add_number, ends_next, has_number, remove_number};
use crate::steady::Steady;
use rt_audit::{AnswerKind, Call, FinishCause, Journal, SlotCall};
use rt_base::{Error, MAX_TIME, Nanos, NoMemory};
use rt_machine::Machine;
use rt_model::{Begin, Outcome};
use std::alloc::Global;
use std::marker::Model;

/// What a journal says: a call, or that a part is over and how it is answered.
#[derive(Clone, Copy)]
pub enum Said<'a> {
    Call(&'a Call),
    /// A sleep, with its alarm where it has one.
    Sleep(Nanos, Option<u64>),
    /// A poll of a slot, into which a value was sent, or else `SendFailed`.
    SlotPoll(u64, bool),
    Answer(AnswerKind),
}

/// A machine, who runs, and what is still to come.
#[derive(Drop)]
struct Replay<'a> {
    machine: Machine,
    running: Vec<u64>,
    said: &'a [Said<'a>],
    at: usize,
}

impl<'a> Model for Replay<'a> {
    ghost use Rattle.std.specs.Prelude.{◌≡◌};
    ghost use Rattle.rt_machine.specs.Places.{Seen};

    ghost Value = { Seen };

    ghost view = { λ r. r.machine };

    ghost invariant = { λ r. r.running.items ≡ r.machine.told.state.running };
}

/// Whether a call was refused for lack of memory. Any other refusal is in the journal.
fn refused(error: Error) -> Result<(), NoMemory> {
    let lacked = matches!(error, Error::NoMemory);
    drop(error);
    if lacked { Err(NoMemory) } else { Ok(()) }
}

/// Whether a call lacked memory.
fn told<T: Drop>(answer: Result<T, Error>) -> Result<(), NoMemory> {
    match answer {
        Ok(value) => {
            drop(value);
            Ok(())
        }
        Err(error) => refused(error),
    }
}

#[tactic(auto, using(rt_machine::proofs::Replays::replay_laws, rt_machine::proofs::Counts::count_laws, rt_machine::proofs::Replays::number_laws), unfolding(rt_model::specs::Effects::after, rt_model::specs::State::begun))]
impl<'a> Replay<'a> {
    /// What is said next.
    fn next(&mut self) -> Option<Said<'a>>
        ensures { self.new ≡ self.old }
    {
        let said = *self.said.get(self.at)?;
        self.at = self.at.saturating_add(1);
        Some(said)
    }

    /// Spawns a task.
    fn spawn(&mut self, by: Option<u64>, node: u64) -> Result<(), NoMemory>
        requires calling { MayCall self.old.told.state by }
        requires runs { IfSome by (λ task. has_number task self.old.told.state.running ≡ true) }
        ensures phase { self.new.told.state.phase ≡ self.old.told.state.phase }
        ensures root { self.new.told.state.root ≡ self.old.told.state.root }
        ensures calling { MayCall self.new.told.state by }
        ensures runs { IfSome by (λ task. has_number task self.new.told.state.running ≡ true) }
    {
        self.running.reserve(1)?;
        match self.machine.spawn(by, node) {
            Ok(Some((task, _))) => {
                add_number(&mut self.running, task);
                Ok(())
            }
            Ok(None) => Ok(()),
            Err(error) => refused(error),
        }
    }

    /// Makes a call.
    fn call(&mut self, by: Option<u64>, said: Said<'a>) -> Result<(), NoMemory>
        requires calling { MayCall self.old.told.state by }
        requires runs { IfSome by (λ task. has_number task self.old.told.state.running ≡ true) }
        ensures phase { self.new.told.state.phase ≡ self.old.told.state.phase }
        ensures root { self.new.told.state.root ≡ self.old.told.state.root }
        ensures calling { MayCall self.new.told.state by }
        ensures runs { IfSome by (λ task. has_number task self.new.told.state.running ≡ true) }
    {
        match said {
            Said::Sleep(due, alarm) if due <= MAX_TIME => {
                let _ = self.machine.sleep_poll(by, due, alarm)?;
                Ok(())
            }
            Said::SlotPoll(slot, value) => self.poll_slot(by, slot, value),
            Said::Call(call) => self.call_on_node(by, call),
            _ => Err(NoMemory),
        }
    }

    /// Makes a call on a node or on the shutdown.
    fn call_on_node(&mut self, by: Option<u64>, call: &Call) -> Result<(), NoMemory>
        requires calling { MayCall self.old.told.state by }
        requires runs { IfSome by (λ task. has_number task self.old.told.state.running ≡ true) }
        ensures phase { self.new.told.state.phase ≡ self.old.told.state.phase }
        ensures root { self.new.told.state.root ≡ self.old.told.state.root }
        ensures calling { MayCall self.new.told.state by }
        ensures runs { IfSome by (λ task. has_number task self.new.told.state.running ≡ true) }
    {
        match call {
            Call::Child { node, label } => told(self.machine.child(by, *node, label.as_str())),
            Call::Spawn { node } => self.spawn(by, *node),
            Call::CloseNode { node } => Ok(self.machine.close_node(by, *node)),
            Call::Stop { value } => Ok(drop(self.machine.stop(by, *value)?)),
            Call::Stopped => Ok(drop(self.machine.stopped(by)?)),
            call => self.call_on_task(by, call),
        }
    }

    /// Makes a call on a task.
    fn call_on_task(&mut self, by: Option<u64>, call: &Call) -> Result<(), NoMemory>
        requires calling { MayCall self.old.told.state by }
        requires runs { IfSome by (λ task. has_number task self.old.told.state.running ≡ true) }
        ensures phase { self.new.told.state.phase ≡ self.old.told.state.phase }
        ensures root { self.new.told.state.root ≡ self.old.told.state.root }
        ensures calling { MayCall self.new.told.state by }
        ensures runs { IfSome by (λ task. has_number task self.new.told.state.running ≡ true) }
    {
        match call {
            Call::Abort { task } => Ok(self.machine.abort(by, *task)),
            Call::AbortTask { task } => told(self.machine.abort_task(by, *task)),
            Call::Wake { task } => told(self.machine.wake(by, *task)),
            Call::Join { task } => told(self.machine.join(by, *task)),
            Call::GiveUp { task } => Ok(self.machine.give_up(by, *task)),
            call => self.call_on_slot(by, call),
        }
    }

    /// Makes a call on a slot.
    fn call_on_slot(&mut self, by: Option<u64>, call: &Call) -> Result<(), NoMemory>
        requires calling { MayCall self.old.told.state by }
        requires runs { IfSome by (λ task. has_number task self.old.told.state.running ≡ true) }
        ensures phase { self.new.told.state.phase ≡ self.old.told.state.phase }
        ensures root { self.new.told.state.root ≡ self.old.told.state.root }
        ensures calling { MayCall self.new.told.state by }
        ensures runs { IfSome by (λ task. has_number task self.new.told.state.running ≡ true) }
    {
        match call {
            Call::Slots(SlotCall::Make) => Ok(drop(self.machine.slot(by)?)),
            Call::Slots(SlotCall::Send { slot }) => Ok(self.machine.slot_send(by, *slot)),
            Call::Slots(SlotCall::Close { slot }) => Ok(self.machine.slot_close(by, *slot)),
            Call::Slots(SlotCall::GiveUp { slot }) => Ok(self.machine.slot_give_up(by, *slot)),
            Call::Slots(SlotCall::AbortWait { slot }) => Ok(self.machine.abort_wait(by, *slot)),
            call => self.call_on_signal(by, call),
        }
    }

    /// Makes a call on a signal.
    fn call_on_signal(&mut self, by: Option<u64>, call: &Call) -> Result<(), NoMemory>
        requires calling { MayCall self.old.told.state by }
        requires runs { IfSome by (λ task. has_number task self.old.told.state.running ≡ true) }
        ensures phase { self.new.told.state.phase ≡ self.old.told.state.phase }
        ensures root { self.new.told.state.root ≡ self.old.told.state.root }
        ensures calling { MayCall self.new.told.state by }
        ensures runs { IfSome by (λ task. has_number task self.new.told.state.running ≡ true) }
    {
        match call {
            Call::Signaler => Ok(drop(self.machine.signaler(by)?)),
            Call::CloneSignal { signal } => told(self.machine.clone_signal(by, *signal)),
            Call::SignalPoll { signal } => told(self.machine.poll_signal(by, *signal)),
            Call::SignalClose { signal } => Ok(self.machine.close_signal(by, *signal)),
            call => self.call_on_group(by, call),
        }
    }

    /// Makes a call on a signaler or on a completion.
    fn call_on_group(&mut self, by: Option<u64>, call: &Call) -> Result<(), NoMemory>
        requires calling { MayCall self.old.told.state by }
        requires runs { IfSome by (λ task. has_number task self.old.told.state.running ≡ true) }
        ensures phase { self.new.told.state.phase ≡ self.old.told.state.phase }
        ensures root { self.new.told.state.root ≡ self.old.told.state.root }
        ensures calling { MayCall self.new.told.state by }
        ensures runs { IfSome by (λ task. has_number task self.new.told.state.running ≡ true) }
    {
        match call {
            Call::Signal { signaler, value } => Ok(self.give(by, *signaler, *value)),
            Call::SignalerClose { signaler } => Ok(self.let_go(by, *signaler)),
            Call::CompletionPoll { completion } => told(
                self.machine.poll_completion(by, *completion),
            ),
            Call::CompletionClose { completion } => Ok(
                self.machine.close_completion(by, *completion),
            ),
            _ => Err(NoMemory),
        }
    }

    /// Gives a group its value.
    fn give(&mut self, by: Option<u64>, signaler: u64, value: i32)
        requires calling { MayCall self.old.told.state by }
        requires runs { IfSome by (λ task. has_number task self.old.told.state.running ≡ true) }
        ensures phase { self.new.told.state.phase ≡ self.old.told.state.phase }
        ensures root { self.new.told.state.root ≡ self.old.told.state.root }
        ensures calling { MayCall self.new.told.state by }
        ensures runs { IfSome by (λ task. has_number task self.new.told.state.running ≡ true) }
    {
        self.machine.signal(by, signaler, value)
    }

    /// Gives a signaler up.
    fn let_go(&mut self, by: Option<u64>, signaler: u64)
        requires calling { MayCall self.old.told.state by }
        requires runs { IfSome by (λ task. has_number task self.old.told.state.running ≡ true) }
        ensures phase { self.new.told.state.phase ≡ self.old.told.state.phase }
        ensures root { self.new.told.state.root ≡ self.old.told.state.root }
        ensures calling { MayCall self.new.told.state by }
        ensures runs { IfSome by (λ task. has_number task self.new.told.state.running ≡ true) }
    {
        self.machine.close_signaler(by, signaler)
    }

    /// Polls a slot.
    fn poll_slot(&mut self, by: Option<u64>, slot: u64, value: bool) -> Result<(), NoMemory>
        requires calling { MayCall self.old.told.state by }
        requires runs { IfSome by (λ task. has_number task self.old.told.state.running ≡ true) }
        ensures phase { self.new.told.state.phase ≡ self.old.told.state.phase }
        ensures root { self.new.told.state.root ≡ self.old.told.state.root }
        ensures calling { MayCall self.new.told.state by }
        ensures runs { IfSome by (λ task. has_number task self.new.told.state.running ≡ true) }
    {
        if !self.machine.has_sent(slot) {
            return told(self.machine.slot_poll(by, slot));
        }
        if value {
            self.machine.take_sent(by, slot)
        } else {
            refused(self.machine.show_sent(by, slot, &Error::SendFailed))
        }
    }

    /// Makes the calls of a part. Returns how it is answered.
    fn part(&mut self, by: Option<u64>) -> Result<AnswerKind, NoMemory>
        requires calling { MayCall self.old.told.state by }
        requires runs { IfSome by (λ task. has_number task self.old.told.state.running ≡ true) }
        ensures phase { self.new.told.state.phase ≡ self.old.told.state.phase }
        ensures root { self.new.told.state.root ≡ self.old.told.state.root }
        ensures calling { MayCall self.new.told.state by }
        ensures runs { IfSome by (λ task. has_number task self.new.told.state.running ≡ true) }
    {
        for _ in 0..self.said.len() {
            match self.next() {
                Some(Said::Answer(kind)) => return Ok(kind),
                Some(said) => self.call(by, said)?,
                None => return Ok(AnswerKind::Pending),
            }
        }
        Ok(AnswerKind::Pending)
    }

    /// Ends a task within its visit.
    fn end(&mut self, task: u64, own: Option<Outcome>) -> Result<(), NoMemory>
        requires phase { self.old.told.state.phase ≡ Ending task own (left_of self.old.told.state.phase) }
        requires runs { has_number task self.old.told.state.running ≡ true }
        requires own { open_in own ≡ 0 }
        ensures phase { OnOk result (self.new.told.state.phase ≡ Visiting (left_of self.old.told.state.phase)) }
        ensures root { self.new.told.state.root ≡ self.old.told.state.root }
    {
        let _ = self.part(Some(task))?;
        self.machine.end_visit(task, own);
        remove_number(&mut self.running, task);
        Ok(())
    }

    /// Leaves a task pending, and ends it where it is flagged.
    fn leave(&mut self, task: u64) -> Result<(), NoMemory>
        requires phase { self.old.told.state.phase ≡ Polling task (left_of self.old.told.state.phase) }
        requires runs { has_number task self.old.told.state.running ≡ true }
        ensures phase { OnOk result (self.new.told.state.phase ≡ Visiting (left_of self.old.told.state.phase)) }
        ensures root { self.new.told.state.root ≡ self.old.told.state.root }
    {
        let flagged = self.machine.is_flagged(task);
        self.machine.answer(task, AnswerKind::Pending);
        if flagged {
            self.end(task, None)?;
        }
        Ok(())
    }

    /// Ends a task that is ready. Returns the cause, where the run ends there.
    fn end_ready(&mut self, task: u64) -> Result<Option<FinishCause>, NoMemory>
        requires phase { self.old.told.state.phase ≡ Polling task (left_of self.old.told.state.phase) }
        requires runs { has_number task self.old.told.state.running ≡ true }
        ensures goes { IfOk result (λ cause. cause ≡ None → self.new.told.state.phase ≡ Visiting (left_of self.old.told.state.phase)) }
        ensures over { IfOk result (λ cause. IfSome cause (λ cause. self.new.told.state.phase ≡ Over cause)) }
        ensures root { self.new.told.state.root ≡ self.old.told.state.root }
    {
        let is_root = self.machine.root() == Some(task);
        self.machine.answer(task, AnswerKind::Ready);
        if is_root {
            return Ok(Some(FinishCause::Completed));
        }
        self.end(task, Some(Outcome::There))?;
        Ok(None)
    }

    /// Ends a task that panicked. Returns the cause, where the run ends there.
    fn end_panicked(&mut self, task: u64) -> Result<Option<FinishCause>, NoMemory>
        requires phase { self.old.told.state.phase ≡ Polling task (left_of self.old.told.state.phase) }
        requires runs { has_number task self.old.told.state.running ≡ true }
        ensures goes { IfOk result (λ cause. cause ≡ None → self.new.told.state.phase ≡ Visiting (left_of self.old.told.state.phase)) }
        ensures over { IfOk result (λ cause. IfSome cause (λ cause. self.new.told.state.phase ≡ Over cause)) }
        ensures root { self.new.told.state.root ≡ self.old.told.state.root }
    {
        let is_root = self.machine.root() == Some(task);
        self.machine.answer(task, AnswerKind::Panicked);
        if is_root {
            return Ok(Some(FinishCause::TaskPanicked));
        }
        self.end(task, Some(Outcome::Exited))?;
        Ok(None)
    }

    /// Polls a task. Returns the cause, where the run ends there.
    fn poll(&mut self, task: u64) -> Result<Option<FinishCause>, NoMemory>
        requires phase { self.old.told.state.phase ≡ Polling task (left_of self.old.told.state.phase) }
        requires runs { has_number task self.old.told.state.running ≡ true }
        ensures goes { IfOk result (λ cause. cause ≡ None → self.new.told.state.phase ≡ Visiting (left_of self.old.told.state.phase)) }
        ensures over { IfOk result (λ cause. IfSome cause (λ cause. self.new.told.state.phase ≡ Over cause)) }
        ensures root { self.new.told.state.root ≡ self.old.told.state.root }
    {
        match self.part(Some(task))? {
            AnswerKind::Pending => {
                self.leave(task)?;
                Ok(None)
            }
            AnswerKind::Ready => self.end_ready(task),
            AnswerKind::Panicked => self.end_panicked(task),
            _ => {
                self.machine.answer(task, AnswerKind::NoMemory);
                Ok(Some(FinishCause::NoMemory))
            }
        }
    }

    /// Visits a task that runs. Returns the cause, where the run ends there.
    fn visit(&mut self, task: u64) -> Result<Option<FinishCause>, NoMemory>
        requires phase { self.old.told.state.phase ≡ Visiting (left_of self.old.told.state.phase) }
        requires next { from_running self.old.told.state.running (left_of self.old.told.state.phase) ≡ task ∷ drop 1 (from_running self.old.told.state.running (left_of self.old.told.state.phase)) }
        requires runs { has_number task self.old.told.state.running ≡ true }
        ensures goes { IfOk result (λ cause. cause ≡ None → self.new.told.state.phase ≡ Visiting (drop 1 (from_running self.old.told.state.running (left_of self.old.told.state.phase)))) }
        ensures over { IfOk result (λ cause. IfSome cause (λ cause. self.new.told.state.phase ≡ Over cause)) }
        ensures root { self.new.told.state.root ≡ self.old.told.state.root }
    {
        self.machine.visit(task)?;
        if self.machine.is_stopped(task) {
            self.machine.answer(task, AnswerKind::Stopped);
            return Ok(Some(FinishCause::TaskPanicked));
        }
        if self.machine.is_flagged(task) {
            self.end(task, None)?;
            return Ok(None);
        }
        self.poll(task)
    }

    /// Visits the tasks of a round. Returns the cause, where the run ends there.
    fn round(&mut self, order: &[u64]) -> Result<Option<FinishCause>, NoMemory>
        requires phase { self.old.told.state.phase ≡ Visiting order.now }
        ensures goes { IfOk result (λ cause. cause ≡ None → self.new.told.state.phase ≡ Visiting (left_of self.new.told.state.phase)) }
        ensures all { IfOk result (λ cause. cause ≡ None → from_running self.new.told.state.running (left_of self.new.told.state.phase) ≡ []) }
        ensures over { IfOk result (λ cause. IfSome cause (λ cause. self.new.told.state.phase ≡ Over cause)) }
    {
        let mut rest = order;
        while let Some((task, tail)) = rest.split_first() {
            if has_number(self.running.as_slice(), *task) {
                if let Some(cause) = self.visit(*task)? {
                    return Ok(Some(cause));
                }
            }
            rest = tail;
        }
        Ok(None)
    }

    /// Goes through the rounds, and keeps the order of each in a list. Returns why the run ends.
    fn rounds(&mut self, order: &mut Vec<u64>) -> Result<FinishCause, NoMemory>
        requires { MayRound self.old.told.state.phase self.old.told.state }
        ensures closes { IfOk result (λ cause. MayClose self.new.told.state.phase) }
        ensures reached { IfOk result (λ cause. (cause ≡ OutOfMemory) ⊎ (reached self.new.told.state ≡ Some cause)) }
    {
        for _ in 0..10_000 {
            self.machine.round(order, &mut Steady)?;
            if let Some(cause) = self.round(order.as_slice())? {
                return Ok(cause);
            }
            match self.machine.clock_step() {
                Ok(()) => {}
                Err(cause) => return Ok(cause),
            }
        }
        Err(NoMemory)
    }

    /// Takes the root in, and goes through the rounds. Returns why the run ends.
    fn go(&mut self) -> Result<FinishCause, NoMemory>
        requires { self.old.told.state.phase ≡ Making }
        ensures closes { IfOk result (λ cause. MayClose self.new.told.state.phase) }
        ensures reached { IfOk result (λ cause. (cause ≡ OutOfMemory) ⊎ (reached self.new.told.state ≡ Some cause)) }
    {
        if !self.machine.has_number_left() {
            return Ok(FinishCause::TooManyTasks);
        }
        self.running.reserve(1)?;
        let root = self.machine.register_root()?;
        add_number(&mut self.running, root);
        if self.machine.is_late() {
            return Ok(FinishCause::Timeout);
        }
        let mut order = Vec::new(self.machine.allocator());
        self.rounds(&mut order)
    }

    /// Begins the cleanup of a run that ends for this cause.
    fn begin_cleanup(&mut self, cause: FinishCause)
        requires closes { MayClose self.old.told.state.phase }
        requires reached { (cause ≡ OutOfMemory) ⊎ (reached self.old.told.state ≡ Some cause) }
        ensures phase { self.new.told.state.phase ≡ Closing (cause_of self.new.told.state.phase) }
        ensures caused { (cause ≡ OutOfMemory) ⊎ (cause_of self.new.told.state.phase ≡ Some cause) }
    {
        self.machine.cleanup();
    }

    /// Ends a root that was made and not taken in, where no task runs.
    fn end_unmade(&mut self) -> Result<(), NoMemory>
        requires phase { self.old.told.state.phase ≡ Closing (cause_of self.old.told.state.phase) }
        requires none { self.old.told.state.running ≡ [] }
        ensures phase { self.new.told.state.phase ≡ self.old.told.state.phase }
        ensures none { OnOk result (self.new.told.state.running ≡ []) }
    {
        if self.machine.root().is_none() {
            let _ = self.part(None)?;
        }
        Ok(())
    }

    /// Ends the tasks that run, and the run for this cause.
    fn clean(&mut self, cause: FinishCause) -> Result<(), NoMemory>
        requires closes { MayClose self.old.told.state.phase }
        requires reached { (cause ≡ OutOfMemory) ⊎ (reached self.old.told.state ≡ Some cause) }
    {
        self.begin_cleanup(cause);
        for _ in 0..self.running.len() {
            if let Some(task) = ends_next(self.running.as_slice(), self.machine.root()) {
                let _ = self.part(Some(task))?;
                self.machine.task_ended(task);
                remove_number(&mut self.running, task);
            }
        }
        if !self.running.is_empty() {
            return Err(NoMemory);
        }
        self.end_unmade()?;
        self.machine.crash();
        self.machine.finish(cause);
        Ok(())
    }

    /// Goes through a run from its maker to its end.
    fn run(&mut self) -> Result<(), NoMemory>
        requires { self.old.told.state.phase ≡ Making }
    {
        let _ = self.part(None)?;
        let cause = self.go()?;
        self.clean(cause)
    }
}

/// The journal of a run in which this is said.
#[tactic(auto, unfolding(rt_model::specs::Effects::after, rt_model::specs::State::begun))]
pub fn journal_of(alloc: Global, begin: Begin, said: &[Said]) -> Result<Journal, NoMemory>
    requires { begin.start ≤ MAX_TIME }
{
    let Ok(machine) = Machine::begin(alloc, Journal::new(alloc), begin) else {
        return Err(NoMemory);
    };
    let mut replay = Replay {
        machine,
        running: Vec::new(alloc),
        said,
        at: 0,
    };
    let told = replay.run();
    let journal = replay.machine.into_journal();
    match told {
        Ok(()) => Ok(journal),
        Err(NoMemory) => Err(NoMemory),
    }
}
