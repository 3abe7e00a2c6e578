//! What an entry does.

ghost use Rattle.std.specs.Prelude.{◌≡◌, ◌++◌, [], IfOk, OnOk, ℕ, List, Option};
ghost use Rattle.rt_audit.specs.declared.entry.Entry.TheVariants.{Start, Call as CallEntry, Event, Wake, Draw, Root, Round, Visit, Answer, NodeEnd, Advance, Skip, Fire, Cleanup, Crash, Finish};
ghost use Rattle.rt_base.specs.declared.choice.Choice.{Choice};
ghost use Rattle.rt_model.specs.Lists.{is_some_number};
ghost use Rattle.rt_model.specs.State.{State, Blank, Entered, Over};
ghost use Rattle.rt_walk.specs.Signaled.{due_beside};
ghost use Rattle.rt_model.specs.Effects.{after, due_answered, due_called, due_panic, finished, is_closing, left_of, signals_called, stop_called, visited};
ghost use Rattle.rt_walk.specs.Quiet.{quiet};
ghost use Rattle.rt_walk.specs.Stage.{phase_of};

use crate::Walker;
use crate::announced::Announced;
use crate::called::{
    add_due_called, call_alarms, call_labels, call_marks, call_nodes, call_ready, call_results,
    call_running, call_slots,
};
use crate::left::Left;
use crate::marks::{self, flag_all, is_flagged, remove_if, remove_left};
use crate::results::{add_due_ended, add_due_left, end_result, leave_result};
use crate::stage::Stage;
use rt_audit::{AnswerKind, Call, CallReply, Entry, EventFields, EventLabel, FinishCause};
use rt_base::{Nanos, NoMemory};
use rt_model::Outcome;
use std::mem;

#[tactic(auto, unfolding(rt_model::specs::Effects::after))]
impl Walker {
    /// Takes in an entry, whether it may come or not. It is refused with `NoMemory` also where no number is left for
    /// a further alarm, for a sleep of the task `u64::MAX`, which is no task's number, for a task, a node or a slot
    /// whose number was given before, and for a call on slots with a reply that it may not have. After a refusal
    /// nothing is known of the walker any more.
    #[tactic(auto, using(crate::proofs::Quiet::quiet_laws), unfolding(rt_model::specs::Effects::after))]
    pub fn step(&mut self, entry: &Entry) -> Result<(), NoMemory>
        ensures here { OnOk result (self.new ≡ quiet (after self.old entry.now)) }
        ensures alike { OnOk result ((s : State) → quiet s ≡ self.old → self.new ≡ quiet (after s entry.now)) }
    {
        match entry {
            Entry::Start { .. } => self.start(),
            Entry::Call { by, call, reply } => self.call(by.get(), call, reply)?,
            Entry::Event { label, fields } => self.event(label, fields)?,
            Entry::Wake { task } => self.wake(*task)?,
            Entry::Draw { value } => self.draw(*value)?,
            Entry::Root { task } => self.take_root(*task)?,
            Entry::Round { order } => self.round(order.as_slice())?,
            Entry::Visit { task } => self.visit(*task),
            Entry::Answer { task, kind } => self.answer(*task, *kind)?,
            Entry::NodeEnd { node } => self.end_node(*node)?,
            Entry::Advance { now } => self.advance(now.nanos()),
            Entry::Skip { now } => self.skip(now.nanos()),
            Entry::Fire { .. } => self.fire()?,
            Entry::Cleanup => self.clean_up(),
            Entry::Crash { .. } => self.crash(),
            Entry::Finish { cause } => self.finish(*cause),
        }
        Ok(())
    }

    fn start(&mut self)
        ensures { (next now : ℕ) (deadline : Option ℕ) (cycle : ℕ) → self.new ≡ quiet (after self.old (Start next now deadline cycle)) }
    {
        self.stand_at(Stage::Making);
    }

    /// The run is here from now on, and nobody is to be woken.
    fn stand_at(&mut self, stage: Stage)
        ensures { self.new ≡ record self.old { phase = phase_of stage; owed = []; announced = []; drawn = []; turns = [] } }
    {
        drop(mem::replace(&mut self.stage, stage));
        self.owe_nobody();
    }

    /// Nobody is to be woken.
    fn owe_nobody(&mut self)
        ensures { self.new ≡ record self.old { owed = []; announced = []; drawn = []; turns = [] } }
    {
        let nobody = Left::new(self.allocator());
        self.owe(nobody);
    }

    /// These are to be woken, and no event is before the next call.
    fn owe(&mut self, owed: Left)
        ensures { self.new ≡ record self.old { owed = owed; announced = []; drawn = []; turns = [] } }
    {
        drop(mem::replace(&mut self.owed, owed));
        self.announced.clear();
    }

    fn call(&mut self, by: Option<u64>, call: &Call, reply: &CallReply) -> Result<(), NoMemory>
        ensures { OnOk result (self.new ≡ quiet (after self.old (CallEntry by call.now reply.now))) }
    {
        let due = self.due_called(by, call, reply)?;
        self.owe(Left::from_vec(due));
        self.draws.clear();
        if let (Call::Spawn { .. }, CallReply::TaskAt { task, .. }) = (call, reply) {
            self.next = *task as u128 + 1;
        }
        call_running(&mut self.running, call, reply)?;
        call_ready(&mut self.ready, call, reply)?;
        call_alarms(&mut self.alarms, by, call, reply)?;
        call_nodes(&mut self.nodes, call, reply)?;
        call_labels(self.allocator(), &mut self.labels, call, reply)?;
        call_marks(&mut self.marks, call, reply)?;
        call_results(&mut self.results, by, call, reply)?;
        call_slots(&mut self.slots, by, call, reply)
    }

    /// Takes what a call does to signals in. Answers whom it must wake.
    fn due_called(
        &mut self,
        by: Option<u64>,
        call: &Call,
        reply: &CallReply,
    ) -> Result<Vec<u64>, NoMemory>
        ensures due { IfOk result (λ due. due.items ≡ due_called (is_closing self.old.phase) self.old.marks self.old.stood call.now reply.now) }
        ensures state { OnOk result (self.new ≡ record self.old { stood = record self.old.stood { signals = signals_called self.old.stood.signals self.old.stood.stop by call.now reply.now; stop = stop_called self.old.stood.stop call.now reply.now }; drawn = []; turns = [] }) }
    {
        let mut due = self.due_beside(call, reply)?;
        let alloc = self.allocator();
        let mut woken = self.signals.call(alloc, by, call, reply)?;
        if !self.stage.is_closing() {
            due.append(&mut woken)?;
        }
        Ok(due)
    }

    /// Whom a call must wake by marks and slots.
    fn due_beside(&self, call: &Call, reply: &CallReply) -> Result<Vec<u64>, NoMemory>
        ensures { IfOk result (λ due. due.items ≡ due_beside (is_closing self.now.phase) self.now.marks self.now.stood.slots call.now reply.now) }
    {
        let mut due = Vec::new(self.allocator());
        add_due_called(
            self.stage.is_closing(),
            &self.marks,
            &self.slots,
            call,
            reply,
            &mut due,
        )?;
        Ok(due)
    }

    fn wake(&mut self, task: u64) -> Result<(), NoMemory>
        ensures { OnOk result (self.new ≡ quiet (after self.old (Wake task))) }
    {
        self.ready.push(task)?;
        self.owed.pass_first();
        Ok(())
    }

    fn draw(&mut self, value: u64) -> Result<(), NoMemory>
        ensures { OnOk result (self.new ≡ quiet (after self.old (Draw value))) }
    {
        self.draws.push(value)?;
        self.owe_nobody();
        Ok(())
    }

    fn take_root(&mut self, task: u64) -> Result<(), NoMemory>
        ensures { OnOk result (self.new ≡ quiet (after self.old (Root task))) }
    {
        self.running.add(task)?;
        self.ready.push(task)?;
        self.next = task as u128 + 1;
        self.root = Some(task);
        self.stand_at(Stage::Between);
        Ok(())
    }

    fn round(&mut self, order: &[u64]) -> Result<(), NoMemory>
        ensures { OnOk result (self.new ≡ quiet (after self.old (Round order.now))) }
    {
        let left = Left::of(self.allocator(), order)?;
        self.ready.clear();
        self.draws.clear();
        self.stand_at(Stage::Visiting { left });
        Ok(())
    }

    fn end_node(&mut self, node: u64) -> Result<(), NoMemory>
        ensures { OnOk result (self.new ≡ quiet (after self.old (NodeEnd node))) }
    {
        let mut due = Vec::new(self.allocator());
        let flagged = self.nodes.end(node)?;
        flag_all(&mut self.marks, flagged.as_slice(), &mut due)?;
        add_due_left(&self.stage, &self.results, &mut due)?;
        if self.stage.is_closing() {
            due.clear();
        }
        leave_result(&self.stage, &mut self.results);
        remove_left(&mut self.marks, self.stage.leaving());
        let stage = mem::replace(&mut self.stage, Stage::Blank).into_node_ended();
        self.stand_at(stage);
        self.owed = Left::from_vec(due);
        Ok(())
    }

    fn event(&mut self, label: &EventLabel, fields: &EventFields) -> Result<(), NoMemory>
        ensures { OnOk result (self.new ≡ quiet (after self.old (Event label.now fields.now))) }
    {
        if matches!(self.stage, Stage::Entered { .. }) {
            self.enter();
        } else {
            let event = Announced::of(self.allocator(), label, fields)?;
            self.announced.push(event)?;
            self.owed = Left::new(self.allocator());
        }
        Ok(())
    }

    /// The visit of a task begins.
    fn enter(&mut self)
        requires { self.old.phase ≡ Entered (visited self.old.phase) (left_of self.old.phase) }
        ensures { (label : List ℕ) (fields : List (List ℕ)) → self.new ≡ quiet (after self.old (Event label fields)) }
    {
        let stage = match mem::replace(&mut self.stage, Stage::Blank) {
            Stage::Entered { task, left } => {
                let halts = self.root == Some(task) && self.panicked;
                Stage::after_event(halts, is_flagged(&self.marks, task), task, left)
            }
            stage => stage,
        };
        drop(mem::replace(&mut self.stage, stage));
        self.owed = Left::new(self.allocator());
    }

    fn visit(&mut self, task: u64)
        ensures { self.new ≡ quiet (after self.old (Visit task)) }
    {
        let mut left = self.take_left();
        left.pass(&self.running);
        self.stand_at(Stage::Entered { task, left });
    }

    /// Takes what is left of the round under way out.
    fn take_left(&mut self) -> Left
        ensures left { result ≡ left_of self.old.phase }
        ensures rest { self.new ≡ record self.old { phase = Blank } }
    {
        let alloc = self.allocator();
        mem::replace(&mut self.stage, Stage::Blank).into_left(alloc)
    }

    fn answer(&mut self, task: u64, kind: AnswerKind) -> Result<(), NoMemory>
        ensures { OnOk result (self.new ≡ quiet (after self.old (Answer task kind))) }
    {
        match kind {
            AnswerKind::Pending => self.leave_pending(task),
            AnswerKind::Ready => self.finish_task(task, FinishCause::Completed, Outcome::There),
            AnswerKind::Panicked => {
                self.finish_task(task, FinishCause::TaskPanicked, Outcome::Exited);
            }
            AnswerKind::Stopped => self.go_over(FinishCause::TaskPanicked),
            AnswerKind::NoMemory => self.go_over(FinishCause::NoMemory),
            AnswerKind::Ended => self.end_task(task)?,
        }
        Ok(())
    }

    /// A task is left pending. One that was flagged ends.
    fn leave_pending(&mut self, task: u64)
        ensures { self.new ≡ quiet (after self.old (Answer task AnswerKind.Pending)) }
    {
        self.root_left = self.root == Some(task) || self.root_left;
        let flagged = is_flagged(&self.marks, task);
        marks::leave(&mut self.marks, task);
        let left = self.take_left();
        self.stand_at(Stage::after_pending(flagged, task, left));
    }

    /// A task has finished so.
    fn finish_task(&mut self, task: u64, cause: FinishCause, outcome: Outcome)
        ensures { self.new ≡ record self.old { phase = finished (is_some_number task self.old.root) cause outcome task (left_of self.old.phase); owed = []; announced = []; drawn = []; turns = [] } }
    {
        let left = self.take_left();
        let stage = Stage::after_last(self.root == Some(task), cause, outcome, task, left);
        self.stand_at(stage);
    }

    /// The rounds end for this cause.
    fn go_over(&mut self, cause: FinishCause)
        ensures { self.new ≡ record self.old { phase = Over cause; owed = []; announced = []; drawn = []; turns = [] } }
    {
        self.stand_at(Stage::Over { cause });
    }

    /// The state of a task is ended.
    fn end_task(&mut self, task: u64) -> Result<(), NoMemory>
        ensures { OnOk result (self.new ≡ quiet (after self.old (Answer task AnswerKind.Ended))) }
    {
        let settles = self.is_settled(task);
        let due = self.due_at_end(task)?;
        self.panicked = self.panicked || (self.stage.ends_in_panic() && !self.begin.catch);
        self.running.remove(task);
        marks::release(&mut self.nodes, &self.marks, task);
        remove_if(settles, &mut self.marks, task);
        end_result(&self.stage, settles, &mut self.results, task);
        let stage = mem::replace(&mut self.stage, Stage::Blank).into_ended(settles);
        self.stand_at(stage);
        self.owed = Left::from_vec(due);
        Ok(())
    }

    /// Whom the end of a task must wake: for a panic that is kept now the root, and then who waits for the result.
    fn due_at_end(&self, task: u64) -> Result<Vec<u64>, NoMemory>
        ensures { IfOk result (λ due. due.items ≡ due_answered self.now task AnswerKind.Ended) }
    {
        let mut due = Vec::new(self.allocator());
        self.add_due_panic(&mut due)?;
        add_due_ended(
            &self.stage,
            self.is_settled(task),
            &self.results,
            task,
            &mut due,
        )?;
        Ok(due)
    }

    /// Adds the root, where a panic is kept now and the root was left pending once.
    fn add_due_panic(&self, due: &mut Vec<u64>) -> Result<(), NoMemory>
        ensures { OnOk result (due.new.items ≡ due.old.items ++ due_panic self.now) }
    {
        let keeps = self.root_left
            && !self.panicked
            && self.stage.ends_in_panic()
            && !self.begin.catch;
        if keeps && let Some(root) = self.root {
            due.push(root)?;
        }
        Ok(())
    }

    fn advance(&mut self, now: Nanos)
        ensures { self.new ≡ quiet (after self.old (Advance now)) }
    {
        self.time = now;
        self.stand_at(Stage::Turning);
    }

    fn skip(&mut self, now: Nanos)
        ensures { self.new ≡ quiet (after self.old (Skip now)) }
    {
        self.time = now;
        self.owe_nobody();
    }

    fn fire(&mut self) -> Result<(), NoMemory>
        ensures { OnOk result ((alarm : ℕ) → self.new ≡ quiet (after self.old (Fire alarm))) }
    {
        let owed = Left::of_one(self.allocator(), self.alarms.pop())?;
        self.owe(owed);
        Ok(())
    }

    fn clean_up(&mut self)
        ensures { self.new ≡ quiet (after self.old Cleanup) }
    {
        let stage = Stage::cleaned(self.nodes.is_ended(0), self.reached());
        self.stand_at(stage);
        self.ready.clear();
        self.alarms.clear();
    }

    fn crash(&mut self)
        ensures { (choices : List Choice) → self.new ≡ quiet (after self.old (Crash choices)) }
    {
        let cause = self.stage.kept_cause();
        self.draws.clear();
        self.stand_at(Stage::Crashed { cause });
    }

    fn finish(&mut self, cause: FinishCause)
        ensures { self.new ≡ quiet (after self.old (Finish cause)) }
    {
        self.stand_at(Stage::Finished { cause });
    }
}
