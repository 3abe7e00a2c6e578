//! What may come next.

ghost use Rattle.std.specs.Prelude.{◌≡◌, ◌↔◌, ◌<◌, ◌-◌, ◌^◌, [], IfOk, IfNone, IfSome, OnErr, IsTrue, List, ℕ, Option, true};
ghost use Rattle.rt_audit.specs.declared.entry.Entry.TheVariants.{Start, Event, Root, Round, Visit, Answer, NodeEnd, Advance, Skip, Fire, Crash, Finish};
ghost use Rattle.rt_model.specs.State.{Halted, Making, Polling, State};
ghost use Rattle.rt_model.specs.Causes.{ends_next};
ghost use Rattle.rt_model.specs.Effects.{left_of};
ghost use Rattle.rt_model.specs.Events.{announced_by, IsOfCall};
ghost use Rattle.rt_model.specs.Rules.{CallsAt, IsEndedNext, May, MayAnswer, MayCall, MayFree, MayRound, MayDraw};
ghost use Rattle.rt_walk.specs.Quiet.{quiet};
ghost use Rattle.rt_walk.specs.Memory.{TakesMemory};

use crate::Walker;
use crate::announced::{are_of, is_of_call};
use crate::numbers::is_permutation;
use crate::stage::Stage;
use rt_audit::{AnswerKind, Call, CallReply, Entry, EventFields, EventLabel, FinishCause};
use rt_base::{Choice, Items, MAX_TIME, Nanos, NoMemory};

impl Walker {
    /// Returns whether the entry may come next. It takes memory only where a round's order is compared with the ready
    /// list, and is refused with `NoMemory` there alone.
    #[tactic(auto, using(crate::proofs::Quiet::quiet_laws))]
    pub fn may(&self, entry: &Entry) -> Result<bool, NoMemory>
        ensures here { IfOk result (λ may. IsTrue may ↔ May self.now entry.now) }
        ensures alike { IfOk result (λ may. (s : State) → quiet s ≡ self.now → (IsTrue may ↔ May s entry.now)) }
        ensures err { OnErr result (TakesMemory entry.now) }
    {
        match self.owed.first() {
            // the wakes of an event come first
            Some(owed) => Ok(matches!(entry, Entry::Wake { task } if *task == owed)),
            None => self.may_unowed(entry),
        }
    }

    fn may_unowed(&self, entry: &Entry) -> Result<bool, NoMemory>
        ensures ok { IfOk result (λ may. IsTrue may ↔ MayFree self.now entry.now) }
        ensures err { OnErr result (TakesMemory entry.now) }
    {
        Ok(match entry {
            Entry::Start {
                next,
                now,
                deadline,
                cycle,
            } => self.may_start(
                next.get(),
                now.nanos(),
                deadline.as_ref().map(|due| due.nanos()),
                cycle.nanos(),
            ),
            Entry::Call { by, call, reply } => {
                self.may_call(by.get())
                    && self.answers(call, reply)
                    && self.has_announced(call, reply)
            }
            Entry::Event { label, fields } => self.may_event(label, fields),
            Entry::Wake { .. } => false,
            Entry::Draw { value } => self.may_draw(*value),
            Entry::Root { task } => self.may_root(*task) && self.announced.is_empty(),
            Entry::Round { order } => {
                self.may_round()
                    && is_permutation(self.allocator(), self.ready.as_slice(), order.as_slice())?
            }
            Entry::Visit { task } => self.may_visit(*task),
            Entry::Answer { task, kind } => {
                self.may_answer(*task, *kind) && self.announced.is_empty()
            }
            Entry::NodeEnd { node } => self.may_end_node(*node),
            Entry::Advance { now } => self.may_advance(now.nanos()),
            Entry::Skip { now } => self.may_skip(now.nanos()),
            Entry::Fire { alarm } => self.may_fire(*alarm),
            Entry::Cleanup => self.stage.may_close() && self.announced.is_empty(),
            Entry::Crash { choices } => self.may_crash(choices),
            Entry::Finish { cause } => self.may_finish(*cause),
        })
    }

    /// Whether the start agrees with what was fixed.
    fn may_start(&self, next: u64, now: Nanos, deadline: Option<Nanos>, cycle: Nanos) -> bool
        ensures { IsTrue result ↔ MayFree self.now (Start next now deadline cycle) }
    {
        matches!(self.stage, Stage::Blank)
            && next == self.begin.first
            && now == self.begin.start
            && deadline == self.begin.deadline
            && cycle == self.begin.cycle
    }

    /// Whether this is who makes the calls here.
    fn may_call(&self, by: Option<u64>) -> bool
        ensures { IsTrue result ↔ MayCall self.now by }
    {
        match &self.stage {
            Stage::Making => by.is_none(),
            Stage::Polling { task, .. } | Stage::Ending { task, .. } => by == Some(*task),
            Stage::Closing { .. } => self.is_ended_next(by),
            _ => false,
        }
    }

    /// Whether this is whom a cleanup ends next: a task, or after the last a root that was made and not taken in.
    fn is_ended_next(&self, by: Option<u64>) -> bool
        ensures { IsTrue result ↔ IsEndedNext self.now.root (ends_next self.now.running self.now.root) by }
    {
        match self.ends_next() {
            None => self.root.is_none() && by.is_none(),
            next => by == next,
        }
    }

    /// The task that a cleanup ends next.
    fn ends_next(&self) -> Option<u64>
        ensures { result ≡ ends_next self.now.running self.now.root }
    {
        self.running.ends_next(self.root)
    }

    /// Whether the event of a visit comes here as it is, or one of a call.
    fn may_event(&self, label: &EventLabel, fields: &EventFields) -> bool
        ensures { IsTrue result ↔ MayFree self.now (Event label.now fields.now) }
    {
        match &self.stage {
            Stage::Entered { task, .. } => {
                label.as_str() == "process_task"
                    && fields.are_of_task(*task, self.task_label(*task))
            }
            _ => self.are_calls_made() && self.is_announced(label, fields),
        }
    }

    /// Returns whether this event is the next of a call.
    fn is_announced(&self, label: &EventLabel, fields: &EventFields) -> bool
        ensures { IsTrue result ↔ IsOfCall self.now.stood self.now.announced label.now fields.now }
    {
        is_of_call(self.announced.as_slice(), label, fields)
    }

    /// Returns whether the events of this call are before it.
    fn has_announced(&self, call: &Call, reply: &CallReply) -> bool
        ensures { IsTrue result ↔ (self.now.announced ≡ announced_by self.now.stood call.now reply.now) }
    {
        are_of(self.announced.as_slice(), call, reply)
    }

    /// Whether somebody makes calls here.
    fn are_calls_made(&self) -> bool
        ensures { IsTrue result ↔ ((by : Option ℕ) × MayCall self.now by) }
    {
        self.caller().is_some()
    }

    /// Who makes the calls here, if somebody does: in the name of a task, or of none.
    #[tactic(auto, using(crate::proofs::Callers::caller_laws))]
    fn caller(&self) -> Option<Option<u64>>
        ensures some { IfSome result (λ by. MayCall self.now by) }
        ensures none { IfNone result ((by : Option ℕ) → MayCall self.now by → ⊥) }
    {
        match &self.stage {
            Stage::Making => Some(None),
            Stage::Polling { task, .. } | Stage::Ending { task, .. } => Some(Some(*task)),
            Stage::Closing { .. } => {
                let next = self.ends_next();
                if self.is_ended_next(next) {
                    Some(next)
                } else {
                    None
                }
            }
            _ => None,
        }
    }

    fn may_root(&self, task: u64) -> bool
        ensures { IsTrue result ↔ ((self.now.phase ≡ Making) × (task ≡ self.now.numbers.next) × (task < 2 ^ 64 - 1)) }
    {
        matches!(self.stage, Stage::Making) && task as u128 == self.next && task < u64::MAX
    }

    fn may_draw(&self, value: u64) -> bool
        ensures { IsTrue result ↔ MayDraw self.now.phase self.now value }
    {
        self.may_round()
    }

    fn may_round(&self) -> bool
        ensures { IsTrue result ↔ MayRound self.now.phase self.now }
    {
        match self.stage {
            Stage::Between => !self.is_late(),
            Stage::Turning => {
                !self.ready.is_empty() && !self.is_late() && self.fires().is_none()
            }
            _ => false,
        }
    }

    fn may_visit(&self, task: u64) -> bool
        ensures { IsTrue result ↔ MayFree self.now (Visit task) }
    {
        match &self.stage {
            Stage::Visiting { left } => { self.running.first_of(left.as_slice()) == Some(task) }
            _ => false,
        }
    }

    fn may_answer(&self, task: u64, kind: AnswerKind) -> bool
        ensures { IsTrue result ↔ MayAnswer self.now task kind }
    {
        match kind {
            AnswerKind::Pending | AnswerKind::Ready | AnswerKind::Panicked | AnswerKind::NoMemory =>
                self.polls(task),
            AnswerKind::Stopped => self.is_halted(task),
            AnswerKind::Ended => self.may_end(task),
        }
    }

    /// Whether this task is polled.
    fn polls(&self, task: u64) -> bool
        ensures { IsTrue result ↔ (self.now.phase ≡ Polling task (left_of self.now.phase)) }
    {
        match &self.stage {
            Stage::Polling { task: polled, .. } => *polled == task,
            _ => false,
        }
    }

    /// Whether this task is visited and not polled.
    fn is_halted(&self, task: u64) -> bool
        ensures { IsTrue result ↔ (self.now.phase ≡ Halted task) }
    {
        match &self.stage {
            Stage::Halted { task: halted } => *halted == task,
            _ => false,
        }
    }

    /// Whether this task's end may be over.
    fn may_end(&self, task: u64) -> bool
        ensures { IsTrue result ↔ MayAnswer self.now task AnswerKind.Ended }
    {
        match &self.stage {
            Stage::Ending { task: ended, .. } => task == *ended,
            Stage::Closing { .. } => self.ends_next() == Some(task),
            _ => false,
        }
    }

    fn may_end_node(&self, node: u64) -> bool
        ensures { IsTrue result ↔ MayFree self.now (NodeEnd node) }
    {
        match &self.stage {
            Stage::Leaving { task, .. } => match self.marks.get(*task) {
                Some(mark) => mark.node.get() == node,
                None => false,
            },
            Stage::Cleaning { .. } => node == 0,
            _ => false,
        }
    }

    fn may_advance(&self, now: Nanos) -> bool
        ensures { IsTrue result ↔ MayFree self.now (Advance now) }
    {
        match &self.stage {
            Stage::Visiting { left } => {
                self.running.first_of(left.as_slice()).is_none()
                    && self.time.checked_add(self.begin.cycle) == Some(now)
                    && now <= MAX_TIME
            }
            _ => false,
        }
    }

    fn may_skip(&self, now: Nanos) -> bool
        ensures { IsTrue result ↔ MayFree self.now (Skip now) }
    {
        matches!(self.stage, Stage::Turning) && self.skip_to() == Some(now)
    }

    fn may_fire(&self, alarm: u64) -> bool
        ensures { IsTrue result ↔ MayFree self.now (Fire alarm) }
    {
        matches!(self.stage, Stage::Turning) && !self.is_late() && self.fires() == Some(alarm)
    }

    fn may_crash(&self, choices: &Items<Choice>) -> bool
        ensures { IsTrue result ↔ MayFree self.now (Crash choices.now) }
    {
        matches!(self.stage, Stage::Closing { .. })
            && self.running.is_empty()
            && choices.as_slice().is_empty()
            && self.announced.is_empty()
    }

    fn may_finish(&self, cause: FinishCause) -> bool
        ensures { IsTrue result ↔ MayFree self.now (Finish cause) }
    {
        match &self.stage {
            Stage::Crashed { cause: reached } => {
                matches!(cause, FinishCause::NoMemory) || *reached == Some(cause)
            }
            _ => false,
        }
    }
}
