//! What a call may be answered.

ghost use Rattle.std.specs.Prelude.{◌≡◌, ◌↔◌, ◌⊎◌, ◌-◌, ◌^◌, IfErr, IsTrue};
ghost use Rattle.rt_base.specs.declared.error.Error.TheVariants.{UnknownToken, Metric};
ghost use Rattle.rt_audit.specs.declared.call.Call.TheVariants.{Abort, AbortTask, Auditor, Child, CloneSignal, CloseNode, FillBytes, GiveUp, NextU32, NextU64, SleepPoll, Spawn, Wake, Slots};
ghost use Rattle.rt_model.specs.State.{State};
ghost use Rattle.rt_model.specs.Signals.{met_reply, shown_reply, stopped_reply};
ghost use Rattle.rt_model.specs.Lists.{find};
ghost use Rattle.rt_model.specs.Rules.{Answers, ChildAnswers, IsRefusal, JoinAnswers, ShownAs, SpawnAnswers, Unless};

use crate::Walker;
use crate::results::may_abort;
use rt_audit::{Call, CallReply, Label};
use rt_base::{Error, MAX_TIME, MetricError, Nanos, Poll, check_child_label};
use rt_parts::{is_closed, is_done, is_unknown, outcome_answers};
use rt_super::Stopped;

impl Walker {
    /// Returns whether the call may have this reply.
    pub(crate) fn answers(&self, call: &Call, reply: &CallReply) -> bool
        ensures { IsTrue result ↔ Answers self.now call.now reply.now }
    {
        match call {
            Call::Child { node, label } => self.child_answers(*node, label, reply),
            Call::CloseNode { node } => is_done(reply) && self.nodes.is_live(*node),
            Call::Spawn { node } => self.spawn_answers(*node, reply),
            Call::Abort { task } => is_done(reply) && may_abort(&self.results, *task),
            Call::AbortTask { task } => self.abort_task_answers(*task, reply),
            Call::Wake { task } => self.wake_answers(*task, reply),
            Call::Join { task } => self.join_answers(*task, reply),
            Call::GiveUp { task } => is_done(reply) && self.results.get(*task).is_some(),
            Call::SleepPoll { due } => self.sleep_answers(due.nanos(), reply),
            Call::Slots(call) => self.slots.answers(*call, reply),
            Call::Signaler => is_signal(reply, self.signals.count()),
            Call::CloneSignal { signal } => self.clone_answers(*signal, reply),
            Call::Signal { signaler, .. } => is_done(reply) && self.signals.has_signaler(*signaler),
            Call::SignalPoll { signal } => is_shown(self.signals.shown(*signal), reply),
            Call::SignalClose { signal } => is_done(reply) && self.signals.has_signal(*signal),
            Call::SignalerClose { signaler } => {
                is_done(reply) && self.signals.has_signaler(*signaler)
            }
            Call::CompletionPoll { completion } => is_met(self.signals.met(*completion), reply),
            Call::CompletionClose { completion } => {
                is_done(reply) && self.signals.has_completion(*completion)
            }
            Call::Stop { .. } => is_completion(reply, self.signals.count()),
            Call::Stopped => is_stopped(&self.signals.stopped(), reply),
            Call::NextU32 => is_number(reply, u32::MAX as u64),
            Call::NextU64 => is_number(reply, u64::MAX),
            Call::FillBytes { len } => are_bytes(reply, *len),
            Call::Auditor => are_bytes(reply, 4),
        }
    }

    fn child_answers(&self, node: u64, label: &Label, reply: &CallReply) -> bool
        ensures { IsTrue result ↔ Answers self.now (Child node label.now) reply.now }
    {
        if !self.nodes.is_live(node) {
            return is_unknown(reply);
        }
        let refusal = check_child_label(self.label_at(node), label.as_str());
        match (reply, refusal) {
            (
                CallReply::NodeAt {
                    node: number,
                    ended,
                },
                Ok(()),
            ) => !self.nodes.is_known(*number) && *ended == self.nodes.is_ended(node),
            (CallReply::Refused { error }, Err(refusal)) => is_metric(error.error(), refusal),
            _ => false,
        }
    }

    fn spawn_answers(&self, node: u64, reply: &CallReply) -> bool
        ensures { IsTrue result ↔ Answers self.now (Spawn node) reply.now }
    {
        if !self.nodes.is_free(node) {
            return is_unknown(reply);
        }
        if self.next >= u64::MAX as u128 {
            return is_too_many(reply);
        }
        match reply {
            CallReply::TaskAt { task, node: number } => {
                *task as u128 == self.next
                    && !self.nodes.is_ended(node)
                    && !self.nodes.is_known(*number)
            }
            CallReply::Closed => self.nodes.is_ended(node),
            _ => false,
        }
    }

    fn abort_task_answers(&self, task: u64, reply: &CallReply) -> bool
        ensures { IsTrue result ↔ Answers self.now (AbortTask task) reply.now }
    {
        let runs = self.marks.get(task).is_some();
        match reply {
            CallReply::Done => runs,
            CallReply::Refused { error } => {
                matches!(error.error(), Error::UnknownToken) && !runs
            }
            _ => false,
        }
    }

    fn wake_answers(&self, task: u64, reply: &CallReply) -> bool
        ensures { IsTrue result ↔ Answers self.now (Wake task) reply.now }
    {
        match reply {
            CallReply::Done => self.was_given(task),
            CallReply::Refused { error } => {
                matches!(error.error(), Error::UnknownToken) && !self.was_given(task)
            }
            _ => false,
        }
    }

    fn join_answers(&self, task: u64, reply: &CallReply) -> bool
        ensures { IsTrue result ↔ JoinAnswers (find task self.now.stood.results) reply.now }
    {
        match self.results.get(task) {
            None => is_unknown(reply),
            Some(found) => outcome_answers(found.outcome, reply),
        }
    }

    fn clone_answers(&self, signal: u64, reply: &CallReply) -> bool
        ensures { IsTrue result ↔ Answers self.now (CloneSignal signal) reply.now }
    {
        if self.signals.has_signal(signal) {
            is_signal(reply, self.signals.count())
        } else {
            is_unknown(reply)
        }
    }

    fn sleep_answers(&self, due: Nanos, reply: &CallReply) -> bool
        ensures { IsTrue result ↔ Answers self.now (SleepPoll due) reply.now }
    {
        match reply {
            CallReply::Ready => due <= self.time,
            CallReply::PendingAt { alarm } => {
                self.time < due && due <= MAX_TIME && self.alarms.may_tell(due, *alarm)
            }
            _ => false,
        }
    }
}

fn is_signal(reply: &CallReply, number: u64) -> bool
    ensures { IsTrue result ↔ (reply.now ≡ CallReply.SignalAt number) }
{
    match reply {
        CallReply::SignalAt { signal } => *signal == number,
        _ => false,
    }
}

fn is_completion(reply: &CallReply, number: u64) -> bool
    ensures { IsTrue result ↔ (reply.now ≡ CallReply.CompletionAt number) }
{
    match reply {
        CallReply::CompletionAt { completion } => *completion == number,
        _ => false,
    }
}

/// Whether a poll of a signal that shows this has this reply.
fn is_shown(shown: Result<Poll<i32>, Error>, reply: &CallReply) -> bool
    requires { IfErr shown (λ e. (e ≡ Error.UnknownToken) ⊎ (e ≡ Error.Closed)) }
    ensures { IsTrue result ↔ ShownAs shown_reply shown reply.now }
{
    match shown {
        Ok(Poll::Ready(shown)) => is_value(reply, shown),
        Ok(Poll::Pending) => is_pending(reply),
        Err(Error::UnknownToken) => is_unknown(reply),
        Err(error) => {
            drop(error);
            is_closed(reply)
        }
    }
}

/// Whether a poll of a completion in this state has this reply.
fn is_met(met: Result<Poll<()>, Error>, reply: &CallReply) -> bool
    requires { IfErr met (λ e. e ≡ Error.UnknownToken) }
    ensures { IsTrue result ↔ ShownAs met_reply met reply.now }
{
    match met {
        Ok(Poll::Ready(())) => is_done(reply),
        Ok(Poll::Pending) => is_pending(reply),
        Err(error) => {
            drop(error);
            is_unknown(reply)
        }
    }
}

fn is_value(reply: &CallReply, shown: i32) -> bool
    ensures { IsTrue result ↔ (reply.now ≡ CallReply.Value shown) }
{
    match reply {
        CallReply::Value { value } => *value == shown,
        _ => false,
    }
}

fn is_pending(reply: &CallReply) -> bool
    ensures { IsTrue result ↔ (reply.now ≡ CallReply.Pending) }
{
    matches!(reply, CallReply::Pending)
}

/// Whether `stopped` has this reply.
fn is_stopped(stopped: &Stopped, reply: &CallReply) -> bool
    ensures { IsTrue result ↔ (reply.now ≡ stopped_reply stopped.now) }
{
    match (stopped, reply) {
        (Stopped::Waiting(number), CallReply::SignalAt { signal }) => signal == number,
        (Stopped::Resolved(came), CallReply::ClosedWith { value }) => value == came,
        _ => false,
    }
}

/// Whether a number that is drawn and no higher than this may have this reply.
fn is_number(reply: &CallReply, last: u64) -> bool
    ensures short { (s : State) → last ≡ 2 ^ 32 - 1 → (IsTrue result ↔ Answers s NextU32 reply.now) }
    ensures long { (s : State) → last ≡ 2 ^ 64 - 1 → (IsTrue result ↔ Answers s NextU64 reply.now) }
{
    match reply {
        CallReply::Number { number } => *number <= last,
        _ => false,
    }
}

/// Whether so many bytes may have this reply: what is drawn, or a digest, which has four.
fn are_bytes(reply: &CallReply, len: u64) -> bool
    ensures filled { (s : State) → IsTrue result ↔ Answers s (FillBytes len) reply.now }
    ensures digest { (s : State) → len ≡ 4 → (IsTrue result ↔ Answers s Auditor reply.now) }
{
    match reply {
        CallReply::Bytes { bytes } => bytes.as_slice().len() as u64 == len,
        _ => false,
    }
}

fn is_too_many(reply: &CallReply) -> bool
    ensures { IsTrue result ↔ IsRefusal Error.TooManyTasks reply.now }
{
    match reply {
        CallReply::Refused { error } => matches!(error.error(), Error::TooManyTasks),
        _ => false,
    }
}

/// Whether this is the error of that kind.
fn is_metric(error: &Error, kind: MetricError) -> bool
    ensures { IsTrue result ↔ (error.now ≡ Metric kind) }
{
    match error {
        Error::Metric(other) => *other == kind,
        _ => false,
    }
}
