//! Which reply a call has.

ghost use Rattle.std.specs.Prelude.{◌≡◌, ◌↔◌, IsTrue};
ghost use Rattle.rt_model.specs.Replies.{IsRefusal, OutcomeAnswers};
ghost use Rattle.rt_model.specs.Slots.{IsSent, ReceiveAnswers};

use rt_audit::CallReply;
use rt_base::Error;
use rt_model::{Outcome, TaskResult};

/// Returns whether the call is done.
pub fn is_done(reply: &CallReply) -> bool
    ensures { IsTrue result ↔ (reply.now ≡ CallReply.Done) }
{
    matches!(reply, CallReply::Done)
}

/// Returns whether the call is refused with `UnknownToken`.
pub fn is_unknown(reply: &CallReply) -> bool
    ensures { IsTrue result ↔ IsRefusal Error.UnknownToken reply.now }
{
    match reply {
        CallReply::Refused { error } => matches!(error.error(), Error::UnknownToken),
        _ => false,
    }
}

/// Returns whether the call is refused with `Closed`.
pub fn is_closed(reply: &CallReply) -> bool
    ensures { IsTrue result ↔ IsRefusal Error.Closed reply.now }
{
    match reply {
        CallReply::Refused { error } => matches!(error.error(), Error::Closed),
        _ => false,
    }
}

/// Whether the call is refused with `Exited`.
fn is_exited(reply: &CallReply) -> bool
    ensures { IsTrue result ↔ IsRefusal Error.Exited reply.now }
{
    match reply {
        CallReply::Refused { error } => matches!(error.error(), Error::Exited),
        _ => false,
    }
}

/// Whether the call is refused with `Aborted`.
fn is_aborted(reply: &CallReply) -> bool
    ensures { IsTrue result ↔ IsRefusal Error.Aborted reply.now }
{
    match reply {
        CallReply::Refused { error } => matches!(error.error(), Error::Aborted),
        _ => false,
    }
}

/// Returns whether a join of a result in this state may have this reply.
pub fn outcome_answers(outcome: Outcome, reply: &CallReply) -> bool
    ensures { IsTrue result ↔ OutcomeAnswers outcome reply.now }
{
    match outcome {
        Outcome::Open { .. } => matches!(reply, CallReply::Pending),
        Outcome::There => matches!(reply, CallReply::Ready),
        Outcome::Exited => is_exited(reply),
        Outcome::Closed => is_closed(reply),
    }
}

/// Whether a poll of a slot in this state may have this reply.
pub fn receive_answers(found: Option<TaskResult>, reply: &CallReply) -> bool
    ensures { IsTrue result ↔ ReceiveAnswers found reply.now }
{
    match found {
        None => is_unknown(reply),
        Some(found) if found.aborted => is_aborted(reply),
        Some(found) => match found.outcome {
            Outcome::There => is_sent(reply),
            outcome => outcome_answers(outcome, reply),
        },
    }
}

/// Whether a result that was sent may have this reply: a value, or any error.
fn is_sent(reply: &CallReply) -> bool
    ensures { IsTrue result ↔ IsSent reply.now }
{
    matches!(reply, CallReply::Ready | CallReply::Refused { .. })
}
