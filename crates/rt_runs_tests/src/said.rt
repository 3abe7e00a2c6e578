//! What the entries of a journal say to a replay.

use crate::replay::Said;
use rt_audit::{AnswerKind, Call, CallReply, Entry, SlotCall};
use rt_base::{Error, NoMemory};
use std::alloc::Global;

/// What the entries of a journal say.
pub fn said_in<'a>(alloc: Global, entries: &'a [Entry]) -> Result<Vec<Said<'a>>, NoMemory> {
    let mut said = Vec::new(alloc);
    let mut made = false;
    add_said(&mut said, entries, &mut made)?;
    Ok(said)
}

fn add_said<'a>(
    said: &mut Vec<Said<'a>>,
    entries: &'a [Entry],
    made: &mut bool,
) -> Result<(), NoMemory> {
    for entry in entries {
        if let Some(next) = said_by(entry, made) {
            said.push(next)?;
        }
    }
    Ok(())
}

/// What an entry says, if it says something. `made` says whether the root was taken in.
fn said_by<'a>(entry: &'a Entry, made: &mut bool) -> Option<Said<'a>> {
    match entry {
        Entry::Root { task: _ } => {
            *made = true;
            Some(Said::Answer(AnswerKind::Ready))
        }
        // a maker without a root has made its calls here
        Entry::Cleanup if !*made => Some(Said::Answer(AnswerKind::Ready)),
        Entry::Answer { task: _, kind } => answered(*kind),
        Entry::Call { by: _, call, reply } => Some(called(call, reply)),
        _ => None,
    }
}

/// The answer of a part. That of a stopped task is not said.
fn answered<'a>(kind: AnswerKind) -> Option<Said<'a>> {
    match kind {
        AnswerKind::Stopped => None,
        kind => Some(Said::Answer(kind)),
    }
}

/// A call, with what its reply tells of it.
fn called<'a>(call: &'a Call, reply: &CallReply) -> Said<'a> {
    match call {
        Call::SleepPoll { due } => Said::Sleep(due.nanos(), alarm_in(reply)),
        Call::Slots(SlotCall::Poll { slot }) => Said::SlotPoll(*slot, !is_failed(reply)),
        call => Said::Call(call),
    }
}

/// The alarm of a sleep that isn't over.
fn alarm_in(reply: &CallReply) -> Option<u64> {
    match reply {
        CallReply::PendingAt { alarm } => Some(*alarm),
        _ => None,
    }
}

/// Whether a poll showed that a send had failed.
fn is_failed(reply: &CallReply) -> bool {
    match reply {
        CallReply::Refused { error } => matches!(error.error(), Error::SendFailed),
        _ => false,
    }
}
