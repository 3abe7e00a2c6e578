//! The calls of a journal's lines.

use crate::replies::reply_of;
use crate::words::{moment, number, number_or_none, signed};
use rt_audit::{Call, Caller, Entry, Label, SlotCall};
use rt_base::NoMemory;
use std::alloc::Global;

/// A call with its reply. `-` calls for the maker.
pub fn called(alloc: Global, words: &[&str]) -> Result<Option<Entry>, NoMemory> {
    let Some((by, words)) = words.split_first() else {
        return Ok(None);
    };
    let Some(by) = number_or_none(by) else {
        return Ok(None);
    };
    let (asked, told) = halves(words);
    let Some(call) = call_in(alloc, asked)? else {
        return Ok(None);
    };
    with_reply(alloc, by, call, told)
}

/// The words before the arrow, and those after it.
fn halves<'a>(words: &'a [&'a str]) -> (&'a [&'a str], &'a [&'a str]) {
    for place in 0..words.len() {
        if let (asked, ["->", told @ ..]) = words.split_at(place) {
            return (asked, told);
        }
    }
    (words, &[])
}

fn with_reply(
    alloc: Global,
    by: Option<u64>,
    call: Call,
    told: &[&str],
) -> Result<Option<Entry>, NoMemory> {
    match reply_of(alloc, &call, told) {
        Ok(Some(reply)) => Ok(Some(Entry::Call {
            by: Caller::of(by),
            call,
            reply,
        })),
        Ok(None) => {
            drop(call);
            Ok(None)
        }
        Err(NoMemory) => {
            drop(call);
            Err(NoMemory)
        }
    }
}

fn call_in(alloc: Global, words: &[&str]) -> Result<Option<Call>, NoMemory> {
    match words {
        ["child", node, label] => child(alloc, node, label),
        [word] => Ok(call_alone(word)),
        [word, of] => Ok(call(word, of)),
        ["signal", of, value] => Ok(signal(of, value)),
        _ => Ok(None),
    }
}

fn call_alone(word: &str) -> Option<Call> {
    Some(match word {
        "slot" => Call::Slots(SlotCall::Make),
        "signaler" => Call::Signaler,
        "stopped" => Call::Stopped,
        "u32" => Call::NextU32,
        "u64" => Call::NextU64,
        "auditor" => Call::Auditor,
        _ => return None,
    })
}

fn child(alloc: Global, node: &str, label: &str) -> Result<Option<Call>, NoMemory> {
    let label = Label::of(alloc, label)?;
    Ok(match number(node) {
        Some(node) => Some(Call::Child { node, label }),
        None => None,
    })
}

fn stop(value: &str) -> Option<Call> {
    Some(Call::Stop {
        value: signed(value)?,
    })
}

fn signal(signaler: &str, value: &str) -> Option<Call> {
    Some(Call::Signal {
        signaler: number(signaler)?,
        value: signed(value)?,
    })
}

fn call(word: &str, of: &str) -> Option<Call> {
    if word == "stop" {
        return stop(of);
    }
    if word == "sleep-poll" {
        return Some(Call::SleepPoll { due: moment(of)? });
    }
    call_on_task(word, number(of)?)
}

fn call_on_task(word: &str, of: u64) -> Option<Call> {
    Some(match word {
        "close-node" => Call::CloseNode { node: of },
        "spawn" => Call::Spawn { node: of },
        "abort" => Call::Abort { task: of },
        "abort-task" => Call::AbortTask { task: of },
        "wake" => Call::Wake { task: of },
        "join" => Call::Join { task: of },
        "give-up" => Call::GiveUp { task: of },
        word => return call_on_slot(word, of),
    })
}

fn call_on_slot(word: &str, of: u64) -> Option<Call> {
    Some(Call::Slots(match word {
        "slot-send" => SlotCall::Send { slot: of },
        "slot-close" => SlotCall::Close { slot: of },
        "slot-poll" => SlotCall::Poll { slot: of },
        "slot-give-up" => SlotCall::GiveUp { slot: of },
        "abort-wait" => SlotCall::AbortWait { slot: of },
        word => return call_on_signal(word, of),
    }))
}

fn call_on_signal(word: &str, of: u64) -> Option<Call> {
    Some(match word {
        "clone-signal" => Call::CloneSignal { signal: of },
        "signal-poll" => Call::SignalPoll { signal: of },
        "signal-close" => Call::SignalClose { signal: of },
        "signaler-close" => Call::SignalerClose { signaler: of },
        "completion-poll" => Call::CompletionPoll { completion: of },
        "completion-close" => Call::CompletionClose { completion: of },
        "fill" => Call::FillBytes { len: of },
        _ => return None,
    })
}
