//! The replies of a journal's lines.

use crate::words::{hex_bytes, number, signed};
use rt_audit::{Call, CallReply, Payload, Refusal};
use rt_base::{Error, MetricError, NoMemory, is_label};
use std::alloc::Global;

/// The reply to a call. Bytes and a drawn number may stand alone where the call asks for them.
pub fn reply_of(alloc: Global, call: &Call, words: &[&str]) -> Result<Option<CallReply>, NoMemory> {
    match words {
        ["err", code] => refused(alloc, call, code),
        ["bytes", bytes] => filled(alloc, bytes),
        [bytes] if gives_bytes(call) => filled(alloc, bytes),
        words => Ok(plain_reply(words)),
    }
}

fn gives_bytes(call: &Call) -> bool {
    matches!(call, Call::FillBytes { len: _ } | Call::Auditor)
}

fn plain_reply(words: &[&str]) -> Option<CallReply> {
    match words {
        [word] => reply_alone(word),
        [word, value] => reply_with(word, value),
        ["node", node, "ended"] => Some(CallReply::NodeAt {
            node: number(node)?,
            ended: true,
        }),
        ["task", task, "node", node] => Some(CallReply::TaskAt {
            task: number(task)?,
            node: number(node)?,
        }),
        _ => None,
    }
}

fn reply_alone(word: &str) -> Option<CallReply> {
    Some(match word {
        "ok" => CallReply::Done,
        "closed" => CallReply::Closed,
        "pending" => CallReply::Pending,
        "ready" => CallReply::Ready,
        drawn => CallReply::Number {
            number: number(drawn)?,
        },
    })
}

/// The reply of a word and a value.
fn reply_with(word: &str, value: &str) -> Option<CallReply> {
    match word {
        "ok" => Some(CallReply::Value {
            value: signed(value)?,
        }),
        "closed" => Some(CallReply::ClosedWith {
            value: signed(value)?,
        }),
        word => reply_at(word, number(value)?),
    }
}

fn reply_at(word: &str, of: u64) -> Option<CallReply> {
    Some(match word {
        "signal" => CallReply::SignalAt { signal: of },
        "completion" => CallReply::CompletionAt { completion: of },
        "node" => CallReply::NodeAt {
            node: of,
            ended: false,
        },
        "slot" => CallReply::SlotAt { slot: of },
        "pending" => CallReply::PendingAt { alarm: of },
        "number" => CallReply::Number { number: of },
        _ => return None,
    })
}

fn filled(alloc: Global, word: &str) -> Result<Option<CallReply>, NoMemory> {
    let Some(bytes) = hex_bytes(alloc, word)? else {
        return Ok(None);
    };
    Ok(Some(CallReply::Bytes {
        bytes: Payload::of(alloc, bytes.as_slice())?,
    }))
}

/// A refusal, by its number. That of a label is one number for two errors, which have words here too.
fn refused(alloc: Global, call: &Call, code: &str) -> Result<Option<CallReply>, NoMemory> {
    let error = match code {
        "label" => Some(Error::Metric(MetricError::BadLabel)),
        "reserved" => Some(Error::Metric(MetricError::Reserved)),
        "14" => Some(Error::Metric(label_error(call))),
        code => error_of(code),
    };
    refusal(alloc, error)
}

fn refusal(alloc: Global, error: Option<Error>) -> Result<Option<CallReply>, NoMemory> {
    match error {
        Some(error) => Ok(Some(CallReply::Refused {
            error: Refusal::new(alloc, error)?,
        })),
        None => Ok(None),
    }
}

/// Why a label is refused: at the top it is reserved if it begins so, and is a label at all.
fn label_error(call: &Call) -> MetricError {
    match call {
        Call::Child { node: 0, label } if is_reserved(label.as_str()) => MetricError::Reserved,
        _ => MetricError::BadLabel,
    }
}

fn is_reserved(label: &str) -> bool {
    is_label(label.as_bytes()) && label.starts_with("runtime")
}

/// The error of this number, if it is all that the number says.
fn error_of(code: &str) -> Option<Error> {
    Some(match code {
        "1" => Error::Exited,
        "2" => Error::Closed,
        "3" => Error::Aborted,
        "4" => Error::Timeout,
        "7" => Error::SendFailed,
        "8" => Error::RecvFailed,
        "11" => Error::ClockOverflow,
        "12" => Error::UnknownToken,
        "13" => Error::TooManyTasks,
        _ => return None,
    })
}
