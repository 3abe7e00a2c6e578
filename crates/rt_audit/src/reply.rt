//! The replies to calls on the world.

ghost use Rattle.std.specs.Prelude.{◌≡◌, ◌++◌, OnOk, string_bytes};
ghost use Rattle.rt_audit.specs.Lines.{reply_text};

use crate::code::error_code;
use crate::line::{add_bytes, add_number, add_numbered, add_signed, add_word};
use crate::{Payload, Refusal};
use rt_base::NoMemory;
use std::alloc::Global;

/// The reply to a call, as its line in a journal shows it. A refusal keeps the error itself, of which the line shows
/// the number.
#[derive(Debug, Drop)]
pub enum CallReply {
    /// The call was carried out, and there is no more to say.
    Done,
    /// This node was made. It may have been born ended.
    NodeAt { node: u64, ended: bool },
    /// This task was spawned. Its own context has this node.
    TaskAt { task: u64, node: u64 },
    /// The task was spawned on a node that has ended, and so it isn't run.
    Closed,
    /// This slot was made.
    SlotAt { slot: u64 },
    /// This signal was made.
    SignalAt { signal: u64 },
    /// This completion was made.
    CompletionAt { completion: u64 },
    /// The signal shows this value.
    Value { value: i32 },
    /// The shutdown began with this value, and so no signal of it was made.
    ClosedWith { value: i32 },
    /// What was waited for isn't there.
    Pending,
    /// The sleep isn't over, and this alarm will wake its task.
    PendingAt { alarm: u64 },
    /// What was waited for is there. An output isn't kept.
    Ready,
    /// This number was drawn.
    Number { number: u64 },
    /// These bytes were drawn, or are the digest.
    Bytes { bytes: Payload },
    /// The call was refused.
    Refused { error: Refusal },
}

impl CallReply {
    /// Adds the words of a reply to the text of a journal's line.
    #[inline(always)]
    pub fn add_to(&self, alloc: Global, text: &mut String) -> Result<(), NoMemory>
        ensures { OnOk result (string_bytes text.new ≡ string_bytes text.old ++ reply_text self.now) }
    {
        match self {
            CallReply::Done => add_word(text, "ok"),
            CallReply::NodeAt { node, ended } => {
                add_numbered(text, "node ", *node as u128)?;
                if *ended {
                    add_word(text, " ended")?;
                }
                Ok(())
            }
            CallReply::TaskAt { task, node } => {
                add_numbered(text, "task ", *task as u128)?;
                add_numbered(text, " node ", *node as u128)
            }
            CallReply::Closed => add_word(text, "closed"),
            CallReply::SlotAt { slot } => add_numbered(text, "slot ", *slot as u128),
            CallReply::SignalAt { signal } => add_numbered(text, "signal ", *signal as u128),
            CallReply::CompletionAt { completion } => {
                add_numbered(text, "completion ", *completion as u128)
            }
            CallReply::Value { value } => add_signed(text, "ok ", *value),
            CallReply::ClosedWith { value } => add_signed(text, "closed ", *value),
            CallReply::Pending => add_word(text, "pending"),
            CallReply::PendingAt { alarm } => add_numbered(text, "pending ", *alarm as u128),
            CallReply::Ready => add_word(text, "ready"),
            CallReply::Number { number } => add_number(text, *number as u128),
            CallReply::Bytes { bytes } => add_bytes(alloc, text, bytes.as_slice()),
            CallReply::Refused { error } => add_numbered(
                text,
                "err ",
                error_code(error.error()) as u128,
            ),
        }
    }
}
