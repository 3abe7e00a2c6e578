//! Calls on the world.

ghost use Rattle.std.specs.Prelude.{◌≡◌, ◌++◌, OnOk, string_bytes};
ghost use Rattle.rt_audit.specs.Lines.{call_text};

use crate::line::{add_numbered, add_signed, add_space, add_word};
use crate::{Label, Moment, SlotCall};
use rt_base::NoMemory;
use std::alloc::Global;

/// A call on the world, as its line in a journal shows it.
#[derive(Debug, Drop)]
pub enum Call {
    /// Makes a child of a node.
    Child { node: u64, label: Label },
    /// Closes the context of a node.
    CloseNode { node: u64 },
    /// Spawns a task on a node.
    Spawn { node: u64 },
    /// Aborts a task by its handle.
    Abort { task: u64 },
    /// Aborts a task by its number.
    AbortTask { task: u64 },
    /// Queues a task.
    Wake { task: u64 },
    /// Polls the result of a task.
    Join { task: u64 },
    /// Gives the result of a task up.
    GiveUp { task: u64 },
    /// Polls a sleep that is over at `due`.
    SleepPoll { due: Moment },
    /// A call on slots.
    Slots(SlotCall),
    /// Makes a group of signals.
    Signaler,
    /// Makes a further signal of the group of this one.
    CloneSignal { signal: u64 },
    /// Gives a group its value.
    Signal { signaler: u64, value: i32 },
    /// Polls a signal.
    SignalPoll { signal: u64 },
    /// Gives a signal up.
    SignalClose { signal: u64 },
    /// Gives a signaler up that gave no value.
    SignalerClose { signaler: u64 },
    /// Polls a completion.
    CompletionPoll { completion: u64 },
    /// Gives a completion up.
    CompletionClose { completion: u64 },
    /// Begins the shutdown with this value, unless it began before.
    Stop { value: i32 },
    /// Makes a signal of the shutdown, unless it began before.
    Stopped,
    /// Draws a number of 32 bits.
    NextU32,
    /// Draws a number of 64 bits.
    NextU64,
    /// Draws this many bytes.
    FillBytes { len: u64 },
    /// Asks for the digest of the events so far.
    Auditor,
}

impl Call {
    /// Adds the words of a call to the text of a journal's line.
    pub fn add_to(&self, alloc: Global, text: &mut String) -> Result<(), NoMemory>
        ensures { OnOk result (string_bytes text.new ≡ string_bytes text.old ++ call_text self.now) }
    {
        let _ = alloc;
        match self {
            Call::Child { node, label } => {
                add_numbered(text, "child ", *node as u128)?;
                add_space(text)?;
                add_word(text, label.as_str())
            }
            Call::CloseNode { node } => add_numbered(text, "close-node ", *node as u128),
            Call::Spawn { node } => add_numbered(text, "spawn ", *node as u128),
            Call::Abort { task } => add_numbered(text, "abort ", *task as u128),
            Call::AbortTask { task } => add_numbered(text, "abort-task ", *task as u128),
            Call::Wake { task } => add_numbered(text, "wake ", *task as u128),
            Call::Join { task } => add_numbered(text, "join ", *task as u128),
            Call::GiveUp { task } => add_numbered(text, "give-up ", *task as u128),
            Call::SleepPoll { due } => add_numbered(text, "sleep-poll ", due.nanos()),
            Call::Slots(call) => call.add_to(text),
            Call::Signaler => add_word(text, "signaler"),
            Call::CloneSignal { signal } => add_numbered(text, "clone-signal ", *signal as u128),
            Call::Signal { signaler, value } => {
                add_numbered(text, "signal ", *signaler as u128)?;
                add_signed(text, " ", *value)
            }
            Call::SignalPoll { signal } => add_numbered(text, "signal-poll ", *signal as u128),
            Call::SignalClose { signal } => add_numbered(text, "signal-close ", *signal as u128),
            Call::SignalerClose { signaler } => {
                add_numbered(text, "signaler-close ", *signaler as u128)
            }
            Call::CompletionPoll { completion } => {
                add_numbered(text, "completion-poll ", *completion as u128)
            }
            Call::CompletionClose { completion } => {
                add_numbered(text, "completion-close ", *completion as u128)
            }
            Call::Stop { value } => add_signed(text, "stop ", *value),
            Call::Stopped => add_word(text, "stopped"),
            Call::NextU32 => add_word(text, "u32"),
            Call::NextU64 => add_word(text, "u64"),
            Call::FillBytes { len } => add_numbered(text, "fill ", *len as u128),
            Call::Auditor => add_word(text, "auditor"),
        }
    }
}
