//! Calls on slots.

ghost use Rattle.std.specs.Prelude.{◌≡◌, ◌++◌, OnOk, string_bytes};
ghost use Rattle.rt_audit.specs.Lines.{slot_text};

use crate::line::{add_numbered, add_word};
use rt_base::NoMemory;

/// A call on slots, as its line shows it.
#[derive(Clone, Copy, Debug)]
pub enum SlotCall {
    /// Makes a slot.
    Make,
    /// Sends a result into a slot.
    Send { slot: u64 },
    /// Closes a slot, into which nothing is sent then.
    Close { slot: u64 },
    /// Polls a slot.
    Poll { slot: u64 },
    /// Gives up what was to come by a slot.
    GiveUp { slot: u64 },
    /// Aborts the wait for what comes by a slot.
    AbortWait { slot: u64 },
}

impl SlotCall {
    /// Adds the words of a journal's line.
    pub fn add_to(&self, text: &mut String) -> Result<(), NoMemory>
        ensures { OnOk result (string_bytes text.new ≡ string_bytes text.old ++ slot_text self.now) }
    {
        match self {
            SlotCall::Make => add_word(text, "slot"),
            SlotCall::Send { slot } => add_numbered(text, "slot-send ", *slot as u128),
            SlotCall::Close { slot } => add_numbered(text, "slot-close ", *slot as u128),
            SlotCall::Poll { slot } => add_numbered(text, "slot-poll ", *slot as u128),
            SlotCall::GiveUp { slot } => add_numbered(text, "slot-give-up ", *slot as u128),
            SlotCall::AbortWait { slot } => add_numbered(text, "abort-wait ", *slot as u128),
        }
    }
}
