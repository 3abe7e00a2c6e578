//! How a poll or an end of a task went.

ghost use Rattle.std.specs.Prelude.{◌≡◌, ◌++◌, OnOk, codes, string_bytes};
ghost use Rattle.rt_audit.specs.Lines.{kind_word};

use crate::line::add_word;
use rt_base::NoMemory;

/// How a poll or an end of a task went, as an `Answer` entry keeps it.
#[derive(Clone, Copy, Debug, PartialEq, Eq)]
pub enum AnswerKind {
    /// The poll is to be called again.
    Pending,
    /// The poll gave its output.
    Ready,
    /// The poll reported a panic.
    Panicked,
    /// The root wasn't polled, since a panic was kept.
    Stopped,
    /// A call of the poll ran out of memory.
    NoMemory,
    /// The task's state was ended.
    Ended,
}

impl AnswerKind {
    /// Returns the word of a journal's line for this kind.
    pub fn word(self) -> &'static str
        ensures { result.now ≡ kind_word self }
    {
        match self {
            AnswerKind::Pending => "pending",
            AnswerKind::Ready => "ready",
            AnswerKind::Panicked => "panicked",
            AnswerKind::Stopped => "stopped",
            AnswerKind::NoMemory => "nomemory",
            AnswerKind::Ended => "ended",
        }
    }

    /// Adds the word after a space.
    pub(crate) fn add_to(self, text: &mut String) -> Result<(), NoMemory>
        ensures { OnOk result (string_bytes text.new ≡ string_bytes text.old ++ (codes " " ++ kind_word self)) }
    {
        match self {
            AnswerKind::Pending => add_word(text, " pending"),
            AnswerKind::Ready => add_word(text, " ready"),
            AnswerKind::Panicked => add_word(text, " panicked"),
            AnswerKind::Stopped => add_word(text, " stopped"),
            AnswerKind::NoMemory => add_word(text, " nomemory"),
            AnswerKind::Ended => add_word(text, " ended"),
        }
    }
}
