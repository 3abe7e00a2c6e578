//! What a poll of a task returns.

ghost use Rattle.std.specs.Prelude.{◌≡◌, ◌↔◌, IsTrue};

use rt_base::Text;

/// What a poll of a task returns.
#[derive(Debug, Drop)]
pub enum Answer<O> {
    /// The poll is to be called again.
    Pending,
    /// The task has finished, with this output.
    Ready(O),
    /// The task has panicked, with this text.
    Panicked(Text),
    /// A call ran out of memory. The run ends.
    NoMemory,
}

impl<O> Answer<O> {
    /// Returns whether the poll is to be called again.
    pub fn is_pending(&self) -> bool
        ensures { IsTrue result ↔ (self.now ≡ Answer.Pending) }
    {
        matches!(self, Answer::Pending)
    }

    /// Returns whether the task has finished with an output.
    pub fn is_ready(&self) -> bool
        ensures { IsTrue result ↔ ((output : O) × (self.now ≡ Answer.Ready output)) }
    {
        matches!(self, Answer::Ready(_))
    }
}
