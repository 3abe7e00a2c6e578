//! Why a run ended.

ghost use Rattle.std.specs.Prelude.{◌≡◌};
ghost use Rattle.rt_audit.specs.Lines.{cause_word};

/// Why a run ended, as a `Finish` entry keeps it. The text of a panic isn't kept.
#[derive(Clone, Copy, Debug, PartialEq, Eq)]
pub enum FinishCause {
    /// The root gave its output.
    Completed,
    /// The deadline was reached.
    Timeout,
    /// Nobody was ready, and no alarm was set.
    Stalled,
    /// The root panicked, or a task's panic was kept.
    TaskPanicked,
    /// Time would have passed its last moment.
    TimeOverflow,
    /// No task number was left for the root.
    TooManyTasks,
    /// The run was cut off because it was out of memory.
    NoMemory,
}

impl FinishCause {
    /// Returns the word of a journal's line for this cause.
    pub fn word(self) -> &'static str
        ensures { result.now ≡ cause_word self }
    {
        match self {
            FinishCause::Completed => "ok",
            FinishCause::Timeout => "timeout",
            FinishCause::Stalled => "stalled",
            FinishCause::TaskPanicked => "panicked",
            FinishCause::TimeOverflow => "overflow",
            FinishCause::TooManyTasks => "tasks",
            FinishCause::NoMemory => "nomemory",
        }
    }
}
