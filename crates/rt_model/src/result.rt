//! The results of tasks.

/// What the result of a task is at a moment.
#[derive(Clone, Copy, Debug)]
pub enum Outcome {
    /// The task hasn't ended. It may be that a task waits.
    Open { waits: Option<u64> },
    /// The task has finished, and its output is there.
    There,
    /// The task reported a panic.
    Exited,
    /// The task ended without a result, or it was taken.
    Closed,
}

/// The result of a task, and whether it was used to abort the task.
#[derive(Clone, Copy, Debug)]
pub struct TaskResult {
    pub outcome: Outcome,
    pub aborted: bool,
}
