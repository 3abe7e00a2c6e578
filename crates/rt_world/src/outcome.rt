//! What the tasks of a type give.

/// A type whose values run as tasks, and what they give. It is below [`Task`](crate::Task), so that the calls that a
/// poll makes may name the output without leading back to the poll.
pub trait Outcome {
    /// What a task gives when it has finished.
    type Output: Drop;
}
