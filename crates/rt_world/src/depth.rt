//! How far a touch reads.

/// What of a task is read before its visit.
#[derive(Clone, Copy, Debug, PartialEq, Eq)]
pub enum Depth {
    /// The state itself.
    State,
    /// What the state leads to.
    Behind,
    /// What that leads to.
    Further,
}
