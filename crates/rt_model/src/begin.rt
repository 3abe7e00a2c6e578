//! How a run begins.

use rt_base::Nanos;

/// What the start of a run fixes: its first moment, its cycle and its deadline, in nanoseconds, and its first task
/// number.
#[derive(Clone, Copy, Debug)]
pub struct Begin {
    pub start: Nanos,
    pub cycle: Nanos,
    pub deadline: Option<Nanos>,
    pub first: u64,
    /// Whether panics of tasks are caught, and end no run.
    pub catch: bool,
}
