//! Why a run fails.

ghost use Rattle.std.specs.Prelude.{◌≡◌};
ghost use Rattle.rt_core.specs.Failures.{finish_of};

use rt_audit::FinishCause;
use rt_base::Text;
use thiserror::Error;

/// Why a run gave no output.
#[derive(Debug, Drop, PartialEq, Eq, Error)]
pub enum RunError {
    /// A deadline is set and was there, before a round or in a clock step before its alarms went off.
    #[error("timeout")]
    Timeout,
    /// After a clock step the root was pending, nobody was ready and no alarm was set.
    #[error("stalled")]
    Stalled,
    /// The root panicked with this text, or it was visited while the panic of another task was kept, which had this text.
    #[error("task panicked: {0}")]
    TaskPanicked(Text),
    /// After a round with the root unfinished a cycle more would have passed the last moment.
    #[error("time overflow")]
    TimeOverflow,
    /// No task number was left for the root.
    #[error("too many tasks")]
    TooManyTasks,
    /// The run was out of memory, which may come at any time.
    #[error("no memory")]
    NoMemory,
}

impl RunError {
    /// Returns the cause that the run's last entry keeps.
    pub fn cause(&self) -> FinishCause
        ensures { result ≡ finish_of self.now }
    {
        match self {
            RunError::Timeout => FinishCause::Timeout,
            RunError::Stalled => FinishCause::Stalled,
            RunError::TaskPanicked(_) => FinishCause::TaskPanicked,
            RunError::TimeOverflow => FinishCause::TimeOverflow,
            RunError::TooManyTasks => FinishCause::TooManyTasks,
            RunError::NoMemory => FinishCause::NoMemory,
        }
    }
}
