//! Why a call is refused.

ghost use Rattle.std.specs.Prelude.{◌≡◌};
ghost use Rattle.rt_machine.specs.Causes.{error_of};

use rt_base::{Error, MetricError};

/// Why a call is refused.
#[derive(Clone, Copy, Debug)]
pub enum Cause {
    UnknownToken,
    TooManyTasks,
    Exited,
    Closed,
    Aborted,
    BadLabel,
    Reserved,
}

impl Cause {
    /// Returns the error that the caller gets for this cause.
    pub fn error(self) -> Error
        ensures { result ≡ error_of self }
    {
        match self {
            Cause::UnknownToken => Error::UnknownToken,
            Cause::TooManyTasks => Error::TooManyTasks,
            Cause::Exited => Error::Exited,
            Cause::Closed => Error::Closed,
            Cause::Aborted => Error::Aborted,
            Cause::BadLabel => Error::Metric(MetricError::BadLabel),
            Cause::Reserved => Error::Metric(MetricError::Reserved),
        }
    }
}
