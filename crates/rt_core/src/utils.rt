//! Small helpers of tasks.

ghost use Rattle.std.specs.Prelude.{◌≡◌};
ghost use Rattle.rt_core.specs.Eithers.{both};
ghost use Rattle.rt_core.specs.Pollers.{unqueued};

use crate::{EitherOf, Reschedule};

/// Makes a poller that gives way to the other tasks once: it is pending at its first poll, and then ready.
pub fn reschedule() -> Reschedule
    ensures { result ≡ unqueued }
{
    Reschedule::fresh()
}

/// Makes a poller of what the first ready one of these two answers, of any kinds. The other one comes back with it.
pub fn either<P, Q>(first: P, second: Q) -> EitherOf<P, Q>
    ensures { result ≡ both first second }
{
    EitherOf::of(first, second)
}
