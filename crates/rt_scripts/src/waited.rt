//! What a wait came to.

ghost use Rattle.std.specs.Prelude.{◌≡◌, Ok, Err};
ghost use Rattle.rt_base.specs.declared.error.Error.{Error};
ghost use Rattle.rt_base.specs.declared.poll.Poll.TheVariants.{Ready as IsReady, Pending as IsPending};

use rt_core::{Error, Poll};

/// What one poll of a sleep or of a turn came to. Any error counts as being out of memory.
pub(crate) enum Waited {
    Pending,
    Over,
    NoMemory,
}

impl Waited {
    /// Sorts the answer of a poll.
    pub(crate) fn of(answer: Poll<Result<(), Error>>) -> Waited
        ensures pending { result ≡ Waited.Pending → answer ≡ IsPending }
        ensures over { result ≡ Waited.Over → answer ≡ IsReady (Ok tt) }
        ensures lacking { result ≡ Waited.NoMemory → (error : Error) × (answer ≡ IsReady (Err error)) }
    {
        let waited = match &answer {
            Poll::Pending => Waited::Pending,
            Poll::Ready(Ok(())) => Waited::Over,
            Poll::Ready(Err(_)) => Waited::NoMemory,
        };
        // dropped once, by a call: an arm that dropped an error would take all its variants apart
        drop(answer);
        waited
    }
}
