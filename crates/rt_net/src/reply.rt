// What a call on the network returns, and which answers leave it waiting.
ghost use Rattle.std.specs.Prelude.{◌≡◌, None};
ghost use Rattle.rt_net.specs.Waiting.{is_pending, waits, waits_on};

use rt_base::{Error, Nanos, Poll};

/// What a call on a network returns: an answer, and the task that the call wakes.
#[derive(Debug, Drop)]
pub struct Reply<V> {
    /// The answer.
    pub value: V,
    /// The number of the one task to wake.
    pub wake: Option<u64>,
    /// The number of a stream and when its bytes arrive there, for bytes that arrive later than they are sent. In a `Net`
    /// they arrive at once, and it is `None`.
    pub link: Option<(u64, Nanos)>,
}

impl<V> Reply<V> {
    // An answer, with the task that it wakes.
    pub(crate) fn of(value: V, wake: Option<u64>) -> Reply<V>
        ensures { result ≡ record { value = value; wake = wake; link = None } }
    {
        Reply {
            value,
            wake,
            link: None,
        }
    }
}

/// Returns whether the call waits.
pub fn is_pending<V>(answer: &Result<Poll<V>, Error>) -> bool
    ensures { result ≡ is_pending answer.now }
{
    matches!(answer, Ok(Poll::Pending))
}

/// Returns whether a call waits whose answer also names a task to wake.
pub fn waits<V>(answer: &Result<Reply<Poll<V>>, Error>) -> bool
    ensures { result ≡ waits answer.now }
{
    match answer {
        Ok(reply) => matches!(reply.value, Poll::Pending),
        Err(_) => false,
    }
}

/// Returns whether a call waits that may also be made while one waits, which it then was before.
pub fn waits_on<V>(before: bool, answer: &Result<Poll<V>, Error>) -> bool
    ensures { result ≡ waits_on before answer.now }
{
    match answer {
        Ok(poll) => matches!(poll, Poll::Pending),
        Err(Error::NoMemory | Error::UnknownToken) => before,
        Err(_) => false,
    }
}
