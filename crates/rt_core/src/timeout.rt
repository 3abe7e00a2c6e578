//! Pollers with a limit in time.

ghost use Rattle.std.specs.Prelude.{◌≡◌, ◌≤◌, None};
ghost use Rattle.rt_core.specs.Timeouts.{limit_of, over};

use crate::Sleep;
use rand_core::Rng;
use rt_base::{Error, MAX_TIME, Nanos, Poll};
use rt_world::{Cx, Outcome, Poller, World};
use std::mem;

/// A poller of what its state gives, or of [`Error::Timeout`] where the state isn't ready so many nanoseconds after
/// the first poll. It is a token: it must be spent by [`give_up`](Poller::give_up).
///
/// The state is polled first, and what it returns is the answer, its errors too. It returns `ClockOverflow` at the
/// first poll where the time would end past `MAX_TIME`: the state isn't polled then.
#[derive(Debug)]
pub struct Timeout<P> {
    pub(crate) state: P,
    pub(crate) duration: Nanos,
    pub(crate) sleep: Option<Sleep>,
}

impl<P> Timeout<P> {
    /// Takes its sleep out, which begins at the first poll.
    fn begin(&mut self, now: Nanos) -> Result<Sleep, Error>
        requires { now ≤ MAX_TIME }
        ensures sleep { result ≡ limit_of self.old now self.old.sleep }
        ensures rest { self.new ≡ record self.old { sleep = None } }
    {
        Sleep::begun(mem::replace(&mut self.sleep, None), now, self.duration)
    }
}

#[tactic(auto, using(rt_world::proofs::Walked::poller_laws))]
impl<T: Outcome, V, P: Poller<T, V>> Poller<T, V> for Timeout<P> {
    ghost use Rattle.rt_core.specs.Timeouts.{timeout_polls, timeout_spends};

    ghost polls = { λ t now task. timeout_polls P.polls t now task };

    ghost spends = { λ t. timeout_spends P.spends t };

    fn poll<G: Rng>(
        &mut self,
        world: &mut World<T, T::Output, G>,
        cx: &Cx,
    ) -> Poll<Result<V, Error>> {
        let mut sleep = match self.begin(world.now()) {
            Ok(sleep) => sleep,
            Err(error) => return Poll::Ready(Err(error)),
        };
        match self.state.poll(world, cx) {
            Poll::Pending => {
                let slept = sleep.poll(world, cx);
                self.sleep = Some(sleep);
                over(slept)
            }
            Poll::Ready(answer) => {
                self.sleep = Some(sleep);
                Poll::Ready(answer)
            }
        }
    }

    fn give_up<G: Rng>(self, world: &mut World<T, T::Output, G>) {
        let Timeout {
            state,
            duration: _,
            sleep: _,
        } = self;
        state.give_up(world);
    }
}

/// The answer where the state isn't ready, by what its sleep returned.
fn over<V>(slept: Poll<Result<(), Error>>) -> Poll<Result<V, Error>>
    ensures { result ≡ over slept }
{
    match slept {
        Poll::Pending => Poll::Pending,
        Poll::Ready(Ok(())) => Poll::Ready(Err(Error::Timeout)),
        Poll::Ready(Err(error)) => Poll::Ready(Err(error)),
    }
}
