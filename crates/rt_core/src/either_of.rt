//! The first of two pollers that is ready.

ghost use Rattle.std.specs.Prelude.{◌≡◌};
ghost use Rattle.rt_world.specs.Calls.{IsPolling, Kept};
ghost use Rattle.rt_world.specs.Walked.{Goes, SaysLack};
ghost use Rattle.rt_core.specs.Eithers.{both, neither, polls_second, unless_lack};

use either::Either;
use rand_core::Rng;
use rt_base::{Error, Poll};
use rt_world::{Cx, Outcome, Poller, World};
use std::mem;

/// Which of two pollers was ready first: on the left the answer of the first, and the second poller; on the right the
/// answer of the second, and the first poller.
pub type FirstOf<V, P, W, Q> = Either<(Result<V, Error>, Q), (Result<W, Error>, P)>;

/// A poller of what the first ready one of two pollers answers, with the other one, which has not answered. It is a
/// token: it must be spent by [`give_up`](Poller::give_up), which gives both up, the first one first.
///
/// A poll polls the first one, and where that is pending the second one. The one that is ready is given up, and the
/// other comes back as a part of the answer, after an error too. From then on it returns `Closed`.
///
/// `NoMemory` of one of them is the answer of both: then neither is given up, and both are polled again by a later
/// poll.
#[derive(Debug)]
pub struct EitherOf<P, Q> {
    pair: Option<(P, Q)>,
}

impl<P, Q> EitherOf<P, Q> {
    /// One that polls these.
    pub(crate) fn of(first: P, second: Q) -> Self
        ensures { result ≡ both first second }
    {
        EitherOf {
            pair: Some((first, second)),
        }
    }

    /// Puts both back.
    fn put(&mut self, first: P, second: Q)
        requires { self.old ≡ neither }
        ensures { self.new ≡ both first second }
    {
        match mem::replace(&mut self.pair, Some((first, second))) {
            None => {}
            Some((_first, _second)) => unreachable!(),
        }
    }

    /// Polls the second one, where the first is pending.
    #[tactic(auto, using(rt_world::proofs::Walked::poller_laws))]
    fn poll_second<T: Outcome, V, W, G: Rng>(
        &mut self,
        world: &mut World<T, T::Output, G>,
        cx: &Cx,
        first: P,
        second: Q,
    ) -> Poll<Result<FirstOf<V, P, W, Q>, Error>>
    where
        Q: Poller<T, W>,
        requires polling { IsPolling world.old cx.now.task }
        requires free { self.old ≡ neither }
        ensures kept { Kept G.stream world.old world.new }
        ensures steps { Goes (polls_second (λ state. Q.polls state world.old.told.state.clock.time cx.now.task) Q.spends first second) world.old world.new result self.new }
        ensures lack { SaysLack world.old world.new result }
    {
        let mut second = second;
        match second.poll(world, cx) {
            Poll::Pending => {
                self.put(first, second);
                Poll::Pending
            }
            Poll::Ready(answer) => {
                match unless_lack(answer) {
                    None => {
                        self.put(first, second);
                        Poll::Ready(Err(Error::NoMemory))
                    }
                    Some(answer) => {
                        second.give_up(world);
                        Poll::Ready(Ok(Either::Right((answer, first))))
                    }
                }
            }
        }
    }
}

#[tactic(auto, using(rt_world::proofs::Walked::poller_laws))]
impl<T: Outcome, V, W, P: Poller<T, V>, Q: Poller<T, W>> Poller<T, FirstOf<V, P, W, Q>>
    for EitherOf<P, Q> {
    ghost use Rattle.rt_core.specs.Eithers.{either_polls, either_spends};

    ghost polls = { λ e now task. either_polls (λ state. P.polls state now task) (λ state. Q.polls state now task) P.spends Q.spends e };

    ghost spends = { λ e. either_spends P.spends Q.spends e };

    fn poll<G: Rng>(
        &mut self,
        world: &mut World<T, T::Output, G>,
        cx: &Cx,
    ) -> Poll<Result<FirstOf<V, P, W, Q>, Error>> {
        let Some((mut first, second)) = mem::replace(&mut self.pair, None) else {
            return Poll::Ready(Err(Error::Closed));
        };
        match first.poll(world, cx) {
            Poll::Pending => self.poll_second(world, cx, first, second),
            Poll::Ready(answer) => {
                match unless_lack(answer) {
                    None => {
                        self.put(first, second);
                        Poll::Ready(Err(Error::NoMemory))
                    }
                    Some(answer) => {
                        first.give_up(world);
                        Poll::Ready(Ok(Either::Left((answer, second))))
                    }
                }
            }
        }
    }

    fn give_up<G: Rng>(self, world: &mut World<T, T::Output, G>) {
        let EitherOf { pair } = self;
        if let Some((first, second)) = pair {
            first.give_up(world);
            second.give_up(world);
        }
    }
}

/// This answer, unless it is that memory is lacking.
fn unless_lack<V>(answer: Result<V, Error>) -> Option<Result<V, Error>>
    ensures { result ≡ unless_lack answer }
{
    match answer {
        Ok(value) => Some(Ok(value)),
        Err(Error::NoMemory) => None,
        Err(error) => Some(Err(error)),
    }
}
