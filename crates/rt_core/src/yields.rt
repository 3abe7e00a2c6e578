//! Giving way to the other tasks once.

use rand_core::Rng;
use rt_base::{Error, Poll};
use rt_world::{Cx, Outcome, Poller, World};

/// A poller that is pending once, having queued its own task, and then ready.
#[derive(Debug, Drop)]
pub struct Reschedule {
    queued: bool,
}

impl Reschedule {
    ghost use Rattle.std.specs.Prelude.{◌≡◌};
    ghost use Rattle.rt_core.specs.Pollers.{unqueued};

    /// One that was not polled yet.
    pub(crate) fn fresh() -> Reschedule
        ensures { result ≡ unqueued }
    {
        Reschedule { queued: false }
    }
}

#[tactic(auto, using(rt_world::proofs::Walked::poller_laws), unfolding(crate::specs::Pollers::reschedule_polls, crate::specs::Pollers::reschedule_spends))]
impl<T: Outcome> Poller<T, ()> for Reschedule {
    ghost use Rattle.rt_core.specs.Pollers.{reschedule_polls, reschedule_spends};

    ghost polls = { λ r now task. reschedule_polls r task };

    ghost spends = { reschedule_spends };

    fn poll<G: Rng>(
        &mut self,
        world: &mut World<T, T::Output, G>,
        cx: &Cx,
    ) -> Poll<Result<(), Error>> {
        if self.queued {
            return Poll::Ready(Ok(()));
        }
        match world.wake(cx.task()) {
            Ok(()) => {
                self.queued = true;
                Poll::Pending
            }
            Err(error) => Poll::Ready(Err(error)),
        }
    }

    fn give_up<G: Rng>(self, _world: &mut World<T, T::Output, G>) {}
}
