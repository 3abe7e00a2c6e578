//! Pauses: sleeps that begin at their first poll.

ghost use Rattle.std.specs.Prelude.{◌≡◌};
ghost use Rattle.rt_core.specs.Pauses.{pause_for};

use crate::Sleep;
use rand_core::Rng;
use rt_base::{Error, Nanos, Poll};
use rt_world::{Cx, Outcome, Poller, World};
use std::mem;

/// A poller that is ready from so many nanoseconds after its first poll on. It is made without a context.
///
/// It returns `ClockOverflow` at the first poll where it would end past `MAX_TIME`: then it has not begun.
#[derive(Debug, Drop)]
pub struct Pause {
    pub(crate) duration: Nanos,
    pub(crate) sleep: Option<Sleep>,
}

impl Pause {
    /// Makes a pause of so many nanoseconds.
    pub fn new(duration: Nanos) -> Pause
        ensures { result ≡ pause_for duration }
    {
        Pause {
            duration,
            sleep: None,
        }
    }
}

#[tactic(auto, using(rt_world::proofs::Walked::poller_laws), unfolding(crate::specs::Pauses::pause_spends))]
impl<T: Outcome> Poller<T, ()> for Pause {
    ghost use Rattle.rt_core.specs.Pauses.{pause_polls, pause_spends};

    ghost polls = { λ p now task. pause_polls p now };

    ghost spends = { pause_spends };

    fn poll<G: Rng>(
        &mut self,
        world: &mut World<T, T::Output, G>,
        cx: &Cx,
    ) -> Poll<Result<(), Error>> {
        let sleep = mem::replace(&mut self.sleep, None);
        let mut sleep = match Sleep::begun(sleep, world.now(), self.duration) {
            Ok(sleep) => sleep,
            Err(error) => return Poll::Ready(Err(error)),
        };
        let slept = sleep.poll(world, cx);
        self.sleep = Some(sleep);
        slept
    }

    fn give_up<G: Rng>(self, _world: &mut World<T, T::Output, G>) {}
}
