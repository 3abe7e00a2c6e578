//! Sleeps.

use rand_core::Rng;
use rt_base::{Error, MAX_TIME, Nanos, NoMemory, Poll};
use rt_world::{Cx, Outcome, Poller, World};
use std::marker::Model;

/// A poller that is ready exactly from its deadline on, in nanoseconds since the epoch. Its first pending poll sets an
/// alarm, later ones change only whom that wakes, and giving it up leaves the alarm.
#[derive(Debug, Drop)]
pub struct Sleep {
    deadline: Nanos,
    alarm: Option<u64>,
}

impl Model for Sleep {
    ghost use Rattle.std.specs.Prelude.{◌≤◌};
    ghost use Rattle.rt_base.specs.declared.time.TheConstants.{MAX_TIME};
    ghost use Rattle.rt_core.specs.Sleeper.{Sleeper};

    ghost Value = { Sleeper };

    ghost view = { λ s. record { deadline = s.deadline; alarm = s.alarm } };

    ghost invariant = { λ s. s.deadline ≤ MAX_TIME };
}

impl Sleep {
    ghost use Rattle.std.specs.Prelude.{◌≡◌, ◌≤◌};
    ghost use Rattle.rt_base.specs.declared.time.TheConstants.{MAX_TIME};
    ghost use Rattle.std.specs.Prelude.{Result};
    ghost use Rattle.rt_core.specs.Pollers.{begun_sleep, sleep_for, until};

    /// A sleep that has no alarm yet.
    pub(crate) fn until(deadline: Nanos) -> Sleep
        requires { deadline ≤ MAX_TIME }
        ensures { result ≡ until deadline }
    {
        Sleep {
            deadline,
            alarm: None,
        }
    }

    /// A sleep for so many nanoseconds from this time on. It is refused with `ClockOverflow` exactly where it would end past
    /// `MAX_TIME`.
    #[tactic(auto, unfolding(crate::specs::Pollers::sleep_for))]
    pub(crate) fn lasting(now: Nanos, duration: Nanos) -> Result<Sleep, Error>
        requires { now ≤ MAX_TIME }
        ensures { result ≡ sleep_for now duration }
    {
        if MAX_TIME - now < duration {
            return Err(Error::ClockOverflow);
        }
        Ok(Sleep::until(now + duration))
    }

    /// This sleep, or where there is none yet one for so many nanoseconds from this time on.
    pub(crate) fn begun(sleep: Option<Sleep>, now: Nanos, duration: Nanos) -> Result<Sleep, Error>
        requires { now ≤ MAX_TIME }
        ensures { result ≡ begun_sleep now duration sleep }
    {
        match sleep {
            Some(sleep) => Ok(sleep),
            None => Sleep::lasting(now, duration),
        }
    }
}

#[tactic(auto, using(rt_world::proofs::Walked::poller_laws), unfolding(crate::specs::Pollers::sleep_polls, crate::specs::Pollers::sleep_spends))]
impl<T: Outcome> Poller<T, ()> for Sleep {
    ghost use Rattle.rt_core.specs.Pollers.{sleep_polls, sleep_spends};

    ghost polls = { λ s now task. sleep_polls s };

    ghost spends = { sleep_spends };

    fn poll<G: Rng>(
        &mut self,
        world: &mut World<T, T::Output, G>,
        _cx: &Cx,
    ) -> Poll<Result<(), Error>> {
        match world.sleep_poll(self.deadline, self.alarm) {
            Ok(None) => Poll::Ready(Ok(())),
            Ok(Some(alarm)) => {
                self.alarm = Some(alarm);
                Poll::Pending
            }
            Err(NoMemory) => Poll::Ready(Err(Error::NoMemory)),
        }
    }

    fn give_up<G: Rng>(self, _world: &mut World<T, T::Output, G>) {}
}
