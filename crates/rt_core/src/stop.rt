//! The shutdown of a run, begun and waited for.

ghost use Rattle.std.specs.Prelude.{◌≡◌, ◌≢◌, ◌≤◌, ℕ, OnOk, OnErr, IfOk};
ghost use Rattle.rt_base.specs.declared.time.TheConstants.{MAX_TIME};
ghost use Rattle.rt_model.specs.Rules.{MayCall};
ghost use Rattle.rt_world.specs.Calls.{IsPolling, Kept};
ghost use Rattle.rt_world.specs.Walked.{Goes, SaysLack, Spends};
ghost use Rattle.rt_core.specs.Stopping.{begins, limit_for, stage_spends, still, stopping};

use crate::{CompletionWait, Context, Sleep, Timeout};
use rand_core::Rng;
use rt_base::{Error, MAX_TIME, Nanos, NoMemory, Poll};
use rt_world::{Cx, Outcome, Poller, World};
use std::mem;

/// How far the shutdown is.
pub enum Stopping {
    /// It is to begin.
    Begins,
    /// Its completion is waited for.
    Waits(CompletionWait),
    /// The same, under a limit.
    Limited(Timeout<CompletionWait>),
}

/// A poller of the end of a run's shutdown. It is a token: it must be spent by [`give_up`](Poller::give_up), which
/// closes its completion, where it has one, and then its context.
///
/// Its first poll stops the run with its value, and from then on it is ready where each signal of the shutdown was
/// given up. It returns `Timeout` where they weren't, so many nanoseconds after that poll. It returns `ClockOverflow`
/// at the first poll where that would be past `MAX_TIME`: the run isn't stopped then, and the next poll begins anew.
pub struct Stop {
    pub(crate) context: Context,
    pub(crate) value: i32,
    pub(crate) timeout: Option<Nanos>,
    pub(crate) stage: Stopping,
}

impl Stopping {
    /// Gives its completion up, where it has one.
    #[tactic(auto, using(rt_world::proofs::Walked::close_laws), unfolding(crate::specs::Stopping::stage_spends))]
    fn give_up<T: Outcome, G: Rng>(self, world: &mut World<T, T::Output, G>)
        requires { MayCall world.old.told.state world.old.out }
        ensures kept { Kept G.stream world.old world.new }
        ensures lacked { world.new.lacked ≡ world.old.lacked }
        ensures steps { Spends (stage_spends self) world.old world.new }
    {
        match self {
            Stopping::Begins => {}
            Stopping::Waits(completion) => completion.give_up(world),
            Stopping::Limited(limit) => limit.give_up(world),
        }
    }
}

impl Stop {
    /// Stops the run, where its limit begins in time.
    #[tactic(auto, using(rt_world::proofs::Signaled::signal_tell_laws), unfolding(crate::specs::Stopping::begins))]
    fn begin<T, O, G: Rng>(&mut self, world: &mut World<T, O, G>) -> Result<(), Error>
        requires calling { MayCall world.old.told.state world.old.out }
        requires fresh { self.old.stage ≡ Stopping.Begins }
        ensures kept { Kept G.stream world.old world.new }
        ensures begun { OnOk result (self.new.stage ≢ Stopping.Begins) }
        ensures steps { Goes (begins self.old world.old.told.state.clock.time) world.old world.new result self.new }
        ensures going { OnOk result (world.new.lacked ≡ world.old.lacked) }
        ensures lack { SaysLack world.old world.new (Poll.Ready result) }
    {
        let limit = match limit_of(world.now(), self.timeout) {
            Ok(limit) => limit,
            Err(error) => return Err(error),
        };
        match world.stop(self.value) {
            Ok(number) => {
                put(&mut self.stage, limited(CompletionWait::of(number), limit));
                Ok(())
            }
            Err(NoMemory) => Err(Error::NoMemory),
        }
    }

    /// Waits for the end of the shutdown that began.
    #[tactic(auto, using(rt_world::proofs::Walked::poller_laws))]
    fn wait<T: Outcome, G: Rng>(
        &mut self,
        world: &mut World<T, T::Output, G>,
        cx: &Cx,
    ) -> Poll<Result<(), Error>>
        requires polling { IsPolling world.old cx.now.task }
        requires begun { self.old.stage ≢ Stopping.Begins }
        ensures kept { Kept G.stream world.old world.new }
        ensures steps { Goes (still self.old world.old.told.state.clock.time cx.now.task self.old.stage) world.old world.new result self.new }
        ensures lack { SaysLack world.old world.new result }
    {
        match &mut self.stage {
            Stopping::Begins => unreachable!(),
            Stopping::Waits(completion) => completion.poll(world, cx),
            Stopping::Limited(limit) => limit.poll(world, cx),
        }
    }
}

#[tactic(auto, using(rt_world::proofs::Walked::poller_laws))]
impl<T: Outcome> Poller<T, ()> for Stop {
    ghost use Rattle.rt_core.specs.Stopping.{stop_polls, stop_spends};

    ghost polls = { λ s now task. stop_polls s now task s.stage };

    ghost spends = { stop_spends };

    fn poll<G: Rng>(
        &mut self,
        world: &mut World<T, T::Output, G>,
        cx: &Cx,
    ) -> Poll<Result<(), Error>> {
        match self.stage {
            Stopping::Begins => match self.begin(world) {
                Ok(()) => self.wait(world, cx),
                Err(error) => Poll::Ready(Err(error)),
            },
            _ => self.wait(world, cx),
        }
    }

    fn give_up<G: Rng>(self, world: &mut World<T, T::Output, G>) {
        let Stop {
            context,
            value: _,
            timeout: _,
            stage,
        } = self;
        stage.give_up(world);
        context.close(world);
    }
}

/// The limit that begins now, where there is one.
fn limit_of(now: Nanos, timeout: Option<Nanos>) -> Result<Option<(Nanos, Sleep)>, Error>
    requires { now ≤ MAX_TIME }
    ensures { result ≡ limit_for timeout now }
{
    match timeout {
        None => Ok(None),
        Some(duration) => match Sleep::lasting(now, duration) {
            Ok(sleep) => Ok(Some((duration, sleep))),
            Err(error) => Err(error),
        },
    }
}

/// Waits for a completion, under a limit that began.
fn limited(completion: CompletionWait, limit: Option<(Nanos, Sleep)>) -> Stopping
    ensures { result ≡ stopping completion limit }
{
    match limit {
        None => Stopping::Waits(completion),
        Some((duration, sleep)) => Stopping::Limited(Timeout {
            state: completion,
            duration,
            sleep: Some(sleep),
        }),
    }
}

/// Puts in how far it is, in place of its beginning.
fn put(place: &mut Stopping, stage: Stopping)
    requires { place.old ≡ Stopping.Begins }
    ensures { place.new ≡ stage }
{
    match mem::replace(place, stage) {
        Stopping::Begins => {}
        Stopping::Waits(_completion) => unreachable!(),
        Stopping::Limited(_limit) => unreachable!(),
    }
}
