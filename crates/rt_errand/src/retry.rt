//! Retries.

ghost use Rattle.std.specs.Prelude.{◌≡◌};
ghost use Rattle.rt_core.specs.Tasks.{IsPolling, Kept, Polled};

use rt_core::{
    Answer, Context, Cx, Error, NoMemory, Outcome, Poll, Poller, Rng, RootMaker, Sleep, Task, World,
};
use std::mem;

/// How far a retry is.
#[derive(Debug, Drop)]
pub(crate) enum Stage {
    Fresh,
    First(Sleep),
    Second(Sleep),
    Third(Sleep),
}

/// A task that tries three times what never succeeds. After each try it pauses, longer each time: 10, 20 and 40 ms. Its
/// output is the number of tries.
pub struct Retry {
    pub(crate) context: Context,
    pub(crate) stage: Stage,
}

impl Outcome for Retry {
    type Output = Result<u64, Error>;
}

#[tactic(auto, using(rt_core::proofs::Tasks::task_laws))]
impl Retry {
    ghost use Rattle.rt_errand.specs.Retry.{firsts, seconds, thirds};

    fn third<G: Rng>(
        &mut self,
        world: &mut World<Retry, Result<u64, Error>, G>,
        cx: &Cx,
        mut sleep: Sleep,
    ) -> Answer<Result<u64, Error>>
        requires { IsPolling world.old cx.now.task }
        ensures kept { Kept G.stream world.old world.new }
        ensures steps { Polled (thirds self.old sleep) world.old world.new result self.new }
    {
        let slept = sleep.poll(world, cx);
        self.stage = Stage::Third(sleep);
        match slept {
            Poll::Pending => Answer::Pending,
            Poll::Ready(Ok(())) => Answer::Ready(Ok(3)),
            Poll::Ready(Err(error)) => Answer::Ready(Err(error)),
        }
    }

    fn second<G: Rng>(
        &mut self,
        world: &mut World<Retry, Result<u64, Error>, G>,
        cx: &Cx,
        mut sleep: Sleep,
    ) -> Answer<Result<u64, Error>>
        requires { IsPolling world.old cx.now.task }
        ensures kept { Kept G.stream world.old world.new }
        ensures steps { Polled (seconds self.old world.old.told.state.clock.time sleep) world.old world.new result self.new }
    {
        let slept = sleep.poll(world, cx);
        self.stage = Stage::Second(sleep);
        match slept {
            Poll::Pending => Answer::Pending,
            Poll::Ready(Ok(())) => match self.context.sleep(world, 40_000_000) {
                Ok(sleep) => self.third(world, cx, sleep),
                Err(error) => Answer::Ready(Err(error)),
            },
            Poll::Ready(Err(error)) => Answer::Ready(Err(error)),
        }
    }

    fn first<G: Rng>(
        &mut self,
        world: &mut World<Retry, Result<u64, Error>, G>,
        cx: &Cx,
        mut sleep: Sleep,
    ) -> Answer<Result<u64, Error>>
        requires { IsPolling world.old cx.now.task }
        ensures kept { Kept G.stream world.old world.new }
        ensures steps { Polled (firsts self.old world.old.told.state.clock.time sleep) world.old world.new result self.new }
    {
        let slept = sleep.poll(world, cx);
        self.stage = Stage::First(sleep);
        match slept {
            Poll::Pending => Answer::Pending,
            Poll::Ready(Ok(())) => match self.context.sleep(world, 20_000_000) {
                Ok(sleep) => self.second(world, cx, sleep),
                Err(error) => Answer::Ready(Err(error)),
            },
            Poll::Ready(Err(error)) => Answer::Ready(Err(error)),
        }
    }
}

#[tactic(auto, using(rt_core::proofs::Tasks::task_laws))]
impl Task for Retry {
    ghost use Rattle.rt_errand.specs.Retry.{retry_steps};

    ghost steps = { retry_steps };

    fn poll<G: Rng>(
        &mut self,
        world: &mut World<Self, Self::Output, G>,
        cx: &Cx,
    ) -> Answer<Self::Output> {
        match mem::replace(&mut self.stage, Stage::Fresh) {
            Stage::Fresh => match self.context.sleep(world, 10_000_000) {
                Ok(sleep) => self.first(world, cx, sleep),
                Err(error) => Answer::Ready(Err(error)),
            },
            Stage::First(sleep) => self.first(world, cx, sleep),
            Stage::Second(sleep) => self.second(world, cx, sleep),
            Stage::Third(sleep) => self.third(world, cx, sleep),
        }
    }

    fn end<G: Rng>(self, world: &mut World<Self, Self::Output, G>) {
        let Retry { context, stage } = self;
        match stage {
            Stage::Fresh => {}
            Stage::First(sleep) | Stage::Second(sleep) | Stage::Third(sleep) => sleep.give_up(
                world,
            ),
        }
        context.close(world);
    }
}

/// Makes a retry. It makes no call.
#[derive(Clone, Copy, Debug)]
pub struct RootRetry;

#[tactic(auto, using(rt_core::proofs::Tasks::maker_laws))]
impl RootMaker<Retry> for RootRetry {
    ghost use Rattle.rt_errand.specs.Retry.{retry_made};

    ghost first = { λ maker now. retry_made };

    fn make<G: Rng>(
        self,
        context: Context,
        _world: &mut World<Retry, Result<u64, Error>, G>,
    ) -> Result<Retry, NoMemory> {
        Ok(Retry {
            context,
            stage: Stage::Fresh,
        })
    }
}
