//! Errands.

ghost use Rattle.std.specs.Prelude.{◌≡◌};
ghost use Rattle.rt_core.specs.Tasks.{IsPolling, Kept, Polled};

use rt_core::{
    Answer, Context, Cx, Error, Nanos, Outcome, Poll, Poller, Reschedule, Rng, Sleep, Task, World,
};
use std::mem;

/// How far an errand is.
#[derive(Debug, Drop)]
pub enum Stage {
    /// It gives way to the other tasks once, and then naps for so many nanoseconds.
    Yields { turn: Reschedule, nap: Nanos },
    /// It is to nap for so many nanoseconds.
    Naps { nap: Nanos },
    /// It sleeps.
    Sleeps(Sleep),
    /// It is to wake the task of this number, and then naps for so many nanoseconds.
    Wakes { task: u64, nap: Nanos },
    /// It waits for others to wake it.
    Waits,
    /// It is over.
    Done,
}

/// A task that yields, naps, wakes another, waits, or gives its number. A nap past the last moment gives
/// `ClockOverflow` instead, and a wake of a number that no task was given `UnknownToken`.
///
/// It keeps its context to its end, and closes it there.
pub struct Errand {
    pub(crate) context: Context,
    pub(crate) stage: Stage,
    pub(crate) number: u64,
}

impl Outcome for Errand {
    type Output = Result<u64, Error>;
}

#[tactic(auto, using(rt_core::proofs::Tasks::task_laws))]
impl Errand {
    ghost use Rattle.rt_errand.specs.Errand.{sleeps, naps};

    /// Polls its sleep, and keeps it.
    fn sleep<G: Rng>(
        &mut self,
        world: &mut World<Errand, Result<u64, Error>, G>,
        cx: &Cx,
        mut sleep: Sleep,
    ) -> Answer<Result<u64, Error>>
        requires { IsPolling world.old cx.now.task }
        ensures kept { Kept G.stream world.old world.new }
        ensures steps { Polled (sleeps self.old sleep) world.old world.new result self.new }
    {
        let slept = sleep.poll(world, cx);
        self.stage = Stage::Sleeps(sleep);
        match slept {
            Poll::Pending => Answer::Pending,
            Poll::Ready(Ok(())) => Answer::Ready(Ok(self.number)),
            Poll::Ready(Err(error)) => Answer::Ready(Err(error)),
        }
    }

    /// Begins its sleep.
    fn nap<G: Rng>(
        &mut self,
        world: &mut World<Errand, Result<u64, Error>, G>,
        cx: &Cx,
        nap: Nanos,
    ) -> Answer<Result<u64, Error>>
        requires { IsPolling world.old cx.now.task }
        ensures kept { Kept G.stream world.old world.new }
        ensures steps { Polled (naps self.old nap world.old.told.state.clock.time) world.old world.new result self.new }
    {
        match self.context.sleep(world, nap) {
            Ok(sleep) => self.sleep(world, cx, sleep),
            Err(error) => Answer::Ready(Err(error)),
        }
    }
}

#[tactic(auto, using(rt_core::proofs::Tasks::task_laws))]
impl Task for Errand {
    ghost use Rattle.rt_errand.specs.Errand.{errand_steps};

    ghost steps = { errand_steps };

    fn poll<G: Rng>(
        &mut self,
        world: &mut World<Self, Self::Output, G>,
        cx: &Cx,
    ) -> Answer<Self::Output> {
        match mem::replace(&mut self.stage, Stage::Done) {
            Stage::Yields { mut turn, nap } => match turn.poll(world, cx) {
                Poll::Pending => {
                    self.stage = Stage::Yields { turn, nap };
                    Answer::Pending
                }
                Poll::Ready(Ok(())) => self.nap(world, cx, nap),
                Poll::Ready(Err(error)) => Answer::Ready(Err(error)),
            },
            Stage::Naps { nap } => self.nap(world, cx, nap),
            Stage::Sleeps(sleep) => self.sleep(world, cx, sleep),
            Stage::Wakes { task, nap } => match world.wake(task) {
                Ok(()) => self.nap(world, cx, nap),
                Err(Error::NoMemory) => Answer::NoMemory,
                Err(error) => Answer::Ready(Err(error)),
            },
            Stage::Waits => {
                self.stage = Stage::Waits;
                Answer::Pending
            }
            Stage::Done => Answer::Ready(Ok(self.number)),
        }
    }

    fn end<G: Rng>(self, world: &mut World<Self, Self::Output, G>) {
        let Errand {
            context,
            stage,
            number: _,
        } = self;
        match stage {
            Stage::Yields { turn, nap: _ } => turn.give_up(world),
            Stage::Sleeps(sleep) => sleep.give_up(world),
            Stage::Naps { .. } | Stage::Wakes { .. } | Stage::Waits | Stage::Done => {}
        }
        context.close(world);
    }
}
