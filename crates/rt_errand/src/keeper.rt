//! Keepers: tasks that serve until their run is stopped.

ghost use Rattle.std.specs.Prelude.{◌≡◌};
ghost use Rattle.rt_core.specs.Tasks.{IsPolling, Kept, Polled};
ghost use Rattle.rt_errand.specs.Keeper.{closer};

use rt_core::{
    Answer, Context, Cx, Error, Handle, NoMemory, Outcome, Poll, Poller, Rng, RootMaker, Signal,
    Stop, Task, World,
};
use std::mem;

/// What a keeper or its closer does.
pub enum Duty {
    /// It is to hire its closer, and to serve.
    Opens,
    /// It serves until this signal comes.
    Serves(Signal),
    /// It is to stop the run.
    Closes,
    /// It stops the run, and waits for the end of that.
    Stops(Stop),
    /// It is over.
    Done,
}

/// A task that serves until its run is stopped, whose value it gives, or the closer that stops the run with 5.
pub struct Keeper {
    pub(crate) context: Context,
    pub(crate) duty: Duty,
}

impl Outcome for Keeper {
    type Output = Result<i32, Error>;
}

/// Puts what is to be done into a place that it was taken out of.
fn put(place: &mut Duty, duty: Duty)
    requires { place.old ≡ Duty.Done }
    ensures { place.new ≡ duty }
{
    match mem::replace(place, duty) {
        Duty::Done => {}
        Duty::Opens => unreachable!(),
        Duty::Serves(_signal) => unreachable!(),
        Duty::Closes => unreachable!(),
        Duty::Stops(_stop) => unreachable!(),
    }
}

/// A closer, which is to stop the run.
fn closer(context: Context) -> Keeper
    ensures { result ≡ closer context }
{
    Keeper {
        context,
        duty: Duty::Closes,
    }
}

#[tactic(auto, using(rt_core::proofs::Tasks::task_laws))]
impl Keeper {
    ghost use Rattle.std.specs.Prelude.{Result, ℤ};
    ghost use Rattle.rt_errand.specs.Keeper.{asks, serves, settles, stops};

    /// Polls its signal, and keeps it.
    fn serve<G: Rng>(
        &mut self,
        world: &mut World<Keeper, Result<i32, Error>, G>,
        cx: &Cx,
        mut signal: Signal,
    ) -> Answer<Result<i32, Error>>
        requires polling { IsPolling world.old cx.now.task }
        requires free { self.old.duty ≡ Duty.Done }
        ensures kept { Kept G.stream world.old world.new }
        ensures steps { Polled (serves self.old signal) world.old world.new result self.new }
    {
        let shown = signal.poll(world, cx);
        put(&mut self.duty, Duty::Serves(signal));
        match shown {
            Poll::Pending => Answer::Pending,
            Poll::Ready(output) => Answer::Ready(output),
        }
    }

    /// Makes its signal, and serves.
    fn ask<G: Rng>(
        &mut self,
        world: &mut World<Keeper, Result<i32, Error>, G>,
        cx: &Cx,
    ) -> Answer<Result<i32, Error>>
        requires polling { IsPolling world.old cx.now.task }
        requires free { self.old.duty ≡ Duty.Done }
        ensures kept { Kept G.stream world.old world.new }
        ensures steps { Polled (asks self.old) world.old world.new result self.new }
    {
        match self.context.stopped(world) {
            Ok(signal) => self.serve(world, cx, signal),
            Err(error) => Answer::Ready(Err(error)),
        }
    }

    /// Gives up its closer's handle, and serves.
    fn settle<G: Rng>(
        &mut self,
        world: &mut World<Keeper, Result<i32, Error>, G>,
        cx: &Cx,
        closer: Handle<Keeper>,
    ) -> Answer<Result<i32, Error>>
        requires polling { IsPolling world.old cx.now.task }
        requires free { self.old.duty ≡ Duty.Done }
        ensures kept { Kept G.stream world.old world.new }
        ensures steps { Polled (settles self.old closer) world.old world.new result self.new }
    {
        closer.give_up(world);
        self.ask(world, cx)
    }

    /// Polls the end of the shutdown, and keeps it.
    fn stop<G: Rng>(
        &mut self,
        world: &mut World<Keeper, Result<i32, Error>, G>,
        cx: &Cx,
        mut stop: Stop,
    ) -> Answer<Result<i32, Error>>
        requires polling { IsPolling world.old cx.now.task }
        requires free { self.old.duty ≡ Duty.Done }
        ensures kept { Kept G.stream world.old world.new }
        ensures steps { Polled (stops self.old stop world.old.told.state.clock.time cx.now.task) world.old world.new result self.new }
    {
        let stopped = stop.poll(world, cx);
        put(&mut self.duty, Duty::Stops(stop));
        match stopped {
            Poll::Pending => Answer::Pending,
            Poll::Ready(Ok(())) => Answer::Ready(Ok(5)),
            Poll::Ready(Err(error)) => Answer::Ready(Err(error)),
        }
    }
}

#[tactic(auto, using(rt_core::proofs::Tasks::task_laws))]
impl Task for Keeper {
    ghost use Rattle.rt_errand.specs.Keeper.{keeper_steps};

    ghost steps = { keeper_steps };

    fn poll<G: Rng>(
        &mut self,
        world: &mut World<Self, Self::Output, G>,
        cx: &Cx,
    ) -> Answer<Self::Output> {
        match mem::replace(&mut self.duty, Duty::Done) {
            Duty::Opens => match self.context.start(world, "closer", closer) {
                Ok(handle) => self.settle(world, cx, handle),
                Err(error) => Answer::Ready(Err(error)),
            },
            Duty::Serves(signal) => self.serve(world, cx, signal),
            Duty::Closes => match self.context.child(world, "stop") {
                Ok(context) => self.stop(world, cx, context.stop(5, None)),
                Err(error) => Answer::Ready(Err(error)),
            },
            Duty::Stops(stop) => self.stop(world, cx, stop),
            Duty::Done => Answer::Pending,
        }
    }

    fn end<G: Rng>(self, world: &mut World<Self, Self::Output, G>) {
        let Keeper { context, duty } = self;
        match duty {
            Duty::Serves(signal) => signal.give_up(world),
            Duty::Stops(stop) => stop.give_up(world),
            Duty::Opens | Duty::Closes | Duty::Done => {}
        }
        context.close(world);
    }
}

/// Makes a keeper.
#[derive(Clone, Copy, Debug)]
pub struct RootKeeper;

#[tactic(auto, using(rt_core::proofs::Tasks::maker_laws))]
impl RootMaker<Keeper> for RootKeeper {
    ghost use Rattle.rt_core.specs.Tasks.{Gives};
    ghost use Rattle.rt_errand.specs.Keeper.{keeper_made};

    ghost first = { λ maker now. Gives tt keeper_made };

    fn make<G: Rng>(
        self,
        context: Context,
        _world: &mut World<Keeper, Result<i32, Error>, G>,
    ) -> Result<Keeper, NoMemory> {
        Ok(Keeper {
            context,
            duty: Duty::Opens,
        })
    }
}
