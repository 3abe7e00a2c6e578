//! Chiefs: tasks that wait for a worker in ways of their own.

ghost use Rattle.std.specs.Prelude.{◌≡◌};
ghost use Rattle.rt_core.specs.Tasks.{IsPolling, Kept, Polled};

use rt_core::{
    Answer, Context, Cx, Error, Handle, HandleOf, Nanos, NoMemory, Outcome, Poll, Poller, Rng,
    RootMaker, Select, Sleep, Task, Timeout, World,
};
use std::alloc::Global;
use std::mem;

/// How a chief waits for its worker.
#[derive(Clone, Copy, Debug)]
pub enum Plan {
    /// It polls its worker and a sleep of so many nanoseconds, both at each poll.
    Watches(Nanos),
    /// It polls its worker under a limit of so many nanoseconds.
    Limits(Nanos),
    /// It takes what comes first of its worker's output and this number.
    Chooses(u64),
    /// It has no worker, and polls a handle that holds this number under a limit of so many nanoseconds.
    Holds(Nanos, u64),
}

/// What a chief or its worker does.
pub enum Work {
    /// It is to begin.
    Begins(Plan),
    /// It polls its worker and a sleep.
    Watches(Handle<Chief>, Sleep),
    /// It polls its worker under a limit.
    Limits(Timeout<Handle<Chief>>),
    /// It polls several handles.
    Chooses(Select<Chief>),
    /// It naps for three milliseconds, and then gives 5.
    Naps,
    /// It sleeps, and then gives 5.
    Sleeps(Sleep),
    /// It is over.
    Done,
}

/// A task that spawns a worker and waits for it, or that worker.
pub struct Chief {
    pub(crate) context: Context,
    pub(crate) work: Work,
    pub(crate) alloc: Global,
}

impl Outcome for Chief {
    type Output = Result<u64, Error>;
}

/// Puts what is to be done into a place that it was taken out of.
fn put(place: &mut Work, work: Work)
    requires { place.old ≡ Work.Done }
    ensures { place.new ≡ work }
{
    match mem::replace(place, work) {
        Work::Done => {}
        Work::Begins(_) => unreachable!(),
        Work::Watches(_handle, _sleep) => unreachable!(),
        Work::Limits(_limit) => unreachable!(),
        Work::Chooses(_choice) => unreachable!(),
        Work::Naps => unreachable!(),
        Work::Sleeps(_) => unreachable!(),
    }
}

/// A worker, at its nap.
fn worker(context: Context, alloc: Global) -> Chief
    ensures { result ≡ record { context = context; work = Work.Naps; alloc = alloc } }
{
    Chief {
        context,
        work: Work::Naps,
        alloc,
    }
}

#[tactic(auto, using(rt_core::proofs::Tasks::task_laws))]
impl Chief {
    ghost use Rattle.std.specs.Prelude.{List, Result, ℕ, Ok};
    ghost use Rattle.rt_core.specs.Contexts.{Context};
    ghost use Rattle.rt_core.specs.Sleeper.{Sleeper};
    ghost use Rattle.rt_errand.specs.Chief.{Output, chooses, limits, sleeps, waits, watches};

    /// Polls its worker and then its sleep, and keeps both.
    fn watch<G: Rng>(
        &mut self,
        world: &mut World<Chief, Result<u64, Error>, G>,
        cx: &Cx,
        mut handle: Handle<Chief>,
        mut sleep: Sleep,
    ) -> Answer<Result<u64, Error>>
        requires polling { IsPolling world.old cx.now.task }
        requires free { self.old.work ≡ Work.Done }
        ensures kept { Kept G.stream world.old world.new }
        ensures steps { Polled (watches self.old sleep handle) world.old world.new result self.new }
    {
        match handle.poll(world, cx) {
            Poll::Ready(Ok(output)) => {
                put(&mut self.work, Work::Watches(handle, sleep));
                Answer::Ready(output)
            }
            Poll::Ready(Err(error)) => {
                put(&mut self.work, Work::Watches(handle, sleep));
                Answer::Ready(Err(error))
            }
            Poll::Pending => {
                let slept = sleep.poll(world, cx);
                put(&mut self.work, Work::Watches(handle, sleep));
                match slept {
                    Poll::Pending => Answer::Pending,
                    Poll::Ready(Ok(())) => Answer::Ready(Err(Error::Timeout)),
                    Poll::Ready(Err(error)) => Answer::Ready(Err(error)),
                }
            }
        }
    }

    /// Polls its worker under a limit, and keeps both.
    fn limit<G: Rng>(
        &mut self,
        world: &mut World<Chief, Result<u64, Error>, G>,
        cx: &Cx,
        mut limit: Timeout<Handle<Chief>>,
    ) -> Answer<Result<u64, Error>>
        requires polling { IsPolling world.old cx.now.task }
        requires free { self.old.work ≡ Work.Done }
        ensures kept { Kept G.stream world.old world.new }
        ensures steps { Polled (limits self.old limit world.old.told.state.clock.time cx.now.task) world.old world.new result self.new }
    {
        let polled = limit.poll(world, cx);
        put(&mut self.work, Work::Limits(limit));
        match polled {
            Poll::Pending => Answer::Pending,
            Poll::Ready(Ok(output)) => Answer::Ready(output),
            Poll::Ready(Err(error)) => Answer::Ready(Err(error)),
        }
    }

    /// Polls several handles, and keeps them.
    fn choose<G: Rng>(
        &mut self,
        world: &mut World<Chief, Result<u64, Error>, G>,
        cx: &Cx,
        mut choice: Select<Chief>,
    ) -> Answer<Result<u64, Error>>
        requires polling { IsPolling world.old cx.now.task }
        requires free { self.old.work ≡ Work.Done }
        ensures kept { Kept G.stream world.old world.new }
        ensures steps { Polled (chooses self.old choice) world.old world.new result self.new }
    {
        let chosen = choice.poll(world, cx);
        put(&mut self.work, Work::Chooses(choice));
        match chosen {
            Poll::Pending => Answer::Pending,
            Poll::Ready(Ok(output)) => Answer::Ready(output),
            Poll::Ready(Err(error)) => Answer::Ready(Err(error)),
        }
    }

    /// Polls its sleep, and keeps it.
    fn sleep<G: Rng>(
        &mut self,
        world: &mut World<Chief, Result<u64, Error>, G>,
        cx: &Cx,
        mut sleep: Sleep,
    ) -> Answer<Result<u64, Error>>
        requires polling { IsPolling world.old cx.now.task }
        requires free { self.old.work ≡ Work.Done }
        ensures kept { Kept G.stream world.old world.new }
        ensures steps { Polled (sleeps self.old sleep) world.old world.new result self.new }
    {
        let slept = sleep.poll(world, cx);
        put(&mut self.work, Work::Sleeps(sleep));
        match slept {
            Poll::Pending => Answer::Pending,
            Poll::Ready(Ok(())) => Answer::Ready(Ok(5)),
            Poll::Ready(Err(error)) => Answer::Ready(Err(error)),
        }
    }

    /// Waits for what this handle gives, as it means to.
    fn wait<G: Rng>(
        &mut self,
        world: &mut World<Chief, Result<u64, Error>, G>,
        cx: &Cx,
        plan: Plan,
        handle: Handle<Chief>,
    ) -> Answer<Result<u64, Error>>
        requires polling { IsPolling world.old cx.now.task }
        requires free { self.old.work ≡ Work.Done }
        ensures kept { Kept G.stream world.old world.new }
        ensures steps { Polled (waits self.old plan world.old.told.state.clock.time cx.now.task handle) world.old world.new result self.new }
    {
        match plan {
            Plan::Watches(duration) => {
                match self.context.sleep(world, duration) {
                    Ok(sleep) => self.watch(world, cx, handle, sleep),
                    Err(error) => {
                        handle.give_up(world);
                        Answer::Ready(Err(error))
                    }
                }
            }
            Plan::Limits(duration) | Plan::Holds(duration, _) => {
                let limit = self.context.timeout(duration, handle);
                self.limit(world, cx, limit)
            }
            Plan::Chooses(number) => {
                let mut handles = Vec::new(self.alloc);
                if handles.reserve(2).is_err() {
                    handles.destroy_empty();
                    let kept = self.context.timeout(0, handle);
                    put(&mut self.work, Work::Limits(kept));
                    return Answer::NoMemory;
                }
                handles.push_reserved(handle);
                handles.push_reserved(HandleOf::ready(Ok(Ok(number))));
                self.choose(world, cx, HandleOf::select(handles))
            }
        }
    }
}

#[tactic(auto, using(rt_core::proofs::Tasks::task_laws))]
impl Task for Chief {
    ghost use Rattle.rt_errand.specs.Chief.{chief_steps};

    ghost steps = { chief_steps };

    fn poll<G: Rng>(
        &mut self,
        world: &mut World<Self, Self::Output, G>,
        cx: &Cx,
    ) -> Answer<Self::Output> {
        match mem::replace(&mut self.work, Work::Done) {
            Work::Begins(Plan::Holds(duration, number)) => {
                let held = HandleOf::ready(Ok(Ok(number)));
                let limit = self.context.timeout(duration, held);
                self.limit(world, cx, limit)
            }
            Work::Begins(plan) => {
                let alloc = self.alloc;
                let make = |context| worker(context, alloc);
                match self.context.start(world, "worker", make) {
                    Ok(handle) => self.wait(world, cx, plan, handle),
                    Err(error) => Answer::Ready(Err(error)),
                }
            }
            Work::Watches(handle, sleep) => self.watch(world, cx, handle, sleep),
            Work::Limits(limit) => self.limit(world, cx, limit),
            Work::Chooses(choice) => self.choose(world, cx, choice),
            Work::Naps => match self.context.sleep(world, 3_000_000) {
                Ok(sleep) => self.sleep(world, cx, sleep),
                Err(error) => Answer::Ready(Err(error)),
            },
            Work::Sleeps(sleep) => self.sleep(world, cx, sleep),
            Work::Done => Answer::Pending,
        }
    }

    fn end<G: Rng>(self, world: &mut World<Self, Self::Output, G>) {
        let Chief {
            context,
            work,
            alloc: _,
        } = self;
        match work {
            Work::Watches(handle, sleep) => {
                handle.give_up(world);
                sleep.give_up(world);
                return context.close(world);
            }
            Work::Limits(limit) => limit.give_up(world),
            Work::Chooses(choice) => choice.give_up(world),
            Work::Sleeps(sleep) => sleep.give_up(world),
            Work::Begins(_) | Work::Naps | Work::Done => {}
        }
        context.close(world);
    }
}

/// Makes a chief that waits by this plan.
#[derive(Clone, Copy, Debug)]
pub struct RootChief {
    pub plan: Plan,
    pub alloc: Global,
}

#[tactic(auto, using(rt_core::proofs::Tasks::maker_laws))]
impl RootMaker<Chief> for RootChief {
    ghost use Rattle.rt_errand.specs.Chief.{chief_made};

    ghost first = { λ maker now. chief_made maker };

    fn make<G: Rng>(
        self,
        context: Context,
        _world: &mut World<Chief, Result<u64, Error>, G>,
    ) -> Result<Chief, NoMemory> {
        Ok(Chief {
            context,
            work: Work::Begins(self.plan),
            alloc: self.alloc,
        })
    }
}
