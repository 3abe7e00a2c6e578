//! Crews.

ghost use Rattle.std.specs.Prelude.{◌≡◌};
ghost use Rattle.rt_core.specs.Tasks.{IsPolling, Kept, Polled};
ghost use Rattle.rt_core.specs.Contexts.{Context};
ghost use Rattle.rt_core.specs.declared.handle.Kind.{Kind};
ghost use Rattle.rt_errand.specs.Crew.{worker};

use rt_core::{
    Answer, Context, Cx, Error, Handle, NoMemory, Outcome, Poll, Poller, Rng, RootMaker, Sleep,
    Task, World,
};
use std::mem;

/// What a member of a crew does.
pub(crate) enum Work {
    /// It is to spawn a worker of this number.
    Hires(u64),
    /// It waits for its worker.
    Joins(Handle<Crew>),
    /// It naps for a millisecond, and then gives its number.
    Naps(u64),
    /// It sleeps, and then gives its number.
    Sleeps(Sleep, u64),
    /// It is over.
    Done,
}

/// A task that spawns a worker, waits for it, and gives its number; or that worker.
pub struct Crew {
    pub(crate) context: Context,
    pub(crate) work: Work,
}

impl Outcome for Crew {
    type Output = Result<u64, Error>;
}

/// Puts what is to be done into a place that it was taken out of.
fn put(place: &mut Work, work: Work)
    requires { place.old ≡ Work.Done }
    ensures { place.new ≡ work }
{
    match mem::replace(place, work) {
        Work::Done => {}
        Work::Hires(_) => unreachable!(),
        Work::Joins(_handle) => unreachable!(),
        Work::Naps(_) => unreachable!(),
        Work::Sleeps(_, _) => unreachable!(),
    }
}

#[tactic(auto, using(rt_core::proofs::Tasks::task_laws))]
impl Crew {
    ghost use Rattle.std.specs.Prelude.{Result, ℕ};
    ghost use Rattle.rt_core.specs.Sleeper.{Sleeper};
    ghost use Rattle.rt_errand.specs.Crew.{Output, at, joins, sleeps};
    ghost use Rattle.rt_errand.specs.declared.crew.Crew.{Crew};

    /// Polls its handle, and keeps it.
    fn join<G: Rng>(
        &mut self,
        world: &mut World<Crew, Result<u64, Error>, G>,
        cx: &Cx,
        mut handle: Handle<Crew>,
    ) -> Answer<Result<u64, Error>>
        requires polling { IsPolling world.old cx.now.task }
        requires free { self.old.work ≡ Work.Done }
        ensures kept { Kept G.stream world.old world.new }
        ensures steps { Polled (joins self.old handle) world.old world.new result self.new }
    {
        let joined = handle.poll(world, cx);
        put(&mut self.work, Work::Joins(handle));
        match joined {
            Poll::Pending => Answer::Pending,
            Poll::Ready(Ok(output)) => Answer::Ready(output),
            Poll::Ready(Err(error)) => Answer::Ready(Err(error)),
        }
    }

    /// Polls its sleep, and keeps it.
    fn sleep<G: Rng>(
        &mut self,
        world: &mut World<Crew, Result<u64, Error>, G>,
        cx: &Cx,
        mut sleep: Sleep,
        number: u64,
    ) -> Answer<Result<u64, Error>>
        requires polling { IsPolling world.old cx.now.task }
        requires free { self.old.work ≡ Work.Done }
        ensures kept { Kept G.stream world.old world.new }
        ensures steps { Polled (sleeps self.old number sleep) world.old world.new result self.new }
    {
        let slept = sleep.poll(world, cx);
        put(&mut self.work, Work::Sleeps(sleep, number));
        match slept {
            Poll::Pending => Answer::Pending,
            Poll::Ready(Ok(())) => Answer::Ready(Ok(number)),
            Poll::Ready(Err(error)) => Answer::Ready(Err(error)),
        }
    }
}

#[tactic(auto, using(rt_core::proofs::Tasks::task_laws))]
impl Task for Crew {
    ghost use Rattle.rt_errand.specs.Crew.{crew_steps};

    ghost steps = { crew_steps };

    fn poll<G: Rng>(
        &mut self,
        world: &mut World<Self, Self::Output, G>,
        cx: &Cx,
    ) -> Answer<Self::Output> {
        match mem::replace(&mut self.work, Work::Done) {
            Work::Hires(number) => {
                let make = |context| worker(context, number);
                match self.context.start(world, "worker", make) {
                    Ok(handle) => self.join(world, cx, handle),
                    Err(error) => Answer::Ready(Err(error)),
                }
            }
            Work::Joins(handle) => self.join(world, cx, handle),
            Work::Naps(number) => match self.context.sleep(world, 1_000_000) {
                Ok(sleep) => self.sleep(world, cx, sleep, number),
                Err(error) => Answer::Ready(Err(error)),
            },
            Work::Sleeps(sleep, number) => self.sleep(world, cx, sleep, number),
            Work::Done => Answer::Pending,
        }
    }

    fn end<G: Rng>(self, world: &mut World<Self, Self::Output, G>) {
        let Crew { context, work } = self;
        match work {
            Work::Joins(handle) => handle.give_up(world),
            Work::Sleeps(sleep, _) => sleep.give_up(world),
            Work::Hires(_) | Work::Naps(_) | Work::Done => {}
        }
        context.close(world);
    }
}

/// Makes the first of a crew, whose worker has this number. It makes no call.
#[derive(Clone, Copy, Debug)]
pub struct RootCrew {
    pub number: u64,
}

#[tactic(auto, using(rt_core::proofs::Tasks::maker_laws))]
impl RootMaker<Crew> for RootCrew {
    ghost use Rattle.rt_errand.specs.Crew.{crew_made};

    ghost first = { λ maker now. crew_made maker.number };

    fn make<G: Rng>(
        self,
        context: Context,
        _world: &mut World<Crew, Result<u64, Error>, G>,
    ) -> Result<Crew, NoMemory> {
        Ok(Crew {
            context,
            work: Work::Hires(self.number),
        })
    }
}

/// Makes the first of a crew, and spawns a worker beside it that nobody waits for.
#[derive(Clone, Copy, Debug)]
pub struct RootPair {
    pub number: u64,
}

#[tactic(auto, using(rt_core::proofs::Tasks::maker_laws))]
impl RootMaker<Crew> for RootPair {
    ghost use Rattle.rt_errand.specs.Crew.{pair_made};

    ghost first = { λ maker now. pair_made maker };

    fn make<G: Rng>(
        self,
        context: Context,
        world: &mut World<Crew, Result<u64, Error>, G>,
    ) -> Result<Crew, NoMemory> {
        let number = self.number;
        match context.start(world, "worker", |context| worker(context, number)) {
            Ok(handle) => handle.give_up(world),
            Err(_error) => {}
        }
        Ok(first(context, number))
    }
}

/// A worker of this number, at its nap.
fn worker(context: Context, number: u64) -> Crew
    ensures { result ≡ worker number context }
{
    Crew {
        context,
        work: Work::Naps(number),
    }
}

/// Makes the first of a crew, whose worker has this number.
fn first(context: Context, number: u64) -> Crew
    ensures { result ≡ record { context = context; work = Work.Hires number } }
{
    Crew {
        context,
        work: Work::Hires(number),
    }
}
