//! Couriers.

ghost use Rattle.std.specs.Prelude.{◌≡◌};
ghost use Rattle.rt_core.specs.Tasks.{IsPolling, Kept, MayCall, Polled};
ghost use Rattle.rt_errand.specs.Courier.{answer_of};

use rt_core::{
    Answer, Context, Cx, Error, Handle, HandleOf, Nanos, NoMemory, Outcome, Poll, Poller,
    ResultSender, Rng, RootMaker, Sleep, Task, World,
};
use std::mem;

/// How long a courier is on its way.
const WAY: Nanos = 1_000_000;

/// What a courier does at the end of its way.
#[derive(Clone, Copy, Debug)]
pub enum Parcel {
    /// It sends this number.
    Number(u64),
    /// It sends the error `Timeout`.
    Failure,
    /// It gives its sender up.
    Nothing,
    /// It aborts its wait, and sends this number too late.
    Late(u64),
    /// It gives its handle up, sends this number to nobody, and gives it.
    Unwanted(u64),
}

/// How far a courier is.
pub(crate) enum Work {
    /// It is to make a slot.
    Begins(Parcel),
    /// It polls its handle and its sleep, and has the sender.
    Carries(Handle<Courier>, ResultSender, Sleep, Parcel),
    /// It polls its handle.
    Waits(Handle<Courier>),
    /// It is over.
    Done,
}

/// A task that holds both ends of a slot: at the end of its way it sends by the one, and gives what comes by the other.
/// Where that is an error, it polls for it once more, since an error stays.
pub struct Courier {
    pub(crate) context: Context,
    pub(crate) work: Work,
}

impl Outcome for Courier {
    type Output = Result<u64, Error>;
}

/// The world of couriers.
type Couriers<G> = World<Courier, Result<u64, Error>, G>;

/// Puts what is to be done into a place that it was taken out of.
fn put(place: &mut Work, work: Work)
    requires { place.old ≡ Work.Done }
    ensures { place.new ≡ work }
{
    match mem::replace(place, work) {
        Work::Done => {}
        Work::Begins(_) => unreachable!(),
        Work::Carries(_handle, _sender, _sleep, _parcel) => unreachable!(),
        Work::Waits(_handle) => unreachable!(),
    }
}

/// The answer of a task that polled for its output.
fn answered(polled: Poll<Result<Result<u64, Error>, Error>>) -> Answer<Result<u64, Error>>
    ensures { result ≡ answer_of polled }
{
    match polled {
        Poll::Pending => Answer::Pending,
        Poll::Ready(Ok(output)) => Answer::Ready(output),
        Poll::Ready(Err(error)) => Answer::Ready(Err(error)),
    }
}

#[tactic(auto, using(rt_core::proofs::Tasks::task_laws))]
impl Courier {
    ghost use Rattle.rt_errand.specs.Courier.{asks_again, begins, carries, delivers, looks_out, receives};

    /// Makes its slot, and sets out.
    fn begin<G: Rng>(
        &mut self,
        world: &mut Couriers<G>,
        cx: &Cx,
        sleep: Sleep,
        parcel: Parcel,
    ) -> Answer<Result<u64, Error>>
        requires polling { IsPolling world.old cx.now.task }
        requires free { self.old.work ≡ Work.Done }
        ensures kept { Kept G.stream world.old world.new }
        ensures steps { Polled (begins self.old sleep parcel) world.old world.new result self.new }
    {
        match world.result_slot() {
            Ok((sender, receiver)) => {
                let handle = HandleOf::from_receiver(receiver);
                self.carry(world, cx, handle, sender, sleep, parcel)
            }
            Err(_) => Answer::NoMemory,
        }
    }

    /// Polls its sleep, and delivers where that is over. Else it polls its handle, so that it is woken by what comes.
    fn carry<G: Rng>(
        &mut self,
        world: &mut Couriers<G>,
        cx: &Cx,
        handle: Handle<Courier>,
        sender: ResultSender,
        mut sleep: Sleep,
        parcel: Parcel,
    ) -> Answer<Result<u64, Error>>
        requires polling { IsPolling world.old cx.now.task }
        requires free { self.old.work ≡ Work.Done }
        ensures kept { Kept G.stream world.old world.new }
        ensures steps { Polled (carries self.old handle sender sleep parcel) world.old world.new result self.new }
    {
        match sleep.poll(world, cx) {
            Poll::Ready(Ok(())) => self.deliver(world, handle, sender, parcel),
            Poll::Ready(Err(error)) => {
                put(&mut self.work, Work::Carries(handle, sender, sleep, parcel));
                Answer::Ready(Err(error))
            }
            Poll::Pending => self.look_out(world, cx, handle, sender, sleep, parcel),
        }
    }

    /// Polls its handle on its way, and keeps all.
    fn look_out<G: Rng>(
        &mut self,
        world: &mut Couriers<G>,
        cx: &Cx,
        mut handle: Handle<Courier>,
        sender: ResultSender,
        sleep: Sleep,
        parcel: Parcel,
    ) -> Answer<Result<u64, Error>>
        requires polling { IsPolling world.old cx.now.task }
        requires free { self.old.work ≡ Work.Done }
        ensures kept { Kept G.stream world.old world.new }
        ensures steps { Polled (looks_out self.old handle sender sleep parcel) world.old world.new result self.new }
    {
        let polled = handle.poll(world, cx);
        put(&mut self.work, Work::Carries(handle, sender, sleep, parcel));
        answered(polled)
    }

    /// Spends its sender as it is to, and waits for what comes.
    fn deliver<G: Rng>(
        &mut self,
        world: &mut Couriers<G>,
        mut handle: Handle<Courier>,
        sender: ResultSender,
        parcel: Parcel,
    ) -> Answer<Result<u64, Error>>
        requires calling { MayCall world.old.told.state world.old.out }
        requires free { self.old.work ≡ Work.Done }
        ensures kept { Kept G.stream world.old world.new }
        ensures steps { Polled (delivers self.old handle sender parcel) world.old world.new result self.new }
    {
        match parcel {
            Parcel::Number(number) => {
                sender.send(world, Ok(Ok(number)));
                put(&mut self.work, Work::Waits(handle));
                Answer::Pending
            }
            Parcel::Failure => {
                sender.send(world, Err(Error::Timeout));
                put(&mut self.work, Work::Waits(handle));
                Answer::Pending
            }
            Parcel::Nothing => {
                sender.give_up(world);
                put(&mut self.work, Work::Waits(handle));
                Answer::Pending
            }
            Parcel::Late(number) => {
                handle.abort(world);
                sender.send(world, Ok(Ok(number)));
                put(&mut self.work, Work::Waits(handle));
                Answer::Pending
            }
            Parcel::Unwanted(number) => {
                handle.give_up(world);
                sender.send(world, Ok(Ok(number)));
                Answer::Ready(Ok(number))
            }
        }
    }

    /// Polls its handle, and once more where that is an error.
    fn receive<G: Rng>(
        &mut self,
        world: &mut Couriers<G>,
        cx: &Cx,
        mut handle: Handle<Courier>,
    ) -> Answer<Result<u64, Error>>
        requires polling { IsPolling world.old cx.now.task }
        requires free { self.old.work ≡ Work.Done }
        ensures kept { Kept G.stream world.old world.new }
        ensures steps { Polled (receives self.old handle) world.old world.new result self.new }
    {
        match handle.poll(world, cx) {
            Poll::Ready(Err(_)) => self.ask_again(world, cx, handle),
            Poll::Pending => {
                put(&mut self.work, Work::Waits(handle));
                Answer::Pending
            }
            Poll::Ready(Ok(output)) => {
                put(&mut self.work, Work::Waits(handle));
                Answer::Ready(output)
            }
        }
    }

    /// Polls its handle, and keeps it.
    fn ask_again<G: Rng>(
        &mut self,
        world: &mut Couriers<G>,
        cx: &Cx,
        mut handle: Handle<Courier>,
    ) -> Answer<Result<u64, Error>>
        requires polling { IsPolling world.old cx.now.task }
        requires free { self.old.work ≡ Work.Done }
        ensures kept { Kept G.stream world.old world.new }
        ensures steps { Polled (asks_again self.old handle) world.old world.new result self.new }
    {
        let polled = handle.poll(world, cx);
        put(&mut self.work, Work::Waits(handle));
        answered(polled)
    }
}

#[tactic(auto, using(rt_core::proofs::Tasks::task_laws))]
impl Task for Courier {
    ghost use Rattle.rt_errand.specs.Courier.{courier_steps};

    ghost steps = { courier_steps };

    fn poll<G: Rng>(
        &mut self,
        world: &mut World<Self, Self::Output, G>,
        cx: &Cx,
    ) -> Answer<Self::Output> {
        match mem::replace(&mut self.work, Work::Done) {
            Work::Begins(parcel) => match self.context.sleep(world, WAY) {
                Ok(sleep) => self.begin(world, cx, sleep, parcel),
                Err(error) => Answer::Ready(Err(error)),
            },
            Work::Carries(handle, sender, sleep, parcel) => {
                self.carry(world, cx, handle, sender, sleep, parcel)
            }
            Work::Waits(handle) => self.receive(world, cx, handle),
            Work::Done => Answer::Pending,
        }
    }

    fn end<G: Rng>(self, world: &mut World<Self, Self::Output, G>) {
        let Courier { context, work } = self;
        match work {
            Work::Carries(handle, sender, _sleep, _parcel) => {
                handle.give_up(world);
                sender.give_up(world);
                context.close(world);
            }
            Work::Waits(handle) => {
                handle.give_up(world);
                context.close(world);
            }
            Work::Begins(_) | Work::Done => context.close(world),
        }
    }
}

/// Makes a courier with this parcel. It makes no call.
#[derive(Clone, Copy, Debug)]
pub struct RootCourier {
    pub parcel: Parcel,
}

#[tactic(auto, using(rt_core::proofs::Tasks::maker_laws))]
impl RootMaker<Courier> for RootCourier {
    ghost use Rattle.rt_errand.specs.Courier.{courier_made};

    ghost first = { λ maker now. courier_made maker.parcel };

    fn make<G: Rng>(
        self,
        context: Context,
        _world: &mut World<Courier, Result<u64, Error>, G>,
    ) -> Result<Courier, NoMemory> {
        Ok(Courier {
            context,
            work: Work::Begins(self.parcel),
        })
    }
}
