//! Clients.

ghost use Rattle.std.specs.Prelude.{◌≡◌};
ghost use Rattle.rt_core.specs.Tasks.{IsPolling, Kept, Polled};
ghost use Rattle.rt_core.specs.Contexts.{Context};
ghost use Rattle.rt_core.specs.declared.handle.Kind.{Kind};

use rt_core::{
    Answer, Context, Cx, Error, Handle, NoMemory, Outcome, Poll, Poller, Refused, ResultReceiver,
    ResultSender, Rng, RootMaker, Task, World,
};
use std::mem;

/// What a client or its worker does.
pub(crate) enum Work {
    /// It is to make a slot, and to spawn a worker that sends this number.
    Asks(u64),
    /// It waits for what comes by its slot.
    Waits(ResultReceiver),
    /// It has the sender of the client's slot, and is to send this number.
    Serves(ResultSender, u64),
    /// It is over.
    Done,
}

/// A task that makes a slot, hands the sender to a worker that it spawns, and gives what that sends; or that worker, which
/// gives the number, too.
pub struct Client {
    pub(crate) context: Context,
    pub(crate) work: Work,
}

impl Outcome for Client {
    type Output = Result<u64, Error>;
}

/// The world of clients.
type Clients<G> = World<Client, Result<u64, Error>, G>;

/// Puts what is to be done into a place that it was taken out of.
fn put(place: &mut Work, work: Work)
    requires { place.old ≡ Work.Done }
    ensures { place.new ≡ work }
{
    match mem::replace(place, work) {
        Work::Done => {}
        Work::Asks(_) => unreachable!(),
        Work::Waits(_receiver) => unreachable!(),
        Work::Serves(_sender, _) => unreachable!(),
    }
}

#[tactic(auto, using(rt_core::proofs::Tasks::task_laws))]
impl Client {
    ghost use Rattle.std.specs.Prelude.{Ok};
    ghost use Rattle.rt_errand.specs.Client.{asked, hires, settles, waits};

    /// Makes the slot, and then hires a worker on this context.
    fn ask<G: Rng>(
        &mut self,
        world: &mut Clients<G>,
        cx: &Cx,
        context: Context,
        number: u64,
    ) -> Answer<Result<u64, Error>>
        requires polling { IsPolling world.old cx.now.task }
        requires free { self.old.work ≡ Work.Done }
        ensures kept { Kept G.stream world.old world.new }
        ensures steps { Polled (asked self.old number (Ok context)) world.old world.new result self.new }
    {
        match world.result_slot() {
            Ok((sender, receiver)) => self.hire(world, cx, context, sender, receiver, number),
            Err(_error) => {
                context.close(world);
                Answer::NoMemory
            }
        }
    }

    /// Spawns a worker on this context, which gets the sender along, and waits for what comes.
    fn hire<G: Rng>(
        &mut self,
        world: &mut Clients<G>,
        cx: &Cx,
        context: Context,
        sender: ResultSender,
        receiver: ResultReceiver,
        number: u64,
    ) -> Answer<Result<u64, Error>>
        requires polling { IsPolling world.old cx.now.task }
        requires free { self.old.work ≡ Work.Done }
        ensures kept { Kept G.stream world.old world.new }
        ensures steps { Polled (hires self.old context sender receiver number) world.old world.new result self.new }
    {
        let spawned = context.spawn_with(
            world,
            sender,
            |sender, context| Client {
                context,
                work: Work::Serves(sender, number),
            },
        );
        match spawned {
            Ok((worker, back)) => match back {
                None => self.settle(world, cx, worker, receiver),
                Some(sender) => {
                    sender.give_up(world);
                    self.settle(world, cx, worker, receiver)
                }
            },
            Err(refused) => {
                let Refused {
                    back: (context, sender),
                    error,
                } = refused;
                context.close(world);
                sender.give_up(world);
                receiver.give_up(world);
                Answer::Ready(Err(error))
            }
        }
    }

    /// Gives its worker's handle up, and waits for what comes.
    fn settle<G: Rng>(
        &mut self,
        world: &mut Clients<G>,
        cx: &Cx,
        worker: Handle<Client>,
        receiver: ResultReceiver,
    ) -> Answer<Result<u64, Error>>
        requires polling { IsPolling world.old cx.now.task }
        requires free { self.old.work ≡ Work.Done }
        ensures kept { Kept G.stream world.old world.new }
        ensures steps { Polled (settles self.old worker receiver) world.old world.new result self.new }
    {
        worker.give_up(world);
        self.wait(world, cx, receiver)
    }

    /// Polls its receiver, and keeps it.
    fn wait<G: Rng>(
        &mut self,
        world: &mut Clients<G>,
        cx: &Cx,
        mut receiver: ResultReceiver,
    ) -> Answer<Result<u64, Error>>
        requires polling { IsPolling world.old cx.now.task }
        requires free { self.old.work ≡ Work.Done }
        ensures kept { Kept G.stream world.old world.new }
        ensures steps { Polled (waits self.old receiver) world.old world.new result self.new }
    {
        let came = receiver.poll(world, cx);
        put(&mut self.work, Work::Waits(receiver));
        match came {
            Poll::Pending => Answer::Pending,
            Poll::Ready(Ok(output)) => Answer::Ready(output),
            Poll::Ready(Err(error)) => Answer::Ready(Err(error)),
        }
    }
}

#[tactic(auto, using(rt_core::proofs::Tasks::task_laws))]
impl Task for Client {
    ghost use Rattle.rt_errand.specs.Client.{client_steps};

    ghost steps = { client_steps };

    fn poll<G: Rng>(
        &mut self,
        world: &mut World<Self, Self::Output, G>,
        cx: &Cx,
    ) -> Answer<Self::Output> {
        match mem::replace(&mut self.work, Work::Done) {
            Work::Asks(number) => match self.context.child(world, "worker") {
                Ok(context) => self.ask(world, cx, context, number),
                Err(error) => Answer::Ready(Err(error)),
            },
            Work::Waits(receiver) => self.wait(world, cx, receiver),
            Work::Serves(sender, number) => {
                sender.send(world, Ok(Ok(number)));
                Answer::Ready(Ok(number))
            }
            Work::Done => Answer::Pending,
        }
    }

    fn end<G: Rng>(self, world: &mut World<Self, Self::Output, G>) {
        let Client { context, work } = self;
        match work {
            Work::Waits(receiver) => receiver.give_up(world),
            Work::Serves(sender, _) => sender.give_up(world),
            Work::Asks(_) | Work::Done => {}
        }
        context.close(world);
    }
}

/// Makes a client, whose worker sends this number. It makes no call.
#[derive(Clone, Copy, Debug)]
pub struct RootClient {
    pub number: u64,
}

#[tactic(auto, using(rt_core::proofs::Tasks::maker_laws))]
impl RootMaker<Client> for RootClient {
    ghost use Rattle.rt_errand.specs.Client.{client_made};

    ghost first = { λ maker now. client_made maker.number };

    fn make<G: Rng>(
        self,
        context: Context,
        _world: &mut World<Client, Result<u64, Error>, G>,
    ) -> Result<Client, NoMemory> {
        Ok(Client {
            context,
            work: Work::Asks(self.number),
        })
    }
}
