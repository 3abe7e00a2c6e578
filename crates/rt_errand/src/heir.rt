//! Heirs.

ghost use Rattle.std.specs.Prelude.{◌≡◌};
ghost use Rattle.rt_core.specs.Tasks.{IsPolling, Kept, Polled};
ghost use Rattle.rt_errand.specs.Heir.{ready};

use rt_core::{
    Answer, Context, Cx, Error, Handle, NoMemory, Outcome, Poll, Poller, Refused, Rng, RootMaker,
    Task, World,
};
use std::mem;

/// What an heir does.
pub(crate) enum Stage {
    /// It is to spawn an heir that is ready, and keeps a context below that one's.
    Starts,
    /// It waits for that one, and keeps the context.
    Waits(Handle<Heir>, Context),
    /// It is ready, and gives 1.
    Ready,
    /// It is over.
    Over,
}

/// A task that spawns another and waits for it, and then tries to spawn a third below the node of that one. The node has
/// ended by then, so the handle is closed.
pub struct Heir {
    pub(crate) context: Context,
    pub(crate) stage: Stage,
}

impl Outcome for Heir {
    type Output = Result<u64, Error>;
}

/// The world of heirs.
type Heirs<G> = World<Heir, Result<u64, Error>, G>;

/// Puts a stage into a place that another was taken out of.
fn put(place: &mut Stage, stage: Stage)
    requires { place.old ≡ Stage.Over }
    ensures { place.new ≡ stage }
{
    match mem::replace(place, stage) {
        Stage::Over => {}
        Stage::Starts => unreachable!(),
        Stage::Waits(_handle, _context) => unreachable!(),
        Stage::Ready => unreachable!(),
    }
}

/// One that is ready.
fn ready(context: Context) -> Heir
    ensures { result ≡ ready context }
{
    Heir {
        context,
        stage: Stage::Ready,
    }
}

#[tactic(auto, using(rt_core::proofs::Tasks::task_laws))]
impl Heir {
    ghost use Rattle.std.specs.Prelude.{Ok};
    ghost use Rattle.rt_errand.specs.Heir.{begun, inherits, joins, kept, tries, waits};

    /// Makes a context below this one.
    fn keep<G: Rng>(
        &mut self,
        world: &mut Heirs<G>,
        cx: &Cx,
        own: Context,
    ) -> Answer<Result<u64, Error>>
        requires polling { IsPolling world.old cx.now.task }
        requires free { self.old.stage ≡ Stage.Over }
        ensures kept { Kept G.stream world.old world.new }
        ensures steps { Polled (begun self.old (Ok own)) world.old world.new result self.new }
    {
        match own.child(world, "below") {
            Ok(below) => self.start(world, cx, own, below),
            Err(error) => {
                own.close(world);
                Answer::Ready(Err(error))
            }
        }
    }

    /// Spawns an heir on the first context, and polls its handle.
    fn start<G: Rng>(
        &mut self,
        world: &mut Heirs<G>,
        cx: &Cx,
        own: Context,
        below: Context,
    ) -> Answer<Result<u64, Error>>
        requires polling { IsPolling world.old cx.now.task }
        requires free { self.old.stage ≡ Stage.Over }
        ensures kept { Kept G.stream world.old world.new }
        ensures steps { Polled (kept self.old own (Ok below)) world.old world.new result self.new }
    {
        match own.spawn(world, |context| ready(context)) {
            Ok(handle) => self.wait(world, cx, handle, below),
            Err(refused) => {
                let Refused { back, error } = refused;
                back.close(world);
                below.close(world);
                Answer::Ready(Err(error))
            }
        }
    }

    /// Polls its handle, and keeps it with the context; or goes on by that.
    fn wait<G: Rng>(
        &mut self,
        world: &mut Heirs<G>,
        cx: &Cx,
        mut handle: Handle<Heir>,
        below: Context,
    ) -> Answer<Result<u64, Error>>
        requires polling { IsPolling world.old cx.now.task }
        requires free { self.old.stage ≡ Stage.Over }
        ensures kept { Kept G.stream world.old world.new }
        ensures steps { Polled (waits self.old handle below) world.old world.new result self.new }
    {
        let Poll::Ready(_) = handle.poll(world, cx) else {
            put(&mut self.stage, Stage::Waits(handle, below));
            return Answer::Pending;
        };
        self.inherit(world, cx, handle, below)
    }

    /// Gives its handle up, and goes on by the context.
    fn inherit<G: Rng>(
        &mut self,
        world: &mut Heirs<G>,
        cx: &Cx,
        handle: Handle<Heir>,
        below: Context,
    ) -> Answer<Result<u64, Error>>
        requires { IsPolling world.old cx.now.task }
        ensures kept { Kept G.stream world.old world.new }
        ensures steps { Polled (inherits self.old handle below) world.old world.new result self.new }
    {
        handle.give_up(world);
        self.try_late(world, cx, below)
    }

    /// Spawns on a context below a node that has ended.
    fn try_late<G: Rng>(
        &mut self,
        world: &mut Heirs<G>,
        cx: &Cx,
        below: Context,
    ) -> Answer<Result<u64, Error>>
        requires { IsPolling world.old cx.now.task }
        ensures kept { Kept G.stream world.old world.new }
        ensures steps { Polled (tries self.old below) world.old world.new result self.new }
    {
        match below.spawn(world, |context| ready(context)) {
            Ok(late) => self.join_late(world, cx, late),
            Err(refused) => {
                let Refused { back, error } = refused;
                back.close(world);
                Answer::Ready(Err(error))
            }
        }
    }

    /// Polls a handle once, and gives it up.
    fn join_late<G: Rng>(
        &mut self,
        world: &mut Heirs<G>,
        cx: &Cx,
        mut late: Handle<Heir>,
    ) -> Answer<Result<u64, Error>>
        requires { IsPolling world.old cx.now.task }
        ensures kept { Kept G.stream world.old world.new }
        ensures steps { Polled (joins self.old late) world.old world.new result self.new }
    {
        let joined = late.poll(world, cx);
        late.give_up(world);
        match joined {
            Poll::Pending => Answer::Pending,
            Poll::Ready(Ok(output)) => Answer::Ready(output),
            Poll::Ready(Err(error)) => Answer::Ready(Err(error)),
        }
    }
}

#[tactic(auto, using(rt_core::proofs::Tasks::task_laws))]
impl Task for Heir {
    ghost use Rattle.rt_errand.specs.Heir.{heir_steps};

    ghost steps = { heir_steps };

    fn poll<G: Rng>(
        &mut self,
        world: &mut World<Self, Self::Output, G>,
        cx: &Cx,
    ) -> Answer<Self::Output> {
        match mem::replace(&mut self.stage, Stage::Over) {
            Stage::Starts => match self.context.child(world, "own") {
                Ok(own) => self.keep(world, cx, own),
                Err(error) => Answer::Ready(Err(error)),
            },
            Stage::Waits(handle, below) => self.wait(world, cx, handle, below),
            Stage::Ready => Answer::Ready(Ok(1)),
            Stage::Over => Answer::Pending,
        }
    }

    fn end<G: Rng>(self, world: &mut World<Self, Self::Output, G>) {
        let Heir { context, stage } = self;
        match stage {
            Stage::Waits(handle, below) => {
                handle.give_up(world);
                below.close(world);
            }
            Stage::Starts | Stage::Ready | Stage::Over => {}
        }
        context.close(world);
    }
}

/// Makes the first heir. It makes no call.
#[derive(Clone, Copy, Debug)]
pub struct RootHeir;

#[tactic(auto, using(rt_core::proofs::Tasks::maker_laws))]
impl RootMaker<Heir> for RootHeir {
    ghost use Rattle.rt_errand.specs.Heir.{heir_made};

    ghost first = { λ maker now. heir_made };

    fn make<G: Rng>(
        self,
        context: Context,
        _world: &mut World<Heir, Result<u64, Error>, G>,
    ) -> Result<Heir, NoMemory> {
        Ok(Heir {
            context,
            stage: Stage::Starts,
        })
    }
}
