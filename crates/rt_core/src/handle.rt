//! Handles of spawned tasks and of completions.

ghost use Rattle.std.specs.Prelude.{◌≡◌, true};
ghost use Rattle.rt_audit.specs.declared.call.Call.TheVariants.{Abort, Slots};
ghost use Rattle.rt_audit.specs.declared.slot_call.SlotCall.TheVariants.{AbortWait};
ghost use Rattle.rt_model.specs.Rules.{MayCall};
ghost use Rattle.rt_world.specs.Calls.{Kept};
ghost use Rattle.rt_world.specs.Walked.{Spends};
ghost use Rattle.rt_core.specs.Handles.{handle_aborts, handle_spends, aborted, aborts, unless_aborted, task_handle, received_handle, held_handle, polled_handle};
ghost use Rattle.rt_core.specs.Select.{each};

use crate::AbortOnDropOf;
use crate::completion::{Completion, Source, Stage};
use rand_core::Rng;
use rt_base::{Error, Poll};
use rt_world::{Cx, Outcome, Poller, ResultReceiver, World, polled};
use std::marker::Model;

/// The poller of a handle that has none of its own. It has a field that nobody outside sees, so nothing makes one; it
/// would be closed.
#[derive(Debug, Drop)]
pub struct NoPoller(());

/// A task whose result is claimed: its number, and whether it was aborted by this handle.
#[derive(Debug, Drop)]
pub struct Claim {
    pub task: u64,
    pub aborted: bool,
}

/// The receiver of a slot, and whether the wait was aborted by this handle.
#[derive(Debug)]
pub struct Receipt {
    pub receiver: ResultReceiver,
    pub aborted: bool,
}

/// What a handle holds.
#[derive(Debug)]
pub enum Kind<O, P> {
    /// The result of a task.
    Task(Claim),
    /// What is sent into a slot.
    Received(Receipt),
    /// A value that comes from somewhere else.
    Completion(Completion<O, P>),
}

/// A handle of a task of this type, or of a completion with a task's output: a poller of that output.
pub type Handle<T, P = NoPoller> = HandleOf<<T as Outcome>::Output, P>;

/// A handle of a task with this output, or of a completion. It is a token: it must be spent by
/// [`give_up`](Poller::give_up).
///
/// A poll of a task's handle returns the output once, `Exited` where the task reported a panic, and `Closed` where it
/// ended without a result and where the output was handed out before. A poll of a receiver's handle returns what its
/// receiver's does, and `Aborted` once it was aborted. A poll of any other completion returns what it holds or what
/// its poller gives, once and `Closed` from then on, and `Aborted` once it was aborted, even where its result was
/// ready: its poller isn't polled then. A task that was spawned on a node that had ended has a completion that holds
/// `Closed`.
///
/// A task's handle keeps the task's number and whether it aborted the task, and nothing else: the output is in the
/// world until it is handed out or given up.
pub struct HandleOf<O, P> {
    kind: Kind<O, P>,
}

impl<O, P> Model for HandleOf<O, P> {
    ghost use Rattle.rt_core.specs.declared.handle.Kind.{Kind};

    ghost Value = { Kind O P };

    ghost view = { λ h. h.kind };
}

impl<O, P> HandleOf<O, P> {
    /// A handle of a task.
    pub(crate) fn of(task: u64) -> Self
        ensures { result ≡ task_handle task }
    {
        HandleOf {
            kind: Kind::Task(Claim {
                task,
                aborted: false,
            }),
        }
    }

    /// Makes a handle of what comes by a slot.
    pub fn from_receiver(receiver: ResultReceiver) -> Self
        ensures { result ≡ received_handle receiver }
    {
        HandleOf {
            kind: Kind::Received(Receipt {
                receiver,
                aborted: false,
            }),
        }
    }

    /// Makes a handle that holds its result.
    pub fn ready(answer: Result<O, Error>) -> Self
        ensures { result ≡ held_handle answer }
    {
        HandleOf {
            kind: Kind::Completion(Completion {
                source: Source::Held(Some(answer)),
                stage: Stage::Open,
            }),
        }
    }

    /// Makes a handle of what a poller gives.
    pub fn from_future(state: P) -> Self
        ensures { result ≡ polled_handle state }
    {
        HandleOf {
            kind: Kind::Completion(Completion {
                source: Source::Polled(state),
                stage: Stage::Open,
            }),
        }
    }

    /// Makes a guard over the handle, which aborts the task if nobody waits for it.
    pub fn abort_on_drop(self) -> AbortOnDropOf<O, P>
        ensures { result.handle ≡ self }
    {
        AbortOnDropOf { handle: self }
    }

    /// Aborts the task: it is flagged, and woken where it was left pending. A completion is no longer waited for.
    /// Later calls do nothing and write no entry. It takes no memory.
    #[tactic(auto, using(rt_world::proofs::Walked::close_laws))]
    pub fn abort<T, G: Rng>(&mut self, world: &mut World<T, O, G>)
    where
        O: Drop,
        requires { MayCall world.old.told.state world.old.out }
        ensures handle { self.new ≡ aborted self.old }
        ensures kept { Kept G.stream world.old world.new }
        ensures lacked { world.new.lacked ≡ world.old.lacked }
        ensures steps { Spends (handle_aborts self.old) world.old world.new }
    {
        let completion = match &mut self.kind {
            Kind::Task(claim) => return claim.abort(world),
            Kind::Received(receipt) => return receipt.abort(world),
            Kind::Completion(completion) => completion,
        };
        completion.stage = Stage::Aborted;
    }

    /// Gives all these handles up, in their order. It takes no memory.
    #[tactic(auto, using(rt_world::proofs::Walked::loop_laws))]
    pub fn give_all_up<T: Outcome<Output = O>, G: Rng>(
        handles: Vec<HandleOf<O, P>>,
        world: &mut World<T, O, G>,
    )
    where
        O: Drop,
        P: Poller<T, O>,
        requires { MayCall world.old.told.state world.old.out }
        ensures kept { Kept G.stream world.old world.new }
        ensures lacked { world.new.lacked ≡ world.old.lacked }
        ensures steps { Spends (each (handle_spends P.spends) handles.items) world.old world.new }
    {
        let mut rest = handles.into_iter();
        while let Some(handle) = rest.next() {
            handle.give_up(world);
        }
        rest.destroy_empty();
    }

    /// What it holds.
    fn into_kind(self) -> Kind<O, P>
        ensures { result ≡ self }
    {
        let HandleOf { kind } = self;
        kind
    }
}

#[tactic(auto, using(rt_world::proofs::Walked::close_laws))]
impl Claim {
    /// Flags the task, if it wasn't by this handle before.
    fn abort<T, O, G: Rng>(&mut self, world: &mut World<T, O, G>)
        requires { MayCall world.old.told.state world.old.out }
        ensures claim { self.new ≡ record self.old { aborted = true } }
        ensures kept { Kept G.stream world.old world.new }
        ensures lacked { world.new.lacked ≡ world.old.lacked }
        ensures steps { Spends (aborts (unless_aborted self.old.aborted (Abort self.old.task))) world.old world.new }
    {
        if self.aborted {
            return;
        }
        self.aborted = true;
        world.abort(self.task);
    }
}

#[tactic(auto, using(rt_world::proofs::Walked::close_laws))]
impl Receipt {
    /// Ends the wait, if it wasn't by this handle before.
    fn abort<T, O: Drop, G: Rng>(&mut self, world: &mut World<T, O, G>)
        requires { MayCall world.old.told.state world.old.out }
        ensures receipt { self.new ≡ record self.old { aborted = true } }
        ensures kept { Kept G.stream world.old world.new }
        ensures lacked { world.new.lacked ≡ world.old.lacked }
        ensures steps { Spends (aborts (unless_aborted self.old.aborted (Slots (AbortWait self.old.receiver)))) world.old world.new }
    {
        if self.aborted {
            return;
        }
        self.aborted = true;
        self.receiver.abort(world);
    }

    /// Its receiver.
    fn into_receiver(self) -> ResultReceiver
        ensures { result ≡ self.receiver }
    {
        let Receipt {
            receiver,
            aborted: _,
        } = self;
        receiver
    }
}

#[tactic(auto, using(rt_world::proofs::Walked::poller_laws), unfolding(crate::specs::Handles::handle_polls, crate::specs::Handles::handle_spends))]
impl<T: Outcome, P: Poller<T, T::Output>> Poller<T, T::Output> for HandleOf<T::Output, P> {
    ghost use Rattle.rt_core.specs.Handles.{handle_polls, handle_spends};

    ghost polls = { λ h now task. handle_polls (λ state. P.polls state now task) h };

    ghost spends = { λ h. handle_spends P.spends h };

    fn poll<G: Rng>(
        &mut self,
        world: &mut World<T, T::Output, G>,
        cx: &Cx,
    ) -> Poll<Result<T::Output, Error>> {
        let completion = match &mut self.kind {
            Kind::Task(claim) => {
                let task = claim.task;
                return polled(world.join(task));
            }
            Kind::Received(receipt) => return receipt.receiver.poll(world, cx),
            Kind::Completion(completion) => completion,
        };
        completion.poll(world, cx)
    }

    fn give_up<G: Rng>(self, world: &mut World<T, T::Output, G>) {
        match self.into_kind() {
            Kind::Task(claim) => world.give_up(claim.task),
            Kind::Received(receipt) => receipt.into_receiver().give_up(world),
            Kind::Completion(completion) => completion.give_up(world),
        }
    }
}

#[tactic(auto, using(rt_world::proofs::Walked::poller_laws))]
impl<T: Outcome, V> Poller<T, V> for NoPoller {
    ghost use Rattle.rt_core.specs.Handles.{no_polls, no_spends};

    ghost polls = { λ none now task. no_polls none };

    ghost spends = { no_spends };

    fn poll<G: Rng>(
        &mut self,
        _world: &mut World<T, T::Output, G>,
        _cx: &Cx,
    ) -> Poll<Result<V, Error>> {
        Poll::Ready(Err(Error::Closed))
    }

    fn give_up<G: Rng>(self, _world: &mut World<T, T::Output, G>) {}
}
