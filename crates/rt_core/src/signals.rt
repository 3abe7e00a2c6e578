//! Signals: a value that is shown to all who hold a signal of its group.

ghost use Rattle.std.specs.Prelude.{ℕ, ◌≡◌, IfOk, IfErr};
ghost use Rattle.rt_audit.specs.declared.call.Call.TheVariants.{Signaler as SignalerCall, Signal as SignalCall, SignalerClose};
ghost use Rattle.rt_audit.specs.declared.reply.CallReply.TheVariants.{SignalAt};
ghost use Rattle.rt_model.specs.Rules.{MayCall};
ghost use Rattle.rt_model.specs.Turns.{Plainly};
ghost use Rattle.rt_world.specs.Calls.{Kept, Made, lacking};
ghost use Rattle.rt_world.specs.Walked.{Closes, Goes};
ghost use Rattle.rt_core.specs.Signals.{IsCloned, clones, makes_group, polled};
ghost use Rattle.rt_core.specs.declared.signals.SignalKind.TheVariants.{Open};

use rand_core::Rng;
use rt_base::{Error, NoMemory, Poll};
use rt_world::{Cx, Outcome, Poller, World};
use std::marker::Model;

/// The signaler of a group, which gives its value once. It is a token: it must be spent by [`signal`](Self::signal) or
/// [`give_up`](Self::give_up).
///
/// Contracts see its number.
#[derive(Debug)]
pub struct Signaler {
    number: u64,
}

impl Model for Signaler {
    ghost use Rattle.std.specs.Prelude.{ℕ};

    ghost Value = { ℕ };

    ghost view = { λ s. s.number };
}

/// How a signal is kept: by its number, or, without one, by the value with which the shutdown began before it was made.
#[derive(Clone, Copy, Debug)]
pub enum SignalKind {
    Open(u64),
    Resolved(i32),
}

/// A signal of a group: a poller of its value, which each poll shows from when it came. A poll is refused with
/// `Closed` where the signaler was given up without a value. It is a token: it must be spent by
/// [`give_up`](Poller::give_up).
///
/// Contracts see how it is kept.
#[derive(Debug)]
pub struct Signal {
    kind: SignalKind,
}

impl Model for Signal {
    ghost use Rattle.rt_core.specs.declared.signals.SignalKind.{SignalKind};

    ghost Value = { SignalKind };

    ghost view = { λ s. s.kind };
}

/// The completion of a group whose value was given: a poller that is ready once each signal of the group was given up. It is
/// a token: it must be spent by [`give_up`](Poller::give_up).
///
/// Contracts see its number.
#[derive(Debug)]
pub struct CompletionWait {
    number: u64,
}

impl Model for CompletionWait {
    ghost use Rattle.std.specs.Prelude.{ℕ};

    ghost Value = { ℕ };

    ghost view = { λ c. c.number };
}

impl Signaler {
    /// Makes a group of signals, and returns its signaler and its first signal. Its only error is `NoMemory`.
    #[tactic(auto, using(rt_world::proofs::Signaled::signal_tell_laws), unfolding(crate::specs::Signals::makes_group))]
    pub fn new<T, O, G: Rng>(world: &mut World<T, O, G>) -> Result<(Signaler, Signal), Error>
        requires { MayCall world.old.told.state world.old.out }
        ensures kept { Kept G.stream world.old world.new }
        ensures pair { IfOk result (λ made. made.1 ≡ Open made.0) }
        ensures ok { IfOk result (λ made. Made world.old world.new (Plainly SignalerCall) (SignalAt made.0)) }
        ensures err { IfErr result (λ e. (e ≡ Error.NoMemory) × (world.new ≡ lacking world.old)) }
        ensures steps { Goes makes_group world.old world.new result tt }
    {
        match world.signaler() {
            Ok(number) => Ok((Signaler { number }, Signal::open(number))),
            Err(NoMemory) => Err(Error::NoMemory),
        }
    }

    /// Gives the value, which each signal of the group shows from then on, and returns the group's completion. It
    /// takes no memory.
    #[tactic(auto, using(rt_world::proofs::Walked::close_laws))]
    pub fn signal<T, O, G: Rng>(self, world: &mut World<T, O, G>, value: i32) -> CompletionWait
        requires { MayCall world.old.told.state world.old.out }
        ensures completion { result ≡ self }
        ensures kept { Kept G.stream world.old world.new }
        ensures lacked { world.new.lacked ≡ world.old.lacked }
        ensures steps { Closes (Plainly (SignalCall self value)) world.old world.new }
    {
        let Signaler { number } = self;
        world.signal(number, value);
        CompletionWait { number }
    }

    /// Gives the signaler up without a value: its signals return `Closed` from then on. It takes no memory.
    #[tactic(auto, using(rt_world::proofs::Walked::close_laws))]
    pub fn give_up<T, O, G: Rng>(self, world: &mut World<T, O, G>)
        requires { MayCall world.old.told.state world.old.out }
        ensures kept { Kept G.stream world.old world.new }
        ensures lacked { world.new.lacked ≡ world.old.lacked }
        ensures steps { Closes (Plainly (SignalerClose self)) world.old world.new }
    {
        let Signaler { number } = self;
        world.close_signaler(number);
    }
}

impl Signal {
    /// An open signal.
    pub(crate) fn open(number: u64) -> Signal
        ensures { result ≡ Open number }
    {
        Signal {
            kind: SignalKind::Open(number),
        }
    }

    /// A signal of this kind.
    pub(crate) fn of(kind: SignalKind) -> Signal
        ensures { result ≡ kind }
    {
        Signal { kind }
    }

    /// How it is kept.
    fn into_kind(self) -> SignalKind
        ensures { result ≡ self }
    {
        let Signal { kind } = self;
        kind
    }

    /// Makes a further signal of the same group. It takes memory, except for a signal that holds its value.
    ///
    /// Errors: `UnknownToken` where the signal was given up, `NoMemory`.
    #[tactic(auto, using(rt_world::proofs::Signaled::signal_tell_laws, rt_world::proofs::Walked::poller_laws), unfolding(crate::specs::Signals::clones))]
    pub fn clone_signal<T, O, G: Rng>(&self, world: &mut World<T, O, G>) -> Result<Signal, Error>
        requires { MayCall world.old.told.state world.old.out }
        ensures kept { Kept G.stream world.old world.new }
        ensures cloned { IsCloned self.now world.old world.new result }
        ensures steps { Goes (clones self.now) world.old world.new result tt }
    {
        match self.kind {
            SignalKind::Open(signal) => match world.clone_signal(signal) {
                Ok(further) => Ok(Signal::open(further)),
                Err(error) => Err(error),
            },
            SignalKind::Resolved(_) => Ok(Signal::of(self.kind)),
        }
    }
}

#[tactic(auto, using(rt_world::proofs::Walked::poller_laws), unfolding(crate::specs::Signals::signal_polls, crate::specs::Signals::signal_spends))]
impl<T: Outcome> Poller<T, i32> for Signal {
    ghost use Rattle.rt_core.specs.Signals.{signal_polls, signal_spends};

    ghost polls = { λ s now task. signal_polls s };

    ghost spends = { signal_spends };

    fn poll<G: Rng>(
        &mut self,
        world: &mut World<T, T::Output, G>,
        _cx: &Cx,
    ) -> Poll<Result<i32, Error>> {
        let signal = match self.kind {
            SignalKind::Open(signal) => signal,
            SignalKind::Resolved(value) => return Poll::Ready(Ok(value)),
        };
        polled(world.poll_signal(signal))
    }

    fn give_up<G: Rng>(self, world: &mut World<T, T::Output, G>) {
        match self.into_kind() {
            SignalKind::Open(signal) => world.close_signal(signal),
            SignalKind::Resolved(_) => {}
        }
    }
}

impl CompletionWait {
    /// Returns the completion of this number.
    pub(crate) fn of(number: u64) -> CompletionWait
        ensures { result ≡ number }
    {
        CompletionWait { number }
    }

    /// Its number.
    fn into_number(self) -> u64
        ensures { result ≡ self }
    {
        let CompletionWait { number } = self;
        number
    }
}

#[tactic(auto, using(rt_world::proofs::Walked::poller_laws), unfolding(crate::specs::Signals::completion_polls, crate::specs::Signals::completion_spends))]
impl<T: Outcome> Poller<T, ()> for CompletionWait {
    ghost use Rattle.rt_core.specs.Signals.{completion_polls, completion_spends};

    ghost polls = { λ c now task. completion_polls c };

    ghost spends = { completion_spends };

    fn poll<G: Rng>(
        &mut self,
        world: &mut World<T, T::Output, G>,
        _cx: &Cx,
    ) -> Poll<Result<(), Error>> {
        polled(world.poll_completion(self.number))
    }

    fn give_up<G: Rng>(self, world: &mut World<T, T::Output, G>) {
        world.close_completion(self.into_number())
    }
}

/// Returns the answer of a poll, by what was heard of it.
fn polled<V>(told: Result<Poll<V>, Error>) -> Poll<Result<V, Error>>
    ensures { result ≡ polled told }
{
    match told {
        Ok(Poll::Pending) => Poll::Pending,
        Ok(Poll::Ready(value)) => Poll::Ready(Ok(value)),
        Err(error) => Poll::Ready(Err(error)),
    }
}
