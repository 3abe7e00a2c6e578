//! What a handle of no task waits for.

ghost use Rattle.std.specs.Prelude.{◌≡◌, None};
ghost use Rattle.rt_core.specs.Completions.{held_answer};

use rand_core::Rng;
use rt_base::{Error, Poll};
use rt_world::{Cx, Outcome, Poller, World};

/// Where the value of a completion comes from.
#[derive(Debug)]
pub enum Source<O, P> {
    /// A result that is there, until a poll hands it out.
    Held(Option<Result<O, Error>>),
    /// A poller.
    Polled(P),
}

/// How far a completion is.
#[derive(Clone, Copy, Debug, PartialEq, Eq)]
pub enum Stage {
    /// It is waited for.
    Open,
    /// Its poller has given its value.
    Answered,
    /// It was aborted.
    Aborted,
}

/// A value that comes once, from somewhere else than a task. Once it was given or an abort came, it keeps that in
/// itself, and its poller is polled no more.
#[derive(Debug)]
pub struct Completion<O, P> {
    pub source: Source<O, P>,
    pub stage: Stage,
}

impl<O, P> Completion<O, P> {
    /// Where its value comes from.
    fn into_source(self) -> Source<O, P>
        ensures { result ≡ self.source }
    {
        let Completion { source, stage: _ } = self;
        source
    }
}

/// A poll gives its answer to the handle that holds it.
#[tactic(auto, using(rt_world::proofs::Walked::poller_laws))]
impl<T: Outcome, P: Poller<T, T::Output>> Poller<T, T::Output> for Completion<T::Output, P> {
    ghost use Rattle.rt_core.specs.Completions.{completion_polls, completion_spends};

    ghost polls = { λ c now task. completion_polls (λ state. P.polls state now task) c c.stage };

    ghost spends = { λ c. completion_spends P.spends c.source };

    fn poll<G: Rng>(
        &mut self,
        world: &mut World<T, T::Output, G>,
        cx: &Cx,
    ) -> Poll<Result<T::Output, Error>> {
        match self.stage {
            Stage::Aborted => return Poll::Ready(Err(Error::Aborted)),
            Stage::Answered => return Poll::Ready(Err(Error::Closed)),
            Stage::Open => {}
        }
        let state = match &mut self.source {
            Source::Held(held) => {
                let answer = take_held(held);
                return Poll::Ready(answer);
            }
            Source::Polled(state) => state,
        };
        match state.poll(world, cx) {
            Poll::Pending => Poll::Pending,
            Poll::Ready(answer) => {
                self.stage = Stage::Answered;
                Poll::Ready(answer)
            }
        }
    }

    fn give_up<G: Rng>(self, world: &mut World<T, T::Output, G>) {
        match self.into_source() {
            Source::Held(_held) => {}
            Source::Polled(state) => state.give_up(world),
        }
    }
}

/// Takes the result out that is held.
pub fn take_held<O>(held: &mut Option<Result<O, Error>>) -> Result<O, Error>
    ensures answer { result ≡ held_answer held.old }
    ensures gone { held.new ≡ None }
{
    match held.take() {
        Some(answer) => answer,
        None => Err(Error::Closed),
    }
}
