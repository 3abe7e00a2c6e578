//! Pollers: parts of a task that are polled until they give a value.

use crate::{Cx, Outcome, World};
use rand_core::Rng;
use rt_base::{Error, Poll};

/// A part of a task that is polled until it gives a `V`. It is given up by `give_up`, after a ready answer too. One
/// that is `Drop` may also be dropped.
///
/// It is lawful as a task is: `polls` says what a poll does next, by the state, the time and the number of the task,
/// and `spends` what giving it up spends. Where a call runs out of memory the poll returns [`Error::NoMemory`].
pub trait Poller<T: Outcome, V>: Sized {
    ghost use Rattle.std.specs.Prelude.{◌≡◌, ℕ, List, [], true, false, Some, Result};
    ghost use Rattle.rt_base.specs.declared.error.Error.{Error};
    ghost use Rattle.rt_base.specs.declared.poll.Poll.{Poll};
    ghost use Rattle.rt_model.specs.Walk.{Step, Last};
    ghost use Rattle.rt_model.specs.Rules.{MayCall};
    ghost use Rattle.rt_world.specs.Calls.{IsPolling, Kept};
    ghost use Rattle.rt_world.specs.Walked.{Goes, Spends, SaysLack};

    // what a poll does next
    ghost polls: { Self → ℕ → ℕ → Step T Self T.Output (Poll (Result V Error)) };

    // what giving it up does
    ghost spends: { Self → Last T T.Output };

    /// Goes on with what is polled, and returns its value once that is there.
    fn poll<G: Rng>(
        &mut self,
        world: &mut World<T, T::Output, G>,
        cx: &Cx,
    ) -> Poll<Result<V, Error>>
        requires polling { IsPolling world.old cx.now.task }
        ensures kept { Kept G.stream world.old world.new }
        ensures steps { Goes (polls self.old world.old.told.state.clock.time cx.now.task) world.old world.new result self.new }
        ensures lack { SaysLack world.old world.new result };

    /// Gives up what is polled. It takes no memory.
    fn give_up<G: Rng>(self, world: &mut World<T, T::Output, G>)
        requires calling { MayCall world.old.told.state world.old.out }
        ensures kept { Kept G.stream world.old world.new }
        ensures lacked { world.new.lacked ≡ world.old.lacked }
        ensures steps { Spends (spends self) world.old world.new };
}
