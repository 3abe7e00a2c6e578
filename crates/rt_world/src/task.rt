//! Tasks: what a type does whose values run in a world.

use crate::{Cx, Depth, Outcome, World};
use rand_core::Rng;
use rt_model::Answer;

/// A type whose values run as tasks.
///
/// It is lawful: `steps` says what a poll and an end do next, by the state, the time and the number, and `poll` and
/// `end` make exactly these calls, in this order, and give this answer. Where a call runs out of memory, those before
/// it are the first of these; what comes after it is free, since the run ends.
pub trait Task: Outcome + Sized {
    ghost use Rattle.std.specs.Prelude.{◌≡◌, ℕ, List, [], true, false, Some, None};
    ghost use Rattle.rt_model.specs.declared.answer.Answer.{Answer};
    ghost use Rattle.rt_model.specs.Tied.{TaskSteps};
    ghost use Rattle.rt_model.specs.Rules.{MayCall};
    ghost use Rattle.rt_machine.specs.Places.{number_of};
    ghost use Rattle.rt_world.specs.Calls.{IsPolling, Kept};
    ghost use Rattle.rt_world.specs.Walked.{Polled, Spent};

    // what polls and ends do next
    ghost steps: { TaskSteps Self Self.Output };

    /// Goes on with the task, and returns that it is pending, its output, the text of its panic, or that a call ran out of
    /// memory.
    fn poll<G: Rng>(
        &mut self,
        world: &mut World<Self, Self::Output, G>,
        cx: &Cx,
    ) -> Answer<Self::Output>
        requires polling { IsPolling world.old cx.now.task }
        requires fresh { world.old.told.state.turns ≡ [] }
        requires unmarked { world.old.lacked ≡ None }
        ensures kept { Kept G.stream world.old world.new }
        ensures steps { Polled (steps.next self.old world.old.told.state.clock.time cx.now.task) world.old world.new result self.new };

    /// Gives up what the task holds, after its last poll. It runs once for each task.
    fn end<G: Rng>(self, world: &mut World<Self, Self::Output, G>)
        requires calling { MayCall world.old.told.state world.old.out }
        requires fresh { world.old.told.state.turns ≡ [] }
        requires unmarked { world.old.lacked ≡ None }
        ensures kept { Kept G.stream world.old world.new }
        ensures steps { Spent (steps.last self world.old.told.state.clock.time (number_of world.old.out)) world.old world.new };

    /// Reads what the next poll reads, so that it is in a cache then. A round calls it for some tasks before it
    /// visits them, for all of them at one depth and then at the next. What it returns is of no account, but it must
    /// come of what was read, since a load for nothing is left out. By default it reads nothing; a body of its own
    /// pays where thousands of tasks run.
    fn touch(&self, _depth: Depth) -> usize {
        0
    }
}
