//! Makers of the root task.

use crate::Context;
use rand_core::Rng;
use rt_base::NoMemory;
use rt_world::{Task, World};

/// A type whose values make the root of a run.
///
/// It is lawful as a task is: `first` says what it does next, by the time, and `make` makes exactly these calls and
/// then this root. The context that it is handed is on node 0, with an empty label. It must be `Drop` for `start`:
/// where there is no room for the run's first entry it is never called.
pub trait RootMaker<T: Task>: Sized {
    ghost use Rattle.std.specs.Prelude.{◌≡◌, [], None};
    ghost use Rattle.rt_model.specs.Tied.{First};
    ghost use Rattle.rt_model.specs.Rules.{MayCall};
    ghost use Rattle.rt_world.specs.Calls.{Kept};
    ghost use Rattle.rt_world.specs.Walked.{Rooted};
    ghost use Rattle.rt_core.specs.Contexts.{root_context};

    // what it does next
    ghost first: { Self → First T T.Output };

    /// Makes the root. It is refused only where it runs out of memory.
    fn make<G: Rng>(
        self,
        context: Context,
        world: &mut World<T, T::Output, G>,
    ) -> Result<T, NoMemory>
        requires root { context ≡ root_context }
        requires out { world.old.out ≡ None }
        requires calling { MayCall world.old.told.state world.old.out }
        requires fresh { world.old.told.state.turns ≡ [] }
        requires unmarked { world.old.lacked ≡ None }
        ensures kept { Kept G.stream world.old world.new }
        ensures steps { Rooted (first self world.old.told.state.clock.time) world.old world.new result };
}
