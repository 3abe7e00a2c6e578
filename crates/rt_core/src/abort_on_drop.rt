//! Handles whose task is aborted where nobody waits for it.

ghost use Rattle.std.specs.Prelude.{◌≡◌};
ghost use Rattle.rt_model.specs.Rules.{MayCall};
ghost use Rattle.rt_model.specs.Walk.{followed_by};
ghost use Rattle.rt_world.specs.Calls.{Kept};
ghost use Rattle.rt_world.specs.Walked.{Spends};
ghost use Rattle.rt_core.specs.Handles.{aborted, guard_spends, handle_aborts, handle_spends};
ghost use Rattle.rt_core.specs.Select.{each};

use crate::NoPoller;
use crate::handle::HandleOf;
use rand_core::Rng;
use rt_world::{Outcome, Poller, World};

/// A guard over the handle of a task of this type, which aborts the task if nobody waits for it.
pub type AbortOnDrop<T, P = NoPoller> = AbortOnDropOf<<T as Outcome>::Output, P>;

/// A guard over the handle of a task with this output, which aborts the task if nobody waits for it. It is a token,
/// since nothing is dropped unseen here: it must be spent by [`join`](Self::join), by [`abort`](Self::abort), by
/// [`join_all`](Self::join_all), or by [`give_up`](Self::give_up), which aborts the task first.
pub struct AbortOnDropOf<O, P> {
    pub(crate) handle: HandleOf<O, P>,
}

impl<O, P> AbortOnDropOf<O, P> {
    /// Returns the handle, by which the task is waited for.
    pub fn join(self) -> HandleOf<O, P>
        ensures { result ≡ self.handle }
    {
        let AbortOnDropOf { handle } = self;
        handle
    }

    /// Aborts the task, and returns the handle, which is then polled to the task's end. It takes no memory.
    pub fn abort<T, G: Rng>(self, world: &mut World<T, O, G>) -> HandleOf<O, P>
    where
        O: Drop,
        requires { MayCall world.old.told.state world.old.out }
        ensures handle { result ≡ aborted self.handle }
        ensures kept { Kept G.stream world.old world.new }
        ensures lacked { world.new.lacked ≡ world.old.lacked }
        ensures steps { Spends (handle_aborts self.handle) world.old world.new }
    {
        let AbortOnDropOf { mut handle } = self;
        handle.abort(world);
        handle
    }

    /// Aborts the task, and gives its result up. It takes no memory.
    #[tactic(auto, using(rt_world::proofs::Walked::close_laws))]
    pub fn give_up<T: Outcome<Output = O>, G: Rng>(self, world: &mut World<T, O, G>)
    where
        O: Drop,
        P: Poller<T, O>,
        requires { MayCall world.old.told.state world.old.out }
        ensures kept { Kept G.stream world.old world.new }
        ensures lacked { world.new.lacked ≡ world.old.lacked }
        ensures steps { Spends (followed_by (handle_aborts self.handle) (handle_spends P.spends (aborted self.handle))) world.old world.new }
    {
        self.abort(world).give_up(world)
    }
    /// Gives all these guards up, in their order: each aborts its task, and then gives its result up. It takes no
    /// memory.
    #[tactic(auto, using(rt_world::proofs::Walked::loop_laws))]
    pub fn give_all_up<T: Outcome<Output = O>, G: Rng>(
        guards: Vec<AbortOnDropOf<O, P>>,
        world: &mut World<T, O, G>,
    )
    where
        O: Drop,
        P: Poller<T, O>,
        requires { MayCall world.old.told.state world.old.out }
        ensures kept { Kept G.stream world.old world.new }
        ensures lacked { world.new.lacked ≡ world.old.lacked }
        ensures steps { Spends (each (λ guard. guard_spends P.spends guard.handle) guards.items) world.old world.new }
    {
        let mut rest = guards.into_iter();
        while let Some(guard) = rest.next() {
            guard.give_up(world);
        }
        rest.destroy_empty();
    }
}
