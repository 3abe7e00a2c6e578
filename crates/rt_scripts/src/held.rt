//! What a name of a script holds.

ghost use Rattle.std.specs.Prelude.{◌≡◌};
ghost use Rattle.rt_model.specs.Rules.{MayCall};
ghost use Rattle.rt_world.specs.Calls.{Kept};
ghost use Rattle.rt_world.specs.Walked.{Spends};
ghost use Rattle.rt_scripts.specs.Script.{held_spends};

use crate::Script;
use rt_core::{Handle, Poller, Rng, Signal, World};

/// A token under a name of a script. It must be spent by [`give_up`](Self::give_up).
pub enum Held {
    /// The handle of a task.
    Handle(Handle<Script>),
    /// A signal of the run's shutdown.
    Signal(Signal),
}

#[tactic(auto, using(rt_world::proofs::Walked::close_laws))]
impl Held {
    /// Gives up what the name holds. It takes no memory.
    pub fn give_up<G: Rng>(self, world: &mut World<Script, i64, G>)
        requires { MayCall world.old.told.state world.old.out }
        ensures kept { Kept G.stream world.old world.new }
        ensures lacked { world.new.lacked ≡ world.old.lacked }
        ensures steps { Spends (held_spends self) world.old world.new }
    {
        match self {
            Held::Handle(handle) => handle.give_up(world),
            Held::Signal(signal) => signal.give_up(world),
        }
    }
}
