//! The line of a script that draws.

ghost use Rattle.std.specs.Prelude.{◌≡◌, ◌+◌, ◌<◌, length, IfNone};
ghost use Rattle.rt_model.specs.Rules.{MayCall};
ghost use Rattle.rt_world.specs.Calls.{Kept};
ghost use Rattle.rt_world.specs.Walked.{Advanced};
ghost use Rattle.rt_scripts.specs.Script.{Next, Script, draws};

use crate::Script;
use rt_core::{Answer, Rng, World};

/// What is drawn is divided by this, and a script keeps the remainder, since its numbers have a sign.
const HALF: u64 = 1 << 63;

#[tactic(auto, using(rt_world::proofs::Walked::task_laws))]
impl Script {
    /// Draws a number. `None`: continue with the next line.
    #[tactic(auto, using(rt_world::proofs::Walked::task_laws), unfolding(crate::specs::Script::draws))]
    pub(crate) fn draw<G: Rng>(&mut self, world: &mut World<Script, i64, G>) -> Option<Answer<i64>>
        requires room { self.old.place < length self.old.text.lines }
        requires calling { MayCall world.old.told.state world.old.out }
        ensures kept { Kept G.stream world.old world.new }
        ensures place { IfNone result (self.new.place ≡ self.old.place + 1) }
        ensures text { self.new.text ≡ self.old.text }
        ensures steps { (on : Script → Next) → Advanced (draws self.old on) (on self.new) world.old world.new result self.new }
    {
        match self.context.next_u64(world) {
            Ok(number) => {
                self.pass((number % HALF) as i64);
                None
            }
            Err(error) => self.refuse(error),
        }
    }
}
