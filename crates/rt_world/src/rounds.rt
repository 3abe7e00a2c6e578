//! The rounds of a run, and the clock steps between them.

ghost use Rattle.std.specs.Prelude.{◌≡◌, ◌≤◌, ◌<◌, ◌+◌, true, false, [], Option, ℕ, List, None, OnOk, OnErr};
ghost use Rattle.rt_model.specs.State.{Between, Visiting};
ghost use Rattle.rt_model.specs.Causes.{from_running, is_late};
ghost use Rattle.rt_model.specs.Effects.{left_of};
ghost use Rattle.rt_model.specs.Tied.{First, with_first, Steps};
ghost use Rattle.rt_model.specs.Rules.{MayRound};
ghost use Rattle.rt_machine.specs.Draws.{Drains};
ghost use Rattle.rt_machine.specs.Steps.{Turns, StepStands};
ghost use Rattle.rt_world.specs.Follows.{Agrees};
ghost use Rattle.rt_world.specs.Rounds.{Begins, Runs, StandsBetween, EndStands, EndAgrees};
ghost use Rattle.rt_world.specs.Visits.{RoundStands, AgreesAfter};

use crate::{Task, World};
use rand_core::Rng;
use rt_audit::FinishCause;
use rt_base::{MAX_TIME, NoMemory};

impl<T, O, G> World<T, O, G> {
    /// Moves time on by a cycle after a round, and then to where somebody is ready. It is refused with the cause that
    /// the run has reached, where it ends there. It draws nothing.
    #[tactic(auto, using(crate::proofs::Running::run_laws))]
    pub fn clock_step(&mut self) -> Result<(), FinishCause>
        requires phase { self.old.told.state.phase ≡ Visiting (left_of self.old.told.state.phase) }
        requires round { from_running self.old.told.state.running (left_of self.old.told.state.phase) ≡ [] }
        ensures turns { Turns self.old.told self.new.told }
        ensures drawn { self.new.told.state.drawn ≡ self.old.told.state.drawn }
        ensures later { OnOk result (self.old.told.state.clock.time + self.old.told.state.clock.fixed.cycle ≤ self.new.told.state.clock.time) }
        ensures within { OnOk result (self.old.told.state.clock.time + self.old.told.state.clock.fixed.cycle ≤ MAX_TIME) }
        ensures stands { StepStands self.new.told.state result }
        ensures rest { self.new ≡ record self.old { told = self.new.told } }
        ensures agrees { (p : Steps T O) → Agrees p true self.old None → Agrees p true self.new None }
    {
        self.machine.clock_step()
    }
}

#[tactic(auto, using(crate::proofs::Seats::seat_laws, crate::proofs::Coming::coming_laws), unfolding(rt_model::specs::Effects::after))]
impl<T, O, G: Rng> World<T, O, G> {
    /// Drains the ready list into a round, whose order the generator's next draws decide, and puts its numbers into `order`.
    fn drain(&mut self, order: &mut Vec<u64>) -> Result<(), NoMemory>
        requires { MayRound self.old.told.state.phase self.old.told.state }
        ensures ok { OnOk result (Drains (G.stream self.old.rng) (G.stream self.new.rng) self.old.told self.new.told order.new.items) }
        ensures rest { self.new ≡ record self.old { told = self.new.told; rng = self.new.rng } }
        ensures err { OnErr result (self.new ≡ self.old) }
    {
        self.machine.round(order, &mut self.rng)
    }
}

impl<T: Task, G: Rng> World<T, T::Output, G> {
    /// Does a round, and returns the root's output, once it has one: the ready list is drained, and its numbers are
    /// visited in the order of the round's entry, which the next draws of the generator decide, and which is put into
    /// `order`.
    #[tactic(auto, using(crate::proofs::Running::run_laws), unfolding(rt_model::specs::Effects::after))]
    pub fn round(&mut self, order: &mut Vec<u64>) -> Result<Option<T::Output>, FinishCause>
        requires between { StandsBetween self.old.told.state }
        requires early { is_late self.old.told.state.clock ≡ false }
        requires none_out { self.old.out ≡ None }
        requires unmarked { self.old.lacked ≡ None }
        ensures order { OnOk result (Begins G.stream self.old self.new order.new.items) }
        ensures runs { Runs G.stream self.old self.new }
        ensures clock { self.new.told.state.clock ≡ self.old.told.state.clock }
        ensures stands { RoundStands self.new.told.state result }
        ensures unmarked { OnOk result (self.new.lacked ≡ None) }
        ensures agrees { (first : First T T.Output) → Agrees (with_first T.steps first) true self.old None → AgreesAfter (with_first T.steps first) self.new result }
    {
        let Ok(()) = self.drain(order) else {
            return Err(FinishCause::NoMemory);
        };
        self.visit_all(order.as_slice())
    }

    /// Does rounds and clock steps by turns, until the run has reached a cause to end, and returns the root's output,
    /// or that cause.
    #[tactic(auto, using(crate::proofs::Running::run_laws))]
    pub fn run_rounds(&mut self) -> Result<T::Output, FinishCause>
        requires phase { self.old.told.state.phase ≡ Between }
        requires none_out { self.old.out ≡ None }
        requires unmarked { self.old.lacked ≡ None }
        requires cycle { 1 ≤ self.old.told.state.clock.fixed.cycle }
        ensures runs { Runs G.stream self.old self.new }
        ensures stands { EndStands self.new.told.state result }
        ensures agrees { (first : First T T.Output) → Agrees (with_first T.steps first) true self.old None → EndAgrees (with_first T.steps first) self.new result }
    {
        let mut order = Vec::new(self.allocator());
        loop {
            if self.is_late() {
                return Err(FinishCause::Timeout);
            }
            if let Some(output) = self.round(&mut order)? {
                return Ok(output);
            }
            self.clock_step()?;
        }
    }
}
