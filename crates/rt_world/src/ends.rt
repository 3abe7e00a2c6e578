//! The cleanup of a run.

ghost use Rattle.std.specs.Prelude.{◌≡◌, ◌≢◌, ◌<◌, true, false, Option, ℕ, List, Bool, None, Some, [], length, OnSome, IfNone, ◌||◌};
ghost use Rattle.rt_audit.specs.declared.finish.FinishCause.TheVariants.{NoMemory};
ghost use Rattle.rt_model.specs.State.{Making, Closing, Crashed, Finished};
ghost use Rattle.rt_model.specs.Causes.{reached};
ghost use Rattle.rt_model.specs.Effects.{cause_of};
ghost use Rattle.rt_model.specs.Rules.{MayClose, MayCrash, MayFinish};
ghost use Rattle.rt_model.specs.Tied.{Steps, First, with_first};
ghost use Rattle.rt_machine.specs.Steps.{IsCut};
ghost use Rattle.rt_machine.specs.Told.{pushed};
ghost use Rattle.rt_world.specs.World.{IsFront, Writes};
ghost use Rattle.rt_world.specs.Follows.{Agrees, AgreesWith, MakingAgrees, still};
ghost use Rattle.rt_world.specs.Ends.{Ends, EndsFor, IsClosing, IsFinal, Makes, Reaches, Seals, unless};

use crate::{Task, World};
use rand_core::Rng;
use rt_audit::{Entry, FinishCause};

impl<T, O, G> World<T, O, G> {
    /// Begins the cleanup of a run.
    #[tactic(auto, using(crate::proofs::Seats::closing_laws), unfolding(rt_model::specs::Effects::after))]
    fn close(&mut self)
        requires closes { MayClose self.old.told.state.phase }
        requires none_out { self.old.out ≡ None }
        ensures closing { IsClosing self.new }
        ensures phase { self.new.told.state.phase ≡ Closing (reached self.old.told.state) }
        ensures begin { self.new.told.begin ≡ self.old.told.begin }
        ensures given { self.new.told.given ≡ self.old.told.given }
        ensures front { IsFront self.old.told self.new.told }
        ensures drawn { self.new.told.state.drawn ≡ self.old.told.state.drawn }
        ensures clock { self.new.told.state.clock ≡ self.old.told.state.clock }
        ensures root { self.new.told.state.root ≡ self.old.told.state.root }
        ensures rng { self.new.rng ≡ self.old.rng }
        ensures agrees { (p : Steps T O) (whole : Bool) (output : Option O) → self.old.told.state.phase ≢ Making → Agrees p whole self.old output → Agrees p whole self.new output }
        ensures unmade { (p : Steps T O) (whole : Bool) (unmade : Option T) → self.old.told.state.phase ≡ Making → self.old.panic ≡ None → MakingAgrees p whole self.old unmade → AgreesWith p whole self.new None unmade }
    {
        self.machine.take_short();
        self.machine.cleanup();
    }

    /// The crash of the store.
    #[tactic(auto, using(crate::proofs::Coming::coming_laws), unfolding(rt_model::specs::Effects::after))]
    fn crash(&mut self)
        requires { MayCrash self.old.told.state.phase self.old.told.state.running }
        ensures { self.new ≡ record self.old { told = pushed self.old.told (Entry.Crash []) } }
    {
        self.machine.crash();
    }

    /// The cause, after the crash.
    #[tactic(auto, using(crate::proofs::Coming::coming_laws), unfolding(rt_model::specs::Effects::after))]
    fn finish(&mut self, cause: FinishCause)
        requires { MayFinish self.old.told.state.phase cause }
        ensures phase { self.new.told.state.phase ≡ Finished cause }
        ensures rest { self.new ≡ record self.old { told = pushed self.old.told (Entry.Finish cause) } }
        ensures agrees { (p : Steps T O) (whole : Bool) (output : Option O) → Agrees p whole self.old output → Agrees p whole self.new output }
    {
        self.machine.finish(cause);
    }

    /// The last entries: the crash, and the cause.
    #[tactic(auto, unfolding(rt_model::specs::Effects::after))]
    fn seal(&mut self, cause: FinishCause)
        requires closing { IsClosing self.old }
        requires running { self.old.told.state.running ≡ [] }
        requires finish { MayFinish (Crashed (cause_of self.old.told.state.phase)) cause }
        ensures phase { self.new.told.state.phase ≡ Finished cause }
        ensures rest { self.new ≡ record self.old { told = pushed (pushed self.old.told (Entry.Crash [])) (Entry.Finish cause) } }
        ensures agrees { (p : Steps T O) (whole : Bool) (output : Option O) → Agrees p whole self.old output → Agrees p whole self.new output }
    {
        self.crash();
        self.finish(cause);
    }
}

impl<T: Task, G: Rng> World<T, T::Output, G> {
    /// Ends the state of the next task, if one is left, and returns whether its end ran out of memory.
    #[tactic(auto, using(rt_machine::proofs::Counts::count_laws, crate::proofs::Seats::closing_laws, crate::proofs::Drawn::part_laws), unfolding(rt_model::specs::Effects::after))]
    fn end_task(&mut self) -> Option<bool>
        requires { IsClosing self.old }
        ensures ends { Ends self.old self.new }
        ensures writes { Writes G.stream self.old self.new }
        ensures fewer { OnSome result (length self.new.told.state.running < length self.old.told.state.running) }
        ensures none { IfNone result ((self.new.told.state.running ≡ []) × (self.new.held.tasks ≡ [])) }
        ensures agrees { (first : First T T.Output) (whole : Bool) (output : Option T.Output) (unmade : Option T) → AgreesWith (with_first T.steps first) whole self.old output unmade → AgreesWith (with_first T.steps first) (unless result whole) self.new output unmade }
    {
        let task = self.ends_next()?;
        let mut block = self.take_state(task);
        let Some(state) = block.pop() else {
            unreachable!();
        };
        block.destroy_empty();
        state.end(self);
        self.facts();
        let lacked = self.take_short();
        self.task_ended(task);
        if lacked {
            return Some(true);
        }
        Some(false)
    }

    /// Ends the states of all tasks, and returns whether an end ran out of memory.
    #[tactic(auto, using(crate::proofs::Drawn::part_laws))]
    fn end_all(&mut self) -> bool
        requires { IsClosing self.old }
        ensures ends { Ends self.old self.new }
        ensures writes { Writes G.stream self.old self.new }
        ensures none { (self.new.told.state.running ≡ []) × (self.new.held.tasks ≡ []) }
        ensures agrees { (first : First T T.Output) (whole : Bool) (output : Option T.Output) (unmade : Option T) → AgreesWith (with_first T.steps first) whole self.old output unmade → AgreesWith (with_first T.steps first) (still result whole) self.new output unmade }
    {
        let mut lacked = false;
        while let Some(one) = self.end_task() {
            lacked = lacked || one;
        }
        lacked
    }

    /// Ends a run whose root was taken in, for the cause that it has reached, or as one that ran out of memory, and
    /// returns the cause that the run's last entry has.
    #[tactic(auto, unfolding(rt_model::specs::Effects::after))]
    pub fn cleanup(&mut self, cause: FinishCause) -> FinishCause
        requires stands { Reaches self.old.told.state cause }
        requires made { IsCut self.old.told.state.phase }
        requires none_out { self.old.out ≡ None }
        ensures phase { self.new.told.state.phase ≡ Finished result }
        ensures seals { Seals G.stream self.old self.new }
        ensures cause { IsFinal cause result }
        ensures agrees { (first : First T T.Output) (whole : Bool) (output : Option T.Output) → Agrees (with_first T.steps first) whole self.old output → EndsFor (with_first T.steps first) self.new result output whole }
    {
        self.close();
        let lacked = self.end_all();
        if lacked {
            self.seal(FinishCause::NoMemory);
            return FinishCause::NoMemory;
        }
        self.seal(cause);
        cause
    }

    /// Ends the state of a root that was not taken in, writes the crash, and returns whether its end ran out of
    /// memory.
    #[tactic(auto, using(crate::proofs::Seats::closing_laws), unfolding(rt_model::specs::Effects::after))]
    fn crash_unmade(&mut self, unmade: T) -> bool
        requires closing { IsClosing self.old }
        requires running { self.old.told.state.running ≡ [] }
        requires root { self.old.told.state.root ≡ None }
        ensures phase { self.new.told.state.phase ≡ Crashed (cause_of self.old.told.state.phase) }
        ensures seals { Seals G.stream self.old self.new }
        ensures agrees { (first : First T T.Output) (whole : Bool) (output : Option T.Output) → AgreesWith (with_first T.steps first) whole self.old output (Some unmade) → Agrees (with_first T.steps first) (still result whole) self.new output }
    {
        unmade.end(self);
        self.facts();
        let lacked = self.take_short();
        self.crash();
        if lacked {
            return true;
        }
        false
    }

    /// Ends a run whose root was not taken in, for the cause that it has reached, or as one that ran out of memory,
    /// and returns the cause that the run's last entry has. The maker may have made a root.
    #[tactic(auto, unfolding(rt_model::specs::Effects::after))]
    pub fn cleanup_unmade(&mut self, unmade: Option<T>, cause: FinishCause) -> FinishCause
        requires stands { Reaches self.old.told.state cause }
        requires makes { Makes unmade cause }
        requires making { self.old.told.state.phase ≡ Making }
        requires root { self.old.told.state.root ≡ None }
        requires calm { self.old.panic ≡ None }
        requires none_out { self.old.out ≡ None }
        ensures phase { self.new.told.state.phase ≡ Finished result }
        ensures seals { Seals G.stream self.old self.new }
        ensures cause { IsFinal cause result }
        ensures agrees { (first : First T T.Output) (whole : Bool) → MakingAgrees (with_first T.steps first) whole self.old unmade → EndsFor (with_first T.steps first) self.new result None whole }
    {
        self.close();
        let lacked = self.end_all();
        let Some(root) = unmade else {
            self.seal(FinishCause::NoMemory);
            return FinishCause::NoMemory;
        };
        let lacked_too = self.crash_unmade(root);
        if lacked || lacked_too {
            self.finish(FinishCause::NoMemory);
            return FinishCause::NoMemory;
        }
        self.finish(cause);
        cause
    }
}
