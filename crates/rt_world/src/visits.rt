//! The visits of a round.

ghost use Rattle.std.specs.Prelude.{◌≡◌, ◌≢◌, ◌∷◌, [], true, false, Option, ℕ, List, drop, None, Some, Ok, Err, OnOk, IfErr, is_some, length};
ghost use Rattle.rt_audit.specs.declared.finish.FinishCause.TheVariants.{NoMemory};
ghost use Rattle.rt_model.specs.Lists.{find, has_number, is_some_number};
ghost use Rattle.rt_model.specs.State.{Visiting, Entered, Polling, Ending, Halted};
ghost use Rattle.rt_model.specs.Causes.{from_running};
ghost use Rattle.rt_model.specs.Effects.{left_of};
ghost use Rattle.rt_model.specs.Rules.{MayAnswer};
ghost use Rattle.rt_model.specs.Tied.{First, with_first, with_result, kept_text};
ghost use Rattle.rt_machine.specs.Ends.{Calmly, open_in};
ghost use Rattle.rt_machine.specs.Steps.{IsCut};
ghost use Rattle.rt_machine.specs.Told.{pushed};
ghost use Rattle.rt_world.specs.Follows.{Agrees, AgreesAtLeast};
ghost use Rattle.rt_world.specs.Seats.{put_top};
ghost use Rattle.rt_world.specs.Visits.{StandsAfter, TurnoutStands, AgreesAfter, TurnoutAgrees, EndedAgrees, IsFresh, Passes, RoundStands};

use crate::{Cx, Depth, Task, World};
use rand_core::Rng;
use rt_audit::{AnswerKind, Entry, FinishCause};
use rt_base::Text;
use rt_model::{Answer, Outcome};

/// How many numbers of a round are read ahead at a time.
const AHEAD: usize = 16;

/// How deep their states are read, in turn.
const DEPTHS: &[Depth] = &[Depth::State, Depth::Behind, Depth::Further];

/// What comes of a poll.
#[derive(Drop)]
pub enum Turnout<O> {
    /// The visit is over, and the task goes on.
    Stays,
    /// The root gave its output.
    Gave(O),
    /// The task ends in this visit, with this result if it has finished.
    Ends(Option<Outcome>),
}

#[tactic(auto, using(crate::proofs::Seats::seat_laws, crate::proofs::Coming::coming_laws), unfolding(rt_model::specs::Effects::after))]
impl<T, O, G> World<T, O, G> {
    /// Stops the root, since a panic is kept.
    fn halt(&mut self, task: u64)
        requires halted { self.old.told.state.phase ≡ Halted task }
        requires none_out { self.old.out ≡ None }
        ensures { self.new ≡ record self.old { told = pushed self.old.told (Entry.Answer task AnswerKind.Stopped) } }
    {
        self.machine.answer(task, AnswerKind::Stopped);
    }

    /// Ends the poll of a root that has finished, and puts its state back.
    fn answer_root(&mut self, task: u64, block: Vec<T>)
        requires may { MayAnswer self.old.told.state task AnswerKind.Ready }
        requires root { is_some_number task self.old.told.state.root ≡ true }
        requires out { self.old.out ≡ Some task }
        requires one { length block.items ≡ 1 }
        ensures { self.new ≡ record self.old { told = pushed self.old.told (Entry.Answer task AnswerKind.Ready); held = put_top task block.items self.old.held; out = None } }
    {
        self.machine.answer(task, AnswerKind::Ready);
        self.tasks.put(task, block);
        self.out = None;
    }

    /// Ends the poll of a task that has panicked, and puts its state back. The text of the root's own panic is the run's.
    /// Another's is kept where none is caught and none is kept.
    fn answer_panicked(&mut self, task: u64, block: Vec<T>, text: Text)
        requires may { MayAnswer self.old.told.state task AnswerKind.Panicked }
        requires out { self.old.out ≡ Some task }
        requires one { length block.items ≡ 1 }
        ensures { self.new ≡ record self.old { told = pushed self.old.told (Entry.Answer task AnswerKind.Panicked); held = put_top task block.items self.old.held; panic = kept_text self.old.told.state task text self.old.panic; out = None } }
    {
        let keeps = self.is_root(task) || self.machine.keeps_next_panic();
        self.answer(task, block, AnswerKind::Panicked);
        if keeps {
            self.panic = Some(text);
        }
    }
}

#[tactic(auto, using(crate::proofs::Seats::seat_laws, crate::proofs::Coming::coming_laws), unfolding(rt_model::specs::Effects::after))]
impl<T, O: Drop, G: Rng> World<T, O, G> {
    /// Ends the poll of a spawned task that has finished, and puts its state back. Its output is its result, if that
    /// wasn't given up.
    fn answer_result(&mut self, task: u64, block: Vec<T>, output: O)
        requires may { MayAnswer self.old.told.state task AnswerKind.Ready }
        requires spawned { is_some_number task self.old.told.state.root ≡ false }
        requires out { self.old.out ≡ Some task }
        requires one { length block.items ≡ 1 }
        ensures { self.new ≡ record self.old { told = pushed self.old.told (Entry.Answer task AnswerKind.Ready); held = with_result (is_some (find task self.old.told.state.stood.results)) task output (put_top task block.items self.old.held); out = None } }
    {
        self.machine.answer(task, AnswerKind::Ready);
        self.tasks.put(task, block);
        self.out = None;
        if self.machine.has_result(task) {
            self.outputs.replace(task, output);
        }
    }

    /// Ends the visit of a task whose state is ended, where it has this result if it has finished.
    fn end_visit(&mut self, task: u64, own: Option<Outcome>)
        requires phase { self.old.told.state.phase ≡ Ending task own (left_of self.old.told.state.phase) }
        requires out { self.old.out ≡ Some task }
        requires own { open_in own ≡ 0 }
        ensures phase { self.new.told.state.phase ≡ Visiting (left_of self.old.told.state.phase) }
        ensures calm { Calmly (pushed self.old.told (Entry.Answer task AnswerKind.Ended)) self.new.told }
        ensures passes { Passes G.stream self.old self.new }
        ensures rest { self.new ≡ record self.old { told = self.new.told; out = None } }
    {
        self.machine.end_visit(task, own);
        self.out = None;
    }
}

impl<T: Task, G: Rng> World<T, T::Output, G> {
    /// Visits a task that runs, and returns the root's output, once it has one. The root is stopped where a panic is
    /// kept, a flagged task ends unpolled, and any other is polled, and then makes the calls of its own steps and
    /// gives their answer.
    #[tactic(auto, using(crate::proofs::Running::pass_laws))]
    pub fn visit(&mut self, task: u64) -> Result<Option<T::Output>, FinishCause>
        requires phase { self.old.told.state.phase ≡ Visiting (left_of self.old.told.state.phase) }
        requires next { from_running self.old.told.state.running (left_of self.old.told.state.phase) ≡ task ∷ drop 1 (from_running self.old.told.state.running (left_of self.old.told.state.phase)) }
        requires none_out { self.old.out ≡ None }
        requires unmarked { self.old.lacked ≡ None }
        ensures passes { Passes G.stream self.old self.new }
        ensures stands { StandsAfter self.new.told.state (drop 1 (from_running self.old.told.state.running (left_of self.old.told.state.phase))) result }
        ensures unmarked { OnOk result (self.new.lacked ≡ None) }
        ensures agrees { (first : First T T.Output) → Agrees (with_first T.steps first) true self.old None → AgreesAfter (with_first T.steps first) self.new result }
    {
        match self.turn(task)? {
            Turnout::Stays => Ok(None),
            Turnout::Gave(output) => Ok(Some(output)),
            Turnout::Ends(own) => {
                self.end_in_visit(task, own)?;
                Ok(None)
            }
        }
    }
}

impl<T: Task, G: Rng> World<T, T::Output, G> {
    /// Begins a visit, and polls its task, unless this is the root and is stopped, or it is flagged.
    #[tactic(auto, using(crate::proofs::Running::pass_laws), unfolding(rt_model::specs::Effects::after))]
    fn turn(&mut self, task: u64) -> Result<Turnout<T::Output>, FinishCause>
        requires phase { self.old.told.state.phase ≡ Visiting (left_of self.old.told.state.phase) }
        requires next { from_running self.old.told.state.running (left_of self.old.told.state.phase) ≡ task ∷ drop 1 (from_running self.old.told.state.running (left_of self.old.told.state.phase)) }
        requires none_out { self.old.out ≡ None }
        requires unmarked { self.old.lacked ≡ None }
        ensures passes { Passes G.stream self.old self.new }
        ensures stands { TurnoutStands self.new.told.state task (drop 1 (from_running self.old.told.state.running (left_of self.old.told.state.phase))) result }
        ensures fresh { OnOk result (IsFresh self.new) }
        ensures runs { has_number task self.new.told.state.running ≡ true }
        ensures agrees { (first : First T T.Output) → Agrees (with_first T.steps first) true self.old None → TurnoutAgrees (with_first T.steps first) self.new result }
    {
        let Ok(()) = self.enter(task) else {
            return Err(FinishCause::NoMemory);
        };
        if self.is_stopped(task) {
            self.halt(task);
            return Err(FinishCause::TaskPanicked);
        }
        if self.is_flagged(task) {
            return Ok(Turnout::Ends(None));
        }
        self.poll_task(task)
    }

    /// Polls a task, which makes the calls of its own steps and gives their answer.
    #[tactic(auto, unfolding(rt_model::specs::Effects::after))]
    fn poll_task(&mut self, task: u64) -> Result<Turnout<T::Output>, FinishCause>
        requires phase { self.old.told.state.phase ≡ Polling task (left_of self.old.told.state.phase) }
        requires runs { has_number task self.old.told.state.running ≡ true }
        requires none_out { self.old.out ≡ None }
        requires fresh { IsFresh self.old }
        ensures passes { Passes G.stream self.old self.new }
        ensures stands { TurnoutStands self.new.told.state task (left_of self.old.told.state.phase) result }
        ensures fresh { OnOk result (IsFresh self.new) }
        ensures runs { has_number task self.new.told.state.running ≡ true }
        ensures agrees { (first : First T T.Output) → Agrees (with_first T.steps first) true self.old None → TurnoutAgrees (with_first T.steps first) self.new result }
    {
        let mut block = self.take_state(task);
        let cx = Cx::new(task);
        let answer = block[0].poll(self, &cx);
        self.facts();
        if self.is_short() {
            self.answer(task, block, AnswerKind::NoMemory);
            return Err(FinishCause::NoMemory);
        }
        match answer {
            Answer::Pending => {
                let flagged = self.is_flagged(task);
                self.answer(task, block, AnswerKind::Pending);
                if flagged {
                    return Ok(Turnout::Ends(None));
                }
                Ok(Turnout::Stays)
            }
            Answer::Ready(output) => {
                if self.is_root(task) {
                    self.answer_root(task, block);
                    return Ok(Turnout::Gave(output));
                }
                self.answer_result(task, block, output);
                Ok(Turnout::Ends(Some(Outcome::There)))
            }
            Answer::Panicked(text) => {
                let root = self.is_root(task);
                self.answer_panicked(task, block, text);
                if root {
                    return Err(FinishCause::TaskPanicked);
                }
                Ok(Turnout::Ends(Some(Outcome::Exited)))
            }
            Answer::NoMemory => {
                self.answer(task, block, AnswerKind::NoMemory);
                Err(FinishCause::NoMemory)
            }
        }
    }

    /// Ends the state of a task in its visit, which has this result if it has finished.
    #[tactic(auto, unfolding(rt_model::specs::Effects::after))]
    fn end_in_visit(&mut self, task: u64, own: Option<Outcome>) -> Result<(), FinishCause>
        requires phase { self.old.told.state.phase ≡ Ending task own (left_of self.old.told.state.phase) }
        requires own { open_in own ≡ 0 }
        requires runs { has_number task self.old.told.state.running ≡ true }
        requires none_out { self.old.out ≡ None }
        requires fresh { IsFresh self.old }
        ensures passes { Passes G.stream self.old self.new }
        ensures phase { self.new.told.state.phase ≡ Visiting (left_of self.old.told.state.phase) }
        ensures unmarked { self.new.lacked ≡ None }
        ensures cause { IfErr result (λ cause. cause ≡ NoMemory) }
        ensures agrees { (first : First T T.Output) → Agrees (with_first T.steps first) true self.old None → EndedAgrees (with_first T.steps first) self.new result }
    {
        let mut block = self.take_state(task);
        let Some(state) = block.pop() else {
            unreachable!();
        };
        block.destroy_empty();
        state.end(self);
        self.facts();
        let lacked = self.take_short();
        self.end_visit(task, own);
        if lacked {
            return Err(FinishCause::NoMemory);
        }
        Ok(())
    }

    /// Reads what the visits of these numbers read. Each depth has a short loop of its own, whose loads wait mostly for those
    /// of an earlier loop alone: so a processor has more of them under way.
    fn touch(&self, numbers: &[u64]) -> usize {
        let mut touched = 0;
        for task in numbers {
            touched ^= usize::from(self.tasks.has(*task)) ^ usize::from(self.is_flagged(*task));
        }
        for task in numbers {
            touched ^= self.machine.touch(*task);
        }
        for depth in DEPTHS {
            for task in numbers {
                touched ^= self.tasks.touch(*task, *depth);
            }
        }
        touched
    }

    /// At every `AHEAD`th place of a round, reads what the visits from there on read: loads from memory beside one
    /// another cost little more than one. A task alone has nobody's loads beside its own. No clause can tell a body
    /// that reads from one that doesn't.
    fn touch_ahead(&mut self, order: &[u64], place: usize)
        ensures { self.new ≡ self.old }
    {
        if order.len() < 2 || place % AHEAD != 0 {
            return;
        }
        let rest = order.get(place..).unwrap_or(&[]);
        let (numbers, _) = rest.split_at(rest.len().min(AHEAD));
        self.touched ^= self.touch(numbers);
    }

    /// Visits the numbers of a round that run, until the run ends, and returns the root's output, if it has one.
    #[tactic(auto, using(crate::proofs::Running::pass_laws))]
    pub(crate) fn visit_all(&mut self, order: &[u64]) -> Result<Option<T::Output>, FinishCause>
        requires phase { self.old.told.state.phase ≡ Visiting order.now }
        requires none_out { self.old.out ≡ None }
        requires unmarked { self.old.lacked ≡ None }
        ensures passes { Passes G.stream self.old self.new }
        ensures stands { RoundStands self.new.told.state result }
        ensures unmarked { OnOk result (self.new.lacked ≡ None) }
        ensures agrees { (first : First T T.Output) → Agrees (with_first T.steps first) true self.old None → AgreesAfter (with_first T.steps first) self.new result }
    {
        for (place, task) in order.iter().enumerate() {
            self.touch_ahead(order, place);
            if self.runs(*task) {
                match self.visit(*task) {
                    Ok(None) => {}
                    done => return done,
                }
            }
        }
        Ok(None)
    }
}
