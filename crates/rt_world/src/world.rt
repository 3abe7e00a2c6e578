//! The world of a run, and the calls of its tasks.

ghost use Rattle.std.specs.Prelude.{ℕ, ◌≡◌, ◌≢◌, ◌≤◌, ◌<◌, ◌∷◌, ◌^◌, ◌-◌, ◌++◌, ◌&&◌, [], IfOk, IfErr, OnErr, OnOk, IfSome, IfNone, IsTrue, is_some, drop, ◌↔◌, None, Some, length, slice_get, true, false};
ghost use Rattle.rt_model.specs.Lists.{find, has_number, is_some_number};
ghost use Rattle.rt_model.specs.State.{begun, Making, Visiting, Ending, Closing};
ghost use Rattle.rt_model.specs.Causes.{is_late, from_running, ends_next};
ghost use Rattle.rt_model.specs.Effects.{after_all, is_closing, left_of, cause_of, task_label};
ghost use Rattle.rt_model.specs.Events.{process_task, task_fields};
ghost use Rattle.rt_model.specs.Marks.{is_flagged};
ghost use Rattle.rt_model.specs.Rules.{IsLawful, AreDrawn, MayAnswer, MayCall, MayRound};
ghost use Rattle.rt_audit.specs.Journal.{digest_of};
ghost use Rattle.rt_model.specs.Digests.{AreDigested};
ghost use Rattle.rt_model.specs.Tied.{Steps, Value, taken};
ghost use Rattle.rt_model.specs.Turns.{put};
ghost use Rattle.rt_machine.specs.Ends.{Calmly, Visited, open_in};
ghost use Rattle.rt_machine.specs.Told.{Told, AreCalls, fresh, pushed, own};
ghost use Rattle.rt_world.specs.Follows.{Follows, Agrees, IsMade};
ghost use Rattle.rt_world.specs.Seats.{put_top};

use crate::Outcome;
use crate::states::{States, block_of};
use crate::tasks::Tasks;
use rt_audit::{AnswerKind, Entry, Journal};
use rt_base::{Error, Execution, MAX_TIME, Nanos, NoMemory, Text};
use rt_machine::Machine;
use rt_model::Begin;
use std::alloc::Global;
use std::marker::Model;

/// The world of the tasks of a type.
pub type WorldOf<T, G> = World<T, <T as Outcome>::Output, G>;

/// A run under way, with its tasks.
///
/// Contracts see what its journal tells, after which turns a call ran out of memory, if one did, the values that it
/// holds, the text of a panic that is kept, whose state is out because it is polled or ended, and its generator.
pub struct World<T, O, G> {
    pub(crate) machine: Machine,
    pub(crate) tasks: States<T>,
    pub(crate) outputs: Tasks<O>,
    /// What was sent into slots and wasn't taken, by the slots' numbers.
    pub(crate) sent: Tasks<Result<O, Error>>,
    /// Where each spawned task asked to run. A pair stays after the end of its task, so that an end takes no search.
    pub(crate) executions: Vec<(u64, Execution)>,
    pub(crate) panic: Option<Text>,
    pub(crate) out: Option<u64>,
    pub(crate) rng: G,
    /// The exclusive or of what was read ahead, which nobody reads: there is no call for a prefetch, so this is kept lest a
    /// compiler leaves the loads out.
    pub(crate) touched: usize,
}

impl<T, O, G> Model for World<T, O, G> {
    ghost use Rattle.std.specs.Prelude.{[]};
    ghost use Rattle.rt_world.specs.World.{World};
    ghost use Rattle.rt_world.specs.Seats.{AreSeated, AreSlotted};

    ghost Value = { World T O G };

    ghost view = { λ w. record { told = w.machine.told; lacked = w.machine.lacked; held = record { tasks = w.tasks.items; results = w.outputs.items; sent = w.sent.items; executions = w.executions.items; counts = [] }; panic = w.panic; out = w.out; rng = w.rng } };

    ghost invariant = { λ w. AreSeated w.tasks w.outputs w.out w.machine.told.state × AreSlotted w.sent w.machine.told.state.stood.slots };
}

#[tactic(auto, using(crate::proofs::Seats::seat_laws, crate::proofs::Coming::coming_laws, rt_machine::proofs::Counts::count_laws), unfolding(rt_model::specs::Effects::after))]
impl<T, O, G> World<T, O, G> {
    /// Returns the time, in nanoseconds since the epoch, which is at most the last moment. It is fixed for a whole
    /// visit.
    pub fn now(&self) -> Nanos
        ensures time { result ≡ self.now.told.state.clock.time }
        ensures within { result ≤ MAX_TIME }
    {
        self.machine.time()
    }

    /// Makes the world of a run that begins after the entries of earlier ones, before its root is made. Without room
    /// for its start it gives all back.
    pub fn begin(
        alloc: Global,
        journal: Journal,
        begin: Begin,
        rng: G,
    ) -> Result<World<T, O, G>, (Journal, G)>
        requires { begin.start ≤ MAX_TIME }
        ensures ok { IfOk result (λ w. w ≡ record { told = pushed (fresh begin journal.entries) (Entry.Start begin.first begin.start begin.deadline begin.cycle); lacked = None; held = record { tasks = []; results = []; sent = []; executions = []; counts = [] }; panic = None; out = None; rng = rng }) }
        ensures err { IfErr result (λ back. (back.0.entries ≡ journal.entries) × (back.1 ≡ rng)) }
        ensures agrees { IfOk result (λ w. (p : Steps T O) → Agrees p true w None) }
    {
        match Machine::begin(alloc, journal, begin) {
            Err(journal) => Err((journal, rng)),
            Ok(machine) => Ok(World {
                machine,
                tasks: States::new(alloc, begin.first),
                outputs: Tasks::new(alloc, begin.first),
                sent: Tasks::new(alloc, 0),
                executions: Vec::new(alloc),
                panic: None,
                out: None,
                rng,
                touched: 0,
            }),
        }
    }

    /// Returns whether a call of the part under way ran out of memory.
    pub fn is_short(&self) -> bool
        ensures { result ≡ is_some self.now.lacked }
    {
        self.machine.is_short()
    }

    /// Takes the mark of a call that ran out of memory off, and returns whether it was there.
    pub(crate) fn take_short(&mut self) -> bool
        ensures was { result ≡ is_some self.old.lacked }
        ensures gone { self.new ≡ record self.old { lacked = None } }
    {
        self.machine.take_short()
    }

    /// Returns whether the deadline has come.
    pub(crate) fn is_late(&self) -> bool
        ensures { result ≡ is_late self.now.told.state.clock }
    {
        self.machine.is_late()
    }

    /// Returns whether the root can still get a number.
    pub fn has_number_left(&self) -> bool
        ensures { IsTrue result ↔ (self.now.told.state.numbers.next < 2 ^ 64 - 1) }
    {
        self.machine.has_number_left()
    }

    /// Returns whether a task runs.
    pub(crate) fn runs(&self, task: u64) -> bool
        requires { self.now.out ≡ None }
        ensures { result ≡ has_number task self.now.told.state.running }
    {
        self.tasks.has(task)
    }

    /// Takes the root in, and returns its number, which is the next. Without room it gives the root back.
    pub fn register_root(&mut self, root: T) -> Result<u64, T>
        requires phase { self.old.told.state.phase ≡ Making }
        requires fits { self.old.told.state.numbers.next < 2 ^ 64 - 1 }
        requires none_out { self.old.out ≡ None }
        ensures number { IfOk result (λ task. task ≡ self.old.told.state.numbers.next) }
        ensures ok { IfOk result (λ task. self.new ≡ record self.old { told = pushed self.old.told (Entry.Root task); held = put task root self.old.held }) }
        ensures err { IfErr result (λ back. (back ≡ root) × (self.new ≡ self.old)) }
        ensures agrees { (p : Steps T O) → self.old.panic ≡ None → IsMade p self.old root → OnOk result (Agrees p true self.new None) }
    {
        match self.seat_root(root) {
            Ok(task) => Ok(task),
            Err(root) => Err(root),
        }
    }

    /// Takes the root in, by what it writes alone.
    fn seat_root(&mut self, root: T) -> Result<u64, T>
        requires phase { self.old.told.state.phase ≡ Making }
        requires fits { self.old.told.state.numbers.next < 2 ^ 64 - 1 }
        requires none_out { self.old.out ≡ None }
        ensures number { IfOk result (λ task. task ≡ self.old.told.state.numbers.next) }
        ensures ok { IfOk result (λ task. self.new ≡ record self.old { told = pushed self.old.told (Entry.Root task); held = put task root self.old.held }) }
        ensures err { IfErr result (λ back. (back ≡ root) × (self.new ≡ self.old)) }
    {
        let Ok(block) = block_of(self.machine.allocator()) else {
            return Err(root);
        };
        if self.tasks.reserve(1).is_err() || self.outputs.reserve(1).is_err() {
            block.destroy_empty();
            return Err(root);
        }
        self.machine.facts();
        match self.machine.register_root() {
            Err(_) => {
                block.destroy_empty();
                Err(root)
            }
            Ok(task) => {
                self.tasks.add(block, root);
                self.outputs.skip();
                Ok(task)
            }
        }
    }

    /// Begins a visit.
    pub(crate) fn enter(&mut self, task: u64) -> Result<(), NoMemory>
        requires phase { self.old.told.state.phase ≡ Visiting (left_of self.old.told.state.phase) }
        requires next { from_running self.old.told.state.running (left_of self.old.told.state.phase) ≡ task ∷ drop 1 (from_running self.old.told.state.running (left_of self.old.told.state.phase)) }
        ensures runs { has_number task self.old.told.state.running ≡ true }
        ensures ok { OnOk result (self.new ≡ record self.old { told = pushed (pushed self.old.told (Entry.Visit task)) (Entry.Event process_task (task_fields task (task_label self.old.told.state task))) }) }
        ensures err { OnErr result (self.new ≡ self.old) }
    {
        self.machine.visit(task)
    }

    /// Returns whether the root is to be stopped at its visit, since a panic is kept.
    pub(crate) fn is_stopped(&self, task: u64) -> bool
        ensures { result ≡ (is_some_number task self.now.told.state.root && self.now.told.state.panicked) }
    {
        self.machine.is_stopped(task)
    }

    /// Returns whether a task is flagged, and so ends at its visit.
    pub(crate) fn is_flagged(&self, task: u64) -> bool
        ensures { result ≡ is_flagged (find task self.now.told.state.marks) }
    {
        self.machine.is_flagged(task)
    }

    /// Returns whether a task is the root.
    pub(crate) fn is_root(&self, task: u64) -> bool
        ensures { result ≡ is_some_number task self.now.told.state.root }
    {
        self.machine.root() == Some(task)
    }

    /// Takes the state of a running task out, with its block.
    pub(crate) fn take_state(&mut self, task: u64) -> Vec<T>
        requires runs { has_number task self.old.told.state.running ≡ true }
        requires none_out { self.old.out ≡ None }
        ensures state { find task self.old.held.tasks ≡ slice_get result.items 0 }
        ensures one { length result.items ≡ 1 }
        ensures rest { self.new ≡ record self.old { held = taken task self.old.held; out = Some task } }
    {
        match self.tasks.take(task) {
            Some(block) => {
                self.out = Some(task);
                block
            }
            None => unreachable!(),
        }
    }

    /// Ends the poll of a visit, and puts the state of its task back.
    pub(crate) fn answer(&mut self, task: u64, block: Vec<T>, kind: AnswerKind)
        requires may { MayAnswer self.old.told.state task kind }
        requires kind { kind ≢ AnswerKind.Ended }
        requires ready { kind ≢ AnswerKind.Ready }
        requires out { self.old.out ≡ Some task }
        requires one { length block.items ≡ 1 }
        ensures { self.new ≡ record self.old { told = pushed self.old.told (Entry.Answer task kind); held = put_top task block.items self.old.held; out = None } }
    {
        self.machine.answer(task, kind);
        self.tasks.put(task, block);
        self.out = None;
    }

    /// Returns the allocator of the run.
    pub(crate) fn allocator(&self) -> Global {
        self.machine.allocator()
    }

    /// Returns the task that the cleanup ends next: the first, the root last.
    pub(crate) fn ends_next(&mut self) -> Option<u64>
        requires { self.old.out ≡ None }
        ensures next { result ≡ ends_next self.old.told.state.running self.old.told.state.root }
        ensures runs { IfSome result (λ task. has_number task self.old.told.state.running ≡ true) }
        ensures none { IfNone result ((self.old.told.state.running ≡ []) × (self.old.held.tasks ≡ [])) }
        ensures same { self.new ≡ self.old }
    {
        self.tasks.ends_next(self.machine.root())
    }

    /// Says that the state of a task is ended, in the cleanup.
    pub(crate) fn task_ended(&mut self, task: u64)
        requires phase { self.old.told.state.phase ≡ Closing (cause_of self.old.told.state.phase) }
        requires next { ends_next self.old.told.state.running self.old.told.state.root ≡ Some task }
        requires out { self.old.out ≡ Some task }
        ensures { self.new ≡ record self.old { told = pushed self.old.told (Entry.Answer task AnswerKind.Ended); out = None } }
    {
        self.machine.task_ended(task);
        self.out = None;
    }

    /// Returns where each spawned task asked to run, by its number, in the order in which they were spawned. It
    /// changes nothing under virtual time.
    pub fn executions(&self) -> &[(u64, Execution)]
        ensures { result.now ≡ self.now.held.executions }
    {
        self.executions.as_slice()
    }

    /// Does nothing: its clauses say what is known of each world, that its entries are lawful, each round's order is
    /// the ready list as its draws shuffle it, each auditor's answer is the digest so far, and its state is what they
    /// tell.
    pub fn facts(&self)
        ensures lawful { IsLawful (begun self.now.told.begin) (own self.now.told) }
        ensures drawn { AreDrawn (begun self.now.told.begin) (own self.now.told) }
        ensures digested { AreDigested (digest_of self.now.told.given) (own self.now.told) }
        ensures state { self.now.told.state ≡ after_all (begun self.now.told.begin) (own self.now.told) }
        ensures calls { AreCalls self.now.told.calls }
        ensures runs { IfSome self.now.out (λ task. has_number task self.now.told.state.running ≡ true) }
        ensures none { self.now.out ≡ None → self.now.told.state.running ≡ [] → self.now.held.tasks ≡ [] }
        ensures follows { (p : Steps T O) (t : Told) (v : Value T O) → Follows p t v → t.calls ≡ [] → self.now.told.begin ≡ t.begin → self.now.told.past ≡ t.past → Follows p self.now.told v }
    {
        self.machine.facts()
    }
}

impl<T, O: Drop, G> World<T, O, G> {
    /// Returns the journal of a run in which no task is left, its generator, and the text of a panic that is kept.
    pub fn into_parts(self) -> (Journal, G, Option<Text>)
        requires { self.held.tasks ≡ [] }
        ensures entries { result.0.entries ≡ self.told.given ++ own self.told }
        ensures rng { result.1 ≡ self.rng }
        ensures panic { result.2 ≡ self.panic }
    {
        let World {
            machine,
            tasks,
            outputs: _,
            sent: _,
            executions: _,
            panic,
            out: _,
            rng,
            touched: _,
        } = self;
        tasks.destroy_empty();
        (machine.into_journal(), rng, panic)
    }
}
