//! The state that a run's journal makes, kept beside it.

ghost use Rattle.std.specs.Prelude.{ℕ, ◌≡◌, ◌≢◌, ◌≤◌, ◌<◌, ◌+◌, ◌∷◌, ◌++◌, ◌^◌, ◌-◌, ◌&&◌, not, [], length, IfOk, IsOk, IfErr, OnErr, OnOk, IsTrue, drop, is_some, None, ◌↔◌};
ghost use Rattle.rt_base.specs.declared.time.TheConstants.{MAX_TIME};
ghost use Rattle.rt_super.specs.Ancestry.{first_record};
ghost use Rattle.rt_model.specs.Lists.{find, is_some_number};
ghost use Rattle.rt_model.specs.State.{begun, Making, Visiting};
ghost use Rattle.rt_model.specs.Marks.{is_flagged};
ghost use Rattle.rt_model.specs.Causes.{is_late, from_running};
ghost use Rattle.rt_model.specs.Effects.{after_all, left_of, task_label};
ghost use Rattle.rt_model.specs.Events.{process_task, task_fields};
ghost use Rattle.rt_audit.specs.Journal.{digest_of};
ghost use Rattle.rt_model.specs.Digests.{AreDigested};
ghost use Rattle.rt_model.specs.Rules.{IsLawful, AreDrawn, MayAnswer, MayRound, MayCrash, MayFinish};
ghost use Rattle.rt_machine.specs.Draws.{Drains};
ghost use Rattle.rt_machine.specs.Told.{AreCalls, fresh, pushed, own};

use crate::RunJournal;
use crate::event::task_event;
use crate::groups::Groups;
use crate::labels::Labels;
use crate::marks::{is_flagged, leave};
use crate::room::{take_entries, take_places};
use crate::shuffle::shuffle;
use rand_core::Rng;
use rt_audit::{AnswerKind, Entry, EventFields, FinishCause, Journal, Moment, Order, ShortLabel};
use rt_base::{Items, Nanos, NoMemory, Packed, SmallText};
use rt_model::{Begin, Mark, Table, TaskResult};
use rt_parts::may_abort;
use rt_super::{Alarms, Tree};
use std::alloc::Global;
use std::marker::Model;

/// A run under way, without the states of its tasks: its journal, and the state that the journal's entries make.
///
/// In a call of a task or of the maker, `by` is the task, or none for the maker. A call that is done or refused is
/// noted in the journal with its reply. One that runs out of memory writes nothing, and leaves a mark that a call ran
/// out of memory, where none is there. One that spends a token takes no memory, and does nothing where the token was
/// spent before.
///
/// Contracts see the run that the journal's entries make, and after which turns a call ran out of memory, if one did.
#[derive(Drop)]
pub struct Machine {
    pub(crate) journal: RunJournal,
    pub(crate) time: Nanos,
    pub(crate) next: u64,
    pub(crate) root: Option<u64>,
    /// Whether the root was left pending once.
    pub(crate) root_left: bool,
    /// Whether a panic is kept.
    pub(crate) panicked: bool,
    pub(crate) closing: bool,
    pub(crate) tree: Tree,
    pub(crate) labels: Labels,
    pub(crate) ready: Vec<u64>,
    pub(crate) alarms: Alarms,
    pub(crate) marks: Table<Mark>,
    pub(crate) results: Table<TaskResult>,
    /// The results of the slots whose receivers weren't spent.
    pub(crate) slots: Table<TaskResult>,
    /// The slots whose senders weren't spent.
    pub(crate) senders: Table<()>,
    pub(crate) groups: Groups,
    /// How many entries may still have to be written without memory, beside those of the phase.
    pub(crate) promised: usize,
}

impl Model for Machine {
    ghost use Rattle.std.specs.Prelude.{◌-◌, vec_len, vec_capacity};
    ghost use Rattle.rt_machine.specs.Places.{Seen, Stands};

    ghost Value = { Seen };

    ghost view = { λ m. record { told = m.journal.told; lacked = m.journal.lacked } };

    ghost invariant = { λ m. Stands m.journal m.time m.next m.root m.root_left m.panicked m.closing m.tree m.labels m.ready.items (vec_capacity m.ready - vec_len m.ready) m.alarms m.marks m.results m.slots m.senders m.groups m.promised };
}

/// A tree with its first node's label, and room for the first round.
fn first_node(alloc: Global) -> Result<(Tree, Labels), NoMemory>
    ensures { IfOk result (λ made. (made.0 ≡ first_record) × (made.1.items ≡ (0, []) ∷ []) × (made.1.count ≡ 1)) }
{
    let tree = Tree::new(alloc)?;
    let mut labels = Labels::new(alloc);
    labels.reserve(1)?;
    labels.push(SmallText::empty());
    Ok((tree, labels))
}

#[tactic(auto, using(crate::proofs::Counts::count_laws, crate::proofs::Totals::place_laws), unfolding(rt_model::specs::Effects::after, rt_model::specs::State::begun))]
impl Machine {
    /// Begins a run after the entries of this journal, and returns its machine, or hands the journal back where there
    /// is no memory.
    pub fn begin(alloc: Global, journal: Journal, begin: Begin) -> Result<Machine, Journal>
        requires { begin.start ≤ MAX_TIME }
        ensures ok { IfOk result (λ m. m ≡ record { told = pushed (fresh begin journal.entries) (Entry.Start begin.first begin.start begin.deadline begin.cycle); lacked = None }) }
        ensures err { IfErr result (λ back. back.entries ≡ journal.entries) }
    {
        let mut journal = RunJournal::after(journal, begin);
        let mut ready = Vec::new(alloc);
        let Ok(()) = take_places(&mut journal, &mut ready, 3, 1) else {
            return Err(journal.into_inner());
        };
        let Ok((tree, labels)) = first_node(alloc) else {
            return Err(journal.into_inner());
        };
        let Ok(groups) = Groups::new(alloc) else {
            return Err(journal.into_inner());
        };
        journal.push(Entry::Start {
            next: Packed::new(begin.first),
            now: Moment::new(begin.start),
            deadline: begin.deadline.map(|due| Moment::new(due)),
            cycle: Moment::new(begin.cycle),
        });
        Ok(Machine {
            journal,
            time: begin.start,
            next: begin.first,
            root: None,
            root_left: false,
            panicked: false,
            closing: false,
            tree,
            labels,
            ready,
            alarms: Alarms::new(alloc),
            marks: Table::new(alloc, begin.first),
            results: Table::new(alloc, begin.first),
            slots: Table::new(alloc, 0),
            senders: Table::new(alloc, 0),
            groups,
            promised: 3,
        })
    }

    /// Returns the time, in nanoseconds since the epoch.
    pub fn time(&self) -> Nanos
        ensures is { result ≡ self.now.told.state.clock.time }
        ensures within { result ≤ MAX_TIME }
    {
        self.journal.facts();
        self.time
    }

    /// Returns whether a call ran out of memory since the mark of that was last taken off.
    pub fn is_short(&self) -> bool
        ensures { result ≡ is_some self.now.lacked }
    {
        self.journal.has_lacked()
    }

    /// Takes off the mark that a call ran out of memory, and returns whether it was there.
    pub fn take_short(&mut self) -> bool
        ensures was { result ≡ is_some self.old.lacked }
        ensures gone { self.new ≡ record { told = self.old.told; lacked = None } }
    {
        let short = self.journal.has_lacked();
        self.journal.clear_lack();
        short
    }

    /// Returns whether the deadline is reached.
    pub fn is_late(&self) -> bool
        ensures { result ≡ is_late self.now.told.state.clock }
    {
        match self.journal.begin().deadline {
            None => false,
            Some(deadline) => deadline <= self.time,
        }
    }

    /// Returns whether the root can still get a number.
    pub fn has_number_left(&self) -> bool
        ensures { IsTrue result ↔ (self.now.told.state.numbers.next < 2 ^ 64 - 1) }
    {
        self.next < u64::MAX
    }

    /// Returns the root's number, once the root is taken in.
    pub fn root(&self) -> Option<u64>
        ensures { result ≡ self.now.told.state.root }
    {
        self.root
    }

    /// Returns the allocator of the run.
    pub fn allocator(&self) -> Global {
        *self.ready.allocator()
    }

    /// Returns whether a task is the root and is to be stopped at its visit, since a panic is kept.
    pub fn is_stopped(&self, task: u64) -> bool
        ensures { result ≡ (is_some_number task self.now.told.state.root && self.now.told.state.panicked) }
    {
        self.panicked && self.root == Some(task)
    }

    /// Returns whether a task is flagged, and so ends at its visit.
    pub fn is_flagged(&self, task: u64) -> bool
        ensures { result ≡ is_flagged (find task self.now.told.state.marks) }
    {
        is_flagged(&self.marks, task)
    }

    /// Returns whether the panic that a spawned task reports now will be kept: panics aren't caught, and none is kept
    /// yet.
    pub fn keeps_next_panic(&self) -> bool
        ensures { result ≡ (not self.now.told.state.panicked && not self.now.told.state.clock.fixed.catch) }
    {
        !self.panicked && !self.journal.begin().catch
    }

    /// Gives the root the next number, which is returned, and queues it. Nothing has changed after `NoMemory`.
    pub fn register_root(&mut self) -> Result<u64, NoMemory>
        requires phase { self.old.told.state.phase ≡ Making }
        requires fits { self.old.told.state.numbers.next < 2 ^ 64 - 1 }
        ensures ok { IfOk result (λ task. (task ≡ self.old.told.state.numbers.next) × (self.new ≡ record { told = pushed self.old.told (Entry.Root task); lacked = self.old.lacked })) }
        ensures err { OnErr result (self.new ≡ self.old) }
    {
        take_places(&mut self.journal, &mut self.ready, self.promised, 2)?;
        self.marks.reserve(1)?;
        self.results.reserve(1)?;
        let task = self.next;
        self.journal.push(Entry::Root { task });
        self.marks.skip();
        self.results.skip();
        self.next = task + 1;
        self.root = Some(task);
        self.promised += 1;
        self.ready.push_reserved(task);
        Ok(task)
    }

    /// Drains the ready list into a round, whose order the generator's next draws decide, and puts its numbers into
    /// `order`.
    ///
    /// The draws are written before the round, and the journal keeps a copy of the numbers. After `NoMemory` nothing has
    /// changed, and nothing was drawn.
    pub fn round<G: Rng>(&mut self, order: &mut Vec<u64>, rng: &mut G) -> Result<(), NoMemory>
        requires { MayRound self.old.told.state.phase self.old.told.state }
        ensures ok { OnOk result (Drains (G.stream rng.old) (G.stream rng.new) self.old.told self.new.told order.new.items) }
        ensures lacked { self.new.lacked ≡ self.old.lacked }
        ensures err { OnErr result ((self.new ≡ self.old) × (rng.new ≡ rng.old)) }
    {
        order.clear();
        order.extend_from_slice(self.ready.as_slice())?;
        if self.ready.len() < 2 {
            return self.plain_round(order);
        }
        self.shuffled_round(order, rng)
    }

    /// A round of at most one number, for which nothing is drawn.
    fn plain_round(&mut self, order: &[u64]) -> Result<(), NoMemory>
        requires may { MayRound self.old.told.state.phase self.old.told.state }
        requires order { order.now ≡ self.old.told.state.ready }
        requires one { length order.now < 2 }
        ensures ok { OnOk result (self.new ≡ record { told = pushed self.old.told (Entry.Round order.now); lacked = self.old.lacked }) }
        ensures err { OnErr result (self.new ≡ self.old) }
    {
        take_entries(&mut self.journal, self.promised, 1)?;
        let kept = Order::of(*self.ready.allocator(), order)?;
        self.journal.push(Entry::Round { order: kept });
        self.ready.clear();
        Ok(())
    }

    /// A round of several numbers.
    fn shuffled_round<G: Rng>(&mut self, order: &mut Vec<u64>, rng: &mut G) -> Result<(), NoMemory>
        requires may { MayRound self.old.told.state.phase self.old.told.state }
        requires order { order.old.items ≡ self.old.told.state.ready }
        ensures ok { OnOk result (Drains (G.stream rng.old) (G.stream rng.new) self.old.told self.new.told order.new.items) }
        ensures lacked { self.new.lacked ≡ self.old.lacked }
        ensures err { OnErr result ((self.new ≡ self.old) × (rng.new ≡ rng.old)) }
    {
        take_entries(&mut self.journal, self.promised, order.len())?;
        let mut kept = order.as_slice().to_vec(*self.ready.allocator())?;
        shuffle(&mut self.journal, order, rng);
        kept.copy_from_slice(order.as_slice());
        self.journal.push(Entry::Round {
            order: Order::from_vec(kept),
        });
        self.ready.clear();
        Ok(())
    }

    /// Reads what a visit of a task reads, so that it is in a cache at the visit: its mark and its label, and what its
    /// end needs, its node and its result.
    ///
    /// What it returns is of no account: it keeps a compiler from leaving the reads out.
    pub fn touch(&self, task: u64) -> usize {
        let Some(mark) = self.marks.get(task) else {
            return 0;
        };
        let label = self.labels.get(mark.node.get()).len();
        let lives = usize::from(self.tree.lives(mark.node.get()));
        label ^ lives ^ usize::from(may_abort(&self.results, task))
    }

    /// Returns the event of a task's visit. It has the label of the task's node; the root's is empty. With one of at
    /// most 22 bytes it takes no memory.
    fn visit_event(&self, task: u64) -> Result<Entry, NoMemory>
        ensures short { length (task_label self.now.told.state task) ≤ 22 → IsOk result }
        ensures event { IfOk result (λ entry. entry ≡ Entry.Event process_task (task_fields task (task_label self.now.told.state task))) }
    {
        let fields = match self.marks.get(task) {
            Some(mark) => self.labels.visit_fields(task, mark.node.get())?,
            None => EventFields::of_short_task(task, ShortLabel::empty()),
        };
        Ok(task_event(fields))
    }

    /// Begins the visit of the next number of the round, with its event. Nothing has changed after `NoMemory`.
    pub fn visit(&mut self, task: u64) -> Result<(), NoMemory>
        requires phase { self.old.told.state.phase ≡ Visiting (left_of self.old.told.state.phase) }
        requires next { from_running self.old.told.state.running (left_of self.old.told.state.phase) ≡ task ∷ drop 1 (from_running self.old.told.state.running (left_of self.old.told.state.phase)) }
        ensures ok { OnOk result (self.new ≡ record { told = pushed (pushed self.old.told (Entry.Visit task)) (Entry.Event process_task (task_fields task (task_label self.old.told.state task))); lacked = self.old.lacked }) }
        ensures err { OnErr result (self.new ≡ self.old) }
    {
        take_places(&mut self.journal, &mut self.ready, self.promised, 3)?;
        let event = self.visit_event(task)?;
        self.journal.push(Entry::Visit { task });
        self.journal.push(event);
        self.promised += 1;
        Ok(())
    }

    /// Writes how the poll of a visit went, or that the root was stopped at its visit. It takes no memory.
    pub fn answer(&mut self, task: u64, kind: AnswerKind)
        requires may { MayAnswer self.old.told.state task kind }
        requires kind { kind ≢ AnswerKind.Ended }
        ensures { self.new ≡ record { told = pushed self.old.told (Entry.Answer task kind); lacked = self.old.lacked } }
    {
        self.journal.push(Entry::Answer { task, kind });
        let AnswerKind::Pending = kind else {
            self.promised -= 1;
            return;
        };
        self.root_left = self.root_left || self.root == Some(task);
        if !leave(&mut self.marks, task) {
            self.promised -= 1;
        }
    }

    /// Writes the crash of the store, which has nothing to choose yet. It takes no memory.
    pub fn crash(&mut self)
        requires { MayCrash self.old.told.state.phase self.old.told.state.running }
        ensures { self.new ≡ record { told = pushed self.old.told (Entry.Crash []); lacked = self.old.lacked } }
    {
        let choices = Vec::new(*self.ready.allocator());
        self.journal.push(Entry::Crash {
            choices: Items::of(choices),
        });
        self.closing = false;
    }

    /// Writes the cause of the end, which ends the run. It takes no memory.
    pub fn finish(&mut self, cause: FinishCause)
        requires { MayFinish self.old.told.state.phase cause }
        ensures { self.new ≡ record { told = pushed self.old.told (Entry.Finish cause); lacked = self.old.lacked } }
    {
        self.journal.push(Entry::Finish { cause });
    }

    /// Spends the machine and returns all entries, those that were given and the run's own.
    pub fn into_journal(self) -> Journal
        ensures entries { result.entries ≡ self.told.given ++ own self.told }
    {
        self.journal.into_inner()
    }

    /// States by its clauses what is known of each machine.
    pub fn facts(&self)
        ensures lawful { IsLawful (begun self.now.told.begin) (own self.now.told) }
        ensures drawn { AreDrawn (begun self.now.told.begin) (own self.now.told) }
        ensures digested { AreDigested (digest_of self.now.told.given) (own self.now.told) }
        ensures state { self.now.told.state ≡ after_all (begun self.now.told.begin) (own self.now.told) }
        ensures calls { AreCalls self.now.told.calls }
        ensures fresh { (task : ℕ) → self.now.told.state.numbers.next ≤ task → find task self.now.told.state.stood.results ≡ None }
        ensures unslotted { (slot : ℕ) → self.now.told.state.stood.slots.count ≤ slot → find slot self.now.told.state.stood.slots.results ≡ None }
    {
        self.results.facts();
        self.slots.facts();
        self.journal.facts()
    }
}
