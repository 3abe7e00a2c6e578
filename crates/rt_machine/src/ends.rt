//! How tasks and their nodes end.

ghost use Rattle.std.specs.Prelude.{◌≡◌, ◌≤◌, ◌<◌, ◌+◌, ◌-◌, ◌||◌, ◌&&◌, not, length, true, false, Option, Some, None, is_some, is_none, IfSome, ℕ, List};
ghost use Rattle.rt_super.specs.Ancestry.{is_ended};
ghost use Rattle.rt_model.specs.Lists.{find, has_number, those};
ghost use Rattle.rt_model.specs.Rows.{total};
ghost use Rattle.rt_model.specs.State.{Ending, Leaving, Closing, Visiting};
ghost use Rattle.rt_model.specs.Causes.{ends_next};
ghost use Rattle.rt_model.specs.Effects.{left_of, cause_of, is_panic, marks_ended, released};
ghost use Rattle.rt_model.specs.Marks.{is_ended_at};
ghost use Rattle.rt_model.specs.Rules.{MayClose};
ghost use Rattle.rt_machine.specs.Ends.{Calmly, Left, Gone, Visited, cleanup_entries, open_in, panic_wakes};
ghost use Rattle.rt_machine.specs.Places.{ones};
ghost use Rattle.rt_machine.specs.Told.{pushed, pushed_all};

use crate::Machine;
use crate::marks::flag_all;
use crate::results::end_result;
use crate::wakes::{wake_flags, wake_those};
use rt_audit::{AnswerKind, Entry};
use rt_model::{Mark, Outcome, Table};
use rt_parts::{settle, waiter_of};
use rt_super::Tree;

/// Gives the node of a task up. The task's mark goes too, where nothing of it is left.
#[tactic(auto, using(crate::proofs::Totals::place_laws, crate::proofs::Nodes::node_laws))]
fn leave_node(tree: &mut Tree, marks: &mut Table<Mark>, task: u64, settles: bool)
    ensures tree { tree.new ≡ released (find task marks.old.items) tree.old }
    ensures items { marks.new.items ≡ marks_ended settles task marks.old.items }
    ensures next { marks.new.next ≡ marks.old.next }
    ensures spare { marks.new.spare ≡ marks.old.spare }
{
    if let Some(mark) = marks.get(task) {
        tree.release(mark.node.get());
    }
    if settles {
        marks.remove(task);
    }
}

#[tactic(auto, using(crate::proofs::Counts::count_laws, crate::proofs::Totals::place_laws, crate::proofs::Nodes::node_laws, crate::proofs::Over::over_laws, crate::proofs::Visits::visit_laws), unfolding(rt_model::specs::Effects::after))]
impl Machine {
    /// Begins the cleanup: nobody is ready and no alarm is set from here on, and node 0 has ended. It takes no memory.
    pub fn cleanup(&mut self)
        requires { MayClose self.old.told.state.phase }
        ensures { self.new ≡ record { told = pushed_all self.old.told (cleanup_entries self.old.told.state.stood.nodes); lacked = self.old.lacked } }
    {
        let alarms = 2 * self.alarms.len();
        let ended = self.tree.is_over();
        self.journal.push(Entry::Cleanup);
        self.ready.clear();
        self.alarms.clear();
        self.promised -= alarms;
        self.closing = true;
        if !ended {
            self.journal.push(Entry::NodeEnd { node: 0 });
            self.tree.end(0);
            flag_all(&mut self.tree, &mut self.marks);
        }
    }

    /// Writes that a task's state is ended, in the cleanup. It takes no memory.
    pub fn task_ended(&mut self, task: u64)
        requires phase { self.old.told.state.phase ≡ Closing (cause_of self.old.told.state.phase) }
        requires next { ends_next self.old.told.state.running self.old.told.state.root ≡ Some task }
        ensures { self.new ≡ record { told = pushed self.old.told (Entry.Answer task AnswerKind.Ended); lacked = self.old.lacked } }
    {
        self.journal.push(Entry::Answer {
            task,
            kind: AnswerKind::Ended,
        });
        self.promised -= 1;
        leave_node(&mut self.tree, &mut self.marks, task, true);
        let _before = settle(&mut self.results, task, Outcome::Closed);
    }

    /// Returns whether no node ends after the end of a task, since its own had ended.
    fn is_settled(&self, task: u64) -> bool
        ensures { result ≡ is_ended_at self.now.told.state.stood.nodes (find task self.now.told.state.marks) }
    {
        match self.marks.get(task) {
            Some(mark) => self.tree.has_ended(mark.node.get()),
            None => true,
        }
    }

    /// Ends the visit of a task whose state is ended: its result, its node and those below it end, and who waits for
    /// that is woken. It takes no memory.
    ///
    /// `own` is the result with which the task has finished, if it has; else its result is closed.
    pub fn end_visit(&mut self, task: u64, own: Option<Outcome>)
        requires phase { self.old.told.state.phase ≡ Ending task own (left_of self.old.told.state.phase) }
        requires runs { has_number task self.old.told.state.running ≡ true }
        requires own { open_in own ≡ 0 }
        ensures calm { Calmly (pushed self.old.told (Entry.Answer task AnswerKind.Ended)) self.new.told }
        ensures ended { Visited task own self.old self.new }
    {
        if !self.finish_task(task, own) {
            self.end_node(task, own);
        }
    }

    /// Writes that the state of a task is ended, in its own visit, where it has this result if it has finished. Its
    /// result is there then, and who waits for it is woken; a task that hasn't finished has its result closed with its
    /// node, where that is to end. It returns whether it isn't.
    fn finish_task(&mut self, task: u64, own: Option<Outcome>) -> bool
        requires phase { self.old.told.state.phase ≡ Ending task own (left_of self.old.told.state.phase) }
        requires runs { has_number task self.old.told.state.running ≡ true }
        requires own { open_in own ≡ 0 }
        ensures settled { result ≡ is_ended_at self.old.told.state.stood.nodes (find task self.old.told.state.marks) }
        ensures calm { Calmly (pushed self.old.told (Entry.Answer task AnswerKind.Ended)) self.new.told }
        ensures left { Left task own result self.old self.new }
    {
        let settles = self.is_settled(task);
        let kept = self.keeps_panic(own);
        let (root, wake) = self.panic_wakes(own);
        self.journal.push(Entry::Answer {
            task,
            kind: AnswerKind::Ended,
        });
        leave_node(&mut self.tree, &mut self.marks, task, settles);
        let before = end_result(&mut self.results, task, own, settles);
        let (waiter, place) = waiter_of(before);
        self.panicked = kept;
        wake_those(&mut self.journal, &mut self.ready, root);
        wake_those(&mut self.journal, &mut self.ready, waiter);
        self.promised -= 1 + wake + place;
        settles
    }

    /// Ends the node of a task that leaves, which flags the tasks below it and wakes those that were left pending. Where
    /// the task hasn't finished its result is closed, and who waits for it is woken.
    fn end_node(&mut self, task: u64, own: Option<Outcome>)
        requires phase { self.old.told.state.phase ≡ Leaving task own (left_of self.old.told.state.phase) }
        requires there { is_some (find task self.old.told.state.marks) ≡ true }
        ensures calm { Calmly self.old.told self.new.told }
        ensures gone { Gone task own self.old self.new }
    {
        let Some(mark) = self.marks.get(task) else {
            unreachable!()
        };
        let node = mark.node.get();
        self.journal.push(Entry::NodeEnd { node });
        self.tree.end(node);
        let closes = is_missing(own);
        let before = end_result(&mut self.results, task, None, closes);
        let (waiter, place) = waiter_of(before);
        let ready = self.ready.len();
        wake_flags(
            &mut self.journal,
            &mut self.ready,
            &mut self.tree,
            &mut self.marks,
        );
        let flags = self.ready.len() - ready;
        wake_those(&mut self.journal, &mut self.ready, waiter);
        self.marks.remove(task);
        self.promised -= 1 + flags + place;
    }

    /// Returns whether a panic is kept after the end of a task that had this result.
    fn keeps_panic(&self, own: Option<Outcome>) -> bool
        ensures { result ≡ (self.now.told.state.panicked || (is_panic own && not self.now.told.state.clock.fixed.catch)) }
    {
        self.panicked || (is_panic(own) && !self.journal.begin().catch)
    }

    /// Whom a panic wakes that is kept now: the root, where it was left pending once. And how many wakes that asks for.
    fn panic_wakes(&self, own: Option<Outcome>) -> (Option<u64>, usize)
        ensures root { those result.0 ≡ panic_wakes self.now.told.state own }
        ensures places { result.1 + ones (not (self.now.told.state.panicked || (is_panic own && not self.now.told.state.clock.fixed.catch))) ≡ ones (not self.now.told.state.panicked) }
        ensures fits { length (those result.0) ≤ result.1 }
    {
        if self.panicked || self.journal.begin().catch || !is_panic(own) {
            return (None, 0);
        }
        if self.root_left {
            (self.root, 1)
        } else {
            (None, 1)
        }
    }
}

/// Returns whether a task hasn't finished.
fn is_missing(own: Option<Outcome>) -> bool
    ensures { result ≡ is_none own }
{
    match own {
        Some(_) => false,
        None => true,
    }
}

/// Returns whether a task reported a panic.
fn is_panic(own: Option<Outcome>) -> bool
    ensures { result ≡ is_panic own }
{
    match own {
        Some(Outcome::Exited) => true,
        _ => false,
    }
}
