//! The wakes of an event.

ghost use Rattle.std.specs.Prelude.{◌^◌, ◌≡◌, ◌≤◌, ◌+◌, ◌-◌, ◌<◌, ◌∷◌, ◌++◌, ◌&&◌, not, [], ℕ, List, drop, length, vec_len, vec_capacity, if◌then◌else◌};
ghost use Rattle.rt_model.specs.Lists.{those, find};
ghost use Rattle.rt_model.specs.Marks.{due_all, due_if, due_of, flag, flag_all, is_left};
ghost use Rattle.rt_model.specs.Rows.{total};
ghost use Rattle.rt_model.specs.Effects.{unflagged};
ghost use Rattle.rt_machine.specs.Ends.{Calmly};
ghost use Rattle.rt_machine.specs.Groups.{grouped};
ghost use Rattle.rt_machine.specs.Places.{mark_places, ones};

use crate::RunJournal;
use crate::groups::Groups;
use crate::marks::flag;
use rt_audit::Entry;
use rt_model::{Mark, Table};
use rt_super::Tree;

/// Wakes a task that the last event must wake next.
#[tactic(auto, using(crate::proofs::Calm::wake_laws), unfolding(rt_model::specs::Effects::after))]
fn wake(journal: &mut RunJournal, ready: &mut Vec<u64>, task: u64)
    requires owed { journal.old.told.state.owed ≡ task ∷ drop 1 journal.old.told.state.owed }
    requires room { 0 < journal.old.spare }
    requires seat { vec_len ready.old < vec_capacity ready.old }
    ensures calm { Calmly journal.old.told journal.new.told }
    ensures state { journal.new.told.state ≡ record journal.old.told.state { ready = journal.old.told.state.ready ++ task ∷ []; owed = drop 1 journal.old.told.state.owed } }
    ensures begin { journal.new.told.begin ≡ journal.old.told.begin }
    ensures given { journal.new.told.given ≡ journal.old.told.given }
    ensures lacked { journal.new.lacked ≡ journal.old.lacked }
    ensures spare { journal.new.spare + 1 ≡ journal.old.spare }
    ensures ready { ready.new.items ≡ ready.old.items ++ task ∷ [] }
    ensures capacity { vec_capacity ready.new ≡ vec_capacity ready.old }
{
    journal.push(Entry::Wake { task });
    ready.push_reserved(task);
}

/// Wakes a task, if there is one.
#[tactic(auto, using(crate::proofs::Calm::wake_laws))]
pub fn wake_those(journal: &mut RunJournal, ready: &mut Vec<u64>, task: Option<u64>)
    requires owed { (rest : List ℕ) × (journal.old.told.state.owed ≡ those task ++ rest) }
    requires room { length (those task) ≤ journal.old.spare }
    requires seats { length (those task) ≤ vec_capacity ready.old - vec_len ready.old }
    ensures calm { Calmly journal.old.told journal.new.told }
    ensures state { (rest : List ℕ) → journal.old.told.state.owed ≡ those task ++ rest → journal.new.told.state ≡ record journal.old.told.state { ready = journal.old.told.state.ready ++ those task; owed = rest } }
    ensures begin { journal.new.told.begin ≡ journal.old.told.begin }
    ensures given { journal.new.told.given ≡ journal.old.told.given }
    ensures lacked { journal.new.lacked ≡ journal.old.lacked }
    ensures spare { journal.new.spare + length (those task) ≡ journal.old.spare }
    ensures ready { ready.new.items ≡ ready.old.items ++ those task }
    ensures capacity { vec_capacity ready.new ≡ vec_capacity ready.old }
{
    if let Some(task) = task {
        wake(journal, ready, task);
    }
}

/// Flags a task, and wakes it where it was left pending.
#[tactic(auto, using(crate::proofs::Calm::wake_laws))]
fn wake_due(journal: &mut RunJournal, ready: &mut Vec<u64>, marks: &mut Table<Mark>, task: u64)
    requires owed { (rest : List ℕ) × (journal.old.told.state.owed ≡ due_of task marks.old.items ++ rest) }
    requires room { total mark_places marks.old.items ≤ journal.old.spare }
    requires seats { total mark_places marks.old.items ≤ vec_capacity ready.old - vec_len ready.old }
    ensures calm { Calmly journal.old.told journal.new.told }
    ensures state { (rest : List ℕ) → journal.old.told.state.owed ≡ due_of task marks.old.items ++ rest → journal.new.told.state ≡ record journal.old.told.state { ready = journal.old.told.state.ready ++ due_of task marks.old.items; owed = rest } }
    ensures begin { journal.new.told.begin ≡ journal.old.told.begin }
    ensures given { journal.new.told.given ≡ journal.old.told.given }
    ensures lacked { journal.new.lacked ≡ journal.old.lacked }
    ensures ready { ready.new.items ≡ ready.old.items ++ due_of task marks.old.items }
    ensures capacity { vec_capacity ready.new ≡ vec_capacity ready.old }
    ensures items { marks.new.items ≡ flag task marks.old.items }
    ensures next { marks.new.next ≡ marks.old.next }
    ensures spare { journal.new.spare + length (due_of task marks.old.items) ≡ journal.old.spare }
    ensures places { total mark_places marks.new.items + length (due_of task marks.old.items) ≡ total mark_places marks.old.items }
{
    if flag(marks, task) {
        wake(journal, ready, task);
    }
}

/// Flags the tasks of the nodes that have ended, and wakes those that were left pending.
pub fn wake_flags(
    journal: &mut RunJournal,
    ready: &mut Vec<u64>,
    tree: &mut Tree,
    marks: &mut Table<Mark>,
)
    requires owed { (rest : List ℕ) × (journal.old.told.state.owed ≡ due_all tree.old.flags marks.old.items ++ rest) }
    requires room { total mark_places marks.old.items ≤ journal.old.spare }
    requires seats { total mark_places marks.old.items ≤ vec_capacity ready.old - vec_len ready.old }
    ensures calm { Calmly journal.old.told journal.new.told }
    ensures state { (rest : List ℕ) → journal.old.told.state.owed ≡ due_all tree.old.flags marks.old.items ++ rest → journal.new.told.state ≡ record journal.old.told.state { ready = journal.old.told.state.ready ++ due_all tree.old.flags marks.old.items; owed = rest } }
    ensures begin { journal.new.told.begin ≡ journal.old.told.begin }
    ensures given { journal.new.told.given ≡ journal.old.told.given }
    ensures lacked { journal.new.lacked ≡ journal.old.lacked }
    ensures ready { ready.new.items ≡ ready.old.items ++ due_all tree.old.flags marks.old.items }
    ensures capacity { vec_capacity ready.new ≡ vec_capacity ready.old }
    ensures items { marks.new.items ≡ flag_all tree.old.flags marks.old.items }
    ensures next { marks.new.next ≡ marks.old.next }
    ensures spare { journal.new.spare + length (due_all tree.old.flags marks.old.items) ≡ journal.old.spare }
    ensures places { total mark_places marks.new.items + length (due_all tree.old.flags marks.old.items) ≡ total mark_places marks.old.items }
    ensures tree { tree.new ≡ unflagged tree.old }
{
    while let Some(task) = tree.next_flag() {
        wake_due(journal, ready, marks, task);
    }
}

/// Wakes who waits for what a call has met, where somebody does and no cleanup has begun.
#[tactic(auto, unfolding(rt_model::specs::Effects::after))]
pub fn wake_waiter(
    journal: &mut RunJournal,
    ready: &mut Vec<u64>,
    closing: bool,
    waiter: Option<u64>,
)
    requires owed { journal.old.told.state.owed ≡ (if closing then [] else those waiter) }
    requires room { length (those waiter) ≤ journal.old.spare }
    requires seats { length (those waiter) ≤ vec_capacity ready.old - vec_len ready.old }
    ensures state { journal.new.told.state ≡ record journal.old.told.state { ready = journal.old.told.state.ready ++ journal.old.told.state.owed; owed = [] } }
    ensures begin { journal.new.told.begin ≡ journal.old.told.begin }
    ensures given { journal.new.told.given ≡ journal.old.told.given }
    ensures past { journal.new.told.past ≡ journal.old.told.past }
    ensures lacked { journal.new.lacked ≡ journal.old.lacked }
    ensures spare { journal.old.spare ≤ journal.new.spare + length (those waiter) }
    ensures ready { ready.new.items ≡ ready.old.items ++ journal.old.told.state.owed }
    ensures capacity { vec_capacity ready.new ≡ vec_capacity ready.old }
{
    if closing {
        return;
    }
    if let Some(task) = waiter {
        journal.note(Entry::Wake { task });
        ready.push_reserved(task);
    }
}

/// Wakes those whom a call on signals has met, in their order, where no cleanup has begun. Returns how many they are.
pub fn wake_met(
    journal: &mut RunJournal,
    ready: &mut Vec<u64>,
    groups: &mut Groups,
    closing: bool,
) -> usize
    requires owed { journal.old.told.state.owed ≡ (if closing then [] else groups.old.woken) }
    requires room { length groups.old.woken ≤ journal.old.spare }
    requires seats { length groups.old.woken ≤ vec_capacity ready.old - vec_len ready.old }
    ensures count { result ≡ length groups.old.woken }
    ensures state { journal.new.told.state ≡ record journal.old.told.state { ready = journal.old.told.state.ready ++ journal.old.told.state.owed; owed = [] } }
    ensures begin { journal.new.told.begin ≡ journal.old.told.begin }
    ensures given { journal.new.told.given ≡ journal.old.told.given }
    ensures past { journal.new.told.past ≡ journal.old.told.past }
    ensures lacked { journal.new.lacked ≡ journal.old.lacked }
    ensures spare { journal.old.spare ≤ journal.new.spare + result }
    ensures ready { ready.new.items ≡ ready.old.items ++ journal.old.told.state.owed }
    ensures capacity { vec_capacity ready.new ≡ vec_capacity ready.old }
    ensures groups { groups.new ≡ grouped groups.old.told groups.old.stop [] }
{
    if closing {
        return forget_met(groups);
    }
    let before = ready.len();
    while let Some(task) = groups.next_woken() {
        note_wake(journal, ready, task);
    }
    ready.len() - before
}

/// Drops those whom a call on signals has met. Returns how many they are.
fn forget_met(groups: &mut Groups) -> usize
    requires { length groups.old.woken < 2 ^ 64 }
    ensures count { result ≡ length groups.old.woken }
    ensures groups { groups.new ≡ grouped groups.old.told groups.old.stop [] }
{
    let mut count = 0;
    while let Some(_task) = groups.next_woken() {
        count += 1;
    }
    count
}

/// Wakes a task after a call that must wake it next.
#[tactic(auto, using(crate::proofs::Calm::wake_laws), unfolding(rt_model::specs::Effects::after))]
fn note_wake(journal: &mut RunJournal, ready: &mut Vec<u64>, task: u64)
    requires owed { journal.old.told.state.owed ≡ task ∷ drop 1 journal.old.told.state.owed }
    requires room { 0 < journal.old.spare }
    requires seat { vec_len ready.old < vec_capacity ready.old }
    ensures state { journal.new.told.state ≡ record journal.old.told.state { ready = journal.old.told.state.ready ++ task ∷ []; owed = drop 1 journal.old.told.state.owed } }
    ensures begin { journal.new.told.begin ≡ journal.old.told.begin }
    ensures given { journal.new.told.given ≡ journal.old.told.given }
    ensures past { journal.new.told.past ≡ journal.old.told.past }
    ensures lacked { journal.new.lacked ≡ journal.old.lacked }
    ensures spare { journal.new.spare + 1 ≡ journal.old.spare }
    ensures ready { ready.new.items ≡ ready.old.items ++ task ∷ [] }
    ensures capacity { vec_capacity ready.new ≡ vec_capacity ready.old }
{
    journal.note(Entry::Wake { task });
    ready.push_reserved(task);
}

/// Flags a task after the call that aborts it, and wakes it where it was left pending and no cleanup has begun. Returns
/// whether it was left pending.
#[tactic(auto, using(crate::proofs::Totals::place_laws), unfolding(rt_model::specs::Effects::after))]
pub fn wake_flagged(
    journal: &mut RunJournal,
    ready: &mut Vec<u64>,
    marks: &mut Table<Mark>,
    closing: bool,
    task: u64,
) -> bool
    requires owed { journal.old.told.state.owed ≡ due_if (not closing && is_left (find task marks.old.items)) task }
    requires room { 0 < journal.old.spare }
    requires seat { vec_len ready.old < vec_capacity ready.old }
    ensures left { result ≡ is_left (find task marks.old.items) }
    ensures state { journal.new.told.state ≡ record journal.old.told.state { ready = journal.old.told.state.ready ++ journal.old.told.state.owed; owed = [] } }
    ensures begin { journal.new.told.begin ≡ journal.old.told.begin }
    ensures given { journal.new.told.given ≡ journal.old.told.given }
    ensures past { journal.new.told.past ≡ journal.old.told.past }
    ensures lacked { journal.new.lacked ≡ journal.old.lacked }
    ensures spare { journal.old.spare ≤ journal.new.spare + ones result }
    ensures ready { ready.new.items ≡ ready.old.items ++ journal.old.told.state.owed }
    ensures capacity { vec_capacity ready.new ≡ vec_capacity ready.old }
    ensures items { marks.new.items ≡ flag task marks.old.items }
    ensures next { marks.new.next ≡ marks.old.next }
    ensures places { total mark_places marks.new.items + ones result ≡ total mark_places marks.old.items }
{
    let left = flag(marks, task);
    if left && !closing {
        journal.note(Entry::Wake { task });
        ready.push_reserved(task);
    }
    left
}
