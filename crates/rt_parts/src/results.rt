//! Results of tasks.

ghost use Rattle.std.specs.Prelude.{◌≡◌, ◌≤◌, ◌+◌, option_map, true};
ghost use Rattle.rt_model.specs.Lists.{find};
ghost use Rattle.rt_model.specs.Results.{may_abort, with_outcome};
ghost use Rattle.rt_model.specs.Rows.{total};
ghost use Rattle.rt_parts.specs.Room.{result_places, open_places, open_in, waiter_in};

use rt_model::{Outcome, Table, TaskResult};

/// Returns whether the result of a task wasn't used to abort it.
pub fn may_abort(results: &Table<TaskResult>, task: u64) -> bool
    ensures { result ≡ may_abort (find task results.now.items) }
{
    match results.get(task) {
        None => false,
        Some(found) => !found.aborted,
    }
}

/// Changes what the result of a task is, and returns what it was, where it wasn't given up.
#[tactic(auto, using(crate::proofs::Changed::change_laws, crate::proofs::Totals::place_laws))]
pub fn settle(results: &mut Table<TaskResult>, task: u64, outcome: Outcome) -> Option<Outcome>
    ensures before { result ≡ option_map (λ r. r.outcome) (find task results.old.items) }
    ensures items { results.new.items ≡ with_outcome outcome task results.old.items }
    ensures places { open_places outcome ≡ 0 → total result_places results.new.items + open_in result ≡ total result_places results.old.items }
    ensures next { results.new.next ≡ results.old.next }
    ensures spare { results.new.spare ≡ results.old.spare }
{
    match results.get(task) {
        None => None,
        Some(found) => {
            let aborted = found.aborted;
            results.set(task, TaskResult { outcome, aborted });
            Some(found.outcome)
        }
    }
}

/// Returns who waits for a result that was so, and how many entries that asks for.
pub fn waiter_of(outcome: Option<Outcome>) -> (Option<u64>, usize)
    ensures waiter { result.0 ≡ waiter_in outcome }
    ensures places { result.1 ≡ open_in outcome }
    ensures small { result.1 ≤ 1 }
{
    match outcome {
        Some(Outcome::Open { waits }) => (waits, 1),
        _ => (None, 0),
    }
}

/// Returns how many entries a result may still ask for: its giving up, the abort by it, and the wake of who waits for
/// it.
pub fn places_of(found: TaskResult) -> usize
    ensures { result ≡ result_places found }
{
    let abort = if found.aborted { 0 } else { 1 };
    let wake = match found.outcome {
        Outcome::Open { .. } => 1,
        _ => 0,
    };
    1 + abort + wake
}
