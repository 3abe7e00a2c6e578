//! Results of tasks.

ghost use Rattle.std.specs.Prelude.{◌≡◌, ◌+◌, true};
ghost use Rattle.rt_model.specs.Lists.{find, those};
ghost use Rattle.rt_model.specs.Results.{may_abort, with_abort};
ghost use Rattle.rt_model.specs.Rows.{total};
ghost use Rattle.rt_machine.specs.Places.{result_places};
ghost use Rattle.rt_machine.specs.Ends.{open_in, waiter_in, ended_results, ended_waiting};

use rt_model::{Outcome, Table, TaskResult};
use rt_parts::settle;

/// Notes that the result of a task was used to abort it.
#[tactic(auto, using(crate::proofs::Changed::change_laws, crate::proofs::Totals::place_laws))]
pub fn note_abort(results: &mut Table<TaskResult>, task: u64)
    requires { may_abort (find task results.old.items) ≡ true }
    ensures items { results.new.items ≡ with_abort task results.old.items }
    ensures places { total result_places results.new.items + 1 ≡ total result_places results.old.items }
    ensures next { results.new.next ≡ results.old.next }
    ensures spare { results.new.spare ≡ results.old.spare }
{
    if let Some(found) = results.get(task) {
        let outcome = found.outcome;
        results.set(
            task,
            TaskResult {
                outcome,
                aborted: true,
            },
        );
    }
}

/// Sets the result of a task that ends: its own, or none where nothing of the task is left. It returns what it was,
/// where it changed.
pub fn end_result(
    results: &mut Table<TaskResult>,
    task: u64,
    own: Option<Outcome>,
    settles: bool,
) -> Option<Outcome>
    requires { open_in own ≡ 0 }
    ensures items { results.new.items ≡ ended_results own settles task results.old.items }
    ensures waiting { those (waiter_in result) ≡ ended_waiting own settles (find task results.old.items) }
    ensures places { total result_places results.new.items + open_in result ≡ total result_places results.old.items }
    ensures next { results.new.next ≡ results.old.next }
    ensures spare { results.new.spare ≡ results.old.spare }
{
    match own {
        Some(outcome) => settle(results, task, outcome),
        None if settles => settle(results, task, Outcome::Closed),
        None => None,
    }
}
