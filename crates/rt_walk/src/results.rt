//! What happens to the results of tasks.

ghost use Rattle.std.specs.Prelude.{◌≡◌, ◌++◌, OnOk};
ghost use Rattle.rt_model.specs.Lists.{find};
ghost use Rattle.rt_model.specs.Results.{may_abort, waiting, with_abort, with_outcome};
ghost use Rattle.rt_model.specs.Effects.{due_ended, due_left, results_ended, results_left};
ghost use Rattle.rt_walk.specs.Stage.{phase_of};

use crate::stage::Stage;
use crate::table::Table;
use rt_base::NoMemory;
use rt_model::{Outcome, TaskResult};

/// Returns whether a result is there and wasn't used to abort its task.
pub fn may_abort(results: &Table<TaskResult>, task: u64) -> bool
    ensures { result ≡ may_abort (find task results.now) }
{
    match results.get(task) {
        Some(found) => !found.aborted,
        None => false,
    }
}

/// Says that a result was used to abort its task.
#[tactic(auto, using(crate::proofs::Tables::table_laws))]
pub fn note_abort(results: &mut Table<TaskResult>, task: u64)
    ensures { results.new ≡ with_abort task results.old }
{
    if let Some(found) = results.get(task) {
        let found = TaskResult {
            aborted: true,
            ..found
        };
        results.replace(task, found);
    }
}

/// Changes the state of a result.
#[tactic(auto, using(crate::proofs::Tables::table_laws))]
pub fn set_outcome(results: &mut Table<TaskResult>, task: u64, outcome: Outcome)
    ensures { results.new ≡ with_outcome outcome task results.old }
{
    if let Some(found) = results.get(task) {
        let found = TaskResult { outcome, ..found };
        results.replace(task, found);
    }
}

/// Adds who waits for a result.
pub fn add_waiting(
    results: &Table<TaskResult>,
    task: u64,
    due: &mut Vec<u64>,
) -> Result<(), NoMemory>
    ensures { OnOk result (due.new.items ≡ due.old.items ++ waiting (find task results.now)) }
{
    if let Some(found) = results.get(task)
        && let Outcome::Open { waits: Some(task) } = found.outcome
    {
        due.push(task)?;
    }
    Ok(())
}

/// Takes in the end of a task: one that has finished leaves its result, and where no node ends after it any other
/// closes it.
pub fn end_result(stage: &Stage, settles: bool, results: &mut Table<TaskResult>, task: u64)
    ensures { results.new ≡ results_ended (phase_of stage.now) settles task results.old }
{
    match stage {
        Stage::Ending {
            result: Some(outcome),
            ..
        } => set_outcome(results, task, *outcome),
        _ if settles => set_outcome(results, task, Outcome::Closed),
        _ => {}
    }
}

/// Adds who waits for the result of a task that ends.
pub fn add_due_ended(
    stage: &Stage,
    settles: bool,
    results: &Table<TaskResult>,
    task: u64,
    due: &mut Vec<u64>,
) -> Result<(), NoMemory>
    ensures { OnOk result (due.new.items ≡ due.old.items ++ due_ended (phase_of stage.now) settles (find task results.now)) }
{
    match stage {
        Stage::Ending { result, .. } if result.is_some() || settles => add_waiting(
            results, task, due,
        ),
        _ => Ok(()),
    }
}

/// Takes in the end of a task's node: where the task hasn't finished its result closes.
pub fn leave_result(stage: &Stage, results: &mut Table<TaskResult>)
    ensures { results.new ≡ results_left (phase_of stage.now) results.old }
{
    if let Stage::Leaving {
        task,
        result: None,
        ..
    } = stage
    {
        set_outcome(results, *task, Outcome::Closed);
    }
}

/// Adds who waits for the result of a task that leaves without one.
pub fn add_due_left(
    stage: &Stage,
    results: &Table<TaskResult>,
    due: &mut Vec<u64>,
) -> Result<(), NoMemory>
    ensures { OnOk result (due.new.items ≡ due.old.items ++ due_left (phase_of stage.now) results.now) }
{
    match stage {
        Stage::Leaving {
            task,
            result: None,
            ..
        } => add_waiting(results, *task, due),
        _ => Ok(()),
    }
}
