//! Small runs with spawned tasks, and their inputs.

ghost use Rattle.std.specs.Prelude.{◌≡◌, ℕ};
ghost use Rattle.rt_audit.specs.declared.finish.FinishCause.TheVariants.{Completed};
ghost use Rattle.rt_model.specs.declared.answer.Answer.TheVariants.{Pending, Ready};
ghost use Rattle.rt_model.specs.State.{begun};
ghost use Rattle.rt_model.specs.Effects.{after_all};
ghost use Rattle.rt_model.specs.Run.{IsRun, IsValidInput};
ghost use Rattle.rt_laws.specs.Examples.{small_begin};
ghost use Rattle.rt_laws.specs.Supervised.{gave_beside, with_side, side_journal, aborting_root, aborting_journal, stopping_journal, without_value};

/// A maker that spawns a task and gives its handle up, and then makes a root: the task is ready and ends before the root
/// is polled, in one round.
pub fn a_task_of_the_maker_has_its_run()
    ensures run { IsRun with_side small_begin side_journal Completed (after_all (begun small_begin) side_journal) (gave_beside 0 1) }
    ensures time { (after_all (begun small_begin) side_journal).clock.time ≡ 0 }
{}

/// A task that aborts itself in its poll and is ready has its result: the root that joins it is woken, and gives it.
pub fn a_task_that_aborts_itself_has_its_run()
    ensures run { IsRun (aborting_root (Ready 4)) small_begin aborting_journal Completed (after_all (begun small_begin) aborting_journal) (gave_beside 1 4) }
    ensures time { (after_all (begun small_begin) aborting_journal).clock.time ≡ 2000000 }
{}

/// A task that aborts itself in its poll and is left pending ends in that visit without a result: the root that joins it is
/// woken and refused with `Closed`, gives the handle up and gives 2, which stands for no value.
pub fn a_task_that_aborts_itself_and_is_pending_has_its_run()
    ensures run { IsRun (aborting_root Pending) small_begin stopping_journal Completed (after_all (begun small_begin) stopping_journal) (gave_beside 1 without_value) }
    ensures time { (after_all (begun small_begin) stopping_journal).clock.time ≡ 2000000 }
{}

/// Each run completes of a maker that spawns a task and then makes a root, and of a root whose task aborts itself and is ready or
/// is left pending, whatever numbers their nodes get and whatever order a round has.
pub fn inputs_with_spawned_tasks_are_valid()
    ensures side { IsValidInput with_side small_begin }
    ensures aborting { (number : ℕ) → IsValidInput (aborting_root (Ready number)) small_begin }
    ensures stopping { IsValidInput (aborting_root Pending) small_begin }
{}
