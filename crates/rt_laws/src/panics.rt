//! The definitions tried on small runs with panics.

ghost use Rattle.std.specs.Prelude.{◌≡◌, ◌≢◌, ℕ, List, Some, Bool, true, false};
ghost use Rattle.rt_audit.specs.declared.answer.AnswerKind.{AnswerKind};
ghost use Rattle.rt_audit.specs.declared.answer.AnswerKind.TheVariants.{Stopped};
ghost use Rattle.rt_audit.specs.declared.finish.FinishCause.{FinishCause};
ghost use Rattle.rt_audit.specs.declared.finish.FinishCause.TheVariants.{Completed, TaskPanicked};
ghost use Rattle.rt_model.specs.State.{State, begun};
ghost use Rattle.rt_model.specs.Effects.{after_all};
ghost use Rattle.rt_model.specs.Rules.{IsLawful};
ghost use Rattle.rt_model.specs.Tied.{Value, nothing};
ghost use Rattle.rt_model.specs.Run.{IsRun};
ghost use Rattle.rt_laws.specs.Supervised.{Aborting, gave_beside, without_value};
ghost use Rattle.rt_laws.specs.Panics.{begin_catching, panicking_root, panicking_journal, raising_root, failed_beside, reported_journal, caught_journal, answered_kept};

/// The first panic of a spawned task that nobody catches is kept: it wakes the root, which isn't polled any more, and the run
/// fails with the task's text.
pub fn a_reported_panic_has_its_run()
    ensures run { (text : List ℕ) → IsRun (raising_root text) (begin_catching false) reported_journal TaskPanicked (after_all (begun (begin_catching false)) reported_journal) (failed_beside 1 text) }
    ensures text { (text : List ℕ) (cause : FinishCause) (end : State) (value : Value Aborting ℕ) → IsRun (raising_root text) (begin_catching false) reported_journal cause end value → value.panic ≡ Some text }
{}

/// Where panics are caught, that of a spawned task leaves no result: the root that joins it is refused with `Exited`, and
/// gives 2, which stands for no value.
pub fn a_caught_panic_has_its_run()
    ensures { (text : List ℕ) → IsRun (raising_root text) (begin_catching true) caught_journal Completed (after_all (begun (begin_catching true)) caught_journal) (gave_beside 1 without_value) }
{}

/// A panic of the root fails the run with its text, whether panics are caught or not.
pub fn a_panic_of_the_root_has_its_run()
    ensures { (catch : Bool) (text : List ℕ) → IsRun (panicking_root text) (begin_catching catch) panicking_journal TaskPanicked (after_all (begun (begin_catching catch)) panicking_journal) (record nothing { panic = Some text }) }
{}

/// Behind a panic that is kept the root's visit is answered in no way but that it is stopped.
pub fn near_misses_of_panics_are_not_lawful()
    ensures polled { (kind : AnswerKind) → kind ≢ Stopped → IsLawful (begun (begin_catching false)) (answered_kept kind) → ⊥ }
{}
