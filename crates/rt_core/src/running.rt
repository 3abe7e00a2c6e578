//! A run from its maker to its end.

ghost use Rattle.std.specs.Prelude.{◌≡◌, ◌≢◌, [], None, Some, IfSome, IfErr, is_some, true, false};
ghost use Rattle.rt_model.specs.State.{Making, Between};
ghost use Rattle.rt_model.specs.Tied.{First, with_first};
ghost use Rattle.rt_world.specs.Follows.{Agrees, IsMade};
ghost use Rattle.rt_world.specs.Ends.{Seals};
ghost use Rattle.rt_core.specs.Failures.{finish_of, text_of};
ghost use Rattle.rt_core.specs.Outcome.{IsReady, Leaves, OutcomeEnds, cause_of_outcome};

use crate::{Context, RootMaker, RunError};
use rand_core::Rng;
use rt_audit::FinishCause;
use rt_base::Text;
use rt_world::{Task, World};
use std::alloc::Global;

/// The cause that the last entry of a run with this outcome keeps.
fn cause_of<O>(outcome: &Result<O, FinishCause>) -> FinishCause
    ensures { result ≡ cause_of_outcome outcome.now }
{
    match outcome {
        Ok(_) => FinishCause::Completed,
        Err(cause) => *cause,
    }
}

/// Why a run failed, by the cause that its last entry keeps and the text of a panic.
pub fn error_of(cause: FinishCause, panic: Option<Text>) -> RunError
    requires failed { cause ≢ FinishCause.Completed }
    requires text { cause ≡ FinishCause.TaskPanicked → is_some panic ≡ true }
    ensures cause { finish_of result ≡ cause }
    ensures text { IfSome (text_of result) (λ text. panic ≡ Some text) }
{
    match cause {
        FinishCause::Completed => unreachable!(),
        FinishCause::Timeout => RunError::Timeout,
        FinishCause::Stalled => RunError::Stalled,
        FinishCause::TaskPanicked => match panic {
            Some(text) => RunError::TaskPanicked(text),
            None => unreachable!(),
        },
        FinishCause::TimeOverflow => RunError::TimeOverflow,
        FinishCause::TooManyTasks => RunError::TooManyTasks,
        FinishCause::NoMemory => RunError::NoMemory,
    }
}

/// Runs a root that was taken in to its end, and cleans up.
#[tactic(auto, using(crate::proofs::Outcomes::outcome_laws), unfolding(rt_model::specs::Effects::after))]
fn run_root<T: Task, G: Rng>(world: &mut World<T, T::Output, G>) -> Result<T::Output, FinishCause>
    requires phase { world.old.told.state.phase ≡ Between }
    requires ready { IsReady world.old }
    ensures leaves { Leaves G.stream world.old world.new (cause_of_outcome result) }
    ensures failed { IfErr result (λ cause. cause ≢ FinishCause.Completed) }
    ensures agrees { (first : First T T.Output) → Agrees (with_first T.steps first) true world.old None → OutcomeEnds (with_first T.steps first) world.new result }
{
    let outcome = world.run_rounds();
    match world.cleanup(cause_of(&outcome)) {
        FinishCause::NoMemory => Err(FinishCause::NoMemory),
        _ => outcome,
    }
}

/// Takes in a root that was made, runs it to its end, and cleans up.
#[tactic(auto, using(crate::proofs::Outcomes::outcome_laws), unfolding(rt_model::specs::Effects::after))]
fn take_in<T: Task, G: Rng>(
    world: &mut World<T, T::Output, G>,
    root: T,
) -> Result<T::Output, FinishCause>
    requires phase { world.old.told.state.phase ≡ Making }
    requires root { world.old.told.state.root ≡ None }
    requires ready { IsReady world.old }
    ensures leaves { Leaves G.stream world.old world.new (cause_of_outcome result) }
    ensures failed { IfErr result (λ cause. cause ≢ FinishCause.Completed) }
    ensures agrees { (first : First T T.Output) → IsMade (with_first T.steps first) world.old root → OutcomeEnds (with_first T.steps first) world.new result }
{
    if !world.has_number_left() {
        return match world.cleanup_unmade(Some(root), FinishCause::TooManyTasks) {
            FinishCause::NoMemory => Err(FinishCause::NoMemory),
            _ => Err(FinishCause::TooManyTasks),
        };
    }
    match world.register_root(root) {
        Err(root) => {
            world.cleanup_unmade(Some(root), FinishCause::NoMemory);
            Err(FinishCause::NoMemory)
        }
        Ok(_) => run_root(world),
    }
}

/// Makes the root, runs it to its end, and cleans up.
#[tactic(auto, using(crate::proofs::Outcomes::outcome_laws))]
pub fn run_maker<T: Task, M: RootMaker<T>, G: Rng>(
    alloc: Global,
    world: &mut World<T, T::Output, G>,
    maker: M,
) -> Result<T::Output, FinishCause>
    requires phase { world.old.told.state.phase ≡ Making }
    requires calls { world.old.told.calls ≡ [] }
    requires turns { world.old.told.state.turns ≡ [] }
    requires root { world.old.told.state.root ≡ None }
    requires ready { IsReady world.old }
    ensures leaves { Leaves G.stream world.old world.new (cause_of_outcome result) }
    ensures failed { IfErr result (λ cause. cause ≢ FinishCause.Completed) }
    ensures agrees { Agrees (with_first T.steps (M.first maker)) true world.old None → OutcomeEnds (with_first T.steps (M.first maker)) world.new result }
{
    let Ok(root) = maker.make(Context::root(alloc), world) else {
        world.facts();
        world.cleanup_unmade(None, FinishCause::NoMemory);
        return Err(FinishCause::NoMemory);
    };
    world.facts();
    if world.is_short() {
        world.cleanup_unmade(Some(root), FinishCause::NoMemory);
        return Err(FinishCause::NoMemory);
    }
    take_in(world, root)
}
