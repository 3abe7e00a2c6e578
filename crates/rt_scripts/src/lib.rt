//! The scripts of a scenario as a task type, the runs of a scenario one after another, and their reports: journal, result, time,
//! rounds and digest.
#![tactic(auto)]

mod choosing;
mod drawing;
mod held;
mod holdings;
mod laws;
mod maker;
mod outcome;
mod program;
mod report;
mod script;
mod shutdown;
mod simulate;
mod waited;

pub use laws::{
    a_journal_decides_its_checkpoint, a_root_is_valid_for_its_generator,
    input_that_is_always_valid_is_valid, reports_tell_the_runs_of_all_lines,
    runs_of_a_scenario_begin_in_order, scripts_with_tasks_are_valid, small_scripts_are_valid,
    small_scripts_have_their_runs,
};
pub use maker::RootScript;
pub use outcome::{Outcome, RunReport, RunResult};
pub use program::Program;
pub use script::Script;
pub use simulate::simulate_alone;
