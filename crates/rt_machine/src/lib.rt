//! The scheduling machine, without its tasks: a journal that is lawful by its type, and the state that it makes.
#![tactic(auto)]

mod calls;
mod cause;
mod clock;
mod draws;
mod ends;
mod event;
mod groups;
mod labels;
mod machine;
mod marks;
mod results;
mod room;
mod run_journal;
mod shuffle;
mod signals;
mod slots;
mod tokens;
mod wakes;

pub use machine::Machine;
pub use run_journal::RunJournal;
