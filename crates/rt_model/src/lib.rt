//! What a run is: the state that a journal tells, what may come next in it, and how it is tied to the task type.
//! The definitions are in `specs/`; the functions here state laws about them.
#![tactic(auto)]

mod answer;
mod begin;
mod mark;
mod result;

pub use answer::Answer;
pub use begin::Begin;
pub use mark::Mark;
pub use result::{Outcome, TaskResult};
pub use rt_super::Table;
