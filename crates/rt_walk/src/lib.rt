//! Walks over the entries of a journal, and says whether each may come where it is.
#![tactic(auto)]

mod announced;
mod below;
mod called;
mod family;
mod first;
mod left;
mod marks;
mod may;
mod nodes;
mod numbers;
mod places;
mod replies;
mod results;
mod running;
mod stage;
mod step;
mod table;
mod told_alarms;
mod told_signals;
mod walker;

pub use first::first_unlawful;
pub use walker::Walker;
