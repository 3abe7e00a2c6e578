//! The parts that a machine and a checker of journals share: what a call with its reply does to their tables.
#![tactic(auto)]

mod replies;
mod results;
mod slots;
mod walked;

pub use replies::{is_closed, is_done, is_unknown, outcome_answers};
pub use results::{may_abort, places_of, settle, waiter_of};
pub use slots::{apply, reserve_slot};
pub use walked::WalkedSlots;
