//! Which contexts have ended with which, when sleepers wake, one-time results, and signals.
#![tactic(auto)]

mod alarms;
mod children;
mod ending;
mod history;
mod node;
mod signal_group;
mod signal_token;
mod signals;
mod slot_state;
mod slots;
mod stopper;
mod table;
mod tokens;
mod tree;
mod waker;

pub use alarms::Alarms;
pub use signals::Signals;
pub use slots::Slots;
pub use stopper::{Stopped, Stopper};
pub use table::Table;
pub use tree::Tree;
pub use waker::NOBODY;
