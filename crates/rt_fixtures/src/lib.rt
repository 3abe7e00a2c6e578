//! A network over any other that notes what passes through it, as an example of a wrapper, an environment that keeps the
//! events that it receives, and how a call on a network ended.
#![tactic(auto)]

mod ending;
mod notebook;
mod noting;

pub use ending::{Ending, got, seen, seen_error};
pub use notebook::Notebook;
pub use noting::{Noting, NotingListener, NotingSink, NotingStream, take_room_of_calls};
