//! The world of a run: its machine, its tasks and their calls, and the rounds, clock steps and cleanup that run them.
#![tactic(auto)]

mod calls;
mod cx;
mod depth;
mod draws;
mod ends;
mod outcome;
mod poller;
mod receiving;
mod rounds;
mod signals;
mod slots;
mod spawning;
mod states;
mod task;
mod tasks;
mod visits;
mod world;

pub use cx::Cx;
pub use depth::Depth;
pub use outcome::Outcome;
pub use poller::Poller;
pub use receiving::{ResultReceiver, ResultSender, polled};
pub use rt_model::{Answer, Begin};
pub use rt_super::Stopped;
pub use spawning::{Makes, Spawned};
pub use task::Task;
pub use tasks::Tasks;
pub use world::{World, WorldOf};
