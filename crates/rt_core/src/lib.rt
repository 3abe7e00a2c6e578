//! Runners: a root task is made, run to its end under virtual time, and a checkpoint is handed back.
#![tactic(auto)]

mod abort_on_drop;
mod checkpoint;
mod completion;
mod config;
mod context;
mod either_of;
mod handle;
mod handover;
mod join_all;
mod maker;
mod pause;
mod run_error;
mod runner;
mod running;
mod select;
mod signals;
mod sleep;
mod small_name;
mod stop;
mod timeout;
pub mod utils;
mod yields;

pub use abort_on_drop::{AbortOnDrop, AbortOnDropOf};
pub use checkpoint::{Checkpoint, Failure, Finished};
pub use config::{Config, ConfigError};
pub use context::Context;
pub use either::{Either, Left, Right};
pub use either_of::{EitherOf, FirstOf};
pub use handle::{Handle, HandleOf, NoPoller};
pub use join_all::{Convert, JoinAll, JoinAllOf};
pub use maker::RootMaker;
pub use pause::Pause;
pub use rand_core::Rng;
pub use rt_audit::Journal;
pub use rt_base::{
    Cell, Error, Execution, Items, MAX_TIME, MetricError, Name, Nanos, NoMemory, Poll, Refused,
    Text, spawn_cell,
};
pub use rt_world::{Answer, Cx, Depth, Outcome, Poller, ResultReceiver, ResultSender, Task, World};
pub use run_error::RunError;
pub use runner::Runner;
pub use select::{Select, SelectOf};
pub use signals::{CompletionWait, Signal, Signaler};
pub use sleep::Sleep;
pub use stop::Stop;
pub use timeout::Timeout;
pub use yields::Reschedule;
