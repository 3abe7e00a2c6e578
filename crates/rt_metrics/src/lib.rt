//! Metrics: counters, gauges and families of them, registered by name and attributes and kept while
//! they are claimed, and their text in the form of OpenMetrics.
#![tactic(auto)]

mod batched;
mod children;
mod counter;
mod detached;
mod encoding;
mod entry;
mod family;
mod gauge;
mod gauge_ext;
mod home;
mod kind;
mod label_set;
mod labels;
mod metric;
pub mod raw;
mod registered;
mod registry;
mod sample;
mod scope;
pub mod status;
pub mod task;
mod writing;

pub use batched::{Batchable, Batched};
pub use children::{CounterFamily, GaugeFamily};
pub use counter::Counter;
pub use detached::Detached;
pub use gauge::{Gauge, GaugeValue};
pub use gauge_ext::GaugeExt;
pub use home::Home;
pub use kind::Kind;
pub use label_set::LabelSet;
pub use metric::Metric;
pub use registered::Registered;
pub use registry::Registry;
pub use sample::Sample;
pub use scope::Scope;
