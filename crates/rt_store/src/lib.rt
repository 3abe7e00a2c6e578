//! Blobs in partitions, by what each call may return and leave; and a store in memory that knows what a crash would
//! leave.
#![tactic(auto)]

mod auditing;
mod blob;
mod change;
mod collecting;
mod content;
mod crash;
mod directory;
mod draws;
mod faults;
mod file;
mod files;
mod finding;
mod mem_store;
mod mutation;
mod names;
mod opening;
mod reading;
mod snapshot;
mod storage;
mod store;
mod ticket;

pub use blob::Blob;
pub use collecting::collect_reads;
pub use faults::{FaultConfig, PartialWriteMode, ResizeConfig, WriteConfig};
pub use mem_store::MemStore;
pub use snapshot::Snapshot;
pub use storage::{BlobOf, Storage};
pub use ticket::{Done, Ticket, copy_of};
