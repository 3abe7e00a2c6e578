//! Readers and writers of blobs that keep bytes in memory: a reader fetches ahead, and a writer holds the last bytes
//! back. A contract sees each by the flat list of bytes that it stands for.
#![tactic(auto)]

mod ahead;
mod deferred_sync;
mod delayed_sync;
mod held;
mod in_memory;
mod parked;
mod pending_syncs;
mod pieces;
mod putting;
mod read;
mod resizing;
mod shared_blob;
mod stage;
mod sync_fault;
mod sync_handle;
mod sync_state;
mod syncing;
mod tip;
mod write;
mod write_fault;
mod write_op;

pub use deferred_sync::{
    DeferredSync, drive_pending_syncs, fail_pending_syncs, next_pending_sync,
    release_next_pending_syncs, release_pending_syncs,
};
pub use delayed_sync::{DelayedSyncBlob, DelayedSyncContext};
pub use held::Held;
pub use pending_syncs::PendingSyncs;
pub use pieces::Pieces;
pub use read::Read;
pub use sync_fault::{SyncFaultBlob, SyncFaultContext};
pub use sync_handle::{Begun, Started, SyncHandle};
pub use sync_state::SyncState;
pub use tip::Buffer;
pub use write::Write;
pub use write_fault::{WriteFaultBlob, WriteFaultContext, WriteFaults};
pub use write_op::{Rest, Step, Stepped, WriteOp};
