// Stores that may be called at any time.

use rt_buffer::{DelayedSyncContext, SyncFaultContext, WriteFaultContext};
use rt_store::{MemStore, Storage};

/// A store that may be called at any time.
pub trait Free: Storage {
    ghost always: { (s : Self) → Self.callable s };
}

impl Free for MemStore {
    ghost always = { λ s. tt };
}

impl<S: Free> Free for DelayedSyncContext<S> {
    ghost always = { λ s. S.always s.inner };
}

impl<S: Free> Free for WriteFaultContext<S> {
    ghost always = { λ s. S.always s.inner };
}

impl<S: Free> Free for SyncFaultContext<S> {
    ghost always = { λ s. S.always s.inner };
}
