// What a writer holds of its blob.
ghost use Rattle.std.specs.Prelude.{◌≡◌, ◌<◌, false};
ghost use Rattle.rt_buffer.specs.Steps.{is_started};
ghost use Rattle.rt_buffer.specs.Tip.{empty_tip};
ghost use Rattle.rt_buffer.specs.Writing.{is_clean, needs_sync};

use crate::sync_state::SyncState;
use crate::tip::Buffer;
use std::alloc::Global;
use std::mem;

/// The last bytes of a blob, what is known of its durability, and how many syncs were started, up to the type's end.
pub struct Held {
    pub(crate) tip: Buffer,
    pub(crate) state: SyncState,
    pub(crate) syncs: u64,
}

impl Held {
    /// Makes a record of no bytes after a blob of this size, which counts as changed.
    pub fn new(alloc: Global, size: u64, capacity: usize) -> Held
        ensures tip { result.tip ≡ empty_tip size capacity }
        ensures dirty { result.state ≡ SyncState.Dirty }
        ensures syncs { result.syncs ≡ 0 }
    {
        Held {
            tip: Buffer::new(alloc, size, capacity),
            state: SyncState::Dirty,
            syncs: 0,
        }
    }

    /// Returns whether no change is open.
    pub fn is_clean(&self) -> bool
        ensures { result ≡ is_clean self.now.state }
    {
        match self.state {
            SyncState::Clean => true,
            SyncState::Dirty | SyncState::Started(_) => false,
        }
    }

    /// Returns whether bytes are held back, or a change may not be durable.
    pub fn needs_sync(&self) -> bool
        ensures { result ≡ needs_sync self.now.tip self.now.state }
    {
        !self.tip.is_empty() || !self.is_clean()
    }

    /// Sets what is known of durability, where no ticket is held.
    pub fn set_state(&mut self, state: SyncState)
        requires { is_started self.old.state ≡ false }
        ensures { self.new ≡ record self.old { state = state } }
    {
        match mem::replace(&mut self.state, state) {
            SyncState::Clean | SyncState::Dirty => {}
            SyncState::Started(_ticket) => unreachable!(),
        }
    }
}
