// What a writer knows of the durability of its blob.

use rt_store::Ticket;

/// What a writer knows of the durability of its blob: no change is open, some are, or a sync of all of them was
/// started, whose ticket is held.
#[derive(Debug)]
pub enum SyncState {
    Clean,
    Dirty,
    Started(Ticket),
}
