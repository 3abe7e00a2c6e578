// Stores that may be called at any time.

use rt_store::{MemStore, Storage};

/// A store that may be called at any time.
pub trait Free: Storage {
    ghost always: { (s : Self) → Self.callable s };
}

impl Free for MemStore {
    ghost always = { λ s. tt };
}
