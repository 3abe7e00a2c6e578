// The blobs of a store, without what lives on them.
use crate::directory::Directory;
use crate::files::Files;
use std::alloc::Global;
use std::marker::Model;

/// The blobs of a `MemStore` and their names, with no live token.
#[derive(Drop)]
pub struct Snapshot {
    pub(crate) directory: Directory,
    pub(crate) files: Files,
    pub(crate) opened: u64,
    pub(crate) later: usize,
    pub(crate) alloc: Global,
}

impl Model for Snapshot {
    ghost use Rattle.std.specs.Prelude.{◌≡◌, ◌≤◌, ◌^◌};
    ghost use Rattle.rt_store.specs.Leading.{LeadToBlobs, removals};
    ghost use Rattle.rt_store.specs.Store.{StoreState, count_later};

    ghost Value = { StoreState };

    ghost view = { λ s. record { directory = s.directory; files = s.files; opened = s.opened } };

    ghost invariant = { λ s. (s.later ≡ count_later s.files) × (s.later ≤ 2 ^ 62) × LeadToBlobs s.directory (removals s.files) };
}
