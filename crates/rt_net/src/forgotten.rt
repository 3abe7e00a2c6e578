// The bytes of a channel that are no longer kept, which contracts alone know of.
ghost use Rattle.std.specs.Prelude.{◌≡◌};
ghost use Rattle.std.specs.Borrow.{ftrue};
ghost use Rattle.rt_net.specs.Forgotten.{Past, nothing_forgotten, with_answered, with_lost};

use crate::byte_queue::ByteQueue;
use std::marker::{Model, PhantomData};

/// The bytes of a channel that are no longer kept, which contracts alone see. It takes no memory.
#[derive(Drop)]
pub struct Forgotten {
    marker: PhantomData<()>,
    pub ghost past: { Past },
}

impl Model for Forgotten {
    ghost also_owns = { λ _. ftrue };
}

impl Forgotten {
    /// Makes a record in which nothing is forgotten yet.
    pub fn new() -> Forgotten
        ensures { result.past ≡ nothing_forgotten }
    {
        Forgotten {
            marker: PhantomData,
        }
    }

    /// Records that the first `count` of the bytes kept were received.
    pub fn answer(&mut self, bytes: &ByteQueue, count: usize)
        ensures { self.new.past ≡ with_answered self.old.past bytes.now count }
    {
        self.set(bytes, count);
    }

    /// Records that the bytes kept are dropped, of which the stream held `held`.
    pub fn lose(&mut self, bytes: &ByteQueue, held: usize)
        ensures { self.new.past ≡ with_lost self.old.past bytes.now held }
    {
        self.set(bytes, held);
    }

    // Knows of another past, which the caller names by the arguments.
    fn set(&mut self, bytes: &ByteQueue, count: usize)
        ghost past: { Past }
        ensures { self.new.past ≡ past }
    {}
}
