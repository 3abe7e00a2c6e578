// A source in memory that never fails.
ghost use Rattle.std.specs.Prelude.{◌≡◌, ◌≤◌, Some, min, length, take, drop, IsOkAnd};

use crate::failed::Failed;
use crate::front::copy_front;
use crate::source::Source;
use std::marker::Model;

/// A source of the bytes of a list, whose reads never fail and give as many bytes as the buffer takes. Contracts see
/// what is left.
#[derive(Debug, Drop)]
pub struct SafeSource {
    bytes: Vec<u8>,
    position: usize,
}

impl Model for SafeSource {
    ghost use Rattle.std.specs.Prelude.{ℕ, List, drop, ◌≤◌, vec_len};

    ghost Value = { List ℕ };

    ghost view = { λ s. drop s.position s.bytes.items };

    ghost invariant = { λ s. s.position ≤ vec_len s.bytes };
}

impl SafeSource {
    /// Makes a source of these bytes.
    pub fn new(bytes: Vec<u8>) -> SafeSource
        ensures { result ≡ bytes.items }
    {
        SafeSource { bytes, position: 0 }
    }
}

impl Source for SafeSource {
    ghost left = { λ s. Some s };

    ghost faults = { λ _. 0 };

    /// Gives the next bytes, as many as there are and as fit, and never fails.
    fn read(&mut self, buf: &mut [u8]) -> Result<usize, Failed>
        ensures taken { IsOkAnd result (λ n. (n ≡ min (length buf.old) (length self.old)) × (self.new ≡ drop n self.old) × (take n buf.new ≡ take n self.old)) }
    {
        let count = copy_front(&self.bytes[self.position..], usize::MAX, buf);
        self.position += count;
        Ok(count)
    }
}
