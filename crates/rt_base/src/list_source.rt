// A source in memory whose reads can be made to fail.
ghost use Rattle.std.specs.Prelude.{◌≡◌, ◌<◌, ◌≤◌, Some, length, IfOk, OnErr};
ghost use Rattle.rt_base.specs.Outside.{HasRisen};
ghost use Rattle.rt_base.specs.InMemory.{begun, ReadsInMemory};

use crate::failed::Failed;
use crate::front::copy_front;
use crate::source::Source;
use std::marker::Model;

/// A source of the bytes of a list, whose reads can be made to fail. Calls are counted from 1, and those that are
/// listed fail.
#[derive(Debug, Drop)]
pub struct ListSource {
    bytes: Vec<u8>,
    position: usize,
    failing: Vec<u64>,
    most: usize,
    calls: u64,
    faults: u64,
}

impl Model for ListSource {
    ghost use Rattle.std.specs.Prelude.{ℕ, List, drop, ◌≤◌, ◌<◌, vec_len};
    ghost use Rattle.rt_base.specs.InMemory.{InMemory};

    ghost Value = { InMemory };

    ghost view = { λ s. record { bytes = drop s.position s.bytes.items; failing = s.failing.items; most = s.most; calls = s.calls; faults = s.faults } };

    ghost invariant = { λ s. (s.position ≤ vec_len s.bytes) × (0 < s.most) };
}

impl ListSource {
    /// Makes a source of these bytes, whose calls with these numbers fail and which gives at most `most` bytes a call.
    pub fn new(bytes: Vec<u8>, failing: Vec<u64>, most: usize) -> ListSource
        requires { 1 ≤ most }
        ensures { result ≡ begun bytes.items failing.items most }
    {
        ListSource {
            bytes,
            position: 0,
            failing,
            most,
            calls: 0,
            faults: 0,
        }
    }
}

impl Source for ListSource {
    ghost left = { λ s. Some s.bytes };

    ghost faults = { λ s. s.faults };

    /// Gives the next bytes, as many as there are, as fit and at most `most`, and fails exactly where the number of the
    /// call is listed.
    fn read(&mut self, buf: &mut [u8]) -> Result<usize, Failed>
        ensures exact { ReadsInMemory self.old (length buf.old) result buf.new self.new }
        ensures some { IfOk result (λ n. 0 < length buf.old → 0 < length self.old.bytes → 0 < n) }
        ensures counted { self.old.faults ≤ self.new.faults }
        ensures cause { OnErr result (HasRisen self.old.faults self.new.faults) }
    {
        self.calls = self.calls.saturating_add(1);
        if self.failing.contains(&self.calls) {
            self.faults = self.faults.saturating_add(1);
            return Err(Failed);
        }
        let count = copy_front(&self.bytes[self.position..], self.most, buf);
        self.position += count;
        Ok(count)
    }
}
