// A sink in memory whose writes can be made to fail.
ghost use Rattle.std.specs.Prelude.{◌≡◌, ◌<◌, ◌≤◌, [], Some, length, IfOk, OnErr};
ghost use Rattle.rt_base.specs.Outside.{HasRisen};
ghost use Rattle.rt_base.specs.InMemory.{begun, WritesInMemory};

use crate::failed::Failed;
use crate::sink::Sink8;
use std::alloc::Global;
use std::marker::Model;

/// A sink in memory whose writes can be made to fail. Calls are counted from 1, and those that are listed fail, as does
/// one that gets no memory.
#[derive(Debug, Drop)]
pub struct ListSink {
    bytes: Vec<u8>,
    failing: Vec<u64>,
    most: usize,
    calls: u64,
    faults: u64,
}

impl Model for ListSink {
    ghost use Rattle.std.specs.Prelude.{ℕ, List, ◌<◌};
    ghost use Rattle.rt_base.specs.InMemory.{InMemory};

    ghost Value = { InMemory };

    ghost view = { λ s. record { bytes = s.bytes.items; failing = s.failing.items; most = s.most; calls = s.calls; faults = s.faults } };

    ghost invariant = { λ s. 0 < s.most };
}

impl ListSink {
    /// Makes an empty sink, whose calls with these numbers fail and which takes at most `most` bytes a call.
    pub fn new(alloc: Global, failing: Vec<u64>, most: usize) -> ListSink
        requires { 1 ≤ most }
        ensures { result ≡ begun [] failing.items most }
    {
        ListSink {
            bytes: Vec::new(alloc),
            failing,
            most,
            calls: 0,
            faults: 0,
        }
    }

    /// Returns the bytes that were written.
    pub fn as_slice(&self) -> &[u8]
        ensures { result.now ≡ self.now.bytes }
    {
        self.bytes.as_slice()
    }
}

impl Sink8 for ListSink {
    ghost held = { λ s. Some s.bytes };

    ghost faults = { λ s. s.faults };

    /// Appends the first bytes of the piece, at most `most` of them, and fails where the number of the call is listed
    /// or memory runs out.
    fn write(&mut self, piece: &[u8]) -> Result<usize, Failed>
        ensures exact { WritesInMemory self.old piece.now result self.new }
        ensures some { IfOk result (λ n. 0 < length piece.now → 0 < n) }
        ensures counted { self.old.faults ≤ self.new.faults }
        ensures cause { OnErr result (HasRisen self.old.faults self.new.faults) }
    {
        self.calls = self.calls.saturating_add(1);
        let count = piece.len().min(self.most);
        if self.failing.contains(&self.calls)
            || self.bytes.extend_from_slice(&piece[..count]).is_err()
        {
            self.faults = self.faults.saturating_add(1);
            return Err(Failed);
        }
        Ok(count)
    }
}
