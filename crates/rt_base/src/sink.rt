// Where output goes.
ghost use Rattle.std.specs.Prelude.{◌≡◌, ◌<◌, ◌≤◌, ℕ, List, [], Option, length, take, IfOk, OnErr};
ghost use Rattle.rt_base.specs.Outside.{HasRisen, Appends};

use crate::failed::Failed;

/// A place to which bytes are written in pieces.
///
/// Contracts see `held`, the bytes so far where the sink shows them, and `faults`, how many writes have failed; a try
/// that a signal cut short counts too, though the write goes on. A count at `u64::MAX` passes as risen.
pub trait Sink8 {
    ghost held: { Self → Option (List ℕ) };

    ghost faults: { Self → ℕ };

    /// Appends the first bytes of `piece` and returns how many, at least one where the piece isn't
    /// empty. A failed write appends nothing.
    fn write(&mut self, piece: &[u8]) -> Result<usize, Failed>
        ensures bound { IfOk result (λ n. n ≤ length piece.now) }
        ensures some { IfOk result (λ n. 0 < length piece.now → 0 < n) }
        ensures appended { IfOk result (λ n. Appends (held self.old) (take n piece.now) (held self.new)) }
        ensures unappended { OnErr result (Appends (held self.old) [] (held self.new)) }
        ensures counted { faults self.old ≤ faults self.new }
        ensures cause { OnErr result (HasRisen (faults self.old) (faults self.new)) };
}
