// Where input comes from.
ghost use Rattle.std.specs.Prelude.{◌≡◌, ◌≤◌, ℕ, List, Option, length, IfOk, OnErr};
ghost use Rattle.rt_base.specs.Outside.{HasRisen, Takes};

use crate::failed::Failed;

/// A place from which bytes are read in pieces.
///
/// Contracts see `left`, the bytes that are left where the source shows them, and `faults`, how many reads have failed;
/// a try that a signal cut short counts too, though the read goes on. A count at `u64::MAX` passes as risen.
pub trait Source {
    ghost left: { Self → Option (List ℕ) };

    ghost faults: { Self → ℕ };

    /// Puts the next bytes at the front of `buf` and returns how many.
    ///
    /// Zero for a buffer that isn't empty is the end of input. A failed read takes nothing.
    fn read(&mut self, buf: &mut [u8]) -> Result<usize, Failed>
        ensures bound { IfOk result (λ n. n ≤ length buf.old) }
        ensures taken { IfOk result (λ n. Takes (left self.old) (length buf.old) n buf.new (left self.new)) }
        ensures untaken { OnErr result (left self.new ≡ left self.old) }
        ensures counted { faults self.old ≤ faults self.new }
        ensures cause { OnErr result (HasRisen (faults self.old) (faults self.new)) };
}
