//! Lists of numbers.

ghost use Rattle.std.specs.Prelude.{◌↔◌, IfOk, IsTrue};
ghost use Rattle.std.specs.List.Sorted.{IsPermutation};

use rt_base::NoMemory;
use std::alloc::Global;

/// Returns whether one list has the numbers of the other, in any order.
pub fn is_permutation(alloc: Global, numbers: &[u64], order: &[u64]) -> Result<bool, NoMemory>
    ensures { IfOk result (λ is. IsTrue is ↔ IsPermutation numbers.now order.now) }
{
    let mut sorted = numbers.to_vec(alloc)?;
    let mut other = order.to_vec(alloc)?;
    sorted.sort_unstable();
    other.sort_unstable();
    Ok(sorted == other)
}
