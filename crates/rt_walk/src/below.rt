//! What is below a node.

ghost use Rattle.std.specs.Prelude.{◌≡◌, ◌++◌, IfOk, OnOk, reverse};
ghost use Rattle.rt_super.specs.Ancestry.{links, subtree};

use crate::nodes::Nodes;
use rt_base::NoMemory;
use std::alloc::Global;

/// Returns a node, and then what is below it: each child, the eldest first, and before the next child what is below
/// it. It takes no call of its own for each level.
pub fn subtree(alloc: Global, nodes: &Nodes, node: u64) -> Result<Vec<u64>, NoMemory>
    ensures { IfOk result (λ numbers. numbers.items ≡ subtree (links nodes.now) node) }
{
    let mut numbers = Vec::new(alloc);
    // nodes that are to come, each with what is below it, the next one last
    let mut pending = vec![in alloc; node]?;
    while let Some(next) = pending.pop() {
        numbers.push(next)?;
        push_turned(nodes.children(next), &mut pending)?;
    }
    Ok(numbers)
}

/// Adds numbers, the first one last.
fn push_turned(numbers: &[u64], pending: &mut Vec<u64>) -> Result<(), NoMemory>
    ensures { OnOk result (pending.new.items ≡ pending.old.items ++ reverse numbers.now) }
{
    let mut left = numbers.len();
    while left > 0 {
        left -= 1;
        pending.push(numbers[left])?;
    }
    Ok(())
}
