// The walk of an end.
ghost use Rattle.std.specs.Prelude.{◌≡◌, ℕ, ◌||◌, ◌++◌, ◌+◌, ◌≤◌, ◌<◌, [], length, reverse, vec_capacity};
ghost use Rattle.std.specs.VecDeque.{deque_capacity};
ghost use Rattle.std.specs.Option.{option_to_list};
ghost use Rattle.rt_super.specs.Ancestry.{subtree, stands_in};
ghost use Rattle.rt_super.specs.Inside.{placed, is_marked};
ghost use Rattle.rt_super.specs.Inside.{IsSound, parents, children_lists, marks_set};
ghost use Rattle.rt_super.specs.Ending.{fresh_tasks};

use crate::node::Node;
use std::collections::VecDeque;

/// Marks a node and all that is below it, and notes the tasks of what wasn't marked, in preorder. A marked node's
/// children are marked, so it is skipped with all of them.
pub fn end_subtree(
    nodes: &[Node],
    node: usize,
    ended: &mut [bool],
    pending: &mut Vec<usize>,
    flags: &mut VecDeque<u64>,
)
    requires sound { IsSound (parents nodes.now) (children_lists nodes.now) ended.old }
    requires known { node < length nodes.now }
    requires empty { pending.old.items ≡ [] }
    requires visits { length nodes.now ≤ vec_capacity pending.old }
    requires room { length nodes.now ≤ deque_capacity flags.old }
    requires few { length flags.old.items ≤ marks_set ended.old }
    ensures marks { (n : ℕ) → is_marked ended.new n ≡ (is_marked ended.old n || stands_in (subtree (placed 0 (parents nodes.now)) node) n) }
    ensures flags { flags.new.items ≡ flags.old.items ++ fresh_tasks nodes.now ended.old (subtree (placed 0 (parents nodes.now)) node) }
    ensures few { length flags.new.items ≤ marks_set ended.new }
    ensures empty { pending.new.items ≡ [] }
    ensures visits { vec_capacity pending.new ≡ vec_capacity pending.old }
    ensures room { deque_capacity flags.new ≡ deque_capacity flags.old }
{
    pending.push_reserved(node);
    while let Some(at) = pending.pop() {
        if !ended[at] {
            ended[at] = true;
            let place = &nodes[at];
            flag(place.task.get(), flags);
            push_children(place.children.as_slice(), pending);
        }
    }
}

/// Notes the task of an ended node.
fn flag(task: Option<u64>, flags: &mut VecDeque<u64>)
    requires room { length flags.old.items < deque_capacity flags.old }
    ensures noted { flags.new.items ≡ flags.old.items ++ option_to_list task }
    ensures room { deque_capacity flags.new ≡ deque_capacity flags.old }
{
    if let Some(task) = task {
        flags.push_back_reserved(task);
    }
}

/// Adds the children of a node to those that are to be visited, the eldest as the next one.
fn push_children(children: &[usize], pending: &mut Vec<usize>)
    requires room { length pending.old.items + length children.now ≤ vec_capacity pending.old }
    ensures pushed { pending.new.items ≡ pending.old.items ++ reverse children.now }
    ensures room { vec_capacity pending.new ≡ vec_capacity pending.old }
{
    let mut left = children.len();
    while left > 0 {
        left -= 1;
        pending.push_reserved(children[left]);
    }
}
