// A node of the tree.
use crate::children::Children;
use rt_base::PackedOption;

/// A node, whose number is its place in the tree's list.
///
/// Its numbers are kept as bytes without padding, since each spawned task has a node and a first touch of memory costs
/// more than the bytes' way into a number.
#[derive(Drop)]
pub struct Node {
    pub live: bool,
    /// The parent's place; the root has none.
    pub parent: PackedOption,
    pub task: PackedOption,
    /// The places of its children, the eldest first.
    pub children: Children,
}
