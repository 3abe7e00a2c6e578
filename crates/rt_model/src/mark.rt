//! The marks of tasks that were spawned.

use rt_base::Packed;

/// A spawned task that runs: its node, whether it was left pending since a flag last woke it, and whether it is
/// flagged.
///
/// The node is kept as bytes without padding: each visit reads a mark, in a shuffled order, and a first touch of memory
/// costs more than the bytes' way into a number.
#[derive(Clone, Copy, Debug)]
pub struct Mark {
    pub node: Packed,
    pub left: bool,
    pub flagged: bool,
}
