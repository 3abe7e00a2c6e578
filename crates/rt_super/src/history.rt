// The record of a tree, which no code keeps.
ghost use Rattle.std.specs.Prelude.{◌≡◌};
ghost use Rattle.std.specs.Borrow.{ftrue};
ghost use Rattle.rt_super.specs.Ancestry.{TreeRecord};
ghost use Rattle.rt_super.specs.History.{no_history};

use std::marker::Model;

/// What changes a tree's record.
#[derive(Drop)]
pub enum Change {
    /// A node was added: its number, its parent, and whether it was born ended.
    Added(u64, Option<u64>, bool),
    /// A task was put on a node.
    Registered(u64, u64),
    Released(u64),
    /// The end of a node was asked for.
    Ended(u64),
    FlagTaken,
}

/// The record of a tree, for clauses alone: it takes no bytes. It has all nodes ever made and all
/// ends that were asked for, of which the tree itself keeps only what it needs.
#[derive(Drop)]
pub struct History {
    pub ghost told: { TreeRecord },
}

impl Model for History {
    ghost also_owns = { λ _. ftrue };
}

impl History {
    ghost use Rattle.rt_super.specs.History.{after};

    /// Makes the record of no node.
    pub fn new() -> History
        ensures { result.told ≡ no_history }
    {
        History {}
    }

    /// Makes the record after one change more.
    pub fn after(_before: &History, _change: &Change) -> History
        ensures { result.told ≡ after _change.now _before.now.told }
    {
        History {}
    }
}
