//! Which children each node has.

ghost use Rattle.std.specs.Prelude.{◌≡◌, ◌∷◌, ◌++◌, [], ℕ, Some, OnOk, OnErr, true, false};
ghost use Rattle.rt_super.specs.Ancestry.{is_child};
ghost use Rattle.rt_walk.specs.Nodes.{children_of};

use rt_base::NoMemory;
use std::alloc::Global;
use std::collections::HashMap;

/// The children of the nodes that have some, the eldest first.
#[derive(Drop)]
pub struct Family {
    children: HashMap<u64, Vec<u64>>,
}

impl Family {
    ghost use Rattle.rt_walk.specs.Family.{children_in};

    /// Makes a record in which nobody has a child.
    pub fn new(alloc: Global) -> Family
        ensures { (node : ℕ) → children_in result node ≡ [] }
    {
        Family {
            children: HashMap::new(alloc),
        }
    }

    /// Returns the children of a node.
    pub fn children(&self, node: u64) -> &[u64]
        ensures { result.now ≡ children_in self.now node }
    {
        match self.children.get(&node) {
            Some(children) => children.as_slice(),
            None => &[],
        }
    }

    /// Returns whether the child is another node than its parent, and has no children yet.
    pub fn may_add(&self, parent: u64, child: u64) -> bool
        ensures childless { result ≡ true → children_in self.now child ≡ [] }
        ensures apart { result ≡ true → is_child child (Some parent) ≡ false }
        ensures may { is_child child (Some parent) ≡ false → children_in self.now child ≡ [] → result ≡ true }
    {
        if child == parent {
            return false;
        }
        self.children(child).is_empty()
    }

    /// Adds a child to a node, the youngest.
    pub fn add(&mut self, alloc: Global, parent: u64, child: u64) -> Result<(), NoMemory>
        ensures added { OnOk result ((node : ℕ) → children_in self.new node ≡ children_in self.old node ++ children_of ((child, Some parent) ∷ []) node) }
        ensures refused { OnErr result ((node : ℕ) → children_in self.new node ≡ children_in self.old node) }
    {
        if let Some(children) = self.children.get_mut(&parent) {
            children.push(child)?;
            return Ok(());
        }
        let children = vec![in alloc; child]?;
        match self.children.insert(parent, children) {
            Ok(_) => Ok(()),
            Err(_) => Err(NoMemory),
        }
    }
}
