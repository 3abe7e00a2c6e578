// The children of a node.
ghost use Rattle.std.specs.Prelude.{◌≡◌, ◌∷◌, ◌++◌, [], OnErr, OnOk};

use rt_base::NoMemory;
use std::alloc::Global;
use std::marker::Model;

/// How places are kept. One alone is kept in place, since most nodes have one child at most; a list is behind a pointer, so that
/// a node is small.
#[derive(Drop)]
pub enum ChildrenKind {
    Nobody,
    One([usize; 1]),
    Many(Box<Vec<usize>>),
}

/// The places of a node's children, the eldest first. Contracts see their list.
#[derive(Drop)]
pub struct Children {
    kind: ChildrenKind,
}

impl Model for Children {
    ghost use Rattle.std.specs.Prelude.{ℕ, List};
    ghost use Rattle.rt_super.specs.Children.{children_of};

    ghost Value = { List ℕ };

    ghost view = { λ c. children_of c.kind };
}

impl Children {
    /// Makes a list of no children.
    pub fn new() -> Children
        ensures { result ≡ [] }
    {
        Children {
            kind: ChildrenKind::Nobody,
        }
    }

    /// Returns the places of the children, the eldest first.
    pub fn as_slice(&self) -> &[usize]
        ensures { result.now ≡ self.now }
    {
        match &self.kind {
            ChildrenKind::Nobody => &[],
            ChildrenKind::One(one) => one.as_slice(),
            ChildrenKind::Many(places) => places.as_slice(),
        }
    }

    /// Adds the place of the youngest child.
    pub fn push(&mut self, alloc: Global, child: usize) -> Result<(), NoMemory>
        ensures pushed { OnOk result (self.new ≡ self.old ++ child ∷ []) }
        ensures refused { OnErr result (self.new ≡ self.old) }
    {
        match &mut self.kind {
            ChildrenKind::Nobody => {
                self.kind = ChildrenKind::One([child]);
            }
            ChildrenKind::One(one) => {
                let both = [one[0], child];
                let places = Vec::from_slice(alloc, &both)?;
                self.kind = ChildrenKind::Many(Box::new(alloc, places)?);
            }
            ChildrenKind::Many(places) => places.push(child)?,
        }
        Ok(())
    }
}
