// A list that contracts see as its elements.
ghost use Rattle.std.specs.Prelude.{◌≡◌};

use std::alloc::Global;
use std::hash::{Hash, Hasher};
use std::marker::Model;

/// A list that is a `Vec` without its capacity: contracts see its elements. None of its calls takes memory.
#[derive(Debug, Drop)]
pub struct Items<V> {
    inner: Vec<V>,
}

impl<V> Model for Items<V> {
    ghost use Rattle.std.specs.Prelude.{List};

    ghost Value = { List V };

    ghost view = { λ t. t.inner.items };
}

impl<V> Items<V> {
    /// Makes a list of the elements of a `Vec`.
    pub fn of(inner: Vec<V>) -> Items<V>
        ensures { result ≡ inner.items }
    {
        Items { inner }
    }

    /// Returns the elements, borrowed.
    pub fn as_slice(&self) -> &[V]
        ensures { result.now ≡ self.now }
    {
        self.inner.as_slice()
    }

    /// The allocator that the list keeps.
    pub(crate) fn allocator(&self) -> Global {
        *self.inner.allocator()
    }

    /// Returns the `Vec` with the same elements.
    pub fn into_inner(self) -> Vec<V>
        ensures { result.items ≡ self }
    {
        self.inner
    }
}

impl<V: PartialEq> PartialEq for Items<V> {
    ghost use Rattle.std.specs.Cmp.Lexicographic.{pointwise, lists_per};

    ghost eq = { pointwise V.eq };

    ghost laws = { lists_per V.laws };

    fn eq(&self, other: &Items<V>) -> bool {
        self.inner == other.inner
    }
}

impl<V: Eq> Eq for Items<V> {
    ghost use Rattle.std.specs.Cmp.Lexicographic.{lists_equiv};

    ghost laws = { lists_equiv V.Eq.laws };
}

impl<V: Hash> Hash for Items<V> {
    ghost use Rattle.std.specs.Hash as fed;
    ghost use Rattle.std.specs.Hash.{items_Alike};

    ghost hash_input = { fed.slice V.hash_input };

    ghost respects_eq = { (items_Alike (record { fed = V.respects_eq })).fed };

    fn hash<H: Hasher>(&self, state: &mut H) {
        self.as_slice().hash(state);
    }
}
