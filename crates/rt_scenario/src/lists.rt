// Many lists in little memory.
ghost use Rattle.std.specs.Prelude.{◌≡◌, ◌<◌, ◌++◌, ◌∷◌, [], length, slice_index_or, IfOk, OnErr, OnOk};

use rt_base::NoMemory;
use std::alloc::Global;
use std::marker::Model;

/// Lists whose items are kept one after another in one block. Contracts see the lists.
#[derive(Debug, Drop)]
pub struct Lists<V> {
    items: Vec<V>,
    // from where and up to where each list goes
    spans: Vec<(usize, usize)>,
}

impl<V> Model for Lists<V> {
    ghost use Rattle.std.specs.Prelude.{List, map, slice_range};
    ghost use Rattle.std.specs.List.{All};
    ghost use Rattle.rt_scenario.specs.Lists.{IsSpan};

    ghost Value = { List (List V) };

    ghost view = { λ l. map (λ s. slice_range l.items.items s.0 s.1) l.spans.items };

    ghost invariant = { λ l. All (IsSpan l.items.items) l.spans.items };
}

#[tactic(auto, using(crate::proofs::Spans::span_laws))]
impl<V> Lists<V> {
    /// Returns the items of the list at a place.
    pub fn list(&self, place: usize) -> &[V]
        requires { place < length self.now }
        ensures { result.now ≡ slice_index_or self.now place [] }
    {
        let (first, past) = self.spans[place];
        &self.items[first..past]
    }
}

#[tactic(auto, using(crate::proofs::Spans::span_laws))]
impl<V: Copy> Lists<V> {
    /// Makes a set of no lists, with room for so many, of so many items together.
    pub fn with_capacity(alloc: Global, lists: usize, items: usize) -> Result<Lists<V>, NoMemory>
        ensures { IfOk result (λ lists. lists ≡ []) }
    {
        Ok(Lists {
            items: Vec::with_capacity(alloc, items)?,
            spans: Vec::with_capacity(alloc, lists)?,
        })
    }

    /// Adds a list with these items.
    pub fn push(&mut self, items: &[V]) -> Result<(), NoMemory>
        ensures ok { OnOk result (self.new ≡ self.old ++ items.now ∷ []) }
        ensures err { OnErr result (self.new ≡ self.old) }
    {
        let first = self.items.len();
        self.spans.reserve(1)?;
        self.items.extend_from_slice(items)?;
        self.spans.push_reserved((first, self.items.len()));
        Ok(())
    }
}
