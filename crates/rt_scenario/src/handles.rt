// The names of what a script holds: of its handles and signals.
ghost use Rattle.std.specs.Prelude.{◌≡◌, ◌<◌, ◌≤◌, false, ℕ, List, [], Some, IfOk, OnOk, OnErr, length, map, slice_index_or};
ghost use Rattle.std.specs.List.{All, IsDistinct, list_any};
ghost use Rattle.std.specs.List.Sorted.{IsPermutation, IsStrictlySortedBy};
ghost use Rattle.std.specs.Str.{bytes_eq};
ghost use Rattle.rt_base.specs.Attributes.{text_cmp};
ghost use Rattle.rt_scenario.specs.Indexed.{in_order, numbered_from, with_name};
ghost use Rattle.rt_scenario.specs.Scripts.{place_of};

use crate::let_go::let_go;
use crate::short_name::{ShortName, short_name};
use indexmap::IndexSet;
use rt_base::NoMemory;
use std::alloc::Global;
use std::marker::Model;
use std::mem::size_of;

/// Names, each once, in the order of their first use.
#[derive(Drop)]
pub struct Handles {
    names: IndexSet<ShortName>,
}

impl Model for Handles {
    ghost use Rattle.std.specs.Prelude.{ℕ, List};

    ghost Value = { List (List ℕ) };

    ghost view = { λ h. h.names.keys };
}

impl Handles {
    /// Makes a list of no names.
    pub fn new(alloc: Global) -> Handles
        ensures { result ≡ [] }
    {
        Handles {
            names: IndexSet::new(alloc),
        }
    }

    /// Returns the index of this name, which is put after the others if it is new. A name that is there takes no
    /// memory.
    pub fn index_of(&mut self, name: &str) -> Result<usize, NoMemory>
        requires { length name.now ≤ 32 }
        ensures names { OnOk result (self.new ≡ with_name self.old (Some name.now)) }
        ensures index { IfOk result (λ index. slice_index_or self.new index [] ≡ name.now) }
        ensures within { IfOk result (λ index. index < length self.new) }
        ensures refused { OnErr result (self.new ≡ self.old) }
        ensures absent { OnErr result (list_any (bytes_eq name.now) self.old ≡ false) }
    {
        let (index, _) = self.names.insert_full(short_name(name))?;
        Ok(index)
    }

    /// Returns the names in byte order, and the place there of each.
    pub fn in_order(self) -> Result<(Vec<ShortName>, Vec<usize>), NoMemory>
        ensures names { IfOk result (λ both. both.0.items ≡ in_order self) }
        ensures places { IfOk result (λ both. both.1.items ≡ map (place_of (in_order self)) self) }
    {
        let alloc = *self.names.allocator();
        if self.names.is_empty() {
            return Ok((Vec::new(alloc), Vec::new(alloc)));
        }
        let mut numbered = self.numbered()?;
        numbered.sort_unstable();
        let both = apart(alloc, numbered.as_slice())?;
        let room = numbered.capacity();
        let_go(numbered, room, size_of::<(ShortName, usize)>());
        let room = self.names.capacity();
        let_go(self, room, size_of::<ShortName>());
        Ok(both)
    }

    /// Returns the names with their indices.
    fn numbered(&self) -> Result<Vec<(ShortName, usize)>, NoMemory>
        ensures names { IfOk result (λ numbered. numbered.items ≡ numbered_from 0 self.now) }
        ensures distinct { IfOk result (λ _. IsDistinct bytes_eq self.now) }
    {
        let names = self.names.as_slice();
        let mut numbered = Vec::with_capacity(*self.names.allocator(), names.len())?;
        for name in names {
            numbered.push((name.copy(), numbered.len()))?;
        }
        Ok(numbered)
    }
}

/// Returns the names, and the place of each by its index.
fn apart(
    alloc: Global,
    numbered: &[(ShortName, usize)],
) -> Result<(Vec<ShortName>, Vec<usize>), NoMemory>
    requires sorted { IsStrictlySortedBy text_cmp (map (λ p. p.0) numbered.now) }
    requires within { All (λ p. p.1 < length numbered.now) numbered.now }
    ensures names { IfOk result (λ both. both.0.items ≡ map (λ p. p.0) numbered.now) }
    ensures places { IfOk result (λ both. (names : List (List ℕ)) → IsPermutation (numbered_from 0 names) numbered.now → both.1.items ≡ map (place_of (map (λ p. p.0) numbered.now)) names) }
{
    let mut places = vec![in alloc; 0usize; numbered.len()]?;
    let mut names = Vec::with_capacity(alloc, numbered.len())?;
    for pair in numbered {
        places[pair.1] = names.len();
        names.push(pair.0.copy())?;
    }
    Ok((names, places))
}
