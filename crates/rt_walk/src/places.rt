//! Numbers in the order in which they came, each found in one step.

ghost use Rattle.std.specs.Prelude.{◌≡◌, ◌≤◌, ◌<◌, ◌+◌, ◌∷◌, ◌++◌, [], OnOk, length};
ghost use Rattle.rt_model.specs.Lists.{has_number};
ghost use Rattle.rt_walk.specs.Places.{first_place};

use rt_base::NoMemory;
use std::alloc::Global;
use std::collections::HashMap;
use std::marker::Model;

/// Numbers in the order in which they came, and where each came first.
#[derive(Drop)]
pub struct Places {
    numbers: Vec<u64>,
    places: HashMap<u64, usize>,
}

impl Model for Places {
    ghost use Rattle.std.specs.Prelude.{◌-◌, nat_eq, vec_len, vec_capacity};
    ghost use Rattle.std.specs.HashMap.{get, spare};
    ghost use Rattle.rt_walk.specs.Places.{Placed, ArePlaced};

    ghost Value = { Placed };

    ghost view = { λ p. record { numbers = p.numbers.items; room = vec_capacity p.numbers - vec_len p.numbers; spare = spare p.places } };

    ghost invariant = { λ p. ArePlaced (get nat_eq p.places) p.numbers.items };
}

#[tactic(auto, using(crate::proofs::Placed::place_laws))]
impl Places {
    /// Makes an empty list of numbers.
    pub fn new(alloc: Global) -> Places
        ensures { result.numbers ≡ [] }
    {
        Places {
            numbers: Vec::new(alloc),
            places: HashMap::new(alloc),
        }
    }

    /// Returns where a number came first, if it did.
    pub fn place(&self, number: u64) -> Option<usize>
        ensures { result ≡ first_place number self.now.numbers }
    {
        self.places.get(&number).copied()
    }

    /// Returns whether a number came.
    pub fn has(&self, number: u64) -> bool
        ensures { result ≡ has_number number self.now.numbers }
    {
        self.place(number).is_some()
    }

    /// Takes room for so many more.
    pub fn reserve(&mut self, numbers: usize) -> Result<(), NoMemory>
        ensures numbers { self.new.numbers ≡ self.old.numbers }
        ensures room { OnOk result (numbers ≤ self.new.room) }
        ensures spare { OnOk result (numbers ≤ self.new.spare) }
    {
        self.numbers.reserve(numbers)?;
        self.places.reserve(numbers)?;
        Ok(())
    }

    /// Adds a number, for which there is room.
    pub fn push(&mut self, number: u64)
        requires room { 0 < self.old.room }
        requires spare { 0 < self.old.spare }
        ensures numbers { self.new.numbers ≡ self.old.numbers ++ number ∷ [] }
        ensures room { self.old.room ≤ self.new.room + 1 }
        ensures spare { self.old.spare ≤ self.new.spare + 1 }
    {
        if self.has(number) {
            self.numbers.push_reserved(number);
            return;
        }
        match self.places.insert(number, self.numbers.len()) {
            Ok(_) => {}
            Err(_) => unreachable!(),
        }
        self.numbers.push_reserved(number);
    }

    /// Adds these numbers, one after another.
    pub fn push_all(&mut self, numbers: &[u64])
        requires room { length numbers.now ≤ self.old.room }
        requires spare { length numbers.now ≤ self.old.spare }
        ensures { self.new.numbers ≡ self.old.numbers ++ numbers.now }
    {
        let mut rest = numbers;
        while let Some((number, tail)) = rest.split_first() {
            self.push(*number);
            rest = tail;
        }
    }
}
