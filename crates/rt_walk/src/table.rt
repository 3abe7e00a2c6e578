//! What numbers have.

ghost use Rattle.std.specs.Prelude.{◌≡◌, ◌∷◌, ◌++◌, [], OnOk};
ghost use Rattle.std.specs.Option.{option_copied};
ghost use Rattle.rt_model.specs.Lists.{find, replaced, without};

use crate::places::Places;
use rt_base::NoMemory;
use std::alloc::Global;
use std::marker::Model;

/// Numbers, each with what it has, in the order in which they were added. Finding one takes one step.
#[derive(Drop)]
pub struct Table<V> {
    places: Places,
    values: Vec<Option<V>>,
}

impl<V> Model for Table<V> {
    ghost use Rattle.std.specs.Prelude.{List, ℕ, ◌≡◌, length};
    ghost use Rattle.rt_walk.specs.Places.{AreDistinct, kept};

    ghost Value = { List (ℕ × V) };

    ghost view = { λ t. kept t.places.numbers t.values.items };

    ghost invariant = { λ t. AreDistinct t.places.numbers × (length t.places.numbers ≡ length t.values.items) };
}

impl<V: Drop> Table<V> {
    /// Makes an empty table.
    pub fn new(alloc: Global) -> Self
        ensures { result ≡ [] }
    {
        Table {
            places: Places::new(alloc),
            values: Vec::new(alloc),
        }
    }

    /// Returns what a number has.
    #[tactic(auto, using(crate::proofs::Placed::find_laws))]
    pub fn find(&self, number: u64) -> Option<&V>
        ensures { option_copied result ≡ find number self.now }
    {
        match self.places.place(number) {
            Some(place) => self.values[place].as_ref(),
            None => None,
        }
    }

    /// Puts this in the place of what a number has. Where it has nothing, nothing changes.
    #[tactic(auto, using(crate::proofs::Placed::replace_laws))]
    pub fn replace(&mut self, number: u64, value: V)
        ensures { self.new ≡ replaced (λ _. value) number self.old }
    {
        if let Some(place) = self.places.place(number)
            && self.values[place].is_some()
        {
            self.values[place] = Some(value);
        }
    }

    /// Takes what a number has out.
    #[tactic(auto, using(crate::proofs::Placed::remove_laws))]
    pub fn remove(&mut self, number: u64)
        ensures { self.new ≡ without number self.old }
    {
        if let Some(place) = self.places.place(number)
            && self.values[place].is_some()
        {
            self.values[place] = None;
        }
    }

    /// Adds what a number has. It is refused with `NoMemory` also for a number that was added before.
    #[tactic(auto, using(crate::proofs::Placed::push_laws))]
    pub fn push(&mut self, number: u64, value: V) -> Result<(), NoMemory>
        ensures { OnOk result (self.new ≡ self.old ++ (number, value) ∷ []) }
    {
        if self.places.has(number) {
            return Err(NoMemory);
        }
        self.places.reserve(1)?;
        self.values.reserve(1)?;
        self.places.push(number);
        self.values.push_reserved(Some(value));
        Ok(())
    }
}

#[tactic(auto, using(crate::proofs::Placed::find_laws))]
impl<V: Copy> Table<V> {
    /// Returns a copy of what a number has.
    pub fn get(&self, number: u64) -> Option<V>
        ensures { result ≡ find number self.now }
    {
        match self.places.place(number) {
            Some(place) => self.values[place],
            None => None,
        }
    }
}
