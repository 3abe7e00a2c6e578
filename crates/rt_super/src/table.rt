//! What tasks have, by their numbers.

ghost use Rattle.std.specs.Prelude.{◌≡◌, ◌≤◌, ◌<◌, ◌+◌, ◌^◌, ◌↔◌, ◌∷◌, ◌++◌, [], ℕ, None, length, OnOk, IfSome};
ghost use Rattle.rt_super.specs.Rows.{find, without, replaced, AreRising};

use rt_base::NoMemory;
use std::alloc::Global;
use std::marker::Model;

/// What some of the tasks have, by their numbers, which go up from a first one. Finding it takes one step.
#[derive(Drop)]
pub struct Table<V> {
    first: u64,
    places: Vec<Option<V>>,
}

impl<V> Model for Table<V> {
    ghost use Rattle.std.specs.Prelude.{◌-◌, ◌+◌, vec_len, vec_capacity};
    ghost use Rattle.rt_super.specs.Rows.{Rows, rows};

    ghost Value = { Rows V };

    ghost view = { λ t. record { items = rows t.first t.places.items; next = t.first + vec_len t.places; spare = vec_capacity t.places - vec_len t.places } };
}

#[tactic(auto, using(crate::proofs::Rows::row_laws))]
impl<V: Copy> Table<V> {
    /// Makes a table in which no number has anything, whose first number is this.
    pub fn new(alloc: Global, first: u64) -> Self
        ensures items { result.items ≡ [] }
        ensures next { result.next ≡ first }
    {
        Table {
            first,
            places: Vec::new(alloc),
        }
    }

    /// Takes room for this many further numbers.
    pub fn reserve(&mut self, places: usize) -> Result<(), NoMemory>
        ensures items { self.new.items ≡ self.old.items }
        ensures next { self.new.next ≡ self.old.next }
        ensures room { OnOk result (places ≤ self.new.spare) }
        ensures kept { self.old.spare ≤ self.new.spare }
    {
        self.places.reserve(places)?;
        Ok(())
    }

    /// States by its clauses that no number from the next one on has anything, and that those that have something are
    /// in order.
    pub fn facts(&self)
        ensures none { (task : ℕ) → self.now.next ≤ task → find task self.now.items ≡ None }
        ensures rising { AreRising self.now.items }
        ensures few { length self.now.items ≤ self.now.next }
    {
        let _ = &self.places;
    }

    /// Returns the next number, where it fits into 64 bits.
    pub fn next(&self) -> Option<u64>
        ensures number { IfSome result (λ next. next ≡ self.now.next) }
        ensures past { (result ≡ None) ↔ (2 ^ 64 ≤ self.now.next) }
    {
        self.first.checked_add(self.places.len() as u64)
    }

    /// Returns what a number has, if it has something.
    pub fn get(&self, task: u64) -> Option<V>
        ensures { result ≡ find task self.now.items }
    {
        if task < self.first {
            return None;
        }
        match self.places.get((task - self.first) as usize) {
            Some(place) => *place,
            None => None,
        }
    }

    /// Puts this in the place of what a number has. It does nothing where the number has nothing.
    pub fn set(&mut self, task: u64, value: V)
        ensures items { self.new.items ≡ replaced (λ old. value) task self.old.items }
        ensures next { self.new.next ≡ self.old.next }
        ensures spare { self.new.spare ≡ self.old.spare }
    {
        if self.get(task).is_none() {
            return;
        }
        let place = (task - self.first) as usize;
        self.places[place] = Some(value);
    }

    /// Takes out what a number has.
    pub fn remove(&mut self, task: u64)
        ensures items { self.new.items ≡ without task self.old.items }
        ensures gone { find task self.new.items ≡ None }
        ensures next { self.new.next ≡ self.old.next }
        ensures spare { self.new.spare ≡ self.old.spare }
    {
        if self.get(task).is_none() {
            return;
        }
        let place = (task - self.first) as usize;
        self.places[place] = None;
    }

    /// Gives the next number this, in one of the spare places. It takes no memory.
    pub fn push(&mut self, value: V)
        requires { 0 < self.old.spare }
        ensures items { self.new.items ≡ self.old.items ++ (self.old.next, value) ∷ [] }
        ensures next { self.new.next ≡ self.old.next + 1 }
        ensures spare { self.new.spare + 1 ≡ self.old.spare }
    {
        self.places.push_reserved(Some(value));
    }

    /// Skips the next number, which has nothing then, and uses one of the spare places. It takes no memory.
    pub fn skip(&mut self)
        requires { 0 < self.old.spare }
        ensures items { self.new.items ≡ self.old.items }
        ensures next { self.new.next ≡ self.old.next + 1 }
        ensures spare { self.new.spare + 1 ≡ self.old.spare }
    {
        self.places.push_reserved(None);
    }
}
