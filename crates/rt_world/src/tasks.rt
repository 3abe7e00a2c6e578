//! The states of the tasks, in places by number.

ghost use Rattle.std.specs.Prelude.{◌≡◌, ◌≤◌, ◌<◌, ◌+◌, ◌^◌, [], None, OnOk, IfSome, IfNone, is_some};
ghost use Rattle.std.specs.Option.{option_copied};
ghost use Rattle.rt_model.specs.Causes.{ends_next};
ghost use Rattle.rt_model.specs.Lists.{find, without};
ghost use Rattle.rt_model.specs.Turns.{with_task};
ghost use Rattle.rt_world.specs.Seats.{numbers_of};

use rt_base::NoMemory;
use std::alloc::Global;
use std::marker::Model;
use std::mem;

/// Values in places by number, each of which is there or not. The one with the number `first + i` has place `i`, also
/// while it is out.
#[derive(Drop)]
pub struct Tasks<T> {
    first: u64,
    places: Vec<Option<T>>,
    // before this place no task is in but the last to end
    ended: usize,
    last: Option<u64>,
}

impl<T> Model for Tasks<T> {
    ghost use Rattle.std.specs.Prelude.{ℕ, ◌+◌, ◌-◌, vec_len, vec_capacity};
    ghost use Rattle.rt_world.specs.Seats.{Roomed, ArePlaced, seats_from};

    ghost Value = { Roomed (ℕ × T) };

    ghost view = { λ t. record { items = seats_from t.first t.places.items; first = t.first; next = t.first + vec_len t.places; spare = vec_capacity t.places - vec_len t.places } };

    ghost invariant = { λ t. ArePlaced t.first t.places.items t.ended t.last };
}

#[tactic(auto, using(crate::proofs::Places::place_laws))]
impl<T> Tasks<T> {
    /// Makes a list without values, whose first number is this one.
    pub fn new(alloc: Global, first: u64) -> Self
        ensures items { result.items ≡ [] }
        ensures first { result.first ≡ first }
        ensures next { result.next ≡ first }
    {
        Tasks {
            first,
            places: Vec::new(alloc),
            ended: 0,
            last: None,
        }
    }

    /// Takes room for so many more values, and changes none.
    pub fn reserve(&mut self, places: usize) -> Result<(), NoMemory>
        ensures items { self.new.items ≡ self.old.items }
        ensures first { self.new.first ≡ self.old.first }
        ensures next { self.new.next ≡ self.old.next }
        ensures room { OnOk result (places ≤ self.new.spare) }
        ensures kept { self.old.spare ≤ self.new.spare }
    {
        self.places.reserve(places)?;
        Ok(())
    }

    /// Puts a value at the next number.
    pub fn add(&mut self, state: T)
        requires room { 0 < self.old.spare }
        requires number { self.old.next < 2 ^ 64 }
        ensures items { self.new.items ≡ with_task self.old.next state self.old.items }
        ensures first { self.new.first ≡ self.old.first }
        ensures next { self.new.next ≡ self.old.next + 1 }
        ensures spare { self.new.spare + 1 ≡ self.old.spare }
    {
        self.places.push_reserved(Some(state));
    }

    /// Passes over the next number, which has no value.
    pub fn skip(&mut self)
        requires room { 0 < self.old.spare }
        requires number { self.old.next < 2 ^ 64 }
        ensures items { self.new.items ≡ self.old.items }
        ensures first { self.new.first ≡ self.old.first }
        ensures next { self.new.next ≡ self.old.next + 1 }
        ensures spare { self.new.spare + 1 ≡ self.old.spare }
    {
        self.places.push_reserved(None);
    }

    /// Returns the next number that gets a place, or `None` after the greatest one. The greatest number has none.
    pub fn next(&self) -> Option<u64>
        ensures next { IfSome result (λ next. next ≡ self.now.next) }
        ensures none { IfNone result (self.now.next ≡ 2 ^ 64) }
    {
        self.first.checked_add(self.places.len() as u64)
    }

    /// Returns whether the value of a number is there.
    pub fn has(&self, task: u64) -> bool
        ensures { result ≡ is_some (find task self.now.items) }
    {
        let Some(place) = task.checked_sub(self.first) else {
            return false;
        };
        matches!(self.places.get(place as usize), Some(Some(_)))
    }

    /// Returns the value of a number, if it is there.
    pub fn get(&self, task: u64) -> Option<&T>
        ensures { option_copied result ≡ find task self.now.items }
    {
        let place = task.checked_sub(self.first)?;
        self.places.get(place as usize)?.as_ref()
    }

    /// Takes the value of a number out, and returns it, if it is there.
    pub fn take(&mut self, task: u64) -> Option<T>
        ensures state { result ≡ find task self.old.items }
        ensures place { IfSome result (λ state. (self.old.first ≤ task) × (task < self.old.next)) }
        ensures items { self.new.items ≡ without task self.old.items }
        ensures gone { find task (without task self.old.items) ≡ None }
        ensures first { self.new.first ≡ self.old.first }
        ensures next { self.new.next ≡ self.old.next }
        ensures spare { self.new.spare ≡ self.old.spare }
    {
        let place = task.checked_sub(self.first)?;
        self.places.get_mut(place as usize)?.take()
    }

    /// Drops the value of a number, if it is there.
    pub fn remove(&mut self, task: u64)
    where
        T: Drop,
        ensures items { self.new.items ≡ without task self.old.items }
        ensures gone { find task (without task self.old.items) ≡ None }
        ensures first { self.new.first ≡ self.old.first }
        ensures next { self.new.next ≡ self.old.next }
        ensures spare { self.new.spare ≡ self.old.spare }
    {
        let _state = self.take(task);
    }

    /// Puts a value back into the place of its number.
    pub fn put(&mut self, task: u64, state: T)
        requires first { self.old.first ≤ task }
        requires next { task < self.old.next }
        requires out { find task self.old.items ≡ None }
        ensures items { self.new.items ≡ with_task task state self.old.items }
        ensures first { self.new.first ≡ self.old.first }
        ensures next { self.new.next ≡ self.old.next }
        ensures spare { self.new.spare ≡ self.old.spare }
    {
        let place = (task - self.first) as usize;
        match mem::replace(&mut self.places[place], Some(state)) {
            None => {}
            Some(_) => unreachable!(),
        }
        self.ended = self.ended.min(place);
    }

    /// Drops the value of a number, if it is there, and puts another in its place.
    pub fn replace(&mut self, task: u64, state: T)
    where
        T: Drop,
        requires first { self.old.first ≤ task }
        requires next { task < self.old.next }
        ensures items { self.new.items ≡ with_task task state (without task self.old.items) }
        ensures first { self.new.first ≡ self.old.first }
        ensures next { self.new.next ≡ self.old.next }
        ensures spare { self.new.spare ≡ self.old.spare }
    {
        self.remove(task);
        self.put(task, state);
    }

    /// Returns the first number whose value is there, the root's last: the task that a cleanup ends next.
    pub fn ends_next(&mut self, root: Option<u64>) -> Option<u64>
        ensures next { result ≡ ends_next (numbers_of self.old.items) root }
        ensures same { self.new ≡ self.old }
    {
        let mut place = if self.last == root { self.ended } else { 0 };
        while place < self.places.len()
            && (self.places[place].is_none() || root == Some(self.first + place as u64))
        {
            place += 1;
        }
        self.ended = place;
        self.last = root;
        if place < self.places.len() {
            return Some(self.first + place as u64);
        }
        match root {
            Some(task) if self.has(task) => root,
            _ => None,
        }
    }

    /// Gives the memory back, where no value is there.
    pub fn destroy_empty(self)
        requires { self.items ≡ [] }
    {
        let Tasks {
            first: _,
            mut places,
            ended: _,
            last: _,
        } = self;
        while let Some(place) = places.pop() {
            match place {
                None => {}
                Some(_) => unreachable!(),
            }
        }
        places.destroy_empty()
    }
}
