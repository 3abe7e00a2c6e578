//! What the names of a script hold.

ghost use Rattle.std.specs.Prelude.{◌≡◌, ◌≤◌, ◌<◌, ◌+◌, ◌^◌, [], None, OnOk, IfOk, IfSome, IfNone};
ghost use Rattle.std.specs.Option.{option_copied};
ghost use Rattle.rt_model.specs.Causes.{ends_next};
ghost use Rattle.rt_model.specs.Lists.{find, without};
ghost use Rattle.rt_model.specs.Turns.{with_task};
ghost use Rattle.rt_world.specs.Seats.{numbers_of};

use crate::held::Held;
use rt_core::NoMemory;
use rt_world::Tasks;
use std::alloc::Global;
use std::marker::Model;
use std::mem;

/// What the names of a script hold, by their places. It is behind a pointer, which the first place makes, since most
/// scripts have no names.
pub struct Holdings {
    tasks: Option<Box<Tasks<Held>>>,
    alloc: Global,
}

impl Model for Holdings {
    ghost use Rattle.std.specs.Prelude.{◌≡◌, ℕ};
    ghost use Rattle.rt_world.specs.Seats.{Roomed};
    ghost use Rattle.rt_scripts.specs.Holdings.{roomed_in};
    ghost use Rattle.rt_scripts.specs.declared.held.Held.{Held};

    ghost Value = { Roomed (ℕ × Held) };

    ghost view = { λ h. roomed_in h.tasks };

    ghost invariant = { λ h. (roomed_in h.tasks).first ≡ 0 };
}

impl Holdings {
    /// Makes a list of no places.
    pub fn new(alloc: Global) -> Holdings
        ensures items { result.items ≡ [] }
        ensures first { result.first ≡ 0 }
        ensures next { result.next ≡ 0 }
    {
        Holdings { tasks: None, alloc }
    }

    /// Takes room for so many more places.
    pub fn reserve(&mut self, places: usize) -> Result<(), NoMemory>
        ensures items { self.new.items ≡ self.old.items }
        ensures first { self.new.first ≡ self.old.first }
        ensures next { self.new.next ≡ self.old.next }
        ensures room { OnOk result (places ≤ self.new.spare) }
    {
        if let Some(tasks) = &mut self.tasks {
            return tasks.reserve(places);
        }
        let mut tasks = no_places(self.alloc)?;
        let reserved = tasks.reserve(places);
        match mem::replace(&mut self.tasks, Some(tasks)) {
            None => reserved,
            Some(_) => unreachable!(),
        }
    }

    /// Passes the next place over.
    pub fn skip(&mut self)
        requires room { 0 < self.old.spare }
        requires number { self.old.next < 2 ^ 64 }
        ensures items { self.new.items ≡ self.old.items }
        ensures first { self.new.first ≡ self.old.first }
        ensures next { self.new.next ≡ self.old.next + 1 }
    {
        match &mut self.tasks {
            Some(tasks) => tasks.skip(),
            None => unreachable!(),
        }
    }

    /// Returns the next place. The greatest number is none.
    pub fn next(&self) -> Option<u64>
        ensures next { IfSome result (λ next. next ≡ self.now.next) }
        ensures none { IfNone result (self.now.next ≡ 2 ^ 64) }
    {
        match &self.tasks {
            Some(tasks) => tasks.next(),
            None => Some(0),
        }
    }

    /// Returns what a place holds, if anything.
    pub fn get(&self, place: u64) -> Option<&Held>
        ensures { option_copied result ≡ find place self.now.items }
    {
        match &self.tasks {
            Some(tasks) => tasks.get(place),
            None => None,
        }
    }

    /// Takes out what a place holds.
    pub fn take(&mut self, place: u64) -> Option<Held>
        ensures state { result ≡ find place self.old.items }
        ensures place { IfSome result (λ held. (self.old.first ≤ place) × (place < self.old.next)) }
        ensures items { self.new.items ≡ without place self.old.items }
        ensures gone { find place (without place self.old.items) ≡ None }
        ensures first { self.new.first ≡ self.old.first }
        ensures next { self.new.next ≡ self.old.next }
    {
        match &mut self.tasks {
            Some(tasks) => tasks.take(place),
            None => None,
        }
    }

    /// Puts this into a place that holds nothing.
    pub fn put(&mut self, place: u64, held: Held)
        requires next { place < self.old.next }
        requires out { find place self.old.items ≡ None }
        ensures items { self.new.items ≡ with_task place held self.old.items }
        ensures first { self.new.first ≡ self.old.first }
        ensures next { self.new.next ≡ self.old.next }
    {
        match &mut self.tasks {
            Some(tasks) => tasks.put(place, held),
            None => unreachable!(),
        }
    }

    /// Returns the first place that holds anything.
    pub fn ends_next(&mut self) -> Option<u64>
        ensures next { result ≡ ends_next (numbers_of self.old.items) None }
        ensures same { self.new ≡ self.old }
    {
        match &mut self.tasks {
            Some(tasks) => tasks.ends_next(None),
            None => None,
        }
    }

    /// Gives the memory back, where no place holds anything.
    pub fn destroy_empty(self)
        requires { self.items ≡ [] }
    {
        let Holdings { tasks, alloc: _ } = self;
        if let Some(tasks) = tasks {
            Box::into_inner(tasks).destroy_empty();
        }
    }
}

/// No place yet.
fn no_places(alloc: Global) -> Result<Box<Tasks<Held>>, NoMemory>
    ensures items { IfOk result (λ tasks. tasks.value.items ≡ []) }
    ensures first { IfOk result (λ tasks. tasks.value.first ≡ 0) }
    ensures next { IfOk result (λ tasks. tasks.value.next ≡ 0) }
{
    match Box::new(alloc, Tasks::new(alloc, 0)) {
        Ok(tasks) => Ok(tasks),
        Err(refused) => {
            refused.value.destroy_empty();
            Err(NoMemory)
        }
    }
}
