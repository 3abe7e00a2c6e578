//! The tasks that run.

ghost use Rattle.std.specs.Prelude.{◌≡◌, ◌≤◌, ◌<◌, ℕ, [], OnOk, drop, get_or, length, take};
ghost use Rattle.rt_model.specs.Lists.{has_number, is_nil, those, with_number, without_number};
ghost use Rattle.rt_model.specs.Causes.{from_running, ends_next};

use rt_base::NoMemory;
use std::alloc::Global;
use std::marker::Model;

/// The numbers of the tasks that run, in their order. Finding one takes as many steps as their count has binary digits.
#[derive(Drop)]
pub struct Running {
    numbers: Vec<u64>,
}

impl Model for Running {
    ghost use Rattle.std.specs.Prelude.{List, ℕ};
    ghost use Rattle.rt_walk.specs.Rising.{AreRising};

    ghost Value = { List ℕ };

    ghost view = { λ r. r.numbers.items };

    ghost invariant = { λ r. AreRising r.numbers.items };
}

impl Running {
    /// Makes a list of no tasks.
    pub fn new(alloc: Global) -> Running
        ensures { result ≡ [] }
    {
        Running {
            numbers: Vec::new(alloc),
        }
    }

    /// Returns whether no task runs.
    pub fn is_empty(&self) -> bool
        ensures { result ≡ is_nil self.now }
    {
        self.numbers.is_empty()
    }

    /// Returns whether this task runs.
    pub fn has(&self, task: u64) -> bool
        ensures { result ≡ has_number task self.now }
    {
        self.numbers.binary_search(&task).is_ok()
    }

    /// The place of a number after those that aren't above it. Mostly that is the end.
    fn place_of(&self, task: u64) -> usize
        ensures within { result ≤ length self.now }
        ensures low { (j : ℕ) → j < result → get_or self.now j 0 ≤ task }
        ensures high { (j : ℕ) → result ≤ j → j < length self.now → task < get_or self.now j 0 }
    {
        let mut place = self.numbers.len();
        while place > 0 && task < self.numbers[place - 1] {
            place -= 1;
        }
        place
    }

    /// Adds a task, which runs from now on.
    pub fn add(&mut self, task: u64) -> Result<(), NoMemory>
        ensures { OnOk result (self.new ≡ with_number task self.old) }
    {
        self.numbers.reserve(1)?;
        let place = self.place_of(task);
        match self.numbers.insert(place, task) {
            Ok(()) => {}
            Err(_) => unreachable!(),
        }
        Ok(())
    }

    /// Takes out a task, which no longer runs.
    pub fn remove(&mut self, task: u64)
        ensures { self.new ≡ without_number task self.old }
    {
        match self.numbers.binary_search(&task) {
            Ok(place) => {
                self.numbers.remove(place);
            }
            Err(_) => {}
        }
    }

    /// Returns the task that a cleanup ends next: the first, the root last.
    pub fn ends_next(&self, root: Option<u64>) -> Option<u64>
        ensures { result ≡ ends_next self.now root }
    {
        let mut last = None;
        let mut rest = self.numbers.as_slice();
        while let Some((first, tail)) = rest.split_first() {
            if root != Some(*first) {
                return Some(*first);
            }
            last = Some(*first);
            rest = tail;
        }
        last
    }

    /// Returns how many numbers of a round come before the first that runs.
    pub fn idle_front(&self, left: &[u64]) -> usize
        ensures within { result ≤ length left.now }
        ensures rest { drop result left.now ≡ from_running self.now left.now }
    {
        let mut index = 0;
        while index < left.len() && !self.has(left[index]) {
            index += 1;
        }
        index
    }

    /// Returns the first number of a round that runs.
    #[tactic(auto, using(crate::proofs::Members::number_laws))]
    pub fn first_of(&self, left: &[u64]) -> Option<u64>
        ensures { those result ≡ take 1 (from_running self.now left.now) }
    {
        let index = self.idle_front(left);
        if index < left.len() {
            Some(left[index])
        } else {
            None
        }
    }
}
