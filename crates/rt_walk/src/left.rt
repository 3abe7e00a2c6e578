//! The numbers that are left of a round, or that are to be woken.

ghost use Rattle.std.specs.Prelude.{◌≡◌, [], IfOk, drop, take};
ghost use Rattle.rt_model.specs.Lists.{those};
ghost use Rattle.rt_model.specs.Causes.{from_running};

use crate::running::Running;
use rt_base::NoMemory;
use std::alloc::Global;
use std::marker::Model;

/// Numbers of which the front is passed over without moving the others.
#[derive(Drop)]
pub struct Left {
    numbers: Vec<u64>,
    passed: usize,
}

impl Model for Left {
    ghost use Rattle.std.specs.Prelude.{List, ℕ, drop, vec_len, ◌≤◌};

    ghost Value = { List ℕ };

    ghost view = { λ l. drop l.passed l.numbers.items };

    ghost invariant = { λ l. l.passed ≤ vec_len l.numbers };
}

impl Left {
    /// Makes an empty list of numbers.
    pub fn new(alloc: Global) -> Left
        ensures { result ≡ [] }
    {
        Left {
            numbers: Vec::new(alloc),
            passed: 0,
        }
    }

    /// Makes a list of all numbers of a round.
    pub fn of(alloc: Global, order: &[u64]) -> Result<Left, NoMemory>
        ensures { IfOk result (λ left. left ≡ order.now) }
    {
        Ok(Left {
            numbers: order.to_vec(alloc)?,
            passed: 0,
        })
    }

    /// Makes a list of these numbers.
    pub fn from_vec(numbers: Vec<u64>) -> Left
        ensures { result ≡ numbers.items }
    {
        Left { numbers, passed: 0 }
    }

    /// Makes a list of one number, or of none.
    pub fn of_one(alloc: Global, number: Option<u64>) -> Result<Left, NoMemory>
        ensures { IfOk result (λ left. left ≡ those number) }
    {
        let mut numbers = Vec::new(alloc);
        if let Some(number) = number {
            numbers.push(number)?;
        }
        Ok(Left::from_vec(numbers))
    }

    /// Returns the first number.
    #[tactic(auto, using(crate::proofs::Members::number_laws))]
    pub fn first(&self) -> Option<u64>
        ensures { those result ≡ take 1 self.now }
    {
        self.as_slice().first().copied()
    }

    /// Passes over the first number.
    #[tactic(auto, using(crate::proofs::Members::number_laws))]
    pub fn pass_first(&mut self)
        ensures { self.new ≡ drop 1 self.old }
    {
        if self.passed < self.numbers.len() {
            self.passed += 1;
        }
    }

    /// Returns the numbers, borrowed.
    pub fn as_slice(&self) -> &[u64]
        ensures { result.now ≡ self.now }
    {
        &self.numbers.as_slice()[self.passed..]
    }

    /// Passes over the numbers that don't run, and over the first that does.
    #[tactic(auto, using(crate::proofs::Members::number_laws))]
    pub fn pass(&mut self, running: &Running)
        ensures { self.new ≡ drop 1 (from_running running.now self.old) }
    {
        let idle = running.idle_front(self.as_slice());
        self.passed += idle;
        if self.passed < self.numbers.len() {
            self.passed += 1;
        }
    }
}
