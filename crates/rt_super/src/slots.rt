// One-time results, each with a number.
ghost use Rattle.std.specs.Prelude.{◌≡◌, ◌++◌, ◌∷◌, [], length, slice_get, IfOk, OnErr, IsTrue};
ghost use Rattle.rt_super.specs.Wakers.{waker_of};
ghost use Rattle.rt_super.specs.Slots.{waiting_of, is_held, is_aborted, changed_at, with_value, without_value, with_abort, poll_answer, after_poll};

use crate::slot_state::SlotState;
use crate::waker::waker;
use rt_base::{NoMemory, Poll};
use std::alloc::Global;
use std::marker::Model;

/// Places for results that come once. A slot has two sides: one gives the value or closes, and one polls until it gives
/// up. An abort drops the value, whichever side asks for it. Slots are numbered from 0 in the order of `add`.
///
/// Only `add` takes memory.
#[derive(Drop)]
pub struct Slots<V> {
    states: Vec<SlotState<V>>,
}

impl<V> Model for Slots<V> {
    ghost use Rattle.std.specs.Prelude.{List};
    ghost use Rattle.rt_super.specs.declared.slot_state.SlotState.{SlotState};

    ghost Value = { List (SlotState V) };

    ghost view = { λ s. s.states.items };
}

impl<V> Slots<V> {
    /// Makes a set of no slots.
    pub fn new(alloc: Global) -> Self
        ensures { result ≡ [] }
    {
        Slots {
            states: Vec::new(alloc),
        }
    }

    /// Adds an open slot and returns its number, which is the next. Nothing has changed after `NoMemory`.
    pub fn add(&mut self) -> Result<u64, NoMemory>
        ensures number { IfOk result (λ slot. slot ≡ length self.old) }
        ensures added { IfOk result (λ slot. self.new ≡ self.old ++ SlotState.Open None ∷ []) }
        ensures refused { OnErr result (self.new ≡ self.old) }
    {
        let slot = self.states.len() as u64;
        self.states.reserve(1)?;
        self.states.push_reserved(SlotState::Open(None));
        Ok(slot)
    }

    /// Returns whether the slot was added and not given up.
    pub fn holds(&self, slot: u64) -> bool
        ensures { result ≡ is_held (slice_get self.now slot) }
    {
        match self.states.get(slot as usize) {
            None | Some(SlotState::GivenUp) => false,
            Some(_) => true,
        }
    }

    /// Returns whether an abort of the slot was asked for, and it wasn't given up since.
    pub fn is_aborted(&self, slot: u64) -> bool
        ensures { result ≡ is_aborted (slice_get self.now slot) }
    {
        match self.states.get(slot as usize) {
            Some(SlotState::Aborted) => true,
            _ => false,
        }
    }

    /// Closes an open slot, so that no value comes any more, and returns the task that waits for it. Any other slot
    /// stays as it is.
    pub fn close(&mut self, slot: u64) -> Option<u64>
        ensures waiting { result ≡ waiting_of (slice_get self.old slot) }
        ensures closed { self.new ≡ changed_at self.old slot without_value }
    {
        if slot < self.states.len() as u64 {
            self.states[slot as usize].close()
        } else {
            None
        }
    }

    /// Takes the value of a slot, in the name of a task, which waits where neither a value nor the closing came yet, in
    /// the place of who waited before. `NOBODY` asks in nobody's name, and then nobody waits. A value is given once;
    /// after it, after the closing and after an abort, the result is `None`.
    pub fn poll(&mut self, slot: u64, task: u64) -> Poll<Option<V>>
        requires held { IsTrue (is_held (slice_get self.old slot)) }
        ensures answer { result ≡ poll_answer (slice_get self.old slot) }
        ensures after { self.new ≡ changed_at self.old slot (after_poll (waker_of task)) }
    {
        self.states[slot as usize].poll(waker(task))
    }
}

impl<V: Drop> Slots<V> {
    /// Gives an open slot its value, and returns the task that waits for it. Any other slot stays as it is, and the
    /// value is dropped, so `V` is `Drop`.
    pub fn put(&mut self, slot: u64, value: V) -> Option<u64>
        ensures waiting { result ≡ waiting_of (slice_get self.old slot) }
        ensures given { self.new ≡ changed_at self.old slot (with_value value) }
    {
        if slot < self.states.len() as u64 {
            self.states[slot as usize].put(value)
        } else {
            None
        }
    }

    /// Aborts a slot, whatever came, unless it was given up, and returns the task that waits for it. A value in it is
    /// dropped, so `V` is `Drop`.
    pub fn abort(&mut self, slot: u64) -> Option<u64>
        ensures waiting { result ≡ waiting_of (slice_get self.old slot) }
        ensures aborted { self.new ≡ changed_at self.old slot with_abort }
    {
        if slot < self.states.len() as u64 {
            self.states[slot as usize].abort()
        } else {
            None
        }
    }

    /// Gives a slot up: nobody polls it any more. A value in it is dropped, so `V` is `Drop`.
    pub fn give_up(&mut self, slot: u64)
        ensures { self.new ≡ changed_at self.old slot (λ _. SlotState.GivenUp) }
    {
        if slot < self.states.len() as u64 {
            self.states[slot as usize] = SlotState::GivenUp;
        }
    }
}
