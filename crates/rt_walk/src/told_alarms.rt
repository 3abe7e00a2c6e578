//! The alarms that a journal tells.

ghost use Rattle.std.specs.Prelude.{◌≡◌, ◌⊎◌, ◌↔◌, OnOk, IsTrue, drop, true};
ghost use Rattle.rt_super.specs.Alarms.{no_alarms, alarms_cleared};
ghost use Rattle.rt_model.specs.Alarms.{ahead, fires, is_set, slept, woken_by};
ghost use Rattle.rt_model.specs.Lists.{is_nil, those};

use rt_base::{Nanos, NoMemory};
use rt_super::{Alarms, NOBODY};
use std::alloc::Global;
use std::marker::Model;

/// The alarms that are set, with a journal's reading of them.
#[derive(Drop)]
pub struct ToldAlarms {
    set: Alarms,
}

impl Model for ToldAlarms {
    ghost use Rattle.std.specs.Prelude.{◌≡◌};
    ghost use Rattle.rt_super.specs.Alarms.{AlarmList};

    ghost Value = { AlarmList };

    ghost view = { λ a. a.set };
}

impl ToldAlarms {
    /// Makes a record of no alarms.
    pub fn new(alloc: Global) -> ToldAlarms
        ensures { result ≡ no_alarms }
    {
        ToldAlarms {
            set: Alarms::new(alloc),
        }
    }

    /// Returns whether no alarm is set.
    pub fn is_empty(&self) -> bool
        ensures { result ≡ is_nil self.now.alarms }
    {
        self.set.is_empty()
    }

    /// Returns the number of the alarm that goes off now.
    pub fn fires(&self, time: Nanos) -> Option<u64>
        ensures { result ≡ fires self.now.alarms time }
    {
        self.set.due(time)
    }

    /// Returns the due time of the earliest alarm, where it lies ahead.
    pub fn ahead(&self, time: Nanos) -> Option<Nanos>
        ensures { result ≡ ahead self.now.alarms time }
    {
        let due = self.set.earliest()?;
        if time < due { Some(due) } else { None }
    }

    /// Returns whether a sleep may receive this number: the next, or that of its own alarm.
    pub fn may_tell(&self, due: Nanos, number: u64) -> bool
        ensures { IsTrue result ↔ ((number ≡ self.now.count) ⊎ (is_set self.now.alarms due number ≡ true)) }
    {
        number == self.set.count() || self.set.due_of(number) == Some(due)
    }

    /// Takes in that a sleep received this number: that of a new alarm, or of its own. It is refused with `NoMemory`
    /// also where no number is left for a further alarm, and for `NOBODY`, which means no task in the alarms.
    pub fn sleep(&mut self, by: Option<u64>, due: Nanos, number: u64) -> Result<(), NoMemory>
        ensures { OnOk result (self.new ≡ slept self.old by due number) }
    {
        if by == Some(NOBODY) {
            return Err(NoMemory);
        }
        let task = by.unwrap_or(NOBODY);
        if number == self.set.count() {
            self.set.set(due, task)?;
        } else {
            self.set.rewake(number, task);
        }
        Ok(())
    }

    /// Takes the earliest alarm out. Answers whom it wakes.
    pub fn pop(&mut self) -> Option<u64>
        ensures task { those result ≡ woken_by self.old.alarms }
        ensures alarms { self.new ≡ record { alarms = drop 1 self.old.alarms; count = self.old.count } }
    {
        let due = self.set.earliest()?;
        let (_, task) = self.set.pop_due(due)?;
        if task == NOBODY { None } else { Some(task) }
    }

    /// Takes all alarms out.
    pub fn clear(&mut self)
        ensures { self.new ≡ alarms_cleared self.old }
    {
        self.set.clear();
    }
}
