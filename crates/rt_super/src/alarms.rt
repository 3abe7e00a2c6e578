// When sleepers wake.
ghost use Rattle.std.specs.Prelude.{◌≡◌, ◌<◌, ◌-◌, ◌^◌, length, option_map, IfOk, OnOk, OnErr, ◌==◌};
ghost use Rattle.rt_super.specs.Wakers.{waker_of, named_of};
ghost use Rattle.rt_super.specs.Alarms.{no_alarms, alarm_set, alarm_rewoken, due_at, first_due, due_first, alarm_popped, woken_of, alarms_cleared, AreSet};

mod queue;

use queue::Queue;
use rt_base::{Nanos, NoMemory};
use std::alloc::Global;
use std::marker::Model;

/// The alarms that are set, by due time and number. Each has a due time in nanoseconds, a number, and the task that it
/// wakes, if it wakes one: `NOBODY` in its place means none. Alarms are numbered from 0 in the order of `set`.
///
/// Only `set` takes memory: 16 bytes of it stay for each alarm that was ever set.
#[derive(Drop)]
pub struct Alarms {
    /// Whom each alarm wakes, by due time and number.
    tasks: Queue,
    /// When each alarm that was ever set is or was due, by number.
    dues: Vec<Nanos>,
}

impl Model for Alarms {
    ghost use Rattle.rt_super.specs.Alarms.{AlarmList};

    ghost Value = { AlarmList };

    ghost use Rattle.rt_super.specs.AlarmsInside.{list_of, IsWhole};

    ghost view = { list_of };

    ghost invariant = { IsWhole };
}

impl Alarms {
    /// Makes a set of no alarms.
    pub fn new(alloc: Global) -> Self
        ensures { result ≡ no_alarms }
    {
        Alarms {
            tasks: Queue::new(alloc),
            dues: Vec::new(alloc),
        }
    }

    /// Sets an alarm that is due at a moment and wakes a task, and returns its number.
    ///
    /// Error: `NoMemory`, also where no number below `u64::MAX` is left. Nothing has changed after it.
    pub fn set(&mut self, due: Nanos, task: u64) -> Result<u64, NoMemory>
        ensures number { IfOk result (λ alarm. alarm ≡ self.old.count) }
        ensures given { IfOk result (λ alarm. alarm < 2 ^ 64 - 1) }
        ensures added { OnOk result (self.new ≡ alarm_set self.old due (waker_of task)) }
        ensures refused { OnErr result (self.new ≡ self.old) }
    {
        let number = self.dues.len() as u64;
        self.dues.reserve(1)?;
        self.tasks.insert((due, number), task)?;
        self.dues.push_reserved(due);
        Ok(number)
    }

    /// Makes a live alarm wake another task, or nobody. It does nothing where no live alarm has the number.
    pub fn rewake(&mut self, alarm: u64, task: u64)
        ensures { self.new ≡ alarm_rewoken self.old alarm (waker_of task) }
    {
        let Some(due) = self.due_of(alarm) else {
            return;
        };
        self.tasks.rewake((due, alarm), task);
    }

    /// Returns when the first alarm by due time and number is due, in nanoseconds.
    pub fn earliest(&self) -> Option<Nanos>
        ensures first { result ≡ first_due self.now.alarms }
        ensures set { AreSet self.now }
    {
        let (key, _) = self.tasks.first()?;
        Some(key.0)
    }

    /// Returns the number of the first alarm by due time and number, if it is due.
    pub fn due(&self, now: Nanos) -> Option<u64>
        ensures first { result ≡ option_map (λ a. a.number) (due_first self.now.alarms now) }
        ensures set { AreSet self.now }
    {
        let (key, _) = self.tasks.first()?;
        if key.0 <= now { Some(key.1) } else { None }
    }

    /// Takes the first alarm by due time and number out, if it is due, and returns its number and its task.
    pub fn pop_due(&mut self, now: Nanos) -> Option<(u64, u64)>
        ensures first { option_map named_of result ≡ option_map woken_of (due_first self.old.alarms now) }
        ensures popped { self.new ≡ alarm_popped self.old now }
        ensures set { AreSet self.old }
    {
        if self.earliest()? > now {
            return None;
        }
        let ((_, number), task) = self.tasks.pop()?;
        Some((number, task))
    }

    /// Takes all alarms out. The numbers go on where they were.
    pub fn clear(&mut self)
        ensures { self.new ≡ alarms_cleared self.old }
    {
        self.tasks.clear();
    }

    /// Returns how many alarms were ever set, which is the number of the next.
    pub fn count(&self) -> u64
        ensures { result ≡ self.now.count }
    {
        self.dues.len() as u64
    }

    /// Returns how many alarms are set.
    pub fn len(&self) -> usize
        ensures count { result ≡ length self.now.alarms }
        ensures set { AreSet self.now }
    {
        self.tasks.len()
    }

    /// Returns whether no alarm is set.
    pub fn is_empty(&self) -> bool
        ensures { result ≡ (length self.now.alarms == 0) }
    {
        self.tasks.is_empty()
    }

    /// Returns when the live alarm of this number is due, in nanoseconds.
    pub fn due_of(&self, alarm: u64) -> Option<Nanos>
        ensures due { result ≡ due_at self.now.alarms alarm }
        ensures set { AreSet self.now }
    {
        let due = *self.dues.get(alarm as usize)?;
        if self.tasks.contains((due, alarm)) {
            Some(due)
        } else {
            None
        }
    }
}
