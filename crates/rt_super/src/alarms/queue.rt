// Alarms by due time and number, the first of them outside of the map.
ghost use Rattle.std.specs.Prelude.{◌≡◌, ◌∷◌, ◌==◌, [], length, slice_get, is_some, IfSome, IfNone, OnOk, OnErr};
ghost use Rattle.std.specs.BTreeMap.{insert_entry, is_at};
ghost use Rattle.std.specs.List.Sorted.{IsStrictlySortedBy};
ghost use Rattle.std.specs.Map.{keys_of, lookup, set_value};
ghost use Rattle.rt_super.specs.AlarmQueue.{key_cmp};

use rt_base::{Nanos, NoMemory};
use std::alloc::Global;
use std::cmp::Ordering;
use std::collections::BTreeMap;
use std::marker::Model;

/// Whom each alarm wakes, by due time and number.
///
/// The first is kept beside the map of the later ones, so that an alarm that is alone, as that of a sleep mostly is,
/// comes and goes without the map.
#[derive(Drop)]
pub struct Queue {
    first: Option<((Nanos, u64), u64)>,
    later: BTreeMap<(Nanos, u64), u64>,
}

impl Model for Queue {
    ghost use Rattle.std.specs.Prelude.{◌≡◌, ℕ, List, [], None};
    ghost use Rattle.std.specs.List.Sorted.{IsStrictlySortedBy};
    ghost use Rattle.std.specs.Map.{keys_of};
    ghost use Rattle.rt_super.specs.AlarmQueue.{key_cmp, queued};

    ghost Value = { List ((ℕ × ℕ) × ℕ) };

    ghost view = { λ q. queued q.first q.later.entries };

    ghost invariant = { λ q. IsStrictlySortedBy key_cmp (keys_of (queued q.first q.later.entries)) × (q.first ≡ None → q.later.entries ≡ []) };
}

impl Queue {
    /// Makes a queue of no alarms.
    pub fn new(alloc: Global) -> Self
        ensures { result ≡ [] }
    {
        Queue {
            first: None,
            later: BTreeMap::new(alloc),
        }
    }

    /// Puts an alarm in its place.
    pub fn insert(&mut self, key: (Nanos, u64), task: u64) -> Result<(), NoMemory>
        ensures entries { OnOk result (self.new ≡ insert_entry key_cmp self.old key task) }
        ensures refused { OnErr result (self.new ≡ self.old) }
        ensures ordered { IsStrictlySortedBy key_cmp (keys_of self.new) }
    {
        let Some(first) = self.first else {
            self.first = Some((key, task));
            return Ok(());
        };
        match key.cmp(&first.0) {
            Ordering::Less => {
                self.later.insert(first.0, first.1)?;
                self.first = Some((key, task));
            }
            Ordering::Equal => self.first = Some((first.0, task)),
            Ordering::Greater => {
                self.later.insert(key, task)?;
            }
        }
        Ok(())
    }

    /// Makes an alarm wake another task. It does nothing where the alarm isn't there.
    pub fn rewake(&mut self, key: (Nanos, u64), task: u64)
        ensures entries { self.new ≡ set_value (is_at (key_cmp key)) self.old task }
        ensures ordered { IsStrictlySortedBy key_cmp (keys_of self.new) }
    {
        let Some(first) = self.first else {
            return;
        };
        if key.cmp(&first.0).is_eq() {
            self.first = Some((first.0, task));
            return;
        }
        if let Some(woken) = self.later.get_mut(&key) {
            *woken = task;
        }
    }

    /// Returns whether an alarm is there.
    pub fn contains(&self, key: (Nanos, u64)) -> bool
        ensures { result ≡ is_some (lookup (is_at (key_cmp key)) self.now) }
    {
        match self.first {
            None => false,
            Some(first) => key.cmp(&first.0).is_eq() || self.later.contains_key(&key),
        }
    }

    /// Returns the first alarm.
    pub fn first(&self) -> Option<((Nanos, u64), u64)>
        ensures first { IfSome result (λ entry. slice_get self.now 0 ≡ Some entry) }
        ensures none { IfNone result (self.now ≡ []) }
    {
        self.first
    }

    /// Takes the first alarm out.
    pub fn pop(&mut self) -> Option<((Nanos, u64), u64)>
        ensures removal { IfSome result (λ entry. self.old ≡ entry ∷ self.new) }
        ensures none { IfNone result ((self.old ≡ []) × (self.new ≡ [])) }
        ensures ordered { IsStrictlySortedBy key_cmp (keys_of self.new) }
    {
        let first = self.first?;
        self.first = self.later.pop_first();
        Some(first)
    }

    /// Takes all alarms out.
    pub fn clear(&mut self)
        ensures { self.new ≡ [] }
    {
        self.first = None;
        self.later.clear();
    }

    /// Returns how many alarms there are.
    pub fn len(&self) -> usize
        ensures { result ≡ length self.now }
    {
        match self.first {
            None => 0,
            Some(_) => self.later.len() + 1,
        }
    }

    /// Returns whether there is no alarm.
    pub fn is_empty(&self) -> bool
        ensures { result ≡ (length self.now == 0) }
    {
        self.first.is_none()
    }
}
