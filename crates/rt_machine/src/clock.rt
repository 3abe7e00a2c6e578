//! Clock steps.

ghost use Rattle.std.specs.Prelude.{◌≡◌, ◌≤◌, ◌<◌, ◌+◌, [], length, OnOk, OnErr, IsSome, is_some, None, Some, Ok, true, false};
ghost use Rattle.rt_model.specs.Lists.{is_nil};
ghost use Rattle.rt_model.specs.State.{Visiting, Turning};
ghost use Rattle.rt_model.specs.Alarms.{fires, skip_to};
ghost use Rattle.rt_model.specs.Causes.{is_late, overflows, from_running};
ghost use Rattle.rt_model.specs.Effects.{left_of};
ghost use Rattle.rt_machine.specs.Told.{pushed};
ghost use Rattle.rt_machine.specs.Steps.{Turns, TurnStands, StepStands};

use crate::Machine;
use crate::room::take_places;
use rt_audit::{Entry, FinishCause, Moment};
use rt_base::{MAX_TIME, Nanos, NoMemory};
use rt_super::NOBODY;

#[tactic(auto, using(crate::proofs::Counts::count_laws, crate::proofs::Turning::turn_laws), unfolding(rt_model::specs::Effects::after))]
impl Machine {
    /// Returns whether time would pass its last moment within a cycle.
    fn overflows(&self) -> bool
        ensures { result ≡ overflows self.now.told.state.clock }
    {
        self.time > MAX_TIME || MAX_TIME - self.time < self.journal.begin().cycle
    }

    /// Returns the moment that time skips to, if it skips.
    fn skip_to(&self) -> Option<Nanos>
        ensures { result ≡ skip_to self.now.told.state.ready self.now.told.state.stood.alarms.alarms self.now.told.state.clock.time }
    {
        if !self.ready.is_empty() {
            return None;
        }
        let due = self.alarms.earliest()?;
        if self.time < due { Some(due) } else { None }
    }

    /// Moves time on by a cycle, after a round.
    fn advance(&mut self) -> Result<(), NoMemory>
        requires phase { self.old.told.state.phase ≡ Visiting (left_of self.old.told.state.phase) }
        requires round { from_running self.old.told.state.running (left_of self.old.told.state.phase) ≡ [] }
        requires fits { self.old.told.state.clock.time + self.old.told.state.clock.fixed.cycle ≤ MAX_TIME }
        ensures ok { OnOk result (self.new ≡ record { told = pushed self.old.told (Entry.Advance (self.old.told.state.clock.time + self.old.told.state.clock.fixed.cycle)); lacked = self.old.lacked }) }
        ensures err { OnErr result (self.new ≡ self.old) }
    {
        take_places(&mut self.journal, &mut self.ready, self.promised, 1)?;
        let now = self.time + self.journal.begin().cycle;
        self.journal.push(Entry::Advance {
            now: Moment::new(now),
        });
        self.time = now;
        Ok(())
    }

    /// Moves time on to the earliest alarm, which lies ahead with nobody ready.
    fn skip(&mut self, to: Nanos) -> Result<(), NoMemory>
        requires phase { self.old.told.state.phase ≡ Turning }
        requires ahead { skip_to self.old.told.state.ready self.old.told.state.stood.alarms.alarms self.old.told.state.clock.time ≡ Some to }
        ensures ok { OnOk result (self.new ≡ record { told = pushed self.old.told (Entry.Skip to); lacked = self.old.lacked }) }
        ensures err { OnErr result (self.new ≡ self.old) }
    {
        take_places(&mut self.journal, &mut self.ready, self.promised, 1)?;
        self.journal.push(Entry::Skip {
            now: Moment::new(to),
        });
        self.time = to;
        Ok(())
    }

    /// Sets the earliest alarm off if it is due, and queues its task. Returns whether one went off.
    fn fire(&mut self) -> bool
        requires phase { self.old.told.state.phase ≡ Turning }
        requires early { is_late self.old.told.state.clock ≡ false }
        ensures fired { result ≡ is_some (fires self.old.told.state.stood.alarms.alarms self.old.told.state.clock.time) }
        ensures turns { Turns self.old.told self.new.told }
        ensures phase { self.new.told.state.phase ≡ Turning }
        ensures clock { self.new.told.state.clock ≡ self.old.told.state.clock }
        ensures fewer { result ≡ true → length self.new.told.state.stood.alarms.alarms < length self.old.told.state.stood.alarms.alarms }
        ensures ready { is_nil self.old.told.state.ready ≡ false → is_nil self.new.told.state.ready ≡ false }
        ensures lacked { self.new.lacked ≡ self.old.lacked }
        ensures same { result ≡ false → self.new ≡ self.old }
    {
        let Some((alarm, task)) = self.alarms.pop_due(self.time) else {
            return false;
        };
        self.promised -= 2;
        self.journal.push(Entry::Fire { alarm });
        if task != NOBODY {
            self.journal.push(Entry::Wake { task });
            self.ready.push_reserved(task);
        }
        true
    }

    /// Sets each alarm off that is due.
    fn fire_all(&mut self)
        requires phase { self.old.told.state.phase ≡ Turning }
        requires early { is_late self.old.told.state.clock ≡ false }
        ensures turns { Turns self.old.told self.new.told }
        ensures phase { self.new.told.state.phase ≡ Turning }
        ensures clock { self.new.told.state.clock ≡ self.old.told.state.clock }
        ensures none { fires self.new.told.state.stood.alarms.alarms self.new.told.state.clock.time ≡ None }
        ensures fewer { length self.new.told.state.stood.alarms.alarms ≤ length self.old.told.state.stood.alarms.alarms }
        ensures some { IsSome (fires self.old.told.state.stood.alarms.alarms self.old.told.state.clock.time) → length self.new.told.state.stood.alarms.alarms < length self.old.told.state.stood.alarms.alarms }
        ensures ready { is_nil self.old.told.state.ready ≡ false → is_nil self.new.told.state.ready ≡ false }
        ensures lacked { self.new.lacked ≡ self.old.lacked }
    {
        while self.fire() {}
    }

    /// Skips to the earliest alarm, where nobody is ready and it lies ahead.
    fn skip_ahead(&mut self) -> Result<(), NoMemory>
        requires phase { self.old.told.state.phase ≡ Turning }
        ensures turns { Turns self.old.told self.new.told }
        ensures phase { self.new.told.state.phase ≡ Turning }
        ensures ready { self.new.told.state.ready ≡ self.old.told.state.ready }
        ensures alarms { self.new.told.state.stood.alarms ≡ self.old.told.state.stood.alarms }
        ensures there { OnOk result (skip_to self.new.told.state.ready self.new.told.state.stood.alarms.alarms self.new.told.state.clock.time ≡ None) }
        ensures lacked { self.new.lacked ≡ self.old.lacked }
    {
        if let Some(to) = self.skip_to() {
            self.skip(to)?;
            return Ok(());
        }
        Ok(())
    }

    /// One turn of a clock step: it skips, tests the deadline, and sets alarms off. Returns whether somebody is ready,
    /// or the cause that the run has reached.
    fn take_turn(&mut self) -> Result<bool, FinishCause>
        requires phase { self.old.told.state.phase ≡ Turning }
        ensures turns { Turns self.old.told self.new.told }
        ensures stands { TurnStands self.new.told.state result }
        ensures fewer { result ≡ Ok false → length self.new.told.state.stood.alarms.alarms < length self.old.told.state.stood.alarms.alarms }
        ensures lacked { self.new.lacked ≡ self.old.lacked }
    {
        if self.skip_ahead().is_err() {
            return Err(FinishCause::NoMemory);
        }
        if self.is_late() {
            return Err(FinishCause::Timeout);
        }
        self.fire_all();
        if !self.ready.is_empty() {
            return Ok(true);
        }
        if self.alarms.is_empty() {
            return Err(FinishCause::Stalled);
        }
        Ok(false)
    }

    /// Moves time on by a cycle after a round, and then to where somebody is ready.
    ///
    /// It returns the cause that the run has reached, where the run ends there: `TimeOverflow` exactly where a cycle
    /// more would pass the last moment.
    pub fn clock_step(&mut self) -> Result<(), FinishCause>
        requires phase { self.old.told.state.phase ≡ Visiting (left_of self.old.told.state.phase) }
        requires round { from_running self.old.told.state.running (left_of self.old.told.state.phase) ≡ [] }
        ensures turns { Turns self.old.told self.new.told }
        ensures later { OnOk result (self.old.told.state.clock.time + self.old.told.state.clock.fixed.cycle ≤ self.new.told.state.clock.time) }
        ensures within { OnOk result (self.old.told.state.clock.time + self.old.told.state.clock.fixed.cycle ≤ MAX_TIME) }
        ensures stands { StepStands self.new.told.state result }
        ensures lacked { self.new.lacked ≡ self.old.lacked }
    {
        if self.overflows() {
            return Err(FinishCause::TimeOverflow);
        }
        if self.advance().is_err() {
            return Err(FinishCause::NoMemory);
        }
        loop {
            if self.take_turn()? {
                return Ok(());
            }
        }
    }
}
