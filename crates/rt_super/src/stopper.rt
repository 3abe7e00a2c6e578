// The shutdown of a run.
ghost use Rattle.std.specs.Prelude.{◌≡◌, [], IfOk, OnOk, OnErr};
ghost use Rattle.rt_super.specs.Signals.{with_group, new_stop, stop_after, woken_by_stop, with_stop, stopped_answer, stopped_after, IsShutdown, ShowShutdown, KeepShutdowns, KeepOthers};

use crate::signals::Signals;
use rt_base::NoMemory;
use std::marker::Model;

/// What a `stopped` gives: an open signal of the shutdown by its number, or the value that came.
#[derive(Debug, Drop, PartialEq, Eq)]
pub enum Stopped {
    Waiting(u64),
    Resolved(i32),
}

/// A shutdown, as a group of signals of which the first `stop` decides the value. A `stop` or `stopped` that is refused
/// changes nothing, nor the list of those whom the call before met.
#[derive(Drop)]
pub struct Stopper {
    group: u64,
    value: Option<i32>,
}

impl Model for Stopper {
    ghost use Rattle.rt_super.specs.Signals.{StopRecord};

    ghost Value = { StopRecord };

    ghost view = { λ s. record { group = s.group; value = s.value } };
}

impl Stopper {
    /// Makes a shutdown that nobody began, as a group of these signals. Each other shutdown stays one.
    ///
    /// Error: `NoMemory`. Nothing has changed after it.
    pub fn new(signals: &mut Signals) -> Result<Self, NoMemory>
        ensures made { IfOk result (λ stopper. stopper ≡ new_stop signals.old.told) }
        ensures added { OnOk result (signals.new.told ≡ with_group signals.old.told) }
        ensures woken { OnOk result (signals.new.woken ≡ []) }
        ensures shutdown { IfOk result (λ stopper. IsShutdown signals.new.told stopper) }
        ensures others { KeepShutdowns signals.old.told signals.new.told }
        ensures refused { OnErr result (signals.new ≡ signals.old) }
    {
        let group = signals.add()?;
        Ok(Stopper { group, value: None })
    }

    /// Begins the shutdown with a value, unless it began before, and returns the number of a completion of its own. The
    /// first stop gives up the group's first signal and own completion too; a later one changes no value and wakes
    /// nobody.
    ///
    /// Error: `NoMemory`. Nothing has changed after it.
    #[tactic(auto, using(crate::proofs::Shutdowns::shows))]
    pub fn stop(&mut self, signals: &mut Signals, value: i32) -> Result<u64, NoMemory>
        ensures number { IfOk result (λ number. number ≡ signals.old.told.count) }
        ensures begun { OnOk result (self.new ≡ with_stop self.old value) }
        ensures told { OnOk result (signals.new.told ≡ stop_after signals.old.told self.old value) }
        ensures woken { OnOk result (signals.new.woken ≡ woken_by_stop signals.old.told self.old value) }
        ensures shutdown { IsShutdown signals.old.told self.old → IsShutdown signals.new.told self.new }
        ensures shown { IsShutdown signals.old.told self.old → ShowShutdown signals.new.told self.new }
        ensures others { KeepOthers self.old.group signals.old.told signals.new.told }
        ensures refused { OnErr result (signals.new ≡ signals.old) }
        ensures kept { OnErr result (self.new ≡ self.old) }
    {
        let completion = signals.add_completion(self.group)?;
        if self.value.is_none() {
            self.value = Some(value);
            signals.give(self.group, value);
            signals.drop_signal(self.group);
            signals.drop_completion(self.group);
        }
        Ok(completion)
    }

    /// Makes an open signal of the shutdown under the next number before the first `stop`, and returns the value of
    /// that stop after it.
    ///
    /// Error: `NoMemory`. Nothing has changed after it.
    #[tactic(auto, using(crate::proofs::Shutdowns::stopped_keeps, crate::proofs::Shutdowns::shows))]
    pub fn stopped(&mut self, signals: &mut Signals) -> Result<Stopped, NoMemory>
        ensures answer { IfOk result (λ stopped. stopped ≡ stopped_answer signals.old.told self.old) }
        ensures told { OnOk result (signals.new.told ≡ stopped_after signals.old.told self.old) }
        ensures woken { OnOk result (signals.new.woken ≡ []) }
        ensures shutdowns { KeepShutdowns signals.old.told signals.new.told }
        ensures shown { IsShutdown signals.old.told self.old → ShowShutdown signals.new.told self.new }
        ensures refused { OnErr result (signals.new ≡ signals.old) }
        ensures kept { self.new ≡ self.old }
    {
        match self.value {
            Some(value) => {
                signals.wake_nobody();
                Ok(Stopped::Resolved(value))
            }
            None => {
                let signal = signals.add_signal(self.group)?;
                Ok(Stopped::Waiting(signal))
            }
        }
    }

    /// Returns the number of the shutdown's group.
    pub fn group(&self) -> u64
        ensures { result ≡ self.now.group }
    {
        self.group
    }

    /// Returns what [`stopped`](Self::stopped) returns where there is memory.
    pub fn answer(&self, signals: &Signals) -> Stopped
        ensures { result ≡ stopped_answer signals.now.told self.now }
    {
        match self.value {
            Some(value) => Stopped::Resolved(value),
            None => Stopped::Waiting(signals.count()),
        }
    }
}
