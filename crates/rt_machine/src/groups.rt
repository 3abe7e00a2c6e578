//! The groups of signals of a run, the shutdown's among them, and the entries for which each may ask.

ghost use Rattle.std.specs.Prelude.{◌≡◌, ◌≤◌, ◌<◌, ◌+◌, ◌^◌, ◌-◌, [], IfErr, IfOk, IfSome, OnErr, OnOk, is_some, None, Ok, true, not, length, slice_get, drop};
ghost use Rattle.std.specs.Option.{option_map_or};
ghost use Rattle.rt_super.specs.Signals.{completion_answer, completion_closed, completion_polled, signal_answer, signal_closed, signal_polled, signaled, signaler_closed, stop_after, stopped_after, stopped_answer, with_clone, with_group, with_stop, woken_by_closing, woken_by_last, woken_by_stop, woken_by_value, is_waited};
ghost use Rattle.rt_model.specs.Lists.{find};
ghost use Rattle.rt_model.specs.Signals.{has_signaler, no_stop, shutdown_alone};
ghost use Rattle.rt_machine.specs.Groups.{grouped};
ghost use Rattle.rt_machine.specs.Places.{ones, signal_places, stopped_places, token_places};

use rt_base::{Error, NoMemory, Poll};
use rt_super::{NOBODY, Signals, Stopped, Stopper};
use std::alloc::Global;
use std::marker::Model;

/// The groups of signals, and the shutdown, which is one of them.
///
/// Contracts see both, and those whom the last call met and nobody woke yet.
#[derive(Drop)]
pub struct Groups {
    signals: Signals,
    stopper: Stopper,
}

impl Model for Groups {
    ghost use Rattle.rt_machine.specs.Groups.{Grouped};

    ghost Value = { Grouped };

    ghost view = { λ g. record { told = g.signals.told; stop = g.stopper; woken = g.signals.woken } };
}

#[tactic(auto, using(crate::proofs::Grouped::group_laws))]
impl Groups {
    /// Makes the shutdown's group alone, without a signal or a completion, which nobody stopped.
    pub fn new(alloc: Global) -> Result<Groups, NoMemory>
        ensures { IfOk result (λ groups. groups ≡ grouped shutdown_alone no_stop []) }
    {
        let mut signals = Signals::new(alloc);
        let stopper = Stopper::new(&mut signals)?;
        signals.close_signal(0);
        signals.close_completion(0);
        Ok(Groups { signals, stopper })
    }

    /// Returns whether a signaler has this number that gave no value and wasn't given up.
    pub fn has_signaler(&self, signaler: u64) -> bool
        ensures { result ≡ has_signaler self.now.told self.now.stop signaler }
    {
        signaler != self.stopper.group() && self.signals.is_alive(signaler)
    }

    /// Returns whether an open signal has this number.
    pub fn has_signal(&self, signal: u64) -> bool
        ensures { result ≡ is_some (find signal self.now.told.signals) }
    {
        self.signals.has_signal(signal)
    }

    /// Returns whether a live completion has this number.
    pub fn has_completion(&self, completion: u64) -> bool
        ensures { result ≡ is_some (find completion self.now.told.completions) }
    {
        self.signals.has_completion(completion)
    }

    /// Returns what a signal shows.
    pub fn shown(&self, signal: u64) -> Result<Poll<i32>, Error>
        ensures answer { result ≡ signal_answer self.now.told signal }
        ensures closed { is_some (find signal self.now.told.signals) ≡ true → IfErr result (λ e. e ≡ Error.Closed) }
    {
        self.signals.shown(signal)
    }

    /// Returns whether a completion is met.
    pub fn met(&self, completion: u64) -> Result<Poll<()>, Error>
        ensures answer { result ≡ completion_answer self.now.told completion }
        ensures unknown { IfErr result (λ e. e ≡ Error.UnknownToken) }
    {
        self.signals.met(completion)
    }

    /// Makes a group, and returns its number.
    pub fn add(&mut self) -> Result<u64, NoMemory>
        ensures number { IfOk result (λ number. number ≡ self.old.told.count) }
        ensures told { OnOk result (self.new ≡ grouped (with_group self.old.told) self.old.stop []) }
        ensures places { OnOk result (signal_places self.new.told ≡ signal_places self.old.told + 3) }
        ensures err { OnErr result (self.new ≡ self.old) }
    {
        self.signals.add()
    }

    /// Makes a further signal of the group of an open one, and returns its number.
    pub fn clone_signal(&mut self, signal: u64) -> Result<u64, NoMemory>
        requires { is_some (find signal self.old.told.signals) ≡ true }
        ensures number { IfOk result (λ number. number ≡ self.old.told.count) }
        ensures told { OnOk result (self.new ≡ grouped (with_clone self.old.told signal) self.old.stop []) }
        ensures places { OnOk result (signal_places self.new.told ≡ signal_places self.old.told + 1) }
        ensures err { OnErr result (self.new ≡ self.old) }
    {
        match self.signals.clone_signal(signal) {
            Ok(number) => Ok(number),
            Err(error) => {
                drop(error);
                Err(NoMemory)
            }
        }
    }

    /// Gives a group its value.
    pub fn signal(&mut self, signaler: u64, value: i32)
        requires { has_signaler self.old.told self.old.stop signaler ≡ true }
        ensures told { self.new ≡ grouped (signaled self.old.told signaler value) self.old.stop (woken_by_value self.old.told signaler) }
        ensures places { signal_places self.new.told + 1 + length self.new.woken ≡ signal_places self.old.told }
    {
        self.signals.signal(signaler, value);
    }

    /// Notes that a task waits by a signal that shows nothing yet, and returns whether nobody waited by it.
    pub fn poll_signal(&mut self, signal: u64, by: Option<u64>) -> bool
        requires pending { signal_answer self.old.told signal ≡ Ok Poll.Pending }
        requires fits { IfSome by (λ task. task < 2 ^ 64 - 1) }
        ensures told { self.new ≡ grouped (signal_polled self.old.told signal by) self.old.stop [] }
        ensures first { result ≡ not (is_waited signal self.old.told.signals) }
        ensures places { signal_places self.new.told ≤ signal_places self.old.told + ones result }
    {
        let waited = self.signals.is_signal_waited(signal);
        drop(self.signals.poll_signal(signal, by.unwrap_or(NOBODY)));
        !waited
    }

    /// Gives an open signal up, and returns for how many entries it asked, but for the wakes of this.
    pub fn close_signal(&mut self, signal: u64) -> usize
        requires { is_some (find signal self.old.told.signals) ≡ true }
        ensures told { self.new ≡ grouped (signal_closed self.old.told signal) self.old.stop (woken_by_last self.old.told signal) }
        ensures places { signal_places self.new.told + result + length self.new.woken ≡ signal_places self.old.told }
        ensures some { 1 ≤ result }
    {
        let places = if self.signals.is_signal_waited(signal) {
            2
        } else {
            1
        };
        self.signals.close_signal(signal);
        places
    }

    /// Gives a signaler up without a value, and returns for how many entries it and its completion asked, but for the
    /// wakes of this.
    pub fn close_signaler(&mut self, signaler: u64) -> usize
        requires { has_signaler self.old.told self.old.stop signaler ≡ true }
        ensures told { self.new ≡ grouped (signaler_closed self.old.told signaler) self.old.stop (woken_by_closing self.old.told signaler) }
        ensures places { signal_places self.new.told + result + length self.new.woken ≡ signal_places self.old.told }
        ensures some { 1 ≤ result }
    {
        let own = self.completion_places(signaler);
        self.signals.close_signaler(signaler);
        1 + own
    }

    /// Notes that a task waits by a completion that isn't met yet, and returns whether nobody waited by it.
    pub fn poll_completion(&mut self, completion: u64, by: Option<u64>) -> bool
        requires pending { completion_answer self.old.told completion ≡ Ok Poll.Pending }
        requires fits { IfSome by (λ task. task < 2 ^ 64 - 1) }
        ensures told { self.new ≡ grouped (completion_polled self.old.told completion by) self.old.stop [] }
        ensures first { result ≡ not (is_waited completion self.old.told.completions) }
        ensures places { signal_places self.new.told ≤ signal_places self.old.told + ones result }
    {
        let waited = self.signals.is_completion_waited(completion);
        drop(
            self.signals
                .poll_completion(completion, by.unwrap_or(NOBODY)),
        );
        !waited
    }

    /// Returns for how many entries a completion asks: none where it isn't live.
    fn completion_places(&self, completion: u64) -> usize
        ensures { result ≡ option_map_or token_places (find completion self.now.told.completions) 0 }
    {
        if !self.signals.has_completion(completion) {
            return 0;
        }
        if self.signals.is_completion_waited(completion) {
            2
        } else {
            1
        }
    }

    /// Gives a completion up, and returns for how many entries it asked.
    pub fn close_completion(&mut self, completion: u64) -> usize
        requires { is_some (find completion self.old.told.completions) ≡ true }
        ensures told { self.new ≡ grouped (completion_closed self.old.told completion) self.old.stop [] }
        ensures places { signal_places self.new.told + result ≡ signal_places self.old.told }
        ensures some { 1 ≤ result }
    {
        let places = self.completion_places(completion);
        self.signals.close_completion(completion);
        places
    }

    /// Begins the shutdown with a value, unless it began before; and returns the number of a completion.
    pub fn stop(&mut self, value: i32) -> Result<u64, NoMemory>
        ensures number { IfOk result (λ number. number ≡ self.old.told.count) }
        ensures told { OnOk result (self.new ≡ grouped (stop_after self.old.told self.old.stop value) (with_stop self.old.stop value) (woken_by_stop self.old.told self.old.stop value)) }
        ensures places { OnOk result (signal_places self.new.told + length self.new.woken ≤ signal_places self.old.told + 1) }
        ensures err { OnErr result (self.new ≡ self.old) }
    {
        self.stopper.stop(&mut self.signals, value)
    }

    /// Makes a signal of the shutdown, or returns the value of the stop that came before.
    pub fn stopped(&mut self) -> Result<Stopped, NoMemory>
        ensures answer { IfOk result (λ stopped. stopped ≡ stopped_answer self.old.told self.old.stop) }
        ensures told { OnOk result (self.new ≡ grouped (stopped_after self.old.told self.old.stop) self.old.stop []) }
        ensures places { IfOk result (λ stopped. signal_places self.new.told ≡ signal_places self.old.told + stopped_places stopped) }
        ensures err { OnErr result (self.new ≡ self.old) }
    {
        self.stopper.stopped(&mut self.signals)
    }

    /// Takes the next of those whom the last call met.
    pub fn next_woken(&mut self) -> Option<u64>
        ensures first { result ≡ slice_get self.old.woken 0 }
        ensures taken { self.new ≡ grouped self.old.told self.old.stop (drop 1 self.old.woken) }
    {
        self.signals.next_woken()
    }
}
