//! The signals and the shutdown that a journal tells.

ghost use Rattle.std.specs.Prelude.{◌≡◌, ◌⊎◌, [], IfErr, IfOk, OnOk, is_some, drop};
ghost use Rattle.rt_super.specs.Rows.{find};
ghost use Rattle.rt_super.specs.Signals.{completion_answer, signal_answer, stopped_answer, with_clone};
ghost use Rattle.rt_super.specs.Wakers.{waker_of};
ghost use Rattle.rt_model.specs.Effects.{signals_called, stop_called};
ghost use Rattle.rt_model.specs.Signals.{has_signaler};
ghost use Rattle.rt_walk.specs.Signaled.{nobody_signaled, signaled_called, woken_by};

use rt_audit::{Call, CallReply};
use rt_base::{Error, NoMemory, Poll};
use rt_super::{NOBODY, Signals, Stopped, Stopper};
use std::alloc::Global;
use std::marker::Model;

/// The groups of signals, and the shutdown, with a journal's reading of them.
#[derive(Drop)]
pub struct ToldSignals {
    signals: Signals,
    stopper: Stopper,
}

impl Model for ToldSignals {
    ghost use Rattle.rt_walk.specs.Signaled.{Signaled};

    ghost Value = { Signaled };

    ghost view = { λ t. record { signals = t.signals.told; stop = t.stopper } };
}

impl ToldSignals {
    /// Makes a record of the shutdown alone, which nobody began.
    pub fn new(alloc: Global) -> Result<ToldSignals, NoMemory>
        ensures { IfOk result (λ told. told ≡ nobody_signaled) }
    {
        let mut signals = Signals::new(alloc);
        match Stopper::new(&mut signals) {
            Ok(stopper) => {
                signals.close_signal(stopper.group());
                signals.close_completion(stopper.group());
                Ok(ToldSignals { signals, stopper })
            }
            Err(NoMemory) => {
                drop(signals);
                Err(NoMemory)
            }
        }
    }

    /// Returns the number that the next signal or completion gets.
    pub fn count(&self) -> u64
        ensures { result ≡ self.now.signals.count }
    {
        self.signals.count()
    }

    /// Returns whether a signaler has this number that gave no value and wasn't given up.
    pub fn has_signaler(&self, signaler: u64) -> bool
        ensures { result ≡ has_signaler self.now.signals self.now.stop signaler }
    {
        signaler != self.stopper.group() && self.signals.is_alive(signaler)
    }

    /// Returns whether an open signal has this number.
    pub fn has_signal(&self, signal: u64) -> bool
        ensures { result ≡ is_some (find signal self.now.signals.signals) }
    {
        self.signals.has_signal(signal)
    }

    /// Returns whether a live completion has this number.
    pub fn has_completion(&self, completion: u64) -> bool
        ensures { result ≡ is_some (find completion self.now.signals.completions) }
    {
        self.signals.has_completion(completion)
    }

    /// Returns what a signal shows.
    pub fn shown(&self, signal: u64) -> Result<Poll<i32>, Error>
        ensures answer { result ≡ signal_answer self.now.signals signal }
        ensures causes { IfErr result (λ e. (e ≡ Error.UnknownToken) ⊎ (e ≡ Error.Closed)) }
    {
        self.signals.shown(signal)
    }

    /// Returns whether a completion is met.
    pub fn met(&self, completion: u64) -> Result<Poll<()>, Error>
        ensures answer { result ≡ completion_answer self.now.signals completion }
        ensures causes { IfErr result (λ e. e ≡ Error.UnknownToken) }
    {
        self.signals.met(completion)
    }

    /// Returns what `stopped` returns.
    pub fn stopped(&self) -> Stopped
        ensures { result ≡ stopped_answer self.now.signals self.now.stop }
    {
        self.stopper.answer(&self.signals)
    }

    /// Takes a call with its reply in. Answers whom it wakes.
    pub fn call(
        &mut self,
        alloc: Global,
        by: Option<u64>,
        call: &Call,
        reply: &CallReply,
    ) -> Result<Vec<u64>, NoMemory>
        ensures state { OnOk result (self.new ≡ signaled_called self.old by call.now reply.now) }
        ensures woken { IfOk result (λ woken. woken.items ≡ woken_by self.old call.now reply.now) }
    {
        forget_woken(&mut self.signals);
        make(&mut self.signals, &mut self.stopper, by, call, reply)?;
        woken_of(alloc, &mut self.signals)
    }
}

/// Nobody is left whom a call met.
fn forget_woken(signals: &mut Signals)
    ensures { signals.new ≡ record { told = signals.old.told; woken = [] } }
{
    while let Some(_task) = signals.next_woken() {}
}

/// Takes out whom the last call met.
fn woken_of(alloc: Global, signals: &mut Signals) -> Result<Vec<u64>, NoMemory>
    ensures told { signals.new.told ≡ signals.old.told }
    ensures woken { IfOk result (λ woken. woken.items ≡ signals.old.woken) }
{
    let mut woken = Vec::new(alloc);
    while let Some(task) = signals.next_woken() {
        woken.push(task)?;
    }
    Ok(woken)
}

/// Whom a poll by this lets wait. The task `u64::MAX` means nobody, and so is refused.
fn waits_as(by: Option<u64>) -> Result<u64, NoMemory>
    ensures { IfOk result (λ task. waker_of task ≡ by) }
{
    match by {
        Some(NOBODY) => Err(NoMemory),
        Some(task) => Ok(task),
        None => Ok(NOBODY),
    }
}

/// Does what a call did.
fn make(
    signals: &mut Signals,
    stopper: &mut Stopper,
    by: Option<u64>,
    call: &Call,
    reply: &CallReply,
) -> Result<(), NoMemory>
    requires { signals.old.woken ≡ [] }
    ensures told { OnOk result (signals.new.told ≡ signals_called signals.old.told stopper.old by call.now reply.now) }
    ensures stop { OnOk result (stopper.new ≡ stop_called stopper.old call.now reply.now) }
    ensures woken { OnOk result (signals.new.woken ≡ woken_by (record { signals = signals.old.told; stop = stopper.old }) call.now reply.now) }
{
    match (call, reply) {
        (Call::Signaler, CallReply::SignalAt { .. }) => {
            signals.add()?;
        }
        (Call::CloneSignal { signal }, CallReply::SignalAt { .. }) => clone(signals, *signal)?,
        (Call::Signal { signaler, value }, CallReply::Done) => signals.signal(*signaler, *value),
        (Call::SignalPoll { signal }, CallReply::Pending) => {
            drop(signals.poll_signal(*signal, waits_as(by)?));
        }
        (Call::SignalClose { signal }, CallReply::Done) => signals.close_signal(*signal),
        (Call::SignalerClose { signaler }, CallReply::Done) => signals.close_signaler(*signaler),
        (Call::CompletionPoll { completion }, CallReply::Pending) => {
            drop(signals.poll_completion(*completion, waits_as(by)?));
        }
        (Call::CompletionClose { completion }, CallReply::Done) => {
            signals.close_completion(*completion);
        }
        (Call::Stop { value }, CallReply::CompletionAt { .. }) => {
            stopper.stop(signals, *value)?;
        }
        (Call::Stopped, CallReply::SignalAt { .. }) => {
            stopper.stopped(signals)?;
        }
        _ => {}
    }
    Ok(())
}

/// A further signal, where this one is open.
fn clone(signals: &mut Signals, signal: u64) -> Result<(), NoMemory>
    requires { signals.old.woken ≡ [] }
    ensures told { OnOk result (signals.new.told ≡ with_clone signals.old.told signal) }
    ensures woken { OnOk result (signals.new.woken ≡ []) }
{
    if signals.has_signal(signal) {
        match signals.clone_signal(signal) {
            Ok(_) => return Ok(()),
            Err(error) => {
                drop(error);
                return Err(NoMemory);
            }
        }
    }
    Ok(())
}
