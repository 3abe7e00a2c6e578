//! Calls on signals, on completions and on the shutdown.

ghost use Rattle.std.specs.Prelude.{◌≡◌, ◌≤◌, ◌<◌, ◌+◌, ◌-◌, ◌^◌, IfOk, IfErr, IfSome, OnErr, OnOk, Ok, true, is_some, length};
ghost use Rattle.rt_super.specs.Signals.{completion_answer, signal_answer};
ghost use Rattle.rt_model.specs.Lists.{find, has_number};
ghost use Rattle.rt_model.specs.Rules.{Answers, MayCall};
ghost use Rattle.rt_model.specs.Signals.{has_signaler, met_reply, shown_reply, stopped_reply};
ghost use Rattle.rt_machine.specs.Calls.{IsRefused, Noted, Spent, lacking};

use crate::Machine;
use crate::cause::Cause;
use crate::event::{stop_event, stopped_event};
use crate::room::take_places;
use crate::wakes::wake_met;
use rt_audit::{Call, CallReply, Caller, Entry};
use rt_base::{Error, NoMemory, Poll};
use rt_super::Stopped;

#[tactic(auto, using(crate::proofs::Counts::count_laws, crate::proofs::Totals::place_laws, crate::proofs::Owed::owed_laws), unfolding(rt_model::specs::Effects::after))]
impl Machine {
    /// Makes a group of signals, and returns the number of its signaler, its first signal and its completion. It takes
    /// memory.
    pub fn signaler(&mut self, by: Option<u64>) -> Result<u64, NoMemory>
        requires { MayCall self.old.told.state by }
        ensures ok { IfOk result (λ signal. Noted by self.old self.new Call.Signaler (CallReply.SignalAt signal)) }
        ensures err { OnErr result (self.new ≡ lacking self.old) }
    {
        let Ok(()) = take_places(&mut self.journal, &mut self.ready, self.promised, 4) else {
            self.lack();
            return Err(NoMemory);
        };
        let Ok(signal) = self.groups.add() else {
            self.lack();
            return Err(NoMemory);
        };
        self.journal.note(Entry::Call {
            by: Caller::of(by),
            call: Call::Signaler,
            reply: CallReply::SignalAt { signal },
        });
        self.promised += 3;
        Ok(signal)
    }

    /// Makes a further signal of the group of this one, and returns its number. It takes memory.
    ///
    /// Errors: `UnknownToken` where no open signal has the number, `NoMemory`.
    pub fn clone_signal(&mut self, by: Option<u64>, signal: u64) -> Result<u64, Error>
        requires { MayCall self.old.told.state by }
        ensures ok { IfOk result (λ further. Noted by self.old self.new (Call.CloneSignal signal) (CallReply.SignalAt further)) }
        ensures err { IfErr result (λ e. IsRefused by self.old self.new (Call.CloneSignal signal) e) }
    {
        let call = Call::CloneSignal { signal };
        if !self.groups.has_signal(signal) {
            return Err(self.refuse(by, call, Cause::UnknownToken));
        }
        let Ok(()) = take_places(&mut self.journal, &mut self.ready, self.promised, 2) else {
            self.lack();
            return Err(Error::NoMemory);
        };
        let Ok(further) = self.groups.clone_signal(signal) else {
            self.lack();
            return Err(Error::NoMemory);
        };
        let reply = CallReply::SignalAt { signal: further };
        self.journal.note(Entry::Call {
            by: Caller::of(by),
            call,
            reply,
        });
        self.promised += 1;
        Ok(further)
    }

    /// Gives a group its value, and wakes who waits for it. It takes no memory. Where the signaler was spent before it does
    /// nothing, and writes no entry.
    pub fn signal(&mut self, by: Option<u64>, signaler: u64, value: i32)
        requires { MayCall self.old.told.state by }
        ensures { Spent by self.old self.new (Call.Signal signaler value) }
    {
        if !self.groups.has_signaler(signaler) {
            return;
        }
        self.journal.note(Entry::Call {
            by: Caller::of(by),
            call: Call::Signal { signaler, value },
            reply: CallReply::Done,
        });
        self.groups.signal(signaler, value);
        self.promised -= 1;
        self.promised -= wake_met(
            &mut self.journal,
            &mut self.ready,
            &mut self.groups,
            self.closing,
        );
    }

    /// Polls a signal, and returns its value; the caller waits where it shows nothing yet. It takes memory.
    ///
    /// Errors: `UnknownToken` where no open signal has the number, `Closed` where the signaler was given up without a
    /// value; `NoMemory`.
    pub fn poll_signal(&mut self, by: Option<u64>, signal: u64) -> Result<Poll<i32>, Error>
        requires calling { MayCall self.old.told.state by }
        requires runs { IfSome by (λ task. has_number task self.old.told.state.running ≡ true) }
        ensures ok { IfOk result (λ shown. Noted by self.old self.new (Call.SignalPoll signal) (shown_reply shown)) }
        ensures err { IfErr result (λ e. IsRefused by self.old self.new (Call.SignalPoll signal) e) }
    {
        let call = Call::SignalPoll { signal };
        if !self.groups.has_signal(signal) {
            return Err(self.refuse(by, call, Cause::UnknownToken));
        }
        match self.groups.shown(signal) {
            Ok(Poll::Ready(value)) => self.show_value(by, signal, value),
            Ok(Poll::Pending) => self.wait_for_signal(by, signal),
            Err(error) => {
                drop(error);
                Err(self.refuse(by, call, Cause::Closed))
            }
        }
    }

    /// Notes a poll of a signal that shows its value.
    fn show_value(&mut self, by: Option<u64>, signal: u64, value: i32) -> Result<Poll<i32>, Error>
        requires calling { MayCall self.old.told.state by }
        requires shown { signal_answer self.old.told.state.stood.signals signal ≡ Ok (Poll.Ready value) }
        ensures ok { IfOk result (λ shown. (shown ≡ Poll.Ready value) × Noted by self.old self.new (Call.SignalPoll signal) (CallReply.Value value)) }
        ensures err { IfErr result (λ e. (e ≡ Error.NoMemory) × (self.new ≡ lacking self.old)) }
    {
        let Ok(()) = take_places(&mut self.journal, &mut self.ready, self.promised, 1) else {
            self.lack();
            return Err(Error::NoMemory);
        };
        self.journal.note(Entry::Call {
            by: Caller::of(by),
            call: Call::SignalPoll { signal },
            reply: CallReply::Value { value },
        });
        Ok(Poll::Ready(value))
    }

    /// Notes a poll of a signal that shows nothing yet.
    fn wait_for_signal(&mut self, by: Option<u64>, signal: u64) -> Result<Poll<i32>, Error>
        requires calling { MayCall self.old.told.state by }
        requires runs { IfSome by (λ task. has_number task self.old.told.state.running ≡ true) }
        requires pending { signal_answer self.old.told.state.stood.signals signal ≡ Ok Poll.Pending }
        ensures ok { IfOk result (λ shown. (shown ≡ Poll.Pending) × Noted by self.old self.new (Call.SignalPoll signal) CallReply.Pending) }
        ensures err { IfErr result (λ e. (e ≡ Error.NoMemory) × (self.new ≡ lacking self.old)) }
    {
        let Ok(()) = take_places(&mut self.journal, &mut self.ready, self.promised, 2) else {
            self.lack();
            return Err(Error::NoMemory);
        };
        self.journal.note(Entry::Call {
            by: Caller::of(by),
            call: Call::SignalPoll { signal },
            reply: CallReply::Pending,
        });
        if self.groups.poll_signal(signal, by) {
            self.promised += 1;
        }
        Ok(Poll::Pending)
    }

    /// Gives a signal up: with the last one of a group whose value came, those are woken who wait by its completions. It
    /// takes no memory. Where it was given up before it does nothing, and writes no entry.
    pub fn close_signal(&mut self, by: Option<u64>, signal: u64)
        requires { MayCall self.old.told.state by }
        ensures { Spent by self.old self.new (Call.SignalClose signal) }
    {
        if !self.groups.has_signal(signal) {
            return;
        }
        self.journal.note(Entry::Call {
            by: Caller::of(by),
            call: Call::SignalClose { signal },
            reply: CallReply::Done,
        });
        self.promised -= self.groups.close_signal(signal);
        self.promised -= wake_met(
            &mut self.journal,
            &mut self.ready,
            &mut self.groups,
            self.closing,
        );
    }

    /// Gives a signaler up without a value, and the completion of its number with it. Who waits for its signals is woken. It
    /// takes no memory. Where the signaler was spent before it does nothing, and writes no entry.
    pub fn close_signaler(&mut self, by: Option<u64>, signaler: u64)
        requires { MayCall self.old.told.state by }
        ensures { Spent by self.old self.new (Call.SignalerClose signaler) }
    {
        if !self.groups.has_signaler(signaler) {
            return;
        }
        self.journal.note(Entry::Call {
            by: Caller::of(by),
            call: Call::SignalerClose { signaler },
            reply: CallReply::Done,
        });
        self.promised -= self.groups.close_signaler(signaler);
        self.promised -= wake_met(
            &mut self.journal,
            &mut self.ready,
            &mut self.groups,
            self.closing,
        );
    }

    /// Polls a completion, and returns whether it is met; the caller waits where it isn't. It takes memory.
    ///
    /// Errors: `UnknownToken` where no live completion has the number, `NoMemory`.
    pub fn poll_completion(&mut self, by: Option<u64>, completion: u64) -> Result<Poll<()>, Error>
        requires calling { MayCall self.old.told.state by }
        requires runs { IfSome by (λ task. has_number task self.old.told.state.running ≡ true) }
        ensures ok { IfOk result (λ met. Noted by self.old self.new (Call.CompletionPoll completion) (met_reply met)) }
        ensures err { IfErr result (λ e. IsRefused by self.old self.new (Call.CompletionPoll completion) e) }
    {
        let call = Call::CompletionPoll { completion };
        match self.groups.met(completion) {
            Ok(Poll::Ready(())) => self.note_met(by, completion),
            Ok(Poll::Pending) => self.wait_for_completion(by, completion),
            Err(error) => {
                drop(error);
                Err(self.refuse(by, call, Cause::UnknownToken))
            }
        }
    }

    /// Notes a poll of a completion that is met.
    fn note_met(&mut self, by: Option<u64>, completion: u64) -> Result<Poll<()>, Error>
        requires calling { MayCall self.old.told.state by }
        requires met { completion_answer self.old.told.state.stood.signals completion ≡ Ok (Poll.Ready tt) }
        ensures ok { IfOk result (λ met. (met ≡ Poll.Ready tt) × Noted by self.old self.new (Call.CompletionPoll completion) CallReply.Done) }
        ensures err { IfErr result (λ e. (e ≡ Error.NoMemory) × (self.new ≡ lacking self.old)) }
    {
        let Ok(()) = take_places(&mut self.journal, &mut self.ready, self.promised, 1) else {
            self.lack();
            return Err(Error::NoMemory);
        };
        self.journal.note(Entry::Call {
            by: Caller::of(by),
            call: Call::CompletionPoll { completion },
            reply: CallReply::Done,
        });
        Ok(Poll::Ready(()))
    }

    /// Notes a poll of a completion that isn't met.
    fn wait_for_completion(&mut self, by: Option<u64>, completion: u64) -> Result<Poll<()>, Error>
        requires calling { MayCall self.old.told.state by }
        requires runs { IfSome by (λ task. has_number task self.old.told.state.running ≡ true) }
        requires pending { completion_answer self.old.told.state.stood.signals completion ≡ Ok Poll.Pending }
        ensures ok { IfOk result (λ met. (met ≡ Poll.Pending) × Noted by self.old self.new (Call.CompletionPoll completion) CallReply.Pending) }
        ensures err { IfErr result (λ e. (e ≡ Error.NoMemory) × (self.new ≡ lacking self.old)) }
    {
        let Ok(()) = take_places(&mut self.journal, &mut self.ready, self.promised, 2) else {
            self.lack();
            return Err(Error::NoMemory);
        };
        self.journal.note(Entry::Call {
            by: Caller::of(by),
            call: Call::CompletionPoll { completion },
            reply: CallReply::Pending,
        });
        if self.groups.poll_completion(completion, by) {
            self.promised += 1;
        }
        Ok(Poll::Pending)
    }

    /// Gives a completion up. It takes no memory. Where it was given up before it does nothing, and writes no entry.
    pub fn close_completion(&mut self, by: Option<u64>, completion: u64)
        requires { MayCall self.old.told.state by }
        ensures { Spent by self.old self.new (Call.CompletionClose completion) }
    {
        if !self.groups.has_completion(completion) {
            return;
        }
        self.journal.note(Entry::Call {
            by: Caller::of(by),
            call: Call::CompletionClose { completion },
            reply: CallReply::Done,
        });
        self.promised -= self.groups.close_completion(completion);
    }

    /// Begins the shutdown with a value, unless it began before, wakes who waits for that, and returns the number of a
    /// completion. It takes memory.
    pub fn stop(&mut self, by: Option<u64>, value: i32) -> Result<u64, NoMemory>
        requires { MayCall self.old.told.state by }
        ensures ok { IfOk result (λ completion. Noted by self.old self.new (Call.Stop value) (CallReply.CompletionAt completion)) }
        ensures err { OnErr result (self.new ≡ lacking self.old) }
    {
        let Ok(()) = take_places(&mut self.journal, &mut self.ready, self.promised, 3) else {
            self.lack();
            return Err(NoMemory);
        };
        let Ok(event) = stop_event(*self.ready.allocator(), value) else {
            self.lack();
            return Err(NoMemory);
        };
        let Ok(completion) = self.groups.stop(value) else {
            self.lack();
            return Err(NoMemory);
        };
        self.journal.note(event);
        self.journal.note(Entry::Call {
            by: Caller::of(by),
            call: Call::Stop { value },
            reply: CallReply::CompletionAt { completion },
        });
        self.promised += 1;
        self.promised -= wake_met(
            &mut self.journal,
            &mut self.ready,
            &mut self.groups,
            self.closing,
        );
        Ok(completion)
    }

    /// Makes a signal of the shutdown and returns its number, or returns the value with which the shutdown began. It
    /// takes memory.
    pub fn stopped(&mut self, by: Option<u64>) -> Result<Stopped, NoMemory>
        requires { MayCall self.old.told.state by }
        ensures ok { IfOk result (λ stopped. Noted by self.old self.new Call.Stopped (stopped_reply stopped)) }
        ensures err { OnErr result (self.new ≡ lacking self.old) }
    {
        let Ok(()) = take_places(&mut self.journal, &mut self.ready, self.promised, 3) else {
            self.lack();
            return Err(NoMemory);
        };
        let Ok(event) = stopped_event(*self.ready.allocator()) else {
            self.lack();
            return Err(NoMemory);
        };
        let Ok(stopped) = self.groups.stopped() else {
            self.lack();
            return Err(NoMemory);
        };
        self.journal.note(event);
        let reply = match stopped {
            Stopped::Waiting(signal) => CallReply::SignalAt { signal },
            Stopped::Resolved(value) => CallReply::ClosedWith { value },
        };
        self.journal.note(Entry::Call {
            by: Caller::of(by),
            call: Call::Stopped,
            reply,
        });
        if let Stopped::Waiting(_) = stopped {
            self.promised += 1;
        }
        Ok(stopped)
    }
}
