//! The calls on signals, on completions and on the shutdown.

ghost use Rattle.std.specs.Prelude.{ℕ, ◌≡◌, IfOk, IfErr, OnErr, true, false};
ghost use Rattle.rt_audit.specs.declared.call.Call.TheVariants.{Signaler, CloneSignal, Signal, SignalPoll, SignalClose, SignalerClose, CompletionPoll, CompletionClose, Stop, Stopped as StoppedCall};
ghost use Rattle.rt_audit.specs.declared.reply.CallReply.TheVariants.{SignalAt, CompletionAt};
ghost use Rattle.rt_model.specs.Rules.{MayCall};
ghost use Rattle.rt_model.specs.Signals.{met_reply, shown_reply, stopped_reply};
ghost use Rattle.rt_model.specs.Turns.{Plainly};
ghost use Rattle.rt_world.specs.Calls.{Kept, Made, SpentBy, IsRefused, lacking};
ghost use Rattle.rt_world.specs.Walked.{Called, clone_told, met_told, shown_told, signaler_told, stop_told, stopped_told};

use crate::World;
use rand_core::Rng;
use rt_base::{Error, NoMemory, Poll};
use rt_super::Stopped;

#[tactic(auto, using(crate::proofs::Signaled::signal_laws, crate::proofs::Walked::stay_laws), unfolding(rt_model::specs::Effects::after))]
impl<T, O, G: Rng> World<T, O, G> {
    /// Makes a group of signals, and returns the number that its signaler, its first signal and its completion have.
    /// It takes memory.
    pub fn signaler(&mut self) -> Result<u64, NoMemory>
        requires { MayCall self.old.told.state self.old.out }
        ensures kept { Kept G.stream self.old self.new }
        ensures ok { IfOk result (λ signal. Made self.old self.new (Plainly Signaler) (SignalAt signal)) }
        ensures err { OnErr result (self.new ≡ lacking self.old) }
        ensures called { Called (Plainly Signaler) self.old self.new (signaler_told result) }
    {
        self.machine.signaler(self.out)
    }

    /// Makes a further signal of the group of this one, and returns its number. It takes memory.
    ///
    /// Errors: `UnknownToken` exactly where no open signal has the number, `NoMemory`.
    pub fn clone_signal(&mut self, signal: u64) -> Result<u64, Error>
        requires { MayCall self.old.told.state self.old.out }
        ensures kept { Kept G.stream self.old self.new }
        ensures ok { IfOk result (λ further. Made self.old self.new (Plainly (CloneSignal signal)) (SignalAt further)) }
        ensures err { IfErr result (λ e. IsRefused self.old self.new (Plainly (CloneSignal signal)) e) }
        ensures called { Called (Plainly (CloneSignal signal)) self.old self.new (clone_told result) }
    {
        self.machine.clone_signal(self.out, signal)
    }

    /// Gives a group its value, which its signals show from then on, and spends its signaler. Who waits for it is woken. It
    /// takes no memory. Where the signaler was spent before it does nothing, and writes no entry.
    pub fn signal(&mut self, signaler: u64, value: i32)
        requires { MayCall self.old.told.state self.old.out }
        ensures kept { Kept G.stream self.old self.new }
        ensures spent { SpentBy self.old self.new (Plainly (Signal signaler value)) }
        ensures lacked { self.new.lacked ≡ self.old.lacked }
    {
        self.machine.signal(self.out, signaler, value)
    }

    /// Polls a signal, and returns the value of its group once it has one, each time. It takes memory.
    ///
    /// Errors: `Closed` where the signaler was given up without a value, `UnknownToken` where the signal was given
    /// up, `NoMemory`.
    pub fn poll_signal(&mut self, signal: u64) -> Result<Poll<i32>, Error>
        requires { MayCall self.old.told.state self.old.out }
        ensures kept { Kept G.stream self.old self.new }
        ensures ok { IfOk result (λ shown. Made self.old self.new (Plainly (SignalPoll signal)) (shown_reply shown)) }
        ensures err { IfErr result (λ e. IsRefused self.old self.new (Plainly (SignalPoll signal)) e) }
        ensures called { Called (Plainly (SignalPoll signal)) self.old self.new (shown_told result) }
    {
        self.machine.poll_signal(self.out, signal)
    }

    /// Gives a signal up. With the last one of a group whose value came, those are woken who wait by its completions. It
    /// takes no memory. Where it was given up before it does nothing, and writes no entry.
    pub fn close_signal(&mut self, signal: u64)
        requires { MayCall self.old.told.state self.old.out }
        ensures kept { Kept G.stream self.old self.new }
        ensures spent { SpentBy self.old self.new (Plainly (SignalClose signal)) }
        ensures lacked { self.new.lacked ≡ self.old.lacked }
    {
        self.machine.close_signal(self.out, signal)
    }

    /// Gives a signaler up without a value, so that none comes by its signals. Who waits for them is woken. It takes no
    /// memory. Where the signaler was spent before it does nothing, and writes no entry.
    pub fn close_signaler(&mut self, signaler: u64)
        requires { MayCall self.old.told.state self.old.out }
        ensures kept { Kept G.stream self.old self.new }
        ensures spent { SpentBy self.old self.new (Plainly (SignalerClose signaler)) }
        ensures lacked { self.new.lacked ≡ self.old.lacked }
    {
        self.machine.close_signaler(self.out, signaler)
    }

    /// Polls a completion: it is met once the value of its group came and each signal of it was given up. It takes memory.
    ///
    /// Errors: `UnknownToken` where the completion was given up, `NoMemory`.
    pub fn poll_completion(&mut self, completion: u64) -> Result<Poll<()>, Error>
        requires { MayCall self.old.told.state self.old.out }
        ensures kept { Kept G.stream self.old self.new }
        ensures ok { IfOk result (λ met. Made self.old self.new (Plainly (CompletionPoll completion)) (met_reply met)) }
        ensures err { IfErr result (λ e. IsRefused self.old self.new (Plainly (CompletionPoll completion)) e) }
        ensures called { Called (Plainly (CompletionPoll completion)) self.old self.new (met_told result) }
    {
        self.machine.poll_completion(self.out, completion)
    }

    /// Gives a completion up. It takes no memory. Where it was given up before it does nothing, and writes no entry.
    pub fn close_completion(&mut self, completion: u64)
        requires { MayCall self.old.told.state self.old.out }
        ensures kept { Kept G.stream self.old self.new }
        ensures spent { SpentBy self.old self.new (Plainly (CompletionClose completion)) }
        ensures lacked { self.new.lacked ≡ self.old.lacked }
    {
        self.machine.close_completion(self.out, completion)
    }

    /// Begins the shutdown with this value, and returns the number of a completion, which is met once each signal of
    /// [`stopped`](Self::stopped) was given up. These signals show the value from then on; where the shutdown began
    /// before, its value stays. It takes memory.
    pub fn stop(&mut self, value: i32) -> Result<u64, NoMemory>
        requires { MayCall self.old.told.state self.old.out }
        ensures kept { Kept G.stream self.old self.new }
        ensures ok { IfOk result (λ completion. Made self.old self.new (Plainly (Stop value)) (CompletionAt completion)) }
        ensures err { OnErr result (self.new ≡ lacking self.old) }
        ensures called { Called (Plainly (Stop value)) self.old self.new (stop_told result) }
    {
        self.begin_stop(value)
    }

    /// Begins the shutdown, by what it writes alone.
    fn begin_stop(&mut self, value: i32) -> Result<u64, NoMemory>
        requires { MayCall self.old.told.state self.old.out }
        ensures kept { Kept G.stream self.old self.new }
        ensures ok { IfOk result (λ completion. Made self.old self.new (Plainly (Stop value)) (CompletionAt completion)) }
        ensures err { OnErr result (self.new ≡ lacking self.old) }
    {
        self.machine.stop(self.out, value)
    }

    /// Makes a signal of the shutdown, or returns the value with which that began. It takes memory.
    pub fn stopped(&mut self) -> Result<Stopped, NoMemory>
        requires { MayCall self.old.told.state self.old.out }
        ensures kept { Kept G.stream self.old self.new }
        ensures ok { IfOk result (λ stopped. Made self.old self.new (Plainly StoppedCall) (stopped_reply stopped)) }
        ensures err { OnErr result (self.new ≡ lacking self.old) }
        ensures called { Called (Plainly StoppedCall) self.old self.new (stopped_told result) }
    {
        self.machine.stopped(self.out)
    }
}
