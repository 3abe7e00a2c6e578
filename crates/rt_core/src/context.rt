//! Contexts: where a task is in the tree of its run.

ghost use Rattle.std.specs.Prelude.{◌≡◌, ◌≤◌, ◌++◌, Bool, true, Option, None, length, IfOk, IfErr, OnOk, Result};
ghost use Rattle.rand_core.specs.Stream.{next_u32, next_u64, fill_bytes};
ghost use Rattle.rt_base.specs.Attributes.{with_attribute};
ghost use Rattle.rt_base.specs.Label.{is_label};
ghost use Rattle.rt_base.specs.declared.execution.Execution.TheVariants.{Shared, Dedicated as IsDedicated};
ghost use Rattle.rt_audit.specs.declared.call.Call.TheVariants.{Child, CloseNode, Stopped as StoppedCall, NextU32, NextU64, FillBytes, Auditor as AuditorCall};
ghost use Rattle.rt_audit.specs.declared.reply.CallReply.TheVariants.{NodeAt, Number, Bytes};
ghost use Rattle.rt_audit.specs.Journal.{digest_of};
ghost use Rattle.rt_model.specs.Rules.{MayCall};
ghost use Rattle.rt_model.specs.Turns.{Plainly};
ghost use Rattle.rt_model.specs.Walk.{Step, then};
ghost use Rattle.rt_model.specs.declared.answer.Answer.{Answer};
ghost use Rattle.rt_machine.specs.Told.{own};
ghost use Rattle.rt_world.specs.Calls.{IsRefused, Kept, Made, lacking};
ghost use Rattle.rt_world.specs.Walked.{Closes, Goes, Polled, Rooted};
ghost use Rattle.rt_core.specs.Contexts.{IsMakerOf, IsRefusedKey, IsSpawned, IsSpawnedBy, IsSpawnedWith, IsSpawnedWithBy, IsStarted, IsUnstarted, child_name, childs, context_on, root_context, spawn_told, spawn_with_told, spawning, spawns, spawns_with, starts};
ghost use Rattle.rt_core.specs.Drawing.{asks_auditor, asks_bytes, asks_u32, asks_u64, filled_with};
ghost use Rattle.rt_core.specs.Handles.{TaskHandle};
ghost use Rattle.rt_core.specs.Pollers.{sleep_for, sleep_until};
ghost use Rattle.rt_core.specs.Signals.{asks_stopped, kind_reply};
ghost use Rattle.rt_core.specs.declared.stop.Stopping.TheVariants.{Begins};

use crate::handle::HandleOf;
use crate::handover::Handover;
use crate::signals::SignalKind;
use crate::small_name::SmallName;
use crate::stop::Stopping;
use crate::{NoPoller, Signal, Sleep, Stop, Timeout};
use rand_core::Rng;
use rt_audit::Auditor;
use rt_base::{
    Error, Execution, MAX_TIME, MetricError, Name, Nanos, NoMemory, Refused, validate_label,
};
use rt_world::{Spawned, Stopped, World};
use std::alloc::Global;
use std::marker::Model;

/// A context on a node of the run, with its name and a hint of where a task spawned on it runs. It is a token: it must be
/// spent by [`spawn`](Self::spawn) or [`close`](Self::close).
///
/// Contracts see its node, its name and its hint.
pub struct Context {
    node: u64,
    name: SmallName,
    execution: Execution,
    alloc: Global,
}

impl Model for Context {
    ghost use Rattle.rt_core.specs.Contexts.{Context};

    ghost Value = { Context };

    ghost view = { λ c. record { node = c.node; name = c.name; execution = c.execution } };
}

impl Context {
    /// A context on a node, with this name.
    pub(crate) fn on(alloc: Global, node: u64, name: SmallName) -> Self
        ensures { result ≡ context_on node name }
    {
        Context {
            node,
            name,
            execution: Execution::Shared(false),
            alloc,
        }
    }

    /// Returns the context of a run's root.
    pub(crate) fn root(alloc: Global) -> Self
        ensures { result ≡ root_context }
    {
        Context::on(alloc, 0, SmallName::empty(alloc))
    }

    /// Returns a copy of the context's name, its label and attributes. It is refused with `NoMemory` alone.
    pub fn name(&self) -> Result<Name, Error>
        ensures ok { IfOk result (λ name. name ≡ self.now.name) }
        ensures err { IfErr result (λ error. error ≡ Error.NoMemory) }
    {
        Ok(self.name.to_name(self.alloc)?)
    }

    /// Returns the context with this attribute; a key that is there gets this value. A refusal hands the context back
    /// as it was.
    ///
    /// Errors: `Metric(BadLabel)` exactly where the key isn't valid, or else `NoMemory`.
    pub fn with_attribute(self, key: &str, value: &str) -> Result<Context, Refused<Context>>
        ensures ok { IfOk result (λ context. (is_label key.now ≡ true) × (context ≡ record self { name = record self.name { attributes = with_attribute self.name.attributes key.now value.now } })) }
        ensures err { IfErr result (λ refused. (refused.back ≡ self) × IsRefusedKey key.now refused.error) }
    {
        if let Err(kind) = validate_label(key) {
            return Err(Refused {
                back: self,
                error: Error::Metric(kind),
            });
        }
        let Context {
            node,
            name,
            execution,
            alloc,
        } = self;
        let (name, added) = name.with_attribute(alloc, key, value);
        let back = Context {
            node,
            name,
            execution,
            alloc,
        };
        match added {
            Ok(()) => Ok(back),
            Err(NoMemory) => Err(Refused {
                back,
                error: Error::NoMemory,
            }),
        }
    }

    /// Returns the context with the hint that a task spawned on it runs among the others, and whether it may block.
    pub fn shared(mut self, blocking: bool) -> Context
        ensures { result ≡ record self { execution = Shared blocking } }
    {
        self.execution = Execution::Shared(blocking);
        self
    }

    /// Returns the context with the hint that a task spawned on it runs on a thread of its own.
    pub fn dedicated(mut self) -> Context
        ensures { result ≡ record self { execution = IsDedicated } }
    {
        self.execution = Execution::Dedicated;
        self
    }

    /// Makes a context on a fresh child of its node, with the same attributes and no hint. The label is the parent's,
    /// where it has one, then `_`, and this one. The child of a node that has ended is born ended. It takes memory.
    ///
    /// Errors: `NoMemory` at any time, or else the first that holds: `UnknownToken`, `Metric` with `BadLabel` where
    /// the label isn't valid, or `Reserved` where the full one begins with `runtime`.
    #[tactic(auto, using(rt_world::proofs::Walked::tell_laws), unfolding(crate::specs::Contexts::childs))]
    pub fn child<T, O, G: Rng>(
        &self,
        world: &mut World<T, O, G>,
        label: &str,
    ) -> Result<Context, Error>
        requires { MayCall world.old.told.state world.old.out }
        ensures kept { Kept G.stream world.old world.new }
        ensures ok { IfOk result (λ c. (ended : Bool) × Made world.old world.new (Plainly (Child self.now.node label.now)) (NodeAt c.node ended)) }
        ensures name { IfOk result (λ c. c ≡ context_on c.node (child_name self.now.name label.now)) }
        ensures err { IfErr result (λ e. IsRefused world.old world.new (Plainly (Child self.now.node label.now)) e) }
        ensures steps { Goes (childs self.now label.now) world.old world.new result tt }
    {
        let Ok(name) = self.name.child_name(self.alloc, label) else {
            world.lack();
            return Err(Error::NoMemory);
        };
        match world.child(self.node, label) {
            Ok((node, _)) => Ok(Context::on(self.alloc, node, name)),
            Err(error) => Err(error),
        }
    }

    /// Spawns a task on the context's node, and returns its handle. The task is made of a context on a fresh child of
    /// that node, with the same label and attributes and no hint. On a node that has ended nothing is made, and the
    /// handle holds `Closed`. It takes memory.
    ///
    /// Errors, each of which hands the context back: `NoMemory` at any time, or else the first that holds:
    /// `UnknownToken`, `TooManyTasks` exactly where the next number is `u64::MAX`.
    pub fn spawn<T, O, G: Rng, F: FnOnce(Context) -> T + Drop>(
        self,
        world: &mut World<T, O, G>,
        make: F,
    ) -> Result<HandleOf<O, NoPoller>, Refused<Context>>
        requires calling { MayCall world.old.told.state world.old.out }
        requires callable { F.IsAlwaysCallable make }
        ensures kept { Kept G.stream world.old world.new }
        ensures back { IfErr result (λ refused. refused.back ≡ self) }
        ensures ok { (makes : Context → T) → IsMakerOf (F.post make) makes → IfOk result (λ handle. IsSpawned self makes world.old world.new handle) }
        ensures taken_in { IfOk result (λ handle. IsSpawnedBy (F.post make) self world.old world.new handle) }
        ensures err { (makes : Context → T) → IfErr result (λ refused. IsRefused world.old world.new (spawning self makes) refused.error) }
        ensures steps { (makes : Context → T) → IsMakerOf (F.post make) makes → Goes (spawns self makes) world.old world.new (spawn_told result) tt }
        ensures polls { (makes : Context → T) (more : Result (TaskHandle O) Error → Unit {0} → Step T T O (Answer O)) (end : World T O G) (answer : Answer O) (left : T) → IsMakerOf (F.post make) makes → Polled (more (spawn_told result) tt) world.new end answer left → Polled (then (spawns self makes) more) world.old end answer left }
        ensures roots { (makes : Context → T) (more : Result (TaskHandle O) Error → Unit {0} → Step T T O (Unit {0})) (end : World T O G) (root : Result T NoMemory) → IsMakerOf (F.post make) makes → Rooted (more (spawn_told result) tt) world.new end root → Rooted (then (spawns self makes) more) world.old end root }
    {
        let made = |(), context|
            requires { F.IsAlwaysCallable make }
            ensures { F.post make context result }
        { make(context) };
        match self.spawn_with(world, (), made) {
            Ok((handle, _)) => Ok(handle),
            Err(
                Refused {
                    back: (back, ()),
                    error,
                },
            ) => Err(Refused { back, error }),
        }
    }

    /// Spawns a task as [`spawn`](Self::spawn) does, whose state is made of what is given along, too, and returns its
    /// handle. What is given may hold tokens: they go along with the task. On a node that has ended nothing is made of
    /// it, and it comes back beside the handle. A refusal hands it back with the context, and has the errors of `spawn`.
    #[tactic(auto, using(rt_world::proofs::Walked::tell_laws), unfolding(crate::specs::Contexts::spawns_with))]
    pub fn spawn_with<T, O, G: Rng, C, F: FnOnce(C, Context) -> T + Drop>(
        self,
        world: &mut World<T, O, G>,
        given: C,
        make: F,
    ) -> Result<(HandleOf<O, NoPoller>, Option<C>), Refused<(Context, C)>>
        requires calling { MayCall world.old.told.state world.old.out }
        requires callable { F.IsAlwaysCallable make }
        ensures kept { Kept G.stream world.old world.new }
        ensures back { IfErr result (λ refused. refused.back ≡ (self, given)) }
        ensures ok { (makes : Context → T) → IsMakerOf (F.post make given) makes → IfOk result (λ spawned. IsSpawnedWith self makes given world.old world.new spawned) }
        ensures taken_in { IfOk result (λ spawned. IsSpawnedWithBy (F.post make given) self given world.old world.new spawned) }
        ensures err { (makes : Context → T) → IfErr result (λ refused. IsRefused world.old world.new (spawning self makes) refused.error) }
        ensures steps { (makes : Context → T) → IsMakerOf (F.post make given) makes → Goes (spawns_with self given makes) world.old world.new (spawn_with_told result) tt }
        ensures polls { (makes : Context → T) (more : Result (TaskHandle O × Option C) Error → Unit {0} → Step T T O (Answer O)) (end : World T O G) (answer : Answer O) (left : T) → IsMakerOf (F.post make given) makes → Polled (more (spawn_with_told result) tt) world.new end answer left → Polled (then (spawns_with self given makes) more) world.old end answer left }
        ensures roots { (makes : Context → T) (more : Result (TaskHandle O × Option C) Error → Unit {0} → Step T T O (Unit {0})) (end : World T O G) (root : Result T NoMemory) → IsMakerOf (F.post make given) makes → Rooted (more (spawn_with_told result) tt) world.new end root → Rooted (then (spawns_with self given makes) more) world.old end root }
    {
        let Context {
            node,
            name,
            execution,
            alloc,
        } = self;
        let handover = Handover {
            alloc,
            name,
            given,
            make,
        };
        match world.spawn(node, execution, handover) {
            Ok(Spawned::Runs { task, node: _ }) => Ok((HandleOf::of(task), None)),
            Ok(Spawned::Closed(handover)) => {
                let given = handover.into_given();
                Ok((HandleOf::ready(Err(Error::Closed)), Some(given)))
            }
            Err((error, handover)) => {
                let (name, given) = handover.into_parts();
                let back = Context {
                    node,
                    name,
                    execution,
                    alloc,
                };
                Err(Refused {
                    back: (back, given),
                    error,
                })
            }
        }
    }

    /// Spawns a task on a fresh child with this label, as [`child`](Self::child) and [`spawn`](Self::spawn) do, and
    /// returns its handle. Where the spawn is refused the child is closed. It takes memory.
    ///
    /// Errors: those of `child`, and then those of `spawn`.
    #[tactic(auto, using(rt_world::proofs::Walked::close_laws))]
    pub fn start<T, O, G: Rng, F: FnOnce(Context) -> T + Drop>(
        &self,
        world: &mut World<T, O, G>,
        label: &str,
        make: F,
    ) -> Result<HandleOf<O, NoPoller>, Error>
        requires calling { MayCall world.old.told.state world.old.out }
        requires callable { F.IsAlwaysCallable make }
        ensures kept { Kept G.stream world.old world.new }
        ensures ok { IfOk result (λ handle. IsStarted (F.post make) self.now label.now world.old world.new handle) }
        ensures err { IfErr result (λ error. IsUnstarted self.now label.now world.old world.new error) }
        ensures steps { (makes : Context → T) → IsMakerOf (F.post make) makes → Goes (starts self.now label.now makes) world.old world.new result tt }
        ensures polls { (makes : Context → T) (more : Result (TaskHandle O) Error → Unit {0} → Step T T O (Answer O)) (end : World T O G) (answer : Answer O) (left : T) → IsMakerOf (F.post make) makes → Polled (more result tt) world.new end answer left → Polled (then (starts self.now label.now makes) more) world.old end answer left }
        ensures roots { (makes : Context → T) (more : Result (TaskHandle O) Error → Unit {0} → Step T T O (Unit {0})) (end : World T O G) (root : Result T NoMemory) → IsMakerOf (F.post make) makes → Rooted (more result tt) world.new end root → Rooted (then (starts self.now label.now makes) more) world.old end root }
    {
        let child = self.child(world, label)?;
        match child.spawn(world, make) {
            Ok(handle) => Ok(handle),
            Err(refused) => {
                let Refused { back, error } = refused;
                back.close(world);
                Err(error)
            }
        }
    }

    /// Closes the context, whose node isn't live from then on, and isn't ended by it. Where the node isn't live it
    /// does nothing, and writes no entry. It takes no memory.
    #[tactic(auto, using(rt_world::proofs::Walked::close_laws))]
    pub fn close<T, O, G: Rng>(self, world: &mut World<T, O, G>)
        requires { MayCall world.old.told.state world.old.out }
        ensures kept { Kept G.stream world.old world.new }
        ensures closed { Closes (Plainly (CloseNode self.node)) world.old world.new }
    {
        let Context {
            node,
            name: _,
            execution: _,
            alloc: _,
        } = self;
        world.close_node(node);
    }

    /// Returns the world's time, in nanoseconds since the epoch. It is fixed for a whole visit.
    pub fn current<T, O, G>(&self, world: &World<T, O, G>) -> Nanos
        ensures time { result ≡ world.now.told.state.clock.time }
        ensures within { result ≤ MAX_TIME }
    {
        let _ = &self.node;
        world.now()
    }

    /// Makes a sleep for so many nanoseconds from now on. It is refused with `ClockOverflow` exactly where the sleep
    /// would end past `MAX_TIME`.
    pub fn sleep<T, O, G>(&self, world: &World<T, O, G>, duration: Nanos) -> Result<Sleep, Error>
        ensures { result ≡ sleep_for world.now.told.state.clock.time duration }
    {
        Sleep::lasting(self.current(world), duration)
    }

    /// Makes a sleep until this moment, in nanoseconds since the epoch. It is refused with `ClockOverflow` exactly
    /// where that is past `MAX_TIME`.
    #[tactic(auto, unfolding(crate::specs::Pollers::sleep_until))]
    pub fn sleep_until(&self, deadline: Nanos) -> Result<Sleep, Error>
        ensures { result ≡ sleep_until deadline }
    {
        let _ = &self.node;
        if MAX_TIME < deadline {
            return Err(Error::ClockOverflow);
        }
        Ok(Sleep::until(deadline))
    }

    /// Makes a poller that polls this state for at most so many nanoseconds from its first poll on.
    pub fn timeout<P>(&self, duration: Nanos, state: P) -> Timeout<P>
        ensures { result ≡ record { state = state; duration = duration; sleep = None } }
    {
        let _ = &self.node;
        Timeout {
            state,
            duration,
            sleep: None,
        }
    }

    /// Makes a signal of the run's shutdown, which shows its value from when it begins. Where it began before, the
    /// signal holds that value already. It takes memory, and its only error is `NoMemory`.
    #[tactic(auto, using(rt_world::proofs::Signaled::signal_tell_laws), unfolding(crate::specs::Signals::asks_stopped))]
    pub fn stopped<T, O, G: Rng>(&self, world: &mut World<T, O, G>) -> Result<Signal, Error>
        requires { MayCall world.old.told.state world.old.out }
        ensures kept { Kept G.stream world.old world.new }
        ensures ok { IfOk result (λ signal. Made world.old world.new (Plainly StoppedCall) (kind_reply signal)) }
        ensures err { IfErr result (λ e. (e ≡ Error.NoMemory) × (world.new ≡ lacking world.old)) }
        ensures steps { Goes asks_stopped world.old world.new result tt }
    {
        let _ = &self.node;
        match world.stopped() {
            Ok(Stopped::Waiting(signal)) => Ok(Signal::open(signal)),
            Ok(Stopped::Resolved(value)) => Ok(Signal::of(SignalKind::Resolved(value))),
            Err(NoMemory) => Err(Error::NoMemory),
        }
    }

    /// Returns the next number of 32 bits of the run's generator. It takes memory, and its only error is `NoMemory`:
    /// then nothing is drawn.
    #[tactic(auto, using(rt_world::proofs::Drawing::drawing_tell_laws), unfolding(crate::specs::Drawing::asks_u32))]
    pub fn next_u32<T, O, G: Rng>(&self, world: &mut World<T, O, G>) -> Result<u32, Error>
        requires { MayCall world.old.told.state world.old.out }
        ensures kept { Kept G.stream world.old world.new }
        ensures ok { IfOk result (λ number. Made world.old world.new (Plainly NextU32) (Number number)) }
        ensures gave { IfOk result (λ number. (number, G.stream world.new.rng) ≡ next_u32 (G.stream world.old.rng)) }
        ensures err { IfErr result (λ e. (e ≡ Error.NoMemory) × (world.new ≡ lacking world.old)) }
        ensures steps { Goes asks_u32 world.old world.new result tt }
    {
        let _ = &self.node;
        match world.next_u32() {
            Ok(number) => Ok(number),
            Err(NoMemory) => Err(Error::NoMemory),
        }
    }

    /// Returns the next number of 64 bits of the run's generator. It takes memory, and its only error is `NoMemory`:
    /// then nothing is drawn.
    #[tactic(auto, using(rt_world::proofs::Drawing::drawing_tell_laws), unfolding(crate::specs::Drawing::asks_u64))]
    pub fn next_u64<T, O, G: Rng>(&self, world: &mut World<T, O, G>) -> Result<u64, Error>
        requires { MayCall world.old.told.state world.old.out }
        ensures kept { Kept G.stream world.old world.new }
        ensures ok { IfOk result (λ number. Made world.old world.new (Plainly NextU64) (Number number)) }
        ensures gave { IfOk result (λ number. (number, G.stream world.new.rng) ≡ next_u64 (G.stream world.old.rng)) }
        ensures err { IfErr result (λ e. (e ≡ Error.NoMemory) × (world.new ≡ lacking world.old)) }
        ensures steps { Goes asks_u64 world.old world.new result tt }
    {
        let _ = &self.node;
        match world.next_u64() {
            Ok(number) => Ok(number),
            Err(NoMemory) => Err(Error::NoMemory),
        }
    }

    /// Fills `dest` with the next bytes of the run's generator. It takes memory, and its only error is `NoMemory`: then
    /// nothing is drawn, and `dest` is as before.
    #[tactic(auto, using(rt_world::proofs::Drawing::drawing_tell_laws), unfolding(crate::specs::Drawing::asks_bytes))]
    pub fn fill_bytes<T, O, G: Rng>(
        &self,
        world: &mut World<T, O, G>,
        dest: &mut [u8],
    ) -> Result<(), Error>
        requires { MayCall world.old.told.state world.old.out }
        ensures kept { Kept G.stream world.old world.new }
        ensures ok { OnOk result (Made world.old world.new (Plainly (FillBytes (length dest.old))) (Bytes dest.new)) }
        ensures gave { OnOk result ((dest.new, G.stream world.new.rng) ≡ fill_bytes (length dest.old) (G.stream world.old.rng)) }
        ensures err { IfErr result (λ e. (e ≡ Error.NoMemory) × (world.new ≡ lacking world.old) × (dest.new ≡ dest.old)) }
        ensures steps { Goes (asks_bytes (length dest.old)) world.old world.new (filled_with dest.new result) tt }
    {
        let _ = &self.node;
        match world.fill_bytes(dest) {
            Ok(()) => Ok(()),
            Err(NoMemory) => Err(Error::NoMemory),
        }
    }

    /// Returns the digest of all events so far, of those of earlier runs too. It takes memory, and its only error is
    /// `NoMemory`.
    #[tactic(auto, using(rt_world::proofs::Drawing::drawing_tell_laws), unfolding(crate::specs::Drawing::asks_auditor))]
    pub fn auditor<T, O, G: Rng>(&self, world: &mut World<T, O, G>) -> Result<Auditor, Error>
        requires { MayCall world.old.told.state world.old.out }
        ensures kept { Kept G.stream world.old world.new }
        ensures ok { IfOk result (λ auditor. Made world.old world.new (Plainly AuditorCall) (Bytes auditor)) }
        ensures digest { IfOk result (λ auditor. auditor ≡ digest_of (world.old.told.given ++ own world.old.told)) }
        ensures err { IfErr result (λ e. (e ≡ Error.NoMemory) × (world.new ≡ lacking world.old)) }
        ensures steps { Goes asks_auditor world.old world.new result tt }
    {
        let _ = &self.node;
        match world.auditor() {
            Ok(auditor) => Ok(auditor),
            Err(NoMemory) => Err(Error::NoMemory),
        }
    }

    /// Makes a poller that stops the run with this value at its first poll, and is then ready once each signal of the
    /// shutdown was given up; where a limit is given, for at most so many nanoseconds.
    pub fn stop(self, value: i32, timeout: Option<Nanos>) -> Stop
        ensures { result ≡ record { context = self; value = value; timeout = timeout; stage = Begins } }
    {
        Stop {
            context: self,
            value,
            timeout,
            stage: Stopping::Begins,
        }
    }
}
