//! The calls of tasks and of the maker on the world.

ghost use Rattle.std.specs.Prelude.{ℕ, ◌≡◌, ◌≤◌, IfOk, IfErr, OnErr, OnOk, None, true, false};
ghost use Rattle.rt_audit.specs.declared.call.Call.TheVariants.{Child, CloseNode, Abort, AbortTask, Wake as WakeCall, Join, GiveUp};
ghost use Rattle.rt_audit.specs.declared.reply.CallReply.TheVariants.{Done, NodeAt};
ghost use Rattle.rt_model.specs.Rules.{MayCall};
ghost use Rattle.rt_model.specs.Turns.{Plainly, Sleeping};
ghost use Rattle.rt_machine.specs.Calls.{sleep_reply, slept_number};
ghost use Rattle.rt_world.specs.Calls.{Kept, Made, SpentBy, IsRefused, Joined, lacking};
ghost use Rattle.rt_world.specs.Walked.{Called, child_told, join_told, sleep_told, wake_told};

use crate::World;
use rand_core::Rng;
use rt_base::{Error, MAX_TIME, Nanos, NoMemory};

#[tactic(auto, using(crate::proofs::Walked::call_laws, crate::proofs::Walked::stay_laws, crate::proofs::Calling::seated_laws, crate::proofs::Slotted::slotted_laws), unfolding(rt_model::specs::Effects::after))]
impl<T, O, G: Rng> World<T, O, G> {
    /// Marks that a call ran out of memory, for one that takes memory of its own before it calls the world.
    #[tactic(auto, using(crate::proofs::Drawing::lack_laws))]
    pub fn lack(&mut self)
        ensures state { self.new ≡ lacking self.old }
        ensures kept { Kept G.stream self.old self.new }
    {
        self.machine.lack();
    }

    /// Makes a child of a node, and returns its number, and whether the node has ended: then the child is born ended.
    /// It takes memory.
    ///
    /// Errors: `NoMemory` at any time, or else the first that holds: `UnknownToken` where the node isn't live,
    /// `Metric` where the label isn't valid or the full one is reserved.
    pub fn child(&mut self, node: u64, label: &str) -> Result<(u64, bool), Error>
        requires { MayCall self.old.told.state self.old.out }
        ensures kept { Kept G.stream self.old self.new }
        ensures ok { IfOk result (λ made. Made self.old self.new (Plainly (Child node label.now)) (NodeAt made.0 made.1)) }
        ensures err { IfErr result (λ e. IsRefused self.old self.new (Plainly (Child node label.now)) e) }
        ensures called { Called (Plainly (Child node label.now)) self.old self.new (child_told result) }
    {
        self.machine.child(self.out, node, label)
    }

    /// Closes the context of a node. It takes no memory. Where the node isn't live it does nothing, and writes no entry.
    pub fn close_node(&mut self, node: u64)
        requires { MayCall self.old.told.state self.old.out }
        ensures kept { Kept G.stream self.old self.new }
        ensures spent { SpentBy self.old self.new (Plainly (CloseNode node)) }
        ensures lacked { self.new.lacked ≡ self.old.lacked }
    {
        self.machine.close_node(self.out, node)
    }

    /// Aborts a task by its handle: it is flagged, and woken where it was left pending. It takes no memory. Where the
    /// handle was used so before it does nothing, and writes no entry.
    pub fn abort(&mut self, task: u64)
        requires { MayCall self.old.told.state self.old.out }
        ensures kept { Kept G.stream self.old self.new }
        ensures spent { SpentBy self.old self.new (Plainly (Abort task)) }
        ensures lacked { self.new.lacked ≡ self.old.lacked }
    {
        self.machine.abort(self.out, task)
    }

    /// Aborts a task by its number: it is flagged, and woken where it was left pending. It is refused with
    /// `UnknownToken` exactly where no task with this number runs that was spawned. It takes memory.
    pub fn abort_task(&mut self, task: u64) -> Result<(), Error>
        requires { MayCall self.old.told.state self.old.out }
        ensures kept { Kept G.stream self.old self.new }
        ensures ok { OnOk result (Made self.old self.new (Plainly (AbortTask task)) Done) }
        ensures err { IfErr result (λ e. IsRefused self.old self.new (Plainly (AbortTask task)) e) }
        ensures called { Called (Plainly (AbortTask task)) self.old self.new (wake_told result) }
    {
        self.machine.abort_task(self.out, task)
    }

    /// Queues a task without another test. It is refused with `UnknownToken` exactly where the number was never given
    /// in this run. It takes memory.
    pub fn wake(&mut self, task: u64) -> Result<(), Error>
        requires { MayCall self.old.told.state self.old.out }
        ensures kept { Kept G.stream self.old self.new }
        ensures ok { OnOk result (Made self.old self.new (Plainly (WakeCall task)) Done) }
        ensures err { IfErr result (λ e. IsRefused self.old self.new (Plainly (WakeCall task)) e) }
        ensures called { Called (Plainly (WakeCall task)) self.old self.new (wake_told result) }
    {
        self.machine.wake(self.out, task)
    }

    /// Polls a sleep that is over at `due`, in nanoseconds since the epoch, and returns the number of the alarm that
    /// will wake the task, or `None` where the sleep is over. `alarm` is the number of this sleep's alarm, and counts
    /// only where that alarm is still set for `due`; else a new one is set. It takes memory.
    pub fn sleep_poll(&mut self, due: Nanos, alarm: Option<u64>) -> Result<Option<u64>, NoMemory>
        requires calling { MayCall self.old.told.state self.old.out }
        requires due { due ≤ MAX_TIME }
        ensures kept { Kept G.stream self.old self.new }
        ensures told { IfOk result (λ told. told ≡ slept_number self.old.told.state.clock.time self.old.told.state.stood.alarms due alarm) }
        ensures ok { IfOk result (λ told. Made self.old self.new (Sleeping due alarm) (sleep_reply told)) }
        ensures err { OnErr result (self.new ≡ lacking self.old) }
        ensures called { Called (Sleeping due alarm) self.old self.new (sleep_told result) }
    {
        self.machine.sleep_poll(self.out, due, alarm)
    }
}

#[tactic(auto, using(crate::proofs::Walked::call_laws, crate::proofs::Walked::stay_laws, crate::proofs::Calling::seated_laws, crate::proofs::Slotted::slotted_laws), unfolding(rt_model::specs::Effects::after))]
impl<T, O: Drop, G: Rng> World<T, O, G> {
    /// Polls the result of a task, and returns the output where it is there, once. It takes memory.
    ///
    /// Errors: `Exited` where the task reported a panic, `Closed` where it ended without a result or the result was
    /// taken, `UnknownToken` where the result was given up, `NoMemory`.
    pub fn join(&mut self, task: u64) -> Result<Option<O>, Error>
        requires { MayCall self.old.told.state self.old.out }
        ensures kept { Kept G.stream self.old self.new }
        ensures ok { IfOk result (λ value. Joined self.old self.new task value) }
        ensures err { IfErr result (λ e. IsRefused self.old self.new (Plainly (Join task)) e) }
        ensures called { Called (Plainly (Join task)) self.old self.new (join_told result) }
    {
        if !self.machine.join(self.out, task)? {
            return Ok(None);
        }
        match self.outputs.take(task) {
            Some(value) => Ok(Some(value)),
            None => unreachable!(),
        }
    }

    /// Gives the result of a task up. It takes no memory. Where it was given up before it does nothing, and writes no
    /// entry.
    pub fn give_up(&mut self, task: u64)
        requires { MayCall self.old.told.state self.old.out }
        ensures kept { Kept G.stream self.old self.new }
        ensures spent { SpentBy self.old self.new (Plainly (GiveUp task)) }
        ensures lacked { self.new.lacked ≡ self.old.lacked }
    {
        if !self.machine.has_result(task) {
            return;
        }
        self.machine.give_up(self.out, task);
        self.outputs.remove(task);
    }
}
