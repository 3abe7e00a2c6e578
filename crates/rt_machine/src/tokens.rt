//! Calls that spawn tasks, and calls on their results.

ghost use Rattle.std.specs.Prelude.{◌≡◌, ◌≤◌, ◌<◌, ◌+◌, ◌^◌, ◌-◌, IfOk, IfErr, OnErr, OnOk, length, true, false, Option, None, Some, is_some, IfSome};
ghost use Rattle.rt_super.specs.Ancestry.{is_ended, is_known, with_child, with_task};
ghost use Rattle.rt_model.specs.Lists.{find};
ghost use Rattle.rt_model.specs.Effects.{is_closing};
ghost use Rattle.rt_model.specs.Rules.{Answers, MayCall, is_free};
ghost use Rattle.rt_machine.specs.Calls.{Noted, Spent, IsRefused, lacking, spawn_reply, join_reply};
ghost use Rattle.rt_machine.specs.Places.{open_places};

use crate::Machine;
use crate::cause::Cause;
use crate::labels::Labels;
use crate::results::note_abort;
use crate::room::take_places;
use crate::wakes::wake_flagged;
use rt_audit::{Call, CallReply, Caller, Entry};
use rt_base::{Error, NoMemory, Packed};
use rt_model::{Mark, Outcome, Table, TaskResult};
use rt_parts::{may_abort, places_of, settle};
use rt_super::Tree;

#[tactic(auto, using(crate::proofs::Counts::count_laws, crate::proofs::Totals::place_laws, crate::proofs::Nodes::node_laws, crate::proofs::Over::over_laws, crate::proofs::Owed::owed_laws), unfolding(rt_model::specs::Effects::after))]
impl Machine {
    /// Returns whether a task may be put on a node: it is live, and without one.
    fn is_free(&self, node: u64) -> bool
        ensures { result ≡ is_free self.now.told.state.stood.nodes node }
    {
        self.tree.lives(node) && self.tree.task_of(node).is_none()
    }

    /// Spawns a task on a node, and returns its number and the node of its own context, or nothing where the node has
    /// ended; that is closed then. It takes memory. In a cleanup no task is spawned.
    ///
    /// Errors: `UnknownToken` where the node isn't live or has a task, then `TooManyTasks` where no number is left;
    /// `NoMemory`.
    pub fn spawn(&mut self, by: Option<u64>, node: u64) -> Result<Option<(u64, u64)>, Error>
        requires { MayCall self.old.told.state by }
        ensures ok { IfOk result (λ at. Noted by self.old self.new (Call.Spawn node) (spawn_reply at)) }
        ensures err { IfErr result (λ e. IsRefused by self.old self.new (Call.Spawn node) e) }
        ensures closing { is_closing self.old.told.state.phase ≡ true → IfOk result (λ at. at ≡ None) }
    {
        let call = Call::Spawn { node };
        if !self.is_free(node) {
            return Err(self.refuse(by, call, Cause::UnknownToken));
        }
        if self.next == u64::MAX {
            return Err(self.refuse(by, call, Cause::TooManyTasks));
        }
        if self.tree.has_ended(node) {
            self.spawn_closed(by, node)
        } else {
            self.spawn_running(by, node)
        }
    }

    /// Notes a spawn on a node that has ended.
    fn spawn_closed(&mut self, by: Option<u64>, node: u64) -> Result<Option<(u64, u64)>, Error>
        requires calling { MayCall self.old.told.state by }
        requires free { is_free self.old.told.state.stood.nodes node ≡ true }
        requires left { self.old.told.state.numbers.next < 2 ^ 64 - 1 }
        requires ended { is_ended self.old.told.state.stood.nodes node ≡ true }
        ensures ok { IfOk result (λ at. (at ≡ None) × Noted by self.old self.new (Call.Spawn node) CallReply.Closed) }
        ensures err { IfErr result (λ e. (e ≡ Error.NoMemory) × (self.new ≡ lacking self.old)) }
    {
        let Ok(()) = take_places(&mut self.journal, &mut self.ready, self.promised, 1) else {
            self.lack();
            return Err(Error::NoMemory);
        };
        self.journal.note(Entry::Call {
            by: Caller::of(by),
            call: Call::Spawn { node },
            reply: CallReply::Closed,
        });
        self.tree.release(node);
        self.promised -= 1;
        Ok(None)
    }

    /// Notes a spawn on a node that hasn't ended, and puts the task there.
    fn spawn_running(&mut self, by: Option<u64>, node: u64) -> Result<Option<(u64, u64)>, Error>
        requires calling { MayCall self.old.told.state by }
        requires free { is_free self.old.told.state.stood.nodes node ≡ true }
        requires left { self.old.told.state.numbers.next < 2 ^ 64 - 1 }
        requires open { is_ended self.old.told.state.stood.nodes node ≡ false }
        ensures ok { IfOk result (λ at. IfSome at (λ at. Noted by self.old self.new (Call.Spawn node) (CallReply.TaskAt at.0 at.1))) }
        ensures some { IfOk result (λ at. is_some at ≡ true) }
        ensures running { IfOk result (λ at. is_closing self.old.told.state.phase ≡ false) }
        ensures err { IfErr result (λ e. (e ≡ Error.NoMemory) × (self.new ≡ lacking self.old)) }
    {
        let task = self.next;
        let Ok(()) = take_places(&mut self.journal, &mut self.ready, self.promised, 8) else {
            self.lack();
            return Err(Error::NoMemory);
        };
        let Ok(()) = reserve_task(&mut self.labels, &mut self.marks, &mut self.results) else {
            self.lack();
            return Err(Error::NoMemory);
        };
        let Ok(number) = seat(&mut self.tree, node, task) else {
            self.lack();
            return Err(Error::NoMemory);
        };
        self.journal.note(Entry::Call {
            by: Caller::of(by),
            call: Call::Spawn { node },
            reply: CallReply::TaskAt { task, node: number },
        });
        self.labels.repeat(node);
        self.marks.push(Mark {
            node: Packed::new(node),
            left: false,
            flagged: false,
        });
        self.results.push(TaskResult {
            outcome: Outcome::Open { waits: None },
            aborted: false,
        });
        self.next = task + 1;
        self.promised += 6;
        self.ready.push_reserved(task);
        Ok(Some((task, number)))
    }

    /// Aborts a task by its handle: it flags the task, and wakes it where it was left pending. It takes no memory.
    /// Where the handle was used so before it does nothing, and writes no entry.
    pub fn abort(&mut self, by: Option<u64>, task: u64)
        requires { MayCall self.old.told.state by }
        ensures { Spent by self.old self.new (Call.Abort task) }
    {
        if !may_abort(&self.results, task) {
            return;
        }
        self.journal.note(Entry::Call {
            by: Caller::of(by),
            call: Call::Abort { task },
            reply: CallReply::Done,
        });
        note_abort(&mut self.results, task);
        self.promised -= 1;
        let left = wake_flagged(
            &mut self.journal,
            &mut self.ready,
            &mut self.marks,
            self.closing,
            task,
        );
        if left {
            self.promised -= 1;
        }
    }

    /// Aborts a task by its number: it flags the task, and wakes it where it was left pending. It takes memory.
    ///
    /// Errors: `UnknownToken` where no spawned task with this number runs, `NoMemory`.
    pub fn abort_task(&mut self, by: Option<u64>, task: u64) -> Result<(), Error>
        requires { MayCall self.old.told.state by }
        ensures ok { OnOk result (Noted by self.old self.new (Call.AbortTask task) CallReply.Done) }
        ensures err { IfErr result (λ e. IsRefused by self.old self.new (Call.AbortTask task) e) }
    {
        let call = Call::AbortTask { task };
        if self.marks.get(task).is_none() {
            return Err(self.refuse(by, call, Cause::UnknownToken));
        }
        let Ok(()) = take_places(&mut self.journal, &mut self.ready, self.promised, 2) else {
            self.lack();
            return Err(Error::NoMemory);
        };
        let reply = CallReply::Done;
        self.journal.note(Entry::Call {
            by: Caller::of(by),
            call,
            reply,
        });
        let left = wake_flagged(
            &mut self.journal,
            &mut self.ready,
            &mut self.marks,
            self.closing,
            task,
        );
        if left {
            self.promised -= 1;
        }
        Ok(())
    }

    /// Polls the result of a task, and returns whether it is there; then it was taken. Else the caller waits. It takes
    /// memory.
    ///
    /// Errors: `UnknownToken` where the result was given up, `Exited` where the task reported a panic, `Closed` where
    /// no result comes any more; `NoMemory`.
    pub fn join(&mut self, by: Option<u64>, task: u64) -> Result<bool, Error>
        requires { MayCall self.old.told.state by }
        ensures ok { IfOk result (λ there. Noted by self.old self.new (Call.Join task) (join_reply there)) }
        ensures err { IfErr result (λ e. IsRefused by self.old self.new (Call.Join task) e) }
    {
        let call = Call::Join { task };
        let Some(found) = self.results.get(task) else {
            return Err(self.refuse(by, call, Cause::UnknownToken));
        };
        match found.outcome {
            Outcome::Open { .. } => self.join_open(by, task),
            Outcome::There => self.join_there(by, task),
            Outcome::Exited => Err(self.refuse(by, call, Cause::Exited)),
            Outcome::Closed => Err(self.refuse(by, call, Cause::Closed)),
        }
    }

    /// Notes a poll of a result that is open, for which the caller waits then.
    fn join_open(&mut self, by: Option<u64>, task: u64) -> Result<bool, Error>
        requires calling { MayCall self.old.told.state by }
        requires open { (r : TaskResult) × (find task self.old.told.state.stood.results ≡ Some r) × (open_places r.outcome ≡ 1) × Answers self.old.told.state (Call.Join task) CallReply.Pending }
        ensures ok { IfOk result (λ there. (there ≡ false) × Noted by self.old self.new (Call.Join task) CallReply.Pending) }
        ensures err { IfErr result (λ e. (e ≡ Error.NoMemory) × (self.new ≡ lacking self.old)) }
    {
        let Ok(()) = take_places(&mut self.journal, &mut self.ready, self.promised, 1) else {
            self.lack();
            return Err(Error::NoMemory);
        };
        self.journal.note(Entry::Call {
            by: Caller::of(by),
            call: Call::Join { task },
            reply: CallReply::Pending,
        });
        let _before = settle(&mut self.results, task, Outcome::Open { waits: by });
        Ok(false)
    }

    /// Notes a poll of a result that is there, and takes it.
    fn join_there(&mut self, by: Option<u64>, task: u64) -> Result<bool, Error>
        requires calling { MayCall self.old.told.state by }
        requires there { Answers self.old.told.state (Call.Join task) CallReply.Ready }
        ensures ok { IfOk result (λ there. (there ≡ true) × Noted by self.old self.new (Call.Join task) CallReply.Ready) }
        ensures err { IfErr result (λ e. (e ≡ Error.NoMemory) × (self.new ≡ lacking self.old)) }
    {
        let Ok(()) = take_places(&mut self.journal, &mut self.ready, self.promised, 1) else {
            self.lack();
            return Err(Error::NoMemory);
        };
        self.journal.note(Entry::Call {
            by: Caller::of(by),
            call: Call::Join { task },
            reply: CallReply::Ready,
        });
        let _waiter = settle(&mut self.results, task, Outcome::Closed);
        Ok(true)
    }

    /// Returns whether the result of a task wasn't given up.
    pub fn has_result(&self, task: u64) -> bool
        ensures { result ≡ is_some (find task self.now.told.state.stood.results) }
    {
        self.results.get(task).is_some()
    }

    /// Gives the result of a task up. It takes no memory. Where it was given up before it does nothing, and writes no
    /// entry.
    pub fn give_up(&mut self, by: Option<u64>, task: u64)
        requires { MayCall self.old.told.state by }
        ensures spent { Spent by self.old self.new (Call.GiveUp task) }
        ensures gone { find task self.new.told.state.stood.results ≡ None }
    {
        let Some(found) = self.results.get(task) else {
            return;
        };
        self.journal.note(Entry::Call {
            by: Caller::of(by),
            call: Call::GiveUp { task },
            reply: CallReply::Done,
        });
        self.results.remove(task);
        self.promised -= places_of(found);
    }
}

/// Takes room for a further task.
fn reserve_task(
    labels: &mut Labels,
    marks: &mut Table<Mark>,
    results: &mut Table<TaskResult>,
) -> Result<(), NoMemory>
    ensures items { labels.new.items ≡ labels.old.items }
    ensures count { labels.new.count ≡ labels.old.count }
    ensures spare { OnOk result (0 < labels.new.spare) }
    ensures mark_items { marks.new.items ≡ marks.old.items }
    ensures mark_next { marks.new.next ≡ marks.old.next }
    ensures mark_spare { OnOk result (0 < marks.new.spare) }
    ensures result_items { results.new.items ≡ results.old.items }
    ensures result_next { results.new.next ≡ results.old.next }
    ensures result_spare { OnOk result (0 < results.new.spare) }
{
    labels.reserve(1)?;
    marks.reserve(1)?;
    results.reserve(1)
}

/// Makes a child of a node, puts a task on the node, and returns the child's number.
#[tactic(auto, using(crate::proofs::Seats::seat_laws))]
fn seat(tree: &mut Tree, node: u64, task: u64) -> Result<u64, NoMemory>
    requires { is_free tree.old node ≡ true }
    ensures made { IfOk result (λ number. tree.new ≡ with_task (with_child tree.old number node) node task) }
    ensures numbered { IfOk result (λ number. number ≡ length tree.old.nodes) }
    ensures fresh { IfOk result (λ number. is_known tree.old number ≡ false) }
    ensures err { OnErr result (tree.new ≡ tree.old) }
{
    let Ok((number, _)) = tree.child(node) else {
        return Err(NoMemory);
    };
    match tree.register(node, task) {
        Ok(_) => Ok(number),
        Err(_) => unreachable!(),
    }
}
