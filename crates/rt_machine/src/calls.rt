//! The calls of a run's tasks and of its maker.

ghost use Rattle.std.specs.Prelude.{◌≡◌, ◌≤◌, ◌<◌, ◌+◌, ◌^◌, ◌-◌, IfOk, IfErr, IfSome, OnErr, OnOk, length, true, false, Option, None, Some, is_some, ℕ, List};
ghost use Rattle.std.specs.Option.{ForSome};
ghost use Rattle.rt_base.specs.Label.{prefixed};
ghost use Rattle.rt_base.specs.declared.time.TheConstants.{MAX_TIME};
ghost use Rattle.rt_super.specs.Alarms.{AreSet};
ghost use Rattle.rt_super.specs.Ancestry.{is_live, is_ended};
ghost use Rattle.rt_model.specs.Lists.{has_number, find};
ghost use Rattle.rt_model.specs.Alarms.{alarm_of, slept, is_set};
ghost use Rattle.rt_model.specs.Effects.{label_at};
ghost use Rattle.rt_model.specs.Rules.{Answers, MayCall, WasGiven, is_free, label_refusal};
ghost use Rattle.rt_machine.specs.Calls.{Noted, Spent, IsRefused, lacking, sleep_reply, slept_number, spawn_reply, join_reply};
ghost use Rattle.rt_machine.specs.Causes.{error_of};

use crate::Machine;
use crate::cause::Cause;
use crate::room::take_places;
use rt_audit::{Call, CallReply, Caller, Entry, Label, Moment, Refusal};
use rt_base::{Error, MetricError, Nanos, NoMemory, SmallText, check_child_label};
use rt_super::{Alarms, NOBODY};

#[tactic(auto, using(crate::proofs::Counts::count_laws, crate::proofs::Totals::place_laws, crate::proofs::Nodes::node_laws, crate::proofs::Refused::refused_laws, crate::proofs::Owed::owed_laws), unfolding(rt_model::specs::Effects::after))]
impl Machine {
    /// Marks that a call ran out of memory. A mark that is there stays.
    pub fn lack(&mut self)
        ensures { self.new ≡ lacking self.old }
    {
        self.journal.mark_lack();
    }

    /// Notes a call that is refused, and returns its error, or `NoMemory` where there is no memory for that.
    pub(crate) fn refuse(&mut self, by: Option<u64>, call: Call, cause: Cause) -> Error
        requires calling { MayCall self.old.told.state by }
        requires cause { Answers self.old.told.state call (CallReply.Refused (error_of cause)) }
        ensures { IsRefused by self.old self.new call result }
    {
        let room = take_places(&mut self.journal, &mut self.ready, self.promised, 1);
        let refusal = Refusal::new(*self.ready.allocator(), cause.error());
        let (Ok(()), Ok(error)) = (room, refusal) else {
            self.lack();
            return Error::NoMemory;
        };
        let reply = CallReply::Refused { error };
        self.journal.note(Entry::Call {
            by: Caller::of(by),
            call,
            reply,
        });
        cause.error()
    }

    /// Closes the context of a node, which isn't live then. It takes no memory. Where the node isn't live it does
    /// nothing, and writes no entry.
    pub fn close_node(&mut self, by: Option<u64>, node: u64)
        requires { MayCall self.old.told.state by }
        ensures { Spent by self.old self.new (Call.CloseNode node) }
    {
        if !self.tree.lives(node) {
            return;
        }
        self.journal.note(Entry::Call {
            by: Caller::of(by),
            call: Call::CloseNode { node },
            reply: CallReply::Done,
        });
        self.tree.release(node);
        self.promised -= 1;
    }

    /// Returns the full label of a child of a node, or why there is none; without a cause memory ran out.
    fn full_label(&self, node: u64, label: &str) -> Result<SmallText, Option<Cause>>
        ensures live { IfOk result (λ full. is_live self.now.told.state.stood.nodes node ≡ true) }
        ensures fine { IfOk result (λ full. label_refusal (label_at self.now.told.state.labels node) label.now ≡ None) }
        ensures full { IfOk result (λ full. full ≡ prefixed (label_at self.now.told.state.labels node) label.now) }
        ensures err { IfErr result (λ why. ForSome why (λ cause. Answers self.now.told.state (Call.Child node label.now) (CallReply.Refused (error_of cause)))) }
    {
        if !self.tree.lives(node) {
            return Err(Some(Cause::UnknownToken));
        }
        let prefix = self.labels.get(node);
        match check_child_label(prefix, label) {
            Ok(()) => {}
            Err(MetricError::BadLabel) => return Err(Some(Cause::BadLabel)),
            Err(_) => return Err(Some(Cause::Reserved)),
        }
        match SmallText::prefixed(*self.ready.allocator(), prefix, label) {
            Ok(full) => Ok(full),
            Err(NoMemory) => Err(None),
        }
    }

    /// Makes a child of a node, and returns its number and whether the node has ended. It takes memory.
    ///
    /// Errors: `UnknownToken` where the node isn't live, then `Metric(BadLabel)`, then `Metric(Reserved)`; `NoMemory`.
    pub fn child(&mut self, by: Option<u64>, node: u64, label: &str) -> Result<(u64, bool), Error>
        requires { MayCall self.old.told.state by }
        ensures ok { IfOk result (λ made. Noted by self.old self.new (Call.Child node label.now) (CallReply.NodeAt made.0 made.1)) }
        ensures err { IfErr result (λ e. IsRefused by self.old self.new (Call.Child node label.now) e) }
    {
        let Ok(call) = self.child_call(node, label) else {
            self.lack();
            return Err(Error::NoMemory);
        };
        match self.full_label(node, label) {
            Ok(full) => self.make_child(by, node, call, full),
            Err(Some(cause)) => Err(self.refuse(by, call, cause)),
            Err(None) => {
                self.lack();
                Err(Error::NoMemory)
            }
        }
    }

    /// Notes a child, and makes it.
    fn make_child(
        &mut self,
        by: Option<u64>,
        node: u64,
        call: Call,
        full: SmallText,
    ) -> Result<(u64, bool), Error>
        requires calling { MayCall self.old.told.state by }
        requires live { is_live self.old.told.state.stood.nodes node ≡ true }
        requires call { (label : List ℕ) × (call ≡ Call.Child node label) × (label_refusal (label_at self.old.told.state.labels node) label ≡ None) × (full ≡ prefixed (label_at self.old.told.state.labels node) label) }
        ensures ok { IfOk result (λ made. Noted by self.old self.new call (CallReply.NodeAt made.0 made.1)) }
        ensures err { IfErr result (λ e. (e ≡ Error.NoMemory) × (self.new ≡ lacking self.old)) }
    {
        let room = take_places(&mut self.journal, &mut self.ready, self.promised, 2);
        let place = self.labels.reserve(1);
        if room.is_err() || place.is_err() {
            self.lack();
            return Err(Error::NoMemory);
        }
        let Ok((number, ended)) = self.tree.child(node) else {
            self.lack();
            return Err(Error::NoMemory);
        };
        self.labels.push(full);
        self.promised += 1;
        let reply = CallReply::NodeAt {
            node: number,
            ended,
        };
        self.journal.note(Entry::Call {
            by: Caller::of(by),
            call,
            reply,
        });
        Ok((number, ended))
    }

    /// Returns the call that makes a child.
    fn child_call(&self, node: u64, label: &str) -> Result<Call, NoMemory>
        ensures { IfOk result (λ call. call ≡ Call.Child node label.now) }
    {
        let alloc = *self.ready.allocator();
        let label = Label::of(alloc, label)?;
        Ok(Call::Child { node, label })
    }

    /// Queues a task by its number. It takes memory.
    ///
    /// Errors: `UnknownToken` where no task of this run had the number, `NoMemory`.
    pub fn wake(&mut self, by: Option<u64>, task: u64) -> Result<(), Error>
        requires { MayCall self.old.told.state by }
        ensures ok { OnOk result (Noted by self.old self.new (Call.Wake task) CallReply.Done) }
        ensures err { IfErr result (λ e. IsRefused by self.old self.new (Call.Wake task) e) }
    {
        let call = Call::Wake { task };
        if task < self.journal.begin().first || self.next <= task {
            let error = self.refuse(by, call, Cause::UnknownToken);
            return Err(error);
        }
        let room = take_places(&mut self.journal, &mut self.ready, self.promised, 2);
        if room.is_err() {
            self.lack();
            return Err(Error::NoMemory);
        }
        let reply = CallReply::Done;
        self.journal.note(Entry::Call {
            by: Caller::of(by),
            call,
            reply,
        });
        if !self.closing {
            self.journal.note(Entry::Wake { task });
            self.ready.push_reserved(task);
        }
        Ok(())
    }

    /// Polls a sleep that is over at `due`, in nanoseconds since the epoch, and returns the number of the alarm that it
    /// waits for, or none where it is over. It takes memory.
    ///
    /// Its own alarm, if it has one, counts only where that is still set for this time; else it gets a new one.
    ///
    /// Error: `NoMemory`, also where no alarm number is left.
    pub fn sleep_poll(
        &mut self,
        by: Option<u64>,
        due: Nanos,
        alarm: Option<u64>,
    ) -> Result<Option<u64>, NoMemory>
        requires calling { MayCall self.old.told.state by }
        requires runs { IfSome by (λ task. has_number task self.old.told.state.running ≡ true) }
        requires due { due ≤ MAX_TIME }
        ensures told { IfOk result (λ told. told ≡ slept_number self.old.told.state.clock.time self.old.told.state.stood.alarms due alarm) }
        ensures ok { IfOk result (λ told. Noted by self.old self.new (Call.SleepPoll due) (sleep_reply told)) }
        ensures err { OnErr result (self.new ≡ lacking self.old) }
    {
        let room = take_places(&mut self.journal, &mut self.ready, self.promised, 3);
        if room.is_err() {
            self.lack();
            return Err(NoMemory);
        }
        if due <= self.time {
            self.journal.note(Entry::Call {
                by: Caller::of(by),
                call: Call::SleepPoll {
                    due: Moment::new(due),
                },
                reply: CallReply::Ready,
            });
            return Ok(None);
        }
        let before = self.alarms.len();
        let Ok(number) = sleep(&mut self.alarms, due, alarm, by) else {
            self.lack();
            return Err(NoMemory);
        };
        self.promised += 2 * (self.alarms.len() - before);
        self.journal.note(Entry::Call {
            by: Caller::of(by),
            call: Call::SleepPoll {
                due: Moment::new(due),
            },
            reply: CallReply::PendingAt { alarm: number },
        });
        Ok(Some(number))
    }
}

/// Sets the alarm of a sleep, or changes whom its own wakes. Returns its number.
#[tactic(auto, using(crate::proofs::Alarms::alarm_laws))]
fn sleep(
    alarms: &mut Alarms,
    due: Nanos,
    alarm: Option<u64>,
    by: Option<u64>,
) -> Result<u64, NoMemory>
    requires fits { IfSome by (λ task. task < 2 ^ 64 - 1) }
    ensures number { IfOk result (λ number. number ≡ alarm_of alarms.old due alarm) }
    ensures alarms { IfOk result (λ number. alarms.new ≡ slept alarms.old by due number) }
    ensures fewest { length alarms.old.alarms ≤ length alarms.new.alarms }
    ensures most { length alarms.new.alarms ≤ length alarms.old.alarms + 1 }
    ensures err { OnErr result (alarms.new ≡ alarms.old) }
{
    let task = by.unwrap_or(NOBODY);
    if let Some(number) = alarm {
        if alarms.due_of(number) == Some(due) {
            alarms.rewake(number, task);
            return Ok(number);
        }
    }
    alarms.set(due, task)
}
