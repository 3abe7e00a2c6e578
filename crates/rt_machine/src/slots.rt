//! Calls on slots.

ghost use Rattle.std.specs.Prelude.{◌≡◌, ◌≤◌, ◌<◌, ◌+◌, ◌-◌, ◌^◌, ◌&&◌, IfOk, IfErr, IsOk, OnErr, OnOk, true, false, None, is_some, vec_len, vec_capacity};
ghost use Rattle.rt_audit.specs.declared.slot_call.SlotCall.TheVariants.{Make, Send, Close, Poll, GiveUp, AbortWait};
ghost use Rattle.rt_model.specs.Lists.{find};
ghost use Rattle.rt_model.specs.Results.{may_abort};
ghost use Rattle.rt_model.specs.Slots.{AnswersSlot, is_open, is_there, slot_place};
ghost use Rattle.rt_model.specs.Rules.{MayCall};
ghost use Rattle.rt_machine.specs.Calls.{Noted, Shown, Spent, IsRefused, lacking};
ghost use Rattle.rt_parts.specs.Slots.{HasRoom, is_spending, slot_cost, slotted};

use crate::cause::Cause;
use crate::room::take_places;
use crate::wakes::wake_waiter;
use crate::{Machine, RunJournal};
use rt_audit::{Call, CallReply, Caller, Entry, Refusal, SlotCall};
use rt_base::{Error, NoMemory};
use rt_model::{Outcome, Table, TaskResult};
use rt_parts::{apply, may_abort, reserve_slot};
use std::alloc::Global;

#[tactic(auto, using(crate::proofs::Counts::count_laws, crate::proofs::Totals::place_laws, crate::proofs::Owed::owed_laws), unfolding(rt_model::specs::Effects::after))]
impl Machine {
    /// Notes a call on slots with its reply, does what it says, and wakes whom it must wake. One that spends a token takes
    /// no memory.
    fn perform(&mut self, by: Option<u64>, call: SlotCall, reply: CallReply) -> Result<(), NoMemory>
        requires calling { MayCall self.old.told.state by }
        requires answers { AnswersSlot self.old.told.state.stood.slots call reply }
        ensures ok { OnOk result (Noted by self.old self.new (Call.Slots call) reply) }
        ensures err { OnErr result (self.new ≡ lacking self.old) }
        ensures spends { is_spending call ≡ true → IsOk result }
    {
        let Ok(()) = take_room(
            &mut self.journal,
            &mut self.ready,
            &mut self.slots,
            &mut self.senders,
            self.promised,
            call,
        ) else {
            self.lack();
            return Err(NoMemory);
        };
        let (waiter, freed) = apply(&mut self.slots, &mut self.senders, by, call, &reply);
        self.journal.note(Entry::Call {
            by: Caller::of(by),
            call: Call::Slots(call),
            reply,
        });
        self.promised += cost_of(call);
        self.promised -= freed;
        wake_waiter(&mut self.journal, &mut self.ready, self.closing, waiter);
        Ok(())
    }
}

#[tactic(auto, using(crate::proofs::Counts::count_laws, crate::proofs::Totals::place_laws, crate::proofs::Owed::owed_laws, rt_parts::proofs::SlotLaws::call_laws), unfolding(rt_model::specs::Effects::after))]
impl Machine {
    /// Spends the token of a call on slots. Where it isn't there it does nothing, and writes no entry.
    fn spend(&mut self, by: Option<u64>, call: SlotCall)
        requires calling { MayCall self.old.told.state by }
        requires spends { is_spending call ≡ true }
        ensures { Spent by self.old self.new (Call.Slots call) }
    {
        if self.has_place(call) {
            match self.perform(by, call, CallReply::Done) {
                Ok(()) => {}
                Err(NoMemory) => unreachable!(),
            }
        }
    }

    /// Returns whether the token is there that a call on slots spends.
    fn has_place(&self, call: SlotCall) -> bool
        ensures { result ≡ slot_place self.now.told.state.stood.slots call }
    {
        match call {
            SlotCall::Send { slot } | SlotCall::Close { slot } => self.senders.get(slot).is_some(),
            SlotCall::GiveUp { slot } => self.slots.get(slot).is_some(),
            SlotCall::AbortWait { slot } => may_abort(&self.slots, slot),
            SlotCall::Make | SlotCall::Poll { .. } => true,
        }
    }

    /// Makes a slot, and returns its number, which is the next. It takes memory.
    pub fn slot(&mut self, by: Option<u64>) -> Result<u64, NoMemory>
        requires { MayCall self.old.told.state by }
        ensures ok { IfOk result (λ slot. Noted by self.old self.new (Call.Slots Make) (CallReply.SlotAt slot)) }
        ensures fits { IfOk result (λ slot. slot < 2 ^ 64) }
        ensures err { OnErr result (self.new ≡ lacking self.old) }
    {
        let Some(slot) = self.slots.next() else {
            self.lack();
            return Err(NoMemory);
        };
        self.perform(by, SlotCall::Make, CallReply::SlotAt { slot })?;
        Ok(slot)
    }

    /// Sends a result into a slot, and wakes who waits for it. It takes no memory. Where the sender was spent before it
    /// does nothing, and writes no entry.
    pub fn slot_send(&mut self, by: Option<u64>, slot: u64)
        requires { MayCall self.old.told.state by }
        ensures { Spent by self.old self.new (Call.Slots (Send slot)) }
    {
        self.spend(by, SlotCall::Send { slot })
    }

    /// Closes a slot, and wakes who waits for it. It takes no memory. Where the sender was spent before it does nothing,
    /// and writes no entry.
    pub fn slot_close(&mut self, by: Option<u64>, slot: u64)
        requires { MayCall self.old.told.state by }
        ensures { Spent by self.old self.new (Call.Slots (Close slot)) }
    {
        self.spend(by, SlotCall::Close { slot })
    }

    /// Aborts the wait for what comes by a slot, and wakes who waits. It takes no memory. Where it was aborted before it
    /// does nothing, and writes no entry.
    pub fn abort_wait(&mut self, by: Option<u64>, slot: u64)
        requires { MayCall self.old.told.state by }
        ensures { Spent by self.old self.new (Call.Slots (AbortWait slot)) }
    {
        self.spend(by, SlotCall::AbortWait { slot })
    }

    /// Returns whether what is sent into a slot now is kept there: its sender wasn't spent, and nothing else is there
    /// yet.
    pub fn takes(&self, slot: u64) -> bool
        ensures { result ≡ (is_some (find slot self.now.told.state.stood.slots.senders) && is_open (find slot self.now.told.state.stood.slots.results)) }
    {
        if self.senders.get(slot).is_none() {
            return false;
        }
        match self.slots.get(slot) {
            Some(found) => match found.outcome {
                Outcome::Open { .. } => true,
                Outcome::There | Outcome::Exited | Outcome::Closed => false,
            },
            None => false,
        }
    }

    /// Returns whether the wait for what comes by a slot can be aborted: its receiver wasn't spent, and it wasn't
    /// aborted before.
    pub fn may_abort_wait(&self, slot: u64) -> bool
        ensures { result ≡ may_abort (find slot self.now.told.state.stood.slots.results) }
    {
        may_abort(&self.slots, slot)
    }

    /// Returns whether the receiver of a slot wasn't spent.
    pub fn has_slot(&self, slot: u64) -> bool
        ensures { result ≡ is_some (find slot self.now.told.state.stood.slots.results) }
    {
        self.slots.get(slot).is_some()
    }

    /// Returns whether a result was sent into a slot and wasn't taken.
    pub fn has_sent(&self, slot: u64) -> bool
        ensures { result ≡ is_there (find slot self.now.told.state.stood.slots.results) }
    {
        let Some(found) = self.slots.get(slot) else {
            return false;
        };
        match found.outcome {
            Outcome::There => !found.aborted,
            Outcome::Open { .. } | Outcome::Exited | Outcome::Closed => false,
        }
    }

    /// Gives up what was to come by a slot. It takes no memory. Where it was given up before it does nothing, and writes
    /// no entry.
    pub fn slot_give_up(&mut self, by: Option<u64>, slot: u64)
        requires { MayCall self.old.told.state by }
        ensures spent { Spent by self.old self.new (Call.Slots (GiveUp slot)) }
        ensures gone { find slot self.new.told.state.stood.slots.results ≡ None }
    {
        self.slots.facts();
        self.spend(by, SlotCall::GiveUp { slot })
    }

    /// Polls a slot into which nothing was sent that is left, for which the caller waits then. It takes memory.
    ///
    /// Errors: `UnknownToken` where the receiver was spent, then `Aborted` where the wait was aborted, then `Closed`
    /// where nothing comes any more; `NoMemory`.
    pub fn slot_poll(&mut self, by: Option<u64>, slot: u64) -> Result<(), Error>
        requires calling { MayCall self.old.told.state by }
        requires unsent { is_there (find slot self.old.told.state.stood.slots.results) ≡ false }
        ensures ok { OnOk result (Noted by self.old self.new (Call.Slots (Poll slot)) CallReply.Pending) }
        ensures err { IfErr result (λ e. IsRefused by self.old self.new (Call.Slots (Poll slot)) e) }
    {
        let poll = SlotCall::Poll { slot };
        let Some(found) = self.slots.get(slot) else {
            return Err(self.refuse(by, Call::Slots(poll), Cause::UnknownToken));
        };
        if found.aborted {
            return Err(self.refuse(by, Call::Slots(poll), Cause::Aborted));
        }
        match found.outcome {
            Outcome::Open { .. } => Ok(self.perform(by, poll, CallReply::Pending)?),
            Outcome::There => unreachable!(),
            Outcome::Exited => Err(self.refuse(by, Call::Slots(poll), Cause::Exited)),
            Outcome::Closed => Err(self.refuse(by, Call::Slots(poll), Cause::Closed)),
        }
    }

    /// Takes the value that was sent into a slot. It takes memory.
    pub fn take_sent(&mut self, by: Option<u64>, slot: u64) -> Result<(), NoMemory>
        requires calling { MayCall self.old.told.state by }
        requires sent { is_there (find slot self.old.told.state.stood.slots.results) ≡ true }
        ensures ok { OnOk result (Noted by self.old self.new (Call.Slots (Poll slot)) CallReply.Ready) }
        ensures err { OnErr result (self.new ≡ lacking self.old) }
    {
        self.perform(by, SlotCall::Poll { slot }, CallReply::Ready)
    }

    /// Refuses a poll of a slot with the error that was sent into it, which stays there, and returns a copy of that
    /// error, or `NoMemory` where memory ran out.
    pub fn show_sent(&mut self, by: Option<u64>, slot: u64, sent: &Error) -> Error
        requires calling { MayCall self.old.told.state by }
        requires sent { is_there (find slot self.old.told.state.stood.slots.results) ≡ true }
        ensures { Shown by self.old self.new slot sent.now result }
    {
        let Ok((error, answer)) = copies(*self.ready.allocator(), sent) else {
            self.lack();
            return Error::NoMemory;
        };
        let reply = CallReply::Refused { error };
        match self.perform(by, SlotCall::Poll { slot }, reply) {
            Ok(()) => answer,
            Err(NoMemory) => Error::NoMemory,
        }
    }
}

/// The entries for which a slot asks that a call makes.
fn cost_of(call: SlotCall) -> usize
    ensures { result ≡ slot_cost call }
{
    match call {
        SlotCall::Make => 4,
        _ => 0,
    }
}

/// Takes the room of a call on slots, where it takes any.
fn take_room(
    journal: &mut RunJournal,
    ready: &mut Vec<u64>,
    slots: &mut Table<TaskResult>,
    senders: &mut Table<()>,
    promised: usize,
    call: SlotCall,
) -> Result<(), NoMemory>
    ensures told { journal.new.told ≡ journal.old.told }
    ensures lacked { journal.new.lacked ≡ journal.old.lacked }
    ensures kept { journal.old.spare ≤ journal.new.spare }
    ensures items { ready.new.items ≡ ready.old.items }
    ensures seated { vec_capacity ready.old - vec_len ready.old ≤ vec_capacity ready.new - vec_len ready.new }
    ensures room { OnOk result (is_spending call ≡ false → promised + 7 + slot_cost call ≤ journal.new.spare) }
    ensures seats { OnOk result (is_spending call ≡ false → promised + slot_cost call ≤ vec_capacity ready.new - vec_len ready.new) }
    ensures fits { OnOk result (promised + slot_cost call < 2 ^ 64) }
    ensures slotted { slotted slots.new senders.new ≡ slotted slots.old senders.old }
    ensures next { senders.new.next ≡ senders.old.next }
    ensures places { OnOk result (HasRoom slots.new senders.new call) }
    ensures spends { is_spending call ≡ true → IsOk result }
{
    match call {
        SlotCall::Make => {
            take_places(journal, ready, promised, 5)?;
            let _slot = reserve_slot(slots, senders)?;
            Ok(())
        }
        SlotCall::Poll { .. } => take_places(journal, ready, promised, 1),
        SlotCall::Send { .. }
        | SlotCall::Close { .. }
        | SlotCall::GiveUp { .. }
        | SlotCall::AbortWait { .. } => Ok(()),
    }
}

/// A refusal with a copy of an error, and another copy.
fn copies(alloc: Global, error: &Error) -> Result<(Refusal, Error), NoMemory>
    ensures { IfOk result (λ two. (two.0 ≡ error.now) × (two.1 ≡ error.now)) }
{
    let refusal = Refusal::new(alloc, error.clone_value()?)?;
    let answer = error.clone_value()?;
    Ok((refusal, answer))
}
