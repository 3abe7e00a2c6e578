//! The slots that entries tell, over the same part.

ghost use Rattle.std.specs.Prelude.{◌≡◌, ◌↔◌, IsTrue, IfOk, OnOk};
ghost use Rattle.rt_model.specs.Lists.{those};
ghost use Rattle.rt_model.specs.Results.{waiting};
ghost use Rattle.rt_model.specs.Slots.{AnswersSlot, no_slots, slots_by, slots_wake};
ghost use Rattle.rt_parts.specs.Slots.{slotted};

use crate::replies::{is_done, receive_answers};
use crate::results::may_abort;
use crate::slots::{apply, reserve_slot};
use rt_audit::{CallReply, SlotCall};
use rt_base::NoMemory;
use rt_model::{Outcome, Table, TaskResult};
use std::alloc::Global;

/// The slots that entries tell so far.
#[derive(Drop)]
pub struct WalkedSlots {
    slots: Table<TaskResult>,
    senders: Table<()>,
}

impl std::marker::Model for WalkedSlots {
    ghost use Rattle.std.specs.Prelude.{◌≡◌};
    ghost use Rattle.rt_model.specs.Slots.{Slotted};
    ghost use Rattle.rt_parts.specs.Slots.{slotted};

    ghost Value = { Slotted };

    ghost view = { λ w. slotted w.slots w.senders };

    ghost invariant = { λ w. w.senders.next ≡ w.slots.next };
}

impl WalkedSlots {
    /// No slot.
    pub fn new(alloc: Global) -> Self
        ensures { result ≡ no_slots }
    {
        WalkedSlots {
            slots: Table::new(alloc, 0),
            senders: Table::new(alloc, 0),
        }
    }

    /// Returns whether the call may have this reply.
    #[inline(always)]
    pub fn answers(&self, call: SlotCall, reply: &CallReply) -> bool
        ensures { IsTrue result ↔ AnswersSlot self.now call reply.now }
    {
        match call {
            SlotCall::Make => match reply {
                CallReply::SlotAt { slot } => self.slots.next() == Some(*slot),
                _ => false,
            },
            SlotCall::Send { slot } | SlotCall::Close { slot } => {
                is_done(reply) && self.senders.get(slot).is_some()
            }
            SlotCall::Poll { slot } => receive_answers(self.slots.get(slot), reply),
            SlotCall::GiveUp { slot } => is_done(reply) && self.slots.get(slot).is_some(),
            SlotCall::AbortWait { slot } => is_done(reply) && may_abort(&self.slots, slot),
        }
    }

    /// Returns whom a call with its reply wakes.
    pub fn wakes(&self, call: SlotCall, reply: &CallReply) -> Option<u64>
        ensures { those result ≡ slots_wake self.now call reply.now }
    {
        match (call, reply) {
            (SlotCall::Send { slot }, CallReply::Done)
            | (SlotCall::Close { slot }, CallReply::Done)
            | (SlotCall::AbortWait { slot }, CallReply::Done) => waiter(self.slots.get(slot)),
            _ => None,
        }
    }

    /// Takes a call with its reply in, and returns whom it must wake. It returns `NoMemory` also for a reply that the call
    /// may not have.
    #[inline(always)]
    pub fn call(
        &mut self,
        by: Option<u64>,
        call: SlotCall,
        reply: &CallReply,
    ) -> Result<Option<u64>, NoMemory>
        ensures told { OnOk result (self.new ≡ slots_by self.old by call reply.now) }
        ensures due { IfOk result (λ waiter. those waiter ≡ slots_wake self.old call reply.now) }
    {
        if !self.answers(call, reply) {
            return Err(NoMemory);
        }
        let _slot = reserve_slot(&mut self.slots, &mut self.senders)?;
        let (waiter, _freed) = apply(&mut self.slots, &mut self.senders, by, call, reply);
        Ok(waiter)
    }
}

/// Who waits by a slot in this state.
fn waiter(found: Option<TaskResult>) -> Option<u64>
    ensures { those result ≡ waiting found }
{
    match found {
        Some(
            TaskResult {
                outcome: Outcome::Open { waits },
                ..
            },
        ) => waits,
        _ => None,
    }
}
