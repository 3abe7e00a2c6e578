//! What a call on slots does to them, whatever keeps the journal.

ghost use Rattle.std.specs.Prelude.{◌≡◌, ◌≤◌, ◌<◌, ◌+◌, ◌^◌, ◌↔◌, IsTrue, IfOk, OnOk, true, is_some, length};
ghost use Rattle.rt_audit.specs.declared.slot_call.SlotCall.TheVariants.{Poll};
ghost use Rattle.rt_model.specs.Lists.{find, replaced, those};
ghost use Rattle.rt_model.specs.Results.{may_abort, waiting};
ghost use Rattle.rt_model.specs.Rows.{Rows, total};
ghost use Rattle.rt_model.specs.Slots.{AnswersSlot, ReceiveAnswers, aborted, settled, slots_by, slots_wake, with_sent};
ghost use Rattle.rt_parts.specs.Room.{open_places, result_places, ones};
ghost use Rattle.rt_parts.specs.Slots.{HasRoom, is_spending, slot_cost, slots_owe, slotted};

use crate::results::{may_abort, places_of, settle, waiter_of};
use rt_audit::{CallReply, SlotCall};
use rt_base::NoMemory;
use rt_model::{Outcome, Table, TaskResult};

/// Does what a call on slots with its reply says. It returns whom it must wake, and how many entries are no longer asked
/// for.
#[tactic(auto, using(crate::proofs::SlotLaws::apply_laws))]
#[inline(always)]
pub fn apply(
    slots: &mut Table<TaskResult>,
    senders: &mut Table<()>,
    by: Option<u64>,
    call: SlotCall,
    reply: &CallReply,
) -> (Option<u64>, usize)
    requires answers { AnswersSlot (slotted slots.old senders.old) call reply.now }
    requires room { HasRoom slots.old senders.old call }
    requires next { senders.old.next ≡ slots.old.next }
    ensures slotted { slotted slots.new senders.new ≡ slots_by (slotted slots.old senders.old) by call reply.now }
    ensures next { senders.new.next ≡ slots.new.next }
    ensures waiter { those result.0 ≡ slots_wake (slotted slots.old senders.old) call reply.now }
    ensures places { slots_owe (slotted slots.new senders.new) + result.1 ≡ slots_owe (slotted slots.old senders.old) + slot_cost call }
    ensures enough { length (those result.0) + ones (is_spending call) ≤ result.1 }
{
    match call {
        SlotCall::Make => {
            slots.push(TaskResult {
                outcome: Outcome::Open { waits: None },
                aborted: false,
            });
            senders.push(());
            (None, 0)
        }
        SlotCall::Send { slot } => spend_sender(slots, senders, slot, Outcome::There),
        SlotCall::Close { slot } => spend_sender(slots, senders, slot, Outcome::Closed),
        SlotCall::Poll { slot } => {
            apply_poll(slots, by, slot, reply);
            (None, 0)
        }
        SlotCall::GiveUp { slot } => match slots.get(slot) {
            None => unreachable!(),
            Some(found) => {
                slots.remove(slot);
                (None, places_of(found))
            }
        },
        SlotCall::AbortWait { slot } => {
            let (waiter, places) = abort_slot(slots, slot);
            (waiter, places + 1)
        }
    }
}

/// Does what a poll of a slot with its reply says.
#[tactic(auto, using(crate::proofs::SlotLaws::apply_laws))]
pub fn apply_poll(slots: &mut Table<TaskResult>, by: Option<u64>, slot: u64, reply: &CallReply)
    requires { ReceiveAnswers (find slot slots.old.items) reply.now }
    ensures items { (senders : Rows (Unit {0})) → slotted slots.new senders ≡ slots_by (slotted slots.old senders) by (Poll slot) reply.now }
    ensures places { total result_places slots.new.items ≡ total result_places slots.old.items }
    ensures next { slots.new.next ≡ slots.old.next }
{
    match reply {
        CallReply::Pending => {
            let _before = settle(slots, slot, Outcome::Open { waits: by });
        }
        CallReply::Ready => {
            let _before = settle(slots, slot, Outcome::Closed);
        }
        _ => {}
    }
}

/// Spends the sender of a slot, which leaves this.
#[tactic(auto, using(crate::proofs::SlotLaws::apply_laws))]
pub fn spend_sender(
    slots: &mut Table<TaskResult>,
    senders: &mut Table<()>,
    slot: u64,
    outcome: Outcome,
) -> (Option<u64>, usize)
    requires there { is_some (find slot senders.old.items) ≡ true }
    requires shut { open_places outcome ≡ 0 }
    ensures slotted { slotted slots.new senders.new ≡ with_sent outcome slot (slotted slots.old senders.old) }
    ensures waiter { those result.0 ≡ waiting (find slot slots.old.items) }
    ensures enough { length (those result.0) + 1 ≤ result.1 }
    ensures places { slots_owe (slotted slots.new senders.new) + result.1 ≡ slots_owe (slotted slots.old senders.old) }
    ensures next { slots.new.next ≡ slots.old.next }
    ensures sender_next { senders.new.next ≡ senders.old.next }
{
    senders.remove(slot);
    let (waiter, places) = settle_open(slots, slot, outcome);
    (waiter, places + 1)
}

/// Takes room for a further slot, and returns its number.
pub fn reserve_slot(slots: &mut Table<TaskResult>, senders: &mut Table<()>) -> Result<u64, NoMemory>
    ensures number { IfOk result (λ slot. slot ≡ slots.old.next) }
    ensures items { slots.new.items ≡ slots.old.items }
    ensures next { slots.new.next ≡ slots.old.next }
    ensures spare { OnOk result (0 < slots.new.spare) }
    ensures sender_items { senders.new.items ≡ senders.old.items }
    ensures sender_next { senders.new.next ≡ senders.old.next }
    ensures sender_spare { OnOk result (0 < senders.new.spare) }
{
    slots.reserve(1)?;
    senders.reserve(1)?;
    match slots.next() {
        Some(slot) => Ok(slot),
        None => Err(NoMemory),
    }
}

/// Notes what was sent where the slot is open, or that nothing comes. It returns who waits for it, and how many entries
/// that asks for.
#[tactic(auto, using(crate::proofs::Changed::change_laws, crate::proofs::Totals::place_laws))]
pub fn settle_open(
    slots: &mut Table<TaskResult>,
    slot: u64,
    outcome: Outcome,
) -> (Option<u64>, usize)
    requires { open_places outcome ≡ 0 }
    ensures items { slots.new.items ≡ replaced (settled outcome) slot slots.old.items }
    ensures waiter { those result.0 ≡ waiting (find slot slots.old.items) }
    ensures fits { length (those result.0) ≤ result.1 }
    ensures small { result.1 ≤ 1 }
    ensures places { total result_places slots.new.items + result.1 ≡ total result_places slots.old.items }
    ensures next { slots.new.next ≡ slots.old.next }
    ensures spare { slots.new.spare ≡ slots.old.spare }
{
    let Some(found) = slots.get(slot) else {
        return (None, 0);
    };
    match found.outcome {
        Outcome::Open { waits } => {
            let aborted = found.aborted;
            slots.set(slot, TaskResult { outcome, aborted });
            (waits, 1)
        }
        Outcome::There | Outcome::Exited | Outcome::Closed => (None, 0),
    }
}

/// Notes that nothing is waited for by a slot any more. It returns who waits, and how many entries that asks for.
#[tactic(auto, using(crate::proofs::Changed::change_laws, crate::proofs::Totals::place_laws))]
pub fn abort_slot(slots: &mut Table<TaskResult>, slot: u64) -> (Option<u64>, usize)
    requires { may_abort (find slot slots.old.items) ≡ true }
    ensures items { slots.new.items ≡ replaced aborted slot slots.old.items }
    ensures waiter { those result.0 ≡ waiting (find slot slots.old.items) }
    ensures fits { length (those result.0) ≤ result.1 }
    ensures small { result.1 ≤ 1 }
    ensures places { total result_places slots.new.items + 1 + result.1 ≡ total result_places slots.old.items }
    ensures next { slots.new.next ≡ slots.old.next }
    ensures spare { slots.new.spare ≡ slots.old.spare }
{
    match slots.get(slot) {
        Some(found) => {
            slots.set(
                slot,
                TaskResult {
                    outcome: Outcome::Closed,
                    aborted: true,
                },
            );
            waiter_of(Some(found.outcome))
        }
        None => (None, 0),
    }
}
