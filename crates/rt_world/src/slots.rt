//! The calls on slots, by which results are sent by hand.

ghost use Rattle.std.specs.Prelude.{ℕ, ◌≡◌, ◌<◌, IfOk, IfErr, OnErr, OnOk, None, true, false};
ghost use Rattle.rt_audit.specs.declared.call.Call.TheVariants.{Slots};
ghost use Rattle.rt_audit.specs.declared.slot_call.SlotCall.TheVariants.{Make as Slot, Close as SlotClose, Poll as SlotPoll, GiveUp as SlotGiveUp, AbortWait};
ghost use Rattle.rt_audit.specs.declared.reply.CallReply.TheVariants.{SlotAt};
ghost use Rattle.rt_model.specs.Rules.{MayCall};
ghost use Rattle.rt_model.specs.Turns.{Plainly, Sending};
ghost use Rattle.rt_world.specs.Calls.{Kept, Made, SpentBy, Received, IsUnreceived, lacking};
ghost use Rattle.rt_world.specs.Walked.{Called, slot_told, join_told};

use crate::World;
use rand_core::Rng;
use rt_base::{Error, NoMemory};

#[tactic(auto, using(crate::proofs::Walked::call_laws, crate::proofs::Walked::stay_laws, crate::proofs::Calling::seated_laws, crate::proofs::Slotted::slotted_laws), unfolding(rt_model::specs::Effects::after))]
impl<T, O, G: Rng> World<T, O, G> {
    /// Makes a slot, into which one result is sent by hand and from which it is received, and returns its number. It
    /// takes memory.
    pub fn slot(&mut self) -> Result<u64, NoMemory>
        requires { MayCall self.old.told.state self.old.out }
        ensures kept { Kept G.stream self.old self.new }
        ensures ok { IfOk result (λ slot. Made self.old self.new (Plainly (Slots Slot)) (SlotAt slot)) }
        ensures err { OnErr result (self.new ≡ lacking self.old) }
        ensures called { Called (Plainly (Slots Slot)) self.old self.new (slot_told result) }
    {
        if self.sent.reserve(1).is_err() {
            self.machine.lack();
            return Err(NoMemory);
        }
        self.machine.facts();
        let slot = self.machine.slot(self.out)?;
        self.sent.skip();
        Ok(slot)
    }

    /// Closes a slot by its sender, so that nothing comes by it. It takes no memory. Where the sender was spent before it
    /// does nothing, and writes no entry.
    pub fn slot_close(&mut self, slot: u64)
        requires { MayCall self.old.told.state self.old.out }
        ensures kept { Kept G.stream self.old self.new }
        ensures spent { SpentBy self.old self.new (Plainly (Slots (SlotClose slot))) }
        ensures lacked { self.new.lacked ≡ self.old.lacked }
    {
        self.machine.slot_close(self.out, slot)
    }
}

#[tactic(auto, using(crate::proofs::Walked::call_laws, crate::proofs::Walked::stay_laws, crate::proofs::Calling::seated_laws, crate::proofs::Slotted::slotted_laws), unfolding(rt_model::specs::Effects::after))]
impl<T, O: Drop, G: Rng> World<T, O, G> {
    /// Sends a result into a slot, and spends its sender. What is sent is dropped where the receiver was spent or no
    /// longer waits for it. It takes no memory. Where the sender was spent before it does nothing, and writes no
    /// entry.
    pub fn slot_send(&mut self, slot: u64, sent: Result<O, Error>)
        requires { MayCall self.old.told.state self.old.out }
        ensures kept { Kept G.stream self.old self.new }
        ensures spent { SpentBy self.old self.new (Sending slot sent) }
        ensures lacked { self.new.lacked ≡ self.old.lacked }
    {
        let takes = self.machine.takes(slot);
        self.machine.facts();
        self.machine.slot_send(self.out, slot);
        if takes {
            self.sent.put(slot, sent);
        } else {
            drop(sent);
        }
    }

    /// Polls a slot, and returns the value that was sent, once. It takes memory.
    ///
    /// Errors: the error that was sent, each time; `Closed` where the slot was closed or the value was taken,
    /// `Aborted` where the wait was aborted, `UnknownToken` where the receiver was spent, `NoMemory`.
    pub fn slot_poll(&mut self, slot: u64) -> Result<Option<O>, Error>
        requires { MayCall self.old.told.state self.old.out }
        ensures kept { Kept G.stream self.old self.new }
        ensures ok { IfOk result (λ value. Received self.old self.new slot value) }
        ensures err { IfErr result (λ e. IsUnreceived self.old self.new slot e) }
        ensures called { Called (Plainly (Slots (SlotPoll slot))) self.old self.new (join_told result) }
    {
        match self.sent.get(slot) {
            None => {
                if let Err(error) = self.machine.slot_poll(self.out, slot) {
                    return Err(error);
                }
                Ok(None)
            }
            Some(Err(error)) => Err(self.machine.show_sent(self.out, slot, error)),
            Some(Ok(_)) => {
                self.machine.take_sent(self.out, slot)?;
                match self.sent.take(slot) {
                    Some(Ok(value)) => Ok(Some(value)),
                    Some(Err(_)) | None => unreachable!(),
                }
            }
        }
    }

    /// Gives up what was to come by a slot, and spends its receiver. It takes no memory. Where it was given up before it
    /// does nothing, and writes no entry.
    pub fn slot_give_up(&mut self, slot: u64)
        requires { MayCall self.old.told.state self.old.out }
        ensures kept { Kept G.stream self.old self.new }
        ensures spent { SpentBy self.old self.new (Plainly (Slots (SlotGiveUp slot))) }
        ensures lacked { self.new.lacked ≡ self.old.lacked }
    {
        if !self.machine.has_slot(slot) {
            return;
        }
        self.machine.slot_give_up(self.out, slot);
        self.sent.remove(slot);
    }

    /// Aborts the wait for what comes by a slot: from then on a poll of it is refused with `Aborted`. It takes no memory.
    /// Where it was aborted or given up before it does nothing, and writes no entry.
    pub fn abort_wait(&mut self, slot: u64)
        requires { MayCall self.old.told.state self.old.out }
        ensures kept { Kept G.stream self.old self.new }
        ensures spent { SpentBy self.old self.new (Plainly (Slots (AbortWait slot))) }
        ensures lacked { self.new.lacked ≡ self.old.lacked }
    {
        if !self.machine.may_abort_wait(slot) {
            return;
        }
        self.machine.abort_wait(self.out, slot);
        self.sent.remove(slot);
    }
}
