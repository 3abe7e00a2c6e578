//! The two ends of a slot.

ghost use Rattle.std.specs.Prelude.{ℕ, ◌≡◌, IfOk, IfErr};
ghost use Rattle.rt_audit.specs.declared.call.Call.TheVariants.{Slots};
ghost use Rattle.rt_audit.specs.declared.slot_call.SlotCall.TheVariants.{AbortWait, Make as Slot, Close as SlotClose};
ghost use Rattle.rt_audit.specs.declared.reply.CallReply.TheVariants.{SlotAt};
ghost use Rattle.rt_model.specs.Rules.{MayCall};
ghost use Rattle.rt_model.specs.Turns.{Plainly, Sending};
ghost use Rattle.rt_world.specs.Calls.{Kept, Made, lacking};
ghost use Rattle.rt_world.specs.Walked.{Called, Closes, ends_told};
ghost use Rattle.rt_world.specs.Receiving.{polled};

use crate::{Cx, Outcome, Poller, World};
use rand_core::Rng;
use rt_base::{Error, NoMemory, Poll};
use std::marker::Model;

/// The sender of a slot, by which one result is sent. It is a token: it must be spent by [`send`](Self::send) or
/// [`give_up`](Self::give_up).
///
/// Contracts see the number of its slot.
#[derive(Debug)]
pub struct ResultSender {
    slot: u64,
}

impl Model for ResultSender {
    ghost use Rattle.std.specs.Prelude.{ℕ};

    ghost Value = { ℕ };

    ghost view = { λ s. s.slot };
}

/// The receiver of a slot: a poller of the result that is sent into it. It is a token: it must be spent by
/// [`give_up`](Poller::give_up).
///
/// A poll returns the value that was sent, once; the error that was sent, each time; `Closed` where the sender was
/// given up and after the value; and `Aborted` once the wait was aborted.
///
/// Contracts see the number of its slot.
#[derive(Debug)]
pub struct ResultReceiver {
    slot: u64,
}

impl Model for ResultReceiver {
    ghost use Rattle.std.specs.Prelude.{ℕ};

    ghost Value = { ℕ };

    ghost view = { λ r. r.slot };
}

#[tactic(auto, using(crate::proofs::Walked::call_laws))]
impl<T, O, G: Rng> World<T, O, G> {
    /// Makes a slot, and returns its two ends. Its only error is `NoMemory`.
    pub fn result_slot(&mut self) -> Result<(ResultSender, ResultReceiver), Error>
        requires { MayCall self.old.told.state self.old.out }
        ensures kept { Kept G.stream self.old self.new }
        ensures pair { IfOk result (λ ends. ends.1 ≡ ends.0) }
        ensures ok { IfOk result (λ ends. Made self.old self.new (Plainly (Slots Slot)) (SlotAt ends.0)) }
        ensures err { IfErr result (λ e. (e ≡ Error.NoMemory) × (self.new ≡ lacking self.old)) }
        ensures called { Called (Plainly (Slots Slot)) self.old self.new (ends_told result) }
    {
        match self.slot() {
            Ok(slot) => Ok((ResultSender { slot }, ResultReceiver { slot })),
            Err(NoMemory) => Err(Error::NoMemory),
        }
    }
}

impl ResultSender {
    /// Sends the result, which the receiver gets if it still waits for it. It takes no memory.
    #[tactic(auto, using(crate::proofs::Walked::close_laws))]
    pub fn send<T, O: Drop, G: Rng>(self, world: &mut World<T, O, G>, answer: Result<O, Error>)
        requires { MayCall world.old.told.state world.old.out }
        ensures kept { Kept G.stream world.old world.new }
        ensures lacked { world.new.lacked ≡ world.old.lacked }
        ensures steps { Closes (Sending self answer) world.old world.new }
    {
        world.slot_send(self.into_slot(), answer)
    }

    /// Gives the sender up: the receiver gets `Closed`. It takes no memory.
    #[tactic(auto, using(crate::proofs::Walked::close_laws))]
    pub fn give_up<T, O, G: Rng>(self, world: &mut World<T, O, G>)
        requires { MayCall world.old.told.state world.old.out }
        ensures kept { Kept G.stream world.old world.new }
        ensures lacked { world.new.lacked ≡ world.old.lacked }
        ensures steps { Closes (Plainly (Slots (SlotClose self))) world.old world.new }
    {
        world.slot_close(self.into_slot())
    }

    /// The number of its slot.
    fn into_slot(self) -> u64
        ensures { result ≡ self }
    {
        let ResultSender { slot } = self;
        slot
    }
}

impl ResultReceiver {
    /// Aborts the wait: from then on a poll returns `Aborted`. Later calls do nothing. It takes no memory.
    #[tactic(auto, using(crate::proofs::Walked::close_laws))]
    pub fn abort<T, O: Drop, G: Rng>(&mut self, world: &mut World<T, O, G>)
        requires { MayCall world.old.told.state world.old.out }
        ensures receiver { self.new ≡ self.old }
        ensures kept { Kept G.stream world.old world.new }
        ensures lacked { world.new.lacked ≡ world.old.lacked }
        ensures steps { Closes (Plainly (Slots (AbortWait self.old))) world.old world.new }
    {
        world.abort_wait(self.slot)
    }

    /// The number of its slot.
    fn into_slot(self) -> u64
        ensures { result ≡ self }
    {
        let ResultReceiver { slot } = self;
        slot
    }
}

#[tactic(auto, using(crate::proofs::Walked::poller_laws), unfolding(crate::specs::Receiving::receiver_polls, crate::specs::Receiving::receiver_spends))]
impl<T: Outcome> Poller<T, T::Output> for ResultReceiver {
    ghost use Rattle.rt_world.specs.Receiving.{receiver_polls, receiver_spends};

    ghost polls = { λ r now task. receiver_polls r };

    ghost spends = { receiver_spends };

    fn poll<G: Rng>(
        &mut self,
        world: &mut World<T, T::Output, G>,
        _cx: &Cx,
    ) -> Poll<Result<T::Output, Error>> {
        polled(world.slot_poll(self.slot))
    }

    fn give_up<G: Rng>(self, world: &mut World<T, T::Output, G>) {
        world.slot_give_up(self.into_slot())
    }
}

/// Returns the answer of a poll, by what was heard of the result.
pub fn polled<O>(told: Result<Option<O>, Error>) -> Poll<Result<O, Error>>
    ensures { result ≡ polled told }
{
    match told {
        Ok(None) => Poll::Pending,
        Ok(Some(value)) => Poll::Ready(Ok(value)),
        Err(error) => Poll::Ready(Err(error)),
    }
}
