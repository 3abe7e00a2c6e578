// A poller of one's own, made of two others, and a task that polls it.

ghost use Rattle.rt_errand.specs.Naps.{nap_polls, nap_spends};

use rt_core::{
    Answer, Context, Cx, Error, Outcome, Poll, Poller, Reschedule, Rng, Sleep, Task, World,
};

/// A sleep, and then a turn of the others.
pub struct Nap {
    pub sleep: Sleep,
    pub turn: Reschedule,
}

#[tactic(auto, using(rt_core::proofs::Tasks::poller_laws), unfolding(crate::specs::Naps::nap_polls))]
impl<T: Outcome> Poller<T, ()> for Nap {
    ghost polls = { λ nap now task. nap_polls nap task };

    ghost spends = { λ nap. nap_spends nap };

    fn poll<G: Rng>(
        &mut self,
        world: &mut World<T, T::Output, G>,
        cx: &Cx,
    ) -> Poll<Result<(), Error>> {
        match self.sleep.poll(world, cx) {
            Poll::Pending => Poll::Pending,
            Poll::Ready(Ok(())) => self.turn.poll(world, cx),
            Poll::Ready(Err(error)) => Poll::Ready(Err(error)),
        }
    }

    fn give_up<G: Rng>(self, world: &mut World<T, T::Output, G>) {
        let Nap { sleep, turn } = self;
        sleep.give_up(world);
        turn.give_up(world);
    }
}

/// A task that takes a nap, and gives 7.
pub struct Napper {
    pub context: Context,
    pub nap: Nap,
}

impl Outcome for Napper {
    type Output = u64;
}

#[tactic(auto, using(rt_core::proofs::Tasks::task_laws))]
impl Task for Napper {
    ghost use Rattle.std.specs.Prelude.{Ok, Err};
    ghost use Rattle.rt_core.specs.Tasks.{IsPending, IsReady, Pending, Ready, NoMemory as LacksMemory, Gives, then, followed_by, closes};

    ghost steps = { record { next = λ n now task. (then) (nap_polls n.nap task) (λ told nap. elim told [ IsPending ↦ Gives Pending (record n { nap = nap }) | IsReady answer ↦ elim answer [ Ok over ↦ Gives (Ready 7) (record n { nap = nap }) | Err error ↦ Gives LacksMemory (record n { nap = nap }) ] ]); last = λ n now task. followed_by (nap_spends n.nap) (closes n.context.node) } };

    fn poll<G: Rng>(&mut self, world: &mut World<Self, u64, G>, cx: &Cx) -> Answer<u64> {
        match self.nap.poll(world, cx) {
            Poll::Pending => Answer::Pending,
            Poll::Ready(Ok(())) => Answer::Ready(7),
            Poll::Ready(Err(_)) => Answer::NoMemory,
        }
    }

    fn end<G: Rng>(self, world: &mut World<Self, u64, G>) {
        let Napper { context, nap } = self;
        nap.give_up(world);
        context.close(world);
    }
}
