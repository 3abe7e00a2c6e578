// A task that draws, and asks for the digest.

ghost use Rattle.rt_errand.specs.Deals.{deals};

use rt_core::{Answer, Context, Cx, Outcome, Rng, Task, World};

/// A task that draws a card, a hand and a salt, asks for the digest, and gives the card.
pub struct Dealer {
    pub context: Context,
}

impl Outcome for Dealer {
    type Output = u64;
}

#[tactic(auto, using(rt_core::proofs::Tasks::task_laws), unfolding(crate::specs::Deals::deals))]
impl Task for Dealer {
    ghost use Rattle.rt_core.specs.Tasks.{closes};

    ghost steps = { record { next = λ d now task. deals d; last = λ d now task. closes d.context.node } };

    fn poll<G: Rng>(&mut self, world: &mut World<Self, u64, G>, _cx: &Cx) -> Answer<u64> {
        let Ok(card) = self.context.next_u32(world) else {
            return Answer::NoMemory;
        };
        let Ok(_hand) = self.context.next_u64(world) else {
            return Answer::NoMemory;
        };
        let mut salt = [0u8; 4];
        let Ok(()) = self.context.fill_bytes(world, &mut salt) else {
            return Answer::NoMemory;
        };
        let Ok(_seal) = self.context.auditor(world) else {
            return Answer::NoMemory;
        };
        Answer::Ready(card as u64)
    }

    fn end<G: Rng>(self, world: &mut World<Self, u64, G>) {
        let Dealer { context } = self;
        context.close(world);
    }
}
