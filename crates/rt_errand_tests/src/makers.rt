// Makers of roots that need no more than their context.

use rt_core::utils::reschedule;
use rt_core::{Context, NoMemory, Rng, RootMaker, World};
use rt_errand::{Dealer, Nap, Napper};

/// Makes a dealer.
#[derive(Clone, Copy)]
pub struct RootDealer;

#[tactic(auto, using(rt_core::proofs::Tasks::maker_laws))]
impl RootMaker<Dealer> for RootDealer {
    ghost use Rattle.rt_core.specs.Tasks.{Gives, root_context};

    ghost first = { λ maker now. Gives tt (record { context = root_context }) };

    fn make<G: Rng>(
        self,
        context: Context,
        _world: &mut World<Dealer, u64, G>,
    ) -> Result<Dealer, NoMemory> {
        Ok(Dealer { context })
    }
}

/// Makes a napper whose sleep ends at 5 ms.
#[derive(Clone, Copy)]
pub struct RootNapper;

#[tactic(auto, using(rt_core::proofs::Tasks::maker_laws), unfolding(rt_core::specs::Pollers::sleep_until))]
impl RootMaker<Napper> for RootNapper {
    ghost use Rattle.rt_core.specs.Tasks.{Gives, root_context, until, unqueued};

    ghost first = { λ maker now. Gives tt (record { context = root_context; nap = record { sleep = until 5000000; turn = unqueued } }) };

    fn make<G: Rng>(
        self,
        context: Context,
        _world: &mut World<Napper, u64, G>,
    ) -> Result<Napper, NoMemory> {
        let Ok(sleep) = context.sleep_until(5_000_000) else {
            unreachable!();
        };
        let turn = reschedule();
        Ok(Napper {
            context,
            nap: Nap { sleep, turn },
        })
    }
}
