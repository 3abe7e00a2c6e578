//! The maker of a run's root.

use crate::{Errand, Stage};
use rt_core::{Context, NoMemory, Outcome, Rng, RootMaker, World};

/// Makes an errand at this stage, which gives this number. It makes no call.
#[derive(Debug, Drop)]
pub struct RootErrand {
    pub stage: Stage,
    pub number: u64,
}

#[tactic(auto, using(rt_core::proofs::Tasks::maker_laws))]
impl RootMaker<Errand> for RootErrand {
    ghost use Rattle.rt_errand.specs.Errand.{errand_made};

    ghost first = { λ maker now. errand_made maker };

    fn make<G: Rng>(
        self,
        context: Context,
        _world: &mut World<Errand, <Errand as Outcome>::Output, G>,
    ) -> Result<Errand, NoMemory> {
        Ok(Errand {
            context,
            stage: self.stage,
            number: self.number,
        })
    }
}
