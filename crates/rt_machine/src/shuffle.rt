//! The shuffle of a round: that of Fisher and Yates, from the last place down, with one draw for each place but the first.

ghost use Rattle.std.specs.Prelude.{◌≡◌, ◌≤◌, ◌+◌, [], length};
ghost use Rattle.rt_model.specs.Rules.{MayRound};
ghost use Rattle.rt_machine.specs.Draws.{Shuffles};

use crate::RunJournal;
use rand_core::Rng;
use rt_audit::Entry;

/// Shuffles the numbers, and writes each draw.
#[tactic(auto, using(crate::proofs::Shuffled::shuffle_laws), unfolding(rt_model::specs::Effects::after))]
pub fn shuffle<G: Rng>(journal: &mut RunJournal, numbers: &mut Vec<u64>, rng: &mut G)
    requires may { MayRound journal.old.told.state.phase journal.old.told.state }
    requires undrawn { journal.old.told.state.draws ≡ [] }
    requires unannounced { journal.old.told.state.announced ≡ [] }
    requires unowed { journal.old.told.state.owed ≡ [] }
    requires ready { journal.old.told.state.ready ≡ numbers.old.items }
    requires room { length numbers.old.items ≤ journal.old.spare }
    ensures shuffles { Shuffles (G.stream rng.old) (G.stream rng.new) journal.old journal.new numbers.old.items numbers.new.items }
{
    let mut left = numbers.len().saturating_sub(1);
    while left > 0 {
        let value = rng.next_u64();
        journal.push(Entry::Draw { value });
        numbers.swap(left, value as usize % (left + 1));
        left -= 1;
    }
}
