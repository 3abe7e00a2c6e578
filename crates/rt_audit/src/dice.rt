//! A generator as an environment: it keeps what it is told and what is drawn from it.

ghost use Rattle.std.specs.Prelude.{◌≡◌, []};

use rand_core::Rng;
use rt_base::{Env, Event, NoMemory};
use std::alloc::Global;

/// What an environment was told: an event, or a number that was drawn.
#[derive(Debug, Drop)]
pub enum Note {
    Happened(Event),
    Drawn(u64),
}

/// A generator, and what calls noted that draw from it. What was noted since an earlier state of it has for its draws the
/// generator's next numbers, in order.
#[derive(Debug, Drop)]
pub struct Dice<G> {
    pub rng: G,
    pub notes: Vec<Note>,
}

impl<G> Dice<G> {
    /// Makes an environment over this generator, in which nothing is noted yet.
    pub fn new(alloc: Global, rng: G) -> Self
        ensures rng { result.rng ≡ rng }
        ensures notes { result.notes.items ≡ [] }
    {
        Dice {
            rng,
            notes: Vec::new(alloc),
        }
    }
}

impl<G: Rng> Env for Dice<G> {
    ghost use Rattle.std.specs.Prelude.{Some, ◌-◌, vec_len, vec_capacity};
    ghost use Rattle.rt_audit.specs.Dice.{noted_all, Rolled};

    ghost noted = { λ d. Some (noted_all d.notes.items) };

    ghost spare = { λ d. vec_capacity d.notes - vec_len d.notes };

    ghost lasts = { λ start d. Rolled (G.stream start.rng) (G.stream d.rng) start.notes.items d.notes.items };

    fn reserve(&mut self, entries: usize) -> Result<(), NoMemory> {
        self.notes.reserve(entries)?;
        Ok(())
    }

    #[tactic(auto, using(crate::proofs::Rolled::dice_laws))]
    fn event(&mut self, event: Event) {
        self.notes.push_reserved(Note::Happened(event));
    }

    #[tactic(auto, using(crate::proofs::Rolled::dice_laws))]
    fn draw(&mut self) -> u64 {
        let number = self.rng.next_u64();
        self.notes.push_reserved(Note::Drawn(number));
        number
    }
}
