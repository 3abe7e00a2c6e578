// The environment that audited calls note their events in, and draw from.
ghost use Rattle.std.specs.Prelude.{◌≡◌, ◌+◌, ◌<◌, ◌≤◌, ◌∷◌, [], ℕ, List, Option, None, OnOk, ⊤};
ghost use Rattle.rt_base.specs.Noted.{Noted, Happened, Drawn, Adds};

use crate::event::Event;
use crate::no_memory::NoMemory;

/// Where events are noted and random numbers are drawn.
///
/// Contracts see `noted`, the events and draws so far where the environment keeps them, and
/// `spare`, how many more it has room for. What `lasts` from an environment on lasts over each call,
/// so that an environment can say more of itself than what it noted.
pub trait Env {
    ghost noted: { Self → Option (List Noted) };

    ghost spare: { Self → ℕ };

    ghost lasts: { Self → Self → Type 0 } = { λ _ _. ⊤ };

    /// Takes room for at least this many further entries. It notes nothing.
    fn reserve(&mut self, entries: usize) -> Result<(), NoMemory>
        ensures room { OnOk result (entries ≤ spare self.new) }
        ensures kept { spare self.old ≤ spare self.new }
        ensures noted { noted self.new ≡ noted self.old }
        ensures lasts { (start : Self) → lasts start self.old → lasts start self.new };

    /// Notes an event. It uses one spare entry, and takes no memory.
    fn event(&mut self, event: Event)
        requires { 0 < spare self.old }
        ensures noted { Adds (noted self.old) (Happened event ∷ []) (noted self.new) }
        ensures spare { spare self.old ≤ spare self.new + 1 }
        ensures lasts { (start : Self) → lasts start self.old → lasts start self.new };

    /// Draws a number and notes it. It uses one spare entry, and takes no memory.
    fn draw(&mut self) -> u64
        requires { 0 < spare self.old }
        ensures noted { Adds (noted self.old) (Drawn result ∷ []) (noted self.new) }
        ensures spare { spare self.old ≤ spare self.new + 1 }
        ensures lasts { (start : Self) → lasts start self.old → lasts start self.new };
}

/// An environment that keeps nothing and draws 0. It always has room.
#[derive(Clone, Copy, Debug, PartialEq, Eq)]
pub struct NoEnv;

impl Env for NoEnv {
    ghost noted = { λ _. None };

    ghost spare = { λ _. 18446744073709551616 };

    /// Always succeeds.
    fn reserve(&mut self, entries: usize) -> Result<(), NoMemory>
        ensures room { OnOk result (entries ≤ ⟦<NoEnv as Env>⟧.spare self.new) }
        ensures succeeds { result ≡ Ok tt }
    {
        let _ = entries;
        Ok(())
    }

    fn event(&mut self, event: Event) {
        let _ = event;
    }

    /// Returns 0.
    fn draw(&mut self) -> u64
        ensures { result ≡ 0 }
    {
        0
    }
}
