//! An environment that digests the events that are noted in it, and draws from a generator.

ghost use Rattle.std.specs.Prelude.{◌≡◌, ◌≤◌, None, Ok, OnOk};
ghost use Rattle.rand_core.specs.Stream.{next_u64};
ghost use Rattle.rt_hasher.specs.Digest.{first_digest, event_digest};

use crate::Auditor;
use rand_core::Rng;
use rt_base::{Env, Event, NoMemory};

/// An environment that keeps the digest of its events, and a generator. It always has room, and takes no memory.
#[derive(Drop)]
pub struct AuditEnv<G: Rng> {
    auditor: Auditor,
    rng: G,
}

impl<G: Rng> AuditEnv<G> {
    /// Makes an environment of no events so far, which draws from this generator.
    pub fn new(rng: G) -> Self
        ensures auditor { result.auditor ≡ first_digest }
        ensures rng { result.rng ≡ rng }
    {
        AuditEnv {
            auditor: Auditor::new(),
            rng,
        }
    }

    /// Returns an auditor of all events so far.
    pub fn auditor(&self) -> Auditor
        ensures { result ≡ self.now.auditor }
    {
        self.auditor
    }
}

impl<G: Rng> Env for AuditEnv<G> {
    ghost noted = { λ _. None };

    ghost spare = { λ _. 18446744073709551616 };

    /// Always succeeds, and changes nothing.
    fn reserve(&mut self, entries: usize) -> Result<(), NoMemory>
        ensures room { OnOk result (entries ≤ 18446744073709551616) }
        ensures unchanged { self.new ≡ self.old }
        ensures succeeds { result ≡ Ok tt }
    {
        let _ = entries;
        Ok(())
    }

    /// Takes the event into the digest, and draws nothing.
    fn event(&mut self, event: Event)
        ensures auditor { self.new.auditor ≡ event_digest self.old.auditor event.label event.fields }
        ensures rng { self.new.rng ≡ self.old.rng }
    {
        self.auditor.event(&event);
    }

    /// Returns the generator's next number of 64 bits, and leaves the digest as it was.
    fn draw(&mut self) -> u64
        ensures auditor { self.new.auditor ≡ self.old.auditor }
        ensures rng { (result, G.stream self.new.rng) ≡ next_u64 (G.stream self.old.rng) }
    {
        self.rng.next_u64()
    }
}
