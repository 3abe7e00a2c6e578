//! Calls that draw from the run's generator, and the one that asks for the digest of its events.

ghost use Rattle.std.specs.Prelude.{◌≡◌, ◌≤◌, ◌<◌, ◌+◌, ◌-◌, ◌++◌, ◌∷◌, ◌^◌, [], length, IfOk, OnErr, OnOk, codes, vec_len, vec_capacity};
ghost use Rattle.rand_core.specs.Stream.{next_u32, next_u64, fill_bytes};
ghost use Rattle.rt_audit.specs.Journal.{digest_of};
ghost use Rattle.rt_model.specs.Rules.{MayCall};
ghost use Rattle.rt_machine.specs.Calls.{Noted, lacking};
ghost use Rattle.rt_machine.specs.Told.{own};

use crate::event::draw_event;
use crate::room::take_places;
use crate::{Machine, RunJournal};
use rand_core::Rng;
use rt_audit::{Auditor, Call, CallReply, Caller, Entry, Payload};
use rt_base::NoMemory;

/// Returns the event of a call that draws, and takes room for both.
fn take_draw(
    journal: &mut RunJournal,
    ready: &mut Vec<u64>,
    promised: usize,
    name: &str,
) -> Result<Entry, NoMemory>
    ensures told { journal.new.told ≡ journal.old.told }
    ensures lacked { journal.new.lacked ≡ journal.old.lacked }
    ensures items { ready.new.items ≡ ready.old.items }
    ensures room { OnOk result (promised + 6 + 2 ≤ journal.new.spare) }
    ensures seats { OnOk result (promised + 2 ≤ vec_capacity ready.new - vec_len ready.new) }
    ensures kept { journal.old.spare ≤ journal.new.spare }
    ensures seated { vec_capacity ready.old - vec_len ready.old ≤ vec_capacity ready.new - vec_len ready.new }
    ensures fits { OnOk result (promised + 6 + 2 < 2 ^ 64) }
    ensures event { IfOk result (λ event. event ≡ Entry.Event (codes "rand") (name.now ∷ [])) }
{
    take_places(journal, ready, promised, 2)?;
    draw_event(*ready.allocator(), name)
}

#[tactic(auto, using(crate::proofs::Counts::count_laws, crate::proofs::Totals::place_laws, crate::proofs::Announced::event_laws), unfolding(rt_model::specs::Effects::after))]
impl Machine {
    /// Draws a number of 32 bits, the next that the generator gives. It takes memory, before it draws: without memory
    /// nothing was drawn.
    pub fn next_u32<G: Rng>(&mut self, by: Option<u64>, rng: &mut G) -> Result<u32, NoMemory>
        requires { MayCall self.old.told.state by }
        ensures ok { IfOk result (λ number. Noted by self.old self.new Call.NextU32 (CallReply.Number number)) }
        ensures gave { IfOk result (λ number. (number, G.stream rng.new) ≡ next_u32 (G.stream rng.old)) }
        ensures err { OnErr result (self.new ≡ lacking self.old) }
        ensures undrawn { OnErr result (rng.new ≡ rng.old) }
    {
        let Ok(event) = take_draw(
            &mut self.journal,
            &mut self.ready,
            self.promised,
            "next_u32",
        ) else {
            self.lack();
            return Err(NoMemory);
        };
        let number = rng.next_u32();
        self.journal.note(event);
        self.journal.note(Entry::Call {
            by: Caller::of(by),
            call: Call::NextU32,
            reply: CallReply::Number {
                number: number as u64,
            },
        });
        Ok(number)
    }

    /// Draws a number of 64 bits, the next that the generator gives. It takes memory, before it draws: without memory
    /// nothing was drawn.
    pub fn next_u64<G: Rng>(&mut self, by: Option<u64>, rng: &mut G) -> Result<u64, NoMemory>
        requires { MayCall self.old.told.state by }
        ensures ok { IfOk result (λ number. Noted by self.old self.new Call.NextU64 (CallReply.Number number)) }
        ensures gave { IfOk result (λ number. (number, G.stream rng.new) ≡ next_u64 (G.stream rng.old)) }
        ensures err { OnErr result (self.new ≡ lacking self.old) }
        ensures undrawn { OnErr result (rng.new ≡ rng.old) }
    {
        let Ok(event) = take_draw(
            &mut self.journal,
            &mut self.ready,
            self.promised,
            "next_u64",
        ) else {
            self.lack();
            return Err(NoMemory);
        };
        let number = rng.next_u64();
        self.journal.note(event);
        self.journal.note(Entry::Call {
            by: Caller::of(by),
            call: Call::NextU64,
            reply: CallReply::Number { number },
        });
        Ok(number)
    }

    /// Fills `dest` with bytes that are drawn, the next that the generator gives. It takes memory, before it draws:
    /// without memory nothing was drawn, and `dest` is as before.
    pub fn fill_bytes<G: Rng>(
        &mut self,
        by: Option<u64>,
        rng: &mut G,
        dest: &mut [u8],
    ) -> Result<(), NoMemory>
        requires { MayCall self.old.told.state by }
        ensures ok { OnOk result (Noted by self.old self.new (Call.FillBytes (length dest.old)) (CallReply.Bytes dest.new)) }
        ensures gave { OnOk result ((dest.new, G.stream rng.new) ≡ fill_bytes (length dest.old) (G.stream rng.old)) }
        ensures err { OnErr result (self.new ≡ lacking self.old) }
        ensures undrawn { OnErr result (rng.new ≡ rng.old) }
        ensures unfilled { OnErr result (dest.new ≡ dest.old) }
    {
        let Ok(event) = take_draw(
            &mut self.journal,
            &mut self.ready,
            self.promised,
            "fill_bytes",
        ) else {
            self.lack();
            return Err(NoMemory);
        };
        let Ok(mut bytes) = Payload::of(*self.ready.allocator(), dest) else {
            self.lack();
            return Err(NoMemory);
        };
        rng.fill_bytes(dest);
        bytes.set(dest);
        self.journal.note(event);
        self.journal.note(Entry::Call {
            by: Caller::of(by),
            call: Call::FillBytes {
                len: dest.len() as u64,
            },
            reply: CallReply::Bytes { bytes },
        });
        Ok(())
    }

    /// Returns the digest of the events so far, of those of earlier runs too. It takes memory.
    pub fn auditor(&mut self, by: Option<u64>) -> Result<Auditor, NoMemory>
        requires { MayCall self.old.told.state by }
        ensures ok { IfOk result (λ auditor. Noted by self.old self.new Call.Auditor (CallReply.Bytes auditor)) }
        ensures digest { IfOk result (λ auditor. auditor ≡ digest_of (self.old.told.given ++ own self.old.told)) }
        ensures err { OnErr result (self.new ≡ lacking self.old) }
    {
        let Ok(()) = take_places(&mut self.journal, &mut self.ready, self.promised, 1) else {
            self.lack();
            return Err(NoMemory);
        };
        let auditor = self.journal.auditor();
        let Ok(bytes) = Payload::of(*self.ready.allocator(), auditor.digest().as_slice()) else {
            self.lack();
            return Err(NoMemory);
        };
        self.journal.note(Entry::Call {
            by: Caller::of(by),
            call: Call::Auditor,
            reply: CallReply::Bytes { bytes },
        });
        Ok(auditor)
    }
}
