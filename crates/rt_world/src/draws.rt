//! The calls that draw from the run's generator, and the one that asks for the digest of its events.

ghost use Rattle.std.specs.Prelude.{ℕ, ◌≡◌, ◌++◌, length, IfOk, OnErr, OnOk};
ghost use Rattle.rand_core.specs.Stream.{next_u32, next_u64, fill_bytes};
ghost use Rattle.rt_audit.specs.Journal.{digest_of};
ghost use Rattle.rt_audit.specs.declared.call.Call.TheVariants.{NextU32, NextU64, FillBytes, Auditor as AuditorCall};
ghost use Rattle.rt_audit.specs.declared.reply.CallReply.TheVariants.{Number, Bytes};
ghost use Rattle.rt_model.specs.Rules.{MayCall};
ghost use Rattle.rt_model.specs.Turns.{Plainly};
ghost use Rattle.rt_machine.specs.Told.{own};
ghost use Rattle.rt_world.specs.Calls.{Kept, Made, lacking};
ghost use Rattle.rt_world.specs.Walked.{Called, auditor_told, filled_told, number_told};

use crate::World;
use rand_core::Rng;
use rt_audit::Auditor;
use rt_base::NoMemory;

#[tactic(auto, using(crate::proofs::Drawing::drawing_laws, crate::proofs::Walked::stay_laws), unfolding(rt_model::specs::Effects::after))]
impl<T, O, G: Rng> World<T, O, G> {
    /// Returns the next number of 32 bits of the run's generator. It takes memory, and without it nothing is drawn.
    pub fn next_u32(&mut self) -> Result<u32, NoMemory>
        requires { MayCall self.old.told.state self.old.out }
        ensures kept { Kept G.stream self.old self.new }
        ensures ok { IfOk result (λ number. Made self.old self.new (Plainly NextU32) (Number number)) }
        ensures gave { IfOk result (λ number. (number, G.stream self.new.rng) ≡ next_u32 (G.stream self.old.rng)) }
        ensures err { OnErr result (self.new ≡ lacking self.old) }
        ensures called { Called (Plainly NextU32) self.old self.new (number_told result) }
    {
        self.machine.next_u32(self.out, &mut self.rng)
    }

    /// Returns the next number of 64 bits of the run's generator. It takes memory, and without it nothing is drawn.
    pub fn next_u64(&mut self) -> Result<u64, NoMemory>
        requires { MayCall self.old.told.state self.old.out }
        ensures kept { Kept G.stream self.old self.new }
        ensures ok { IfOk result (λ number. Made self.old self.new (Plainly NextU64) (Number number)) }
        ensures gave { IfOk result (λ number. (number, G.stream self.new.rng) ≡ next_u64 (G.stream self.old.rng)) }
        ensures err { OnErr result (self.new ≡ lacking self.old) }
        ensures called { Called (Plainly NextU64) self.old self.new (number_told result) }
    {
        self.machine.next_u64(self.out, &mut self.rng)
    }

    /// Fills `dest` with the next bytes of the run's generator. It takes memory, and without it nothing is drawn and `dest`
    /// is as before.
    pub fn fill_bytes(&mut self, dest: &mut [u8]) -> Result<(), NoMemory>
        requires { MayCall self.old.told.state self.old.out }
        ensures kept { Kept G.stream self.old self.new }
        ensures ok { OnOk result (Made self.old self.new (Plainly (FillBytes (length dest.old))) (Bytes dest.new)) }
        ensures gave { OnOk result ((dest.new, G.stream self.new.rng) ≡ fill_bytes (length dest.old) (G.stream self.old.rng)) }
        ensures err { OnErr result (self.new ≡ lacking self.old) }
        ensures unfilled { OnErr result (dest.new ≡ dest.old) }
        ensures called { Called (Plainly (FillBytes (length dest.old))) self.old self.new (filled_told dest.new result) }
    {
        self.machine.fill_bytes(self.out, &mut self.rng, dest)
    }

    /// Returns the digest of all events so far, of those of earlier runs too. It takes memory.
    pub fn auditor(&mut self) -> Result<Auditor, NoMemory>
        requires { MayCall self.old.told.state self.old.out }
        ensures kept { Kept G.stream self.old self.new }
        ensures ok { IfOk result (λ auditor. Made self.old self.new (Plainly AuditorCall) (Bytes auditor)) }
        ensures digest { IfOk result (λ auditor. auditor ≡ digest_of (self.old.told.given ++ own self.old.told)) }
        ensures err { OnErr result (self.new ≡ lacking self.old) }
        ensures called { Called (Plainly AuditorCall) self.old self.new (auditor_told result) }
    {
        self.machine.auditor(self.out)
    }
}
