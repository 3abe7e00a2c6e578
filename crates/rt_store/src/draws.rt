// Faults by rate.
ghost use Rattle.std.specs.Prelude.{◌≡◌, ◌+◌, ◌<◌, ◌≤◌, IsTrue, false};
ghost use Rattle.rt_base.specs.Counted.{Notes};
ghost use Rattle.rt_store.specs.Draws.{Passes, Fails};

use rt_base::Env;

/// A rate of one.
pub const MILLION: u64 = 1_000_000;

/// Draws where the rate is above 0, and says whether the call goes on.
pub fn passes<E: Env>(env: &mut E, rate: u32) -> bool
    requires { 0 < rate → 0 < E.spare env.old }
    ensures lasts { (start : E) → E.lasts start env.old → E.lasts start env.new }
    ensures passes { IsTrue result → Notes (E.noted env.old) (Passes rate) (E.noted env.new) }
    ensures fails { result ≡ false → Notes (E.noted env.old) (Fails rate) (E.noted env.new) }
    ensures spent { E.spare env.old ≤ E.spare env.new + 1 }
{
    if rate == 0 {
        return true;
    }
    let drawn = env.draw();
    rate as u64 <= drawn % MILLION
}
