// The store in memory.
ghost use Rattle.std.specs.Prelude.{◌≡◌, ◌+◌, ◌<◌, ◌≤◌, [], length, take, drop, Some, None, IfOk, OnOk, MatchResult, ⊤};
ghost use Rattle.rt_base.specs.Counted.{Notes};
ghost use Rattle.rt_store.specs.Draws.{Answers};
ghost use Rattle.rt_store.specs.Store.{read_refusal_of};

use crate::draws::passes;
use rt_base::{Env, Error, IoKind, NoMemory};

/// Takes the room of a draw, where the rate is above 0.
pub fn take_draw<E: Env>(env: &mut E, rate: u32) -> Result<(), NoMemory>
    ensures lasts { (start : E) → E.lasts start env.old → E.lasts start env.new }
    ensures room { OnOk result (0 < rate → 0 < E.spare env.new) }
    ensures kept { E.spare env.old ≤ E.spare env.new }
    ensures noted { E.noted env.new ≡ E.noted env.old }
{
    if rate > 0 {
        env.reserve(1)?;
    }
    Ok(())
}

/// Returns the `len` bytes from `offset` on.
#[tactic(auto, using(crate::proofs::Ranged::range_len))]
pub fn range_of(content: &[u8], offset: u64, len: usize) -> Result<&[u8], Error>
    ensures len { IfOk result (λ bytes. length bytes.now ≡ len) }
    ensures range { MatchResult result (λ bytes. (read_refusal_of offset len (length content.now) ≡ None) × (bytes.now ≡ take len (drop offset content.now))) (λ e. read_refusal_of offset len (length content.now) ≡ Some e) }
{
    let Some(end) = offset.checked_add(len as u64) else {
        return Err(Error::OffsetOverflow);
    };
    if end > content.len() as u64 {
        return Err(Error::BlobInsufficientLength);
    }
    let (_, rest) = content.split_at(offset as usize);
    let (bytes, _) = rest.split_at(len);
    Ok(bytes)
}

/// Draws where the rate is above 0, and is refused by a fault.
pub fn draw<E: Env>(env: &mut E, rate: u32) -> Result<(), Error>
    requires { 0 < rate → 0 < E.spare env.old }
    ensures lasts { (start : E) → E.lasts start env.old → E.lasts start env.new }
    ensures gives { Notes (E.noted env.old) (Answers None rate (λ _. ⊤) result) (E.noted env.new) }
    ensures spent { E.spare env.old ≤ E.spare env.new + 1 }
{
    if passes(env, rate) {
        Ok(())
    } else {
        Err(Error::Io(IoKind::InjectedStorageFault))
    }
}
