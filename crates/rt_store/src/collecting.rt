// Buffers of several ranges, put into the order of the ranges.
ghost use Rattle.std.specs.Prelude.{◌≡◌, ◌<◌, ◌⊎◌, ℕ, None, Some, true, false, map, length, replicate, slice_get, slice_index_or, IfOk, IfErr};
ghost use Rattle.rt_store.specs.Reading.{are_below, AreCollected, IsWhole, last_at};

use rt_base::{Error, NoMemory};
use rt_bufs::IoBufsMut;
use std::alloc::Global;

/// Puts the buffers of `ranges` ranges, each with its place, into the order of the places. A later buffer for the
/// same place replaces an earlier one. It is refused with `ReadFailed` where a place isn't below `ranges`, or a range
/// has no buffer.
pub fn collect_reads(reads: Vec<(usize, IoBufsMut)>, ranges: usize) -> Result<Vec<IoBufsMut>, Error>
    ensures ok { IfOk result (λ bufs. AreCollected ranges reads.items bufs.items) }
    ensures refused { IfErr result (λ e. (e ≡ Error.NoMemory) ⊎ ((e ≡ Error.ReadFailed) × (IsWhole ranges reads.items → ⊥))) }
{
    // So that a large count asks for no room that it can't fill.
    if reads.len() < ranges {
        return Err(Error::ReadFailed);
    }
    all_there(slots_of(reads, ranges)?)
}

// The last buffer of each place.
fn slots_of(reads: Vec<(usize, IoBufsMut)>, ranges: usize) -> Result<Vec<Option<IoBufsMut>>, Error>
    ensures below { IfOk result (λ slots. are_below ranges reads.items ≡ true) }
    ensures length { IfOk result (λ slots. length slots.items ≡ ranges) }
    ensures last { IfOk result (λ slots. (i : ℕ) → i < ranges → slice_index_or slots.items i None ≡ last_at i reads.items) }
    ensures refused { IfErr result (λ e. (e ≡ Error.NoMemory) ⊎ ((e ≡ Error.ReadFailed) × (are_below ranges reads.items ≡ false))) }
{
    let mut slots = empty_slots(*reads.allocator(), ranges)?;
    for (place, buf) in reads {
        if place >= ranges {
            return Err(Error::ReadFailed);
        }
        slots[place] = Some(buf);
    }
    Ok(slots)
}

fn empty_slots(alloc: Global, ranges: usize) -> Result<Vec<Option<IoBufsMut>>, NoMemory>
    ensures { IfOk result (λ slots. slots.items ≡ replicate ranges None) }
{
    let mut slots = Vec::with_capacity(alloc, ranges)?;
    for _ in 0..ranges {
        slots.push(None)?;
    }
    Ok(slots)
}

// The buffers, where none is missing.
fn all_there(slots: Vec<Option<IoBufsMut>>) -> Result<Vec<IoBufsMut>, Error>
    ensures ok { IfOk result (λ bufs. map Some bufs.items ≡ slots.items) }
    ensures refused { IfErr result (λ e. (e ≡ Error.NoMemory) ⊎ ((e ≡ Error.ReadFailed) × ((i : ℕ) × (slice_get slots.items i ≡ Some None)))) }
{
    let mut bufs = Vec::with_capacity(*slots.allocator(), slots.len())?;
    for slot in slots {
        match slot {
            Some(buf) => bufs.push(buf)?,
            None => return Err(Error::ReadFailed),
        }
    }
    Ok(bufs)
}
