//! Room that is taken in advance.

ghost use Rattle.std.specs.Prelude.{◌≡◌, ◌≤◌, ◌<◌, ◌+◌, ◌-◌, ◌^◌, OnOk, vec_len, vec_capacity};

use crate::RunJournal;
use rt_base::NoMemory;

/// The entries for which the phases ask at most: the event and the answer of a visit, and the four of a cleanup.
const PHASE_PLACES: usize = 6;

/// Takes places for these further entries beside those that are promised.
#[inline(always)]
pub fn take_entries(
    journal: &mut RunJournal,
    promised: usize,
    further: usize,
) -> Result<(), NoMemory>
    ensures told { journal.new.told ≡ journal.old.told }
    ensures lacked { journal.new.lacked ≡ journal.old.lacked }
    ensures room { OnOk result (promised + 6 + further ≤ journal.new.spare) }
    ensures kept { journal.old.spare ≤ journal.new.spare }
    ensures fits { OnOk result (promised + 6 + further < 2 ^ 64) }
{
    let Some(sum) = promised.checked_add(PHASE_PLACES) else {
        return Err(NoMemory);
    };
    let Some(places) = sum.checked_add(further) else {
        return Err(NoMemory);
    };
    journal.reserve(places)
}

/// Takes places for these further entries, and for so many further wakes, beside those that are promised.
#[inline(always)]
pub fn take_places(
    journal: &mut RunJournal,
    ready: &mut Vec<u64>,
    promised: usize,
    further: usize,
) -> Result<(), NoMemory>
    ensures told { journal.new.told ≡ journal.old.told }
    ensures lacked { journal.new.lacked ≡ journal.old.lacked }
    ensures items { ready.new.items ≡ ready.old.items }
    ensures room { OnOk result (promised + 6 + further ≤ journal.new.spare) }
    ensures seats { OnOk result (promised + further ≤ vec_capacity ready.new - vec_len ready.new) }
    ensures kept { journal.old.spare ≤ journal.new.spare }
    ensures seated { vec_capacity ready.old - vec_len ready.old ≤ vec_capacity ready.new - vec_len ready.new }
    ensures fits { OnOk result (promised + 6 + further < 2 ^ 64) }
{
    take_entries(journal, promised, further)?;
    ready.reserve(promised + further)?;
    Ok(())
}
