//! The first entry that may not come where it is.

ghost use Rattle.std.specs.Prelude.{IfOk, OnOk, ◌↔◌, ◌≡◌, None};
ghost use Rattle.rt_model.specs.State.{State, begun};
ghost use Rattle.rt_model.specs.Runs.{next_begin, renewed, AreLawful};
ghost use Rattle.rt_walk.specs.First.{IsFirstUnlawful};
ghost use Rattle.rt_walk.specs.Quiet.{quiet};

use crate::Walker;
use rt_audit::Entry;
use rt_base::NoMemory;
use rt_model::Begin;
use std::alloc::Global;
use std::mem;

/// Returns the place of the first entry of a journal that may not come where it is, or `None` where the entries are
/// lawful.
///
/// The first run begins as `begin` says, and each further one, whose `Start` is right after a completed run, where that
/// one ended. A beginning holds what the start of a run fixes, its first moment, cycle, deadline and task number, and
/// its `Start` must say the same. Whether a round's order is that of its draws, a number the generator's, or four bytes
/// the digest, is not decided here.
pub fn first_unlawful(
    alloc: Global,
    begin: Begin,
    entries: &[Entry],
) -> Result<Option<usize>, NoMemory>
    ensures first { IfOk result (λ place. IsFirstUnlawful (begun begin) entries.now place) }
    ensures lawful { IfOk result (λ place. (place ≡ None) ↔ AreLawful (begun begin) entries.now) }
{
    let mut walker = Walker::new(alloc, begin)?;
    let place = first_refused(alloc, &mut walker, entries);
    drop(walker);
    place
}

/// Returns the place of the first entry that a walker refuses, if there is one.
fn first_refused(
    alloc: Global,
    walker: &mut Walker,
    entries: &[Entry],
) -> Result<Option<usize>, NoMemory>
    ensures first { (s : State) → quiet s ≡ walker.old → IfOk result (λ place. IsFirstUnlawful s entries.now place) }
    ensures lawful { (s : State) → quiet s ≡ walker.old → IfOk result (λ place. (place ≡ None) ↔ AreLawful s entries.now) }
{
    for place in 0..entries.len() {
        let entry = &entries[place];
        begin_next(alloc, walker, entry)?;
        if !walker.may(entry)? {
            return Ok(Some(place));
        }
        walker.step(entry)?;
    }
    Ok(None)
}

/// Begins the next run where the entry starts it.
fn begin_next(alloc: Global, walker: &mut Walker, entry: &Entry) -> Result<(), NoMemory>
    ensures { OnOk result ((s : State) → quiet s ≡ walker.old → quiet (renewed s entry.now) ≡ walker.new) }
{
    if walker.renews(entry) {
        let begin = walker.next_begin();
        begin_anew(alloc, walker, begin)?;
    }
    Ok(())
}

/// Begins a run in the place of the one before.
fn begin_anew(alloc: Global, walker: &mut Walker, begin: Begin) -> Result<(), NoMemory>
    ensures { OnOk result (walker.new ≡ begun begin) }
{
    let next = Walker::new(alloc, begin)?;
    drop(mem::replace(walker, next));
    Ok(())
}
