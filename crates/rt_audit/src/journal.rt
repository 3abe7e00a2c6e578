//! The journal: a list of entries, with room that is taken before it is used.

ghost use Rattle.std.specs.Prelude.{◌≡◌, ◌≤◌, ◌<◌, ◌+◌, ◌∷◌, ◌++◌, [], length, OnOk, OnErr, IsTrue, ◌↔◌};
ghost use Rattle.rt_audit.specs.Journal.{last_time, time_after, rounds_in, digest_of, digest_after};

use crate::{Auditor, Entry};
use rt_base::{Nanos, NoMemory};
use std::alloc::Global;
use std::marker::Model;

/// The entries of all runs so far, in order.
///
/// Contracts see the entries, and `spare`: how many more have room. Beside the entries the journal keeps the last time,
/// the count of rounds and the digest, which follow each entry as it is pushed: so reading them costs nothing, and a
/// report doesn't read the entries once more.
#[derive(Debug, Drop)]
pub struct Journal {
    entries: Vec<Entry>,
    last: Nanos,
    rounds: u64,
    auditor: Auditor,
}

impl Model for Journal {
    ghost use Rattle.std.specs.Prelude.{◌≡◌, ◌-◌, vec_len, vec_capacity};
    ghost use Rattle.rt_audit.specs.Journal.{Kept, last_time, rounds_in, digest_of};

    ghost Value = { Kept };

    ghost view = { λ j. record { entries = j.entries.items; spare = vec_capacity j.entries - vec_len j.entries } };

    ghost invariant = { λ j. (j.last ≡ last_time j.entries.items) × (j.rounds ≡ rounds_in j.entries.items) × (j.auditor ≡ digest_of j.entries.items) };
}

impl Journal {
    /// Makes a journal without entries or room.
    pub fn new(alloc: Global) -> Self
        ensures entries { result.entries ≡ [] }
        ensures spare { result.spare ≡ 0 }
    {
        Journal {
            entries: Vec::new(alloc),
            last: 0,
            rounds: 0,
            auditor: Auditor::new(),
        }
    }

    /// Returns the entries in order, borrowed.
    pub fn entries(&self) -> &[Entry]
        ensures { result.now ≡ self.now.entries }
    {
        self.entries.as_slice()
    }

    /// Returns how many entries there are.
    pub fn len(&self) -> usize
        ensures { result ≡ length self.now.entries }
    {
        self.entries.len()
    }

    /// Returns whether there is no entry.
    pub fn is_empty(&self) -> bool
        ensures { IsTrue result ↔ (self.now.entries ≡ []) }
    {
        self.entries.is_empty()
    }

    /// Returns the time of the last start, advance or skip, in nanoseconds since the epoch, and 0 before any.
    pub fn last_time(&self) -> Nanos
        ensures { result ≡ last_time self.now.entries }
    {
        self.last
    }

    /// Returns how many rounds the runs have had.
    pub fn rounds(&self) -> u64
        ensures { result ≡ rounds_in self.now.entries }
    {
        self.rounds
    }

    /// Returns the digest of all events, four bytes. No other entry moves it.
    pub fn digest(&self) -> [u8; 4]
        ensures { result ≡ digest_of self.now.entries }
    {
        self.auditor.digest()
    }

    /// Returns an auditor of all events so far.
    pub fn auditor(&self) -> Auditor
        ensures { result ≡ digest_of self.now.entries }
    {
        self.auditor
    }

    /// Returns how many more entries have room.
    pub fn spare(&self) -> usize
        ensures { result ≡ self.now.spare }
    {
        self.entries.capacity() - self.entries.len()
    }

    /// Takes room for at least this many further entries, and changes no entry. Where they have room already it
    /// succeeds.
    pub fn reserve(&mut self, entries: usize) -> Result<(), NoMemory>
        ensures entries { self.new.entries ≡ self.old.entries }
        ensures kept { self.old.spare ≤ self.new.spare }
        ensures room { OnOk result (entries ≤ self.new.spare) }
        ensures refused { OnErr result (self.new.spare ≡ self.old.spare) }
        ensures succeeds { entries ≤ self.old.spare → result ≡ Ok tt }
    {
        self.entries.reserve(entries)?;
        Ok(())
    }

    /// Adds an entry at the end. It takes no memory: [`spare`](Self::spare) must be above zero.
    #[inline(always)]
    pub fn push(&mut self, entry: Entry)
        requires { 0 < self.old.spare }
        ensures entries { self.new.entries ≡ self.old.entries ++ entry ∷ [] }
        ensures spare { self.new.spare + 1 ≡ self.old.spare }
    {
        self.last = time_after(self.last, &entry);
        self.rounds = rounds_after(self.rounds, self.entries.capacity(), &entry);
        digest_after(&mut self.auditor, &entry);
        self.entries.push_reserved(entry);
    }
}

/// The time after an entry.
#[inline(always)]
fn time_after(time: Nanos, entry: &Entry) -> Nanos
    ensures { result ≡ time_after time entry.now }
{
    match entry {
        Entry::Start { now, .. } => now.nanos(),
        Entry::Advance { now } => now.nanos(),
        Entry::Skip { now } => now.nanos(),
        _ => time,
    }
}

/// How many rounds there are after an entry. Those before it are fewer than the entries that have room.
#[inline(always)]
fn rounds_after(rounds: u64, room: usize, entry: &Entry) -> u64
    requires { rounds < room }
    ensures { result ≡ rounds + rounds_in (entry.now ∷ []) }
{
    match entry {
        Entry::Round { .. } => rounds + 1,
        _ => rounds,
    }
}

/// Takes an entry in, where it is an event.
#[inline(always)]
fn digest_after(auditor: &mut Auditor, entry: &Entry)
    ensures { auditor.new ≡ digest_after auditor.old entry.now }
{
    match entry {
        Entry::Event { label, fields } => auditor.chain(label.as_str(), fields),
        _ => {}
    }
}
