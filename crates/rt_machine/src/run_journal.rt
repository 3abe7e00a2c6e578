//! The journal of a run: each entry may come at its place.

ghost use Rattle.std.specs.Prelude.{◌≡◌, ◌≤◌, ◌<◌, ◌+◌, ◌∷◌, ◌++◌, [], length, OnErr, OnOk, true, None, is_some};
ghost use Rattle.rt_model.specs.State.{begun};
ghost use Rattle.rt_model.specs.Effects.{after_all};
ghost use Rattle.rt_audit.specs.Journal.{digest_of};
ghost use Rattle.rt_model.specs.Digests.{IsDigested, AreDigested};
ghost use Rattle.rt_model.specs.Rules.{May, IsDrawn, IsLawful, AreDrawn};
ghost use Rattle.rt_machine.specs.Told.{fresh, pushed, noted, is_call, AreCalls, own};
ghost use Rattle.rt_machine.specs.Calls.{marked};

use rt_audit::{Auditor, Entry, Journal};
use rt_base::NoMemory;
use rt_model::Begin;
use std::marker::Model;

/// The journal of a run, with the entries of earlier runs before: each entry of it may come at its place.
///
/// Contracts see the run that its own entries make, how many more entries have room, and after which turns a call of
/// the part under way first ran out of memory, if one did.
#[derive(Drop)]
pub struct RunJournal {
    journal: Journal,
    begin: Begin,
    start: usize,
    mark: usize,
    lacked: Option<usize>,
}

impl Model for RunJournal {
    ghost use Rattle.rt_machine.specs.Told.{Journaled, told_from, lacked_at, IsKept};

    ghost Value = { Journaled };

    ghost view = { λ j. record { told = told_from j.begin j.journal.entries j.start j.mark; spare = j.journal.spare; lacked = lacked_at j.begin j.journal.entries j.start j.lacked } };

    ghost invariant = { λ j. IsKept j.begin j.journal.entries j.start j.mark j.lacked };
}

impl RunJournal {
    /// Makes a journal that goes on after these entries with a run that begins so.
    pub fn after(journal: Journal, begin: Begin) -> Self
        ensures told { result.told ≡ fresh begin journal.entries }
        ensures spare { result.spare ≡ journal.spare }
        ensures lacked { result.lacked ≡ None }
    {
        let len = journal.len();
        RunJournal {
            journal,
            begin,
            start: len,
            mark: len,
            lacked: None,
        }
    }

    /// Returns what the start of the run fixes.
    pub fn begin(&self) -> Begin
        ensures { result ≡ self.now.told.begin }
    {
        self.begin
    }

    /// Takes room for at least this many further entries, and adds none.
    pub fn reserve(&mut self, entries: usize) -> Result<(), NoMemory>
        ensures told { self.new.told ≡ self.old.told }
        ensures lacked { self.new.lacked ≡ self.old.lacked }
        ensures kept { self.old.spare ≤ self.new.spare }
        ensures room { OnOk result (entries ≤ self.new.spare) }
    {
        self.journal.reserve(entries)
    }

    /// Adds an entry that ends the calls under way, and which may come here. It takes no memory, and uses one place.
    #[inline(always)]
    pub fn push(&mut self, entry: Entry)
        requires room { 0 < self.old.spare }
        requires may { May self.old.told.state entry }
        requires drawn { IsDrawn self.old.told.state entry }
        requires digested { IsDigested (digest_of (self.old.told.given ++ own self.old.told)) entry }
        ensures told { self.new.told ≡ pushed self.old.told entry }
        ensures spare { self.new.spare + 1 ≡ self.old.spare }
        ensures lacked { self.new.lacked ≡ self.old.lacked }
    {
        self.journal.push(entry);
        self.mark = self.journal.len();
    }

    /// Adds a call, an event of one, or a wake, which may come here. It takes no memory, and uses one place.
    #[inline(always)]
    pub fn note(&mut self, entry: Entry)
        requires room { 0 < self.old.spare }
        requires may { May self.old.told.state entry }
        requires call { is_call entry ≡ true }
        requires drawn { IsDrawn self.old.told.state entry }
        requires digested { IsDigested (digest_of (self.old.told.given ++ own self.old.told)) entry }
        ensures told { self.new.told ≡ noted self.old.told entry }
        ensures spare { self.new.spare + 1 ≡ self.old.spare }
        ensures lacked { self.new.lacked ≡ self.old.lacked }
    {
        self.journal.push(entry);
    }

    /// Marks that a call ran out of memory here. A mark that is there stays.
    pub fn mark_lack(&mut self)
        ensures told { self.new.told ≡ self.old.told }
        ensures spare { self.new.spare ≡ self.old.spare }
        ensures lacked { self.new.lacked ≡ marked self.old.lacked self.old.told.state.turns }
    {
        if self.lacked.is_none() {
            self.lacked = Some(self.journal.len());
        }
    }

    /// Returns whether there is a mark that a call ran out of memory.
    pub fn has_lacked(&self) -> bool
        ensures { result ≡ is_some self.now.lacked }
    {
        self.lacked.is_some()
    }

    /// Takes off the mark that a call ran out of memory.
    pub fn clear_lack(&mut self)
        ensures told { self.new.told ≡ self.old.told }
        ensures spare { self.new.spare ≡ self.old.spare }
        ensures lacked { self.new.lacked ≡ None }
    {
        self.lacked = None;
    }

    /// States by its clauses what is known of each journal.
    pub fn facts(&self)
        ensures lawful { IsLawful (begun self.now.told.begin) (own self.now.told) }
        ensures drawn { AreDrawn (begun self.now.told.begin) (own self.now.told) }
        ensures digested { AreDigested (digest_of self.now.told.given) (own self.now.told) }
        ensures state { self.now.told.state ≡ after_all (begun self.now.told.begin) (own self.now.told) }
        ensures calls { AreCalls self.now.told.calls }
    {
        let _ = &self.start;
    }

    /// Returns the digest of the events so far, of those that were given too.
    pub fn auditor(&self) -> Auditor
        ensures { result ≡ digest_of (self.now.told.given ++ own self.now.told) }
    {
        self.journal.auditor()
    }

    /// Spends this and returns all entries, those that were given and the run's own.
    pub fn into_inner(self) -> Journal
        ensures entries { result.entries ≡ self.told.given ++ own self.told }
    {
        self.journal
    }
}
