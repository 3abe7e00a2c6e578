// The names of blobs, by partition.
ghost use Rattle.std.specs.Prelude.{◌≡◌, ◌+◌, ◌*◌, ◌<◌, ◌≤◌, ◌++◌, List, [], None, ⊤, length, map, slice_get, vec_len, vec_capacity};
ghost use Rattle.std.specs.Option.{option_copied};
ghost use Rattle.rt_base.specs.Counted.{Notes};
ghost use Rattle.rt_base.specs.declared.choice.Choice.{Choice};
ghost use Rattle.rt_store.specs.Crash.{ChoosesAll, all_crashed};
ghost use Rattle.rt_store.specs.Store.{count_later};
ghost use Rattle.rt_store.specs.Directory.{named_numbers, numbers_of, at_name, names_in, number_of, named, unnamed, without_partition, no_partitions};
ghost use Rattle.rt_store.specs.Draws.{Answers, if_ok};
ghost use Rattle.rt_store.specs.Leading.{LeadToShelves};

use crate::faults::FaultConfig;
use crate::files::Files;
use crate::names::{Names, copy};
use rt_base::{Choice, Env, Error, NoEnv};
use std::alloc::Global;
use std::collections::btree_map::Iter;
use std::marker::Model;

/// The partitions that are there, each with its shelf of names.
#[derive(Drop)]
pub struct Directory {
    partitions: Names,
    shelves: Vec<Names>,
    alloc: Global,
}

impl Model for Directory {
    ghost use Rattle.std.specs.Prelude.{length};
    ghost use Rattle.rt_store.specs.Directory.{Partitions};
    ghost use Rattle.rt_store.specs.Leading.{LeadToShelves};

    ghost Value = { Partitions };

    ghost view = { λ d. record { shelf = d.partitions; shelves = d.shelves.items } };

    ghost invariant = { λ d. LeadToShelves d.partitions (length d.shelves.items) };
}

impl Directory {
    /// Makes a directory without partitions.
    #[tactic(auto, using(crate::proofs::Leading::no_shelves))]
    pub fn new(alloc: Global) -> Directory
        ensures { result ≡ no_partitions }
    {
        Directory {
            partitions: Names::new(alloc),
            shelves: Vec::new(alloc),
            alloc,
        }
    }

    /// Returns the number of the blob of this name, if any.
    pub fn number_of(&self, partition: &[u8], name: &[u8]) -> Option<u64>
        ensures value { result ≡ number_of partition.now name.now self.now }
        ensures shelves { LeadToShelves self.now.shelf (length self.now.shelves) }
    {
        match self.names_in(partition) {
            Some(names) => names.get(name),
            None => None,
        }
    }

    /// Returns the names of a partition, if it is there.
    pub fn names_in(&self, partition: &[u8]) -> Option<&Names>
        ensures value { option_copied result ≡ names_in partition.now self.now }
        ensures shelves { LeadToShelves self.now.shelf (length self.now.shelves) }
    {
        match self.partitions.get(partition) {
            Some(shelf) => self.shelf(shelf),
            None => None,
        }
    }

    /// Returns the partitions with the numbers of their shelves, in order.
    pub fn partitions(&self) -> Iter<'_, Vec<u8>, u64>
        ensures { map (λ e. (e.0.items, e.1)) result ≡ self.now.shelf }
    {
        self.partitions.entries()
    }

    /// Returns the names of a shelf, if it is there.
    pub fn shelf(&self, shelf: u64) -> Option<&Names>
        ensures { option_copied result ≡ slice_get self.now.shelves shelf }
    {
        self.shelves.get(shelf as usize)
    }

    /// Leaves what a crash leaves of the blobs of all names, in order. It takes no memory, and returns how many
    /// changes it decided over.
    pub fn crash<E: Env>(
        &self,
        files: &mut Files,
        env: &mut E,
        faults: &FaultConfig,
        choices: &mut Vec<Choice>,
    ) -> usize
        requires draws { 2 * count_later files.old ≤ E.spare env.old }
        requires places { vec_len choices.old + count_later files.old ≤ vec_capacity choices.old }
        ensures lasts { (start : E) → E.lasts start env.old → E.lasts start env.new }
        ensures gives { (cs : List Choice) × ChoosesAll faults.now (named_numbers self.now) files.old cs (E.noted env.old) (E.noted env.new) × (choices.new.items ≡ choices.old.items ++ cs) × (files.new ≡ all_crashed (named_numbers self.now) cs files.old) }
        ensures later { count_later files.new + result ≡ count_later files.old }
        ensures spent { E.spare env.old ≤ E.spare env.new + 2 * result }
        ensures used { vec_len choices.new ≡ vec_len choices.old + result }
        ensures places { vec_capacity choices.new ≡ vec_capacity choices.old }
    {
        let mut fewer: usize = 0;
        for shelf in self.partitions.numbers() {
            fewer += self.crash_shelf(*shelf, files, env, faults, choices);
        }
        fewer
    }

    // Leaves what a crash leaves of the blobs of one shelf.
    fn crash_shelf<E: Env>(
        &self,
        shelf: u64,
        files: &mut Files,
        env: &mut E,
        faults: &FaultConfig,
        choices: &mut Vec<Choice>,
    ) -> usize
        requires draws { 2 * count_later files.old ≤ E.spare env.old }
        requires places { vec_len choices.old + count_later files.old ≤ vec_capacity choices.old }
        ensures lasts { (start : E) → E.lasts start env.old → E.lasts start env.new }
        ensures gives { (cs : List Choice) × ChoosesAll faults.now (numbers_of (slice_get self.now.shelves shelf)) files.old cs (E.noted env.old) (E.noted env.new) × (choices.new.items ≡ choices.old.items ++ cs) × (files.new ≡ all_crashed (numbers_of (slice_get self.now.shelves shelf)) cs files.old) }
        ensures later { count_later files.new + result ≡ count_later files.old }
        ensures spent { E.spare env.old ≤ E.spare env.new + 2 * result }
        ensures used { vec_len choices.new ≡ vec_len choices.old + result }
        ensures places { vec_capacity choices.new ≡ vec_capacity choices.old }
    {
        match self.shelf(shelf) {
            Some(names) => files.crash(names, env, faults, choices),
            None => 0,
        }
    }

    /// Takes a name away.
    #[tactic(auto, using(crate::proofs::Leading::shelf_within, crate::proofs::Leading::set_length))]
    pub fn unname(&mut self, partition: &[u8], name: &[u8])
        ensures { self.new ≡ unnamed partition.now name.now self.old }
    {
        if let Some(shelf) = self.partitions.get(partition) {
            self.shelves[shelf as usize].remove(name);
        }
    }

    /// Takes a partition away, and with it its names.
    #[tactic(auto, using(crate::proofs::Leading::shelf_within, crate::proofs::Leading::set_length, crate::proofs::Leading::shelves_without))]
    pub fn remove(&mut self, partition: &[u8])
        ensures { self.new ≡ without_partition partition.now self.old }
    {
        if let Some(shelf) = self.partitions.get(partition) {
            self.shelves[shelf as usize].clear();
        }
        self.partitions.remove(partition);
    }

    /// Gives a name a number, except where a fault is drawn.
    #[tactic(auto, using(crate::proofs::Leading::shelf_within, crate::proofs::Leading::set_length))]
    pub fn name<E: Env>(
        &mut self,
        env: &mut E,
        rate: u32,
        partition: &[u8],
        name: &[u8],
        number: u64,
    ) -> Result<(), Error>
        requires { 0 < rate → 0 < E.spare env.old }
        ensures lasts { (start : E) → E.lasts start env.old → E.lasts start env.new }
        ensures gives { Notes (E.noted env.old) (Answers None rate (λ _. ⊤) result) (E.noted env.new) }
        ensures after { self.new ≡ if_ok result (named partition.now name.now number self.old) self.old }
        ensures spent { E.spare env.old ≤ E.spare env.new + 1 }
    {
        let key = copy(self.alloc, name)?;
        if let Some(shelf) = self.partitions.get(partition) {
            self.shelves[shelf as usize].put(env, rate, key, number)?;
            return Ok(());
        }
        let mut names = Names::new(self.alloc);
        names.put(&mut NoEnv, 0, key, number)?;
        self.shelves.reserve(1)?;
        let shelf = self.shelves.len() as u64;
        let partition = copy(self.alloc, partition)?;
        self.partitions.put(env, rate, partition, shelf)?;
        self.shelves.push_reserved(names);
        Ok(())
    }
}
