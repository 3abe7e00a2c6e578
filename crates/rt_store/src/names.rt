// Names in the order of their bytes, each with a number.
ghost use Rattle.std.specs.Prelude.{◌≡◌, ◌+◌, ◌<◌, ◌≤◌, ℕ, [], List, map, IfOk, None, Vec, ⊤};
ghost use Rattle.std.specs.Global.{Global};
ghost use Rattle.std.specs.BTreeMap.{insert_entry, keys, IsOrdered};
ghost use Rattle.std.specs.Cmp.Lexicographic.{slice_cmp};
ghost use Rattle.std.specs.Ordering.{nat_cmp};
ghost use Rattle.rt_base.specs.Counted.{Notes};
ghost use Rattle.rt_store.specs.Directory.{Ascend, at_name, put_name, without_name, numbers};
ghost use Rattle.rt_store.specs.Draws.{Answers, if_ok};

use crate::draws::passes;
use rt_base::{Env, Error, IoKind, NoMemory};
use std::alloc::Global;
use std::collections::BTreeMap;
use std::collections::btree_map::{Entry, Iter, Values};
use std::marker::Model;

/// The names that are there, each with its number.
#[derive(Drop)]
pub struct Names {
    numbers: BTreeMap<Vec<u8>, u64>,
}

impl Model for Names {
    ghost use Rattle.std.specs.Prelude.{List, ℕ, map};

    ghost Value = { List (List ℕ × ℕ) };

    ghost view = { λ n. map (λ e. (e.0.items, e.1)) n.numbers.entries };
}

impl Names {
    /// Makes a list without names.
    pub fn new(alloc: Global) -> Names
        ensures { result ≡ [] }
    {
        Names {
            numbers: BTreeMap::new(alloc),
        }
    }

    /// Returns the number of a name, if it is there.
    #[tactic(auto, using(crate::proofs::Named::lookup_shown))]
    pub fn get(&self, name: &[u8]) -> Option<u64>
        ensures { result ≡ at_name name.now self.now }
    {
        self.numbers.get(name).copied()
    }

    /// Returns the numbers, in the order of the names.
    pub fn numbers(&self) -> Values<'_, Vec<u8>, u64>
        ensures { result ≡ numbers self.now }
    {
        self.numbers.values()
    }

    /// Returns the names with their numbers, in order.
    pub fn entries(&self) -> Iter<'_, Vec<u8>, u64>
        ensures { map (λ e. (e.0.items, e.1)) result ≡ self.now }
    {
        self.numbers.iter()
    }

    /// Returns a copy of each name, in order.
    pub fn list(&self, alloc: Global) -> Result<Vec<Vec<u8>>, NoMemory>
        ensures ascend { Ascend (map (λ (e : List ℕ × ℕ). e.0) self.now) }
        ensures names { IfOk result (λ names. map (λ (n : Vec ℕ Global). n.items) names.items ≡ map (λ (e : List ℕ × ℕ). e.0) self.now) }
    {
        copies(alloc, &self.numbers)
    }

    /// Takes a name away.
    pub fn remove(&mut self, name: &[u8])
        ensures { self.new ≡ without_name name.now self.old }
    {
        let _ = self.numbers.remove(name);
    }

    /// Takes all names away.
    pub fn clear(&mut self)
        ensures { self.new ≡ [] }
    {
        self.numbers.clear();
    }

    /// Gives a name a number, except where a fault is drawn.
    #[tactic(auto, using(crate::proofs::Named::lookup_shown, crate::proofs::Named::put_shown))]
    pub fn put<E: Env>(
        &mut self,
        env: &mut E,
        rate: u32,
        name: Vec<u8>,
        number: u64,
    ) -> Result<(), Error>
        requires draw { 0 < rate → 0 < E.spare env.old }
        ensures lasts { (start : E) → E.lasts start env.old → E.lasts start env.new }
        ensures gives { Notes (E.noted env.old) (Answers None rate (λ _. ⊤) result) (E.noted env.new) }
        ensures after { self.new ≡ if_ok result (put_name name.items number self.old) self.old }
        ensures spent { E.spare env.old ≤ E.spare env.new + 1 }
    {
        put_number(&mut self.numbers, env, rate, name, number)?;
        Ok(())
    }
}

// Puts an entry, save where a fault is drawn.
#[tactic(auto, using(crate::proofs::Named::remove_absent))]
fn put_number<E: Env>(
    numbers: &mut BTreeMap<Vec<u8>, u64>,
    env: &mut E,
    rate: u32,
    name: Vec<u8>,
    number: u64,
) -> Result<(), Error>
    requires draw { 0 < rate → 0 < E.spare env.old }
    ensures lasts { (start : E) → E.lasts start env.old → E.lasts start env.new }
    ensures gives { Notes (E.noted env.old) (Answers None rate (λ _. ⊤) result) (E.noted env.new) }
    ensures after { numbers.new.entries ≡ if_ok result (insert_entry (λ a b. slice_cmp nat_cmp a.items b.items) numbers.old.entries name number) numbers.old.entries }
    ensures spent { E.spare env.old ≤ E.spare env.new + 1 }
{
    match numbers.entry(name)? {
        Entry::Vacant(entry) => {
            // An entry that is let go may leave the map in any state, so the name goes out again.
            let entry = entry.insert_entry(number);
            if !passes(env, rate) {
                let _ = entry.remove();
                return Err(Error::Io(IoKind::InjectedStorageFault));
            }
        }
        Entry::Occupied(mut entry) => {
            if !passes(env, rate) {
                return Err(Error::Io(IoKind::InjectedStorageFault));
            }
            let _ = entry.insert(number);
        }
    }
    Ok(())
}

// A copy of each name, in order.
fn copies(alloc: Global, numbers: &BTreeMap<Vec<u8>, u64>) -> Result<Vec<Vec<u8>>, NoMemory>
    ensures ascend { IsOrdered (λ a b. slice_cmp nat_cmp a.items b.items) numbers.now }
    ensures names { IfOk result (λ names. map (λ (n : Vec ℕ Global). n.items) names.items ≡ map (λ (n : Vec ℕ Global). n.items) (keys numbers.now)) }
{
    let mut names = Vec::with_capacity(alloc, numbers.len())?;
    for name in numbers.keys() {
        names.push(copy(alloc, name.as_slice())?)?;
    }
    Ok(names)
}

/// Returns a copy of the bytes.
pub fn copy(alloc: Global, bytes: &[u8]) -> Result<Vec<u8>, NoMemory>
    ensures { IfOk result (λ copy. copy.items ≡ bytes.now) }
{
    let mut copy = Vec::with_capacity(alloc, bytes.len())?;
    copy.extend_from_slice(bytes)?;
    Ok(copy)
}
