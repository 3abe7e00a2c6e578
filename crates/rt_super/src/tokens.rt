// The signals, or the completions, of all groups.
ghost use Rattle.std.specs.Prelude.{◌≡◌, ◌≤◌, ◌<◌, ◌+◌, ◌∷◌, ◌++◌, [], ℕ, None, length, OnOk, OnErr, set, get_or, vec_capacity};
ghost use Rattle.std.specs.VecDeque.{deque_capacity};
ghost use Rattle.rt_super.specs.Rows.{find, without, replaced};
ghost use Rattle.rt_super.specs.Signals.{new_token, group_for, is_open, is_waited, waits_in, unwaited, waiting_as};
ghost use Rattle.rt_super.specs.Tokens.{lists_of, wait_of, with_met, IsLeft};

use crate::signal_token::SignalToken;
use crate::table::Table;
use rt_base::NoMemory;
use std::alloc::Global;
use std::collections::VecDeque;
use std::marker::Model;

/// The signals, or the completions, of all groups, by number. A group's own number is its first.
#[derive(Drop)]
pub struct Tokens {
    table: Table<SignalToken>,
    /// Beside each number, the later ones that were given in its group.
    later: Vec<Vec<u64>>,
    /// Beside each number, how many of its group are there.
    live: Vec<u64>,
}

impl Model for Tokens {
    ghost use Rattle.rt_super.specs.Rows.{Rows};
    ghost use Rattle.rt_super.specs.declared.signal_token.SignalToken.{SignalToken};

    ghost Value = { Rows SignalToken };

    ghost use Rattle.rt_super.specs.TokensInside.{rows_of, IsWhole};

    ghost view = { rows_of };

    ghost invariant = { IsWhole };
}

impl Tokens {
    pub fn new(alloc: Global) -> Self
        ensures items { result.items ≡ [] }
        ensures next { result.next ≡ 0 }
    {
        Tokens {
            table: Table::new(alloc, 0),
            later: Vec::new(alloc),
            live: Vec::new(alloc),
        }
    }

    /// Returns the next number.
    pub fn count(&self) -> u64
        ensures { result ≡ self.now.next }
    {
        self.live.len() as u64
    }

    pub fn get(&self, number: u64) -> Option<SignalToken>
        ensures { result ≡ find number self.now.items }
    {
        self.table.get(number)
    }

    /// Returns whether somebody waits by this one.
    pub fn is_waited(&self, number: u64) -> bool
        ensures { result ≡ is_waited number self.now.items }
    {
        match self.table.get(number) {
            Some(token) => token.waits.is_some(),
            None => false,
        }
    }

    /// Returns whether one of the group is there.
    pub fn is_open(&self, group: u64) -> bool
        ensures { result ≡ is_open group self.now.items }
    {
        match self.live.get(group as usize) {
            Some(live) => *live > 0,
            None => false,
        }
    }

    /// Takes room for the next number.
    pub fn reserve(&mut self) -> Result<(), NoMemory>
        ensures items { self.new.items ≡ self.old.items }
        ensures next { self.new.next ≡ self.old.next }
        ensures room { OnOk result (0 < self.new.spare) }
    {
        self.table.reserve(1)?;
        self.later.reserve(1)?;
        self.live.reserve(1)?;
        Ok(())
    }

    /// Skips the next number.
    pub fn skip(&mut self)
        requires { 0 < self.old.spare }
        ensures items { self.new.items ≡ self.old.items }
        ensures next { self.new.next ≡ self.old.next + 1 }
    {
        let list = Vec::new(*self.later.allocator());
        self.table.skip();
        self.later.push_reserved(list);
        self.live.push_reserved(0);
    }

    /// Adds the first one of a group.
    pub fn push(&mut self)
        requires { 0 < self.old.spare }
        ensures items { self.new.items ≡ self.old.items ++ (self.old.next, new_token self.old.next) ∷ [] }
        ensures next { self.new.next ≡ self.old.next + 1 }
    {
        let group = self.live.len() as u64;
        let list = Vec::new(*self.later.allocator());
        self.table.facts();
        self.table.push(SignalToken { group, waits: None });
        self.later.push_reserved(list);
        self.live.push_reserved(1);
    }

    /// States by its clause that no number from the next one on has a token.
    pub fn facts(&self)
        ensures { (number : ℕ) → self.now.next ≤ number → find number self.now.items ≡ None }
    {
        self.table.facts();
    }

    /// Adds a further one of a group. Where the group was never made, it is one of a group that
    /// never will be.
    pub fn push_to(&mut self, group: u64) -> Result<(), NoMemory>
        ensures items { OnOk result (self.new.items ≡ self.old.items ++ (self.old.next, new_token (group_for group self.old.next)) ∷ []) }
        ensures next { OnOk result (self.new.next ≡ self.old.next + 1) }
        ensures refused { OnErr result (self.new.items ≡ self.old.items) }
        ensures same { OnErr result (self.new.next ≡ self.old.next) }
    {
        self.reserve()?;
        if group >= self.count() {
            self.push();
            return Ok(());
        }
        let list = Vec::new(*self.later.allocator());
        let number = self.live.len() as u64;
        self.table.facts();
        list_number(&mut self.later, group as usize, number)?;
        self.table.push(SignalToken { group, waits: None });
        self.later.push_reserved(list);
        self.live[group as usize] += 1;
        self.live.push_reserved(0);
        Ok(())
    }

    /// Sets who waits by one.
    pub fn wait(&mut self, number: u64, waits: Option<u64>)
        ensures items { self.new.items ≡ replaced (waiting_as waits) number self.old.items }
        ensures next { self.new.next ≡ self.old.next }
    {
        if let Some(token) = self.table.get(number) {
            let group = token.group;
            self.table.set(number, SignalToken { group, waits });
        }
    }

    pub fn remove(&mut self, number: u64)
        ensures items { self.new.items ≡ without number self.old.items }
        ensures next { self.new.next ≡ self.old.next }
    {
        if let Some(token) = self.table.get(number) {
            self.table.remove(number);
            self.live[token.group as usize] -= 1;
        }
    }

    /// Takes out who waits by those of a group, and notes who did.
    pub fn meet(&mut self, group: u64, woken: &mut VecDeque<u64>)
        requires room { length woken.old.items + self.old.next ≤ deque_capacity woken.old }
        ensures items { self.new.items ≡ unwaited group self.old.items }
        ensures next { self.new.next ≡ self.old.next }
        ensures woken { woken.new.items ≡ woken.old.items ++ waits_in group self.old.items }
        ensures few { length woken.new.items ≤ length woken.old.items + self.old.next }
        ensures room { deque_capacity woken.new ≡ deque_capacity woken.old }
    {
        self.table.facts();
        if group < self.later.len() as u64 {
            meet_one(&mut self.table, group, group, woken);
            meet_each(&mut self.table, group, &self.later[group as usize], woken);
        }
    }
}

// Adds a number to a group's.
fn list_number(later: &mut Vec<Vec<u64>>, group: usize, number: u64) -> Result<(), NoMemory>
    requires known { group < length later.old.items }
    ensures listed { OnOk result (lists_of later.new.items ≡ set (lists_of later.old.items) group (get_or (lists_of later.old.items) group [] ++ number ∷ [])) }
    ensures refused { OnErr result (lists_of later.new.items ≡ lists_of later.old.items) }
    ensures room { vec_capacity later.new ≡ vec_capacity later.old }
{
    later[group].push(number)?;
    Ok(())
}

// Lets nobody wait by this one if it is of the group, and notes who did.
fn meet_one(table: &mut Table<SignalToken>, group: u64, number: u64, woken: &mut VecDeque<u64>)
    requires room { length (woken.old.items ++ wait_of group number table.old.items) ≤ deque_capacity woken.old }
    ensures items { table.new.items ≡ with_met group number table.old.items }
    ensures next { table.new.next ≡ table.old.next }
    ensures spare { table.new.spare ≡ table.old.spare }
    ensures woken { woken.new.items ≡ woken.old.items ++ wait_of group number table.old.items }
    ensures room { deque_capacity woken.new ≡ deque_capacity woken.old }
{
    let Some(token) = table.get(number) else {
        return;
    };
    if token.group != group {
        return;
    }
    if let Some(task) = token.waits {
        woken.push_back_reserved(task);
    }
    table.set(number, SignalToken { group, waits: None });
}

// The same for each of these, which are all of the group that may wait.
fn meet_each(table: &mut Table<SignalToken>, group: u64, numbers: &[u64], woken: &mut VecDeque<u64>)
    requires left { IsLeft group numbers.now table.old.items }
    requires room { length (woken.old.items ++ waits_in group table.old.items) ≤ deque_capacity woken.old }
    ensures items { table.new.items ≡ unwaited group table.old.items }
    ensures next { table.new.next ≡ table.old.next }
    ensures spare { table.new.spare ≡ table.old.spare }
    ensures woken { woken.new.items ≡ woken.old.items ++ waits_in group table.old.items }
    ensures room { deque_capacity woken.new ≡ deque_capacity woken.old }
{
    let mut rest = numbers;
    while let Some((number, tail)) = rest.split_first() {
        meet_one(table, group, *number, woken);
        rest = tail;
    }
}
