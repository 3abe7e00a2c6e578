// The syncs that a test holds back.
ghost use Rattle.std.specs.Prelude.{◌≡◌, ◌+◌, ◌<◌, ◌≤◌, ◌++◌, ◌∷◌, [], ◌↔◌, IsTrue, true, false, IfOk, OnOk, OnErr, Some, None, length, take, drop, if◌then◌else◌, slice_get, slice_set, vec_len};
ghost use Rattle.rt_buffer.specs.Pending.{all_released, armed, blocked, called, changed, completed, first_released, found_answer, gate_of, hold_answer, is_blocked_of, none_pending, observed, outcome, polled, released, start_hold, started, task_at, tasks_of, with_parked};

use crate::parked::Parked;
use rt_base::{Error, IoKind, NoMemory, Poll};
use std::alloc::Global;
use std::collections::VecDeque;
use std::marker::Model;

/// The syncs of a store that are held back, in the order of their starts, and counts of them, which stay at their
/// type's end.
///
/// A started sync is held until a test releases it, or until that is unblocked for good. A gate holds the next
/// durability call, which may also be a `sync` or a durable write.
#[derive(Debug, Drop)]
pub struct PendingSyncs {
    parked: Vec<Parked>,
    queue: VecDeque<u64>,
    gate: Option<u64>,
    is_armed: bool,
    is_unblocked: bool,
    fails: bool,
    calls: u64,
    starts: u64,
    entered: u64,
    completions: u64,
}

impl Model for PendingSyncs {
    ghost use Rattle.rt_buffer.specs.Pending.{Pending};

    ghost Value = { Pending };

    ghost view = { λ p. record { parked = p.parked.items; queue = p.queue.items; gate = p.gate; is_armed = p.is_armed; is_unblocked = p.is_unblocked; fails = p.fails; calls = p.calls; starts = p.starts; entered = p.entered; completions = p.completions } };
}

impl PendingSyncs {
    /// Makes a queue of no syncs, with all counts at 0.
    pub(crate) fn new(alloc: Global) -> PendingSyncs
        ensures { result ≡ none_pending }
    {
        PendingSyncs {
            parked: Vec::new(alloc),
            queue: VecDeque::new(alloc),
            gate: None,
            is_armed: false,
            is_unblocked: false,
            fails: false,
            calls: 0,
            starts: 0,
            entered: 0,
            completions: 0,
        }
    }

    /// Counts durability calls from now on, and puts a gate at the end of the queue that holds the next one. After
    /// `NoMemory` nothing has changed.
    pub fn arm(&mut self) -> Result<(), NoMemory>
        requires { self.old.is_armed ≡ false }
        ensures armed { OnOk result (self.new ≡ armed self.old) }
        ensures refused { OnErr result (self.new ≡ self.old) }
    {
        let gate = self.park()?;
        self.gate = Some(gate);
        self.is_armed = true;
        self.calls = 0;
        Ok(())
    }

    /// Returns whether durability calls are counted.
    pub fn is_armed(&self) -> bool
        ensures { result ≡ self.now.is_armed }
    {
        self.is_armed
    }

    /// Returns how many durability calls came since they are counted.
    pub fn calls(&self) -> u64
        ensures { result ≡ self.now.calls }
    {
        self.calls
    }

    /// Returns how many syncs were started.
    pub fn starts(&self) -> u64
        ensures { result ≡ self.now.starts }
    {
        self.starts
    }

    /// Returns how many started syncs were polled.
    pub fn entered(&self) -> u64
        ensures { result ≡ self.now.entered }
    {
        self.entered
    }

    /// Returns how many started syncs are done, with success.
    pub fn completions(&self) -> u64
        ensures { result ≡ self.now.completions }
    {
        self.completions
    }

    /// Returns how many syncs are in the queue, a gate among them.
    pub fn len(&self) -> usize
        ensures { result ≡ length self.now.queue }
    {
        self.queue.len()
    }

    /// Returns whether no sync and no gate is in the queue.
    pub fn is_empty(&self) -> bool
        ensures { IsTrue result ↔ (length self.now.queue ≡ 0) }
    {
        self.queue.is_empty()
    }

    /// Lets [`unblock`](Self::unblock) release with a failure, and what nothing holds then fail.
    pub fn arm_fail(&mut self)
        ensures { self.new ≡ record self.old { fails = true } }
    {
        self.fails = true;
    }

    /// Releases all, in the order of their starts, holds no sync that is started from now on, and returns the numbers
    /// of the tasks to wake. After `NoMemory` nothing has changed.
    pub fn unblock(&mut self) -> Result<Vec<u64>, NoMemory>
        ensures tasks { IfOk result (λ tasks. tasks.items ≡ tasks_of self.old.parked self.old.queue) }
        ensures released { OnOk result (self.new ≡ record (first_released (outcome self.old.fails) (length self.old.queue) self.old) { is_unblocked = true }) }
        ensures refused { OnErr result (self.new ≡ self.old) }
    {
        let count = self.queue.len();
        let fails = self.fails;
        let tasks = self.release_first(count, fails)?;
        self.is_unblocked = true;
        Ok(tasks)
    }

    /// Releases the first so many of the queue, with success or an injected failure.
    pub(crate) fn release_first(&mut self, count: usize, fails: bool) -> Result<Vec<u64>, NoMemory>
        requires { count ≤ length self.old.queue }
        ensures tasks { IfOk result (λ tasks. tasks.items ≡ tasks_of self.old.parked (take count self.old.queue)) }
        ensures released { OnOk result (self.new ≡ first_released (outcome fails) count self.old) }
        ensures refused { OnErr result (self.new ≡ self.old) }
    {
        let alloc = *self.parked.allocator();
        let tasks = tasks_to_wake(alloc, self.parked.as_slice(), &self.queue, count)?;
        release_each(&mut self.parked, &mut self.queue, count, fails);
        Ok(tasks)
    }

    /// Releases all with success. It takes no memory, and returns no numbers.
    pub(crate) fn release_all(&mut self)
        ensures { self.new ≡ first_released (outcome false) (length self.old.queue) self.old }
    {
        let count = self.queue.len();
        release_each(&mut self.parked, &mut self.queue, count, false);
    }

    /// Takes the first one out of the queue, which is released by its number.
    pub(crate) fn take_first(&mut self) -> u64
        requires { 0 < length self.old.queue }
        ensures number { self.old.queue ≡ result ∷ self.new.queue }
        ensures rest { self.new ≡ record self.old { queue = drop 1 self.old.queue } }
    {
        match self.queue.pop_front() {
            Some(number) => number,
            None => unreachable!(),
        }
    }

    /// Releases one, and returns the task to wake.
    pub(crate) fn release(&mut self, number: u64, answer: Result<(), Error>) -> Option<u64>
        ensures task { result ≡ task_at self.old.parked number }
        ensures released { self.new ≡ record self.old { parked = changed self.old.parked number (released answer) } }
    {
        release_one(&mut self.parked, number, answer)
    }

    /// Whether one was polled, or its call was made.
    pub(crate) fn is_blocked(&self, number: u64) -> bool
        ensures { result ≡ is_blocked_of (slice_get self.now.parked number) }
    {
        match self.parked.get(number as usize) {
            Some(parked) => parked.is_blocked,
            None => false,
        }
    }

    // Puts one more into the queue, and returns its number.
    fn park(&mut self) -> Result<u64, NoMemory>
        ensures number { IfOk result (λ number. number ≡ length self.old.parked) }
        ensures parked { OnOk result (self.new ≡ with_parked self.old) }
        ensures refused { OnErr result (self.new ≡ self.old) }
    {
        self.queue.reserve(1)?;
        let number = self.parked.len() as u64;
        self.parked.push(Parked {
            task: None,
            is_blocked: false,
            answer: None,
        })?;
        self.queue.push_back_reserved(number);
        Ok(number)
    }

    /// The gate that a durability call takes.
    pub(crate) fn gate(&self) -> Option<u64>
        ensures { result ≡ gate_of self.now }
    {
        if self.is_armed { self.gate } else { None }
    }

    // Counts a durability call, which takes the gate.
    fn observe(&mut self)
        ensures { self.new ≡ observed self.old }
    {
        if self.is_armed {
            self.calls = self.calls.saturating_add(1);
            self.gate = None;
        }
    }

    /// Counts a started sync, and returns what holds it.
    pub(crate) fn start(&mut self) -> Result<Option<u64>, NoMemory>
        ensures hold { IfOk result (λ hold. hold ≡ start_hold self.old) }
        ensures started { OnOk result (self.new ≡ started self.old) }
        ensures refused { OnErr result (self.new ≡ self.old) }
    {
        let hold = match self.gate() {
            Some(gate) => Some(gate),
            None if self.is_unblocked => None,
            None => Some(self.park()?),
        };
        self.observe();
        self.starts = self.starts.saturating_add(1);
        Ok(hold)
    }

    /// Counts another durability call, and returns the gate that holds it.
    pub(crate) fn call(&mut self) -> Option<u64>
        ensures gate { result ≡ gate_of self.old }
        ensures called { self.new ≡ called self.old }
    {
        let gate = self.gate();
        self.observe();
        if let Some(number) = gate {
            block(&mut self.parked, number);
        }
        gate
    }

    /// Polls what holds a sync for its answer, which it gives away.
    pub(crate) fn poll(&mut self, hold: Option<u64>, task: u64) -> Poll<Result<(), Error>>
        ensures answer { result ≡ hold_answer self.old hold }
        ensures polled { self.new ≡ polled hold task self.old }
    {
        let Some(number) = hold else {
            self.entered = self.entered.saturating_add(1);
            return Poll::Ready(outcome(self.fails));
        };
        let place = number as usize;
        if place >= self.parked.len() {
            return Poll::Pending;
        }
        if !self.parked[place].is_blocked {
            self.entered = self.entered.saturating_add(1);
        }
        poll_one(&mut self.parked, place, task)
    }

    /// Counts a started sync that is done.
    pub(crate) fn complete(&mut self)
        ensures { self.new ≡ completed self.old }
    {
        self.completions = self.completions.saturating_add(1);
    }
}

// What a sync that isn't given its answer comes to.
fn outcome(fails: bool) -> Result<(), Error>
    ensures { result ≡ outcome fails }
{
    if fails {
        Err(Error::Io(IoKind::InjectedSyncFailure))
    } else {
        Ok(())
    }
}

// The tasks that polled the first so many of the queue last.
fn tasks_to_wake(
    alloc: Global,
    parked: &[Parked],
    queue: &VecDeque<u64>,
    count: usize,
) -> Result<Vec<u64>, NoMemory>
    requires { count ≤ length queue.now.items }
    ensures { IfOk result (λ tasks. tasks.items ≡ tasks_of parked.now (take count queue.now.items)) }
{
    Ok(
        queue
            .range(..count)
            .filter_map(|number| task_of(parked, *number))
            .collect(alloc)?,
    )
}

// The task of the last pending poll.
fn task_of(parked: &[Parked], number: u64) -> Option<u64>
    ensures { result ≡ task_at parked.now number }
{
    match parked.get(number as usize) {
        Some(found) => found.task,
        None => None,
    }
}

// Takes the first so many out of the queue one by one, and releases them. None of the others moves.
fn release_each(parked: &mut Vec<Parked>, queue: &mut VecDeque<u64>, count: usize, fails: bool)
    ensures released { parked.new.items ≡ all_released (outcome fails) (take count queue.old.items) parked.old.items }
    ensures taken { queue.new.items ≡ drop count queue.old.items }
{
    let mut left = count;
    while left > 0 {
        left -= 1;
        if let Some(number) = queue.pop_front() {
            let _ = release_one(parked, number, outcome(fails));
        }
    }
}

// Releases one, and returns the task to wake.
fn release_one(parked: &mut Vec<Parked>, number: u64, answer: Result<(), Error>) -> Option<u64>
    ensures task { result ≡ task_at parked.old.items number }
    ensures released { parked.new.items ≡ changed parked.old.items number (released answer) }
{
    let place = number as usize;
    if place >= parked.len() {
        return None;
    }
    let found = &mut parked[place];
    found.answer = Some(answer);
    found.task
}

// The call that a gate holds was made.
fn block(parked: &mut Vec<Parked>, number: u64)
    ensures { parked.new.items ≡ changed parked.old.items number blocked }
{
    let place = number as usize;
    if place < parked.len() {
        parked[place].is_blocked = true;
    }
}

// A poll of one that is there: it takes the answer.
fn poll_one(parked: &mut Vec<Parked>, place: usize, task: u64) -> Poll<Result<(), Error>>
    requires { place < vec_len parked.old }
    ensures answer { result ≡ found_answer (slice_get parked.old.items place) }
    ensures polled { parked.new.items ≡ slice_set parked.old.items place (record { task = Some task; is_blocked = true; answer = None }) }
{
    let found = &mut parked[place];
    found.task = Some(task);
    found.is_blocked = true;
    match found.answer.take() {
        Some(answer) => Poll::Ready(answer),
        None => Poll::Pending,
    }
}
