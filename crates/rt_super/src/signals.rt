// Values that are shown once to all who hold a signal.
ghost use Rattle.std.specs.Prelude.{◌≡◌, ◌≤◌, ◌+◌, ◌*◌, ◌++◌, ◌⊎◌, ◌↔◌, [], length, drop, slice_get, Err, IfOk, IfErr, OnOk, OnErr, IsNone, IsSome, is_some, Some, Ok, ℕ};
ghost use Rattle.std.specs.VecDeque.{deque_capacity};
ghost use Rattle.rt_super.specs.Wakers.{waker_of};
ghost use Rattle.rt_super.specs.Rows.{find};
ghost use Rattle.rt_super.specs.declared.signal_token.SignalToken.{SignalToken};
ghost use Rattle.rt_super.specs.Signals.{no_signals, new_group, group_of, is_waited, with_group, with_signal, with_clone, with_completion, is_alive, has_value, completes, signaled, woken_by_value, signaler_closed, woken_by_closing, signal_closed, woken_by_last, completion_closed, signal_answer, signal_polled, completion_answer, completion_polled, StopRecord, IsShutdown, KeepShutdowns, KeepOthers, AreFresh, signal_group, stop_shown};

use crate::signal_group::SignalGroup;
use crate::table::Table;
use crate::tokens::Tokens;
use crate::waker::waker;
use rt_base::{Error, NoMemory, Poll};
use std::alloc::Global;
use std::collections::VecDeque;
use std::marker::Model;

/// Groups of signals. A group has a signaler, by whose number it goes. It gives the group a value, once, or is given
/// up. The signals of the group show the value, and its completions are met once the value came and each signal was
/// given up. The signaler, the first signal and the first completion have one number, and each further one has the
/// next.
///
/// `next_woken` returns whom the last call of any other kind met. A call that is refused changes nothing, and so this
/// list neither: take it after each call.
///
/// Only `add` and `clone_signal` take memory. Each call leaves each shutdown ([`Stopper`](crate::Stopper)) as one, but
/// for `signal` and `close_signaler` of its number before its first `stop`.
#[derive(Drop)]
pub struct Signals {
    groups: Table<SignalGroup>,
    signals: Tokens,
    completions: Tokens,
    /// Whom the last call met and nobody took yet.
    woken: VecDeque<u64>,
}

impl Model for Signals {
    ghost use Rattle.rt_super.specs.Signals.{SignalState};

    ghost Value = { SignalState };

    ghost use Rattle.rt_super.specs.SignalsInside.{state_of, IsWhole};

    ghost view = { state_of };

    ghost invariant = { IsWhole };
}

impl Signals {
    /// Makes a set of no groups.
    pub fn new(alloc: Global) -> Self
        ensures none { result.told ≡ no_signals }
        ensures woken { result.woken ≡ [] }
    {
        Signals {
            groups: Table::new(alloc, 0),
            signals: Tokens::new(alloc),
            completions: Tokens::new(alloc),
            woken: VecDeque::new(alloc),
        }
    }

    /// Adds a group, and returns its number, which its signaler, a signal and a completion have. Nobody is woken.
    ///
    /// Error: `NoMemory`. Nothing has changed after it.
    pub fn add(&mut self) -> Result<u64, NoMemory>
        ensures number { IfOk result (λ number. number ≡ self.old.told.count) }
        ensures added { OnOk result (self.new.told ≡ with_group self.old.told) }
        ensures made { IfOk result (λ number. group_of self.new.told number ≡ Some new_group) }
        ensures shutdowns { KeepShutdowns self.old.told self.new.told }
        ensures woken { OnOk result (self.new.woken ≡ []) }
        ensures refused { OnErr result (self.new ≡ self.old) }
    {
        let number = self.signals.count();
        self.groups.facts();
        self.groups.reserve(1)?;
        self.signals.reserve()?;
        self.completions.reserve()?;
        reserve_woken(&mut self.woken, number)?;
        self.groups.push(SignalGroup {
            value: None,
            alive: true,
        });
        self.signals.push();
        self.completions.push();
        self.woken.clear();
        Ok(number)
    }

    /// Adds an open signal of the same group as this one, and returns its number.
    ///
    /// Errors: `UnknownToken` where no open signal has the number, `NoMemory`. Nothing has changed after an error.
    #[tactic(auto, using(crate::proofs::Shutdowns::clone_keeps))]
    pub fn clone_signal(&mut self, signal: u64) -> Result<u64, Error>
        ensures number { IfOk result (λ number. number ≡ self.old.told.count) }
        ensures added { OnOk result (self.new.told ≡ with_clone self.old.told signal) }
        ensures shutdowns { KeepShutdowns self.old.told self.new.told }
        ensures woken { OnOk result (self.new.woken ≡ []) }
        ensures unknown { (result ≡ Err Error.UnknownToken) ↔ IsNone (find signal self.old.told.signals) }
        ensures causes { IfErr result (λ e. (e ≡ Error.UnknownToken) ⊎ (e ≡ Error.NoMemory)) }
        ensures refused { OnErr result (self.new ≡ self.old) }
    {
        let Some(token) = self.signals.get(signal) else {
            return Err(Error::UnknownToken);
        };
        let number = self.add_signal(token.group)?;
        Ok(number)
    }

    /// Gives a group its value, for good. It does nothing where the signaler isn't there.
    pub fn signal(&mut self, signaler: u64, value: i32)
        ensures given { self.new.told ≡ signaled self.old.told signaler value }
        ensures shutdowns { KeepOthers signaler self.old.told self.new.told }
        ensures woken { self.new.woken ≡ woken_by_value self.old.told signaler }
    {
        self.woken.clear();
        self.give(signaler, value);
    }

    /// Returns the value that a signal shows, at each poll again, in the name of a task, which waits where no value
    /// came yet, in the place of who waited before. `NOBODY` polls in nobody's name, and then nobody waits. The signal
    /// of a group that was never made stays without a value.
    ///
    /// Errors: `UnknownToken` where no open signal has the number, `Closed` where the signaler was given up without a
    /// value.
    #[tactic(auto, using(crate::proofs::Shutdowns::poll_keeps, crate::proofs::Shutdowns::shows))]
    pub fn poll_signal(&mut self, signal: u64, task: u64) -> Result<Poll<i32>, Error>
        ensures answer { result ≡ signal_answer self.old.told signal }
        ensures shown { (s : StopRecord) → IsShutdown self.old.told s → signal_group self.old.told signal ≡ Some s.group → result ≡ stop_shown s }
        ensures polled { self.new.told ≡ signal_polled self.old.told signal (waker_of task) }
        ensures shutdowns { KeepShutdowns self.old.told self.new.told }
        ensures woken { OnOk result (self.new.woken ≡ []) }
        ensures refused { OnErr result (self.new ≡ self.old) }
    {
        let Some(token) = self.signals.get(signal) else {
            return Err(Error::UnknownToken);
        };
        if let Some(group) = self.groups.get(token.group) {
            if let Some(value) = group.value {
                self.woken.clear();
                return Ok(Poll::Ready(value));
            }
            if !group.alive {
                return Err(Error::Closed);
            }
        }
        self.woken.clear();
        self.signals.wait(signal, waker(task));
        Ok(Poll::Pending)
    }

    /// Returns whether a completion is met, which is so once the value of its group came and each signal of it was
    /// given up, in the name of a task, which waits where that isn't so yet, in the place of who waited before.
    /// `NOBODY` polls in nobody's name, and then nobody waits.
    ///
    /// Error: `UnknownToken` where no live completion has the number.
    #[tactic(auto, using(crate::proofs::Shutdowns::polled_keeps))]
    pub fn poll_completion(&mut self, completion: u64, task: u64) -> Result<Poll<()>, Error>
        ensures answer { result ≡ completion_answer self.old.told completion }
        ensures polled { self.new.told ≡ completion_polled self.old.told completion (waker_of task) }
        ensures shutdowns { KeepShutdowns self.old.told self.new.told }
        ensures woken { OnOk result (self.new.woken ≡ []) }
        ensures refused { OnErr result (self.new ≡ self.old) }
    {
        let Some(token) = self.completions.get(completion) else {
            return Err(Error::UnknownToken);
        };
        self.woken.clear();
        if self.completes(token.group) {
            return Ok(Poll::Ready(()));
        }
        self.completions.wait(completion, waker(task));
        Ok(Poll::Pending)
    }

    /// Returns what a poll of a signal would return: the value of its group once it came. The signal of a group that
    /// was never made stays without one.
    ///
    /// Errors: `UnknownToken` where no open signal has the number, `Closed` where the signaler was given up without a
    /// value.
    pub fn shown(&self, signal: u64) -> Result<Poll<i32>, Error>
        ensures answer { result ≡ signal_answer self.now.told signal }
        ensures causes { IfErr result (λ e. (e ≡ Error.UnknownToken) ⊎ (e ≡ Error.Closed)) }
    {
        let Some(token) = self.signals.get(signal) else {
            return Err(Error::UnknownToken);
        };
        let Some(group) = self.groups.get(token.group) else {
            return Ok(Poll::Pending);
        };
        match group.value {
            Some(value) => Ok(Poll::Ready(value)),
            None if group.alive => Ok(Poll::Pending),
            None => Err(Error::Closed),
        }
    }

    /// Returns whether a completion is met: the value of its group came, and each of its signals was given up.
    ///
    /// Error: `UnknownToken` where no live completion has the number.
    pub fn met(&self, completion: u64) -> Result<Poll<()>, Error>
        ensures answer { result ≡ completion_answer self.now.told completion }
        ensures causes { IfErr result (λ e. e ≡ Error.UnknownToken) }
    {
        let Some(token) = self.completions.get(completion) else {
            return Err(Error::UnknownToken);
        };
        if self.completes(token.group) {
            Ok(Poll::Ready(()))
        } else {
            Ok(Poll::Pending)
        }
    }

    /// Returns whether an open signal has this number.
    pub fn has_signal(&self, signal: u64) -> bool
        ensures { result ≡ is_some (find signal self.now.told.signals) }
    {
        self.signals.get(signal).is_some()
    }

    /// Returns whether a live completion has this number.
    pub fn has_completion(&self, completion: u64) -> bool
        ensures { result ≡ is_some (find completion self.now.told.completions) }
    {
        self.completions.get(completion).is_some()
    }

    /// Returns whether somebody waits by the open signal of this number.
    pub fn is_signal_waited(&self, signal: u64) -> bool
        ensures { result ≡ is_waited signal self.now.told.signals }
    {
        self.signals.is_waited(signal)
    }

    /// Returns whether somebody waits by the live completion of this number.
    pub fn is_completion_waited(&self, completion: u64) -> bool
        ensures { result ≡ is_waited completion self.now.told.completions }
    {
        self.completions.is_waited(completion)
    }

    /// Returns the number that the next signaler, signal or completion gets.
    pub fn count(&self) -> u64
        ensures { result ≡ self.now.told.count }
    {
        self.signals.count()
    }

    /// Gives an open signal up. With the last one of a group whose value came, its completions are met. It does nothing
    /// for any other number.
    #[tactic(auto, using(crate::proofs::Shutdowns::close_keeps))]
    pub fn close_signal(&mut self, signal: u64)
        ensures closed { self.new.told ≡ signal_closed self.old.told signal }
        ensures shutdowns { KeepShutdowns self.old.told self.new.told }
        ensures woken { self.new.woken ≡ woken_by_last self.old.told signal }
    {
        self.woken.clear();
        self.drop_signal(signal);
    }

    /// Gives a signaler up without a value, and the completion of its number with it. Who waits by its signals is
    /// woken. It does nothing where the signaler isn't there.
    pub fn close_signaler(&mut self, signaler: u64)
        ensures closed { self.new.told ≡ signaler_closed self.old.told signaler }
        ensures shutdowns { KeepOthers signaler self.old.told self.new.told }
        ensures woken { self.new.woken ≡ woken_by_closing self.old.told signaler }
    {
        self.woken.clear();
        if !self.is_alive(signaler) {
            return;
        }
        let over = SignalGroup {
            value: None,
            alive: false,
        };
        self.groups.set(signaler, over);
        self.signals.meet(signaler, &mut self.woken);
        self.completions.remove(signaler);
    }

    /// Gives a live completion up. It does nothing for any other number.
    pub fn close_completion(&mut self, completion: u64)
        ensures closed { self.new.told ≡ completion_closed self.old.told completion }
        ensures shutdowns { KeepShutdowns self.old.told self.new.told }
        ensures woken { self.new.woken ≡ [] }
    {
        self.woken.clear();
        self.drop_completion(completion);
    }

    /// States by its clauses that nobody waits for what is there: each signal by which somebody waits is pending, and
    /// so is each such completion. And the next number was never given.
    pub fn facts(&self)
        ensures signals { (signal : ℕ) (t : SignalToken) → find signal self.now.told.signals ≡ Some t → IsSome t.waits → signal_answer self.now.told signal ≡ Ok Poll.Pending }
        ensures completions { (completion : ℕ) (t : SignalToken) → find completion self.now.told.completions ≡ Some t → IsSome t.waits → completion_answer self.now.told completion ≡ Ok Poll.Pending }
        ensures fresh { (number : ℕ) → self.now.told.count ≤ number → AreFresh self.now.told number }
    {
        self.groups.facts();
        self.signals.facts();
        self.completions.facts();
    }

    /// Takes the next task whose wait the last call met that wasn't refused. Of a group the waits by signals come
    /// first, each kind in the order of its numbers.
    pub fn next_woken(&mut self) -> Option<u64>
        ensures first { result ≡ slice_get self.old.woken 0 }
        ensures taken { self.new.woken ≡ drop 1 self.old.woken }
        ensures told { self.new.told ≡ self.old.told }
    {
        self.woken.pop_front()
    }

    /// Adds an open signal of a group.
    pub(crate) fn add_signal(&mut self, group: u64) -> Result<u64, NoMemory>
        ensures number { IfOk result (λ number. number ≡ self.old.told.count) }
        ensures added { OnOk result (self.new.told ≡ with_signal self.old.told group) }
        ensures woken { OnOk result (self.new.woken ≡ []) }
        ensures refused { OnErr result (self.new ≡ self.old) }
    {
        let number = self.signals.count();
        self.groups.reserve(1)?;
        self.completions.reserve()?;
        reserve_woken(&mut self.woken, number)?;
        self.signals.push_to(group)?;
        self.groups.skip();
        self.completions.skip();
        self.woken.clear();
        Ok(number)
    }

    /// Adds a completion of a group.
    pub(crate) fn add_completion(&mut self, group: u64) -> Result<u64, NoMemory>
        ensures number { IfOk result (λ number. number ≡ self.old.told.count) }
        ensures added { OnOk result (self.new.told ≡ with_completion self.old.told group) }
        ensures woken { OnOk result (self.new.woken ≡ []) }
        ensures refused { OnErr result (self.new ≡ self.old) }
    {
        let number = self.signals.count();
        self.groups.reserve(1)?;
        self.signals.reserve()?;
        reserve_woken(&mut self.woken, number)?;
        self.completions.push_to(group)?;
        self.groups.skip();
        self.signals.skip();
        self.woken.clear();
        Ok(number)
    }

    /// Gives a group its value, and notes whom it meets.
    pub(crate) fn give(&mut self, signaler: u64, value: i32)
        requires { self.old.woken ≡ [] }
        ensures given { self.new.told ≡ signaled self.old.told signaler value }
        ensures woken { self.new.woken ≡ woken_by_value self.old.told signaler }
        ensures few { length self.new.woken ≤ self.old.told.count + self.old.told.count }
    {
        if !self.is_alive(signaler) {
            return;
        }
        let over = SignalGroup {
            value: Some(value),
            alive: false,
        };
        self.groups.set(signaler, over);
        let open = self.signals.is_open(signaler);
        self.signals.meet(signaler, &mut self.woken);
        if !open {
            self.completions.meet(signaler, &mut self.woken);
        }
    }

    /// Gives a signal up, and notes whom that meets.
    pub(crate) fn drop_signal(&mut self, signal: u64)
        requires { length self.old.woken ≤ self.old.told.count + self.old.told.count }
        ensures closed { self.new.told ≡ signal_closed self.old.told signal }
        ensures woken { self.new.woken ≡ self.old.woken ++ woken_by_last self.old.told signal }
    {
        let Some(token) = self.signals.get(signal) else {
            return;
        };
        let has_value = self.has_value(token.group);
        self.signals.remove(signal);
        if has_value && !self.signals.is_open(token.group) {
            self.completions.meet(token.group, &mut self.woken);
        }
    }

    /// Gives a completion up.
    pub(crate) fn drop_completion(&mut self, completion: u64)
        ensures closed { self.new.told ≡ completion_closed self.old.told completion }
        ensures woken { self.new.woken ≡ self.old.woken }
    {
        self.completions.remove(completion);
    }

    /// Forgets whom an earlier call met.
    pub(crate) fn wake_nobody(&mut self)
        ensures told { self.new.told ≡ self.old.told }
        ensures woken { self.new.woken ≡ [] }
    {
        self.woken.clear();
    }

    /// Returns whether the signaler of this number is there.
    pub fn is_alive(&self, signaler: u64) -> bool
        ensures { result ≡ is_alive self.now.told signaler }
    {
        match self.groups.get(signaler) {
            Some(group) => group.alive,
            None => false,
        }
    }

    /// Returns whether a group's value came.
    fn has_value(&self, group: u64) -> bool
        ensures { result ≡ has_value self.now.told group }
    {
        match self.groups.get(group) {
            Some(found) => found.value.is_some(),
            None => false,
        }
    }

    /// Returns whether the completions of a group are met.
    fn completes(&self, group: u64) -> bool
        ensures { result ≡ completes self.now.told group }
    {
        self.has_value(group) && !self.signals.is_open(group)
    }
}

// Takes room for whom one call may meet, once this number is given too.
fn reserve_woken(woken: &mut VecDeque<u64>, number: u64) -> Result<(), NoMemory>
    ensures items { woken.new.items ≡ woken.old.items }
    ensures kept { deque_capacity woken.old ≤ deque_capacity woken.new }
    ensures room { OnOk result (3 * (number + 1) ≤ deque_capacity woken.new) }
{
    let Some(before) = number.checked_mul(3) else {
        return Err(NoMemory);
    };
    let Some(places) = before.checked_add(3) else {
        return Err(NoMemory);
    };
    if places > woken.capacity() as u64 {
        // Twice the room, so that growing signals seldom come back for more.
        woken.reserve(places.saturating_mul(2) as usize)?;
    }
    Ok(())
}
