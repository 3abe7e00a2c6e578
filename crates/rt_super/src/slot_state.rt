// What became of one slot.
ghost use Rattle.std.specs.Prelude.{◌≡◌, Option, Some, None, IsTrue};
ghost use Rattle.rt_super.specs.Slots.{waiting_of, is_held, with_value, without_value, with_abort, poll_answer, after_poll, value_in};

use rt_base::Poll;
use std::mem;

/// What became of a result that comes once.
#[derive(Drop)]
pub enum SlotState<V> {
    /// Neither a value nor the closing came; the task that waits for it, if one does.
    Open(Option<u64>),
    /// A value that nobody took yet.
    Full(V),
    /// No value comes any more, or it was taken.
    Closed,
    /// An abort was asked for, and no value is given, even if one had come.
    Aborted,
    /// Nobody takes a value any more.
    GivenUp,
}

impl<V> SlotState<V> {
    /// Takes a value out and leaves the slot closed.
    fn take(&mut self) -> Option<V>
        ensures value { result ≡ value_in self.old }
        ensures closed { self.new ≡ SlotState.Closed }
    {
        match mem::replace(self, SlotState::Closed) {
            SlotState::Full(value) => Some(value),
            SlotState::Open(_) => None,
            SlotState::Closed => None,
            SlotState::Aborted => None,
            SlotState::GivenUp => None,
        }
    }

    /// Closes an open slot and returns the task that waits.
    pub fn close(&mut self) -> Option<u64>
        ensures waiting { result ≡ waiting_of (Some self.old) }
        ensures closed { self.new ≡ without_value self.old }
    {
        let waiting = match self {
            SlotState::Open(waiting) => *waiting,
            _ => return None,
        };
        match mem::replace(self, SlotState::Closed) {
            SlotState::Open(_) => waiting,
            SlotState::Full(_value) => unreachable!(),
            SlotState::Closed => unreachable!(),
            SlotState::Aborted => unreachable!(),
            SlotState::GivenUp => unreachable!(),
        }
    }

    /// Returns the value, or notes that a task or nobody waits.
    pub fn poll(&mut self, waker: Option<u64>) -> Poll<Option<V>>
        requires held { IsTrue (is_held (Some self.old)) }
        ensures answer { result ≡ poll_answer (Some self.old) }
        ensures after { self.new ≡ after_poll waker self.old }
    {
        match self {
            SlotState::Open(waiting) => {
                *waiting = waker;
                Poll::Pending
            }
            SlotState::Full(_) => Poll::Ready(self.take()),
            _ => Poll::Ready(None),
        }
    }
}

impl<V: Drop> SlotState<V> {
    /// Gives an open slot its value and returns the task that waits.
    pub fn put(&mut self, value: V) -> Option<u64>
        ensures waiting { result ≡ waiting_of (Some self.old) }
        ensures given { self.new ≡ with_value value self.old }
    {
        let waiting = match self {
            SlotState::Open(waiting) => *waiting,
            _ => return None,
        };
        *self = SlotState::Full(value);
        waiting
    }

    /// Aborts a slot that wasn't given up, and returns the task that waits.
    pub fn abort(&mut self) -> Option<u64>
        ensures waiting { result ≡ waiting_of (Some self.old) }
        ensures aborted { self.new ≡ with_abort self.old }
    {
        let waiting = match self {
            SlotState::Open(waiting) => *waiting,
            SlotState::GivenUp => return None,
            _ => None,
        };
        *self = SlotState::Aborted;
        waiting
    }
}
