// A sync that was taken out of the queue, and how a test releases what it holds back.
ghost use Rattle.std.specs.Prelude.{◌≡◌, ◌<◌, ◌≤◌, ◌∷◌, true, false, Ok, IfOk, OnOk, OnErr, length, take, drop, slice_get};
ghost use Rattle.rt_buffer.specs.Pending.{changed, driven, first_released, is_blocked_of, outcome, released, task_at, tasks_of};

use crate::pending_syncs::PendingSyncs;
use rt_base::{Error, NoMemory, Poll};

/// A sync or a gate that was taken out of the queue. It must be spent by [`release`](Self::release).
#[derive(Debug)]
pub struct DeferredSync {
    number: u64,
}

impl DeferredSync {
    /// Lets the sync go on, or end with this error, and returns the number of the task that polled it last, which is
    /// to be woken. It takes no memory.
    pub fn release(self, pending: &mut PendingSyncs, answer: Result<(), Error>) -> Option<u64>
        ensures task { result ≡ task_at pending.old.parked self.number }
        ensures released { pending.new ≡ record pending.old { parked = changed pending.old.parked self.number (released answer) } }
    {
        let DeferredSync { number } = self;
        pending.release(number, answer)
    }

    /// Returns whether a started sync was polled, or the call that the gate holds was made.
    pub fn is_blocked(&self, pending: &PendingSyncs) -> bool
        ensures { result ≡ is_blocked_of (slice_get pending.now.parked self.now.number) }
    {
        pending.is_blocked(self.number)
    }
}

/// Takes the first sync or gate out of the queue.
pub fn next_pending_sync(pending: &mut PendingSyncs) -> DeferredSync
    requires { 0 < length pending.old.queue }
    ensures first { pending.old.queue ≡ result.number ∷ pending.new.queue }
    ensures others { pending.new ≡ record pending.old { queue = drop 1 pending.old.queue } }
{
    DeferredSync {
        number: pending.take_first(),
    }
}

/// Releases the first so many of the queue with success, in the order of their starts, and returns the numbers of the
/// tasks to wake. After `NoMemory` nothing has changed.
pub fn release_next_pending_syncs(
    pending: &mut PendingSyncs,
    count: usize,
) -> Result<Vec<u64>, NoMemory>
    requires { count ≤ length pending.old.queue }
    ensures tasks { IfOk result (λ tasks. tasks.items ≡ tasks_of pending.old.parked (take count pending.old.queue)) }
    ensures released { OnOk result (pending.new ≡ first_released (outcome false) count pending.old) }
    ensures refused { OnErr result (pending.new ≡ pending.old) }
{
    pending.release_first(count, false)
}

/// Releases all with success, in the order of their starts, and returns the numbers of the tasks to wake. After
/// `NoMemory` nothing has changed.
pub fn release_pending_syncs(pending: &mut PendingSyncs) -> Result<Vec<u64>, NoMemory>
    ensures tasks { IfOk result (λ tasks. tasks.items ≡ tasks_of pending.old.parked pending.old.queue) }
    ensures released { OnOk result (pending.new ≡ first_released (outcome false) (length pending.old.queue) pending.old) }
    ensures refused { OnErr result (pending.new ≡ pending.old) }
{
    let count = pending.len();
    pending.release_first(count, false)
}

/// Releases all with an injected failure, in the order of their starts, and returns the numbers of the tasks to wake.
/// After `NoMemory` nothing has changed.
pub fn fail_pending_syncs(pending: &mut PendingSyncs) -> Result<Vec<u64>, NoMemory>
    ensures tasks { IfOk result (λ tasks. tasks.items ≡ tasks_of pending.old.parked pending.old.queue) }
    ensures released { OnOk result (pending.new ≡ first_released (outcome true) (length pending.old.queue) pending.old) }
    ensures refused { OnErr result (pending.new ≡ pending.old) }
{
    let count = pending.len();
    pending.release_first(count, true)
}

/// Passes on the answer of a poll, and where it is pending, releases all with success. The caller then queues itself
/// to poll again.
pub fn drive_pending_syncs<V>(
    pending: &mut PendingSyncs,
    polled: Poll<V>,
) -> Result<Poll<V>, NoMemory>
    ensures answer { result ≡ Ok polled }
    ensures released { pending.new ≡ driven polled pending.old }
{
    match polled {
        Poll::Ready(value) => Ok(Poll::Ready(value)),
        Poll::Pending => {
            pending.release_all();
            Ok(Poll::Pending)
        }
    }
}
