// A started sync of a writer, to be asked for its answer.
ghost use Rattle.std.specs.Prelude.{◌≡◌, ◌+◌, ◌≤◌};
ghost use Rattle.rt_base.specs.Counted.{Notes};
ghost use Rattle.rt_buffer.specs.Durable.{Asked, HoldsSync, OnOthers};
ghost use Rattle.rt_buffer.specs.Steps.{PollsHandle, answer_of, with_handle, seen_start, seen_step, writer};

use crate::write::Write;
use crate::write_op::{Step, Stepped, WriteOp};
use rt_base::{Env, Error, Poll};
use rt_store::Storage;

/// What the start of a sync came to: there is a handle of it, it waits for a sync that was started before, or it failed. A
/// failure closes the blob.
pub enum Begun<W, P> {
    Done(W, SyncHandle),
    Waiting(P),
    Failed(Error),
}

/// What a writer's start of a sync came to. Where it waited, a further start gives the handle.
pub type Started<S> = Begun<Write<S>, WriteOp<S>>;

/// A handle of one sync of a writer, by its number. The numbers count up to the type's end, and the last one is then
/// shared.
#[derive(Clone, Copy, Debug, PartialEq, Eq)]
pub struct SyncHandle {
    number: u64,
}

impl SyncHandle {
    /// Polls the sync where the writer still holds it. A sync that it holds no longer is done. So once the poll returns Ok, and
    /// nothing was changed since its start, each crash leaves the bytes that the writer had then. A writer knows its syncs by their
    /// numbers: a handle of another writer is taken for its own sync of that number.
    ///
    /// Errors: that of the sync. The writer keeps it, so that a later call meets it too.
    pub fn poll<S: Storage, E: Env>(
        &mut self,
        write: &mut Write<S>,
        store: &mut S,
        env: &mut E,
        task: u64,
    ) -> Poll<Result<(), Error>>
        requires callable { S.callable store.old }
        ensures lasts { (start : E) → E.lasts start env.old → E.lasts start env.new }
        ensures polls { Notes (E.noted env.old) (λ x. PollsHandle ⟦<S as Storage>⟧ self.old.number task (writer store.old write.old.held) (answer_of result) (writer store.new write.new.held) x) (E.noted env.new) }
        ensures durable { write.old.held.syncs ≡ self.old.number → HoldsSync S.bytes S.left S.promised write.old.held store.old write.old.blob →
            (S.bytes store.new write.old.blob ≡ S.bytes store.old write.old.blob) × Asked S.bytes S.left S.promised (answer_of result) write.new.held store.new write.old.blob }
        ensures blob { write.new.blob ≡ write.old.blob }
        ensures same { self.new ≡ self.old }
        ensures others { OnOthers ⟦<S as Storage>⟧ write.old.held.state write.old.blob store.old store.new (λ know. know write.new.held.state) }
        ensures spent { E.spare env.old ≤ E.spare env.new + S.most }
        ensures callable { S.callable store.new }
    {
        if write.held.syncs != self.number {
            return Poll::Ready(Ok(()));
        }
        match write.wait(store, env, task) {
            Ok(Poll::Ready(())) => Poll::Ready(Ok(())),
            Ok(Poll::Pending) => Poll::Pending,
            Err(error) => Poll::Ready(Err(error)),
        }
    }
}

/// Returns what a call came to as a start of a sync, with a handle of the sync that the writer holds.
pub fn handed<S: Storage>(step: Step<S>) -> Started<S>
    ensures { seen_start (λ w. (w.blob, w.held)) (λ p. ((p.write.blob, p.write.held), p.rest)) result ≡ with_handle (seen_step (λ w. (w.blob, w.held)) (λ p. ((p.write.blob, p.write.held), p.rest)) step) }
{
    match step {
        Stepped::Done(write) => {
            let number = write.held.syncs;
            Begun::Done(write, SyncHandle { number })
        }
        Stepped::Waiting(op) => Begun::Waiting(op),
        Stepped::Failed(error) => Begun::Failed(error),
    }
}
