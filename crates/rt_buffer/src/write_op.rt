// A writer's call that waits for a started sync.
ghost use Rattle.std.specs.Prelude.{◌≡◌, ◌+◌, ◌≤◌, ℕ, ⊤, List};
ghost use Rattle.rt_base.specs.Counted.{Notes};
ghost use Rattle.rt_buffer.specs.Durable.{IfStepped, Keeping, Keeps, OnOthers};
ghost use Rattle.rt_buffer.specs.Steps.{Runs, room_for, seen_step, writer};
ghost use Rattle.rt_buffer.specs.Writing.{ClosesWriter};

use crate::pieces::Pieces;
use crate::write::Write;
use rt_base::{Env, Error};
use rt_store::Storage;

/// What a call came to: it is done, waits for a started sync, or failed. A failure closes the blob.
pub enum Stepped<W, P> {
    Done(W),
    Waiting(P),
    Failed(Error),
}

/// What a call of a writer came to, over its store.
pub type Step<S> = Stepped<Write<S>, WriteOp<S>>;

/// What is left to do once a started sync is done: nothing, a sync, a change of the length, a write of bytes that don't lie
/// within the tip's reach, or the start of a sync.
#[derive(Drop)]
pub enum Rest {
    Nothing,
    Sync,
    Resize(u64),
    Write(Pieces),
    Start,
}

/// A call of a writer that waits for a started sync. It must be spent by [`poll`](Self::poll) or
/// [`give_up`](Self::give_up).
pub struct WriteOp<S: Storage> {
    pub(crate) write: Write<S>,
    pub(crate) rest: Rest,
}

impl<S: Storage> WriteOp<S> {
    /// Goes on with the call where the started sync is done: it is the same call once more, and what was done before
    /// the wait isn't done again.
    ///
    /// Errors: that of the started sync, the store's refusal, `NoMemory`. After one the blob is closed.
    pub fn poll<E: Env>(self, store: &mut S, env: &mut E, task: u64) -> Step<S>
        requires callable { S.callable store.old }
        ensures lasts { (start : E) → E.lasts start env.old → E.lasts start env.new }
        ensures runs { Notes (E.noted env.old) (λ x. Runs ⟦<S as Storage>⟧ self.write.blob self.rest task (writer store.old self.write.held) store.new (seen_step (λ w. (w.blob, w.held)) (λ p. ((p.write.blob, p.write.held), p.rest)) result) x) (E.noted env.new) }
        ensures durable { (content : List ℕ) → Keeping S.bytes S.left S.promised content self.rest self.write.held store.old self.write.blob →
            IfStepped result (λ w. Keeps S.bytes S.left S.promised content self.rest w.held store.new self.write.blob) (λ p. Keeping S.bytes S.left S.promised content p.rest p.write.held store.new self.write.blob) }
        ensures others { OnOthers ⟦<S as Storage>⟧ self.write.held.state self.write.blob store.old store.new (λ know. IfStepped result (λ w. know w.held.state) (λ p. know p.write.held.state)) }
        ensures spent { E.spare env.old ≤ E.spare env.new + (S.most + room_for S.most self.rest) }
        ensures callable { S.callable store.new }
    {
        let WriteOp { write, rest } = self;
        write.run(store, env, rest, task)
    }

    /// Gives up the call, and closes the blob. The bytes that are held back are lost. It takes no memory.
    pub fn give_up(self, store: &mut S)
        requires callable { S.callable store.old }
        ensures closed { ClosesWriter ⟦<S as Storage>⟧ self.write.held.state self.write.blob store.old store.new }
        ensures others { OnOthers ⟦<S as Storage>⟧ self.write.held.state self.write.blob store.old store.new (λ know. ⊤) }
        ensures callable { S.callable store.new }
    {
        let WriteOp { write, rest: _ } = self;
        write.close(store);
    }
}
