// Waits and syncs of a writer. Each returns whether it is done, and waits for a ticket else.
ghost use Rattle.std.specs.Prelude.{◌≡◌, ◌+◌, ◌*◌, ◌≤◌, Ok, false};
ghost use Rattle.rt_base.specs.Counted.{Notes};
ghost use Rattle.rt_buffer.specs.declared.sync_state.SyncState.{SyncState};
ghost use Rattle.rt_buffer.specs.Steps.{Begins, Drains, IfStarted, Saves, Settles, SyncsBlob, Then, Waits, WritesDurably, WritesOut, is_started, with_state, writer};
ghost use Rattle.rt_store.specs.Answered.{is_numbered};

use crate::sync_state::SyncState;
use crate::write::Write;
use rt_base::{Env, Error, Poll, WriteOptions};
use rt_bufs::IoBufs;
use rt_store::{Done, Storage};
use std::mem;

impl<S: Storage> Write<S> {
    // Gives a started sync up that is done: its ticket is ready, and the store stays as it was.
    fn settle(&mut self, store: &mut S)
        requires callable { S.callable store.old }
        requires free { IfStarted self.old.held.state (λ t. is_numbered t ≡ false) }
        ensures store { store.new ≡ store.old }
        ensures held { self.new.held ≡ with_state self.old.held SyncState.Clean }
        ensures blob { self.new.blob ≡ self.old.blob }
        ensures callable { S.callable store.new }
    {
        match mem::replace(&mut self.held.state, SyncState::Clean) {
            SyncState::Clean | SyncState::Dirty => unreachable!(),
            SyncState::Started(ticket) => store.give_up_sync(ticket),
        }
    }

    // Polls a started sync.
    #[tactic(auto, using(crate::proofs::Steps::polled_ready))]
    pub(crate) fn wait<E: Env>(
        &mut self,
        store: &mut S,
        env: &mut E,
        task: u64,
    ) -> Result<Poll<()>, Error>
        requires callable { S.callable store.old }
        ensures lasts { (start : E) → E.lasts start env.old → E.lasts start env.new }
        ensures waits { Notes (E.noted env.old) (λ x. Waits ⟦<S as Storage>⟧ task (writer store.old self.old.held) result (writer store.new self.new.held) x) (E.noted env.new) }
        ensures settled { result ≡ Ok (Poll.Ready tt) → is_started self.new.held.state ≡ false }
        ensures blob { self.new.blob ≡ self.old.blob }
        ensures spent { E.spare env.old ≤ E.spare env.new + S.most }
        ensures callable { S.callable store.new }
    {
        let SyncState::Started(ticket) = &mut self.held.state else {
            return Ok(Poll::Ready(()));
        };
        match store.poll_sync(env, ticket, task) {
            Poll::Pending => Ok(Poll::Pending),
            Poll::Ready(Err(error)) => Err(error),
            Poll::Ready(Ok(())) => {
                self.settle(store);
                Ok(Poll::Ready(()))
            }
        }
    }

    // A change is durable, or its ticket is held and polled.
    fn keep<E: Env>(
        &mut self,
        store: &mut S,
        env: &mut E,
        done: Done,
        task: u64,
    ) -> Result<Poll<()>, Error>
        requires callable { S.callable store.old }
        requires free { is_started self.old.held.state ≡ false }
        ensures lasts { (start : E) → E.lasts start env.old → E.lasts start env.new }
        ensures settles { Notes (E.noted env.old) (λ x. Settles ⟦<S as Storage>⟧ task done (writer store.old self.old.held) result (writer store.new self.new.held) x) (E.noted env.new) }
        ensures blob { self.new.blob ≡ self.old.blob }
        ensures spent { E.spare env.old ≤ E.spare env.new + S.most }
        ensures callable { S.callable store.new }
    {
        match done {
            Done::Now => {
                self.held.set_state(SyncState::Clean);
                Ok(Poll::Ready(()))
            }
            Done::Gated(ticket) => {
                self.held.set_state(SyncState::Started(ticket));
                self.wait(store, env, task)
            }
        }
    }

    fn sync_blob<E: Env>(
        &mut self,
        store: &mut S,
        env: &mut E,
        task: u64,
    ) -> Result<Poll<()>, Error>
        requires callable { S.callable store.old }
        requires free { is_started self.old.held.state ≡ false }
        ensures lasts { (start : E) → E.lasts start env.old → E.lasts start env.new }
        ensures syncs { Notes (E.noted env.old) (λ x. SyncsBlob ⟦<S as Storage>⟧ self.old.blob task (writer store.old self.old.held) result (writer store.new self.new.held) x) (E.noted env.new) }
        ensures blob { self.new.blob ≡ self.old.blob }
        ensures spent { E.spare env.old ≤ E.spare env.new + 2 * S.most }
        ensures callable { S.callable store.new }
    {
        let done = store.sync(env, &self.blob)?;
        self.keep(store, env, done, task)
    }

    fn write_durably<E: Env>(
        &mut self,
        store: &mut S,
        env: &mut E,
        offset: u64,
        bufs: IoBufs,
        task: u64,
    ) -> Result<Poll<()>, Error>
        requires callable { S.callable store.old }
        requires free { is_started self.old.held.state ≡ false }
        ensures lasts { (start : E) → E.lasts start env.old → E.lasts start env.new }
        ensures writes { Notes (E.noted env.old) (λ x. WritesDurably ⟦<S as Storage>⟧ self.old.blob task offset bufs (writer store.old self.old.held) result (writer store.new self.new.held) x) (E.noted env.new) }
        ensures blob { self.new.blob ≡ self.old.blob }
        ensures spent { E.spare env.old ≤ E.spare env.new + 2 * S.most }
        ensures callable { S.callable store.new }
    {
        let done = store.write_at(env, &self.blob, offset, bufs, WriteOptions::SYNC)?;
        self.keep(store, env, done, task)
    }

    // Writes bytes, and then makes all changes durable.
    #[tactic(auto, using(crate::proofs::Steps::then_done, crate::proofs::Steps::then_waits, crate::proofs::Steps::then_refused))]
    fn write_and_sync<E: Env>(
        &mut self,
        store: &mut S,
        env: &mut E,
        offset: u64,
        bufs: IoBufs,
        task: u64,
    ) -> Result<Poll<()>, Error>
        requires callable { S.callable store.old }
        requires free { is_started self.old.held.state ≡ false }
        ensures lasts { (start : E) → E.lasts start env.old → E.lasts start env.new }
        ensures writes { Notes (E.noted env.old) (λ x. Then (WritesOut ⟦<S as Storage>⟧ self.old.blob offset bufs) (SyncsBlob ⟦<S as Storage>⟧ self.old.blob task) (writer store.old self.old.held) result (writer store.new self.new.held) x) (E.noted env.new) }
        ensures blob { self.new.blob ≡ self.old.blob }
        ensures spent { E.spare env.old ≤ E.spare env.new + 3 * S.most }
        ensures callable { S.callable store.new }
    {
        match self.write_out(store, env, offset, bufs) {
            Err(error) => Err(error),
            Ok(Poll::Pending) => Ok(Poll::Pending),
            Ok(Poll::Ready(())) => self.sync_blob(store, env, task),
        }
    }

    // Makes the tip and all changes durable, where no ticket is held.
    pub(crate) fn save<E: Env>(
        &mut self,
        store: &mut S,
        env: &mut E,
        task: u64,
    ) -> Result<Poll<()>, Error>
        requires callable { S.callable store.old }
        requires free { is_started self.old.held.state ≡ false }
        ensures lasts { (start : E) → E.lasts start env.old → E.lasts start env.new }
        ensures saves { Notes (E.noted env.old) (λ x. Saves ⟦<S as Storage>⟧ self.old.blob task (writer store.old self.old.held) result (writer store.new self.new.held) x) (E.noted env.new) }
        ensures blob { self.new.blob ≡ self.old.blob }
        ensures spent { E.spare env.old ≤ E.spare env.new + 3 * S.most }
        ensures callable { S.callable store.new }
    {
        let taken = self.take_tip();
        let is_clean = self.held.is_clean();
        match taken {
            Err(error) => Err(error),
            Ok(Some((bufs, offset))) if is_clean => self.write_durably(
                store, env, offset, bufs, task,
            ),
            Ok(Some((bufs, offset))) => self.write_and_sync(store, env, offset, bufs, task),
            Ok(None) if is_clean => Ok(Poll::Ready(())),
            Ok(None) => self.sync_blob(store, env, task),
        }
    }

    // Starts a sync where a change is open.
    pub(crate) fn begin<E: Env>(&mut self, store: &mut S, env: &mut E) -> Result<Poll<()>, Error>
        requires callable { S.callable store.old }
        ensures lasts { (start : E) → E.lasts start env.old → E.lasts start env.new }
        ensures begins { Notes (E.noted env.old) (λ x. Begins ⟦<S as Storage>⟧ self.old.blob (writer store.old self.old.held) result (writer store.new self.new.held) x) (E.noted env.new) }
        ensures blob { self.new.blob ≡ self.old.blob }
        ensures spent { E.spare env.old ≤ E.spare env.new + S.most }
        ensures callable { S.callable store.new }
    {
        match self.held.state {
            SyncState::Clean | SyncState::Started(_) => Ok(Poll::Ready(())),
            SyncState::Dirty => {
                let ticket = store.start_sync(env, &self.blob)?;
                self.held.set_state(SyncState::Started(ticket));
                self.held.syncs = self.held.syncs.saturating_add(1);
                Ok(Poll::Ready(()))
            }
        }
    }

    // Writes the tip out, and starts a sync.
    #[tactic(auto, using(crate::proofs::Steps::then_done, crate::proofs::Steps::then_waits, crate::proofs::Steps::then_refused))]
    pub(crate) fn drain_and_begin<E: Env>(
        &mut self,
        store: &mut S,
        env: &mut E,
    ) -> Result<Poll<()>, Error>
        requires callable { S.callable store.old }
        requires free { is_started self.old.held.state ≡ false }
        ensures lasts { (start : E) → E.lasts start env.old → E.lasts start env.new }
        ensures begins { Notes (E.noted env.old) (λ x. Then (Drains ⟦<S as Storage>⟧ self.old.blob) (Begins ⟦<S as Storage>⟧ self.old.blob) (writer store.old self.old.held) result (writer store.new self.new.held) x) (E.noted env.new) }
        ensures blob { self.new.blob ≡ self.old.blob }
        ensures spent { E.spare env.old ≤ E.spare env.new + 2 * S.most }
        ensures callable { S.callable store.new }
    {
        match self.drain(store, env) {
            Err(error) => Err(error),
            Ok(Poll::Pending) => Ok(Poll::Pending),
            Ok(Poll::Ready(())) => self.begin(store, env),
        }
    }
}
