// Bytes of a writer on their way to its tip and its blob.
ghost use Rattle.std.specs.Prelude.{◌≡◌, ◌+◌, ◌*◌, ◌^◌, ◌<◌, ◌≤◌, Ok, Err, IfOk, OnErr, OnOk, length, if◌then◌else◌, true, false};
ghost use Rattle.rt_base.specs.Counted.{Notes};
ghost use Rattle.rt_base.specs.declared.error.Error.{Error};
ghost use Rattle.rt_buffer.specs.Steps.{AreBuffers, Drains, Puts, PutsAgain, PutsAll, Then, WritesChunk, WritesOut, is_started, with_tip, writer};
ghost use Rattle.rt_buffer.specs.Tip.{bytes_to_write, drained, is_within, merged};

use crate::pieces::Pieces;
use crate::sync_state::SyncState;
use crate::write::Write;
use rt_base::{Env, Error, Poll, WriteOptions};
use rt_bufs::{IoBuf, IoBufs};
use rt_store::{Done, Storage};

impl<S: Storage> Write<S> {
    // Writes bytes that needn't be durable yet.
    pub(crate) fn write_out<E: Env>(
        &mut self,
        store: &mut S,
        env: &mut E,
        offset: u64,
        bufs: IoBufs,
    ) -> Result<Poll<()>, Error>
        requires callable { S.callable store.old }
        requires free { is_started self.old.held.state ≡ false }
        ensures lasts { (start : E) → E.lasts start env.old → E.lasts start env.new }
        ensures writes { Notes (E.noted env.old) (λ x. WritesOut ⟦<S as Storage>⟧ self.old.blob offset bufs (writer store.old self.old.held) result (writer store.new self.new.held) x) (E.noted env.new) }
        ensures settled { is_started self.new.held.state ≡ false }
        ensures blob { self.new.blob ≡ self.old.blob }
        ensures spent { E.spare env.old ≤ E.spare env.new + S.most }
        ensures callable { S.callable store.new }
    {
        self.held.set_state(SyncState::Dirty);
        match store.write_at(env, &self.blob, offset, bufs, WriteOptions::default())? {
            Done::Now => Ok(Poll::Ready(())),
            Done::Gated(ticket) => {
                store.give_up_sync(ticket);
                Ok(Poll::Ready(()))
            }
        }
    }

    // The bytes of the tip, as buffers, and their offset.
    pub(crate) fn take_tip(&mut self) -> Result<Option<(IoBufs, u64)>, Error>
        ensures buffers { AreBuffers (bytes_to_write self.old.held.tip) result }
        ensures drained { OnOk result (self.new.held ≡ with_tip self.old.held (drained self.old.held.tip)) }
        ensures state { self.new.held.state ≡ self.old.held.state }
        ensures blob { self.new.blob ≡ self.old.blob }
    {
        match self.held.tip.take()? {
            Some((buf, offset)) => Ok(Some((IoBufs::from_buf(self.alloc, buf)?, offset))),
            None => Ok(None),
        }
    }

    // Writes the bytes of the tip out, where there are any.
    pub(crate) fn drain<E: Env>(&mut self, store: &mut S, env: &mut E) -> Result<Poll<()>, Error>
        requires callable { S.callable store.old }
        requires free { is_started self.old.held.state ≡ false }
        ensures lasts { (start : E) → E.lasts start env.old → E.lasts start env.new }
        ensures drains { Notes (E.noted env.old) (λ x. Drains ⟦<S as Storage>⟧ self.old.blob (writer store.old self.old.held) result (writer store.new self.new.held) x) (E.noted env.new) }
        ensures settled { is_started self.new.held.state ≡ false }
        ensures blob { self.new.blob ≡ self.old.blob }
        ensures spent { E.spare env.old ≤ E.spare env.new + S.most }
        ensures callable { S.callable store.new }
    {
        match self.take_tip() {
            Err(error) => Err(error),
            Ok(Some((bufs, offset))) => self.write_out(store, env, offset, bufs),
            Ok(None) => Ok(Poll::Ready(())),
        }
    }

    // Puts a chunk into the tip, and returns whether it lies within its reach.
    fn merge(&mut self, at: u64, chunk: &IoBuf) -> Result<bool, Error>
        ensures within { IfOk result (λ yes. yes ≡ is_within self.old.held.tip at (length chunk.now)) }
        ensures merged { OnOk result (self.new.held ≡ (if is_within self.old.held.tip at (length chunk.now) then with_tip self.old.held (merged self.old.held.tip chunk.now at) else self.old.held)) }
        ensures beyond { result ≡ Ok false → self.new.held ≡ self.old.held }
        ensures refused { OnErr result ((result ≡ Err Error.NoMemory) × (self.new.held ≡ self.old.held) × (is_within self.old.held.tip at (length chunk.now) ≡ true)) }
        ensures blob { self.new.blob ≡ self.old.blob }
    {
        Ok(self.held.tip.merge(chunk.as_slice(), at)?)
    }

    // Writes a chunk to the blob. The tip follows it.
    fn write_chunk<E: Env>(
        &mut self,
        store: &mut S,
        env: &mut E,
        at: u64,
        chunk: IoBuf,
    ) -> Result<Poll<()>, Error>
        requires callable { S.callable store.old }
        requires free { is_started self.old.held.state ≡ false }
        requires fits { at + length chunk < 2 ^ 64 }
        ensures lasts { (start : E) → E.lasts start env.old → E.lasts start env.new }
        ensures writes { Notes (E.noted env.old) (λ x. WritesChunk ⟦<S as Storage>⟧ self.old.blob at chunk (writer store.old self.old.held) result (writer store.new self.new.held) x) (E.noted env.new) }
        ensures settled { is_started self.new.held.state ≡ false }
        ensures blob { self.new.blob ≡ self.old.blob }
        ensures spent { E.spare env.old ≤ E.spare env.new + S.most }
        ensures callable { S.callable store.new }
    {
        let end = at + chunk.len() as u64;
        let bufs = IoBufs::from_buf(self.alloc, chunk)?;
        match self.write_out(store, env, at, bufs) {
            Err(error) => Err(error),
            Ok(Poll::Pending) => Ok(Poll::Pending),
            Ok(Poll::Ready(())) => {
                self.held.tip.raise(end);
                Ok(Poll::Ready(()))
            }
        }
    }

    // Puts a chunk into the tip where it can, and writes it to the blob else.
    fn put_again<E: Env>(
        &mut self,
        store: &mut S,
        env: &mut E,
        at: u64,
        chunk: IoBuf,
    ) -> Result<Poll<()>, Error>
        requires callable { S.callable store.old }
        requires free { is_started self.old.held.state ≡ false }
        requires fits { at + length chunk < 2 ^ 64 }
        ensures lasts { (start : E) → E.lasts start env.old → E.lasts start env.new }
        ensures puts { Notes (E.noted env.old) (λ x. PutsAgain ⟦<S as Storage>⟧ self.old.blob at chunk (writer store.old self.old.held) result (writer store.new self.new.held) x) (E.noted env.new) }
        ensures settled { is_started self.new.held.state ≡ false }
        ensures blob { self.new.blob ≡ self.old.blob }
        ensures spent { E.spare env.old ≤ E.spare env.new + S.most }
        ensures callable { S.callable store.new }
    {
        match self.merge(at, &chunk) {
            Err(error) => Err(error),
            Ok(true) => Ok(Poll::Ready(())),
            Ok(false) => self.write_chunk(store, env, at, chunk),
        }
    }

    // Writes the tip out, and then puts a chunk.
    #[tactic(auto, using(crate::proofs::Steps::then_done, crate::proofs::Steps::then_waits, crate::proofs::Steps::then_refused))]
    fn drain_and_put<E: Env>(
        &mut self,
        store: &mut S,
        env: &mut E,
        at: u64,
        chunk: IoBuf,
    ) -> Result<Poll<()>, Error>
        requires callable { S.callable store.old }
        requires free { is_started self.old.held.state ≡ false }
        requires fits { at + length chunk < 2 ^ 64 }
        ensures lasts { (start : E) → E.lasts start env.old → E.lasts start env.new }
        ensures puts { Notes (E.noted env.old) (λ x. Then (Drains ⟦<S as Storage>⟧ self.old.blob) (PutsAgain ⟦<S as Storage>⟧ self.old.blob at chunk) (writer store.old self.old.held) result (writer store.new self.new.held) x) (E.noted env.new) }
        ensures settled { is_started self.new.held.state ≡ false }
        ensures blob { self.new.blob ≡ self.old.blob }
        ensures spent { E.spare env.old ≤ E.spare env.new + 2 * S.most }
        ensures callable { S.callable store.new }
    {
        match self.drain(store, env) {
            Err(error) => Err(error),
            Ok(Poll::Pending) => Ok(Poll::Pending),
            Ok(Poll::Ready(())) => self.put_again(store, env, at, chunk),
        }
    }

    // Puts a chunk: the bytes of a tip that begins before its end are written out first.
    fn put<E: Env>(
        &mut self,
        store: &mut S,
        env: &mut E,
        at: u64,
        chunk: IoBuf,
    ) -> Result<Poll<()>, Error>
        requires callable { S.callable store.old }
        requires free { is_started self.old.held.state ≡ false }
        requires fits { at + length chunk < 2 ^ 64 }
        ensures lasts { (start : E) → E.lasts start env.old → E.lasts start env.new }
        ensures puts { Notes (E.noted env.old) (λ x. Puts ⟦<S as Storage>⟧ self.old.blob at chunk (writer store.old self.old.held) result (writer store.new self.new.held) x) (E.noted env.new) }
        ensures settled { is_started self.new.held.state ≡ false }
        ensures blob { self.new.blob ≡ self.old.blob }
        ensures spent { E.spare env.old ≤ E.spare env.new + 2 * S.most }
        ensures callable { S.callable store.new }
    {
        let is_in_the_way = self.held.tip.is_in_the_way(at + chunk.len() as u64);
        match self.merge(at, &chunk) {
            Err(error) => Err(error),
            Ok(true) => Ok(Poll::Ready(())),
            Ok(false) if is_in_the_way => self.drain_and_put(store, env, at, chunk),
            Ok(false) => self.write_chunk(store, env, at, chunk),
        }
    }

    // Puts one chunk after the other.
    pub(crate) fn put_all<E: Env>(
        &mut self,
        store: &mut S,
        env: &mut E,
        left: Pieces,
    ) -> Result<Poll<()>, Error>
        requires callable { S.callable store.old }
        requires free { is_started self.old.held.state ≡ false }
        ensures lasts { (start : E) → E.lasts start env.old → E.lasts start env.new }
        ensures puts { Notes (E.noted env.old) (λ x. PutsAll ⟦<S as Storage>⟧ self.old.blob left (writer store.old self.old.held) result (writer store.new self.new.held) x) (E.noted env.new) }
        ensures blob { self.new.blob ≡ self.old.blob }
        ensures spent { E.spare env.old ≤ E.spare env.new + length left.chunks * (2 * S.most) }
        ensures callable { S.callable store.new }
    {
        let mut left = left;
        let mut at = left.at();
        while let Some(chunk) = left.next() {
            match self.put(store, env, at, chunk)? {
                Poll::Ready(()) => at = left.at(),
                Poll::Pending => return Ok(Poll::Pending),
            }
        }
        Ok(Poll::Ready(()))
    }
}
