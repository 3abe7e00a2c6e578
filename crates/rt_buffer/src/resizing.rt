// A new length of a writer's blob and its tip.
ghost use Rattle.std.specs.Prelude.{◌≡◌, ◌+◌, ◌*◌, ◌≤◌, OnOk, false};
ghost use Rattle.rt_base.specs.Counted.{Notes};
ghost use Rattle.rt_buffer.specs.Steps.{AreBuffers, ResizesBlob, ResizesTip, Then, WritesOut, is_started, with_tip, writer};
ghost use Rattle.rt_buffer.specs.Tip.{bytes_before, resized_tip};

use crate::sync_state::SyncState;
use crate::write::Write;
use rt_base::{Env, Error, Poll};
use rt_bufs::IoBufs;
use rt_store::Storage;

impl<S: Storage> Write<S> {
    fn resize_blob<E: Env>(
        &mut self,
        store: &mut S,
        env: &mut E,
        len: u64,
    ) -> Result<Poll<()>, Error>
        requires callable { S.callable store.old }
        requires free { is_started self.old.held.state ≡ false }
        ensures lasts { (start : E) → E.lasts start env.old → E.lasts start env.new }
        ensures resizes { Notes (E.noted env.old) (λ x. ResizesBlob ⟦<S as Storage>⟧ self.old.blob len (writer store.old self.old.held) result (writer store.new self.new.held) x) (E.noted env.new) }
        ensures blob { self.new.blob ≡ self.old.blob }
        ensures spent { E.spare env.old ≤ E.spare env.new + S.most }
        ensures callable { S.callable store.new }
    {
        self.held.set_state(SyncState::Dirty);
        match store.resize(env, &self.blob, len) {
            Ok(()) => Ok(Poll::Ready(())),
            Err(error) => Err(error),
        }
    }

    // Follows a new length with the tip: the bytes that have to be written before it, as buffers, and their offset.
    fn cut_tip(&mut self, len: u64) -> Result<Option<(IoBufs, u64)>, Error>
        ensures buffers { AreBuffers (bytes_before self.old.held.tip len) result }
        ensures resized { OnOk result (self.new.held ≡ with_tip self.old.held (resized_tip self.old.held.tip len)) }
        ensures state { self.new.held.state ≡ self.old.held.state }
        ensures blob { self.new.blob ≡ self.old.blob }
    {
        match self.held.tip.resize(len)? {
            Some((buf, offset)) => Ok(Some((IoBufs::from_buf(self.alloc, buf)?, offset))),
            None => Ok(None),
        }
    }

    // Writes bytes, and then gives the blob another length.
    #[tactic(auto, using(crate::proofs::Steps::then_done, crate::proofs::Steps::then_waits, crate::proofs::Steps::then_refused))]
    fn write_and_resize<E: Env>(
        &mut self,
        store: &mut S,
        env: &mut E,
        offset: u64,
        bufs: IoBufs,
        len: u64,
    ) -> Result<Poll<()>, Error>
        requires callable { S.callable store.old }
        requires free { is_started self.old.held.state ≡ false }
        ensures lasts { (start : E) → E.lasts start env.old → E.lasts start env.new }
        ensures writes { Notes (E.noted env.old) (λ x. Then (WritesOut ⟦<S as Storage>⟧ self.old.blob offset bufs) (ResizesBlob ⟦<S as Storage>⟧ self.old.blob len) (writer store.old self.old.held) result (writer store.new self.new.held) x) (E.noted env.new) }
        ensures blob { self.new.blob ≡ self.old.blob }
        ensures spent { E.spare env.old ≤ E.spare env.new + 2 * S.most }
        ensures callable { S.callable store.new }
    {
        match self.write_out(store, env, offset, bufs) {
            Err(error) => Err(error),
            Ok(Poll::Pending) => Ok(Poll::Pending),
            Ok(Poll::Ready(())) => self.resize_blob(store, env, len),
        }
    }

    // Gives the tip and the blob another length, where no ticket is held.
    pub(crate) fn resize_tip<E: Env>(
        &mut self,
        store: &mut S,
        env: &mut E,
        len: u64,
    ) -> Result<Poll<()>, Error>
        requires callable { S.callable store.old }
        requires free { is_started self.old.held.state ≡ false }
        ensures lasts { (start : E) → E.lasts start env.old → E.lasts start env.new }
        ensures resizes { Notes (E.noted env.old) (λ x. ResizesTip ⟦<S as Storage>⟧ self.old.blob len (writer store.old self.old.held) result (writer store.new self.new.held) x) (E.noted env.new) }
        ensures blob { self.new.blob ≡ self.old.blob }
        ensures spent { E.spare env.old ≤ E.spare env.new + 2 * S.most }
        ensures callable { S.callable store.new }
    {
        match self.cut_tip(len) {
            Err(error) => Err(error),
            Ok(Some((bufs, offset))) => self.write_and_resize(store, env, offset, bufs, len),
            Ok(None) => self.resize_blob(store, env, len),
        }
    }
}
