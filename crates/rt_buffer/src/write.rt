// A writer of a blob that holds the last bytes back.
ghost use Rattle.std.specs.Prelude.{◌≡◌, ◌+◌, ◌-◌, ◌*◌, ◌^◌, ◌<◌, ◌≤◌, [], Ok, Err, IfOk, OnErr, OnOk, length, take, drop, if◌then◌else◌, ◌||◌, ◌&&◌, not, true, false, ℕ, List, MatchResult, ⊤};
ghost use Rattle.rt_base.specs.Counted.{Notes};
ghost use Rattle.rt_base.specs.declared.error.Error.{Error};
ghost use Rattle.rt_buffer.specs.declared.sync_state.SyncState.{SyncState};
ghost use Rattle.rt_buffer.specs.Durable.{HoldsSync, IfBegun, IfStepped, Keeping, Keeps, KnowsState, OnOthers, Shows};
ghost use Rattle.rt_buffer.specs.Memory.{MemoryKeeps};
ghost use Rattle.rt_buffer.specs.Pieces.{with_bytes};
ghost use Rattle.rt_buffer.specs.Steps.{Ends, Finishes, GivesHandle, Runs, Starts, WritesAt, is_started, room_for, seen_start, seen_step, writer};
ghost use Rattle.rt_buffer.specs.Tip.{empty_tip, end_of, is_within, merged, laid_over};
ghost use Rattle.rt_buffer.specs.Writing.{has_bytes, needs_sync, ReadsTip, ReadsThrough, LiesOver, ClosesWriter};
ghost use Rattle.rt_store.specs.Content.{resized, written};

use crate::held::Held;
use crate::pieces::Pieces;
use crate::sync_handle::{Started, handed};
use crate::sync_state::SyncState;
use crate::write_op::{Rest, Step, Stepped, WriteOp};
use rt_base::{Env, Error, NoMemory, Poll, ReadOptions};
use rt_bufs::IoBufs;
use rt_store::{BlobOf, Storage};
use std::alloc::Global;

/// A writer of a blob that holds the last bytes back in a tip, so it stands for the blob's bytes with the tip laid
/// over them.
///
/// It must be spent by [`close`](Self::close).
pub struct Write<S: Storage> {
    pub(crate) blob: BlobOf<S>,
    pub(crate) held: Held,
    pub(crate) alloc: Global,
}

impl<S: Storage> Write<S> {
    /// Makes a writer of a blob of this size in bytes, that holds up to `capacity` bytes back. The blob counts as
    /// changed.
    pub fn new(alloc: Global, blob: BlobOf<S>, size: u64, capacity: usize) -> Write<S>
        requires { 0 < capacity }
        ensures blob { result.blob ≡ blob }
        ensures tip { result.held.tip ≡ empty_tip size capacity }
        ensures dirty { result.held.state ≡ SyncState.Dirty }
        ensures syncs { result.held.syncs ≡ 0 }
        ensures memory { MemoryKeeps }
    {
        Write {
            blob,
            held: Held::new(alloc, size, capacity),
            alloc,
        }
    }

    /// Returns the length of the blob in bytes, with those that are held back.
    pub fn size(&self) -> u64
        ensures { result ≡ end_of self.now.held.tip }
    {
        self.held.tip.size()
    }

    /// Returns whether bytes are held back, or a change may not be durable.
    pub fn needs_sync(&self) -> bool
        ensures { result ≡ needs_sync self.now.held.tip self.now.held.state }
    {
        self.held.needs_sync()
    }

    /// Returns the `len` bytes of the blob from `offset` on, as they are with the tip laid over them.
    ///
    /// Errors: `OffsetOverflow` where they end past a `u64`; `BlobInsufficientLength` where they end past the size;
    /// the store's refusal; `NoMemory`.
    pub fn read_at<E: Env>(
        &self,
        store: &mut S,
        env: &mut E,
        offset: u64,
        len: usize,
    ) -> Result<IoBufs, Error>
        requires callable { S.callable store.old }
        ensures lasts { (start : E) → E.lasts start env.old → E.lasts start env.new }
        ensures overflow { 2 ^ 64 ≤ offset + len → (result ≡ Err Error.OffsetOverflow) × (store.new ≡ store.old) × (env.new ≡ env.old) }
        ensures insufficient { offset + len < 2 ^ 64 → end_of self.now.held.tip < offset + len → (result ≡ Err Error.BlobInsufficientLength) × (store.new ≡ store.old) × (env.new ≡ env.old) }
        ensures from_tip { offset + len ≤ end_of self.now.held.tip → self.now.held.tip.offset ≤ offset → ReadsTip self.now.held.tip offset len result × (store.new ≡ store.old) × (env.new ≡ env.old) }
        ensures nothing { offset ≤ end_of self.now.held.tip → len ≡ 0 → MatchResult result (λ b. b.bytes ≡ []) (λ e. e ≡ Error.NoMemory) × (store.new ≡ store.old) × (env.new ≡ env.old) }
        ensures from_blob { offset + len ≤ end_of self.now.held.tip → offset < self.now.held.tip.offset → 0 < len →
            Notes (E.noted env.old) (λ x. ReadsThrough ⟦<S as Storage>⟧ self.now.blob self.now.held.tip offset len store.old result store.new x) (E.noted env.new) }
        ensures flat { LiesOver self.now.held.tip (S.bytes store.old self.now.blob) →
            IfOk result (λ b. b.bytes ≡ take len (drop offset (laid_over self.now.held.tip (S.bytes store.old self.now.blob)))) }
        ensures spent { E.spare env.old ≤ E.spare env.new + S.most }
        ensures callable { S.callable store.new }
    {
        let size = self.held.tip.size();
        let Some(end) = offset.checked_add(len as u64) else {
            return Err(Error::OffsetOverflow);
        };
        if size < end {
            return Err(Error::BlobInsufficientLength);
        }
        match self.held.tip.offset().checked_sub(offset) {
            None | Some(0) => self.read_tip(offset, len),
            Some(_) if len == 0 => Ok(IoBufs::new(self.alloc)),
            Some(before) => self.read_through(store, env, offset, len, before),
        }
    }

    /// Puts bytes into the tip, and returns whether they lie within its reach. No bytes always do. Else, and after
    /// `NoMemory`, nothing has changed.
    pub fn try_write_at(&mut self, offset: u64, bytes: &[u8]) -> Result<bool, NoMemory>
        ensures within { IfOk result (λ yes. yes ≡ (not (has_bytes bytes.now) || is_within self.old.held.tip offset (length bytes.now))) }
        ensures merged { OnOk result (self.new.held.tip ≡ (if has_bytes bytes.now && is_within self.old.held.tip offset (length bytes.now) then merged self.old.held.tip bytes.now offset else self.old.held.tip)) }
        ensures refused { OnErr result (self.new.held.tip ≡ self.old.held.tip) }
        ensures blob { self.new.blob ≡ self.old.blob }
        ensures state { self.new.held.state ≡ self.old.held.state }
        ensures syncs { self.new.held.syncs ≡ self.old.held.syncs }
        ensures flat { (content : List ℕ) → LiesOver self.old.held.tip content → has_bytes bytes.now ≡ true → result ≡ Ok true →
            LiesOver self.new.held.tip content × (laid_over self.new.held.tip content ≡ written offset bytes.now (laid_over self.old.held.tip content)) }
    {
        if bytes.is_empty() {
            return Ok(true);
        }
        self.held.tip.merge(bytes, offset)
    }

    /// Closes the blob, and gives up a started sync. The bytes that are held back are lost. It takes no memory.
    pub fn close(self, store: &mut S)
        requires callable { S.callable store.old }
        ensures closed { ClosesWriter ⟦<S as Storage>⟧ self.held.state self.blob store.old store.new }
        ensures others { OnOthers ⟦<S as Storage>⟧ self.held.state self.blob store.old store.new (λ know. ⊤) }
        ensures callable { S.callable store.new }
    {
        let Write {
            blob,
            held,
            alloc: _,
        } = self;
        let Held {
            tip: _,
            state,
            syncs: _,
        } = held;
        match state {
            SyncState::Clean | SyncState::Dirty => {}
            SyncState::Started(ticket) => store.give_up_sync(ticket),
        }
        store.close(blob);
    }

    /// Writes bytes from `offset` on, chunk by chunk. Those that lie within the tip's reach, one after the other, go into it
    /// at once. The others wait for a started sync first; then each goes into the tip where it can, after a write of the
    /// bytes that are held back where those begin before its end, and to the blob else.
    ///
    /// Errors: `OffsetOverflow` where they end past a `u64`, that of the started sync, the store's refusal, `NoMemory`. After
    /// one the blob is closed.
    pub fn write_at<E: Env>(
        mut self,
        store: &mut S,
        env: &mut E,
        offset: u64,
        bufs: IoBufs,
        task: u64,
    ) -> Step<S>
        requires callable { S.callable store.old }
        ensures lasts { (start : E) → E.lasts start env.old → E.lasts start env.new }
        ensures overflow { 2 ^ 64 ≤ offset + length bufs.bytes → Ends ⟦<S as Storage>⟧ self.blob Rest.Nothing (Err Error.OffsetOverflow) (writer store.old self.held) store.new (seen_step (λ w. (w.blob, w.held)) (λ p. ((p.write.blob, p.write.held), p.rest)) result) × (env.new ≡ env.old) }
        ensures writes { offset + length bufs.bytes < 2 ^ 64 → Notes (E.noted env.old) (λ x. WritesAt ⟦<S as Storage>⟧ self.blob offset bufs.chunks task (writer store.old self.held) store.new (seen_step (λ w. (w.blob, w.held)) (λ p. ((p.write.blob, p.write.held), p.rest)) result) x) (E.noted env.new) }
        ensures flat { LiesOver self.held.tip (S.bytes store.old self.blob) → KnowsState S.bytes S.left S.promised self.held.state store.old self.blob →
            IfStepped result (λ w. Shows S.bytes S.left S.promised (with_bytes offset bufs.bytes (laid_over self.held.tip (S.bytes store.old self.blob))) w.held store.new self.blob) (λ p. Keeping S.bytes S.left S.promised (with_bytes offset bufs.bytes (laid_over self.held.tip (S.bytes store.old self.blob))) p.rest p.write.held store.new self.blob) }
        ensures others { OnOthers ⟦<S as Storage>⟧ self.held.state self.blob store.old store.new (λ know. IfStepped result (λ w. know w.held.state) (λ p. know p.write.held.state)) }
        ensures spent { E.spare env.old ≤ E.spare env.new + (S.most + length bufs.chunks * (2 * S.most)) }
        ensures callable { S.callable store.new }
    {
        let mut left = match Pieces::new(self.alloc, offset, bufs) {
            Ok(left) => left,
            Err(error) => return self.end(store, Err(error), Rest::Nothing),
        };
        match self.held.tip.merge_chunks(&mut left) {
            Err(_) => self.end(store, Err(Error::NoMemory), Rest::Nothing),
            Ok(()) if left.is_empty() => Stepped::Done(self),
            Ok(()) => self.run(store, env, Rest::Write(left), task),
        }
    }

    /// Makes the bytes that are held back, and all changes, durable. It waits for a started sync first. Where no change is
    /// open, they are one durable write; and where there are none, the store isn't called.
    ///
    /// Errors: that of the started sync, the store's refusal, `NoMemory`. After one the blob is closed.
    pub fn sync<E: Env>(self, store: &mut S, env: &mut E, task: u64) -> Step<S>
        requires callable { S.callable store.old }
        ensures lasts { (start : E) → E.lasts start env.old → E.lasts start env.new }
        ensures runs { Notes (E.noted env.old) (λ x. Runs ⟦<S as Storage>⟧ self.blob Rest.Sync task (writer store.old self.held) store.new (seen_step (λ w. (w.blob, w.held)) (λ p. ((p.write.blob, p.write.held), p.rest)) result) x) (E.noted env.new) }
        ensures durable { LiesOver self.held.tip (S.bytes store.old self.blob) → KnowsState S.bytes S.left S.promised self.held.state store.old self.blob →
            IfStepped result (λ w. Keeps S.bytes S.left S.promised (laid_over self.held.tip (S.bytes store.old self.blob)) Rest.Sync w.held store.new self.blob) (λ p. Keeping S.bytes S.left S.promised (laid_over self.held.tip (S.bytes store.old self.blob)) p.rest p.write.held store.new self.blob) }
        ensures others { OnOthers ⟦<S as Storage>⟧ self.held.state self.blob store.old store.new (λ know. IfStepped result (λ w. know w.held.state) (λ p. know p.write.held.state)) }
        ensures spent { E.spare env.old ≤ E.spare env.new + 4 * S.most }
        ensures callable { S.callable store.new }
    {
        self.run(store, env, Rest::Sync, task)
    }

    /// Writes the bytes that are held back, once an earlier sync is done, and starts a sync of all changes. Where there are
    /// none, it shares the earlier one, and where no change is open, its handle is done.
    ///
    /// Errors: that of the earlier sync, the store's refusal, `NoMemory`. After one the blob is closed.
    pub fn start_sync<E: Env>(mut self, store: &mut S, env: &mut E, task: u64) -> Started<S>
        requires callable { S.callable store.old }
        ensures lasts { (start : E) → E.lasts start env.old → E.lasts start env.new }
        ensures starts { Notes (E.noted env.old) (λ x. Starts ⟦<S as Storage>⟧ self.blob task (writer store.old self.held) store.new (seen_start (λ w. (w.blob, w.held)) (λ p. ((p.write.blob, p.write.held), p.rest)) result) x) (E.noted env.new) }
        ensures handle { GivesHandle self.blob (λ w. (w.blob, w.held)) (λ p. p.write.blob) result }
        ensures durable { LiesOver self.held.tip (S.bytes store.old self.blob) → KnowsState S.bytes S.left S.promised self.held.state store.old self.blob →
            IfBegun result (λ w. Keeps S.bytes S.left S.promised (laid_over self.held.tip (S.bytes store.old self.blob)) Rest.Start w.held store.new self.blob) (λ p. Keeping S.bytes S.left S.promised (laid_over self.held.tip (S.bytes store.old self.blob)) p.rest p.write.held store.new self.blob) }
        ensures others { OnOthers ⟦<S as Storage>⟧ self.held.state self.blob store.old store.new (λ know. IfBegun result (λ w. know w.held.state) (λ p. know p.write.held.state)) }
        ensures spent { E.spare env.old ≤ E.spare env.new + 3 * S.most }
        ensures callable { S.callable store.new }
    {
        if self.held.tip.is_empty() {
            let progress = self.begin(store, env);
            return handed(self.end(store, progress, Rest::Nothing));
        }
        handed(self.run(store, env, Rest::Start, task))
    }

    /// Gives the blob another length, once a started sync is done. Bytes that are held back and not cut are written first.
    ///
    /// Errors: that of the started sync, the store's refusal, `NoMemory`. After one the blob is closed.
    pub fn resize<E: Env>(self, store: &mut S, env: &mut E, len: u64, task: u64) -> Step<S>
        requires callable { S.callable store.old }
        ensures lasts { (start : E) → E.lasts start env.old → E.lasts start env.new }
        ensures runs { Notes (E.noted env.old) (λ x. Runs ⟦<S as Storage>⟧ self.blob (Rest.Resize len) task (writer store.old self.held) store.new (seen_step (λ w. (w.blob, w.held)) (λ p. ((p.write.blob, p.write.held), p.rest)) result) x) (E.noted env.new) }
        ensures flat { LiesOver self.held.tip (S.bytes store.old self.blob) → KnowsState S.bytes S.left S.promised self.held.state store.old self.blob →
            IfStepped result (λ w. Shows S.bytes S.left S.promised (resized len (laid_over self.held.tip (S.bytes store.old self.blob))) w.held store.new self.blob) (λ p. Keeping S.bytes S.left S.promised (resized len (laid_over self.held.tip (S.bytes store.old self.blob))) p.rest p.write.held store.new self.blob) }
        ensures others { OnOthers ⟦<S as Storage>⟧ self.held.state self.blob store.old store.new (λ know. IfStepped result (λ w. know w.held.state) (λ p. know p.write.held.state)) }
        ensures spent { E.spare env.old ≤ E.spare env.new + 3 * S.most }
        ensures callable { S.callable store.new }
    {
        self.run(store, env, Rest::Resize(len), task)
    }

    /// Waits for a started sync, where one is held.
    ///
    /// Errors: that of the sync. After one the blob is closed.
    pub fn wait_for_sync<E: Env>(self, store: &mut S, env: &mut E, task: u64) -> Step<S>
        requires callable { S.callable store.old }
        ensures lasts { (start : E) → E.lasts start env.old → E.lasts start env.new }
        ensures runs { Notes (E.noted env.old) (λ x. Runs ⟦<S as Storage>⟧ self.blob Rest.Nothing task (writer store.old self.held) store.new (seen_step (λ w. (w.blob, w.held)) (λ p. ((p.write.blob, p.write.held), p.rest)) result) x) (E.noted env.new) }
        ensures durable { HoldsSync S.bytes S.left S.promised self.held store.old self.blob →
            IfStepped result (λ w. Keeps S.bytes S.left S.promised (S.bytes store.old self.blob) Rest.Nothing w.held store.new self.blob) (λ p. Keeping S.bytes S.left S.promised (S.bytes store.old self.blob) p.rest p.write.held store.new self.blob) }
        ensures others { OnOthers ⟦<S as Storage>⟧ self.held.state self.blob store.old store.new (λ know. IfStepped result (λ w. know w.held.state) (λ p. know p.write.held.state)) }
        ensures spent { E.spare env.old ≤ E.spare env.new + S.most }
        ensures callable { S.callable store.new }
    {
        self.run(store, env, Rest::Nothing, task)
    }

    // Waits for a started sync, and then does the rest. Where it waits, the rest is kept.
    pub(crate) fn run<E: Env>(
        mut self,
        store: &mut S,
        env: &mut E,
        rest: Rest,
        task: u64,
    ) -> Step<S>
        requires callable { S.callable store.old }
        ensures lasts { (start : E) → E.lasts start env.old → E.lasts start env.new }
        ensures runs { Notes (E.noted env.old) (λ x. Runs ⟦<S as Storage>⟧ self.blob rest task (writer store.old self.held) store.new (seen_step (λ w. (w.blob, w.held)) (λ p. ((p.write.blob, p.write.held), p.rest)) result) x) (E.noted env.new) }
        ensures spent { E.spare env.old ≤ E.spare env.new + (S.most + room_for S.most rest) }
        ensures callable { S.callable store.new }
    {
        match self.wait(store, env, task) {
            Ok(Poll::Ready(())) => {
                let progress = self.finish(store, env, rest, task);
                self.end(store, progress, Rest::Nothing)
            }
            Ok(Poll::Pending) => self.end(store, Ok(Poll::Pending), rest),
            Err(error) => self.end(store, Err(error), rest),
        }
    }

    // Does what is left, where no ticket is held.
    #[tactic(auto, using(crate::proofs::Steps::then_done, crate::proofs::Steps::then_waits, crate::proofs::Steps::then_refused))]
    fn finish<E: Env>(
        &mut self,
        store: &mut S,
        env: &mut E,
        rest: Rest,
        task: u64,
    ) -> Result<Poll<()>, Error>
        requires callable { S.callable store.old }
        requires free { is_started self.old.held.state ≡ false }
        ensures lasts { (start : E) → E.lasts start env.old → E.lasts start env.new }
        ensures finishes { Notes (E.noted env.old) (λ x. Finishes ⟦<S as Storage>⟧ self.old.blob rest task (writer store.old self.old.held) result (writer store.new self.new.held) x) (E.noted env.new) }
        ensures blob { self.new.blob ≡ self.old.blob }
        ensures spent { E.spare env.old ≤ E.spare env.new + room_for S.most rest }
        ensures callable { S.callable store.new }
    {
        match rest {
            Rest::Nothing => Ok(Poll::Ready(())),
            Rest::Sync => self.save(store, env, task),
            Rest::Resize(len) => self.resize_tip(store, env, len),
            Rest::Write(left) => self.put_all(store, env, left),
            Rest::Start => self.drain_and_begin(store, env),
        }
    }

    // What a call returns that came to this, with what is left to do where it waits.
    fn end(self, store: &mut S, progress: Result<Poll<()>, Error>, rest: Rest) -> Step<S>
        requires callable { S.callable store.old }
        ensures ends { Ends ⟦<S as Storage>⟧ self.blob rest progress (writer store.old self.held) store.new (seen_step (λ w. (w.blob, w.held)) (λ p. ((p.write.blob, p.write.held), p.rest)) result) }
        ensures callable { S.callable store.new }
    {
        match progress {
            Ok(Poll::Ready(())) => Stepped::Done(self),
            Ok(Poll::Pending) => Stepped::Waiting(WriteOp { write: self, rest }),
            Err(error) => {
                self.close(store);
                Stepped::Failed(error)
            }
        }
    }

    // Bytes that all lie in the tip.
    fn read_tip(&self, offset: u64, len: usize) -> Result<IoBufs, Error>
        requires begins { self.now.held.tip.offset ≤ offset }
        requires ends { offset + len ≤ end_of self.now.held.tip }
        ensures { ReadsTip self.now.held.tip offset len result }
    {
        let from = (offset - self.held.tip.offset()) as usize;
        let bytes = self.held.tip.slice(from, from + len)?;
        Ok(IoBufs::from_buf(self.alloc, bytes)?)
    }

    // Bytes of which so many may lie before the tip.
    fn read_through<E: Env>(
        &self,
        store: &mut S,
        env: &mut E,
        offset: u64,
        len: usize,
        before: u64,
    ) -> Result<IoBufs, Error>
        requires callable { S.callable store.old }
        requires before { before ≡ self.now.held.tip.offset - offset }
        requires some { offset < self.now.held.tip.offset }
        requires ends { offset + len ≤ end_of self.now.held.tip }
        ensures lasts { (start : E) → E.lasts start env.old → E.lasts start env.new }
        ensures reads { Notes (E.noted env.old) (λ x. ReadsThrough ⟦<S as Storage>⟧ self.now.blob self.now.held.tip offset len store.old result store.new x) (E.noted env.new) }
        ensures spent { E.spare env.old ≤ E.spare env.new + S.most }
        ensures callable { S.callable store.new }
    {
        let first = len.min(before as usize);
        let fetched = store.read_at(env, &self.blob, offset, first, ReadOptions::default())?;
        let mut bufs = fetched.freeze()?;
        bufs.append(self.held.tip.slice(0, len - first)?)?;
        Ok(bufs)
    }
}
