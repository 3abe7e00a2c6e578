// A reader of a blob that fetches ahead.
ghost use Rattle.std.specs.Prelude.{◌≡◌, ◌+◌, ◌-◌, ◌<◌, ◌≤◌, ◌↔◌, ℕ, [], List, Err, IfOk, IfErr, OnErr, OnOk, length, take, drop};
ghost use Rattle.rt_base.specs.Counted.{Notes};
ghost use Rattle.rt_base.specs.declared.error.Error.{Error};
ghost use Rattle.rt_buffer.specs.Flat.{StandsFor};
ghost use Rattle.rt_buffer.specs.Reading.{TakesHeld, Fetches, Gives, Joins, ResizesAndSyncs, end_of, remaining, fetch_len, sought};

use crate::ahead::Ahead;
use rt_base::{Env, Error, ReadOptions};
use rt_bufs::{IoBuf, IoBufs, IoBufsMut};
use rt_store::{BlobOf, Done, Storage};
use std::alloc::Global;

/// A reader of a blob, from its start on. It must be spent by [`close`](Self::close) or `resize`.
///
/// It fetches whole buffers, and holds what wasn't asked for yet: so it stands for the blob's bytes up to the given
/// size, and a place in them.
pub struct Read<S: Storage> {
    blob: BlobOf<S>,
    ahead: Ahead,
    alloc: Global,
}

impl<S: Storage> Read<S> {
    /// Makes a reader of so many bytes of a blob, that fetches `buffer_size` bytes or a multiple.
    pub fn new(alloc: Global, blob: BlobOf<S>, blob_size: u64, buffer_size: usize) -> Read<S>
        requires { 0 < buffer_size }
        ensures blob { result.blob ≡ blob }
        ensures position { result.ahead.position ≡ 0 }
        ensures held { result.ahead.held ≡ [] }
        ensures size { result.ahead.size ≡ blob_size }
        ensures buffer { result.ahead.buffer ≡ buffer_size }
        ensures flat { (bytes : List ℕ) → blob_size ≤ length bytes → StandsFor result.ahead bytes }
    {
        Read {
            blob,
            ahead: Ahead::new(alloc, blob_size, buffer_size),
            alloc,
        }
    }

    /// Returns how many bytes are held from the place on, which is at most the buffer's size.
    pub fn buffer_remaining(&self) -> usize
        ensures held { result ≡ length self.now.ahead.held }
        ensures fits { result ≤ self.now.ahead.buffer }
    {
        self.ahead.held_len()
    }

    /// Returns how many bytes are left from the place on.
    pub fn blob_remaining(&self) -> u64
        ensures { result ≡ remaining self.now.ahead }
    {
        self.ahead.remaining()
    }

    /// Returns the size in bytes that the reader was made with.
    pub fn blob_size(&self) -> u64
        ensures { result ≡ self.now.ahead.size }
    {
        self.ahead.size()
    }

    /// Returns the place of the next byte.
    pub fn position(&self) -> u64
        ensures { result ≡ self.now.ahead.position }
    {
        self.ahead.position()
    }

    /// Returns the next `len` bytes.
    ///
    /// Bytes that are held come from memory. Else the store is read once, for the bytes that are missing and those up
    /// to the end of a buffer.
    ///
    /// Errors: `BlobInsufficientLength` where fewer are left, and then nothing has changed; the store's refusal;
    /// `NoMemory`. After one of the last two that came after the store's answer nothing is held, and the place is
    /// after what was held.
    pub fn read<E: Env>(&mut self, store: &mut S, env: &mut E, len: usize) -> Result<IoBufs, Error>
        requires callable { S.callable store.old }
        ensures lasts { (start : E) → E.lasts start env.old → E.lasts start env.new }
        ensures insufficient { remaining self.old.ahead < len → (result ≡ Err Error.BlobInsufficientLength) × (self.new ≡ self.old) × (store.new ≡ store.old) × (env.new ≡ env.old) }
        ensures from_memory { len ≤ length self.old.ahead.held → TakesHeld self.old.ahead len result self.new.ahead × (store.new ≡ store.old) × (env.new ≡ env.old) }
        ensures fetched { len ≤ remaining self.old.ahead → length self.old.ahead.held < len →
            Notes (E.noted env.old) (λ x. Fetches ⟦<S as Storage>⟧ self.old.blob self.old.ahead (len - length self.old.ahead.held) store.old result store.new self.new.ahead x) (E.noted env.new) }
        ensures flat { StandsFor self.old.ahead (S.bytes store.old self.old.blob) →
            StandsFor self.new.ahead (S.bytes store.new self.old.blob) × IfOk result (λ b. b.bytes ≡ take len (drop self.old.ahead.position (S.bytes store.old self.old.blob))) }
        ensures blob { self.new.blob ≡ self.old.blob }
        ensures spent { E.spare env.old ≤ E.spare env.new + S.most }
        ensures callable { S.callable store.new }
    {
        if self.ahead.remaining() < len as u64 {
            return Err(Error::BlobInsufficientLength);
        }
        match len.checked_sub(self.ahead.held_len()) {
            None | Some(0) => self.ahead.take(len),
            Some(lacking) => self.fetch(store, env, lacking),
        }
    }

    // Reads all that is held and so many bytes more, which the blob has.
    fn fetch<E: Env>(&mut self, store: &mut S, env: &mut E, lacking: usize) -> Result<IoBufs, Error>
        requires callable { S.callable store.old }
        requires within { lacking ≤ self.old.ahead.size - end_of self.old.ahead }
        ensures lasts { (start : E) → E.lasts start env.old → E.lasts start env.new }
        ensures fetched { Notes (E.noted env.old) (λ x. Fetches ⟦<S as Storage>⟧ self.old.blob self.old.ahead lacking store.old result store.new self.new.ahead x) (E.noted env.new) }
        ensures enough { lacking ≤ fetch_len self.old.ahead lacking }
        ensures blob { self.new.blob ≡ self.old.blob }
        ensures spent { E.spare env.old ≤ E.spare env.new + S.most }
        ensures callable { S.callable store.new }
    {
        let len = self.ahead.fetch_len(lacking);
        let held = self.ahead.take_all();
        let position = self.ahead.position();
        let fetched = store.read_at(env, &self.blob, position, len, ReadOptions::default());
        self.finish(held, fetched, lacking)
    }

    // Hands out what was held and what a fetch gave.
    fn finish(
        &mut self,
        held: IoBuf,
        fetched: Result<IoBufsMut, Error>,
        lacking: usize,
    ) -> Result<IoBufs, Error>
        requires nothing { self.old.ahead.held ≡ [] }
        requires enough { IfOk fetched (λ b. lacking ≤ length b.bytes) }
        requires few { IfOk fetched (λ b. length b.bytes - lacking ≤ self.old.ahead.buffer) }
        requires within { IfOk fetched (λ b. self.old.ahead.position + length b.bytes ≤ self.old.ahead.size) }
        ensures gives { Gives held lacking self.old.ahead fetched result self.new.ahead }
        ensures blob { self.new.blob ≡ self.old.blob }
    {
        let fetched = fetched?;
        self.join(held, fetched, lacking)
    }

    // Hands out held bytes and the first of the fetched ones, and keeps the others.
    fn join(&mut self, held: IoBuf, fetched: IoBufsMut, lacking: usize) -> Result<IoBufs, Error>
        requires nothing { self.old.ahead.held ≡ [] }
        requires enough { lacking ≤ length fetched.bytes }
        requires few { length fetched.bytes - lacking ≤ self.old.ahead.buffer }
        requires within { self.old.ahead.position + length fetched.bytes ≤ self.old.ahead.size }
        ensures joined { Joins held fetched.bytes lacking self.old.ahead result self.new.ahead }
        ensures blob { self.new.blob ≡ self.old.blob }
    {
        let bytes = fetched.coalesce()?.freeze()?;
        let first = bytes.slice(0, lacking)?;
        let mut bufs = IoBufs::from_buf(self.alloc, held)?;
        bufs.append(first)?;
        self.ahead.fill(bytes, lacking);
        Ok(bufs)
    }

    /// Goes to another place in the blob. One within the held bytes keeps those from there on, and any other gives
    /// them up.
    ///
    /// Error: `BlobInsufficientLength` where it is past the size, and then nothing has changed.
    pub fn seek_to(&mut self, position: u64) -> Result<(), Error>
        ensures sought { OnOk result (self.new.ahead ≡ sought self.old.ahead position) }
        ensures past { (result ≡ Err Error.BlobInsufficientLength) ↔ (self.old.ahead.size < position) }
        ensures refused { IfErr result (λ error. error ≡ Error.BlobInsufficientLength) }
        ensures unchanged { OnErr result (self.new ≡ self.old) }
        ensures flat { (bytes : List ℕ) → StandsFor self.old.ahead bytes → StandsFor self.new.ahead bytes }
        ensures blob { self.new.blob ≡ self.old.blob }
    {
        self.ahead.seek(position)
    }

    /// Gives the blob another length, syncs it and closes it. It is closed in every case.
    ///
    /// Errors: the store's refusals, and `NoMemory`.
    pub fn resize<E: Env>(self, store: &mut S, env: &mut E, len: u64) -> Result<Done, Error>
        requires callable { S.callable store.old }
        ensures lasts { (start : E) → E.lasts start env.old → E.lasts start env.new }
        ensures gives { Notes (E.noted env.old) (λ x. (left : S) × ResizesAndSyncs S.resizes S.syncs self.blob len store.old result left x × S.closes left self.blob store.new) (E.noted env.new) }
        ensures spent { E.spare env.old ≤ E.spare env.new + (S.most + S.most) }
        ensures callable { S.callable store.new }
    {
        let Read {
            blob,
            ahead: _,
            alloc: _,
        } = self;
        let done = resize_and_sync(store, env, &blob, len);
        store.close(blob);
        done
    }

    /// Closes the blob. It takes no memory.
    pub fn close(self, store: &mut S)
        requires callable { S.callable store.old }
        ensures closed { S.closes store.old self.blob store.new }
        ensures callable { S.callable store.new }
    {
        let Read {
            blob,
            ahead: _,
            alloc: _,
        } = self;
        store.close(blob);
    }
}

// Gives a blob another length and syncs it.
fn resize_and_sync<S: Storage, E: Env>(
    store: &mut S,
    env: &mut E,
    blob: &BlobOf<S>,
    len: u64,
) -> Result<Done, Error>
    requires callable { S.callable store.old }
    ensures lasts { (start : E) → E.lasts start env.old → E.lasts start env.new }
    ensures gives { Notes (E.noted env.old) (λ x. ResizesAndSyncs S.resizes S.syncs blob.now len store.old result store.new x) (E.noted env.new) }
    ensures spent { E.spare env.old ≤ E.spare env.new + (S.most + S.most) }
    ensures callable { S.callable store.new }
{
    store.resize(env, blob, len)?;
    store.sync(env, blob)
}
