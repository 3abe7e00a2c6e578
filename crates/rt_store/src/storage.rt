// A store of blobs, by what each call may return, leave and note.
//
// Code over any `S: Storage` is proved from this trait alone. There is one relation for each call, over the store
// before it, the arguments, the answer, the store after it, and what the call noted in the environment. So a wrapper
// states its own relations by those of what it wraps. What a crash leaves is said by ghosts of each blob and ticket,
// which the calls keep and change.
ghost use Rattle.std.specs.Prelude.{◌≡◌, ◌≤◌, ◌+◌, ◌*◌, ℕ, List, length, Option, Result, IfOk, OnOk, Vec, false, ⊤};
ghost use Rattle.std.specs.Option.{option_copied};
ghost use Rattle.std.specs.Global.{Global};
ghost use Rattle.rt_base.specs.Counted.{Counts, Notes};
ghost use Rattle.rt_base.specs.declared.error.Error.{Error};
ghost use Rattle.rt_base.specs.declared.options.ReadOptions.{ReadOptions};
ghost use Rattle.rt_base.specs.declared.options.WriteOptions.{WriteOptions};
ghost use Rattle.rt_base.specs.declared.poll.Poll.{Poll};
ghost use Rattle.rt_base.specs.declared.version.BlobVersion.{BlobVersion};
ghost use Rattle.rt_base.specs.Noted.{Noted};
ghost use Rattle.rt_bufs.specs.Chunked.{Chunked};
ghost use Rattle.rt_bufs.specs.WritableChunks.{WritableChunks};
ghost use Rattle.rt_store.specs.Answered.{CountsDone, CountsPoll, CountsStart, PollsTicket, StartsOrLacks, is_numbered};
ghost use Rattle.rt_store.specs.Durable.{IsOf, KeepsPoll, KeepsRead, KeepsResize, KeepsStart, KeepsSync, KeepsWrite, Leaves, LeavesAll, LeavesWhenGivenUp, OfOne, OpensApart};
ghost use Rattle.rt_store.specs.Reading.{HaveLengths, HavePlacedLengths, IsWhole};
ghost use Rattle.rt_store.specs.declared.ticket.Done.{Done};
ghost use Rattle.rt_store.specs.declared.ticket.Ticket.{Ticket};

use crate::ticket::{Done, Ticket};
use rt_base::{BlobVersion, Env, Error, NoMemory, Poll, ReadOptions, WriteOptions};
use rt_bufs::{IoBufs, IoBufsMut};

/// The type of a store's tokens of open blobs.
pub type BlobOf<S> = <S as Storage>::Blob;

/// A store of blobs in partitions, whose tokens must be spent. `task` is the number of the task that calls, which
/// waits where the answer is pending. A range of versions is its least and its greatest.
pub trait Storage {
    type Blob;

    // The store may be called. Each call asks it, and keeps it.
    ghost callable: { Self → Type 0 } = { λ _. ⊤ };

    // How many calls were refused for another cause than being out of memory.
    ghost refusals: { Self → ℕ };

    // The bytes of a blob, and what each crash leaves of them, where that is one list.
    ghost bytes: { Self → Self.Blob → List ℕ };

    ghost left: { Self → Self.Blob → Option (List ℕ) };

    // What each crash leaves of a blob once the sync of this ticket with a number is done, where that is a sync of it.
    ghost promised: { Self → Ticket → Self.Blob → Option (List ℕ) };

    // A call on one of these blobs leaves the other one as it was.
    ghost apart: { Self → Self.Blob → Self.Blob → Type 0 };

    // The blob was given out by an open. It counts as that also once it is closed.
    ghost opened: { Self → Self.Blob → Type 0 };

    // How many entries of its environment a call uses at most, and how many more for each range of a read of several.
    ghost most: { ℕ };

    ghost per_range: { ℕ };

    ghost opens_versioned: { Self → List ℕ → List ℕ → BlobVersion × BlobVersion → Result (Self.Blob × ℕ × BlobVersion) Error → Self → List Noted → Type 0 };

    ghost opens: { Self → List ℕ → List ℕ → Result (Self.Blob × ℕ) Error → Self → List Noted → Type 0 };

    ghost removes: { Self → List ℕ → Option (List ℕ) → Result Unit Error → Self → List Noted → Type 0 };

    ghost scans: { Self → List ℕ → Result (Vec (Vec ℕ Global) Global) Error → Self → List Noted → Type 0 };

    ghost reads: { Self → Self.Blob → ℕ → ℕ → ReadOptions → Result WritableChunks Error → Self → List Noted → Type 0 };

    ghost reads_into: { Self → Self.Blob → ℕ → ℕ → WritableChunks → ReadOptions → Result WritableChunks Error → Self → List Noted → Type 0 };

    ghost reads_many: { Self → Self.Blob → List (ℕ × ℕ) → ReadOptions → Result (Vec (ℕ × WritableChunks) Global) Error → Self → List Noted → Type 0 };

    ghost reads_in_order: { Self → Self.Blob → List (ℕ × ℕ) → ReadOptions → Result (Vec WritableChunks Global) Error → Self → List Noted → Type 0 };

    ghost writes: { Self → Self.Blob → ℕ → Chunked → WriteOptions → Result Done Error → Self → List Noted → Type 0 };

    ghost resizes: { Self → Self.Blob → ℕ → Result Unit Error → Self → List Noted → Type 0 };

    ghost syncs: { Self → Self.Blob → Result Done Error → Self → List Noted → Type 0 };

    ghost starts_sync: { Self → Self.Blob → Result Ticket Error → Self → List Noted → Type 0 };

    ghost polls_sync: { Self → Ticket → ℕ → Poll (Result Unit Error) → Self → Ticket → List Noted → Type 0 };

    ghost gives_sync_up: { Self → Ticket → Self → Type 0 };

    ghost closes: { Self → Self.Blob → Self → Type 0 };

    /// Takes the room in an environment for the entries of so many calls, with so many ranges in all, and for `more`
    /// beside them.
    fn take_room<E: Env>(
        env: &mut E,
        calls: usize,
        ranges: usize,
        more: usize,
    ) -> Result<(), NoMemory>
        ensures lasts { (start : E) → E.lasts start env.old → E.lasts start env.new }
        ensures room { OnOk result (most * calls + per_range * ranges + more ≤ E.spare env.new) }
        ensures kept { E.spare env.old ≤ E.spare env.new }
        ensures noted { E.noted env.new ≡ E.noted env.old };

    /// Opens a blob, or makes it with the greatest version of the range, and returns its token, its length in bytes
    /// and its version.
    fn open_versioned<E: Env>(
        &mut self,
        env: &mut E,
        partition: &str,
        name: &[u8],
        versions: (BlobVersion, BlobVersion),
    ) -> Result<(Self::Blob, u64, BlobVersion), Error>
        requires callable { callable self.old }
        requires range { versions.0.version ≤ versions.1.version }
        ensures lasts { (start : E) → E.lasts start env.old → E.lasts start env.new }
        ensures gives { Notes (E.noted env.old) (λ x. opens_versioned self.old partition.now name.now versions result self.new x) (E.noted env.new) }
        ensures spent { E.spare env.old ≤ E.spare env.new + most }
        ensures apart { OpensApart bytes left promised apart opened (λ a. a.0) self.old result self.new }
        ensures callable { callable self.new }
        ensures counts { Counts (refusals self.old) (refusals self.new) result };

    /// Opens a blob of the default version, or makes it, and returns its token and its length in bytes.
    fn open<E: Env>(
        &mut self,
        env: &mut E,
        partition: &str,
        name: &[u8],
    ) -> Result<(Self::Blob, u64), Error>
        requires callable { callable self.old }
        ensures lasts { (start : E) → E.lasts start env.old → E.lasts start env.new }
        ensures gives { Notes (E.noted env.old) (λ x. opens self.old partition.now name.now result self.new x) (E.noted env.new) }
        ensures spent { E.spare env.old ≤ E.spare env.new + most }
        ensures apart { OpensApart bytes left promised apart opened (λ a. a.0) self.old result self.new }
        ensures callable { callable self.new }
        ensures counts { Counts (refusals self.old) (refusals self.new) result };

    /// Removes a blob by its name, or a partition with all its blobs. A live token of a removed blob goes on reading
    /// and writing its bytes.
    fn remove<E: Env>(
        &mut self,
        env: &mut E,
        partition: &str,
        name: Option<&[u8]>,
    ) -> Result<(), Error>
        requires callable { callable self.old }
        ensures lasts { (start : E) → E.lasts start env.old → E.lasts start env.new }
        ensures gives { Notes (E.noted env.old) (λ x. removes self.old partition.now (option_copied name.entry) result self.new x) (E.noted env.new) }
        ensures spent { E.spare env.old ≤ E.spare env.new + most }
        ensures callable { callable self.new }
        ensures counts { Counts (refusals self.old) (refusals self.new) result };

    /// Returns the names of the blobs of a partition, in the order of their bytes.
    fn scan<E: Env>(&mut self, env: &mut E, partition: &str) -> Result<Vec<Vec<u8>>, Error>
        requires callable { callable self.old }
        ensures lasts { (start : E) → E.lasts start env.old → E.lasts start env.new }
        ensures gives { Notes (E.noted env.old) (λ x. scans self.old partition.now result self.new x) (E.noted env.new) }
        ensures spent { E.spare env.old ≤ E.spare env.new + most }
        ensures callable { callable self.new }
        ensures counts { Counts (refusals self.old) (refusals self.new) result };

    /// Returns the `len` bytes of the blob from `offset` on.
    fn read_at<E: Env>(
        &mut self,
        env: &mut E,
        blob: &Self::Blob,
        offset: u64,
        len: usize,
        options: ReadOptions,
    ) -> Result<IoBufsMut, Error>
        requires callable { callable self.old }
        ensures lasts { (start : E) → E.lasts start env.old → E.lasts start env.new }
        ensures gives { Notes (E.noted env.old) (λ x. reads self.old blob.now offset len options result self.new x) (E.noted env.new) }
        ensures len { IfOk result (λ b. length b.bytes ≡ len) }
        ensures spent { E.spare env.old ≤ E.spare env.new + most }
        ensures bytes { KeepsRead bytes self.old blob.now offset len result self.new }
        ensures others { LeavesAll bytes left promised apart opened self.old self.new }
        ensures callable { callable self.new }
        ensures counts { Counts (refusals self.old) (refusals self.new) result };

    /// Reads the `len` bytes of the blob from `offset` on into the given buffers, and returns these. A refusal drops
    /// them.
    fn read_at_buf<E: Env>(
        &mut self,
        env: &mut E,
        blob: &Self::Blob,
        offset: u64,
        len: usize,
        bufs: IoBufsMut,
        options: ReadOptions,
    ) -> Result<IoBufsMut, Error>
        requires callable { callable self.old }
        requires fits { len ≤ bufs.capacity }
        ensures lasts { (start : E) → E.lasts start env.old → E.lasts start env.new }
        ensures gives { Notes (E.noted env.old) (λ x. reads_into self.old blob.now offset len bufs options result self.new x) (E.noted env.new) }
        ensures len { IfOk result (λ b. length b.bytes ≡ len) }
        ensures spent { E.spare env.old ≤ E.spare env.new + most }
        ensures callable { callable self.new }
        ensures counts { Counts (refusals self.old) (refusals self.new) result };

    /// Returns the bytes of each range, an offset and a length, once, with its place among the ranges, in any order.
    /// `collect_reads` puts them into the order of the ranges.
    fn read_many<E: Env>(
        &mut self,
        env: &mut E,
        blob: &Self::Blob,
        ranges: &[(u64, usize)],
        options: ReadOptions,
    ) -> Result<Vec<(usize, IoBufsMut)>, Error>
        requires callable { callable self.old }
        ensures lasts { (start : E) → E.lasts start env.old → E.lasts start env.new }
        ensures gives { Notes (E.noted env.old) (λ x. reads_many self.old blob.now ranges.now options result self.new x) (E.noted env.new) }
        ensures whole { IfOk result (λ reads. IsWhole (length ranges.now) reads.items) }
        ensures each { IfOk result (λ reads. length reads.items ≡ length ranges.now) }
        ensures len { IfOk result (λ reads. HavePlacedLengths ranges.now reads.items) }
        ensures spent { E.spare env.old ≤ E.spare env.new + (most + per_range * length ranges.now) }
        ensures callable { callable self.new }
        ensures counts { Counts (refusals self.old) (refusals self.new) result };

    /// Returns the bytes of each range, an offset and a length, in the order of the ranges.
    fn start_read_many<E: Env>(
        &mut self,
        env: &mut E,
        blob: &Self::Blob,
        ranges: &[(u64, usize)],
        options: ReadOptions,
    ) -> Result<Vec<IoBufsMut>, Error>
        requires callable { callable self.old }
        ensures lasts { (start : E) → E.lasts start env.old → E.lasts start env.new }
        ensures gives { Notes (E.noted env.old) (λ x. reads_in_order self.old blob.now ranges.now options result self.new x) (E.noted env.new) }
        ensures len { IfOk result (λ bufs. HaveLengths ranges.now bufs.items) }
        ensures spent { E.spare env.old ≤ E.spare env.new + (most + per_range * length ranges.now) }
        ensures callable { callable self.new }
        ensures counts { Counts (refusals self.old) (refusals self.new) result };

    /// Writes the bytes to the blob from `offset` on. With `SYNC` they are durable once this is done.
    fn write_at<E: Env>(
        &mut self,
        env: &mut E,
        blob: &Self::Blob,
        offset: u64,
        bufs: IoBufs,
        options: WriteOptions,
    ) -> Result<Done, Error>
        requires callable { callable self.old }
        ensures lasts { (start : E) → E.lasts start env.old → E.lasts start env.new }
        ensures gives { Notes (E.noted env.old) (λ x. writes self.old blob.now offset bufs options result self.new x) (E.noted env.new) }
        ensures spent { E.spare env.old ≤ E.spare env.new + most }
        ensures durable { KeepsWrite bytes left promised self.old blob.now offset bufs options result self.new }
        ensures given_up { LeavesWhenGivenUp bytes left promised apart opened gives_sync_up self.old blob.now options result self.new }
        ensures others { Leaves bytes left promised apart opened blob.now self.old self.new }
        ensures callable { callable self.new }
        ensures counts { CountsDone (refusals self.old) (refusals self.new) result };

    /// Cuts the blob to `len` bytes, or extends it with zeros.
    fn resize<E: Env>(&mut self, env: &mut E, blob: &Self::Blob, len: u64) -> Result<(), Error>
        requires callable { callable self.old }
        ensures lasts { (start : E) → E.lasts start env.old → E.lasts start env.new }
        ensures gives { Notes (E.noted env.old) (λ x. resizes self.old blob.now len result self.new x) (E.noted env.new) }
        ensures spent { E.spare env.old ≤ E.spare env.new + most }
        ensures durable { KeepsResize bytes self.old blob.now len result self.new }
        ensures others { Leaves bytes left promised apart opened blob.now self.old self.new }
        ensures callable { callable self.new }
        ensures counts { Counts (refusals self.old) (refusals self.new) result };

    /// Makes all changes of the blob durable.
    fn sync<E: Env>(&mut self, env: &mut E, blob: &Self::Blob) -> Result<Done, Error>
        requires callable { callable self.old }
        ensures lasts { (start : E) → E.lasts start env.old → E.lasts start env.new }
        ensures gives { Notes (E.noted env.old) (λ x. syncs self.old blob.now result self.new x) (E.noted env.new) }
        ensures spent { E.spare env.old ≤ E.spare env.new + most }
        ensures durable { KeepsSync bytes left promised self.old blob.now result self.new }
        ensures others { Leaves bytes left promised apart opened blob.now self.old self.new }
        ensures callable { callable self.new }
        ensures counts { CountsDone (refusals self.old) (refusals self.new) result };

    /// Starts a sync of the blob, and returns its ticket. Any answer that is there at once is in the ticket: the call
    /// itself is refused with `NoMemory` or `UnknownToken` alone.
    fn start_sync<E: Env>(&mut self, env: &mut E, blob: &Self::Blob) -> Result<Ticket, Error>
        requires callable { callable self.old }
        ensures lasts { (start : E) → E.lasts start env.old → E.lasts start env.new }
        ensures gives { Notes (E.noted env.old) (λ x. starts_sync self.old blob.now result self.new x) (E.noted env.new) }
        ensures spent { E.spare env.old ≤ E.spare env.new + most }
        ensures refused { StartsOrLacks result }
        ensures durable { KeepsStart bytes left promised self.old blob.now result self.new }
        ensures others { Leaves bytes left promised apart opened blob.now self.old self.new }
        ensures callable { callable self.new }
        ensures counts { CountsStart (refusals self.old) (refusals self.new) result };

    /// Polls a started sync. A `Ready` ticket stays as it is, and so does the store: the poll returns a copy of what
    /// it holds. A `Numbered` one stays as it is while the poll is pending, and is `Ready` from its answer on. Where
    /// there is no memory for the copy the poll is refused with `NoMemory`, and the ticket holds the answer still.
    fn poll_sync<E: Env>(
        &mut self,
        env: &mut E,
        ticket: &mut Ticket,
        task: u64,
    ) -> Poll<Result<(), Error>>
        requires callable { callable self.old }
        ensures lasts { (start : E) → E.lasts start env.old → E.lasts start env.new }
        ensures gives { Notes (E.noted env.old) (λ x. polls_sync self.old ticket.old task result self.new ticket.new x) (E.noted env.new) }
        ensures spent { E.spare env.old ≤ E.spare env.new + most }
        ensures ticket { PollsTicket ticket.old result ticket.new }
        ensures ready { is_numbered ticket.old ≡ false → self.new ≡ self.old }
        ensures durable { KeepsPoll bytes left promised self.old ticket.old self.new ticket.new }
        ensures one { OfOne promised apart self.old ticket.old }
        ensures others { (b : Self.Blob) → IsOf promised self.old ticket.old b → Leaves bytes left promised apart opened b self.old self.new }
        ensures callable { callable self.new }
        ensures counts { CountsPoll (refusals self.old) (refusals self.new) ticket.old ticket.new };

    /// Gives up a started sync, or a ticket that is ready, which leaves the store as it was. It takes no memory.
    fn give_up_sync(&mut self, ticket: Ticket)
        requires callable { callable self.old }
        ensures gives { gives_sync_up self.old ticket self.new }
        ensures ready { is_numbered ticket ≡ false → self.new ≡ self.old }
        ensures one { OfOne promised apart self.old ticket }
        ensures others { (b : Self.Blob) → IsOf promised self.old ticket b → Leaves bytes left promised apart opened b self.old self.new }
        ensures callable { callable self.new }
        ensures counts { refusals self.old ≤ refusals self.new };

    /// Closes the blob, whose token is spent. It takes no memory.
    fn close(&mut self, blob: Self::Blob)
        requires callable { callable self.old }
        ensures gives { closes self.old blob self.new }
        ensures others { Leaves bytes left promised apart opened blob self.old self.new }
        ensures callable { callable self.new }
        ensures counts { refusals self.old ≤ refusals self.new };

    ghost both_ways: { (s : Self) (a b : Self.Blob) → apart s a b → apart s b a };
}
