// The store in memory.
ghost use Rattle.std.specs.Prelude.{◌≡◌, ◌+◌, ◌*◌, ◌<◌, ◌≤◌, ◌++◌, ℕ, List, [], length, IfOk, IfSome, vec_len, vec_capacity, ⊤};
ghost use Rattle.std.specs.Borrow.{sem};
ghost use Rattle.std.specs.Option.{option_copied};
ghost use Rattle.rt_base.specs.Counted.{counted, Counts, Notes};
ghost use Rattle.rt_hasher.specs.Digest.{fields_digest};
ghost use Rattle.rt_store.specs.Answered.{CountsStart, StartsOrLacks};
ghost use Rattle.rt_store.specs.Audit.{audit_fields};
ghost use Rattle.rt_store.specs.Calls.{IsNow, KeepsRoom, Reads, ReadsMany, ReadsInOrder, Writes, Resizes, Syncs, Saves, Opens, Removes, Scans, IsOpened, started, default_range, blob_of, many_refusal, with_blob, after_write, after_resize, after_sync, after_open, after_remove, without_blob, without_blobs, open_refusal};
ghost use Rattle.rt_base.specs.declared.choice.Choice.{Choice};
ghost use Rattle.rt_store.specs.Changes.{end_of};
ghost use Rattle.rt_store.specs.Crash.{ChoosesAll};
ghost use Rattle.rt_store.specs.Directory.{named_numbers};
ghost use Rattle.rt_store.specs.Draws.{Answers, if_ok};
ghost use Rattle.rt_store.specs.File.{mutated};
ghost use Rattle.rt_store.specs.Kept.{empty_store, injected_by, moved_to};
ghost use Rattle.rt_store.specs.Leading.{IsCoherent};
ghost use Rattle.rt_store.specs.Reading.{HaveLengths, HavePlacedLengths, IsWhole, bytes_of, ranges_of};
ghost use Rattle.rt_store.specs.Store.{content_at, count_later, end_refusal, refusal_at};
ghost use Rattle.rt_store.specs.Whole.{after_admit, after_crash, snapshot_of, store_of};

use crate::auditing::audit_all;
use crate::blob::Blob;
use crate::directory::Directory;
use crate::faults::FaultConfig;
use crate::files::Files;
use crate::finding::find;
use crate::mutation::Mutation;
use crate::opening::{is_partition_name, reopen, text_of};
use crate::reading::{read_ranges, with_places};
use crate::snapshot::Snapshot;
use crate::storage::Storage;
use crate::store::{draw, range_of, take_draw};
use crate::ticket::{Done, Ticket, copy_of};
use rt_base::{
    BlobVersion, Choice, DEFAULT_BLOB_VERSION, Env, Error, NoMemory, Poll, ReadOptions,
    WriteOptions,
};
use rt_bufs::{IoBufMut, IoBufs, IoBufsMut};
use rt_hasher::AuditHasher;
use std::alloc::Global;
use std::marker::Model;

/// The most changes that a crash may have to decide over; a further one is out of memory.
const MOST_CHANGES: usize = 4_611_686_018_427_387_904;

/// A store of blobs in memory, with what a crash would leave of each.
///
/// Contracts see the whole store, the fault settings, and the counts of faults and of refusals. Each name leads to a
/// blob that is there, and no two to the same one.
///
/// Errors, in the order in which they are tested; after an error nothing has changed but the counts:
/// - `open_versioned`, `open`: `PartitionNameInvalid`, `BlobAlreadyOpen`, `BlobVersionMismatch`, `Io`.
/// - `remove`, `scan`: `PartitionNameInvalid`, `PartitionMissing`, for a name `BlobMissing`, then `Io`.
/// - reads: `UnknownToken`, then for each range `OffsetOverflow` and `BlobInsufficientLength`, then `Io`.
/// - `write_at`, `resize`: `UnknownToken`, `OffsetOverflow`, `Io`.
/// - `sync`, `start_sync`: `UnknownToken`, `Io`, which `start_sync` leaves in the ticket.
/// - `poll_sync`: `UnknownToken` for a ticket with a number, since this store makes none.
/// - `NoMemory` from any of them; then nothing was drawn.
///
/// `Io` comes exactly where a number that is drawn is below the rate. A write with `SYNC` is durable at once where no
/// earlier change is open; any other change is kept for a crash to decide. The bytes of a removed blob live on by its
/// token.
#[derive(Drop)]
pub struct MemStore {
    directory: Directory,
    files: Files,
    opened: u64,
    later: usize,
    faults: FaultConfig,
    injected: u64,
    refusals: u64,
    alloc: Global,
}

impl Model for MemStore {
    ghost use Rattle.std.specs.Prelude.{◌≡◌, ◌≤◌, ◌^◌};
    ghost use Rattle.rt_store.specs.Kept.{Kept};
    ghost use Rattle.rt_store.specs.Leading.{LeadToBlobs, removals};
    ghost use Rattle.rt_store.specs.Store.{count_later};

    ghost Value = { Kept };

    ghost view = { λ m. record { state = record { directory = m.directory; files = m.files; opened = m.opened }; faults = m.faults; injected = m.injected; refusals = m.refusals } };

    ghost invariant = { λ m. (m.later ≡ count_later m.files) × (m.later ≤ 2 ^ 62) × LeadToBlobs m.directory (removals m.files) };
}

impl MemStore {
    ghost use Rattle.rt_store.specs.Lent.{LendsFaults};

    /// Makes an empty store with these fault settings.
    #[tactic(auto, using(crate::proofs::Leading::no_blobs))]
    pub fn new(alloc: Global, faults: FaultConfig) -> Result<MemStore, NoMemory>
        ensures { IfOk result (λ store. store ≡ empty_store faults) }
    {
        Ok(MemStore {
            directory: Directory::new(alloc),
            files: Files::new(alloc),
            opened: 0,
            later: 0,
            faults,
            injected: 0,
            refusals: 0,
            alloc,
        })
    }

    /// Makes a store with the blobs of a snapshot, in which no token is live and nothing was refused yet.
    pub fn from_snapshot(snapshot: Snapshot, faults: FaultConfig) -> MemStore
        ensures value { result ≡ store_of snapshot faults }
        ensures names { IsCoherent snapshot }
    {
        let Snapshot {
            directory,
            files,
            opened,
            later,
            alloc,
        } = snapshot;
        MemStore {
            directory,
            files,
            opened,
            later,
            faults,
            injected: 0,
            refusals: 0,
            alloc,
        }
    }

    /// Takes the blobs and their names out of the store, with no live token. The number of the next token is kept, so
    /// a token from before is never taken for one of a later store. It takes no memory.
    #[tactic(auto, using(crate::proofs::Counting::count_closed, crate::proofs::Leading::keeps_all_closed))]
    pub fn snapshot(self) -> Snapshot
        ensures value { result ≡ snapshot_of self.state }
        ensures names { IsCoherent result }
    {
        let MemStore {
            directory,
            mut files,
            opened,
            later,
            faults: _,
            injected: _,
            refusals: _,
            alloc,
        } = self;
        files.close_all();
        Snapshot {
            directory,
            files,
            opened,
            later,
            alloc,
        }
    }

    /// Returns the fault settings.
    pub fn config(&self) -> &FaultConfig
        ensures { result.now ≡ self.now.faults }
    {
        &self.faults
    }

    /// Returns the fault settings, to change them.
    pub fn config_mut(&mut self) -> &mut FaultConfig
        ensures* writes_back { sem 𝓛 (LendsFaults self.entry result) }
        ensures value { result.now ≡ self.old.faults }
    {
        &mut self.faults
    }

    /// Returns how many numbers a crash draws at most: two for each change that it decides over. The count is kept,
    /// so nothing is walked.
    pub fn crash_draws(&self) -> usize
        ensures value { result ≡ 2 * count_later self.now.state.files }
        ensures names { IsCoherent self.now.state }
    {
        2 * self.later
    }

    /// Leaves of each blob that has a name what a crash leaves: its durable bytes, and on them each later change as
    /// far as it is kept. Partitions, names and changes are gone through in order, with one choice for each change.
    /// It adds the choices to the list, and takes no memory: its caller took the room for draws and choices.
    #[tactic(auto, using(crate::proofs::Leading::keeps_crashed))]
    pub fn crash<E: Env>(&mut self, env: &mut E, choices: &mut Vec<Choice>)
        requires draws { 2 * count_later self.old.state.files ≤ E.spare env.old }
        requires places { vec_len choices.old + count_later self.old.state.files ≤ vec_capacity choices.old }
        ensures lasts { (start : E) → E.lasts start env.old → E.lasts start env.new }
        ensures gives { (cs : List Choice) × ChoosesAll self.old.faults (named_numbers self.old.state.directory) self.old.state.files cs (E.noted env.old) (E.noted env.new) × (choices.new.items ≡ choices.old.items ++ cs) × (self.new ≡ moved_to self.old (after_crash self.old.state cs)) }
        ensures spent { E.spare env.old ≤ E.spare env.new + 2 * count_later self.old.state.files }
        ensures places { vec_capacity choices.new ≡ vec_capacity choices.old }
    {
        let fewer = self
            .directory
            .crash(&mut self.files, env, &self.faults, choices);
        self.later -= fewer;
    }

    /// Makes all changes of the blob of a name durable, if there is one. It takes no memory.
    #[tactic(auto, using(crate::proofs::Leading::keeps_admitted))]
    pub fn admit(&mut self, partition: &str, name: &[u8])
        ensures { self.new ≡ moved_to self.old (after_admit self.old.state partition.now name.now) }
    {
        if let Some(place) = self.directory.number_of(partition.as_bytes(), name) {
            let fewer = self.files.admit(place);
            self.later -= fewer;
        }
    }

    /// Returns the digest of all blobs that weren't removed: the checksum of the fields partition, name, version as
    /// two bytes and content of each, in the order of partitions and names.
    pub fn audit(&self) -> [u8; 4]
        ensures digest { result ≡ fields_digest (audit_fields self.now.state) }
        ensures names { IsCoherent self.now.state }
    {
        let mut hasher = AuditHasher::new();
        audit_all(&self.directory, &self.files, &mut hasher);
        hasher.finalize()
    }

    /// Returns how many faults were injected.
    pub fn injected(&self) -> u64
        ensures { result ≡ self.now.injected }
    {
        self.injected
    }

    // Counts an answer.
    fn count<V>(&mut self, answer: &Result<V, Error>)
        ensures value { self.new ≡ record self.old { injected = injected_by self.old.injected answer.now; refusals = counted self.old.refusals answer.now } }
        ensures counts { Counts self.old.refusals self.new.refusals answer.now }
    {
        match answer {
            Ok(_) | Err(Error::NoMemory) => {}
            Err(Error::Io(_)) => {
                self.injected = self.injected.saturating_add(1);
                self.refusals = self.refusals.saturating_add(1);
            }
            Err(_) => self.refusals = self.refusals.saturating_add(1),
        }
    }

    // Reads bytes into a buffer that has room for them.
    fn read_into<E: Env>(
        &self,
        env: &mut E,
        blob: &Blob,
        offset: u64,
        len: usize,
        bufs: Option<IoBufsMut>,
    ) -> Result<IoBufsMut, Error>
        requires { IfSome bufs (λ b. len ≤ b.capacity) }
        ensures lasts { (start : E) → E.lasts start env.old → E.lasts start env.new }
        ensures room { IfSome bufs (λ b. KeepsRoom b result) }
        ensures len { IfOk result (λ b. length b.bytes ≡ len) }
        ensures gives { Notes (E.noted env.old) (Reads self.now blob.now offset len result) (E.noted env.new) }
        ensures spent { E.spare env.old ≤ E.spare env.new + 1 }
    {
        let rate = self.faults.read_rate;
        take_draw(env, rate)?;
        let Some(file) = self.files.at(blob) else {
            return Err(Error::UnknownToken);
        };
        let bytes = range_of(file.content(), offset, len)?;
        let mut buf = match bufs {
            Some(bufs) => bufs.coalesce()?,
            None => IoBufMut::with_capacity(self.alloc, len)?,
        };
        buf.clear();
        buf.put_slice(bytes);
        let bufs = IoBufsMut::from_mut(self.alloc, buf)?;
        match draw(env, rate) {
            Ok(()) => Ok(bufs),
            Err(error) => {
                drop(bufs);
                Err(error)
            }
        }
    }

    // The bytes of several ranges, with no draw.
    fn ranges_at(&self, blob: &Blob, ranges: &[(u64, usize)]) -> Result<Vec<IoBufsMut>, Error>
        ensures gives { Answers (refusal_at (blob_of self.now blob.now) (many_refusal ranges.now)) 0 (λ bufs. bytes_of bufs.items ≡ ranges_of ranges.now (content_at (blob_of self.now blob.now))) result [] }
        ensures len { IfOk result (λ bufs. HaveLengths ranges.now bufs.items) }
    {
        match self.files.at(blob) {
            Some(file) => read_ranges(self.alloc, file.content(), ranges),
            None => Err(Error::UnknownToken),
        }
    }

    // Reads several ranges.
    fn read_ranges<E: Env>(
        &self,
        env: &mut E,
        blob: &Blob,
        ranges: &[(u64, usize)],
    ) -> Result<Vec<IoBufsMut>, Error>
        ensures lasts { (start : E) → E.lasts start env.old → E.lasts start env.new }
        ensures gives { Notes (E.noted env.old) (ReadsInOrder self.now blob.now ranges.now result) (E.noted env.new) }
        ensures len { IfOk result (λ bufs. HaveLengths ranges.now bufs.items) }
        ensures spent { E.spare env.old ≤ E.spare env.new + 1 }
    {
        let rate = self.faults.read_rate;
        take_draw(env, rate)?;
        let bufs = self.ranges_at(blob, ranges)?;
        match draw(env, rate) {
            Ok(()) => Ok(bufs),
            Err(error) => {
                drop(bufs);
                Err(error)
            }
        }
    }

    // Reads several ranges, each with its place.
    fn read_placed<E: Env>(
        &self,
        env: &mut E,
        blob: &Blob,
        ranges: &[(u64, usize)],
    ) -> Result<Vec<(usize, IoBufsMut)>, Error>
        ensures lasts { (start : E) → E.lasts start env.old → E.lasts start env.new }
        ensures gives { Notes (E.noted env.old) (ReadsMany self.now blob.now ranges.now result) (E.noted env.new) }
        ensures whole { IfOk result (λ reads. IsWhole (length ranges.now) reads.items) }
        ensures each { IfOk result (λ reads. length reads.items ≡ length ranges.now) }
        ensures len { IfOk result (λ reads. HavePlacedLengths ranges.now reads.items) }
        ensures spent { E.spare env.old ≤ E.spare env.new + 1 }
    {
        let rate = self.faults.read_rate;
        take_draw(env, rate)?;
        let bufs = self.ranges_at(blob, ranges)?;
        let reads = with_places(self.alloc, bufs)?;
        match draw(env, rate) {
            Ok(()) => Ok(reads),
            Err(error) => {
                drop(reads);
                Err(error)
            }
        }
    }

    // Writes bytes.
    fn write<E: Env>(
        &mut self,
        env: &mut E,
        blob: &Blob,
        offset: u64,
        bufs: IoBufs,
        options: WriteOptions,
    ) -> Result<Done, Error>
        ensures lasts { (start : E) → E.lasts start env.old → E.lasts start env.new }
        ensures now { IfOk result IsNow }
        ensures gives { Notes (E.noted env.old) (Writes self.old blob.now offset bufs.bytes result) (E.noted env.new) }
        ensures after { self.new ≡ moved_to self.old (if_ok result (after_write self.old blob.now offset bufs.bytes options) self.old.state) }
        ensures spent { E.spare env.old ≤ E.spare env.new + 1 }
    {
        let rate = self.faults.write.rate;
        let Ok(()) = take_draw(env, rate) else {
            drop(bufs);
            return Err(Error::NoMemory);
        };
        let mutation = Mutation::Write {
            at: offset as usize,
            bytes: bufs.coalesce()?,
            durable: options.contains(WriteOptions::SYNC),
        };
        self.change(env, blob, rate, mutation)?;
        Ok(Done::Now)
    }

    // Changes the length.
    fn set_len<E: Env>(&mut self, env: &mut E, blob: &Blob, len: u64) -> Result<(), Error>
        ensures lasts { (start : E) → E.lasts start env.old → E.lasts start env.new }
        ensures gives { Notes (E.noted env.old) (Resizes self.old blob.now len result) (E.noted env.new) }
        ensures after { self.new ≡ moved_to self.old (if_ok result (after_resize self.old blob.now len) self.old.state) }
        ensures spent { E.spare env.old ≤ E.spare env.new + 1 }
    {
        let rate = self.faults.resize.rate;
        take_draw(env, rate)?;
        let mutation = Mutation::Resize { len: len as usize };
        self.change(env, blob, rate, mutation)
    }

    // Changes a blob.
    #[tactic(auto, using(crate::proofs::Leading::keeps_mutated))]
    fn change<E: Env>(
        &mut self,
        env: &mut E,
        blob: &Blob,
        rate: u32,
        mutation: Mutation,
    ) -> Result<(), Error>
        requires { 0 < rate → 0 < E.spare env.old }
        ensures lasts { (start : E) → E.lasts start env.old → E.lasts start env.new }
        ensures gives { Notes (E.noted env.old) (Answers (refusal_at (blob_of self.old blob.now) (end_refusal (end_of mutation))) rate (λ _. ⊤) result) (E.noted env.new) }
        ensures after { self.new ≡ moved_to self.old (if_ok result (with_blob self.old blob.now (mutated mutation)) self.old.state) }
        ensures spent { E.spare env.old ≤ E.spare env.new + 1 }
    {
        if self.later >= MOST_CHANGES {
            drop(mutation);
            return Err(Error::NoMemory);
        }
        let more = self.files.mutate(env, blob, rate, mutation)?;
        self.later += more;
        Ok(())
    }

    // Syncs a blob: its base becomes its content.
    #[tactic(auto, using(crate::proofs::Leading::keeps_synced))]
    fn save<E: Env>(&mut self, env: &mut E, blob: &Blob) -> Result<(), Error>
        ensures lasts { (start : E) → E.lasts start env.old → E.lasts start env.new }
        ensures gives { Notes (E.noted env.old) (Saves self.old blob.now result) (E.noted env.new) }
        ensures after { self.new ≡ moved_to self.old (if_ok result (after_sync self.old blob.now) self.old.state) }
        ensures spent { E.spare env.old ≤ E.spare env.new + 1 }
    {
        let rate = self.faults.sync_rate;
        take_draw(env, rate)?;
        if self.files.at(blob).is_none() {
            return Err(Error::UnknownToken);
        }
        draw(env, rate)?;
        let fewer = self.files.sync(blob);
        self.later -= fewer;
        Ok(())
    }

    // Syncs a blob, with the answer of a call that may wait.
    fn save_now<E: Env>(&mut self, env: &mut E, blob: &Blob) -> Result<Done, Error>
        ensures lasts { (start : E) → E.lasts start env.old → E.lasts start env.new }
        ensures now { IfOk result IsNow }
        ensures gives { Notes (E.noted env.old) (Syncs self.old blob.now result) (E.noted env.new) }
        ensures after { self.new ≡ moved_to self.old (if_ok result (after_sync self.old blob.now) self.old.state) }
        ensures spent { E.spare env.old ≤ E.spare env.new + 1 }
    {
        self.save(env, blob)?;
        Ok(Done::Now)
    }

    // Opens a blob of the default version, or makes it.
    fn open_default<E: Env>(
        &mut self,
        env: &mut E,
        partition: &str,
        name: &[u8],
    ) -> Result<(Blob, u64), Error>
        ensures lasts { (start : E) → E.lasts start env.old → E.lasts start env.new }
        ensures gives { Notes (E.noted env.old) (Opens self.old partition.now name.now result) (E.noted env.new) }
        ensures after { self.new ≡ moved_to self.old (if_ok result (after_open self.old.state partition.now name.now default_range) self.old.state) }
        ensures spent { E.spare env.old ≤ E.spare env.new + 1 }
    {
        let versions = (DEFAULT_BLOB_VERSION, DEFAULT_BLOB_VERSION);
        let (blob, len, _) = self.open_blob(env, partition, name, versions)?;
        Ok((blob, len))
    }

    // Removes a blob, or a partition.
    fn take_away<E: Env>(
        &mut self,
        env: &mut E,
        partition: &str,
        name: Option<&[u8]>,
    ) -> Result<(), Error>
        ensures lasts { (start : E) → E.lasts start env.old → E.lasts start env.new }
        ensures gives { Notes (E.noted env.old) (Removes self.old partition.now (option_copied name.entry) result) (E.noted env.new) }
        ensures after { self.new ≡ moved_to self.old (if_ok result (after_remove self.old.state partition.now (option_copied name.entry)) self.old.state) }
        ensures spent { E.spare env.old ≤ E.spare env.new + 1 }
    {
        let rate = self.faults.remove_rate;
        take_draw(env, rate)?;
        find(self.alloc, env, rate, &self.directory, partition, name)?;
        match name {
            Some(name) => self.remove_blob(partition.as_bytes(), name),
            None => self.remove_partition(partition.as_bytes()),
        }
        Ok(())
    }

    // Removes a blob by its name.
    #[tactic(auto, using(crate::proofs::Leading::keeps_unnamed))]
    fn remove_blob(&mut self, partition: &[u8], name: &[u8])
        ensures { self.new ≡ moved_to self.old (without_blob self.old.state partition.now name.now) }
    {
        if let Some(place) = self.directory.number_of(partition, name) {
            self.directory.unname(partition, name);
            let fewer = self.files.detach(place);
            self.later -= fewer;
        }
    }

    // Removes a partition with all its blobs.
    #[tactic(auto, using(crate::proofs::Leading::keeps_without))]
    fn remove_partition(&mut self, partition: &[u8])
        ensures { self.new ≡ moved_to self.old (without_blobs self.old.state partition.now) }
    {
        if let Some(names) = self.directory.names_in(partition) {
            let fewer = self.files.detach_all(names);
            self.later -= fewer;
        }
        self.directory.remove(partition);
    }

    // The names of a partition.
    #[tactic(auto, using(crate::proofs::Named::none_ascend))]
    fn list<E: Env>(&self, env: &mut E, partition: &str) -> Result<Vec<Vec<u8>>, Error>
        ensures lasts { (start : E) → E.lasts start env.old → E.lasts start env.new }
        ensures gives { Notes (E.noted env.old) (Scans self.now partition.now result) (E.noted env.new) }
        ensures spent { E.spare env.old ≤ E.spare env.new + 1 }
    {
        let rate = self.faults.scan_rate;
        take_draw(env, rate)?;
        // The copies come first: a call that is out of memory draws nothing.
        let names = match self.directory.names_in(partition.as_bytes()) {
            Some(names) => names.list(self.alloc)?,
            None => Vec::new(self.alloc),
        };
        find(self.alloc, env, rate, &self.directory, partition, None)?;
        Ok(names)
    }

    // Opens a blob that is there, or makes it.
    #[tactic(auto, using(crate::proofs::Leading::named_there, crate::proofs::Leading::keeps_token, crate::proofs::Leading::keeps_named))]
    fn open_blob<E: Env>(
        &mut self,
        env: &mut E,
        partition: &str,
        name: &[u8],
        versions: (BlobVersion, BlobVersion),
    ) -> Result<(Blob, u64, BlobVersion), Error>
        ensures lasts { (start : E) → E.lasts start env.old → E.lasts start env.new }
        ensures gives { Notes (E.noted env.old) (Answers (open_refusal self.old.state partition.now name.now versions) self.old.faults.open_rate (IsOpened self.old.state partition.now name.now versions) result) (E.noted env.new) }
        ensures after { self.new ≡ moved_to self.old (if_ok result (after_open self.old.state partition.now name.now versions) self.old.state) }
        ensures spent { E.spare env.old ≤ E.spare env.new + 1 }
    {
        let rate = self.faults.open_rate;
        take_draw(env, rate)?;
        let number = self.opened;
        let Some(next) = number.checked_add(1) else {
            return Err(Error::NoMemory);
        };
        if !is_partition_name(partition.as_bytes()) {
            return Err(Error::PartitionNameInvalid(text_of(self.alloc, partition)?));
        }
        if let Some(place) = self.directory.number_of(partition.as_bytes(), name) {
            let file = self.files.get(place);
            let (len, version) = reopen(self.alloc, env, rate, file, partition, name, versions)?;
            self.files.set_token(place, number);
            self.opened = next;
            return Ok((Blob { number, place }, len, version));
        }
        let place = self.files.len() as u64;
        self.files.add(versions.1, number)?;
        match self
            .directory
            .name(env, rate, partition.as_bytes(), name, place)
        {
            Ok(()) => {
                self.opened = next;
                Ok((Blob { number, place }, 0, versions.1))
            }
            Err(error) => {
                self.files.take_back();
                Err(error)
            }
        }
    }
}

// The ticket of a sync that was answered.
fn started(answer: Result<(), Error>) -> Result<Ticket, Error>
    ensures ticket { result ≡ started answer }
    ensures refused { StartsOrLacks result }
    ensures counts { (old new : ℕ) → Counts old new answer → CountsStart old new result }
{
    match answer {
        Ok(()) => Ok(Ticket::Ready(Ok(()))),
        Err(Error::NoMemory) => Err(Error::NoMemory),
        Err(Error::UnknownToken) => Err(Error::UnknownToken),
        Err(error) => Ok(Ticket::Ready(Err(error))),
    }
}

impl Storage for MemStore {
    type Blob = Blob;

    ghost use Rattle.std.specs.Prelude.{◌≡◌, [], Result};
    ghost use Rattle.rt_base.specs.declared.error.Error.{Error};
    ghost use Rattle.rt_store.specs.Calls.{KeepsRoom, Reads, ReadsMany, ReadsInOrder, Writes, Resizes, Syncs, Saves, Opens, OpensVersioned, Removes, Scans, PollsSync, started, after_write, after_resize, after_sync, after_open, after_remove, after_poll, polled_ticket, default_range, with_blob};
    ghost use Rattle.rt_store.specs.File.{closed};
    ghost use Rattle.rt_store.specs.Kept.{answered, moved_to};
    ghost use Rattle.rt_store.specs.Memory.{memory_apart, memory_bytes, memory_left, memory_opened, memory_promised};
    ghost use Rattle.std.proofs.Common.{sym};

    ghost refusals = { λ v. v.refusals };

    ghost bytes = { memory_bytes };

    ghost left = { memory_left };

    ghost promised = { memory_promised };

    ghost apart = { memory_apart };

    ghost opened = { memory_opened };

    ghost both_ways = { λ v k j other same. other (sym same) };

    ghost most = { 1 };

    ghost per_range = { 0 };

    ghost opens_versioned = { λ v p n versions r w x. OpensVersioned v p n versions r x × (w ≡ answered v (after_open v.state p n versions) r) };

    ghost opens = { λ v p n r w x. Opens v p n r x × (w ≡ answered v (after_open v.state p n default_range) r) };

    ghost removes = { λ v p n r w x. Removes v p n r x × (w ≡ answered v (after_remove v.state p n) r) };

    ghost scans = { λ v p r w x. Scans v p r x × (w ≡ answered v v.state r) };

    ghost reads = { λ v k offset len options r w x. Reads v k offset len r x × (w ≡ answered v v.state r) };

    ghost reads_into = { λ v k offset len bufs options r w x. Reads v k offset len r x × KeepsRoom bufs r × (w ≡ answered v v.state r) };

    ghost reads_many = { λ v k rs options r w x. ReadsMany v k rs r x × (w ≡ answered v v.state r) };

    ghost reads_in_order = { λ v k rs options r w x. ReadsInOrder v k rs r x × (w ≡ answered v v.state r) };

    ghost writes = { λ v k offset b options r w x. Writes v k offset b.bytes r x × (w ≡ answered v (after_write v k offset b.bytes options) r) };

    ghost resizes = { λ v k len r w x. Resizes v k len r x × (w ≡ answered v (after_resize v k len) r) };

    ghost syncs = { λ v k r w x. Syncs v k r x × (w ≡ answered v (after_sync v k) r) };

    ghost starts_sync = { λ v k r w x. (s : Result Unit Error) × Saves v k s x × (r ≡ started s) × (w ≡ answered v (after_sync v k) s) };

    ghost polls_sync = { λ v t task p w u x. PollsSync t p × (w ≡ after_poll v t) × (u ≡ polled_ticket t) × (x ≡ []) };

    ghost gives_sync_up = { λ v t w. w ≡ v };

    ghost closes = { λ v k w. w ≡ moved_to v (with_blob v k closed) };

    fn take_room<E: Env>(
        env: &mut E,
        calls: usize,
        ranges: usize,
        more: usize,
    ) -> Result<(), NoMemory> {
        let _ = ranges;
        let Some(entries) = more.checked_add(calls) else {
            return Err(NoMemory);
        };
        env.reserve(entries)
    }

    fn open_versioned<E: Env>(
        &mut self,
        env: &mut E,
        partition: &str,
        name: &[u8],
        versions: (BlobVersion, BlobVersion),
    ) -> Result<(Blob, u64, BlobVersion), Error> {
        let answer = self.open_blob(env, partition, name, versions);
        self.count(&answer);
        answer
    }

    fn open<E: Env>(
        &mut self,
        env: &mut E,
        partition: &str,
        name: &[u8],
    ) -> Result<(Blob, u64), Error> {
        let answer = self.open_default(env, partition, name);
        self.count(&answer);
        answer
    }

    fn remove<E: Env>(
        &mut self,
        env: &mut E,
        partition: &str,
        name: Option<&[u8]>,
    ) -> Result<(), Error> {
        let answer = self.take_away(env, partition, name);
        self.count(&answer);
        answer
    }

    fn scan<E: Env>(&mut self, env: &mut E, partition: &str) -> Result<Vec<Vec<u8>>, Error> {
        let answer = self.list(env, partition);
        self.count(&answer);
        answer
    }

    fn read_at<E: Env>(
        &mut self,
        env: &mut E,
        blob: &Blob,
        offset: u64,
        len: usize,
        options: ReadOptions,
    ) -> Result<IoBufsMut, Error> {
        let _ = options;
        let answer = self.read_into(env, blob, offset, len, None);
        self.count(&answer);
        answer
    }

    fn read_at_buf<E: Env>(
        &mut self,
        env: &mut E,
        blob: &Blob,
        offset: u64,
        len: usize,
        bufs: IoBufsMut,
        options: ReadOptions,
    ) -> Result<IoBufsMut, Error> {
        let _ = options;
        let answer = self.read_into(env, blob, offset, len, Some(bufs));
        self.count(&answer);
        answer
    }

    fn read_many<E: Env>(
        &mut self,
        env: &mut E,
        blob: &Blob,
        ranges: &[(u64, usize)],
        options: ReadOptions,
    ) -> Result<Vec<(usize, IoBufsMut)>, Error> {
        let _ = options;
        let answer = self.read_placed(env, blob, ranges);
        self.count(&answer);
        answer
    }

    fn start_read_many<E: Env>(
        &mut self,
        env: &mut E,
        blob: &Blob,
        ranges: &[(u64, usize)],
        options: ReadOptions,
    ) -> Result<Vec<IoBufsMut>, Error> {
        let _ = options;
        let answer = self.read_ranges(env, blob, ranges);
        self.count(&answer);
        answer
    }

    #[tactic(auto, using(crate::proofs::Gated::counts_done))]
    fn write_at<E: Env>(
        &mut self,
        env: &mut E,
        blob: &Blob,
        offset: u64,
        bufs: IoBufs,
        options: WriteOptions,
    ) -> Result<Done, Error> {
        let answer = self.write(env, blob, offset, bufs, options);
        self.count(&answer);
        answer
    }

    fn resize<E: Env>(&mut self, env: &mut E, blob: &Blob, len: u64) -> Result<(), Error> {
        let answer = self.set_len(env, blob, len);
        self.count(&answer);
        answer
    }

    #[tactic(auto, using(crate::proofs::Gated::counts_done))]
    fn sync<E: Env>(&mut self, env: &mut E, blob: &Blob) -> Result<Done, Error> {
        let answer = self.save_now(env, blob);
        self.count(&answer);
        answer
    }

    fn start_sync<E: Env>(&mut self, env: &mut E, blob: &Blob) -> Result<Ticket, Error> {
        let answer = self.save(env, blob);
        self.count(&answer);
        started(answer)
    }

    #[tactic(auto, using(crate::proofs::Kept::polls_keep, crate::proofs::Kept::still_leaves, crate::proofs::Kept::of_none))]
    fn poll_sync<E: Env>(
        &mut self,
        env: &mut E,
        ticket: &mut Ticket,
        task: u64,
    ) -> Poll<Result<(), Error>> {
        let _ = env;
        let _ = task;
        match ticket {
            Ticket::Ready(held) => Poll::Ready(copy_of(held)),
            Ticket::Numbered(_) => {
                let answer = Err(Error::UnknownToken);
                self.count(&answer);
                ticket.settle(Err(Error::UnknownToken));
                Poll::Ready(answer)
            }
        }
    }

    #[tactic(auto, using(crate::proofs::Kept::still_leaves, crate::proofs::Kept::of_none))]
    fn give_up_sync(&mut self, ticket: Ticket) {
        let _ = &self.faults;
        match ticket {
            Ticket::Ready(_) | Ticket::Numbered(_) => {}
        }
    }

    #[tactic(auto, using(crate::proofs::Leading::keeps_closed))]
    fn close(&mut self, blob: Blob) {
        self.files.close(&blob);
        let Blob {
            number: _,
            place: _,
        } = blob;
    }
}
