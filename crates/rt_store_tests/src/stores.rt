// What no clause says: that calls succeed where there is memory, and the worked examples.
//
// A case is a function that makes its calls and says whether they came to what is written beside them, or how many did. The functions
// are over any store where they can be, since those are proved in less time.

use crate::crashes::begins_anew;
use crate::free::Free;
use rt_base::{BlobVersion, Error, IoKind, NoEnv, NoMemory, Poll, ReadOptions, WriteOptions};
use rt_bufs::{IoBuf, IoBufMut, IoBufs, IoBufsMut};
use rt_store::{
    Blob, Done, FaultConfig, MemStore, PartialWriteMode, Storage, Ticket, WriteConfig,
    collect_reads, copy_of,
};
use std::alloc::Global;
use std::process::Abort;

/// Whether these are the same.
fn same<T: Drop + PartialEq>(seen: T, wanted: T) -> bool {
    seen == wanted
}

/// Whether a call came to this.
pub fn came<T: Drop + PartialEq, E: Drop>(answer: Result<T, E>, wanted: T) -> bool {
    match answer {
        Ok(seen) => seen == wanted,
        Err(_) => false,
    }
}

/// Whether a call was answered at all.
pub fn went<T: Drop, E: Drop>(answer: Result<T, E>) -> bool {
    answer.is_ok()
}

/// Whether a call failed so.
fn failed<T: Drop, E: Drop + PartialEq>(answer: Result<T, E>, why: E) -> bool {
    match answer {
        Ok(_) => false,
        Err(error) => error == why,
    }
}

/// A store whose calls don't fail.
pub fn memory(rt: &impl Abort, alloc: Global) -> MemStore {
    MemStore::new(alloc, FaultConfig::default()).expect(rt, "room")
}

/// Ends a store, of which this was seen.
pub fn ends(rt: &impl Abort, store: MemStore, seen: bool) {
    drop(store);
    assert!(rt; seen);
}

/// The answer of a call that is done at once.
pub fn done(answer: Result<Done, Error>) -> Result<(), Error> {
    match answer {
        Ok(Done::Now) => Ok(()),
        Ok(Done::Gated(Ticket::Ready(held))) => held,
        Ok(Done::Gated(Ticket::Numbered(_))) => Err(Error::Aborted),
        Err(error) => Err(error),
    }
}

pub fn bufs(alloc: Global, bytes: Vec<u8>) -> Result<IoBufs, NoMemory> {
    IoBufs::from_buf(alloc, IoBuf::from_vec(bytes)?)
}

/// Three bytes.
fn letters(alloc: Global) -> Result<IoBufs, NoMemory> {
    let mut bytes = Vec::new(alloc);
    bytes.extend_from_slice(b"abc")?;
    bufs(alloc, bytes)
}

/// Writes three bytes from an offset on.
pub fn write<S: Free>(
    alloc: Global,
    store: &mut S,
    blob: &S::Blob,
    offset: u64,
    options: WriteOptions,
) -> Result<(), Error> {
    let bytes = letters(alloc)?;
    done(store.write_at(&mut NoEnv, blob, offset, bytes, options))
}

pub fn writes<S: Free>(alloc: Global, store: &mut S, blob: &S::Blob, offset: u64) -> bool {
    went(write(alloc, store, blob, offset, WriteOptions::SYNC))
}

/// Whether a write there is refused so.
fn refuses<S: Free>(alloc: Global, store: &mut S, blob: &S::Blob, offset: u64, why: Error) -> bool {
    failed(write(alloc, store, blob, offset, WriteOptions::SYNC), why)
}

/// Whether buffers have these bytes.
fn hold(bufs: IoBufsMut, expected: &[u8]) -> bool {
    match bufs.coalesce() {
        Ok(buf) => buf.as_slice() == expected,
        Err(_) => false,
    }
}

/// Whether these bytes were read.
fn are(answer: Result<IoBufsMut, Error>, expected: &[u8]) -> bool {
    match answer.ok() {
        Some(bufs) => hold(bufs, expected),
        None => false,
    }
}

pub fn reads<S: Free>(
    store: &mut S,
    blob: &S::Blob,
    offset: u64,
    len: usize,
    expected: &[u8],
) -> bool {
    let answer = store.read_at(&mut NoEnv, blob, offset, len, ReadOptions::default());
    are(answer, expected)
}

/// Whether the last of four bytes are read into buffers that were made before.
fn reads_in_room<S: Free>(store: &mut S, blob: &S::Blob, room: IoBufsMut) -> bool {
    if room.capacity() < 2 {
        return false;
    }
    let answer = store.read_at_buf(&mut NoEnv, blob, 2, 2, room, ReadOptions::default());
    are(answer, b"ab")
}

fn room(alloc: Global) -> Result<IoBufsMut, NoMemory> {
    IoBufsMut::from_mut(alloc, IoBufMut::with_capacity(alloc, 2)?)
}

fn reads_in_place<S: Free>(alloc: Global, store: &mut S, blob: &S::Blob) -> bool {
    match room(alloc) {
        Ok(room) => reads_in_room(store, blob, room),
        Err(_) => false,
    }
}

pub fn syncs<S: Free>(store: &mut S, blob: &S::Blob) -> bool {
    went(done(store.sync(&mut NoEnv, blob)))
}

/// Whether a started sync is done. It is given up then.
fn polls<S: Free>(store: &mut S, mut ticket: Ticket) -> bool {
    let answer = store.poll_sync(&mut NoEnv, &mut ticket, 0);
    store.give_up_sync(ticket);
    same(answer, Poll::Ready(Ok(())))
}

fn syncs_later<S: Free>(store: &mut S, blob: &S::Blob) -> bool {
    match store.start_sync(&mut NoEnv, blob) {
        Ok(ticket) => polls(store, ticket),
        Err(_) => false,
    }
}

/// The last of four bytes.
const LAST: &[(u64, usize)] = &[(2, 2)];

/// Reads them in each way.
fn reads_last<S: Free>(alloc: Global, store: &mut S, blob: &S::Blob) -> bool {
    let placed = reads_placed(store, blob, LAST, &[b"ab"]);
    let each = reads_each(store, blob, LAST, &[b"ab"]);
    placed & each & reads_in_place(alloc, store, blob)
}

/// Writes, reads, cuts and syncs a blob.
fn changes<S: Free>(alloc: Global, store: &mut S, blob: &S::Blob) -> bool {
    let written = writes(alloc, store, blob, 2) & reads(store, blob, 0, 5, b"\0\0abc");
    let cut = went(store.resize(&mut NoEnv, blob, 4));
    let synced = syncs(store, blob) & syncs_later(store, blob);
    written & cut & synced & reads_last(alloc, store, blob)
}

/// Writes and lengths past the end of numbers, and past what there is memory for.
fn refuses_ends<S: Free>(alloc: Global, store: &mut S, blob: &S::Blob) -> bool {
    let past = refuses(alloc, store, blob, u64::MAX, Error::OffsetOverflow);
    let large = refuses(alloc, store, blob, u64::MAX - 3, Error::NoMemory);
    let long = failed(store.resize(&mut NoEnv, blob, u64::MAX), Error::NoMemory);
    let all = went(store.read_at(&mut NoEnv, blob, 0, usize::MAX, ReadOptions::default()));
    past & large & long & !all
}

fn opens_first<S: Free<Blob = Blob>>(alloc: Global, store: &mut S) -> Result<bool, Error> {
    S::take_room(&mut NoEnv, 16, 2, 0)?;
    let (blob, len) = store.open(&mut NoEnv, "p", b"a")?;
    let is_first = (blob.number() == 0) & (len == 0);
    let changed = changes(alloc, store, &blob);
    let refused = refuses_ends(alloc, store, &blob);
    store.close(blob);
    Ok(is_first & changed & refused)
}

fn opens_again<S: Free<Blob = Blob>>(store: &mut S) -> Result<bool, Error> {
    let versions = (BlobVersion::new(0), BlobVersion::new(7));
    let (blob, len, version) = store.open_versioned(&mut NoEnv, "p", b"a", versions)?;
    let is_second = (blob.number() == 1) & (len == 4) & (version.get() == 0);
    store.close(blob);
    Ok(is_second)
}

/// Lists the one blob, and removes it.
fn removes_listed<S: Free>(store: &mut S) -> bool {
    let listed = names_are(store, "p", &[b"a"]);
    listed & removes(store, "p", Some(b"a")) & names_are(store, "p", &[])
}

/// Whether a ticket has the answer that it is settled with.
fn settles() -> bool {
    let mut ticket = Ticket::Numbered(0);
    ticket.settle(Ok(()));
    match ticket {
        Ticket::Ready(held) => came(copy_of(&held), ()),
        Ticket::Numbered(_) => false,
    }
}

fn has_no_faults(store: &MemStore) -> bool {
    (*store.config() == FaultConfig::default()) & (store.injected() == 0)
}

/// The digest of one blob of a partition `p`: its name `a`, its version 0 and its bytes 0, 0, `ab`.
const DIGEST: [u8; 4] = [0x48, 0x44, 0x42, 0x9a];

/// Opens the first blob, and opens it again.
fn opens_both(alloc: Global, store: &mut MemStore) -> bool {
    let first = came(opens_first(alloc, store), true);
    let again = came(opens_again(store), true);
    first & again & has_no_faults(store) & (store.audit() == DIGEST)
}

#[test]
fn surface(rt: HostRuntime) {
    let mut faults = FaultConfig::default();
    faults.open_rate = HEIGHT;
    let mut store = MemStore::new(rt.alloc(), faults).expect(&rt, "room");
    set(&mut store, FaultConfig::default());
    let opened = opens_both(rt.alloc(), &mut store);
    let removed = removes_listed(&mut store);
    let anew = begins_anew(rt.alloc(), store);
    assert!(rt; opened & removed & settles() & anew);
}

/// A store whose writes come to this.
pub fn store_of(alloc: Global, write: WriteConfig) -> Result<MemStore, NoMemory> {
    let mut faults = FaultConfig::default();
    faults.write = write;
    MemStore::new(alloc, faults)
}

fn write_faults<S: Free>(alloc: Global, store: &mut S) -> Result<bool, Error> {
    let (blob, _) = store.open(&mut NoEnv, "p", b"a")?;
    let fault = Error::Io(IoKind::InjectedStorageFault);
    let seen = refuses(alloc, store, &blob, 0, fault);
    store.close(blob);
    Ok(seen)
}

const HEIGHT: u32 = 1_000_000;

#[test]
fn write_fault_by_rate(rt: HostRuntime) {
    let write = WriteConfig {
        rate: HEIGHT,
        keep: 0,
        partial: PartialWriteMode::Off,
    };
    let mut store = store_of(rt.alloc(), write).expect(&rt, "room");
    let seen = came(write_faults(rt.alloc(), &mut store), true);
    let injected = store.injected();
    ends(&rt, store, seen & (injected == 1));
}

/// How many of the names are found where they stand.
fn found_in_place(found: &[Vec<u8>], names: &[&[u8]]) -> usize {
    let mut right = 0_usize;
    for (found, name) in found.iter().zip(names.iter()) {
        if found.as_slice() == *name {
            right = right.wrapping_add(1);
        }
    }
    right
}

fn are_names(found: Vec<Vec<u8>>, names: &[&[u8]]) -> bool {
    let right = found_in_place(found.as_slice(), names);
    (found.len() == names.len()) & (right == names.len())
}

/// Whether the partition has exactly these names.
fn names_are<S: Free>(store: &mut S, partition: &str, names: &[&[u8]]) -> bool {
    match store.scan(&mut NoEnv, partition).ok() {
        Some(found) => are_names(found, names),
        None => false,
    }
}

/// Opens and closes a blob, and answers its length.
fn make<S: Free>(store: &mut S, partition: &str, name: &[u8]) -> Result<u64, Error> {
    let (blob, len) = store.open(&mut NoEnv, partition, name)?;
    store.close(blob);
    Ok(len)
}

/// Whether there is a blob of that name, of that length.
pub fn has<S: Free>(store: &mut S, partition: &str, name: &[u8], len: u64) -> bool {
    came(make(store, partition, name), len)
}

fn removes<S: Free>(store: &mut S, partition: &str, name: Option<&[u8]>) -> bool {
    went(store.remove(&mut NoEnv, partition, name))
}

fn lists_names<S: Free>(store: &mut S) -> bool {
    let made = has(store, "q", b"b", 0) & has(store, "q", b"a\0", 0) & has(store, "q", b"a", 0);
    let all = names_are(store, "q", &[b"a", b"a\0", b"b"]);
    made & all
}

fn removes_names<S: Free>(store: &mut S) -> bool {
    let first = removes(store, "q", Some(b"a\0")) & names_are(store, "q", &[b"a", b"b"]);
    let others = removes(store, "q", Some(b"a")) & removes(store, "q", Some(b"b"));
    first & others & names_are(store, "q", &[])
}

fn removes_partition<S: Free>(store: &mut S) -> bool {
    let removed = removes(store, "q", None);
    let more = went(store.scan(&mut NoEnv, "q"));
    removed & !more
}

#[test]
fn names_are_listed_and_removed(rt: HostRuntime) {
    let mut store = memory(&rt, rt.alloc());
    let listed = lists_names(&mut store);
    let removed = removes_names(&mut store);
    let all = removes_partition(&mut store);
    ends(&rt, store, listed & removed & all);
}

/// Removes the partition of a blob that goes on.
fn goes_on<S: Free>(alloc: Global, store: &mut S, blob: &S::Blob) -> bool {
    let removed = writes(alloc, store, blob, 0) & removes(store, "p", None);
    let before = writes(alloc, store, blob, 3) & reads(store, blob, 1, 5, b"bcabc");
    removed & before & has(store, "p", b"a", 0) & reads(store, blob, 1, 5, b"bcabc")
}

fn lives_on<S: Free>(alloc: Global, store: &mut S) -> Result<bool, Error> {
    let (blob, _) = store.open(&mut NoEnv, "p", b"a")?;
    let seen = goes_on(alloc, store, &blob);
    store.close(blob);
    Ok(seen)
}

#[test]
fn removed_blob_lives_on(rt: HostRuntime) {
    let mut store = memory(&rt, rt.alloc());
    let seen = came(lives_on(rt.alloc(), &mut store), true);
    ends(&rt, store, seen);
}

/// Whether the piece at this place is in the buffers.
fn hold_at(bufs: IoBufsMut, pieces: &[&[u8]], place: usize) -> bool {
    match pieces.get(place) {
        Some(piece) => hold(bufs, piece),
        None => false,
    }
}

/// Whether these pieces are in the buffers, in this order.
fn hold_each(all: Vec<IoBufsMut>, pieces: &[&[u8]]) -> bool {
    let mut place = 0_usize;
    let mut right = 0_usize;
    for bufs in all {
        if hold_at(bufs, pieces, place) {
            right = right.wrapping_add(1);
        }
        place = place.wrapping_add(1);
    }
    (place == pieces.len()) & (right == place)
}

fn are_all(answer: Result<Vec<IoBufsMut>, Error>, pieces: &[&[u8]]) -> bool {
    match answer.ok() {
        Some(all) => hold_each(all, pieces),
        None => false,
    }
}

fn collected(
    answer: Result<Vec<(usize, IoBufsMut)>, Error>,
    ranges: usize,
) -> Result<Vec<IoBufsMut>, Error> {
    collect_reads(answer?, ranges)
}

const RANGES: &[(u64, usize)] = &[(2, 1), (0, 0), (0, 2)];

const PIECES: &[&[u8]] = &[b"c", b"", b"ab"];

/// Whether the ranges are read with their places, and collected.
pub fn reads_placed<S: Free>(
    store: &mut S,
    blob: &S::Blob,
    ranges: &[(u64, usize)],
    pieces: &[&[u8]],
) -> bool {
    let answer = store.read_many(&mut NoEnv, blob, ranges, ReadOptions::default());
    are_all(collected(answer, ranges.len()), pieces)
}

/// Whether they are read in their order.
pub fn reads_each<S: Free>(
    store: &mut S,
    blob: &S::Blob,
    ranges: &[(u64, usize)],
    pieces: &[&[u8]],
) -> bool {
    let answer = store.start_read_many(&mut NoEnv, blob, ranges, ReadOptions::default());
    are_all(answer, pieces)
}

const TOO_LONG: &[(u64, usize)] = &[(0, 3), (0, 4), (u64::MAX, 1)];

fn refuses_ranges<S: Free>(store: &mut S, blob: &S::Blob) -> bool {
    let answer = store.read_many(&mut NoEnv, blob, TOO_LONG, ReadOptions::default());
    failed(answer, Error::BlobInsufficientLength)
}

fn reads_ranges<S: Free>(alloc: Global, store: &mut S) -> Result<bool, Error> {
    let (blob, _) = store.open(&mut NoEnv, "p", b"a")?;
    let placed = writes(alloc, store, &blob, 0) & reads_placed(store, &blob, RANGES, PIECES);
    let each = reads_each(store, &blob, RANGES, PIECES) & reads_each(store, &blob, &[], &[]);
    let refused = refuses_ranges(store, &blob);
    store.close(blob);
    Ok(placed & each & refused)
}

#[test]
fn several_ranges(rt: HostRuntime) {
    let mut store = memory(&rt, rt.alloc());
    let seen = came(reads_ranges(rt.alloc(), &mut store), true);
    ends(&rt, store, seen);
}

/// A buffer of one byte.
fn byte(alloc: Global, byte: u8) -> Result<IoBufsMut, NoMemory> {
    let mut buf = IoBufMut::with_capacity(alloc, 1)?;
    buf.clear();
    buf.put_slice(&[byte]);
    IoBufsMut::from_mut(alloc, buf)
}

fn add(
    alloc: Global,
    reads: &mut Vec<(usize, IoBufsMut)>,
    place: usize,
    number: u8,
) -> Result<(), NoMemory> {
    let bufs = byte(alloc, number)?;
    reads.push((place, bufs))?;
    Ok(())
}

/// Buffers of these places, each of which holds its number.
fn numbered(alloc: Global, places: &[usize]) -> Result<Vec<(usize, IoBufsMut)>, Error> {
    let mut reads = Vec::new(alloc);
    let mut number = b'0';
    for place in places {
        add(alloc, &mut reads, *place, number)?;
        number = number.wrapping_add(1);
    }
    Ok(reads)
}

fn collect(alloc: Global, places: &[usize], ranges: usize) -> Result<Vec<IoBufsMut>, Error> {
    collected(numbered(alloc, places), ranges)
}

/// Places of buffers, and how many ranges there are.
type Places = (&'static [usize], usize);

/// How many of these lack a buffer, or have one too many.
fn fail_each(alloc: Global, each: &[Places]) -> usize {
    let mut right = 0_usize;
    for (places, ranges) in each {
        if failed(collect(alloc, places, *ranges), Error::ReadFailed) {
            right = right.wrapping_add(1);
        }
    }
    right
}

const INCOMPLETE: &[Places] = &[(&[1, 1], 2), (&[0, 2, 1], 2), (&[0], usize::MAX)];

#[test]
fn collected_reads(rt: HostRuntime) {
    let last = are_all(collect(rt.alloc(), &[1, 0, 1], 2), &[b"1", b"2"]);
    assert!(rt; last & (fail_each(rt.alloc(), INCOMPLETE) == 3));
}

/// Gives the store other settings.
pub fn set(store: &mut MemStore, faults: FaultConfig) {
    *store.config_mut() = faults;
}

/// Reads that may fault.
fn read_each<S: Free>(alloc: Global, store: &mut S, blob: &S::Blob) {
    drop(store.read_at(&mut NoEnv, blob, 0, 0, ReadOptions::default()));
    drop(store.read_many(&mut NoEnv, blob, &[], ReadOptions::default()));
    drop(store.start_read_many(&mut NoEnv, blob, &[], ReadOptions::default()));
    if let Ok(room) = room(alloc) {
        drop(store.read_at_buf(&mut NoEnv, blob, 0, 0, room, ReadOptions::default()));
    }
}

/// Changes that may fault.
fn change_each<S: Free>(alloc: Global, store: &mut S, blob: &S::Blob) {
    let _ = writes(alloc, store, blob, 0);
    drop(store.resize(&mut NoEnv, blob, 3));
    let _ = syncs(store, blob);
    let _ = syncs_later(store, blob);
}

/// Calls by name that may fault.
fn name_each<S: Free>(store: &mut S) {
    drop(store.scan(&mut NoEnv, "p"));
    drop(make(store, "p", b"b"));
    drop(store.remove(&mut NoEnv, "p", Some(b"b")));
}

/// Makes a blob, and opens another.
fn opened<S: Free>(store: &mut S) -> Result<S::Blob, Error> {
    make(store, "p", b"b")?;
    let (blob, _) = store.open(&mut NoEnv, "p", b"a")?;
    Ok(blob)
}

/// Makes each of these calls, and closes the blob.
fn call_each<S: Free>(alloc: Global, store: &mut S, blob: S::Blob) {
    read_each(alloc, store, &blob);
    change_each(alloc, store, &blob);
    name_each(store);
    store.close(blob);
}

/// How many of these calls fault.
fn faults_of(alloc: Global, store: &mut MemStore, faults: FaultConfig) -> Result<u64, Error> {
    let blob = opened(store)?;
    set(store, faults);
    call_each(alloc, store, blob);
    Ok(store.injected())
}

fn faults_in(alloc: Global, mut store: MemStore, faults: FaultConfig, count: u64) -> bool {
    let seen = came(faults_of(alloc, &mut store, faults), count);
    drop(store);
    seen
}

fn has_faults(alloc: Global, faults: FaultConfig, count: u64) -> bool {
    match MemStore::new(alloc, FaultConfig::default()).ok() {
        Some(store) => faults_in(alloc, store, faults, count),
        None => false,
    }
}

/// The rates of the calls by name, one after the other.
fn faults_by_name(alloc: Global) -> bool {
    let mut faults = FaultConfig::default();
    let none = has_faults(alloc, faults, 0);
    faults.open_rate = HEIGHT;
    let open = has_faults(alloc, faults, 1);
    faults.scan_rate = HEIGHT;
    let scan = has_faults(alloc, faults, 2);
    faults.remove_rate = HEIGHT;
    none & open & scan & has_faults(alloc, faults, 3)
}

/// The rates of the calls on bytes, one after the other.
fn faults_on_bytes(alloc: Global) -> bool {
    let mut faults = FaultConfig::default();
    faults.read_rate = HEIGHT;
    let read = has_faults(alloc, faults, 4);
    faults.sync_rate = HEIGHT;
    let sync = has_faults(alloc, faults, 6);
    faults.write.rate = HEIGHT;
    let write = has_faults(alloc, faults, 7);
    faults.resize.rate = HEIGHT;
    read & sync & write & has_faults(alloc, faults, 8)
}

#[test]
fn each_rate_at_its_height(rt: HostRuntime) {
    let names = faults_by_name(rt.alloc());
    assert!(rt; names & faults_on_bytes(rt.alloc()));
}
