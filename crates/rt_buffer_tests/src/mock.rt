// The stores that a test lets fail: the worked examples, and each call once.

use crate::buffers::{
    RESIZES, bufs, came, closed, cut_text, is_now, is_refused, look_over, opened, put, read_text,
    resize_text, resizes_each, same, start_syncs, synced, takes_tip, went, write_text,
};
use crate::delayed::{calls_on_pending, delayed, poll_and_end, started};
use crate::durable::save_two;
use crate::free::Free;
use rt_base::{
    DEFAULT_BLOB_VERSION, Error, IoKind, NoEnv, NoMemory, Poll, ReadOptions, WriteOptions,
};
use rt_buffer::{SyncFaultContext, Write, WriteFaultContext};
use rt_bufs::IoBufsMut;
use rt_store::{FaultConfig, MemStore, Storage};
use std::alloc::Global;

fn write_faults(alloc: Global) -> Result<WriteFaultContext<MemStore>, NoMemory> {
    let inner = MemStore::new(alloc, FaultConfig::default())?;
    Ok(WriteFaultContext::new(inner))
}

/// Writes `ab` and syncs, and then `c`.
fn write_both<S: Free>(alloc: Global, store: &mut S) -> Result<Write<S>, Error> {
    let writer = opened(alloc, store, b"a")?;
    let writer = put(alloc, store, writer, 0, b"ab")?;
    let writer = synced(store, writer)?;
    put(alloc, store, writer, 2, b"c")
}

/// Whether the sync of a writer fails so.
fn sync_fails<S: Free>(store: &mut S, writer: Write<S>, why: Error) -> bool {
    let answer = synced(store, writer);
    is_refused(store, answer, why)
}

/// Whether the sync of a writer is done.
fn syncs<S: Free>(store: &mut S, writer: Write<S>) -> bool {
    let answer = synced(store, writer);
    went(closed(store, answer))
}

/// Writes `ab`, and whether its sync fails where each sync of a store in memory does.
fn fails_first(alloc: Global, store: &mut WriteFaultContext<MemStore>) -> Result<bool, Error> {
    store.inner.config_mut().sync_rate = 1_000_000;
    let writer = opened(alloc, store, b"a")?;
    let writer = put(alloc, store, writer, 0, b"ab")?;
    Ok(sync_fails(store, writer, Error::Io(IoKind::InjectedStorageFault)))
}

// The first write isn't durable: it was written, and a crash would decide over it.
#[test]
fn first_write_is_plain(rt: HostRuntime) {
    let mut store = write_faults(rt.alloc()).expect(&rt, "room");
    let fails = came(fails_first(rt.alloc(), &mut store), true);
    let plain = (store.faults.writes() == 1) & (store.inner.crash_draws() == 2);
    drop(store);
    assert!(rt; fails & plain);
}

/// Whether the sync of both is done, where each sync of a store in memory fails before the last, and a durable write doesn't.
fn writes_once(alloc: Global, store: &mut WriteFaultContext<MemStore>) -> Result<bool, Error> {
    let writer = write_both(alloc, store)?;
    store.inner.config_mut().sync_rate = 1_000_000;
    Ok(syncs(store, writer))
}

#[test]
fn one_durable_write(rt: HostRuntime) {
    let mut store = write_faults(rt.alloc()).expect(&rt, "room");
    let once = came(writes_once(rt.alloc(), &mut store), true);
    let durable = (store.faults.writes() == 2) & (store.inner.crash_draws() == 0);
    drop(store);
    assert!(rt; once & durable);
}

/// Whether a sync fails where writes fail from then on.
fn fails_armed<S: Free>(alloc: Global, store: &mut WriteFaultContext<S>) -> Result<bool, Error> {
    let writer = write_both(alloc, store)?;
    store.faults.arm();
    let failure = Error::Io(IoKind::InjectedWriteFailure);
    Ok(sync_fails(store, writer, failure) & (store.faults.writes() == 1))
}

/// Whether a sync of a new writer is done.
fn syncs_new<S: Free>(alloc: Global, store: &mut S, name: &[u8]) -> Result<bool, Error> {
    let writer = opened(alloc, store, name)?;
    Ok(syncs(store, writer))
}

#[test]
fn armed_write_fails(rt: HostRuntime) {
    let mut store = write_faults(rt.alloc()).expect(&rt, "room");
    let armed = came(fails_armed(rt.alloc(), &mut store), true);
    store.faults.disarm();
    // The blob was closed.
    let disarmed = came(syncs_new(rt.alloc(), &mut store, b"a"), true);
    drop(store);
    assert!(rt; armed & disarmed);
}

/// What the ticket of a started sync answers.
fn polled<S: Free>(store: &mut S, blob: &S::Blob) -> Poll<Result<(), Error>> {
    match started(store, blob) {
        Some(ticket) => poll_and_end(store, ticket),
        None => Poll::Pending,
    }
}

/// Whether a sync of a blob is done at once.
fn is_synced<S: Free>(store: &mut S, blob: &S::Blob) -> bool {
    let answer = store.sync(&mut NoEnv, blob);
    is_now(store, answer)
}

/// Whether a sync of a new blob of a partition is done at once, and what a started one answers.
fn syncs_in<S: Free>(
    store: &mut S,
    partition: &str,
) -> Result<(bool, Poll<Result<(), Error>>), Error> {
    let (blob, _) = store.open(&mut NoEnv, partition, b"a")?;
    let now = is_synced(store, &blob);
    let polled = polled(store, &blob);
    store.close(blob);
    Ok((now, polled))
}

fn failure() -> Error {
    Error::Io(IoKind::InjectedPartitionSyncFault)
}

/// Whether the syncs of the failing partition fail.
fn fails_in_partition<S: Free>(alloc: Global, store: &mut S) -> Result<bool, Error> {
    let (now, polled) = syncs_in(store, "p")?;
    let fails = same(polled, Poll::Ready(Err(failure())));
    let (blob, len) = store.open(&mut NoEnv, "p", b"b")?;
    let writer = Write::new(alloc, blob, len, 16);
    Ok(!now & fails & sync_fails(store, writer, failure()))
}

/// Whether both syncs of a new blob of another partition are done.
fn syncs_both<S: Free>(store: &mut S) -> Result<bool, Error> {
    let (now, polled) = syncs_in(store, "q")?;
    Ok(same(polled, Poll::Ready(Ok(()))) & now)
}

/// Whether those of another one don't.
fn syncs_in_other<S: Free>(alloc: Global, store: &mut S) -> Result<bool, Error> {
    let both = syncs_both(store)?;
    let (blob, len) = store.open(&mut NoEnv, "q", b"b")?;
    let writer = Write::new(alloc, blob, len, 16);
    Ok(both & syncs(store, writer))
}

/// A store whose syncs of one partition fail.
fn sync_faults(alloc: Global, partition: &str) -> Result<SyncFaultContext<MemStore>, NoMemory> {
    let mut fail_partition = String::new(alloc);
    fail_partition.push_str(partition)?;
    let inner = MemStore::new(alloc, FaultConfig::default())?;
    Ok(SyncFaultContext::new(inner, fail_partition))
}

#[test]
fn partition_sync_fails(rt: HostRuntime) {
    let mut store = sync_faults(rt.alloc(), "p").expect(&rt, "room");
    let fails = came(fails_in_partition(rt.alloc(), &mut store), true);
    let others = came(syncs_in_other(rt.alloc(), &mut store), true);
    let refusals = store.refusals;
    drop(store);
    assert!(rt; fails & others & (refusals == 3));
}

/// Writes `abc` and cuts it to `ab`.
fn writes_two<S: Free>(alloc: Global, store: &mut S, blob: &S::Blob) -> Result<bool, Error> {
    let bytes = bufs(alloc, b"abc")?;
    let written = store.write_at(&mut NoEnv, blob, 0, bytes, WriteOptions::default());
    let now = is_now(store, written);
    Ok(went(store.resize(&mut NoEnv, blob, 2)) & now)
}

/// Reads both bytes, and again into the same buffers.
fn reads_two<S: Free>(store: &mut S, blob: &S::Blob) -> Result<bool, Error> {
    let none = ReadOptions::default();
    let room = store.read_at(&mut NoEnv, blob, 0, 2, none)?;
    if room.capacity() < 2 {
        return Ok(false);
    }
    Ok(went(store.read_at_buf(&mut NoEnv, blob, 0, 2, room, none)))
}

const EACH: &[(u64, usize)] = &[(0, 1), (1, 1)];

const WHOLE: &[(u64, usize)] = &[(0, 2)];

/// How many pieces two reads of several ranges give.
fn reads_pieces<S: Free>(
    store: &mut S,
    blob: &S::Blob,
    each: &[(u64, usize)],
    whole: &[(u64, usize)],
) -> Result<usize, Error> {
    let none = ReadOptions::default();
    let some: Vec<(usize, IoBufsMut)> = store.read_many(&mut NoEnv, blob, each, none)?;
    let all: Vec<IoBufsMut> = store.start_read_many(&mut NoEnv, blob, whole, none)?;
    Ok(some.len().wrapping_add(all.len()))
}

/// Whether each call on a blob, but for those of syncs, goes once.
fn calls_on<S: Free>(alloc: Global, store: &mut S, blob: &S::Blob) -> bool {
    let changed = came(writes_two(alloc, store, blob), true);
    let read = came(reads_two(store, blob), true);
    changed & read & came(reads_pieces(store, blob, EACH, WHOLE), 3)
}

/// Whether one name is found, and removed.
fn finds_one<S: Free>(store: &mut S) -> Result<bool, Error> {
    let found = store.scan(&mut NoEnv, "p")?.len();
    Ok(went(store.remove(&mut NoEnv, "p", None)) & (found == 1))
}

/// Whether each call of a store over another one, but for those of syncs, goes once.
fn calls_of<S: Free>(alloc: Global, store: &mut S) -> Result<bool, Error> {
    S::take_room(&mut NoEnv, 4, 3, 0)?;
    let versions = (DEFAULT_BLOB_VERSION, DEFAULT_BLOB_VERSION);
    let (blob, _, _) = store.open_versioned(&mut NoEnv, "p", b"a", versions)?;
    let read = calls_on(alloc, store, &blob);
    store.close(blob);
    Ok(came(finds_one(store), true) & read)
}

/// Whether each call of a tip goes once.
fn calls_of_tip(alloc: Global) -> bool {
    takes_tip(alloc) & (resizes_each(alloc, RESIZES) == 6)
}

/// Whether each call of a writer and its handles goes once.
fn calls_of_writer(alloc: Global, store: &mut MemStore) -> bool {
    let resized = came(resize_text(alloc, store), true) & came(look_over(alloc, store), true);
    let started = came(start_syncs(alloc, store), true) & came(save_two(alloc, store), true);
    resized & started & went(write_text(alloc, store))
}

/// Whether each call of a reader goes once.
fn calls_of_reader<S: Free>(alloc: Global, store: &mut S) -> bool {
    came(read_text(alloc, store), true) & came(cut_text(alloc, store), true)
}

/// Whether each call of a store whose writes a test lets fail goes once.
fn calls_of_write_faults(alloc: Global) -> Result<bool, NoMemory> {
    let mut store = write_faults(alloc)?;
    let called = came(calls_of(alloc, &mut store), true) & came(syncs_both(&mut store), true);
    drop(store);
    Ok(called)
}

/// Whether each call of a store whose syncs a test lets fail goes once.
fn calls_of_sync_faults(alloc: Global) -> Result<bool, NoMemory> {
    let mut store = sync_faults(alloc, "")?;
    let called = came(calls_of(alloc, &mut store), true);
    drop(store);
    Ok(called)
}

/// Whether each call of a store that holds syncs back goes once, and over the store behind it each of a writer and a reader.
fn calls_of_delayed(alloc: Global) -> Result<bool, NoMemory> {
    let mut store = delayed(alloc)?;
    let called = came(calls_of(alloc, &mut store), true) & calls_on_pending(&mut store);
    let mut inner = store.into_inner();
    let behind = calls_of_writer(alloc, &mut inner) & calls_of_reader(alloc, &mut inner);
    drop(inner);
    Ok(called & behind)
}

#[test]
fn surface(rt: HostRuntime) {
    assert!(rt; came(calls_of_write_faults(rt.alloc()), true));
    assert!(rt; came(calls_of_sync_faults(rt.alloc()), true));
    assert!(rt; came(calls_of_delayed(rt.alloc()), true) & calls_of_tip(rt.alloc()));
}
