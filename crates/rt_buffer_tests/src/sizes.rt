// Many bytes, chunks, and syncs that are held back.

use crate::buffers::{
    bufs, came, done, memory, opened, put, put_bufs, same, showing, start, synced, went,
};
use crate::delayed::{delayed, started};
use crate::free::Free;
use crate::waiting::{polls_twice, waiting};
use rt_base::{Error, NoEnv, NoMemory, Poll};
use rt_buffer::{
    DelayedSyncContext, PendingSyncs, Read, Step, Write, release_next_pending_syncs,
    release_pending_syncs,
};
use rt_bufs::IoBufs;
use rt_store::{Storage, Ticket};
use std::alloc::Global;

const MEBIBYTE: usize = 1_048_576;

/// Writes a mebibyte into a tip that has room for it, syncs it, and answers what the writer has before that.
fn write_large<S: Free>(alloc: Global, store: &mut S) -> Result<u64, Error> {
    let mut bytes = Vec::new(alloc);
    bytes.resize(MEBIBYTE, 7)?;
    let (blob, len) = store.open(&mut NoEnv, "p", b"a")?;
    let writer = Write::new(alloc, blob, len, MEBIBYTE);
    let writer = put(alloc, store, writer, 0, bytes.as_slice())?;
    let size = writer.size();
    synced(store, writer)?.close(store);
    Ok(size)
}

/// Reads a mebibyte by one buffer, but for its last bytes: how many were read and are held.
fn read_large<S: Free>(alloc: Global, store: &mut S) -> Result<usize, Error> {
    let (blob, len) = store.open(&mut NoEnv, "p", b"a")?;
    let mut reader = Read::new(alloc, blob, len, MEBIBYTE);
    let first = reader.read(store, &mut NoEnv, 1);
    let held = reader.buffer_remaining();
    reader.close(store);
    Ok(first?.len().wrapping_add(held))
}

#[test]
fn sizes(rt: HostRuntime) {
    let mut store = memory(&rt, rt.alloc());
    let written = came(write_large(rt.alloc(), &mut store), 1_048_576);
    let read = came(read_large(rt.alloc(), &mut store), MEBIBYTE);
    drop(store);
    assert!(rt; written & read);
}

/// How many chunks are written, and syncs held back, at once.
const MANY: usize = 1_000;

/// So many bytes, of which those beside each other differ.
fn many_bytes(alloc: Global) -> Result<Vec<u8>, NoMemory> {
    let mut bytes = Vec::new(alloc);
    for number in 0..MANY {
        bytes.push((number % 251) as u8)?;
    }
    Ok(bytes)
}

/// Each of these bytes in a chunk of its own.
fn chunks_of(alloc: Global, bytes: &[u8]) -> Result<IoBufs, NoMemory> {
    let mut chunks = IoBufs::new(alloc);
    for byte in bytes {
        chunks.append_all(bufs(alloc, &[*byte])?)?;
    }
    Ok(chunks)
}

/// Writes each byte in a chunk of its own, from the start of the blob on.
fn put_chunks<S: Free>(alloc: Global, store: &mut S, writer: Write<S>, bytes: &[u8]) -> Step<S> {
    put_bufs(store, writer, 0, chunks_of(alloc, bytes), 1)
}

/// Whether many chunks are written at once.
fn writes_chunks<S: Free>(alloc: Global, store: &mut S) -> Result<bool, Error> {
    let bytes = many_bytes(alloc)?;
    let writer = opened(alloc, store, b"a")?;
    let step = put_chunks(alloc, store, writer, bytes.as_slice());
    let writer = done(store, step)?;
    showing(store, writer, bytes.as_slice())?.close(store);
    Ok(true)
}

/// Writes them behind a sync that is held.
fn wait_with_chunks<S: Free>(alloc: Global, store: &mut S, bytes: &[u8]) -> Result<Step<S>, Error> {
    let writer = opened(alloc, store, b"a")?;
    let writer = put(alloc, store, writer, 0, b"ab")?;
    let (writer, _) = start(store, writer)?;
    Ok(put_chunks(alloc, store, writer, bytes))
}

/// Whether many chunks wait for it, and are written once it is released.
fn waits_with_chunks<S: Free>(
    alloc: Global,
    store: &mut DelayedSyncContext<S>,
) -> Result<bool, Error> {
    let bytes = many_bytes(alloc)?;
    let step = wait_with_chunks(alloc, store, bytes.as_slice())?;
    match waiting(store, step) {
        Some(op) => Ok(polls_twice(store, op, bytes.as_slice())),
        None => Ok(false),
    }
}

#[test]
fn a_thousand_chunks(rt: HostRuntime) {
    let mut store = memory(&rt, rt.alloc());
    let at_once = came(writes_chunks(rt.alloc(), &mut store), true);
    drop(store);
    let mut store = delayed(rt.alloc()).expect(&rt, "room");
    let behind = came(waits_with_chunks(rt.alloc(), &mut store), true);
    drop(store.into_inner());
    assert!(rt; at_once & behind);
}

/// The task that polls the sync of a number: the later the sync was started, the lower is its task.
fn task_of(number: usize) -> u64 {
    let last = MANY as u64;
    last.saturating_sub(number as u64)
}

/// The number of a ticket.
fn number_of(ticket: Ticket) -> Option<u64> {
    match ticket {
        Ticket::Numbered(number) => Some(number),
        Ticket::Ready(held) => {
            drop(held);
            None
        }
    }
}

/// Whether the sync of this number answers so.
fn polls<S: Free>(store: &mut S, number: usize, wanted: Poll<Result<(), Error>>) -> bool {
    let mut ticket = Ticket::Numbered(number as u64);
    let polled = store.poll_sync(&mut NoEnv, &mut ticket, task_of(number));
    let _ = number_of(ticket);
    same(polled, wanted)
}

/// The number of a sync that is started.
fn started_number<S: Free>(store: &mut S, blob: &S::Blob) -> Option<u64> {
    number_of(started(store, blob)?)
}

/// Whether a sync that is started gets this number, and is pending.
fn starts<S: Free>(store: &mut S, blob: &S::Blob, number: usize) -> bool {
    let found = started_number(store, blob);
    (found == Some(number as u64)) & polls(store, number, Poll::Pending)
}

/// How many syncs are started and pending.
fn starts_each<S: Free>(store: &mut S, blob: &S::Blob) -> usize {
    let mut right = 0_usize;
    for number in 0..MANY {
        if starts(store, blob, number) {
            right = right.wrapping_add(1);
        }
    }
    right
}

/// How many syncs are done.
fn ends_each<S: Free>(store: &mut S) -> usize {
    let mut right = 0_usize;
    for number in 0..MANY {
        if polls(store, number, Poll::Ready(Ok(()))) {
            right = right.wrapping_add(1);
        }
    }
    right
}

/// How many of these are the tasks of the syncs from a number on, in the order of their starts.
fn in_order(tasks: &[u64], first: usize) -> usize {
    let mut number = first;
    let mut right = 0_usize;
    for task in tasks {
        if *task == task_of(number) {
            right = right.wrapping_add(1);
        }
        number = number.wrapping_add(1);
    }
    right
}

/// Whether so many tasks are woken, those of the syncs from a number on.
fn wakes(tasks: Result<Vec<u64>, NoMemory>, first: usize, count: usize) -> bool {
    match tasks {
        Ok(tasks) => (tasks.len() == count) & (in_order(tasks.as_slice(), first) == count),
        Err(_) => false,
    }
}

/// Whether the first 400 are released, and then the others.
fn releases(pending: &mut PendingSyncs) -> bool {
    if pending.len() < 400 {
        return false;
    }
    let first = wakes(release_next_pending_syncs(pending, 400), 0, 400);
    first & wakes(release_pending_syncs(pending), 400, 600)
}

/// Whether many syncs are held at once, and all are done once they are released.
fn holds_many<S: Free>(store: &mut DelayedSyncContext<S>) -> Result<bool, Error> {
    let (blob, _) = store.open(&mut NoEnv, "p", b"a")?;
    let changed = went(store.resize(&mut NoEnv, &blob, 1));
    let held = starts_each(store, &blob) == MANY;
    let released = releases(store.pending_mut());
    let ended = ends_each(store) == MANY;
    store.close(blob);
    Ok(changed & held & released & ended)
}

#[test]
fn a_thousand_syncs(rt: HostRuntime) {
    let mut store = delayed(rt.alloc()).expect(&rt, "room");
    let seen = came(holds_many(&mut store), true);
    let done = store.pending().completions();
    let inner = store.into_inner();
    let draws = inner.crash_draws();
    drop(inner);
    assert!(rt; seen & (done == 1_000) & (draws == 0));
}
