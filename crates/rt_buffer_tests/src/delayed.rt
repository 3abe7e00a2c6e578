// Stores whose syncs a test holds back: the worked examples, and each call once.

use crate::buffers::{bufs, came, opened, polls, put, same, start, went};
use crate::free::Free;
use rt_base::{Error, IoKind, NoEnv, NoMemory, Poll, WriteOptions};
use rt_buffer::{
    DelayedSyncContext, PendingSyncs, SyncHandle, Write, drive_pending_syncs, fail_pending_syncs,
    next_pending_sync, release_next_pending_syncs, release_pending_syncs,
};
use rt_store::{Done, FaultConfig, MemStore, Storage, Ticket};
use std::alloc::Global;

type Delayed = DelayedSyncContext<MemStore>;

/// A store in memory whose syncs are held back.
pub fn delayed(alloc: Global) -> Result<Delayed, NoMemory> {
    let inner = MemStore::new(alloc, FaultConfig::default())?;
    Ok(DelayedSyncContext::new(alloc, inner))
}

/// Whether so many syncs were started, polled and done, and so many are held.
fn counts(pending: &PendingSyncs, starts: u64, entered: u64, done: u64, held: usize) -> bool {
    let first = (pending.starts() == starts) & (pending.entered() == entered);
    let queued = (pending.len() == held) & (pending.is_empty() == (held == 0));
    first & (pending.completions() == done) & queued
}

/// Whether a sync that was started is pending, and done once it is released.
fn polls_twice<S: Free>(
    store: &mut DelayedSyncContext<S>,
    mut writer: Write<DelayedSyncContext<S>>,
    handle: SyncHandle,
) -> bool {
    let begun = counts(store.pending(), 1, 0, 0, 1);
    let held = polls(store, &mut writer, handle, Poll::Pending);
    let waits = counts(store.pending(), 1, 1, 0, 1);
    drop(release_pending_syncs(store.pending_mut()));
    let released = polls(store, &mut writer, handle, Poll::Ready(Ok(())));
    writer.close(store);
    begun & held & waits & released & counts(store.pending(), 1, 1, 1, 0)
}

/// Writes `ab` and starts a sync.
fn put_and_start<S: Free>(alloc: Global, store: &mut S) -> Result<(Write<S>, SyncHandle), Error> {
    let writer = opened(alloc, store, b"a")?;
    let writer = put(alloc, store, writer, 0, b"ab")?;
    start(store, writer)
}

fn holds_started<S: Free>(alloc: Global, store: &mut DelayedSyncContext<S>) -> Result<bool, Error> {
    let (writer, handle) = put_and_start(alloc, store)?;
    Ok(polls_twice(store, writer, handle))
}

#[test]
fn started_sync_is_held(rt: HostRuntime) {
    let mut store = delayed(rt.alloc()).expect(&rt, "room");
    let seen = came(holds_started(rt.alloc(), &mut store), true);
    let inner = store.into_inner();
    let draws = inner.crash_draws();
    drop(inner);
    assert!(rt; seen & (draws == 0));
}

/// Polls a ticket.
pub fn poll<S: Free>(store: &mut S, ticket: &mut Ticket) -> Poll<Result<(), Error>> {
    store.poll_sync(&mut NoEnv, ticket, 3)
}

/// Polls a ticket and gives it up.
pub fn poll_and_end<S: Free>(store: &mut S, mut ticket: Ticket) -> Poll<Result<(), Error>> {
    let polled = poll(store, &mut ticket);
    store.give_up_sync(ticket);
    polled
}

/// A store whose syncs are held back, over one that counts those that reach it.
type Counted = DelayedSyncContext<Delayed>;

fn counted(alloc: Global) -> Result<Counted, NoMemory> {
    Ok(DelayedSyncContext::new(alloc, delayed(alloc)?))
}

/// Whether durability calls are counted from then on, and none is held.
fn counts_calls(pending: &mut PendingSyncs) -> bool {
    let armed = arms(pending);
    went(pending.unblock()) & armed
}

/// Whether so many syncs reached the inner store, and a crash would draw so many numbers.
fn reached(inner: &Delayed, calls: u64, draws: usize) -> bool {
    (inner.pending().calls() == calls) & (inner.inner().crash_draws() == draws)
}

/// Whether a durability call was made that is held, and no sync reached the inner store by then; and whether it is done by one once it
/// is released.
fn releases_gate(store: &mut Counted, ticket: Ticket) -> bool {
    let held = (store.pending().calls() == 1) & reached(store.inner(), 0, 2);
    drop(release_pending_syncs(store.pending_mut()));
    let done = same(poll_and_end(store, ticket), Poll::Ready(Ok(())));
    held & done & reached(store.inner(), 1, 0)
}

/// The ticket behind which a change is held.
pub fn gate_of(answer: Result<Done, Error>) -> Option<Ticket> {
    match answer.ok()? {
        Done::Gated(ticket) => Some(ticket),
        Done::Now => None,
    }
}

/// The ticket of a durable write of `c`, where a gate holds it.
pub fn write_gated<S: Free>(alloc: Global, store: &mut S, blob: &S::Blob) -> Option<Ticket> {
    let bytes = bufs(alloc, b"c").ok()?;
    gate_of(store.write_at(&mut NoEnv, blob, 0, bytes, WriteOptions::SYNC))
}

fn gates_write(alloc: Global, store: &mut Counted) -> Result<bool, Error> {
    let (blob, _) = store.open(&mut NoEnv, "p", b"a")?;
    let seen = match write_gated(alloc, store, &blob) {
        Some(ticket) => releases_gate(store, ticket),
        None => false,
    };
    store.close(blob);
    Ok(seen)
}

#[test]
fn gated_write(rt: HostRuntime) {
    let mut store = counted(rt.alloc()).expect(&rt, "room");
    let armed = counts_calls(store.inner_mut().pending_mut()) & arms(store.pending_mut());
    let seen = came(gates_write(rt.alloc(), &mut store), true);
    drop(store.into_inner().into_inner());
    assert!(rt; armed & seen);
}

/// Whether durability calls are counted from then on, which weren't.
pub fn arms(pending: &mut PendingSyncs) -> bool {
    if pending.is_armed() {
        return false;
    }
    pending.arm().is_ok()
}

/// Releases what is held: one by one, with a failure, or for good with one.
#[derive(Clone, Copy)]
enum Release {
    First,
    Taken,
    Failure,
    Unblock,
    Drive,
}

/// How many tasks were woken.
fn woken(tasks: Result<Vec<u64>, NoMemory>) -> usize {
    match tasks {
        Ok(tasks) => tasks.len(),
        Err(_) => 0,
    }
}

/// Releases the first one.
fn release_first(pending: &mut PendingSyncs) -> usize {
    if pending.len() == 0 {
        return 1;
    }
    woken(release_next_pending_syncs(pending, 1))
}

/// Takes the first one out of the queue, and releases it with an error: one task is woken, the third.
fn take_first(pending: &mut PendingSyncs) -> usize {
    if pending.len() == 0 {
        return 0;
    }
    let sync = next_pending_sync(pending);
    let is_blocked = sync.is_blocked(pending);
    let task = sync.release(pending, Err(Error::Closed));
    if is_blocked & (task == Some(3)) { 1 } else { 0 }
}

/// Passes a pending poll on, which releases all.
fn drive(pending: &mut PendingSyncs) -> usize {
    let polled: Result<Poll<()>, NoMemory> = drive_pending_syncs(pending, Poll::Pending);
    match polled {
        Ok(Poll::Pending) => 1,
        Ok(Poll::Ready(())) | Err(_) => 0,
    }
}

/// Releases all for good, with a failure.
fn unblock(pending: &mut PendingSyncs) -> usize {
    pending.arm_fail();
    woken(pending.unblock())
}

fn release_by(pending: &mut PendingSyncs, how: Release) -> usize {
    match how {
        Release::First => release_first(pending),
        Release::Taken => take_first(pending),
        Release::Failure => woken(fail_pending_syncs(pending)),
        Release::Unblock => unblock(pending),
        Release::Drive => drive(pending),
    }
}

/// Whether one task is woken by a release, and the sync answers so then.
fn releases<S: Free>(
    store: &mut DelayedSyncContext<S>,
    mut ticket: Ticket,
    how: Release,
    wanted: SyncEnd,
) -> bool {
    drop(poll(store, &mut ticket));
    let woken = release_by(store.pending_mut(), how);
    same(poll_and_end(store, ticket), polled(wanted)) & (woken == 1)
}

/// The ticket of a started sync.
pub fn started<S: Free>(store: &mut S, blob: &S::Blob) -> Option<Ticket> {
    store.start_sync(&mut NoEnv, blob).ok()
}

fn starts_and_releases<S: Free>(
    store: &mut DelayedSyncContext<S>,
    how: Release,
    wanted: SyncEnd,
) -> Result<bool, Error> {
    let (blob, _) = store.open(&mut NoEnv, "p", b"b")?;
    let seen = match started(store, &blob) {
        Some(ticket) => releases(store, ticket, how, wanted),
        None => false,
    };
    store.close(blob);
    Ok(seen)
}

/// What a sync answers.
#[derive(Clone, Copy)]
enum SyncEnd {
    Done,
    Closed,
    Failure,
    Unknown,
}

fn polled(answer: SyncEnd) -> Poll<Result<(), Error>> {
    match answer {
        SyncEnd::Done => Poll::Ready(Ok(())),
        SyncEnd::Closed => Poll::Ready(Err(Error::Closed)),
        SyncEnd::Failure => Poll::Ready(Err(Error::Io(IoKind::InjectedSyncFailure))),
        SyncEnd::Unknown => Poll::Ready(Err(Error::UnknownToken)),
    }
}

const RELEASES: &[(Release, SyncEnd)] = &[
    (Release::First, SyncEnd::Done),
    (Release::Taken, SyncEnd::Closed),
    (Release::Failure, SyncEnd::Failure),
    (Release::Drive, SyncEnd::Done),
    (Release::Unblock, SyncEnd::Failure),
    // Nothing holds it, and it fails.
    (Release::First, SyncEnd::Failure),
];

/// Whether each call on what is held goes once.
pub fn calls_on_pending<S: Free>(store: &mut DelayedSyncContext<S>) -> bool {
    let none = counts(store.pending(), 0, 0, 0, 0);
    let armed = arms(store.pending_mut()) & (store.pending().calls() == 0);
    let unblocked = came(
        starts_and_releases(store, Release::Unblock, SyncEnd::Failure),
        true,
    );
    none & armed & unblocked & counts(store.pending(), 1, 1, 0, 0)
}

/// How many releases, one after the other, come to what is written.
fn releases_each<S: Free>(store: &mut DelayedSyncContext<S>, each: &[(Release, SyncEnd)]) -> usize {
    let mut right = 0_usize;
    for (how, wanted) in each {
        if came(starts_and_releases(store, *how, *wanted), true) {
            right = right.wrapping_add(1);
        }
    }
    right
}

#[test]
fn each_release(rt: HostRuntime) {
    let mut store = delayed(rt.alloc()).expect(&rt, "room");
    let seen = releases_each(&mut store, RELEASES);
    drop(store.into_inner());
    assert!(rt; seen == 6);
}

/// Whether a released sync is done, its number is refused once it was answered, and the blob is open after two more ends of it.
fn polls_again<S: Free>(
    store: &mut DelayedSyncContext<S>,
    blob: &<DelayedSyncContext<S> as Storage>::Blob,
    ticket: Ticket,
) -> bool {
    drop(release_pending_syncs(store.pending_mut()));
    let first = same(poll_and_end(store, ticket), polled(SyncEnd::Done));
    let second = same(
        poll_and_end(store, Ticket::Numbered(0)),
        polled(SyncEnd::Unknown),
    );
    store.give_up_sync(Ticket::Numbered(0));
    first & second & went(store.resize(&mut NoEnv, blob, 1))
}

fn starts_and_polls_again<S: Free>(store: &mut DelayedSyncContext<S>) -> Result<bool, Error> {
    let (blob, _) = store.open(&mut NoEnv, "p", b"c")?;
    let seen = match started(store, &blob) {
        Some(ticket) => polls_again(store, &blob, ticket),
        None => false,
    };
    store.close(blob);
    Ok(seen)
}

#[test]
fn answered_ticket_is_out(rt: HostRuntime) {
    let mut store = delayed(rt.alloc()).expect(&rt, "room");
    let seen = came(starts_and_polls_again(&mut store), true);
    let done = store.pending().completions();
    drop(store.into_inner());
    assert!(rt; seen & (done == 1));
}
