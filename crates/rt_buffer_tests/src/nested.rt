// A store that holds syncs back over another one: the tickets of the inner one.

use crate::buffers::{came, same, went};
use crate::delayed::{arms, gate_of, poll, started, write_gated};
use crate::free::Free;
use rt_base::{Error, IoKind, NoEnv, NoMemory, Poll};
use rt_buffer::{DelayedSyncContext, PendingSyncs, fail_pending_syncs, release_pending_syncs};
use rt_store::{FaultConfig, MemStore, Storage, Ticket};
use std::alloc::Global;

type Nested = DelayedSyncContext<DelayedSyncContext<MemStore>>;

/// How a sync ends. All but the last were released by the outer store, and are held by the inner one.
#[derive(Clone, Copy, PartialEq)]
enum End {
    Released,
    Failed,
    Faulty,
    GivenUp,
    GivenUpHeld,
}

/// What the poll behind the inner store's release answers.
fn answer(end: End) -> Poll<Result<(), Error>> {
    match end {
        End::Released => Poll::Ready(Ok(())),
        End::Failed => Poll::Ready(Err(Error::Io(IoKind::InjectedSyncFailure))),
        End::Faulty => Poll::Ready(Err(Error::Io(IoKind::InjectedStorageFault))),
        End::GivenUp | End::GivenUpHeld => Poll::Pending,
    }
}

/// An end, how many syncs are done by it, and how many calls the outer store, the inner one and the one in memory refused.
type Expected = (End, u64, u64, u64, u64);

const ENDS: &[Expected] = &[
    (End::Released, 1, 0, 0, 0),
    (End::Failed, 0, 0, 1, 0),
    (End::Faulty, 0, 0, 0, 1),
    (End::GivenUp, 0, 0, 0, 0),
    (End::GivenUpHeld, 0, 0, 0, 0),
];

/// A store in memory, whose syncs fail for a faulty end.
fn memory(alloc: Global, end: End) -> Result<MemStore, NoMemory> {
    let mut faults = FaultConfig::default();
    if end == End::Faulty {
        faults.sync_rate = 1_000_000;
    }
    MemStore::new(alloc, faults)
}

/// Opens a blob.
fn open<S: Free>(store: &mut S) -> Result<S::Blob, Error> {
    let (blob, _) = store.open(&mut NoEnv, "p", b"a")?;
    Ok(blob)
}

/// Whether the blob can be opened again.
fn opens_again<S: Free>(store: &mut S) -> bool {
    match open(store).ok() {
        Some(blob) => {
            store.close(blob);
            true
        }
        None => false,
    }
}

/// Whether the blob was open.
fn close<S: Free>(store: &mut S, blob: S::Blob) -> bool {
    let is_open = went(store.resize(&mut NoEnv, &blob, 1));
    store.close(blob);
    is_open
}

fn give_up_twice<S: Free>(store: &mut S, ticket: Ticket) {
    store.give_up_sync(ticket);
    store.give_up_sync(Ticket::Numbered(0));
}

/// Whether a ticket answers so.
fn polls<S: Free>(store: &mut S, ticket: &mut Ticket, wanted: Poll<Result<(), Error>>) -> bool {
    same(poll(store, ticket), wanted)
}

/// Releases what the outer store holds.
fn release_outer(pending: &mut PendingSyncs, end: End) {
    if end != End::GivenUpHeld {
        drop(release_pending_syncs(pending));
    }
}

/// Releases what the inner store holds.
fn release_inner(pending: &mut PendingSyncs, end: End) {
    match end {
        End::Released | End::Faulty => {
            drop(release_pending_syncs(pending));
        }
        End::Failed => {
            drop(fail_pending_syncs(pending));
        }
        End::GivenUp | End::GivenUpHeld => {}
    }
}

/// Whether the sync is pending before the inner store's release, and answered behind it.
fn polls_twice<S: Free>(
    store: &mut DelayedSyncContext<DelayedSyncContext<S>>,
    ticket: &mut Ticket,
    end: End,
) -> bool {
    release_outer(store.pending_mut(), end);
    let held = polls(store, ticket, Poll::Pending);
    release_inner(store.inner_mut().pending_mut(), end);
    held & polls(store, ticket, answer(end))
}

fn polls_and_ends<S: Free>(
    store: &mut DelayedSyncContext<DelayedSyncContext<S>>,
    ticket: Ticket,
    end: End,
) -> bool {
    let mut ticket = ticket;
    let polled = polls_twice(store, &mut ticket, end);
    give_up_twice(store, ticket);
    polled
}

/// Whether the polls answer so, and whether the blob is open after two ends of the ticket, and can be opened again once it is closed.
fn ends<S: Free>(
    store: &mut DelayedSyncContext<DelayedSyncContext<S>>,
    end: End,
) -> Result<bool, Error> {
    let blob = open(store)?;
    let polled = match started(store, &blob) {
        Some(ticket) => polls_and_ends(store, ticket, end),
        None => false,
    };
    Ok(close(store, blob) & polled & opens_again(store))
}

/// Whether so many syncs are done, and so many calls were refused.
fn counts(store: &Nested, expected: &Expected) -> bool {
    let (_, completions, outer, inner, memory) = *expected;
    let refused = (store.refusals() == outer) & (store.inner().refusals() == inner);
    (store.pending().completions() == completions)
        & refused
        & (store.inner().inner().injected() == memory)
}

/// Whether an end comes to what is written.
fn ends_as(alloc: Global, expected: &Expected) -> Result<bool, NoMemory> {
    let end = expected.0;
    let mut inner = DelayedSyncContext::new(alloc, memory(alloc, end)?);
    let armed = arms(inner.pending_mut());
    let mut store = DelayedSyncContext::new(alloc, inner);
    let seen = came(ends(&mut store, end), true) & counts(&store, expected);
    drop(store.into_inner().into_inner());
    Ok(armed & seen)
}

/// How many ends come to what is written.
fn ends_each(alloc: Global, each: &[Expected]) -> usize {
    let mut right = 0_usize;
    for end in each {
        if came(ends_as(alloc, end), true) {
            right = right.wrapping_add(1);
        }
    }
    right
}

#[test]
fn inner_ticket_ends_once(rt: HostRuntime) {
    assert!(rt; ends_each(rt.alloc(), ENDS) == 5);
}

/// The ticket of a sync, or of a durable write, that is gated.
fn gated<S: Free>(alloc: Global, store: &mut S, blob: &S::Blob, is_write: bool) -> Option<Ticket> {
    if is_write {
        return write_gated(alloc, store, blob);
    }
    gate_of(store.sync(&mut NoEnv, blob))
}

/// Whether a ticket is pending until the inner store releases its gate, and done then.
fn passes<S: Free>(
    store: &mut DelayedSyncContext<DelayedSyncContext<S>>,
    mut ticket: Ticket,
) -> bool {
    let held = polls(store, &mut ticket, Poll::Pending);
    let released = went(release_pending_syncs(store.inner_mut().pending_mut()));
    let done = polls(store, &mut ticket, Poll::Ready(Ok(())));
    store.give_up_sync(ticket);
    held & released & done
}

/// Whether a change of a blob is synced so.
fn syncs<S: Free>(
    alloc: Global,
    store: &mut DelayedSyncContext<DelayedSyncContext<S>>,
    is_write: bool,
) -> Result<bool, Error> {
    let blob = open(store)?;
    let changed = went(store.resize(&mut NoEnv, &blob, 1));
    let seen = match gated(alloc, store, &blob, is_write) {
        Some(ticket) => passes(store, ticket),
        None => false,
    };
    store.close(blob);
    Ok(changed & seen)
}

/// Whether it is, the inner store alone counts the call, and no change is open then.
fn syncs_inside(alloc: Global, is_write: bool) -> Result<bool, NoMemory> {
    let mut inner = DelayedSyncContext::new(alloc, MemStore::new(alloc, FaultConfig::default())?);
    let armed = arms(inner.pending_mut());
    let mut store = DelayedSyncContext::new(alloc, inner);
    let seen = came(syncs(alloc, &mut store, is_write), true);
    let outer = store.pending().calls();
    let inner = store.into_inner();
    let counted = (outer == 0) & (inner.pending().calls() == 1);
    let memory = inner.into_inner();
    let synced = memory.crash_draws() == 0;
    drop(memory);
    Ok(armed & seen & counted & synced)
}

#[test]
fn inner_gate_is_passed_on(rt: HostRuntime) {
    let sync = came(syncs_inside(rt.alloc(), false), true);
    let write = came(syncs_inside(rt.alloc(), true), true);
    assert!(rt; sync & write);
}
