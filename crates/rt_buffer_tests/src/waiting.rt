// The calls of a writer that wait for a sync which is held back, and what they do once it is released.

use crate::buffers::{bufs, came, done, is_refused, opened, put, put_bufs, showing, start, went};
use crate::delayed::{arms, delayed};
use crate::free::Free;
use rt_base::{Error, IoKind, NoEnv, NoMemory};
use rt_buffer::{
    Begun, DelayedSyncContext, Started, Step, Stepped, Write, WriteOp, fail_pending_syncs,
    release_pending_syncs,
};
use rt_store::{MemStore, Storage};
use std::alloc::Global;

#[derive(Clone, Copy)]
enum Call {
    Sync,
    Start,
    Write,
    Resize,
    Wait,
}

/// A call behind a writer of `ab` and, held back, `c`; whether the sync of `ab` was started; what the writer shows once the call is
/// done, and how many numbers a crash may draw then.
type Wait = (Call, bool, &'static [u8], usize);

const WAITS: &[Wait] = &[
    (Call::Sync, false, b"abc", 0),
    (Call::Sync, true, b"abc", 0),
    (Call::Start, true, b"abc", 2),
    (Call::Write, true, b"abc0123456789abcdefg", 4),
    (Call::Resize, true, b"a", 2),
    (Call::Wait, true, b"abc", 0),
];

/// More bytes than the tip has room for.
const LONG: &[u8] = b"0123456789abcdefg";

/// A writer of `ab`, whose sync is started or isn't, that holds `c` back.
fn begin<S: Free>(alloc: Global, store: &mut S, is_started: bool) -> Result<Write<S>, Error> {
    let writer = opened(alloc, store, b"a")?;
    let writer = put(alloc, store, writer, 0, b"ab")?;
    if !is_started {
        return put(alloc, store, writer, 2, b"c");
    }
    let (writer, _) = start(store, writer)?;
    put(alloc, store, writer, 2, b"c")
}

/// A start without its handle.
fn step_of<S: Free>(started: Started<S>) -> Step<S> {
    match started {
        Begun::Done(writer, _) => Stepped::Done(writer),
        Begun::Waiting(op) => Stepped::Waiting(op),
        Begun::Failed(error) => Stepped::Failed(error),
    }
}

fn write_long<S: Free>(alloc: Global, store: &mut S, writer: Write<S>) -> Step<S> {
    put_bufs(store, writer, 3, bufs(alloc, LONG), 3)
}

fn make<S: Free>(alloc: Global, store: &mut S, writer: Write<S>, call: Call) -> Step<S> {
    match call {
        Call::Sync => writer.sync(store, &mut NoEnv, 3),
        Call::Start => step_of(writer.start_sync(store, &mut NoEnv, 3)),
        Call::Write => write_long(alloc, store, writer),
        Call::Resize => writer.resize(store, &mut NoEnv, 1, 3),
        Call::Wait => writer.wait_for_sync(store, &mut NoEnv, 3),
    }
}

/// The call, where it waits.
pub fn waiting<S: Free>(store: &mut S, step: Step<S>) -> Option<WriteOp<S>> {
    match step {
        Stepped::Done(writer) => {
            writer.close(store);
            None
        }
        Stepped::Waiting(op) => Some(op),
        Stepped::Failed(error) => {
            drop(error);
            None
        }
    }
}

/// Whether the call is done, and the writer shows these bytes.
fn ends<S: Free>(store: &mut S, step: Step<S>, expected: &[u8]) -> Result<bool, Error> {
    let writer = done(store, step)?;
    showing(store, writer, expected)?.close(store);
    Ok(true)
}

/// Whether the call still waits at a poll, and is done at the next one once all that is held is released.
pub fn polls_twice<S: Free>(
    store: &mut DelayedSyncContext<S>,
    op: WriteOp<DelayedSyncContext<S>>,
    expected: &[u8],
) -> bool {
    let step = op.poll(store, &mut NoEnv, 3);
    match waiting(store, step) {
        Some(op) => {
            let released = went(release_pending_syncs(store.pending_mut()));
            let step = op.poll(store, &mut NoEnv, 3);
            released & came(ends(store, step, expected), true)
        }
        None => false,
    }
}

fn waits<S: Free>(
    alloc: Global,
    store: &mut DelayedSyncContext<S>,
    wait: &Wait,
) -> Result<bool, Error> {
    let (call, is_started, expected, _) = *wait;
    let writer = begin(alloc, store, is_started)?;
    let step = make(alloc, store, writer, call);
    match waiting(store, step) {
        Some(op) => Ok(polls_twice(store, op, expected)),
        None => Ok(false),
    }
}

/// Whether a call comes to what is written.
fn waits_as(alloc: Global, wait: &Wait) -> Result<bool, NoMemory> {
    let mut store = delayed(alloc)?;
    let armed = arms(store.pending_mut());
    let seen = came(waits(alloc, &mut store, wait), true);
    let inner: MemStore = store.into_inner();
    let draws = inner.crash_draws();
    drop(inner);
    Ok(armed & seen & (draws == wait.3))
}

/// How many calls come to what is written.
fn waits_each(alloc: Global, each: &[Wait]) -> usize {
    let mut right = 0_usize;
    for wait in each {
        if came(waits_as(alloc, wait), true) {
            right = right.wrapping_add(1);
        }
    }
    right
}

#[test]
fn waiting_call_goes_on(rt: HostRuntime) {
    assert!(rt; waits_each(rt.alloc(), WAITS) == 6);
}

/// Whether a call that waits fails with the sync that it waits for, or is given up.
fn stops<S: Free>(
    store: &mut DelayedSyncContext<S>,
    op: WriteOp<DelayedSyncContext<S>>,
    is_given_up: bool,
) -> bool {
    if is_given_up {
        op.give_up(store);
        return true;
    }
    let failed = went(fail_pending_syncs(store.pending_mut()));
    let step = op.poll(store, &mut NoEnv, 3);
    let answer = done(store, step);
    is_refused(store, answer, Error::Io(IoKind::InjectedSyncFailure)) & failed
}

/// Whether the call stops so, and its blob can be opened anew.
fn stops_call<S: Free>(
    alloc: Global,
    store: &mut DelayedSyncContext<S>,
    call: Call,
    is_given_up: bool,
) -> Result<bool, Error> {
    let writer = begin(alloc, store, true)?;
    let step = make(alloc, store, writer, call);
    let stopped = match waiting(store, step) {
        Some(op) => stops(store, op, is_given_up),
        None => false,
    };
    opened(alloc, store, b"a")?.close(store);
    Ok(stopped)
}

/// Whether it does, and only the write of `ab` reached the store.
fn stops_as(alloc: Global, call: Call, is_given_up: bool) -> Result<bool, NoMemory> {
    let mut store = delayed(alloc)?;
    let seen = came(stops_call(alloc, &mut store, call, is_given_up), true);
    let inner: MemStore = store.into_inner();
    let draws = inner.crash_draws();
    drop(inner);
    Ok(seen & (draws == 2))
}

/// A call, and whether it is given up.
const STOPS: &[(Call, bool)] = &[
    (Call::Sync, false),
    (Call::Start, true),
    (Call::Write, false),
    (Call::Resize, true),
    (Call::Wait, false),
];

/// How many calls stop so.
fn stops_each(alloc: Global, each: &[(Call, bool)]) -> usize {
    let mut right = 0_usize;
    for (call, is_given_up) in each {
        if came(stops_as(alloc, *call, *is_given_up), true) {
            right = right.wrapping_add(1);
        }
    }
    right
}

#[test]
fn waiting_call_stops(rt: HostRuntime) {
    assert!(rt; stops_each(rt.alloc(), STOPS) == 5);
}
