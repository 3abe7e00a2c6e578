// That the clauses suffice: what a crash leaves of a started sync that was asked for, of an idle writer beside one that is synced, and
// of a store that holds syncs back.
//
// Each function with a contract is proved by the clauses of the calls that it makes alone.

ghost use Rattle.std.specs.Prelude.{◌≡◌, ℕ, List, Ok, OnOk, true};
ghost use Rattle.rt_base.specs.declared.poll.Poll.{Poll};
ghost use Rattle.rt_buffer.specs.Durable.{HoldsBytes, HoldsSync, IfStepped, KnowsState};
ghost use Rattle.rt_buffer.specs.Memory.{CrashLeaves, MemoryKeeps};
ghost use Rattle.rt_buffer.specs.Tip.{laid_over};
ghost use Rattle.rt_buffer.specs.Writing.{LiesOver};
ghost use Rattle.rt_store.specs.Durable.{IsDurable};
ghost use Rattle.rt_store.specs.Memory.{memory_apart, memory_bytes, memory_left, memory_promised};

use crate::buffers::{came, crash, done, has_bytes, memory, opened, put, same, start, synced};
use rt_base::{Error, NoEnv, Poll};
use rt_buffer::{Begun, DelayedSyncContext, Step, SyncHandle, Write, release_pending_syncs};
use rt_store::{FaultConfig, MemStore, Storage};
use std::alloc::Global;

/// Asks for the sync of a handle, and closes the writer where it isn't done.
fn ask(
    mut writer: Write<MemStore>,
    mut handle: SyncHandle,
    store: &mut MemStore,
) -> Result<Write<MemStore>, Error>
    ensures memory { MemoryKeeps }
    ensures crash { (content : List ℕ) → handle.number ≡ writer.held.syncs → HoldsBytes memory_bytes memory_left memory_promised content writer.held store.old writer.blob →
        OnOk result (CrashLeaves content store.new writer.blob) }
{
    match handle.poll_in_memory(&mut writer, store, &mut NoEnv, 1) {
        Poll::Ready(Ok(())) => Ok(writer),
        Poll::Ready(Err(error)) => {
            writer.close(store);
            Err(error)
        }
        Poll::Pending => {
            writer.close(store);
            Err(Error::Timeout)
        }
    }
}

/// Starts a sync and asks for it. Once it is done, a crash leaves exactly the bytes that the writer stood for.
fn save(writer: Write<MemStore>, store: &mut MemStore) -> Result<Write<MemStore>, Error>
    ensures crash { LiesOver writer.held.tip (memory_bytes store.old writer.blob) → KnowsState memory_bytes memory_left memory_promised writer.held.state store.old writer.blob →
        OnOk result (CrashLeaves (laid_over writer.held.tip (memory_bytes store.old writer.blob)) store.new writer.blob) }
{
    match writer.start_sync(store, &mut NoEnv, 1) {
        Begun::Done(writer, handle) => ask(writer, handle, store),
        Begun::Waiting(op) => {
            op.give_up(store);
            Err(Error::Timeout)
        }
        Begun::Failed(error) => Err(error),
    }
}

/// Writes `ab`, and saves it where a crash would leave it.
pub fn save_two(alloc: Global, store: &mut MemStore) -> Result<bool, Error> {
    let writer = opened(alloc, store, b"a")?;
    let writer = put(alloc, store, writer, 0, b"ab")?;
    save(writer, store)?.close(store);
    Ok(true)
}

#[test]
fn crash_leaves_what_a_started_sync_saved(rt: HostRuntime) {
    let mut store = memory(&rt, rt.alloc());
    let saved = came(save_two(rt.alloc(), &mut store), true);
    let crashed = came(crash(rt.alloc(), &mut store), 0);
    let left = came(has_bytes(rt.alloc(), &mut store, b"a", b"ab"), true);
    drop(store);
    assert!(rt; saved & crashed & left);
}

/// Syncs a writer beside an idle one. Whatever that answers, the idle one's blob has the bytes that it had, and where each crash left
/// exactly those, it still does.
fn sync_beside(
    writer: Write<MemStore>,
    idle: &Write<MemStore>,
    store: &mut MemStore,
) -> Step<MemStore>
    ensures bytes { memory_apart store.old writer.blob idle.now.blob → KnowsState memory_bytes memory_left memory_promised writer.held.state store.old writer.blob →
        memory_bytes store.new idle.now.blob ≡ memory_bytes store.old idle.now.blob }
    ensures crash { memory_apart store.old writer.blob idle.now.blob → KnowsState memory_bytes memory_left memory_promised writer.held.state store.old writer.blob →
        IsDurable memory_bytes memory_left store.old idle.now.blob → CrashLeaves (memory_bytes store.old idle.now.blob) store.new idle.now.blob }
    ensures apart { memory_apart store.old writer.blob idle.now.blob → KnowsState memory_bytes memory_left memory_promised writer.held.state store.old writer.blob →
        memory_apart store.new writer.blob idle.now.blob }
    ensures knows { KnowsState memory_bytes memory_left memory_promised writer.held.state store.old writer.blob →
        IfStepped result (λ w. KnowsState memory_bytes memory_left memory_promised w.held.state store.new writer.blob) (λ p. KnowsState memory_bytes memory_left memory_promised p.write.held.state store.new writer.blob) }
{
    let _ = idle;
    writer.sync_in_memory(store, &mut NoEnv, 1)
}

/// Writes `xy` by a writer, and syncs it beside an idle one.
fn save_beside(alloc: Global, store: &mut MemStore, idle: &Write<MemStore>) -> Result<bool, Error> {
    let writer = opened(alloc, store, b"b")?;
    let writer = put(alloc, store, writer, 0, b"xy")?;
    let step = sync_beside(writer, idle, store);
    done(store, step)?.close(store);
    Ok(true)
}

/// Writes `ab` and syncs it, and saves another blob beside it.
fn save_both(alloc: Global, store: &mut MemStore) -> Result<bool, Error> {
    let writer = opened(alloc, store, b"a")?;
    let writer = put(alloc, store, writer, 0, b"ab")?;
    let idle = synced(store, writer)?;
    let saved = save_beside(alloc, store, &idle);
    idle.close(store);
    saved
}

#[test]
fn crash_leaves_what_an_idle_writer_synced(rt: HostRuntime) {
    let mut store = memory(&rt, rt.alloc());
    let saved = came(save_both(rt.alloc(), &mut store), true);
    let crashed = came(crash(rt.alloc(), &mut store), 0);
    let first = came(has_bytes(rt.alloc(), &mut store, b"a", b"ab"), true);
    let second = came(has_bytes(rt.alloc(), &mut store, b"b", b"xy"), true);
    drop(store);
    assert!(rt; saved & crashed & first & second);
}

/// A store in memory whose syncs are held back.
type Delayed = DelayedSyncContext<MemStore>;

/// Such a store.
fn delayed(alloc: Global) -> Result<Delayed, Error> {
    let mut inner = MemStore::new(alloc, FaultConfig::default())?;
    let (blob, len) = inner.open(&mut NoEnv, "p", b"a")?;
    Write::new(alloc, blob, len, 16).close(&mut inner);
    Ok(DelayedSyncContext::new(alloc, inner))
}

/// Asks for a sync that such a store may hold back. It changes no byte, and once it answers Ok, a crash leaves exactly the bytes of the
/// blob.
fn ask_held(
    handle: &mut SyncHandle,
    writer: &mut Write<Delayed>,
    store: &mut Delayed,
) -> Poll<Result<(), Error>>
    ensures bytes { writer.old.held.syncs ≡ handle.old.number →
        HoldsSync ⟦<DelayedSyncContext<MemStore> as Storage>⟧.bytes ⟦<DelayedSyncContext<MemStore> as Storage>⟧.left ⟦<DelayedSyncContext<MemStore> as Storage>⟧.promised writer.old.held store.old writer.old.blob →
        ⟦<DelayedSyncContext<MemStore> as Storage>⟧.bytes store.new writer.old.blob ≡ ⟦<DelayedSyncContext<MemStore> as Storage>⟧.bytes store.old writer.old.blob }
    ensures durable { writer.old.held.syncs ≡ handle.old.number →
        HoldsSync ⟦<DelayedSyncContext<MemStore> as Storage>⟧.bytes ⟦<DelayedSyncContext<MemStore> as Storage>⟧.left ⟦<DelayedSyncContext<MemStore> as Storage>⟧.promised writer.old.held store.old writer.old.blob →
        result ≡ Poll.Ready (Ok tt) → IsDurable ⟦<DelayedSyncContext<MemStore> as Storage>⟧.bytes ⟦<DelayedSyncContext<MemStore> as Storage>⟧.left store.new writer.old.blob }
{
    handle.poll(writer, store, &mut NoEnv, 1)
}

/// Whether the sync is pending, and done once all that is held is released.
fn asks_twice(store: &mut Delayed, writer: &mut Write<Delayed>, handle: &mut SyncHandle) -> bool {
    let held = same(ask_held(handle, writer, store), Poll::Pending);
    drop(release_pending_syncs(store.pending_mut()));
    held & same(ask_held(handle, writer, store), Poll::Ready(Ok(())))
}

/// Writes `ab`, and asks for a sync of it.
fn ask_for_two(alloc: Global, store: &mut Delayed) -> Result<bool, Error> {
    let writer = opened(alloc, store, b"a")?;
    let writer = put(alloc, store, writer, 0, b"ab")?;
    let (mut writer, mut handle) = start(store, writer)?;
    let asked = asks_twice(store, &mut writer, &mut handle);
    writer.close(store);
    Ok(asked)
}

/// Whether a crash leaves what was asked for.
fn holds_two(alloc: Global) -> Result<bool, Error> {
    let mut store = delayed(alloc)?;
    let asked = came(ask_for_two(alloc, &mut store), true);
    let mut inner = store.into_inner();
    let crashed = came(crash(alloc, &mut inner), 0);
    let left = came(has_bytes(alloc, &mut inner, b"a", b"ab"), true);
    drop(inner);
    Ok(asked & crashed & left)
}

#[test]
fn crash_leaves_what_a_released_sync_saved(rt: HostRuntime) {
    assert!(rt; came(holds_two(rt.alloc()), true));
}
