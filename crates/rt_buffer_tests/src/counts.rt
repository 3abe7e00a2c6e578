// A store that holds syncs back over one that counts its tickets: each that has a number ends once.

use crate::buffers::{came, same};
use crate::counting::{Counting, How};
use crate::delayed::{poll, poll_and_end, started};
use crate::free::Free;
use rt_base::{Error, NoEnv, Poll};
use rt_buffer::{DelayedSyncContext, release_pending_syncs};
use rt_store::{Storage, Ticket};
use std::alloc::Global;

/// What a sync answers once it is released.
fn answer(is_held: bool) -> Poll<Result<(), Error>> {
    if is_held {
        return Poll::Pending;
    }
    Poll::Ready(Ok(()))
}

/// Whether a started sync answers so at two polls, once it is released. It is given up then.
fn polls_twice<S: Free>(
    store: &mut DelayedSyncContext<S>,
    mut ticket: Ticket,
    is_held: bool,
) -> bool {
    drop(release_pending_syncs(store.pending_mut()));
    let first = same(poll(store, &mut ticket), answer(is_held));
    first & same(poll_and_end(store, ticket), answer(is_held))
}

fn starts<S: Free>(store: &mut DelayedSyncContext<S>, is_held: bool) -> Result<bool, Error> {
    let (blob, _) = store.open(&mut NoEnv, "p", b"a")?;
    let seen = match started(store, &blob) {
        Some(ticket) => polls_twice(store, ticket, is_held),
        None => false,
    };
    store.close(blob);
    Ok(seen)
}

/// How the inner store answers a sync, whether the outer ticket is pending then, and how many tickets with a number the inner store
/// gave.
type Sync = (How, bool, u64);

/// Whether as many ended as were given.
fn ends_all(alloc: Global, sync: &Sync) -> bool {
    let (how, is_held, given) = *sync;
    let inner = Counting {
        how,
        is_out: false,
        given: 0,
        ended: 0,
    };
    let mut store = DelayedSyncContext::new(alloc, inner);
    let seen = came(starts(&mut store, is_held), true);
    let inner = store.into_inner();
    seen & (inner.given == given) & (inner.ended == given)
}

/// For how many they did.
fn ends_each(alloc: Global, syncs: &[Sync]) -> usize {
    let mut right = 0_usize;
    for sync in syncs {
        if ends_all(alloc, sync) {
            right = right.wrapping_add(1);
        }
    }
    right
}

const SYNCS: &[Sync] = &[
    (How::Now, false, 0),
    (How::Ready, false, 0),
    (How::Numbered, false, 1),
    (How::Held, true, 1),
];

#[test]
fn numbered_ticket_ends_once(rt: HostRuntime) {
    assert!(rt; ends_each(rt.alloc(), SYNCS) == 4);
}
