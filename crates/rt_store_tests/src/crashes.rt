// What a crash leaves, by what it draws.

use crate::free::Free;
use crate::stores::{came, ends, has, memory, reads, set, store_of, syncs, went, write};
use rt_base::{Choice, Env, Error, Event, NoEnv, NoMemory, WriteOptions};
use rt_store::{FaultConfig, MemStore, PartialWriteMode, ResizeConfig, Storage, WriteConfig};
use std::alloc::Global;

/// Draws this number, then the next ones.
#[derive(Drop)]
struct Numbers {
    next: u64,
}

impl Env for Numbers {
    ghost use Rattle.std.specs.Prelude.{None};

    ghost noted = { λ _. None };

    ghost spare = { λ _. 18446744073709551616 };

    fn reserve(&mut self, entries: usize) -> Result<(), NoMemory> {
        let _ = entries;
        Ok(())
    }

    fn event(&mut self, event: Event) {
        let _ = event;
    }

    fn draw(&mut self) -> u64 {
        let drawn = self.next;
        self.next = drawn.wrapping_add(1);
        drawn
    }
}

/// Crashes, and answers the choices.
pub fn crash<E: Env>(
    alloc: Global,
    store: &mut MemStore,
    env: &mut E,
) -> Result<Vec<Choice>, Error> {
    let draws = store.crash_draws();
    env.reserve(draws)?;
    let mut choices = Vec::new(alloc);
    choices.reserve(draws)?;
    store.crash(env, &mut choices);
    Ok(choices)
}

fn chooses<E: Env>(alloc: Global, store: &mut MemStore, env: &mut E, expected: &[Choice]) -> bool {
    match crash(alloc, store, env).ok() {
        Some(choices) => choices.as_slice() == expected,
        None => false,
    }
}

fn syncs_or_not<S: Free>(store: &mut S, blob: &S::Blob, is_synced: bool) -> bool {
    if is_synced {
        return syncs(store, blob);
    }
    true
}

/// Writes three bytes to a blob of a partition, and syncs them or not.
fn keep<S: Free>(
    alloc: Global,
    store: &mut S,
    partition: &str,
    is_synced: bool,
) -> Result<bool, Error> {
    let (blob, _) = store.open(&mut NoEnv, partition, b"n")?;
    let written = went(write(alloc, store, &blob, 0, WriteOptions::default()));
    let synced = syncs_or_not(store, &blob, is_synced);
    store.close(blob);
    Ok(written & synced)
}

fn keeps<S: Free>(alloc: Global, store: &mut S, partition: &str, is_synced: bool) -> bool {
    came(keep(alloc, store, partition, is_synced), true)
}

/// What a crash keeps of writes in a million, and else of their bytes; and from which number on it draws. Then how many of three
/// bytes it leaves, how many numbers it drew, and the choices.
type Crash = (u32, PartialWriteMode, u64, u64, u64, &'static [Choice]);

fn leaves(alloc: Global, is_synced: bool, crash: &Crash) -> Result<bool, NoMemory> {
    let (keep, partial, first, len, draws, choices) = *crash;
    let write = WriteConfig {
        rate: 0,
        keep,
        partial,
    };
    let mut store = store_of(alloc, write)?;
    let mut numbers = Numbers { next: first };
    let kept = keeps(alloc, &mut store, "p", is_synced);
    let chosen = chooses(alloc, &mut store, &mut numbers, choices);
    let drawn = numbers.next.wrapping_sub(first);
    let left = has(&mut store, "p", b"n", len);
    drop(store);
    Ok(kept & chosen & (drawn == draws) & left)
}

/// How many crashes leave what is written.
fn leaves_each(alloc: Global, is_synced: bool, crashes: &[Crash]) -> usize {
    let mut right = 0_usize;
    for crash in crashes {
        if came(leaves(alloc, is_synced, crash), true) {
            right = right.wrapping_add(1);
        }
    }
    right
}

const OFF: PartialWriteMode = PartialWriteMode::Off;

const UNSYNCED: &[Crash] = &[
    (0, OFF, 7, 0, 0, &[Choice::Dropped]),
    (5, OFF, 5, 0, 1, &[Choice::Dropped]),
];

#[test]
fn unsynced_bytes_are_lost(rt: HostRuntime) {
    assert!(rt; leaves_each(rt.alloc(), false, UNSYNCED) == 2);
}

const DROPPED: &[Crash] = &[(0, OFF, 0, 0, 0, &[Choice::Dropped])];

#[test]
fn crash_drops_without_a_draw(rt: HostRuntime) {
    assert!(rt; leaves_each(rt.alloc(), false, DROPPED) == 1);
}

const KEPT: &[Crash] = &[
    (8, OFF, 7, 3, 1, &[Choice::Kept]),
    (5, OFF, 1_000_004, 3, 1, &[Choice::Kept]),
    (1_000_000, OFF, 999_999, 3, 1, &[Choice::Kept]),
    (u32::MAX, OFF, 999_999, 3, 1, &[Choice::Kept]),
];

#[test]
fn crash_keeps_by_a_draw(rt: HostRuntime) {
    assert!(rt; leaves_each(rt.alloc(), false, KEPT) == 4);
}

const PREFIX: PartialWriteMode = PartialWriteMode::Prefix;

const PREFIXES: &[Crash] = &[
    (0, PREFIX, 5, 2, 2, &[Choice::Prefix(2)]),
    (5, PREFIX, 6, 3, 2, &[Choice::Prefix(3)]),
    (5, PREFIX, 7, 0, 2, &[Choice::Prefix(0)]),
    (5, PREFIX, 4, 3, 1, &[Choice::Kept]),
];

#[test]
fn prefixes_stay(rt: HostRuntime) {
    assert!(rt; leaves_each(rt.alloc(), false, PREFIXES) == 4);
}

const SYNCED: &[Crash] = &[(0, OFF, 7, 3, 0, &[])];

#[test]
fn synced_bytes_stay(rt: HostRuntime) {
    assert!(rt; leaves_each(rt.alloc(), true, SYNCED) == 1);
}

/// Two blobs crash in the order of their partitions.
fn crashes_two(alloc: Global, store: &mut MemStore) -> bool {
    let kept = keeps(alloc, store, "q", false) & keeps(alloc, store, "p", false);
    let draws = store.crash_draws();
    let mut numbers = Numbers { next: 0 };
    kept & (draws == 4) & went(crash(alloc, store, &mut numbers))
}

/// What is left is in a store that is made of a snapshot.
fn stays_in_snapshot(store: MemStore, faults: FaultConfig) -> bool {
    let mut again = MemStore::from_snapshot(store.snapshot(), faults);
    let stayed = has(&mut again, "p", b"n", 3) & has(&mut again, "q", b"n", 0);
    drop(again);
    stayed
}

#[test]
fn partitions_crash_in_order(rt: HostRuntime) {
    let mut faults = FaultConfig::default();
    faults.write.keep = 1;
    let mut store = memory(&rt, rt.alloc());
    set(&mut store, faults);
    let crashed = crashes_two(rt.alloc(), &mut store);
    let stayed = stays_in_snapshot(store, faults);
    assert!(rt; crashed & stayed);
}

/// Whether a crash leaves the one of two blobs whose bytes stay, and what is left is in a store that is made of a snapshot.
pub fn begins_anew(alloc: Global, mut store: MemStore) -> bool {
    let kept = keeps(alloc, &mut store, "q", false) & keeps(alloc, &mut store, "p", false);
    store.admit("p", b"n");
    let crashed = went(crash(alloc, &mut store, &mut NoEnv));
    kept & crashed & stays_in_snapshot(store, FaultConfig::default())
}

fn admit(store: &mut MemStore) {
    store.admit("p", b"n");
    store.admit("p", b"m");
    store.admit("q", b"n");
}

#[test]
fn admitted_bytes_stay(rt: HostRuntime) {
    let mut store = memory(&rt, rt.alloc());
    let kept = keeps(rt.alloc(), &mut store, "p", false);
    admit(&mut store);
    let chosen = chooses(rt.alloc(), &mut store, &mut NoEnv, &[]);
    let left = has(&mut store, "p", b"n", 3);
    ends(&rt, store, kept & chosen & left);
}

/// What comes behind a cut: three bytes are written behind the one that is left and a gap, or the blob gets a length.
#[derive(Clone, Copy)]
enum Behind {
    Write,
    Length(u64),
}

fn follows<S: Free>(alloc: Global, store: &mut S, blob: &S::Blob, behind: Behind) -> bool {
    match behind {
        Behind::Write => went(write(alloc, store, blob, 2, WriteOptions::default())),
        Behind::Length(len) => went(store.resize(&mut NoEnv, blob, len)),
    }
}

/// Whether the blob has exactly these bytes.
fn shows<S: Free>(store: &mut S, expected: &[u8]) -> Result<bool, Error> {
    let (blob, len) = store.open(&mut NoEnv, "p", b"n")?;
    let seen = reads(store, &blob, 0, expected.len(), expected);
    store.close(blob);
    Ok(seen & (len == expected.len() as u64))
}

/// What comes behind a cut of three bytes to one, whether a sync comes behind both, and the bytes then. From which number on a crash
/// draws, where it keeps what is drawn as 0, its choices, and the bytes after it.
type Cut = (
    Behind,
    bool,
    &'static [u8],
    u64,
    &'static [Choice],
    &'static [u8],
);

const CUTS: &[Cut] = &[
    (
        Behind::Write,
        false,
        b"a\0abc",
        1,
        &[Choice::Dropped, Choice::Dropped],
        b"abc",
    ),
    (
        Behind::Write,
        false,
        b"a\0abc",
        0,
        &[Choice::Kept, Choice::Dropped],
        b"a",
    ),
    (
        Behind::Write,
        false,
        b"a\0abc",
        999_999,
        &[Choice::Dropped, Choice::Kept],
        b"ababc",
    ),
    (Behind::Write, true, b"a\0abc", 0, &[], b"a\0abc"),
    (
        Behind::Length(4),
        false,
        b"a\0\0\0",
        1,
        &[Choice::Dropped, Choice::Dropped],
        b"abc",
    ),
    (
        Behind::Length(4),
        false,
        b"a\0\0\0",
        0,
        &[Choice::Kept, Choice::Dropped],
        b"a",
    ),
    (
        Behind::Length(4),
        false,
        b"a\0\0\0",
        999_999,
        &[Choice::Dropped, Choice::Kept],
        b"abc\0",
    ),
    (Behind::Length(4), true, b"a\0\0\0", 0, &[], b"a\0\0\0"),
];

/// Three bytes are cut to one, and what comes behind that is done.
fn cut_and_follow<S: Free>(alloc: Global, store: &mut S, cut: &Cut) -> Result<bool, Error> {
    let (behind, is_synced, before, _, _, _) = *cut;
    let (blob, _) = store.open(&mut NoEnv, "p", b"n")?;
    let shorter = went(store.resize(&mut NoEnv, &blob, 1));
    let followed = follows(alloc, store, &blob, behind) & syncs_or_not(store, &blob, is_synced);
    let seen = reads(store, &blob, 0, before.len(), before);
    store.close(blob);
    Ok(shorter & followed & seen)
}

/// A store whose crashes keep a change that is drawn as 0.
fn keeping_zero(alloc: Global) -> Result<MemStore, NoMemory> {
    let mut faults = FaultConfig::default();
    faults.write.keep = 1;
    faults.resize = ResizeConfig { rate: 0, keep: 1 };
    MemStore::new(alloc, faults)
}

/// Whether a crash behind a cut leaves what is written.
fn comes_back(alloc: Global, cut: &Cut) -> Result<bool, NoMemory> {
    let (_, _, _, first, choices, after) = *cut;
    let mut store = keeping_zero(alloc)?;
    let kept = keeps(alloc, &mut store, "p", true);
    let changed = came(cut_and_follow(alloc, &mut store, cut), true);
    let mut numbers = Numbers { next: first };
    let chosen = chooses(alloc, &mut store, &mut numbers, choices);
    let left = came(shows(&mut store, after), true);
    drop(store);
    Ok(kept & changed & chosen & left)
}

/// How many do.
fn comes_back_each(alloc: Global, cuts: &[Cut]) -> usize {
    let mut right = 0_usize;
    for cut in cuts {
        if came(comes_back(alloc, cut), true) {
            right = right.wrapping_add(1);
        }
    }
    right
}

#[test]
fn cut_bytes_come_back(rt: HostRuntime) {
    assert!(rt; comes_back_each(rt.alloc(), CUTS) == 8);
}
