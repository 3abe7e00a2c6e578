// Many of each: bytes, changes, blobs, partitions and ranges.

use crate::crashes::crash;
use crate::free::Free;
use crate::stores::{bufs, came, done, ends, has, memory, reads_each, reads_placed, went, writes};
use rt_base::{Error, NoEnv, NoMemory, ReadOptions, WriteOptions};
use rt_bufs::{IoBufs, IoBufsMut};
use rt_store::{MemStore, Storage};
use std::alloc::Global;
use std::process::Abort;

/// A chunk of this many bytes.
fn chunk_of(alloc: Global, len: usize) -> Result<IoBufs, NoMemory> {
    let mut bytes = Vec::new(alloc);
    bytes.resize(len, 7)?;
    bufs(alloc, bytes)
}

fn writes_chunk<S: Free>(
    alloc: Global,
    store: &mut S,
    blob: &S::Blob,
    offset: u64,
    chunk: usize,
) -> bool {
    match chunk_of(alloc, chunk) {
        Ok(bytes) => went(done(store.write_at(
            &mut NoEnv,
            blob,
            offset,
            bytes,
            WriteOptions::default(),
        ))),
        Err(_) => false,
    }
}

/// Writes so many chunks of this many bytes, one behind the other, and answers how many went in.
fn write_chunks<S: Free>(
    alloc: Global,
    store: &mut S,
    blob: &S::Blob,
    chunk: usize,
    count: usize,
) -> usize {
    let mut offset = 0_u64;
    let mut right = 0_usize;
    for _ in 0..count {
        if writes_chunk(alloc, store, blob, offset, chunk) {
            right = right.wrapping_add(1);
        }
        offset = offset.saturating_add(chunk as u64);
    }
    right
}

fn fill<S: Free>(alloc: Global, store: &mut S, chunk: usize, count: usize) -> Result<usize, Error> {
    let (blob, _) = store.open(&mut NoEnv, "p", b"n")?;
    let written = write_chunks(alloc, store, &blob, chunk, count);
    store.close(blob);
    Ok(written)
}

/// Whether these are so many bytes, by the first and the last of them.
fn are_bytes(bufs: IoBufsMut, len: u64) -> bool {
    match bufs.coalesce() {
        Ok(buf) => {
            let bytes = buf.as_slice();
            let ends = bytes.starts_with(&[7]) & bytes.ends_with(&[7]);
            ends & (bytes.len() as u64 == len)
        }
        Err(_) => false,
    }
}

/// Whether all bytes of a blob are read at once.
fn reads_whole<S: Free>(store: &mut S, size: u64) -> Result<bool, Error> {
    let (blob, len) = store.open(&mut NoEnv, "p", b"n")?;
    let read = store.read_at(&mut NoEnv, &blob, 0, len as usize, ReadOptions::default());
    store.close(blob);
    Ok(are_bytes(read?, size))
}

/// How many changes a crash decided over.
fn count_choices(alloc: Global, store: &mut MemStore) -> Result<usize, Error> {
    let choices = crash(alloc, store, &mut NoEnv)?;
    Ok(choices.len())
}

/// The length of chunks, how many there are, and their length in all.
type Size = (usize, usize, u64);

/// Whether a blob has all these chunks, and a crash decides over each and keeps none.
fn holds(alloc: Global, store: &mut MemStore, size: &Size) -> bool {
    let (chunk, count, len) = *size;
    let filled = came(fill(alloc, store, chunk, count), count) & has(store, "p", b"n", len);
    let read = came(reads_whole(store, len), true);
    let choices = came(count_choices(alloc, store), count);
    filled & read & choices & has(store, "p", b"n", 0)
}

fn holds_anew(rt: &impl Abort, alloc: Global, size: &Size) {
    let mut store = memory(rt, alloc);
    let held = holds(alloc, &mut store, size);
    drop(store);
    assert!(rt; held, "{} chunks of {}", size.1, size.0);
}

/// Makes a blob and a partition of this name.
fn makes_both<S: Free>(store: &mut S, name: &str) -> bool {
    has(store, "q", name.as_bytes(), 0) & has(store, name, b"a", 0)
}

fn makes_numbered<S: Free>(alloc: Global, store: &mut S, number: usize) -> bool {
    match format!(in alloc; "{number}") {
        Ok(name) => makes_both(store, name.as_str()),
        Err(_) => false,
    }
}

/// Makes so many blobs in one partition, and as many partitions.
fn makes_each<S: Free>(alloc: Global, store: &mut S, count: usize) -> usize {
    let mut right = 0_usize;
    for number in 0..count {
        if makes_numbered(alloc, store, number) {
            right = right.wrapping_add(1);
        }
    }
    right
}

/// How many blobs are in the partition.
fn count_names<S: Free>(store: &mut S) -> Result<usize, Error> {
    let names = store.scan(&mut NoEnv, "q")?;
    Ok(names.len())
}

const SIZES: &[Size] = &[
    (1_048_576, 1, 1_048_576),
    (1, 65_536, 65_536),
    (64, 1_000, 64_000),
    (67_108_864, 1, 67_108_864),
    (1, 100_000, 100_000),
];

#[test]
fn sizes(rt: HostRuntime) {
    for size in SIZES {
        holds_anew(&rt, rt.alloc(), size);
    }
    let mut store = memory(&rt, rt.alloc());
    let made = makes_each(rt.alloc(), &mut store, 1_000);
    let counted = came(count_names(&mut store), 1_000);
    ends(&rt, store, (made == 1_000) & counted);
}

/// How many ranges are read at once.
const RANGES: usize = 1_000;

/// Ranges of one byte each, and what they have.
type Ranges = (Vec<(u64, usize)>, Vec<&'static [u8]>);

/// The byte of `abc` at this place.
fn letter(place: usize) -> &'static [u8] {
    match place {
        0 => b"a",
        1 => b"b",
        _ => b"c",
    }
}

/// The bytes of `abc` by turns.
fn many_ranges(alloc: Global) -> Result<Ranges, NoMemory> {
    let mut ranges = Vec::new(alloc);
    let mut pieces = Vec::new(alloc);
    for number in 0..RANGES {
        let place = number % 3;
        ranges.push((place as u64, 1))?;
        pieces.push(letter(place))?;
    }
    Ok((ranges, pieces))
}

/// Whether many ranges of a blob are read, with their places and in their order.
fn reads_many<S: Free>(alloc: Global, store: &mut S) -> Result<bool, Error> {
    let (ranges, pieces) = many_ranges(alloc)?;
    let (blob, _) = store.open(&mut NoEnv, "p", b"a")?;
    let written = writes(alloc, store, &blob, 0);
    let placed = reads_placed(store, &blob, ranges.as_slice(), pieces.as_slice());
    let each = reads_each(store, &blob, ranges.as_slice(), pieces.as_slice());
    store.close(blob);
    Ok(written & placed & each)
}

#[test]
fn a_thousand_ranges(rt: HostRuntime) {
    let mut store = memory(&rt, rt.alloc());
    let seen = came(reads_many(rt.alloc(), &mut store), true);
    ends(&rt, store, seen);
}
