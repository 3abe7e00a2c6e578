// The worked examples, and each call once.
//
// A case is a function that makes its calls and says whether they came to what is written beside them, or how many did. The functions
// are over any store where they can be, since those are proved in less time.

ghost use Rattle.std.specs.Prelude.{◌≡◌, IfOk, take, drop};
ghost use Rattle.rt_buffer.specs.Flat.{StandsFor};
ghost use Rattle.rt_store.specs.Calls.{blob_of};
ghost use Rattle.rt_store.specs.Store.{content_at};

use crate::free::Free;
use rt_base::{Env, Error, NoEnv, NoMemory, Poll, WriteOptions};
use rt_buffer::{Begun, Buffer, Read, Started, Step, Stepped, SyncHandle, Write};
use rt_bufs::{IoBuf, IoBufs};
use rt_store::{Done, FaultConfig, MemStore, Storage};
use std::alloc::Global;
use std::process::Abort;

/// Whether these are the same.
pub fn same<T: Drop + PartialEq>(seen: T, wanted: T) -> bool {
    seen == wanted
}

/// Whether a call came to this.
pub fn came<T: Drop + PartialEq, E: Drop>(answer: Result<T, E>, wanted: T) -> bool {
    match answer {
        Ok(seen) => seen == wanted,
        Err(_) => false,
    }
}

/// Whether a call was answered at all.
pub fn went<T: Drop, E: Drop>(answer: Result<T, E>) -> bool {
    answer.is_ok()
}

/// Whether a call failed so.
pub fn failed<T: Drop, E: Drop + PartialEq>(answer: Result<T, E>, why: E) -> bool {
    match answer {
        Ok(_) => false,
        Err(error) => error == why,
    }
}

/// Whether the tip has these bytes from an offset on.
fn has(tip: &Buffer, offset: u64, bytes: &[u8]) -> bool {
    (tip.as_slice() == bytes) & (tip.offset() == offset) & (tip.is_empty() == bytes.is_empty())
}

/// A write at an offset, whether it goes in, and the bytes after it.
type Merge = (u64, &'static [u8], bool, &'static [u8]);

fn merges(tip: &mut Buffer, start: u64, merge: &Merge) -> bool {
    let (offset, bytes, within, after) = *merge;
    came(tip.merge(bytes, offset), within) & has(tip, start, after)
}

/// How many writes, one after the other, come to what is written, in a tip that begins there.
fn merges_each(tip: &mut Buffer, start: u64, writes: &[Merge]) -> usize {
    let mut right = 0_usize;
    for merge in writes {
        if merges(tip, start, merge) {
            right = right.wrapping_add(1);
        }
    }
    right
}

const MERGES: &[Merge] = &[
    (53, b"XYZ", true, b"abcXYZ"),
    (56, b"12", true, b"abcXYZ12"),
    (58, b"", true, b"abcXYZ12"),
    (58, b"!", false, b"abcXYZ12"),
];

/// Whether there is nothing.
fn is_nothing<T: Drop>(seen: Option<T>) -> bool {
    seen.is_none()
}

/// Whether nothing is to be written out before a tip has this length.
fn is_cut(tip: &mut Buffer, len: u64) -> Result<bool, NoMemory> {
    Ok(is_nothing(tip.resize(len)?))
}

/// Whether a tip that was cut takes writes up to where it had its end.
fn merges_cut(alloc: Global) -> bool {
    let mut tip = Buffer::new(alloc, 50, 8);
    let first = came(tip.merge(b"abcdefgh", 50), true);
    let cut = came(is_cut(&mut tip, 53), true);
    let seen = merges_each(&mut tip, 50, MERGES);
    first & cut & (seen == 4) & (tip.size() == 58)
}

/// Whether a tip at the end of numbers takes no byte.
fn merges_none(alloc: Global) -> bool {
    let mut last = Buffer::new(alloc, u64::MAX, 8);
    came(last.merge(b"a", u64::MAX), false)
}

#[test]
fn tip_merges(rt: HostRuntime) {
    assert!(rt; merges_cut(rt.alloc()) & merges_none(rt.alloc()));
}

const EDGES: &[Merge] = &[
    (10, b"abc", true, b"abc"),
    (13, b"d", true, b"abcd"),
    (11, b"XY", true, b"aXYd"),
    (9, b"q", false, b"aXYd"),
    (16, b"z", true, b"aXYd\0\0z"),
    (17, b"12", false, b"aXYd\0\0z"),
    (17, b"", true, b"aXYd\0\0z"),
    (18, b"", true, b"aXYd\0\0z\0"),
    (u64::MAX, b"a", false, b"aXYd\0\0z\0"),
];

#[test]
fn tip_merges_at_its_edges(rt: HostRuntime) {
    let mut tip = Buffer::new(rt.alloc(), 10, 8);
    let seen = merges_each(&mut tip, 10, EDGES);
    assert!(rt; (seen == 9) & (tip.size() == 18));
}

#[test]
fn tip_lacks_memory(rt: HostRuntime) {
    let mut tip = Buffer::new(rt.alloc(), 10, usize::MAX);
    let first = came(tip.merge(b"abc", 10), true);
    let lacks = failed(tip.merge(b"a", u64::MAX - 1), NoMemory);
    assert!(rt; first & lacks & has(&tip, 10, b"abc"));
}

/// Whether these bytes were taken, from an offset on.
fn took(taken: Option<(IoBuf, u64)>, offset: u64, bytes: &[u8]) -> bool {
    match taken {
        Some((buf, at)) => (buf.as_slice() == bytes) & (at == offset),
        None => bytes.is_empty(),
    }
}

/// Whether these bytes are taken out of a tip.
fn takes(tip: &mut Buffer, offset: u64, bytes: &[u8]) -> Result<bool, NoMemory> {
    Ok(took(tip.take()?, offset, bytes))
}

/// Whether a tip of `abc` has `bc` at its end.
fn slices(tip: &Buffer) -> Result<bool, NoMemory> {
    if tip.as_slice().len() < 3 {
        return Ok(false);
    }
    let cut = tip.slice(1, 3)?;
    Ok(cut.as_slice() == b"bc".as_slice())
}

/// Whether `abc` is taken out of a tip that had nothing.
pub fn takes_tip(alloc: Global) -> bool {
    let mut tip = Buffer::new(alloc, 3, 4);
    let nothing = came(takes(&mut tip, 3, b""), true);
    let merged = came(tip.merge(b"abc", 3), true) & (tip.size() == 6);
    let cut = came(slices(&tip), true);
    let all = came(takes(&mut tip, 3, b"abc"), true);
    nothing & merged & cut & all & has(&tip, 6, b"")
}

#[test]
fn tip_is_taken(rt: HostRuntime) {
    assert!(rt; takes_tip(rt.alloc()));
}

/// A new length, what is to be written out before it, and the tip after it.
pub type Resize = (u64, &'static [u8], u64, &'static [u8]);

/// Whether these bytes at 3 are to be written out before a tip has this length.
fn makes_room(tip: &mut Buffer, len: u64, before: &[u8]) -> Result<bool, NoMemory> {
    Ok(took(tip.resize(len)?, 3, before))
}

/// Whether a tip of `abc` at 3 comes to what is written.
fn resizes(alloc: Global, resize: &Resize) -> bool {
    let (len, before, offset, after) = *resize;
    let mut tip = Buffer::new(alloc, 3, 4);
    let merged = came(tip.merge(b"abc", 3), true);
    let taken = came(makes_room(&mut tip, len, before), true);
    merged & taken & has(&tip, offset, after)
}

/// How many come to what is written.
pub fn resizes_each(alloc: Global, each: &[Resize]) -> usize {
    let mut right = 0_usize;
    for resize in each {
        if resizes(alloc, resize) {
            right = right.wrapping_add(1);
        }
    }
    right
}

pub const RESIZES: &[Resize] = &[
    (7, b"abc", 7, b""),
    (6, b"abc", 6, b""),
    (5, b"", 3, b"ab"),
    (3, b"", 3, b""),
    (1, b"", 1, b""),
    (u64::MAX, b"abc", u64::MAX, b""),
];

#[test]
fn tip_is_resized(rt: HostRuntime) {
    assert!(rt; resizes_each(rt.alloc(), RESIZES) == 6);
}

/// A store in memory, whose calls don't fail.
pub fn memory(rt: &impl Abort, alloc: Global) -> MemStore {
    MemStore::new(alloc, FaultConfig::default()).expect(rt, "room")
}

/// Buffers of these bytes.
pub fn bufs(alloc: Global, bytes: &[u8]) -> Result<IoBufs, NoMemory> {
    let mut copy = Vec::new(alloc);
    copy.extend_from_slice(bytes)?;
    IoBufs::from_buf(alloc, IoBuf::from_vec(copy)?)
}

/// Whether a change was done at once. One that is gated is given up.
fn ended<S: Free>(store: &mut S, answer: Result<Done, Error>) -> Result<bool, Error> {
    match answer? {
        Done::Now => Ok(true),
        Done::Gated(ticket) => {
            store.give_up_sync(ticket);
            Ok(false)
        }
    }
}

/// Whether a change was done at once.
pub fn is_now<S: Free>(store: &mut S, answer: Result<Done, Error>) -> bool {
    came(ended(store, answer), true)
}

/// Whether bytes could be written at the start of a blob.
fn writes<S: Free>(alloc: Global, store: &mut S, blob: &S::Blob, bytes: &[u8]) -> bool {
    match bufs(alloc, bytes).ok() {
        Some(bytes) => {
            let answer = store.write_at(&mut NoEnv, blob, 0, bytes, WriteOptions::default());
            is_now(store, answer)
        }
        None => false,
    }
}

/// A read of so many bytes, by what the blob has in the store.
fn next(reader: &mut Read<MemStore>, store: &mut MemStore, len: usize) -> Result<IoBufs, Error>
    ensures bytes { StandsFor reader.old.ahead (content_at (blob_of store.old reader.old.blob)) → IfOk result (λ b. b.bytes ≡ take len (drop reader.old.ahead.position (content_at (blob_of store.old reader.old.blob)))) }
    ensures stands { StandsFor reader.old.ahead (content_at (blob_of store.old reader.old.blob)) → StandsFor reader.new.ahead (content_at (blob_of store.new reader.old.blob)) }
{
    reader.read(store, &mut NoEnv, len)
}

/// Whether buffers have these bytes.
fn hold(bytes: IoBufs, expected: &[u8]) -> bool {
    match bytes.coalesce().ok() {
        Some(buf) => buf.as_slice() == expected,
        None => false,
    }
}

/// Whether these bytes were read.
fn are(bytes: Result<IoBufs, Error>, expected: &[u8]) -> bool {
    match bytes.ok() {
        Some(bytes) => hold(bytes, expected),
        None => false,
    }
}

/// A read: the bytes, how many are held after it and how many are left.
type Piece = (usize, &'static [u8], usize, u64);

fn reads<S: Free>(store: &mut S, reader: &mut Read<S>, piece: &Piece) -> bool {
    let (len, expected, held, left) = *piece;
    let bytes = reader.read(store, &mut NoEnv, len);
    are(bytes, expected) & (reader.buffer_remaining() == held) & (reader.blob_remaining() == left)
}

/// How many reads, one after the other, come to what is written.
fn reads_each<S: Free>(store: &mut S, reader: &mut Read<S>, pieces: &[Piece]) -> usize {
    let mut right = 0_usize;
    for piece in pieces {
        if reads(store, reader, piece) {
            right = right.wrapping_add(1);
        }
    }
    right
}

/// Reads of `hello world!` by buffers of 8.
const READS: &[Piece] = &[
    (3, b"hel", 5, 9),
    (0, b"", 5, 9),
    (7, b"lo worl", 2, 2),
    (2, b"d!", 0, 0),
];

/// Whether a read of one byte more is refused.
fn ends<S: Free>(store: &mut S, reader: &mut Read<S>) -> bool {
    failed(
        reader.read(store, &mut NoEnv, 1),
        Error::BlobInsufficientLength,
    )
}

/// Whether the text is read, to its end and no further.
fn reads_text<S: Free>(store: &mut S, reader: &mut Read<S>) -> bool {
    let seen = reads_each(store, reader, READS);
    let last = ends(store, reader);
    (seen == 4) & last & (reader.position() == 12) & (reader.blob_size() == 12)
}

/// Whether so many bytes are held after a seek.
fn seeks<S: Free>(reader: &mut Read<S>, place: u64, held: usize) -> bool {
    went(reader.seek_to(place)) & (reader.buffer_remaining() == held)
}

const START: &[Piece] = &[(3, b"hel", 5, 9)];

fn seeks_text<S: Free>(store: &mut S, reader: &mut Read<S>) -> bool {
    let back = seeks(reader, 0, 0);
    let first = reads_each(store, reader, START);
    let on = seeks(reader, 6, 2) & seeks(reader, 5, 0);
    let past = failed(reader.seek_to(13), Error::BlobInsufficientLength);
    back & (first == 1) & on & past & (reader.position() == 5)
}

pub fn read_text<S: Free>(alloc: Global, store: &mut S) -> Result<bool, Error> {
    let (blob, _) = store.open(&mut NoEnv, "p", b"a")?;
    let written = writes(alloc, store, &blob, b"hello world!");
    let mut reader = Read::new(alloc, blob, 12, 8);
    let read = reads_text(store, &mut reader);
    let sought = seeks_text(store, &mut reader);
    reader.close(store);
    Ok(written & read & sought)
}

/// Whether the text of the blob of that name begins so.
fn begins(alloc: Global, store: &mut MemStore, bytes: &[u8]) -> Result<bool, Error> {
    let (blob, len) = store.open(&mut NoEnv, "p", b"a")?;
    let mut reader = Read::new(alloc, blob, len, 8);
    let first = next(&mut reader, store, bytes.len());
    reader.close(store);
    Ok(are(first, bytes))
}

#[test]
fn blob_is_read_by_buffers(rt: HostRuntime) {
    let mut store = memory(&rt, rt.alloc());
    let seen = came(read_text(rt.alloc(), &mut store), true);
    let begun = came(begins(rt.alloc(), &mut store, b"hello"), true);
    drop(store);
    assert!(rt; seen & begun);
}

/// Whether a change was refused so.
fn is_refusal<S: Free>(store: &mut S, answer: Result<Done, Error>, why: Error) -> bool {
    failed(ended(store, answer), why)
}

/// Whether a reader's blob can't be made so long that there is no memory for it.
fn lacks_memory<S: Free>(alloc: Global, store: &mut S) -> Result<bool, Error> {
    let (blob, len) = store.open(&mut NoEnv, "p", b"a")?;
    let answer = Read::new(alloc, blob, len, 8).resize(store, &mut NoEnv, u64::MAX);
    Ok(is_refusal(store, answer, Error::NoMemory))
}

/// Cuts the text of a reader's blob.
pub fn cut_text<S: Free>(alloc: Global, store: &mut S) -> Result<bool, Error> {
    let (blob, _) = store.open(&mut NoEnv, "p", b"a")?;
    let written = writes(alloc, store, &blob, b"hello world!");
    let answer = Read::new(alloc, blob, 12, 8).resize(store, &mut NoEnv, 5);
    Ok(is_now(store, answer) & written)
}

#[test]
fn reader_is_resized(rt: HostRuntime) {
    let mut store = memory(&rt, rt.alloc());
    let cut = came(cut_text(rt.alloc(), &mut store), true);
    let lacks = came(lacks_memory(rt.alloc(), &mut store), true);
    let kept = came(begins(rt.alloc(), &mut store, b"hello"), true);
    let synced = store.crash_draws() == 0;
    let long = came(is_long(&mut store, 5), true);
    drop(store);
    assert!(rt; cut & lacks & kept & long & synced);
}

/// A read through a writer: where, how many bytes, and which.
type Look = (u64, usize, &'static [u8]);

/// How many looks come to what is written.
fn sees_each<S: Free>(store: &mut S, writer: &Write<S>, looks: &[Look]) -> usize {
    let mut right = 0_usize;
    for (offset, len, expected) in looks {
        if are(writer.read_at(store, &mut NoEnv, *offset, *len), expected) {
            right = right.wrapping_add(1);
        }
    }
    right
}

/// Reads of `hello world`, of which `hello` lies in the blob.
const SEEN: &[Look] = &[
    (0, 11, b"hello world"),
    (1, 3, b"ell"),
    (4, 3, b"o w"),
    (5, 6, b" world"),
    (2, 0, b""),
];

/// Whether a read of one byte is refused so.
fn refuses<S: Free>(store: &mut S, writer: &Write<S>, offset: u64, why: Error) -> bool {
    failed(writer.read_at(store, &mut NoEnv, offset, 1), why)
}

fn sees<S: Free>(store: &mut S, writer: &Write<S>) -> bool {
    let seen = sees_each(store, writer, SEEN);
    let end = refuses(store, writer, 11, Error::BlobInsufficientLength);
    (seen == 5) & end & refuses(store, writer, u64::MAX, Error::OffsetOverflow)
}

/// Whether a write into the tip is taken in, or isn't.
fn tries<S: Free>(writer: &mut Write<S>, offset: u64, bytes: &[u8], went: bool) -> bool {
    came(writer.try_write_at(offset, bytes), went)
}

/// Writes into the tip of a writer behind `hello`.
fn extends<S: Free>(writer: &mut Write<S>) -> bool {
    let first = tries(writer, 5, b" world", true) & tries(writer, 4, b"x", false);
    first & tries(writer, 0, b"", true) & (writer.size() == 11) & writer.needs_sync()
}

pub fn look_over<S: Free>(alloc: Global, store: &mut S) -> Result<bool, Error> {
    let (blob, _) = store.open(&mut NoEnv, "p", b"a")?;
    let written = writes(alloc, store, &blob, b"hello");
    let mut writer = Write::new(alloc, blob, 5, 16);
    let extended = extends(&mut writer);
    let seen = sees(store, &writer);
    writer.close(store);
    Ok(written & extended & seen)
}

#[test]
fn tip_is_read_over_its_blob(rt: HostRuntime) {
    let mut store = memory(&rt, rt.alloc());
    let seen = came(look_over(rt.alloc(), &mut store), true);
    drop(store);
    assert!(rt; seen);
}

/// The writer that a call gave back.
pub fn done<S: Free>(store: &mut S, step: Step<S>) -> Result<Write<S>, Error> {
    match step {
        Stepped::Done(writer) => Ok(writer),
        Stepped::Waiting(op) => {
            op.give_up(store);
            Err(Error::Timeout)
        }
        Stepped::Failed(error) => Err(error),
    }
}

/// Writes buffers, where there was memory for them.
pub fn put_bufs<S: Free>(
    store: &mut S,
    writer: Write<S>,
    offset: u64,
    bytes: Result<IoBufs, NoMemory>,
    task: u64,
) -> Step<S> {
    match bytes.ok() {
        Some(bytes) => writer.write_at(store, &mut NoEnv, offset, bytes, task),
        None => {
            writer.close(store);
            Stepped::Failed(Error::NoMemory)
        }
    }
}

/// Writes bytes in one chunk.
pub fn put<S: Free>(
    alloc: Global,
    store: &mut S,
    writer: Write<S>,
    offset: u64,
    bytes: &[u8],
) -> Result<Write<S>, Error> {
    let step = put_bufs(store, writer, offset, bufs(alloc, bytes), 1);
    done(store, step)
}

pub fn synced<S: Free>(store: &mut S, writer: Write<S>) -> Result<Write<S>, Error> {
    let step = writer.sync(store, &mut NoEnv, 1);
    done(store, step)
}

/// A writer of the blob, with a tip of 16 bytes.
pub fn opened<S: Free>(alloc: Global, store: &mut S, name: &[u8]) -> Result<Write<S>, Error> {
    let (blob, len) = store.open(&mut NoEnv, "p", name)?;
    Ok(Write::new(alloc, blob, len, 16))
}

/// The writer, where it has exactly these bytes.
pub fn showing<S: Free>(
    store: &mut S,
    writer: Write<S>,
    expected: &[u8],
) -> Result<Write<S>, Error> {
    let shown = writer.read_at(store, &mut NoEnv, 0, expected.len());
    if are(shown, expected) & (writer.size() == expected.len() as u64) {
        return Ok(writer);
    }
    writer.close(store);
    Err(Error::Aborted)
}

/// Writes `hello world!` in three parts.
fn put_text<S: Free>(alloc: Global, store: &mut S) -> Result<Write<S>, Error> {
    let writer = opened(alloc, store, b"a")?;
    let writer = put(alloc, store, writer, 0, b"hello")?;
    let writer = synced(store, writer)?;
    let writer = put(alloc, store, writer, 5, b" world")?;
    put(alloc, store, writer, 11, b"!")
}

/// Syncs it where a crash would leave it.
pub fn write_text(alloc: Global, store: &mut MemStore) -> Result<(), Error> {
    let writer = put_text(alloc, store)?;
    let step = writer.sync_in_memory(store, &mut NoEnv, 1);
    let writer = done(store, step)?;
    let step = writer.wait_for_sync(store, &mut NoEnv, 1);
    done(store, step)?.close(store);
    Ok(())
}

/// The text at once, and its first bytes again.
const WHOLE: &[Piece] = &[(12, b"hello world!", 0, 0)];

fn reads_whole<S: Free>(store: &mut S, reader: &mut Read<S>) -> bool {
    let whole = reads_each(store, reader, WHOLE);
    let last = ends(store, reader);
    let back = seeks(reader, 0, 0);
    (whole == 1) & last & back & (reads_each(store, reader, START) == 1)
}

fn reads_back<S: Free>(alloc: Global, store: &mut S) -> Result<bool, Error> {
    let (blob, len) = store.open(&mut NoEnv, "p", b"a")?;
    let mut reader = Read::new(alloc, blob, len, 8);
    let read = reads_whole(store, &mut reader);
    reader.close(store);
    Ok(read & (len == 12))
}

#[test]
fn written_blob_is_read_back(rt: HostRuntime) {
    let mut store = memory(&rt, rt.alloc());
    let written = went(write_text(rt.alloc(), &mut store));
    let read = came(reads_back(rt.alloc(), &mut store), true);
    drop(store);
    assert!(rt; written & read);
}

/// Cuts or extends a writer.
fn resized<S: Free>(store: &mut S, writer: Write<S>, len: u64) -> Result<Write<S>, Error> {
    let step = writer.resize(store, &mut NoEnv, len, 1);
    done(store, step)
}

/// Cuts and extends a writer whose bytes are held back, in the end to a length for which there is no memory.
pub fn resize_text<S: Free>(alloc: Global, store: &mut S) -> Result<bool, Error> {
    let mut writer = opened(alloc, store, b"a")?;
    let went = tries(&mut writer, 0, b"hello", true);
    let writer = resized(store, writer, 3)?;
    let writer = resized(store, writer, 5)?;
    let writer = showing(store, writer, b"hel\0\0")?;
    let longest = resized(store, writer, u64::MAX);
    Ok(is_refused(store, longest, Error::NoMemory) & went)
}

#[test]
fn writer_is_resized(rt: HostRuntime) {
    let mut store = memory(&rt, rt.alloc());
    let resized = came(resize_text(rt.alloc(), &mut store), true);
    drop(store);
    assert!(rt; resized);
}

/// Two chunks, the first of three bytes.
fn two_chunks(alloc: Global) -> Result<IoBufs, NoMemory> {
    let mut chunks = bufs(alloc, b"abc")?;
    chunks.append_all(bufs(alloc, b"def")?)?;
    Ok(chunks)
}

/// A write of two chunks, through a tip of four bytes.
fn put_chunks<S: Free>(alloc: Global, store: &mut S) -> Result<Write<S>, Error> {
    let (blob, len) = store.open(&mut NoEnv, "p", b"a")?;
    let writer = Write::new(alloc, blob, len, 4);
    let step = put_bufs(store, writer, 0, two_chunks(alloc), 1);
    let writer = done(store, step)?;
    showing(store, writer, b"abcdef")
}

/// Closes the writer that a call gave back.
pub fn closed<S: Free>(store: &mut S, answer: Result<Write<S>, Error>) -> Result<(), Error> {
    answer?.close(store);
    Ok(())
}

/// Whether a writer was refused so.
pub fn is_refused<S: Free>(store: &mut S, answer: Result<Write<S>, Error>, why: Error) -> bool {
    failed(closed(store, answer), why)
}

/// Writes through the tip, past it and before it, and one past the end of numbers.
fn write_chunks<S: Free>(alloc: Global, store: &mut S) -> Result<bool, Error> {
    let writer = put_chunks(alloc, store)?;
    let writer = put(alloc, store, writer, 6, b"0123456789")?;
    let writer = showing(store, writer, b"abcdef0123456789")?;
    let writer = put(alloc, store, writer, 2, b"xy")?;
    let writer = put(alloc, store, writer, 18, b"z")?;
    let writer = showing(store, writer, b"abxyef0123456789\0\0z")?;
    let past = put(alloc, store, writer, u64::MAX, b"ab");
    Ok(is_refused(store, past, Error::OffsetOverflow))
}

#[test]
fn chunks_are_written(rt: HostRuntime) {
    let mut store = memory(&rt, rt.alloc());
    let written = came(write_chunks(rt.alloc(), &mut store), true);
    drop(store);
    assert!(rt; written);
}

/// Syncs `ab`, and writes out `cd` behind it with no sync.
fn write_behind<S: Free>(alloc: Global, store: &mut S) -> Result<(), Error> {
    let (blob, len) = store.open(&mut NoEnv, "p", b"a")?;
    let writer = put(alloc, store, Write::new(alloc, blob, len, 2), 0, b"ab")?;
    let writer = synced(store, writer)?;
    let writer = put(alloc, store, writer, 2, b"cd")?;
    put(alloc, store, writer, 4, b"e")?.close(store);
    Ok(())
}

/// Crashes, and answers how many numbers that may draw.
pub fn crash(alloc: Global, store: &mut MemStore) -> Result<usize, Error> {
    let mut env = NoEnv;
    let draws = store.crash_draws();
    env.reserve(draws)?;
    let mut choices = Vec::new(alloc);
    choices.reserve(draws)?;
    store.crash(&mut env, &mut choices);
    Ok(draws)
}

/// Whether the blob is so long.
fn is_long<S: Free>(store: &mut S, expected: u64) -> Result<bool, Error> {
    let (blob, len) = store.open(&mut NoEnv, "p", b"a")?;
    store.close(blob);
    Ok(len == expected)
}

/// What the blob has then and after a crash, and how many numbers that may draw.
fn crash_behind(alloc: Global, store: &mut MemStore) -> Result<bool, Error> {
    write_behind(alloc, store)?;
    let before = has_bytes(alloc, store, b"a", b"abcd")?;
    let draws = crash(alloc, store)?;
    let after = has_bytes(alloc, store, b"a", b"ab")?;
    Ok(before & (draws == 2) & after)
}

#[test]
fn crash_leaves_what_was_synced(rt: HostRuntime) {
    let mut store = memory(&rt, rt.alloc());
    let left = came(crash_behind(rt.alloc(), &mut store), true);
    drop(store);
    assert!(rt; left);
}

/// The writer and the handle that a start gave.
pub fn begun<S: Free>(store: &mut S, started: Started<S>) -> Result<(Write<S>, SyncHandle), Error> {
    match started {
        Begun::Done(writer, handle) => Ok((writer, handle)),
        Begun::Waiting(op) => {
            op.give_up(store);
            Err(Error::Timeout)
        }
        Begun::Failed(error) => Err(error),
    }
}

/// Starts a sync.
pub fn start<S: Free>(store: &mut S, writer: Write<S>) -> Result<(Write<S>, SyncHandle), Error> {
    let started = writer.start_sync(store, &mut NoEnv, 1);
    begun(store, started)
}

/// Whether the poll of a handle answers so.
pub fn polls<S: Free>(
    store: &mut S,
    writer: &mut Write<S>,
    mut handle: SyncHandle,
    wanted: Poll<Result<(), Error>>,
) -> bool {
    same(handle.poll(writer, store, &mut NoEnv, 1), wanted)
}

fn is_done<S: Free>(store: &mut S, writer: &mut Write<S>, handle: SyncHandle) -> bool {
    polls(store, writer, handle, Poll::Ready(Ok(())))
}

/// Starts a sync, asks for it, and starts one where nothing is to be synced.
pub fn start_syncs<S: Free>(alloc: Global, store: &mut S) -> Result<bool, Error> {
    let writer = opened(alloc, store, b"a")?;
    let writer = put(alloc, store, writer, 0, b"ab")?;
    let (mut writer, first) = start(store, writer)?;
    let began = writer.needs_sync();
    let ended = is_done(store, &mut writer, first) & !writer.needs_sync();
    let (mut writer, second) = start(store, writer)?;
    let shared = is_done(store, &mut writer, second) & is_done(store, &mut writer, first);
    writer.close(store);
    Ok(began & ended & shared)
}

#[test]
fn sync_is_started(rt: HostRuntime) {
    let mut store = memory(&rt, rt.alloc());
    let started = came(start_syncs(rt.alloc(), &mut store), true);
    drop(store);
    assert!(rt; started);
}

/// Whether the blob of a name has exactly these bytes.
pub fn has_bytes<S: Free>(
    alloc: Global,
    store: &mut S,
    name: &[u8],
    expected: &[u8],
) -> Result<bool, Error> {
    let writer = opened(alloc, store, name)?;
    showing(store, writer, expected)?.close(store);
    Ok(true)
}

/// Two writers of one store.
type Two<S> = (Write<S>, Write<S>);

/// Writes bytes at the end of a writer, and syncs it.
fn add_and_sync<S: Free>(
    alloc: Global,
    store: &mut S,
    writer: Write<S>,
    bytes: &[u8],
) -> Result<Write<S>, Error> {
    let end = writer.size();
    let writer = put(alloc, store, writer, end, bytes)?;
    synced(store, writer)
}

/// Both writers, the other one first.
fn turned<S: Free>(
    store: &mut S,
    answer: Result<Write<S>, Error>,
    other: Write<S>,
) -> Result<Two<S>, Error> {
    match answer {
        Ok(writer) => Ok((other, writer)),
        Err(error) => {
            other.close(store);
            Err(error)
        }
    }
}

/// A turn of the first one.
fn turn<S: Free>(
    alloc: Global,
    store: &mut S,
    both: Two<S>,
    bytes: &[u8],
) -> Result<Two<S>, Error> {
    let (writer, other) = both;
    let answer = add_and_sync(alloc, store, writer, bytes);
    turned(store, answer, other)
}

fn open_both<S: Free>(alloc: Global, store: &mut S) -> Result<Two<S>, Error> {
    let first = opened(alloc, store, b"a")?;
    let second = opened(alloc, store, b"b");
    turned(store, second, first)
}

/// Writes more than the tip has room for, so that a change is open, and closes the writer.
fn leave_open<S: Free>(alloc: Global, store: &mut S, writer: Write<S>) -> Result<(), Error> {
    put(alloc, store, writer, 0, b"0123456789abcdefg")?.close(store);
    Ok(())
}

/// Writes `abcd` by one writer and `xyz!` by another, each in two parts that are synced by turns, and then over the first ones.
fn take_turns<S: Free>(alloc: Global, store: &mut S) -> Result<(), Error> {
    let both = open_both(alloc, store)?;
    let both = turn(alloc, store, both, b"ab")?;
    let both = turn(alloc, store, both, b"xyz")?;
    let both = turn(alloc, store, both, b"cd")?;
    let (first, second) = turn(alloc, store, both, b"!")?;
    second.close(store);
    leave_open(alloc, store, first)
}

#[test]
fn crash_leaves_what_each_writer_synced(rt: HostRuntime) {
    let mut store = memory(&rt, rt.alloc());
    let written = went(take_turns(rt.alloc(), &mut store));
    let crashed = came(crash(rt.alloc(), &mut store), 2);
    let first = came(has_bytes(rt.alloc(), &mut store, b"a", b"abcd"), true);
    let second = came(has_bytes(rt.alloc(), &mut store, b"b", b"xyz!"), true);
    drop(store);
    assert!(rt; written & crashed & first & second);
}
