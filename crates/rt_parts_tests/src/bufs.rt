// What no clause says: that calls succeed where memory is there, where a chunk ends, and what is
// written in place.
ghost use Rattle.std.specs.Prelude.{◌≡◌, IfOk};

use rt_base::NoMemory;
use rt_bufs::{Builder, IoBuf, IoBufMut, IoBufs, IoBufsMut};
use std::alloc::Global;
use std::process::Abort;

fn buf(rt: &impl Abort, alloc: Global, bytes: &[u8]) -> IoBuf
    ensures { result ≡ bytes.now }
{
    let copy = Vec::from_slice(alloc, bytes).expect(rt, "room");
    IoBuf::from_vec(copy).expect(rt, "room")
}

fn joined(alloc: Global, bufs: &IoBufs) -> Result<Vec<u8>, NoMemory>
    ensures { IfOk result (λ v. v.items ≡ bufs.now.bytes) }
{
    let mut all = Vec::new(alloc);
    for index in 0..bufs.chunk_count() {
        all.extend_from_slice(bufs.chunk_at(index))?;
    }
    Ok(all)
}

fn one_chunk(rt: &impl Abort, alloc: Global, bytes: &[u8]) -> IoBufs
    ensures { result.bytes ≡ bytes.now }
{
    IoBufs::from_buf(alloc, buf(rt, alloc, bytes)).expect(rt, "room")
}

// A chunk for each of these texts that isn't empty.
pub fn chunks(rt: &impl Abort, alloc: Global, texts: &[&str]) -> IoBufs {
    let mut bufs = IoBufs::new(alloc);
    for text in texts {
        bufs.append(buf(rt, alloc, text.as_bytes()))
            .expect(rt, "room");
    }
    bufs
}

// "abcde" in the chunks "ab", "c" and "de".
fn three_chunks(rt: &impl Abort, alloc: Global) -> IoBufs {
    chunks(rt, alloc, &["ab", "", "c", "de"])
}

#[test]
fn surface(rt: HostRuntime) {
    let alloc = rt.alloc();
    assert!(rt; cut(&rt, alloc));
    assert!(rt; given_up(&rt, alloc));
    assert!(rt; written(&rt, alloc));
    assert!(rt; frozen(&rt, alloc));
    assert!(rt; shared_in_a_row(&rt, alloc));
    assert!(rt; cut_in_a_row(&rt, alloc));
    assert!(rt; joined_in_a_row(&rt, alloc));
    assert!(rt; written_in_a_row(&rt, alloc));
    assert!(rt; put_together(&rt, alloc));
}

fn is(bytes: &[u8], text: &str) -> bool {
    bytes == text.as_bytes()
}

fn reads(buf: IoBuf, text: &str) -> bool {
    is(buf.as_slice(), text)
}

fn coalesces(rt: &impl Abort, bufs: IoBufs, text: &str) -> bool {
    reads(bufs.coalesce().expect(rt, "room"), text)
}

fn begins(bufs: IoBufs, text: &str) -> bool {
    is(bufs.chunk(), text)
}

fn cut(rt: &impl Abort, alloc: Global) -> bool {
    let mut all = buf(rt, alloc, b"abcde");
    let middle = all.slice(1, 3).expect(rt, "room");
    let front = all.split_to(1).expect(rt, "room");
    reads(middle, "bc") & reads(front, "a") & reads(all, "bcde")
}

fn given_up(rt: &impl Abort, alloc: Global) -> bool {
    let mut all = buf(rt, alloc, b"abcde");
    all.advance(1);
    all.truncate(2);
    let sound = (all.len() == 2) & !all.is_empty();
    let rest = all.into_mut().expect(rt, "room");
    sound & is(rest.as_slice(), "bc")
}

fn written(rt: &impl Abort, alloc: Global) -> bool {
    let mut all = IoBufMut::with_capacity(alloc, 8).expect(rt, "room");
    all.put_slice(b"abc");
    all.put_zeros(2);
    all.overwrite(1, b"yz");
    is(all.as_slice(), "ayz\0\0")
}

fn frozen(rt: &impl Abort, alloc: Global) -> bool {
    let mut all = IoBufMut::with_capacity(alloc, 2).expect(rt, "room");
    all.put_slice(b"ab");
    all.truncate(1);
    let sound = (all.len() == 1) & (all.capacity() >= 2);
    all.clear();
    all.put_slice(b"cd");
    sound & reads(all.freeze().expect(rt, "room"), "cd")
}

fn shared_in_a_row(rt: &impl Abort, alloc: Global) -> bool {
    let mut bufs = one_chunk(rt, alloc, b"ab");
    bufs.append(buf(rt, alloc, b"cd")).expect(rt, "room");
    let sound = (bufs.len() == 4) & (bufs.chunk_count() == 2) & !bufs.is_empty();
    if !sound {
        return false;
    }
    is(bufs.chunk_at(1), "cd") & begins(bufs, "ab")
}

fn cut_in_a_row(rt: &impl Abort, alloc: Global) -> bool {
    let mut bufs = IoBufs::new(alloc);
    bufs.append(buf(rt, alloc, b"abcd")).expect(rt, "room");
    let front = bufs.split_to(1).expect(rt, "room");
    bufs.advance(1);
    begins(front, "a") & coalesces(rt, bufs, "cd")
}

fn joined_in_a_row(rt: &impl Abort, alloc: Global) -> bool {
    let mut bufs = one_chunk(rt, alloc, b"ab");
    bufs.append_all(three_chunks(rt, alloc)).expect(rt, "room");
    bufs.truncate(6);
    let counted = bufs.chunk_count() == 4;
    counted & coalesces(rt, bufs, "ababcd")
}

fn written_in_a_row(rt: &impl Abort, alloc: Global) -> bool {
    let mut one = IoBufMut::with_capacity(alloc, 2).expect(rt, "room");
    one.put_slice(b"ab");
    let bufs = IoBufsMut::from_mut(alloc, one).expect(rt, "room");
    if bufs.chunk_count() != 1 {
        return false;
    }
    let sound = (bufs.len() == 2) & (bufs.capacity() >= 2) & is(bufs.chunk_at(0), "ab");
    let all = bufs.coalesce().expect(rt, "room");
    let again = IoBufsMut::from_mut(alloc, all).expect(rt, "room");
    sound & begins(again.freeze().expect(rt, "room"), "ab")
}

fn put_together(rt: &impl Abort, alloc: Global) -> bool {
    let mut builder = Builder::new(alloc);
    builder.put_slice(b"a").expect(rt, "room");
    builder.push(buf(rt, alloc, b"b")).expect(rt, "room");
    builder.put_slice(b"c").expect(rt, "room");
    coalesces(rt, builder.finish().expect(rt, "room"), "abc")
}

// Where "abcde" is cut, and of each half its bytes and how many chunks it has.
type Cut = (usize, &'static str, usize, &'static str, usize);

const CUTS: &[Cut] = &[
    (0, "", 0, "abcde", 3),
    (1, "a", 1, "bcde", 3),
    (2, "ab", 1, "cde", 2),
    (3, "abc", 2, "de", 1),
    (4, "abcd", 3, "e", 1),
    (5, "abcde", 3, "", 0),
];

// Whether a half has these bytes in so many chunks.
fn is_half(rt: &impl Abort, alloc: Global, bufs: IoBufs, bytes: &str, chunks: usize) -> bool {
    let counted = bufs.chunk_count() == chunks;
    let all = joined(alloc, &bufs).expect(rt, "room");
    drop(bufs);
    counted & is(all.as_slice(), bytes)
}

fn halves(rt: &impl Abort, alloc: Global, cut: &Cut) {
    let (n, front, front_chunks, rest, rest_chunks) = *cut;
    let mut left = three_chunks(rt, alloc);
    let cut = left.split_to(n.min(left.len())).expect(rt, "room");
    assert!(rt; is_half(rt, alloc, cut, front, front_chunks), "at {n}");
    assert!(rt; is_half(rt, alloc, left, rest, rest_chunks), "at {n}");
}

// A cut keeps the ends of chunks that were there, and an empty buffer is no chunk.
#[test]
fn cuts_between_and_within_chunks(rt: HostRuntime) {
    for cut in CUTS {
        halves(&rt, rt.alloc(), cut);
    }
}

// One of several owners gets a copy to write, and the others' bytes stay.
#[test]
fn a_shared_buffer_is_copied_to_be_written(rt: HostRuntime) {
    assert!(rt; written_apart(&rt, rt.alloc()));
}

fn written_apart(rt: &impl Abort, alloc: Global) -> bool {
    let one = buf(rt, alloc, b"ab");
    let other = one.slice(0, 2).expect(rt, "room");
    let mut copy = one.into_mut().expect(rt, "room");
    copy.overwrite(0, b"x");
    is(copy.as_slice(), "xb") & reads(other, "ab")
}
