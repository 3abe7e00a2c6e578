// Buffers in a row, read as one run of bytes.
ghost use Rattle.std.specs.Prelude.{◌≡◌, ◌+◌, ◌-◌, ◌<◌, ◌≤◌, ◌↔◌, [], ◌++◌, length, take, drop, slice_get, slice_index_or, unwrap_or, IsTrue, IfSome, IfNone, IsOk, IfOk, OnOk, OnErr, Some};
ghost use Rattle.std.specs.List.{concat};
ghost use Rattle.std.specs.VecDeque.{deque_len, deque_capacity};
ghost use Rattle.rt_bufs.specs.Chunked.{NoneEmpty, chunks_of};

use crate::{IoBuf, IoBufMut};
use bytes::BytesMut;
use rt_base::NoMemory;
use std::alloc::Global;
use std::collections::VecDeque;
use std::marker::Model;
use std::mem;

/// Shared buffers in a row, the chunks, read as one run of bytes. Empty ones aren't kept, so the first chunk of buffers
/// that have bytes has bytes.
///
/// Contracts see the bytes, which most callers need alone, and the chunks, for one who writes them out without a copy.
/// The chunks are in a queue with two ends, since they are cut at the front and added at the end.
#[derive(Drop)]
pub struct IoBufs {
    chunks: VecDeque<IoBuf>,
    len: usize,
}

impl Model for IoBufs {
    ghost use Rattle.std.specs.Prelude.{◌≡◌, length};
    ghost use Rattle.std.specs.List.{concat};
    ghost use Rattle.rt_bufs.specs.Chunked.{Chunked, NoneEmpty};

    ghost Value = { Chunked };

    ghost view = { λ b. record { bytes = concat b.chunks.items; chunks = b.chunks.items } };

    ghost invariant = { λ b. (b.len ≡ length (concat b.chunks.items)) × NoneEmpty b.chunks.items };
}

impl IoBufs {
    /// Makes buffers without bytes.
    pub fn new(alloc: Global) -> Self
        ensures bytes { result.bytes ≡ [] }
        ensures chunks { result.chunks ≡ [] }
    {
        IoBufs {
            chunks: VecDeque::new(alloc),
            len: 0,
        }
    }

    /// Makes buffers of the bytes of one buffer.
    pub fn from_buf(alloc: Global, buf: IoBuf) -> Result<IoBufs, NoMemory>
        ensures bytes { IfOk result (λ b. b.bytes ≡ buf) }
        ensures chunks { IfOk result (λ b. b.chunks ≡ chunks_of buf) }
    {
        let mut bufs = IoBufs {
            chunks: VecDeque::with_capacity(alloc, 1)?,
            len: 0,
        };
        bufs.append(buf)?;
        Ok(bufs)
    }

    /// Returns how many bytes there are.
    pub fn len(&self) -> usize
        ensures { result ≡ length self.now.bytes }
    {
        self.len
    }

    /// Returns whether there are no bytes.
    pub fn is_empty(&self) -> bool
        ensures { IsTrue result ↔ (self.now.bytes ≡ []) }
    {
        self.len == 0
    }

    /// Returns how many chunks there are. The chunks in order are the bytes, and none is empty.
    pub fn chunk_count(&self) -> usize
        ensures count { result ≡ length self.now.chunks }
        ensures joined { concat self.now.chunks ≡ self.now.bytes }
        ensures filled { NoneEmpty self.now.chunks }
    {
        self.chunks.len()
    }

    /// Returns the first chunk, or no bytes where there is no chunk.
    pub fn chunk(&self) -> &[u8]
        ensures first { result.now ≡ unwrap_or (slice_get self.now.chunks 0) [] }
        ensures front { take (length result.now) self.now.bytes ≡ result.now }
        ensures fits { length result.now ≤ length self.now.bytes }
        ensures some { 0 < length self.now.bytes → 0 < length result.now }
    {
        match self.chunks.front() {
            Some(first) => first.as_slice(),
            None => &[],
        }
    }

    /// Returns the chunk with this number, which counts from 0.
    pub fn chunk_at(&self, index: usize) -> &[u8]
        requires { index < length self.now.chunks }
        ensures chunk { slice_get self.now.chunks index ≡ Some result.now }
        ensures next { concat (take (index + 1) self.now.chunks)
            ≡ concat (take index self.now.chunks) ++ result.now }
    {
        self.chunks[index].as_slice()
    }

    /// Adds the bytes of `buf` at the end, with no copy. An empty buffer takes no memory.
    pub fn append(&mut self, buf: IoBuf) -> Result<(), NoMemory>
        ensures bytes { OnOk result (self.new.bytes ≡ self.old.bytes ++ buf) }
        ensures chunks { OnOk result (self.new.chunks ≡ self.old.chunks ++ chunks_of buf) }
        ensures refused { OnErr result (self.new ≡ self.old) }
        ensures empty { buf ≡ [] → IsOk result }
    {
        if buf.is_empty() {
            return Ok(());
        }
        let Some(len) = self.len.checked_add(buf.len()) else {
            return Err(NoMemory);
        };
        self.chunks.push_back(buf)?;
        self.len = len;
        Ok(())
    }

    /// Adds the bytes of `other` at the end, with no copy.
    pub fn append_all(&mut self, other: IoBufs) -> Result<(), NoMemory>
        ensures bytes { OnOk result (self.new.bytes ≡ self.old.bytes ++ other.bytes) }
        ensures chunks { OnOk result (self.new.chunks ≡ self.old.chunks ++ other.chunks) }
        ensures refused { OnErr result (self.new ≡ self.old) }
    {
        let IoBufs { mut chunks, len } = other;
        let Some(len) = self.len.checked_add(len) else {
            return Err(NoMemory);
        };
        let count = chunks.len();
        self.chunks.reserve(count)?;
        move_first(&mut chunks, &mut self.chunks, count);
        self.len = len;
        Ok(())
    }

    // Moves all bytes of `tail` to the end, with no copy.
    pub(crate) fn take_in(&mut self, tail: &mut BytesMut) -> Result<(), NoMemory>
        ensures bytes { OnOk result (self.new.bytes ≡ self.old.bytes ++ tail.old.items) }
        ensures taken { OnOk result (tail.new.items ≡ []) }
        ensures refused { OnErr result ((self.new ≡ self.old) × (tail.new.items ≡ tail.old.items)) }
    {
        if tail.is_empty() {
            return Ok(());
        }
        let Some(len) = self.len.checked_add(tail.len()) else {
            return Err(NoMemory);
        };
        self.chunks.reserve(1)?;
        let alloc = *self.chunks.allocator();
        let bytes = tail.freeze_to(tail.len())?;
        self.chunks.push_back_reserved(IoBuf::of(alloc, bytes));
        self.len = len;
        Ok(())
    }

    /// Drops the first `n` bytes. It takes no memory.
    pub fn advance(&mut self, n: usize)
        requires { n ≤ length self.old.bytes }
        ensures { self.new.bytes ≡ drop n self.old.bytes }
    {
        let mut left = n;
        while left > 0 {
            left -= self.advance_first(left);
        }
    }

    // Gives up to `n` bytes of the first chunk up, and says how many.
    fn advance_first(&mut self, n: usize) -> usize
        requires { (0 < n) × (n ≤ length self.old.bytes) }
        ensures count { (0 < result) × (result ≤ n) }
        ensures rest { self.new.bytes ≡ drop result self.old.bytes }
    {
        let Some(mut first) = self.chunks.pop_front() else {
            unreachable!()
        };
        let len = first.len();
        if len <= n {
            self.len -= len;
            return len;
        }
        first.advance(n);
        self.chunks.push_front_reserved(first);
        self.len -= n;
        n
    }

    /// Drops the bytes from the place `len` on, where there are such. It takes no memory.
    pub fn truncate(&mut self, len: usize)
        ensures { self.new.bytes ≡ take len self.old.bytes }
    {
        let mut left = self.len.saturating_sub(len);
        while left > 0 {
            left -= self.truncate_last(left);
        }
    }

    // Gives up to `n` bytes of the last chunk up, the last ones, and says how many.
    fn truncate_last(&mut self, n: usize) -> usize
        requires { (0 < n) × (n ≤ length self.old.bytes) }
        ensures count { (0 < result) × (result ≤ n) }
        ensures rest { self.new.bytes ≡ take (length self.old.bytes - result) self.old.bytes }
    {
        let Some(mut last) = self.chunks.pop_back() else {
            unreachable!()
        };
        let len = last.len();
        if len <= n {
            self.len -= len;
            return len;
        }
        last.truncate(len - n);
        self.chunks.push_back_reserved(last);
        self.len -= n;
        n
    }

    /// Cuts the first `n` bytes off and returns them, with no copy. A cut at either end takes no memory.
    pub fn split_to(&mut self, n: usize) -> Result<IoBufs, NoMemory>
        requires { n ≤ length self.old.bytes }
        ensures front { IfOk result (λ b. b.bytes ≡ take n self.old.bytes) }
        ensures rest { OnOk result (self.new.bytes ≡ drop n self.old.bytes) }
        ensures joined { IfOk result (λ b. b.bytes ++ self.new.bytes ≡ self.old.bytes) }
        ensures refused { OnErr result (self.new ≡ self.old) }
        ensures none { n ≡ 0 → IsOk result }
        ensures whole { n ≡ length self.old.bytes → IsOk result }
    {
        let alloc = *self.chunks.allocator();
        if n == 0 {
            return Ok(IoBufs::new(alloc));
        }
        if n == self.len {
            return Ok(mem::replace(self, IoBufs::new(alloc)));
        }
        // All that can be refused comes first.
        let (whole, within) = self.place_of(n);
        let mut front = VecDeque::with_capacity(alloc, whole + 1)?;
        let edge = self.edge(whole, within)?;
        move_first(&mut self.chunks, &mut front, whole);
        self.len -= n - within;
        self.advance(within);
        if let Some(edge) = edge {
            front.push_back_reserved(edge);
        }
        Ok(IoBufs {
            chunks: front,
            len: n,
        })
    }

    // How many whole chunks the first `n` bytes are, and how many bytes of the next chunk.
    fn place_of(&self, n: usize) -> (usize, usize)
        requires { n ≤ length self.now.bytes }
        ensures sum { length (concat (take result.0 self.now.chunks)) + result.1 ≡ n }
        ensures whole { result.0 ≤ length self.now.chunks }
        ensures within { 0 < result.1 → result.0 < length self.now.chunks
            × (result.1 < length (slice_index_or self.now.chunks result.0 [])) }
    {
        let mut left = n;
        for index in 0..self.chunks.len() {
            let len = self.chunks[index].len();
            if left < len {
                return (index, left);
            }
            left -= len;
        }
        (self.chunks.len(), left)
    }

    // Another owner of the first `len` bytes of a chunk, if there are any.
    fn edge(&self, index: usize, len: usize) -> Result<Option<IoBuf>, NoMemory>
        requires { 0 < len → index < length self.now.chunks
            × (len ≤ length (slice_index_or self.now.chunks index [])) }
        ensures none { IfOk result (λ e. IfNone e (len ≡ 0)) }
        ensures some { IfOk result (λ e. IfSome e (λ b. (0 < length b)
            × (b ≡ take len (concat (drop index self.now.chunks))))) }
    {
        if len == 0 {
            return Ok(None);
        }
        Ok(Some(self.chunks[index].slice(0, len)?))
    }

    /// Returns all bytes as one buffer. It copies them where they are in two chunks or more, and else takes no memory.
    /// A refusal gives them up.
    pub fn coalesce(mut self) -> Result<IoBuf, NoMemory>
        ensures bytes { IfOk result (λ b. b ≡ self.bytes) }
        ensures one { length self.chunks ≤ 1 → IsOk result }
    {
        let alloc = *self.chunks.allocator();
        if self.chunks.len() > 1 {
            return self.copied();
        }
        match self.chunks.pop_front() {
            Some(only) => Ok(only),
            None => Ok(IoBuf::empty(alloc)),
        }
    }

    // A copy of all bytes.
    fn copied(self) -> Result<IoBuf, NoMemory>
        ensures { IfOk result (λ b. b ≡ self.bytes) }
    {
        let IoBufs { mut chunks, len } = self;
        let mut all = IoBufMut::with_capacity(*chunks.allocator(), len)?;
        while let Some(chunk) = chunks.pop_front() {
            all.put_slice(chunk.as_slice());
        }
        all.freeze()
    }
}

// Moves the first `count` chunks to the end of `to`, which has room for them.
fn move_first(from: &mut VecDeque<IoBuf>, to: &mut VecDeque<IoBuf>, count: usize)
    requires enough { count ≤ length from.old.items }
    requires room { deque_len to.old + count ≤ deque_capacity to.old }
    ensures from { from.new.items ≡ drop count from.old.items }
    ensures to { to.new.items ≡ to.old.items ++ take count from.old.items }
    ensures used { deque_len to.new ≡ deque_len to.old + count }
    ensures room { deque_capacity to.new ≡ deque_capacity to.old }
{
    for _ in 0..count {
        match from.pop_front() {
            Some(chunk) => to.push_back_reserved(chunk),
            None => unreachable!(),
        }
    }
}
